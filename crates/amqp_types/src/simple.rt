//! Values that are null, a boolean or a number without a sign: what one says is given by itself.

ghost use Rattle.std.specs.Prelude.{◌≡◌, IsTrue, IfSome, Some, option_map};
ghost use Rattle.amqp_types.specs.Reading.{fixed_at, seen_at, item_at};
ghost use Rattle.amqp_types.specs.Items.{is_read};
ghost use Rattle.amqp_types.specs.Form.{kept_form};
ghost use Rattle.amqp_types.specs.declared.code.Code.TheVariants.{Fixed};
ghost use Rattle.amqp_types.specs.Codes.{code_of};
ghost use Rattle.amqp_types.specs.Simple.{simple_in, simple_data, simple_value, wanted, uint_said, boolean_said};
ghost use Rattle.amqp_types.specs.View.{part_of};

use crate::code::{Code, Scalar};
use crate::constructor::Form;
use crate::known::known_element;
use crate::primitive::read_fixed;
use crate::value::Content;
use flow_counts::MAX_DEPTH;

/// What a value says that is null, a boolean or a number without a sign: part 1, 1.6.1 to 1.6.6.
#[derive(Clone, Copy, Debug, PartialEq, Eq)]
pub enum Simple {
    Null,
    Boolean(bool),
    Ubyte(u8),
    Ushort(u16),
    Uint(u32),
    Ulong(u64),
}

impl Simple {
    /// What a value says, if it is such a one.
    #[inline(always)]
    fn of(content: Content) -> Option<Simple>
        ensures { result ≡ simple_in (part_of content.entry) }
    {
        let simple = match content {
            Content::Null => Simple::Null,
            Content::Boolean(value) => Simple::Boolean(value),
            Content::Ubyte(value) => Simple::Ubyte(value),
            Content::Ushort(value) => Simple::Ushort(value),
            Content::Uint(value) => Simple::Uint(value),
            Content::Ulong(value) => Simple::Ulong(value),
            _ => return None,
        };
        Some(simple)
    }
}

/// What the data of a type of fixed width says, and the octets behind it.
#[inline(always)]
fn read_simple(scalar: Scalar, bytes: &[u8]) -> Option<(Simple, &[u8])>
    ensures { option_map (λ x. (x.0, x.1.now)) result ≡ simple_data (fixed_at scalar 0 bytes.now) }
{
    match read_fixed(scalar, 0, bytes) {
        Ok((content, rest)) => Some((Simple::of(content)?, rest)),
        Err(_) => None,
    }
}

/// What the value at the front of the octets says, and the octets behind it.
#[tactic(auto, unfolding(crate::specs::Reading::seen_at, crate::specs::Reading::value_at, crate::specs::Reading::value_by, crate::specs::Reading::coded_at))]
#[inline(always)]
fn simple_front(bytes: &[u8]) -> Option<(Simple, &[u8])>
    ensures { option_map (λ x. (x.0, x.1.now)) result ≡ simple_value (seen_at MAX_DEPTH 0 bytes.now) }
{
    let Some((first, data)) = bytes.split_first() else {
        return None;
    };
    let Some(code) = Code::of(*first) else {
        return None;
    };
    match code {
        Code::Fixed(scalar) => read_simple(scalar, data),
        _ => None,
    }
}

/// What the element at the front of the octets says, which were read before, and the octets behind it.
fn simple_element<'a>(form: Form<'a>, bytes: &'a [u8]) -> Option<(Simple, &'a [u8])>
    requires { IsTrue (is_read (item_at MAX_DEPTH (kept_form (Some form)) 0 bytes.now)) }
    ensures { option_map (λ x. (x.0, x.1.now)) result ≡ simple_value (item_at MAX_DEPTH (kept_form (Some form.entry)) 0 bytes.now) }
{
    let (value, rest) = known_element(form, bytes);
    Some((Simple::of(value.content)?, rest))
}

/// What the item at the front of the octets says, which were read before, and the octets behind it.
#[tactic(auto, unfolding(crate::specs::Reading::item_at))]
#[inline(always)]
pub(crate) fn simple_item<'a>(form: Option<Form<'a>>, bytes: &'a [u8]) -> Option<(Simple, &'a [u8])>
    requires { IsTrue (is_read (item_at MAX_DEPTH (kept_form form) 0 bytes.now)) }
    ensures { option_map (λ x. (x.0, x.1.now)) result ≡ simple_value (item_at MAX_DEPTH (kept_form form.entry) 0 bytes.now) }
{
    match form {
        None => simple_front(bytes),
        Some(form) => simple_element(form, bytes),
    }
}

/// The type that the first octet of a null or an uint names.
#[tactic(auto, unfolding(crate::specs::Codes::code_of, crate::specs::Codes::scalar_of_code))]
#[inline(always)]
fn uint_scalar(first: u8) -> Option<Scalar>
    ensures { IfSome result (λ scalar. code_of first ≡ Some (Fixed scalar)) }
{
    match first {
        0x40 => Some(Scalar::Null),
        0x43 => Some(Scalar::UintZero),
        0x52 => Some(Scalar::UintOctet),
        0x70 => Some(Scalar::Uint),
        _ => None,
    }
}

/// The type that the first octet of a null or a boolean names.
#[tactic(auto, unfolding(crate::specs::Codes::code_of, crate::specs::Codes::scalar_of_code))]
#[inline(always)]
fn boolean_scalar(first: u8) -> Option<Scalar>
    ensures { IfSome result (λ scalar. code_of first ≡ Some (Fixed scalar)) }
{
    match first {
        0x40 => Some(Scalar::Null),
        0x41 => Some(Scalar::True),
        0x42 => Some(Scalar::False),
        _ => None,
    }
}

/// The number of a null or an uint by its first octet, none of null, and the octets behind it.
#[inline(always)]
fn uint_front(bytes: &[u8]) -> Option<(Option<u32>, &[u8])>
    ensures { IfSome result (λ x. wanted uint_said (simple_value (seen_at MAX_DEPTH 0 bytes.now)) ≡ Some (x.0, x.1.now)) }
{
    let Some((first, data)) = bytes.split_first() else {
        return None;
    };
    let Some(scalar) = uint_scalar(*first) else {
        return None;
    };
    match read_simple(scalar, data) {
        Some((Simple::Null, rest)) => Some((None, rest)),
        Some((Simple::Uint(number), rest)) => Some((Some(number), rest)),
        _ => None,
    }
}

/// The boolean of a null or a boolean by its first octet, none of null, and the octets behind it.
#[inline(always)]
fn boolean_front(bytes: &[u8]) -> Option<(Option<bool>, &[u8])>
    ensures { IfSome result (λ x. wanted boolean_said (simple_value (seen_at MAX_DEPTH 0 bytes.now)) ≡ Some (x.0, x.1.now)) }
{
    let Some((first, data)) = bytes.split_first() else {
        return None;
    };
    let Some(scalar) = boolean_scalar(*first) else {
        return None;
    };
    match read_simple(scalar, data) {
        Some((Simple::Null, rest)) => Some((None, rest)),
        Some((Simple::Boolean(value), rest)) => Some((Some(value), rest)),
        _ => None,
    }
}

/// The number of an item by its first octet, none of null, and the octets behind it; nothing of an element of an array.
#[tactic(auto, unfolding(crate::specs::Reading::item_at))]
#[inline(always)]
pub(crate) fn uint_in_front<'a>(
    form: Option<Form<'a>>,
    bytes: &'a [u8],
) -> Option<(Option<u32>, &'a [u8])>
    ensures { IfSome result (λ x. wanted uint_said (simple_value (item_at MAX_DEPTH (kept_form form.entry) 0 bytes.now)) ≡ Some (x.0, x.1.now)) }
{
    match form {
        None => uint_front(bytes),
        Some(_) => None,
    }
}

/// The boolean of an item by its first octet, none of null, and the octets behind it; nothing of an element of an array.
#[tactic(auto, unfolding(crate::specs::Reading::item_at))]
#[inline(always)]
pub(crate) fn boolean_in_front<'a>(
    form: Option<Form<'a>>,
    bytes: &'a [u8],
) -> Option<(Option<bool>, &'a [u8])>
    ensures { IfSome result (λ x. wanted boolean_said (simple_value (item_at MAX_DEPTH (kept_form form.entry) 0 bytes.now)) ≡ Some (x.0, x.1.now)) }
{
    match form {
        None => boolean_front(bytes),
        Some(_) => None,
    }
}

/// The number of an item that is null or an uint, which was read before, none of null, and the octets behind it.
#[inline(always)]
pub(crate) fn uint_item<'a>(
    form: Option<Form<'a>>,
    bytes: &'a [u8],
) -> Option<(Option<u32>, &'a [u8])>
    requires { IsTrue (is_read (item_at MAX_DEPTH (kept_form form) 0 bytes.now)) }
    ensures { option_map (λ x. (x.0, x.1.now)) result ≡ wanted uint_said (simple_value (item_at MAX_DEPTH (kept_form form.entry) 0 bytes.now)) }
{
    match simple_item(form, bytes)? {
        (Simple::Null, rest) => Some((None, rest)),
        (Simple::Uint(number), rest) => Some((Some(number), rest)),
        _ => None,
    }
}

/// The boolean of an item that is null or a boolean, which was read before, none of null, and the octets behind it.
#[inline(always)]
pub(crate) fn boolean_item<'a>(
    form: Option<Form<'a>>,
    bytes: &'a [u8],
) -> Option<(Option<bool>, &'a [u8])>
    requires { IsTrue (is_read (item_at MAX_DEPTH (kept_form form) 0 bytes.now)) }
    ensures { option_map (λ x. (x.0, x.1.now)) result ≡ wanted boolean_said (simple_value (item_at MAX_DEPTH (kept_form form.entry) 0 bytes.now)) }
{
    match simple_item(form, bytes)? {
        (Simple::Null, rest) => Some((None, rest)),
        (Simple::Boolean(value), rest) => Some((Some(value), rest)),
        _ => None,
    }
}
