//! Values of octets that were read before. Nothing of them is tested again, and what a list, a map or an array
//! holds is not gone over.

ghost use Rattle.std.specs.Prelude.{◌≡◌, ◌-◌, ◌<◌, ◌∷◌, IfSome, IsTrue, Ok, Some, None, true};
ghost use Rattle.std.specs.Result.{is_ok};
ghost use Rattle.amqp_types.specs.Part as parts;
ghost use Rattle.amqp_types.specs.Reading.{data_at, nested_at, described_at, item_at, seen_at};
ghost use Rattle.amqp_types.specs.Items.{is_read, behind, are_items, items_in, is_value, is_element, element_of, seen_of, constructor_in};
ghost use Rattle.amqp_types.specs.Grammar.{IsValue, IsConstructor, IsElement};
ghost use Rattle.amqp_types.specs.Form.{kept_form, constructor_of};
ghost use Rattle.amqp_types.specs.Listed.{BeginsList, IsNumbered};
ghost use Rattle.amqp_types.specs.View.{view, part_of};

use crate::code::{Code, Kind, SizeWidth};
use crate::constructor::{Constructor, Form};
use crate::described::Described;
use crate::primitive::{Read, read_counted, read_fixed, read_text};
use crate::reading::{pass_plain, pass_value, read_constructor, read_data, read_element};
use crate::sequence::Sequence;
use crate::value::{Content, Value};
use flow_counts::MAX_DEPTH;

/// What a reading gave that does not fail.
#[inline(always)]
fn known<'a>(read: Read<'a, Content<'a>>) -> (Content<'a>, &'a [u8])
    requires { IsTrue (is_ok read) }
    ensures { read.entry ≡ Ok result }
{
    match read {
        Ok(known) => known,
        Err(_) => unreachable!(),
    }
}

/// The data of a list or a map.
#[inline(always)]
fn known_nested(kind: Kind, width: SizeWidth, bytes: &[u8]) -> (Content<'_>, &[u8])
    requires { IsTrue (is_read (nested_at (item_at (MAX_DEPTH - 1) None) kind width 0 bytes.now)) }
    ensures { nested_at (item_at (MAX_DEPTH - 1) None) kind width 0 bytes.now ≡ Ok (part_of result.0, result.1.now) }
{
    let Ok(((count, body), rest)) = read_counted(width, 0, bytes) else {
        unreachable!()
    };
    (Content::Nested(kind, Sequence { count, body }), rest)
}

/// The octets behind a value, which is passed over: of a list or a map by its size.
#[tactic(auto, unfolding(crate::specs::Reading::seen_at, crate::specs::Reading::value_at, crate::specs::Reading::value_by, crate::specs::Reading::coded_at, crate::specs::Reading::data_at, crate::specs::Reading::data_by))]
fn known_behind(bytes: &[u8]) -> &[u8]
    requires { IsTrue (is_read (seen_at MAX_DEPTH 0 bytes.now)) }
    ensures { behind (seen_at MAX_DEPTH 0 bytes.now) ≡ Ok result.now }
{
    if let Some(rest) = pass_plain(bytes) {
        return rest;
    }
    let Some((first, data)) = bytes.split_first() else {
        unreachable!()
    };
    let Some(code) = Code::of(*first) else {
        unreachable!()
    };
    match code {
        Code::EmptyList => data,
        Code::Nested(kind, width) => {
            let (_, rest) = known_nested(kind, width, data);
            rest
        }
        _ => match pass_value(MAX_DEPTH, 0, bytes) {
            Ok(rest) => rest,
            Err(_) => unreachable!(),
        },
    }
}

/// A descriptor, and the value that it describes.
#[inline(never)]
fn known_described(bytes: &[u8]) -> (Described<'_>, &[u8])
    requires { IsTrue (is_read (described_at (seen_at (MAX_DEPTH - 1)) 0 bytes.now)) }
    ensures { described_at (seen_at (MAX_DEPTH - 1)) 0 bytes.now ≡ Ok (parts.Described result.0.descriptor.now result.0.value.now, result.1.now) }
{
    let described = known_behind(bytes);
    let descriptor = &bytes[..bytes.len() - described.len()];
    let rest = known_behind(described);
    let value = &described[..described.len() - rest.len()];
    (Described { descriptor, value }, rest)
}

/// What is behind a code.
#[tactic(auto, unfolding(crate::specs::Reading::data_at, crate::specs::Reading::data_by), using(crate::proofs::ReadBefore::is_known))]
#[inline(always)]
fn known_data(code: Code, bytes: &[u8]) -> (Content<'_>, &[u8])
    requires { IsTrue (is_read (data_at MAX_DEPTH 0 code 0 bytes.now)) }
    ensures { data_at MAX_DEPTH 0 code 0 bytes.now ≡ Ok (part_of result.0, result.1.now) }
{
    match code {
        Code::Fixed(scalar) => known(read_fixed(scalar, 0, bytes)),
        Code::Sized(text, width) => known(read_text(text, width, 0, bytes)),
        Code::EmptyList => (Content::Nested(Kind::List, Sequence::empty()), bytes),
        Code::Nested(kind, width) => known_nested(kind, width, bytes),
        Code::Array(_) => known(read_data(MAX_DEPTH, code, 0, bytes)),
        Code::Described => {
            let (pair, rest) = known_described(bytes);
            (Content::Described(pair), rest)
        }
    }
}

/// The value at the front of the octets, and the octets behind it.
#[tactic(auto, unfolding(crate::specs::Reading::seen_at, crate::specs::Reading::value_at, crate::specs::Reading::value_by, crate::specs::Reading::coded_at))]
#[inline(always)]
fn known_value(bytes: &[u8]) -> (Value<'_>, &[u8])
    requires { IsTrue (is_read (seen_at MAX_DEPTH 0 bytes.now)) }
    ensures { seen_at MAX_DEPTH 0 bytes.now ≡ Ok (view result.0, result.1.now) }
{
    let Some((first, behind)) = bytes.split_first() else {
        unreachable!()
    };
    let Some(code) = Code::of(*first) else {
        unreachable!()
    };
    let (content, rest) = known_data(code, behind);
    let raw = &bytes[..bytes.len() - rest.len()];
    (Value { raw, content }, rest)
}

/// The constructor that octets are.
fn known_constructor(form: Form<'_>) -> Constructor<'_>
    ensures { constructor_in form.entry.octets.now ≡ Some (constructor_of result) }
{
    let Ok((constructor, _)) = read_constructor(MAX_DEPTH, 0, form.octets) else {
        unreachable!()
    };
    constructor
}

/// The element at the front of the octets, and the octets behind it.
pub(crate) fn known_element<'a>(form: Form<'a>, bytes: &'a [u8]) -> (Value<'a>, &'a [u8])
    requires { IsTrue (is_read (item_at MAX_DEPTH (constructor_in form.octets.now) 0 bytes.now)) }
    ensures { item_at MAX_DEPTH (constructor_in form.entry.octets.now) 0 bytes.now ≡ Ok (view result.0, result.1.now) }
{
    let constructor = known_constructor(form);
    match read_element(MAX_DEPTH, constructor, 0, bytes) {
        Ok(read) => read,
        Err(_) => unreachable!(),
    }
}

/// The item at the front of the octets, an element where there is a constructor, and the octets behind it.
#[tactic(auto, unfolding(crate::specs::Reading::item_at))]
#[inline(always)]
fn known_item<'a>(form: Option<Form<'a>>, bytes: &'a [u8]) -> (Value<'a>, &'a [u8])
    requires { IsTrue (is_read (item_at MAX_DEPTH (kept_form form) 0 bytes.now)) }
    ensures { item_at MAX_DEPTH (kept_form form.entry) 0 bytes.now ≡ Ok (view result.0, result.1.now) }
{
    match form {
        None => known_value(bytes),
        Some(form) => known_element(form, bytes),
    }
}

/// The value that octets are which were read as one before.
#[inline(always)]
pub(crate) fn whole(octets: &[u8]) -> Value<'_>
    requires { IsTrue (is_value octets.now) }
    ensures same { view result ≡ seen_of octets.now }
    ensures whole { (view result).octets ≡ octets.now }
    ensures value { IsValue MAX_DEPTH octets.now (view result).part }
{
    let (value, _) = known_value(octets);
    value
}

/// The element that octets are, with its constructor, both of which were read before.
pub(crate) fn whole_element<'a>(constructor: &'a [u8], octets: &'a [u8]) -> Value<'a>
    requires { IsTrue (is_element constructor.now octets.now) }
    ensures same { view result ≡ element_of constructor.now octets.now }
    ensures whole { (view result).octets ≡ octets.now }
    ensures element { (c : parts.Constructor) × IsConstructor MAX_DEPTH constructor.now c × IsElement MAX_DEPTH c octets.now (view result).part }
{
    let Ok((constructor, _)) = read_constructor(MAX_DEPTH, 0, constructor) else {
        unreachable!()
    };
    match read_element(MAX_DEPTH, constructor, 0, octets) {
        Ok((value, _)) => value,
        Err(_) => unreachable!(),
    }
}

/// The first of some items, which were read before, and the octets of the others.
#[inline(always)]
pub(crate) fn first_of<'a>(
    form: Option<Form<'a>>,
    count: u32,
    octets: &'a [u8],
) -> (Value<'a>, &'a [u8])
    requires some { 0 < count }
    requires filled { IsTrue (are_items (kept_form form) count octets.now) }
    ensures first { items_in (kept_form form.entry) count octets.now ≡ view result.0 ∷ items_in (kept_form form.entry) (count - 1) result.1.now }
    ensures others { IsTrue (are_items (kept_form form.entry) (count - 1) result.1.now) }
{
    known_item(form, octets)
}

/// Whether this is the first octet of a list.
#[tactic(auto, unfolding(crate::specs::Codes::code_of, crate::specs::Listed::BeginsList))]
#[inline(always)]
fn begins_list(first: u8) -> bool
    ensures { result ≡ true → BeginsList first }
{
    first == 0x45 || first == 0xC0 || first == 0xD0
}

/// The number of one octet that describes a list, by the octets of a descriptor and of a value that were read before, if they
/// show it.
#[inline(always)]
pub(crate) fn number_of_list(descriptor: &[u8], value: &[u8]) -> Option<u64>
    requires { IsTrue (is_value value.now) }
    ensures { IfSome result (IsNumbered (parts.Described descriptor.now value.now)) }
{
    if descriptor.len() != 2 || descriptor[0] != 0x53 || value.len() == 0 {
        return None;
    }
    if !begins_list(value[0]) {
        return None;
    }
    Some(u64::from(descriptor[1]))
}
