//! Reading a value from left to right, up to the first fault.
//!
//! A reader is given the octets from its place to the end of the input or of the container that it
//! reads in, and `at`, the offset of the value that they belong to; it answers what it read and the
//! octets behind it. `levels` is how many values may still lie in one another from there.

ghost use Rattle.std.specs.Prelude.{◌≡◌, ◌+◌, ◌-◌, ◌<◌, ◌≤◌, ◌^◌, ◌∷◌, IsTrue, IfSome, Some, None, length, drop, slice_index};
ghost use Rattle.amqp_types.specs.Part as parts;
ghost use Rattle.flow_counts.specs.Words.{Gives};
ghost use Rattle.amqp_types.specs.Reading.{items_at, nested_at, described_at, tagged_at, array_at, elements_at, constructor_at, element_at, item_at, data_at, seen_at};
ghost use Rattle.amqp_types.specs.Items.{behind, ArePassed, IsPlain, IsPassed};
ghost use Rattle.amqp_types.specs.Form.{constructor_of, form};
ghost use Rattle.amqp_types.specs.View.{view, part_of, array_part};

use crate::code::{Code, Kind, SizeWidth};
use crate::constructor::{Constructor, Tag};
use crate::described::{Described, Tagged};
use crate::fault::{ValueFault, ValueFaultKind};
use crate::primitive::{Read, read_counted, read_fixed, read_text};
use crate::sequence::{Array, Sequence};
use crate::value::{Content, Value};
use flow_counts::MAX_DEPTH;

/// The octets behind the data of a code, which is passed over: at once where it holds no values.
#[cycle(reader)]
#[tactic(auto, unfolding(crate::specs::Reading::data_at, crate::specs::Reading::data_by))]
#[inline(always)]
fn pass_coded(levels: usize, code: Code, at: usize, bytes: &[u8]) -> Result<&[u8], ValueFault>
    requires some { 0 < levels }
    requires levels { levels ≤ MAX_DEPTH }
    requires room { at + 1 + length bytes.now < 2 ^ 64 }
    ensures { Gives (λ x. x.now) result (behind (data_at levels 0 code at bytes.now)) }
{
    match code {
        Code::Fixed(scalar) => match read_fixed(scalar, at, bytes) {
            Ok((_, rest)) => Ok(rest),
            Err(fault) => Err(fault),
        },
        _ => pass_data(levels, code, at, bytes),
    }
}

/// How many octets are behind the first one of a value, where any may stand there.
#[tactic(auto, using(crate::proofs::PassedOver::fixed_plain, crate::proofs::PassedOver::empty_plain))]
#[inline(always)]
fn plain_width(first: u8) -> Option<usize>
    ensures { IfSome result (IsPlain first) }
{
    match Code::of(first)? {
        Code::Fixed(scalar) if scalar.takes_any() => Some(scalar.width()),
        Code::EmptyList => Some(0),
        _ => None,
    }
}

/// The octets behind a value, where its first octet says how long it is, and any octets may stand behind that.
#[tactic(auto, using(crate::proofs::PassedOver::plain_passed))]
#[inline(always)]
pub(crate) fn pass_plain(bytes: &[u8]) -> Option<&[u8]>
    ensures { IfSome result (λ rest. IsPassed bytes.now rest.now) }
{
    let (first, data) = bytes.split_first()?;
    let width = plain_width(*first)?;
    if data.len() < width {
        return None;
    }
    let (_, rest) = data.split_at(width);
    Some(rest)
}

/// The octets behind a binary whose size has one octet.
#[tactic(auto, using(crate::proofs::PassedOver::binary_passed))]
#[inline(always)]
fn pass_binary(bytes: &[u8]) -> Option<&[u8]>
    ensures { IfSome result (λ rest. IsPassed bytes.now rest.now) }
{
    let (first, sized) = bytes.split_first()?;
    let (size, data) = sized.split_first()?;
    if *first != 0xA0 || data.len() < *size as usize {
        return None;
    }
    let (_, rest) = data.split_at(*size as usize);
    Some(rest)
}

/// The octets behind a value, where its first octets say how long it is, and any octets may stand behind these.
#[inline(always)]
fn pass_simple(bytes: &[u8]) -> Option<&[u8]>
    ensures { IfSome result (λ rest. IsPassed bytes.now rest.now) }
{
    match pass_plain(bytes) {
        Some(rest) => Some(rest),
        None => pass_binary(bytes),
    }
}

/// Goes over those of so many values, at the front, whose first octets say how long they are; gives how many others are left,
/// and their octets.
#[inline(always)]
fn pass_plains(count: u32, bytes: &[u8]) -> (u32, &[u8])
    ensures { ArePassed count bytes.now result.0 result.1.now }
{
    let mut rest = bytes;
    for passed in 0..count {
        match pass_simple(rest) {
            Some(after) => rest = after,
            None => return (count - passed, rest),
        }
    }
    (0, rest)
}

/// The octets behind a value, which is passed over.
#[cycle(reader)]
#[tactic(auto, unfolding(crate::specs::Reading::seen_at, crate::specs::Reading::value_at, crate::specs::Reading::value_by, crate::specs::Reading::coded_at))]
pub(crate) fn pass_value(levels: usize, at: usize, bytes: &[u8]) -> Result<&[u8], ValueFault>
    requires levels { levels ≤ MAX_DEPTH }
    requires room { at + length bytes.now < 2 ^ 64 }
    ensures { Gives (λ x. x.now) result (behind (seen_at levels at bytes.now)) }
{
    let Some((first, data)) = bytes.split_first() else {
        return Err(ValueFaultKind::Short.of(at));
    };
    if levels == 0 {
        return Err(ValueFaultKind::TooDeep.of(at));
    }
    let Some(code) = Code::of(*first) else {
        return Err(ValueFaultKind::UnknownCode.of(at));
    };
    pass_coded(levels, code, at, data)
}

/// The octets behind a value, which is passed over: at once where its first octet says how long it is.
#[cycle(reader)]
#[tactic(auto, using(crate::proofs::PassedOver::passed_here))]
#[inline(always)]
fn pass_front(levels: usize, at: usize, bytes: &[u8]) -> Result<&[u8], ValueFault>
    requires levels { levels ≤ MAX_DEPTH }
    requires room { at + length bytes.now < 2 ^ 64 }
    ensures { Gives (λ x. x.now) result (behind (seen_at levels at bytes.now)) }
{
    if levels != 0 {
        if let Some(rest) = pass_plain(bytes) {
            return Ok(rest);
        }
    }
    pass_value(levels, at, bytes)
}

/// The octets behind an element, which is passed over.
#[cycle(reader)]
fn pass_element<'a>(
    levels: usize,
    constructor: Constructor<'a>,
    at: usize,
    bytes: &'a [u8],
) -> Result<&'a [u8], ValueFault>
    requires tags { constructor.tags < levels }
    requires levels { levels ≤ MAX_DEPTH }
    requires room { at + 1 + length bytes.now < 2 ^ 64 }
    ensures { Gives (λ x. x.now) result (behind (element_at levels (constructor_of constructor.entry) at bytes.now)) }
{
    pass_coded(levels - constructor.tags, constructor.code, at, bytes)
}

/// The octets behind a value, or behind an element where there is a constructor.
#[cycle(reader)]
#[tactic(auto, unfolding(crate::specs::Reading::item_at))]
#[inline(always)]
fn pass_item<'a>(
    levels: usize,
    constructor: Option<Constructor<'a>>,
    at: usize,
    bytes: &'a [u8],
) -> Result<&'a [u8], ValueFault>
    requires levels { levels ≤ MAX_DEPTH }
    requires room { at + length bytes.now < 2 ^ 64 }
    requires fits { IfSome constructor (λ c. (c.tags < levels) × (at + 1 + length bytes.now < 2 ^ 64)) }
    ensures { Gives (λ x. x.now) result (behind (item_at levels (form constructor.entry) at bytes.now)) }
{
    match constructor {
        None => pass_front(levels, at, bytes),
        Some(constructor) => pass_element(levels, constructor, at, bytes),
    }
}

/// Goes over so many items, and gives the octets behind them.
#[cycle(reader)]
fn read_items<'a>(
    levels: usize,
    constructor: Option<Constructor<'a>>,
    count: u32,
    at: usize,
    bytes: &'a [u8],
) -> Result<&'a [u8], ValueFault>
    requires levels { levels ≤ MAX_DEPTH }
    requires room { at + length bytes.now < 2 ^ 64 }
    requires fits { IfSome constructor (λ c. (c.tags < levels) × (at + 1 + length bytes.now < 2 ^ 64)) }
    ensures { Gives (λ x. x.now) result (items_at (item_at levels (form constructor.entry)) count at bytes.now) }
{
    let mut place = at;
    let mut rest = bytes;
    for _ in 0..count {
        let after = pass_item(levels, constructor, place, rest)?;
        place += rest.len() - after.len();
        rest = after;
    }
    Ok(rest)
}

/// Goes over so many values, and gives the octets behind them.
#[cycle(reader)]
fn read_values(levels: usize, count: u32, at: usize, bytes: &[u8]) -> Result<&[u8], ValueFault>
    requires levels { levels ≤ MAX_DEPTH }
    requires room { at + length bytes.now < 2 ^ 64 }
    ensures { Gives (λ x. x.now) result (items_at (item_at levels None) count at bytes.now) }
{
    if levels == 0 {
        return read_items(levels, None, count, at, bytes);
    }
    let (left, rest) = pass_plains(count, bytes);
    if left == 0 {
        return Ok(rest);
    }
    read_items(levels, None, left, at + (bytes.len() - rest.len()), rest)
}

/// The data of a list or a map.
#[cycle(reader)]
#[tactic(auto, unfolding(crate::specs::Reading::nested_at))]
pub(crate) fn read_nested(
    levels: usize,
    kind: Kind,
    width: SizeWidth,
    at: usize,
    bytes: &[u8],
) -> Read<'_, Sequence<'_>>
    requires levels { levels ≤ MAX_DEPTH }
    requires room { at + 1 + length bytes.now < 2 ^ 64 }
    ensures { Gives (λ x. (parts.Nested kind x.0.count x.0.body.now, x.1.now)) result (nested_at (item_at levels None) kind width at bytes.now) }
{
    let ((count, body), rest) = read_counted(width, at, bytes)?;
    if kind.is_odd(count) {
        return Err(ValueFaultKind::OddMap.of(at));
    }
    let first = at + 1 + width.octets() + width.octets();
    match read_values(levels, count, first, body) {
        Ok([]) => Ok((Sequence { count, body }, rest)),
        Ok(_) => Err(ValueFaultKind::BadSize.of(at)),
        Err(fault) => Err(fault.within(at)),
    }
}

/// The constructor of elements, which stands in front of their data.
#[cycle(reader)]
#[tactic(auto, unfolding(crate::specs::Reading::constructor_at, crate::specs::Reading::constructor_by))]
pub(crate) fn read_constructor(levels: usize, at: usize, bytes: &[u8]) -> Read<'_, Constructor<'_>>
    requires levels { levels ≤ MAX_DEPTH }
    requires room { at + length bytes.now < 2 ^ 64 }
    ensures { Gives (λ x. (constructor_of x.0, x.1.now)) result (constructor_at levels at bytes.now) }
{
    let Some((octet, behind)) = bytes.split_first() else {
        return Err(ValueFaultKind::Short.of(at));
    };
    if levels == 0 {
        return Err(ValueFaultKind::TooDeep.of(at));
    }
    let Some(code) = Code::of(*octet) else {
        return Err(ValueFaultKind::UnknownCode.of(at));
    };
    if code.is_described() {
        return read_tagged(levels - 1, at, bytes);
    }
    let alone = Constructor {
        octets: &bytes[..1],
        tags: 0,
        code,
        tag: None,
    };
    Ok((alone, behind))
}

/// A constructor whose first octet says that a descriptor follows, and behind it another constructor.
#[cycle(reader)]
#[tactic(auto, unfolding(crate::specs::Reading::tagged_at))]
fn read_tagged(levels: usize, at: usize, bytes: &[u8]) -> Read<'_, Constructor<'_>>
    requires some { 0 < length bytes.now }
    requires levels { levels < MAX_DEPTH }
    requires room { at + length bytes.now < 2 ^ 64 }
    ensures { Gives (λ x. (constructor_of x.0, x.1.now)) result (tagged_at (seen_at levels) (constructor_at levels) at (slice_index bytes.now 0) (drop 1 bytes.now)) }
{
    let (_, behind) = bytes.split_at(1);
    let (descriptor, after) = read_value(levels, at, behind)?;
    let (inner, rest) = read_constructor(levels, at, after)?;
    let constructor = Constructor {
        octets: &bytes[..bytes.len() - rest.len()],
        tags: inner.tags + 1,
        code: inner.code,
        tag: Some(Tag {
            descriptor: descriptor.raw,
            constructor: inner.octets,
        }),
    };
    Ok((constructor, rest))
}

/// An element of an array, whose constructor was read before.
#[tactic(auto, unfolding(crate::specs::Reading::element_at, crate::specs::Reading::element_by))]
pub(crate) fn read_element<'a>(
    levels: usize,
    constructor: Constructor<'a>,
    at: usize,
    bytes: &'a [u8],
) -> Read<'a, Value<'a>>
    requires tags { constructor.tags < levels }
    requires levels { levels ≤ MAX_DEPTH }
    requires room { at + 1 + length bytes.now < 2 ^ 64 }
    ensures { Gives (λ x. (view x.0, x.1.now)) result (element_at levels (constructor_of constructor.entry) at bytes.now) }
{
    let below = levels - constructor.tags;
    let (content, rest) = read_data(below, constructor.code, at, bytes)?;
    let raw = &bytes[..bytes.len() - rest.len()];
    let content = match constructor.tag {
        None => content,
        Some(tag) => Content::Tagged(Tagged {
            descriptor: tag.descriptor,
            constructor: tag.constructor,
            data: raw,
        }),
    };
    Ok((Value { raw, content }, rest))
}

/// So many elements: their constructor, their data, and nothing behind these.
#[cycle(reader)]
#[tactic(auto, unfolding(crate::specs::Reading::elements_at))]
fn read_elements(
    levels: usize,
    count: u32,
    at: usize,
    bytes: &[u8],
) -> Result<Array<'_>, ValueFault>
    requires levels { levels ≤ MAX_DEPTH }
    requires room { at + 1 + length bytes.now < 2 ^ 64 }
    ensures { Gives array_part result (elements_at (constructor_at levels) (λ c. item_at levels (Some c)) count at bytes.now) }
{
    if count == 0 && bytes.len() == 0 {
        return Ok(Array::empty());
    }
    let (constructor, body) = read_constructor(levels, at, bytes)?;
    match read_items(levels, Some(constructor), count, at, body) {
        Ok([]) => Ok(Array::of(constructor, count, body)),
        Ok(_) => Err(ValueFaultKind::BadSize.of(at)),
        Err(fault) => Err(fault.within(at)),
    }
}

/// The data of an array.
#[cycle(reader)]
#[tactic(auto, unfolding(crate::specs::Reading::array_at))]
fn read_array(levels: usize, width: SizeWidth, at: usize, bytes: &[u8]) -> Read<'_, Array<'_>>
    requires levels { levels ≤ MAX_DEPTH }
    requires room { at + 1 + length bytes.now < 2 ^ 64 }
    ensures { Gives (λ x. (array_part x.0, x.1.now)) result (array_at (constructor_at levels) (λ c. item_at levels (Some c)) width at bytes.now) }
{
    let ((count, body), rest) = read_counted(width, at, bytes)?;
    match read_elements(levels, count, at, body) {
        Ok(array) => Ok((array, rest)),
        Err(fault) => Err(fault.in_array(at)),
    }
}

/// A descriptor, and the value that it describes.
#[cycle(reader)]
fn read_described(levels: usize, at: usize, bytes: &[u8]) -> Read<'_, Described<'_>>
    requires levels { levels ≤ MAX_DEPTH }
    requires room { at + 1 + length bytes.now < 2 ^ 64 }
    ensures { Gives (λ x. (parts.Described x.0.descriptor.now x.0.value.now, x.1.now)) result (described_at (seen_at levels) at bytes.now) }
{
    let described = pass_front(levels, at + 1, bytes)?;
    let descriptor = &bytes[..bytes.len() - described.len()];
    let rest = pass_front(levels, at + 1 + descriptor.len(), described)?;
    let value = &described[..described.len() - rest.len()];
    Ok((Described { descriptor, value }, rest))
}

/// The octets behind the data of a code, which is passed over.
#[cycle(reader)]
#[tactic(auto, unfolding(crate::specs::Reading::data_at, crate::specs::Reading::data_by))]
fn pass_data(levels: usize, code: Code, at: usize, bytes: &[u8]) -> Result<&[u8], ValueFault>
    requires some { 0 < levels }
    requires levels { levels ≤ MAX_DEPTH }
    requires room { at + 1 + length bytes.now < 2 ^ 64 }
    ensures { Gives (λ x. x.now) result (behind (data_at levels 0 code at bytes.now)) }
{
    match code {
        Code::Fixed(scalar) => match read_fixed(scalar, at, bytes) {
            Ok((_, rest)) => Ok(rest),
            Err(fault) => Err(fault),
        },
        Code::Sized(text, width) => match read_text(text, width, at, bytes) {
            Ok((_, rest)) => Ok(rest),
            Err(fault) => Err(fault),
        },
        Code::EmptyList => Ok(bytes),
        Code::Nested(kind, width) => match read_nested(levels - 1, kind, width, at, bytes) {
            Ok((_, rest)) => Ok(rest),
            Err(fault) => Err(fault),
        },
        Code::Array(width) => match read_array(levels - 1, width, at, bytes) {
            Ok((_, rest)) => Ok(rest),
            Err(fault) => Err(fault),
        },
        Code::Described => match read_described(levels - 1, at, bytes) {
            Ok((_, rest)) => Ok(rest),
            Err(fault) => Err(fault),
        },
    }
}

/// What is behind a code.
#[cycle(reader)]
#[tactic(auto, unfolding(crate::specs::Reading::data_at, crate::specs::Reading::data_by))]
pub(crate) fn read_data(levels: usize, code: Code, at: usize, bytes: &[u8]) -> Read<'_, Content<'_>>
    requires some { 0 < levels }
    requires levels { levels ≤ MAX_DEPTH }
    requires room { at + 1 + length bytes.now < 2 ^ 64 }
    ensures { Gives (λ x. (part_of x.0, x.1.now)) result (data_at levels 0 code at bytes.now) }
{
    match code {
        Code::Fixed(scalar) => read_fixed(scalar, at, bytes),
        Code::Sized(text, width) => read_text(text, width, at, bytes),
        Code::EmptyList => Ok((Content::Nested(Kind::List, Sequence::empty()), bytes)),
        Code::Nested(kind, width) => match read_nested(levels - 1, kind, width, at, bytes) {
            Ok((sequence, rest)) => Ok((Content::Nested(kind, sequence), rest)),
            Err(fault) => Err(fault),
        },
        Code::Array(width) => match read_array(levels - 1, width, at, bytes) {
            Ok((array, rest)) => Ok((Content::Array(array), rest)),
            Err(fault) => Err(fault),
        },
        Code::Described => match read_described(levels - 1, at, bytes) {
            Ok((pair, rest)) => Ok((Content::Described(pair), rest)),
            Err(fault) => Err(fault),
        },
    }
}

/// The value at the front of the octets.
#[cycle(reader)]
#[tactic(auto, unfolding(crate::specs::Reading::seen_at, crate::specs::Reading::value_at, crate::specs::Reading::value_by, crate::specs::Reading::coded_at))]
pub(crate) fn read_value(levels: usize, at: usize, bytes: &[u8]) -> Read<'_, Value<'_>>
    requires levels { levels ≤ MAX_DEPTH }
    requires room { at + length bytes.now < 2 ^ 64 }
    ensures { Gives (λ x. (view x.0, x.1.now)) result (seen_at levels at bytes.now) }
{
    let Some((first, behind)) = bytes.split_first() else {
        return Err(ValueFaultKind::Short.of(at));
    };
    if levels == 0 {
        return Err(ValueFaultKind::TooDeep.of(at));
    }
    let Some(code) = Code::of(*first) else {
        return Err(ValueFaultKind::UnknownCode.of(at));
    };
    let (content, rest) = read_data(levels, code, at, behind)?;
    let raw = &bytes[..bytes.len() - rest.len()];
    Ok((Value { raw, content }, rest))
}
