//! A list and its descriptor, read in one go. Most lists are described by a number of one octet: such a one is read
//! with a look at its first octets, and its items are gone over once.

ghost use Rattle.std.specs.Prelude.{◌≡◌, IfSome, Some, ℕ, List, option_map};
ghost use Rattle.flow_counts.specs.Words.{Gives};
ghost use Rattle.amqp_types.specs.declared.code.Code.TheVariants.{Nested};
ghost use Rattle.amqp_types.specs.declared.code.Kind.TheVariants as kinds;
ghost use Rattle.amqp_types.specs.Codes.{code_of};
ghost use Rattle.amqp_types.specs.Part.{Seen};
ghost use Rattle.amqp_types.specs.Reading.{seen_at};
ghost use Rattle.amqp_types.specs.Listed.{listed, listed_in, IsList};
ghost use Rattle.amqp_types.specs.View.{view, items_left};

use crate::code::{Kind, SizeWidth};
use crate::fault::ValueFault;
use crate::reading::{read_nested, read_value};
use crate::sequence::{Items, Sequence};
use crate::value::{Content, Value};
use flow_counts::MAX_DEPTH;

/// How many octets of such a list stand in front of its size.
const FRONT: usize = 4;

/// How many octets the size of a list has, by the list's first octet, if it has a size.
#[tactic(auto, unfolding(crate::specs::Codes::code_of))]
#[inline(always)]
fn list_width(first: u8) -> Option<SizeWidth>
    ensures { IfSome result (λ width. code_of first ≡ Some (Nested kinds.List width)) }
{
    match first {
        0xC0 => Some(SizeWidth::One),
        0xD0 => Some(SizeWidth::Four),
        _ => None,
    }
}

/// A list behind a descriptor of two octets, by its first octet and those behind it, where it has a size.
#[tactic(auto, unfolding(crate::specs::Listed::IsList))]
#[inline(always)]
fn read_sized_list(first: u8, bytes: &[u8]) -> Option<(Sequence<'_>, &[u8])>
    ensures { IfSome result (λ x. IsList first bytes.now x.0.count x.0.body.now x.1.now) }
{
    let width = list_width(first)?;
    match read_nested(MAX_DEPTH - 2, Kind::List, width, FRONT - 1, bytes) {
        Ok(read) => Some(read),
        Err(_) => None,
    }
}

/// A list that a number of one octet describes, with this descriptor, where it has a size.
#[inline(always)]
fn read_numbered_list(bytes: &[u8]) -> Option<(Value<'_>, Items<'_>, &[u8])>
    ensures { IfSome result (λ x. listed (seen_at MAX_DEPTH 0 bytes.now) ≡ Ok (Some (view x.0, items_left x.1), x.2.now)) }
{
    if bytes.len() < FRONT || bytes[0] != 0x00 || bytes[1] != 0x53 {
        return None;
    }
    let (sequence, rest) = read_sized_list(bytes[3], &bytes[FRONT..])?;
    let descriptor = Value {
        raw: &bytes[1..3],
        content: Content::Ulong(u64::from(bytes[2])),
    };
    Some((descriptor, sequence.items(), rest))
}

/// The descriptor and the items of any value that is a described list.
#[inline(never)]
fn read_any_list(bytes: &[u8]) -> Result<(Option<(Value<'_>, Items<'_>)>, &[u8]), ValueFault>
    ensures { Gives (λ x. (option_map (λ y. (view y.0, items_left y.1)) x.0, x.1.now)) result (listed (seen_at MAX_DEPTH 0 bytes.now)) }
{
    let (value, rest) = read_value(MAX_DEPTH, 0, bytes)?;
    Ok((value.as_described_list(), rest))
}

/// Reads the value at the front of the octets, and gives its descriptor and its items if it is a described list, and
/// the octets behind it.
///
/// # Errors
///
/// Where no front of the octets is a value: the first fault from left to right.
#[inline(always)]
pub fn read_described_list(
    bytes: &[u8],
) -> Result<(Option<(Value<'_>, Items<'_>)>, &[u8]), ValueFault>
    ensures { Gives (λ x. (option_map (λ y. (view y.0, items_left y.1)) x.0, x.1.now)) result (listed (seen_at MAX_DEPTH 0 bytes.now)) }
{
    match read_numbered_list(bytes) {
        Some((descriptor, items, rest)) => Ok((Some((descriptor, items)), rest)),
        None => read_any_list(bytes),
    }
}
