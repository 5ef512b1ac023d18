//! The sections of a message, and what its properties say (part 3, sections 3.2.1 to 3.2.4).

ghost use Rattle.std.specs.Prelude.{◌≡◌, ◌+◌, ◌^◌, ◌<◌, ◌≤◌, IfSome, length, drop};
ghost use Rattle.std.specs.Str.{bytes_eq};
ghost use Rattle.byteorder.specs.Endian.{big_number};
ghost use Rattle.amqp_cuts.specs.Offsets.{window};
ghost use Rattle.amqp_cuts.specs.Sections.{named_by_code, named_by_name, named_by, named_in, section_at, list_at, string_at, address_at, third_at, to_in};

use crate::cuts::Cuts;
use crate::layout::Layout;
use crate::octets::{counted, number, octet, octet_of, pass, sized};
use crate::passing::pass_value;
use crate::text::is_text;
use amqp_types::{Kind, SizeWidth, Text};
use flow_counts::{MAX_ADDRESS, MAX_DEPTH};

/// What a descriptor names.
#[derive(Clone, Copy, Debug, PartialEq, Eq)]
pub(crate) enum Named {
    /// A section that is passed over: a header or annotations.
    PassedOver,
    /// The properties.
    Properties,
}

impl Named {
    /// By a descriptor that is a number.
    #[tactic(auto, unfolding(amqp_perf::specs::Message::section_of_code))]
    fn by_code(code: u64) -> Option<Named>
        ensures { result ≡ named_by_code code }
    {
        match code {
            0x70 | 0x71 | 0x72 => Some(Named::PassedOver),
            0x73 => Some(Named::Properties),
            _ => None,
        }
    }
}

/// Whether the octets are this name.
fn is_name<C: Cuts>(payload: &C, at: usize, to: usize, name: &[u8]) -> bool
    requires order { at ≤ to }
    requires room { to ≤ length (C.octets payload.now) }
    ensures { result ≡ bytes_eq (window (C.octets payload.now) at to) name.now }
{
    if to - at != name.len() {
        return false;
    }
    for (i, octet) in name.iter().enumerate() {
        if octet_of(payload, at + i) != *octet {
            return false;
        }
    }
    true
}

/// The section that a symbol names.
#[tactic(auto, unfolding(amqp_perf::specs::Message::section_of_name))]
fn named_by_name<C: Cuts>(payload: &C, at: usize, to: usize) -> Option<Named>
    requires order { at ≤ to }
    requires room { to ≤ length (C.octets payload.now) }
    ensures { result ≡ named_by_name (window (C.octets payload.now) at to) }
{
    if is_name(payload, at, to, b"amqp:header:list")
        || is_name(payload, at, to, b"amqp:delivery-annotations:map")
        || is_name(payload, at, to, b"amqp:message-annotations:map")
    {
        return Some(Named::PassedOver);
    }
    if is_name(payload, at, to, b"amqp:properties:list") {
        return Some(Named::Properties);
    }
    None
}

/// The number in the eight octets from the offset `at` on, the highest first, as an ulong has them behind its first octet
/// (part 1, 1.6.6). All eight must be there.
fn long<C: Cuts>(payload: &C, at: usize) -> u64
    requires there { at + 8 ≤ length (C.octets payload.now) }
    requires fits { at + 8 < 2 ^ 64 }
    ensures { result ≡ big_number 8 (drop at (C.octets payload.now)) }
{
    let high = u64::from(number(payload, SizeWidth::Four, at));
    let low = u64::from(number(payload, SizeWidth::Four, at + 4));
    high * 4294967296 + low
}

/// The section that a descriptor names.
#[tactic(auto, unfolding(crate::specs::Sections::named_in, crate::specs::Sections::named_by))]
fn descriptor<C: Cuts>(payload: &C, at: usize, to: usize) -> Option<Named>
    requires order { at ≤ to }
    requires room { to ≤ length (C.octets payload.now) }
    ensures { result ≡ named_in (C.octets payload.now) at to }
{
    match Layout::of(octet(payload, at, to)?)? {
        Layout::UlongOctet => Named::by_code(u64::from(octet(payload, at + 1, to)?)),
        Layout::Ulong => {
            pass(8, at + 1, to)?;
            Named::by_code(long(payload, at + 1))
        }
        Layout::Sized(Text::Symbol, width) => {
            let (first, end) = sized(payload, width, at + 1, to)?;
            named_by_name(payload, first, end)
        }
        _ => None,
    }
}

/// The section at the front: what it is, and where what its descriptor describes begins and ends.
#[tactic(auto, unfolding(crate::specs::Sections::section_at, crate::specs::Sections::described_in))]
pub(crate) fn section<C: Cuts>(payload: &C, at: usize, to: usize) -> Option<(Named, usize, usize)>
    requires order { at ≤ to }
    requires room { to ≤ length (C.octets payload.now) }
    ensures exact { result ≡ section_at (C.octets payload.now) at to }
    ensures within { IfSome result (λ x. (at ≤ x.1) × (x.1 ≤ x.2) × (x.2 ≤ to)) }
{
    match Layout::of(octet(payload, at, to)?)? {
        Layout::Described => {
            let value = pass_value(payload, MAX_DEPTH - 1, at + 1, to)?;
            let end = pass_value(payload, MAX_DEPTH - 1, value, to)?;
            let name = descriptor(payload, at + 1, value)?;
            Some((name, value, end))
        }
        _ => None,
    }
}

/// How many items a list has, and where they begin and end.
#[tactic(auto, unfolding(crate::specs::Sections::list_at, crate::specs::Sections::list_by))]
fn list<C: Cuts>(payload: &C, at: usize, to: usize) -> Option<(u32, usize, usize)>
    requires order { at ≤ to }
    requires room { to ≤ length (C.octets payload.now) }
    ensures exact { result ≡ list_at (C.octets payload.now) at to }
    ensures within { IfSome result (λ x. (at ≤ x.1) × (x.1 ≤ x.2) × (x.2 ≤ to)) }
{
    match Layout::of(octet(payload, at, to)?)? {
        Layout::Nested(Kind::List, width) => counted(payload, width, at + 1, to),
        _ => None,
    }
}

/// Where the octets of a string begin and end.
#[tactic(auto, unfolding(crate::specs::Sections::string_at, crate::specs::Sections::string_by))]
fn string<C: Cuts>(payload: &C, at: usize, to: usize) -> Option<(usize, usize)>
    requires order { at ≤ to }
    requires room { to ≤ length (C.octets payload.now) }
    ensures exact { result ≡ string_at (C.octets payload.now) at to }
    ensures within { IfSome result (λ x. (at ≤ x.0) × (x.0 ≤ x.1) × (x.1 ≤ to)) }
{
    match Layout::of(octet(payload, at, to)?)? {
        Layout::Sized(Text::Str, width) => {
            let (first, end) = sized(payload, width, at + 1, to)?;
            if !is_text(payload, Text::Str, first, end) {
                return None;
            }
            Some((first, end))
        }
        _ => None,
    }
}

/// Where an address begins and ends that a string is.
#[tactic(auto, unfolding(crate::specs::Sections::address_at))]
fn address<C: Cuts>(payload: &C, at: usize, to: usize) -> Option<(usize, usize)>
    requires order { at ≤ to }
    requires room { to ≤ length (C.octets payload.now) }
    ensures exact { result ≡ address_at (C.octets payload.now) at to }
    ensures within { IfSome result (λ x. (x.0 ≤ x.1) × (x.1 ≤ to) × (x.1 ≤ x.0 + MAX_ADDRESS)) }
{
    let (first, end) = string(payload, at, to)?;
    if first == end || end - first > MAX_ADDRESS {
        return None;
    }
    Some((first, end))
}

/// Where the third of so many items begins and ends, if it is an address.
#[tactic(auto, unfolding(crate::specs::Sections::third_at))]
fn third<C: Cuts>(payload: &C, count: u32, at: usize, to: usize) -> Option<(usize, usize)>
    requires order { at ≤ to }
    requires room { to ≤ length (C.octets payload.now) }
    ensures exact { result ≡ third_at count (C.octets payload.now) at to }
    ensures within { IfSome result (λ x. (x.0 ≤ x.1) × (x.1 ≤ to) × (x.1 ≤ x.0 + MAX_ADDRESS)) }
{
    if count < 3 {
        return None;
    }
    let second = pass_value(payload, MAX_DEPTH, at, to)?;
    let third = pass_value(payload, MAX_DEPTH, second, to)?;
    address(payload, third, to)
}

/// Where the address begins and ends that is the third of the properties.
#[tactic(auto, unfolding(crate::specs::Sections::to_in))]
pub(crate) fn address_in<C: Cuts>(payload: &C, at: usize, to: usize) -> Option<(usize, usize)>
    requires order { at ≤ to }
    requires room { to ≤ length (C.octets payload.now) }
    ensures exact { result ≡ to_in (C.octets payload.now) at to }
    ensures within { IfSome result (λ x. (x.0 ≤ x.1) × (x.1 ≤ to) × (x.1 ≤ x.0 + MAX_ADDRESS)) }
{
    let (count, first, end) = list(payload, at, to)?;
    third(payload, count, first, end)
}
