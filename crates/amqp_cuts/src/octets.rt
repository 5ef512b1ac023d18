//! Octets, sizes and counts at offsets, in front of an end.

ghost use Rattle.std.specs.Prelude.{◌≡◌, ◌+◌, ◌^◌, ◌<◌, ◌≤◌, IfSome, length, slice_index};
ghost use Rattle.amqp_types.specs.Codes.{size_len};
ghost use Rattle.amqp_cuts.specs.Offsets.{octet_in, past, number_in, sized_in, counted_in};

use crate::cuts::Cuts;
use crate::layout::size_octets;
use amqp_types::SizeWidth;

/// The octet at an offset.
pub(crate) fn octet_of<C: Cuts>(payload: &C, at: usize) -> u8
    requires { at < length (C.octets payload.now) }
    ensures { result ≡ slice_index (C.octets payload.now) at }
{
    payload.part_at(at)[0]
}

/// The octet at an offset, if it is in front of the end.
#[tactic(auto, unfolding(crate::specs::Offsets::octet_in))]
pub(crate) fn octet<C: Cuts>(payload: &C, at: usize, to: usize) -> Option<u8>
    requires { to ≤ length (C.octets payload.now) }
    ensures exact { result ≡ octet_in (C.octets payload.now) at to }
    ensures within { IfSome result (λ octet. at < to) }
{
    if at < to {
        Some(octet_of(payload, at))
    } else {
        None
    }
}

/// The offset behind so many octets, if it is not behind the end.
#[tactic(auto, unfolding(crate::specs::Offsets::past))]
pub(crate) fn pass(count: usize, at: usize, to: usize) -> Option<usize>
    requires { at ≤ to }
    ensures exact { result ≡ past count at to }
    ensures within { IfSome result (λ next. (next ≡ at + count) × (next ≤ to)) }
{
    if to - at < count {
        None
    } else {
        Some(at + count)
    }
}

/// The number in a size or a count.
pub(crate) fn number<C: Cuts>(payload: &C, width: SizeWidth, at: usize) -> u32
    requires there { at + size_len width ≤ length (C.octets payload.now) }
    requires fits { at + size_len width < 2 ^ 64 }
    ensures { result ≡ number_in width (C.octets payload.now) at }
{
    match width {
        SizeWidth::One => u32::from(octet_of(payload, at)),
        SizeWidth::Four => {
            let high = u32::from(octet_of(payload, at)) * 256
                + u32::from(octet_of(payload, at + 1));
            let low = u32::from(octet_of(payload, at + 2)) * 256
                + u32::from(octet_of(payload, at + 3));
            high * 65536 + low
        }
    }
}

/// Where the octets behind a size begin and end.
#[tactic(auto, unfolding(crate::specs::Offsets::sized_in))]
pub(crate) fn sized<C: Cuts>(
    payload: &C,
    width: SizeWidth,
    at: usize,
    to: usize,
) -> Option<(usize, usize)>
    requires order { at ≤ to }
    requires room { to ≤ length (C.octets payload.now) }
    ensures exact { result ≡ sized_in width (C.octets payload.now) at to }
    ensures within { IfSome result (λ x. (at ≤ x.0) × (x.0 ≤ x.1) × (x.1 ≤ to)) }
{
    let first = pass(size_octets(width), at, to)?;
    let end = pass(number(payload, width, at) as usize, first, to)?;
    Some((first, end))
}

/// How many items there are, and where they begin and end.
#[tactic(auto, unfolding(crate::specs::Offsets::counted_in))]
pub(crate) fn counted<C: Cuts>(
    payload: &C,
    width: SizeWidth,
    at: usize,
    to: usize,
) -> Option<(u32, usize, usize)>
    requires order { at ≤ to }
    requires room { to ≤ length (C.octets payload.now) }
    ensures exact { result ≡ counted_in width (C.octets payload.now) at to }
    ensures within { IfSome result (λ x. (at ≤ x.1) × (x.1 ≤ x.2) × (x.2 ≤ to)) }
{
    let (count_at, end) = sized(payload, width, at, to)?;
    let first = pass(size_octets(width), count_at, end)?;
    let count = number(payload, width, count_at);
    if end - count_at < count as usize {
        return None;
    }
    Some((count, first, end))
}
