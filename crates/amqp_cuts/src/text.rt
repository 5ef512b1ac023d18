//! Whether octets may stand in a binary, a string or a symbol, also where they lie in several parts.

ghost use Rattle.std.specs.Prelude.{◌≡◌, ◌+◌, ◌-◌, ◌<◌, ◌≤◌, ◌≢◌, ℕ, None, false, true, IfSome, IsUtf8, length, min, take, drop};
ghost use Rattle.std.specs.Str.{is_utf8};
ghost use Rattle.std.specs.List.{list_all};
ghost use Rattle.std.specs.Prelude.{nat_lt};
ghost use Rattle.amqp_types.specs.Reading.{is_text};
ghost use Rattle.amqp_cuts.specs.Offsets.{window};

use crate::cuts::Cuts;
use crate::octets::octet_of;
use amqp_types::Text;

/// The octets from an offset on that lie in one part, as far as the end.
pub(crate) fn part<C: Cuts>(payload: &C, at: usize, to: usize) -> &[u8]
    requires order { at < to }
    requires room { to ≤ length (C.octets payload.now) }
    ensures some { 0 < length result.now }
    ensures within { at + length result.now ≤ to }
    ensures exact { result.now ≡ window (C.octets payload.now) at (at + length result.now) }
{
    let part = payload.part_at(at);
    &part[..part.len().min(to - at)]
}

/// Whether all octets are ASCII.
fn is_ascii<C: Cuts>(payload: &C, at: usize, to: usize) -> bool
    requires order { at ≤ to }
    requires room { to ≤ length (C.octets payload.now) }
    ensures { result ≡ list_all (λ b. nat_lt b 128) (window (C.octets payload.now) at to) }
{
    let mut place = at;
    while place < to {
        let part = part(payload, place, to);
        if !part.is_ascii() {
            return false;
        }
        place += part.len();
    }
    true
}

/// The length of the longest front that is UTF-8.
fn valid_front(octets: &[u8]) -> usize
    ensures within { result ≤ length octets.now }
    ensures valid { IsUtf8 (take result octets.now) }
    ensures longest { (more : ℕ) → result < more → more ≤ length octets.now → ¬ (IsUtf8 (take more octets.now)) }
{
    match str::from_utf8(octets) {
        Ok(_) => octets.len(),
        Err(error) => error.valid_up_to(),
    }
}

/// Up to four octets, side by side, and how many they are: all that a character may have.
fn four_octets<C: Cuts>(payload: &C, at: usize, to: usize) -> ([u8; 4], usize)
    requires order { at < to }
    requires room { to ≤ length (C.octets payload.now) }
    ensures count { result.1 ≡ min (to - at) 4 }
    ensures exact { take result.1 result.0 ≡ window (C.octets payload.now) at (at + result.1) }
{
    let count = (to - at).min(4);
    let mut octets = [0; 4];
    for i in 0..count {
        octets[i] = octet_of(payload, at + i);
    }
    (octets, count)
}

/// The offset behind some characters; none where no character begins.
fn pass_characters<C: Cuts>(payload: &C, at: usize, to: usize) -> Option<usize>
    requires order { at < to }
    requires room { to ≤ length (C.octets payload.now) }
    ensures within { IfSome result (λ next. (at < next) × (next ≤ to)) }
    ensures some { IfSome result (λ next. IsUtf8 (window (C.octets payload.now) at next)) }
    ensures none { result ≡ None → is_utf8 (window (C.octets payload.now) at to) ≡ false }
{
    let here = valid_front(part(payload, at, to));
    if here > 0 {
        return Some(at + here);
    }
    // a character may lie across the end of the part
    let (octets, count) = four_octets(payload, at, to);
    let across = valid_front(&octets[..count]);
    if across > 0 { Some(at + across) } else { None }
}

/// Whether the octets are UTF-8.
fn is_utf8<C: Cuts>(payload: &C, at: usize, to: usize) -> bool
    requires order { at ≤ to }
    requires room { to ≤ length (C.octets payload.now) }
    ensures { result ≡ is_utf8 (window (C.octets payload.now) at to) }
{
    let mut place = at;
    while place < to {
        match pass_characters(payload, place, to) {
            Some(next) => place = next,
            None => return false,
        }
    }
    true
}

/// Whether the octets may stand in a binary, a string or a symbol.
#[tactic(auto, unfolding(amqp_types::specs::Reading::is_text))]
pub(crate) fn is_text<C: Cuts>(payload: &C, text: Text, at: usize, to: usize) -> bool
    requires order { at ≤ to }
    requires room { to ≤ length (C.octets payload.now) }
    ensures { result ≡ is_text text (window (C.octets payload.now) at to) }
{
    match text {
        Text::Binary => true,
        Text::Str => is_utf8(payload, at, to),
        Text::Symbol => is_ascii(payload, at, to),
    }
}
