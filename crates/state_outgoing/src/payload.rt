//! Octets that go on with a payload of which so many were sent.

ghost use Rattle.std.specs.Prelude.{◌≡◌, ◌<◌, ◌^◌, drop, length};
ghost use Rattle.state_outgoing.specs.Sent as kept;

/// Behind so many octets of the payload these are its next ones, and where no more follows its last ones.
pub(crate) fn goes_on_with(more: bool, payload: &[u8], sent_count: u64, octets: &[u8]) -> bool
    ensures compared { result ≡ kept.goes_on_with more payload.now sent_count octets.now }
    ensures counted { length payload.now < 2 ^ 64 }
{
    let rest = rest_of(payload, sent_count);
    if more {
        rest.starts_with(octets)
    } else {
        rest == octets
    }
}

/// What is left of the payload behind so many octets.
pub fn rest_of(payload: &[u8], sent_count: u64) -> &[u8]
    ensures rest { result.now ≡ drop sent_count payload.now }
    ensures counted { length payload.now < 2 ^ 64 }
{
    let start = sent_count as usize;
    if start < payload.len() {
        &payload[start..]
    } else {
        &[]
    }
}
