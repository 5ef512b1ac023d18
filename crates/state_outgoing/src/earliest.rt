//! The earliest record of a group that passes a test.

ghost use Rattle.std.specs.Prelude.{◌≡◌};
ghost use Rattle.number_groups.specs.Groups.{numbers};
ghost use Rattle.trace_events.specs.Words.{where_passes};
ghost use Rattle.state_outgoing.specs.Earliest as law;

use number_groups::{Groups, NumberKey, NumberTest};

/// The smaller of two numbers, where both are there.
fn lesser(one: Option<u64>, other: Option<u64>) -> Option<u64>
    ensures { result ≡ law.lesser one other }
{
    match (one, other) {
        (Some(m), Some(n)) => Some(m.min(n)),
        (Some(m), None) => Some(m),
        (None, other) => other,
    }
}

/// The number, if it is there and passes.
fn passing<T: NumberTest>(number: Option<u64>, test: &T) -> Option<u64>
    ensures { result ≡ where_passes (T.does_pass test.now) number }
{
    let number = number?;
    if test.passes(number) {
        Some(number)
    } else {
        None
    }
}

/// The least number of the group of the key that passes. It takes the time of the group.
pub(crate) fn least<K: NumberKey, T: NumberTest>(
    groups: &Groups<K>,
    key: &K,
    test: &T,
) -> Option<u64>
    ensures { result ≡ law.least (T.does_pass test.now) (numbers K.eq groups.now key.now) }
{
    let mut found = None;
    for index in 0..groups.count(key) {
        found = lesser(found, passing(groups.get(key, index), test));
    }
    found
}
