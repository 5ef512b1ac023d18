//! Numbers that come into a set: one where there is one, and those of a group.

ghost use Rattle.std.specs.Prelude.{◌≡◌, ◌||◌, ℕ, OnErr, OnOk, is_some, nat_eq, true};
ghost use Rattle.number_groups.specs.Groups.{is_member};
ghost use Rattle.number_groups.specs.Numbers.{is_among};
ghost use Rattle.trace_events.specs.Words.{is_number};

use number_groups::{Groups, NumberSet};
use std::alloc::AllocError;

/// The number comes in, if there is one.
///
/// # Errors
///
/// Memory was refused, for a number.
pub fn add_number(gathered: &mut NumberSet, number: Option<u64>) -> Result<(), AllocError>
    ensures added { OnOk result ((n : ℕ) → is_among gathered.new n ≡ (is_among gathered.old n || is_number number n)) }
    ensures refused { OnErr result (is_some number ≡ true) }
{
    if let Some(number) = number {
        gathered.insert(number)?;
    }
    Ok(())
}

/// All numbers of the group come in.
///
/// # Errors
///
/// Memory was refused, for a number of the group.
pub fn add_group(gathered: &mut NumberSet, groups: &Groups<u64>, key: u64) -> Result<(), AllocError>
    ensures added { OnOk result ((n : ℕ) → is_among gathered.new n ≡ (is_among gathered.old n || is_member nat_eq groups.now key n)) }
    ensures refused { OnErr result ((n : ℕ) × (is_member nat_eq groups.now key n ≡ true)) }
{
    for index in 0..groups.count(&key) {
        add_number(gathered, groups.get(&key, index))?;
    }
    Ok(())
}
