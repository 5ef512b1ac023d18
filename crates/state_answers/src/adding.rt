//! What becomes a candidate of a list that follows events: numbers one by one, those of a group, and those that stand under
//! links.

ghost use Rattle.std.specs.Prelude.{◌≡◌, ◌||◌, ℕ, OnErr, OnOk, is_some, nat_eq, true};
ghost use Rattle.std.specs.List.{list_any};
ghost use Rattle.number_groups.specs.Ascending.{has};
ghost use Rattle.number_groups.specs.Groups.{is_member};
ghost use Rattle.number_groups.specs.Numbers.{is_among};
ghost use Rattle.number_groups.specs.OctetGroups as octets;
ghost use Rattle.trace_events.specs.Words.{is_number};
ghost use Rattle.trace_events.specs.View.{link_view};

use number_groups::{Ascending, Groups, OctetGroups};
use std::alloc::AllocError;
use trace_events::Link;

/// The number becomes a candidate, if there is one.
///
/// # Errors
///
/// Memory was refused, for a number; then all stays as it was.
pub fn add(candidates: &mut Ascending, number: Option<u64>) -> Result<(), AllocError>
    ensures joined { OnOk result ((n : ℕ) → has candidates.new n ≡ (has candidates.old n || is_number number n)) }
    ensures unchanged { OnErr result ((n : ℕ) → has candidates.new n ≡ has candidates.old n) }
    ensures refused { OnErr result (is_some number ≡ true) }
{
    if let Some(number) = number {
        candidates.insert(number)?;
    }
    Ok(())
}

/// These become candidates.
///
/// # Errors
///
/// Memory was refused, for one of them; then some of them came in.
pub fn add_all(candidates: &mut Ascending, numbers: &[u64]) -> Result<(), AllocError>
    ensures joined { OnOk result ((n : ℕ) → has candidates.new n ≡ (has candidates.old n || is_among numbers.now n)) }
    ensures refused { OnErr result ((n : ℕ) × (is_among numbers.now n ≡ true)) }
{
    for number in numbers {
        candidates.insert(*number)?;
    }
    Ok(())
}

/// All numbers of the group become candidates.
///
/// # Errors
///
/// Memory was refused, for a number of theirs; then some of them came in.
pub fn add_group(
    candidates: &mut Ascending,
    groups: &Groups<u64>,
    key: u64,
) -> Result<(), AllocError>
    ensures joined { OnOk result ((n : ℕ) → has candidates.new n ≡ (has candidates.old n || is_member nat_eq groups.now key n)) }
    ensures refused { OnErr result ((n : ℕ) × (is_member nat_eq groups.now key n ≡ true)) }
{
    for index in 0..groups.count(&key) {
        add(candidates, groups.get(&key, index))?;
    }
    Ok(())
}

/// All numbers of the group under these octets become candidates.
///
/// # Errors
///
/// Memory was refused, for a number of theirs; then some of them came in.
pub fn add_octet_group(
    candidates: &mut Ascending,
    groups: &OctetGroups,
    key: &[u8],
) -> Result<(), AllocError>
    ensures joined { OnOk result ((n : ℕ) → has candidates.new n ≡ (has candidates.old n || octets.is_member groups.now key.now n)) }
    ensures refused { OnErr result ((n : ℕ) × (octets.is_member groups.now key.now n ≡ true)) }
{
    for index in 0..groups.count(key) {
        add(candidates, groups.get(key, index))?;
    }
    Ok(())
}

/// All numbers of the groups of these links become candidates.
///
/// # Errors
///
/// Memory was refused, for a number of theirs; then some of them came in.
pub fn add_of_links(
    candidates: &mut Ascending,
    groups: &Groups<u64>,
    links: &[Link],
) -> Result<(), AllocError>
    ensures joined { OnOk result ((n : ℕ) → has candidates.new n
        ≡ (has candidates.old n || list_any (λ l. is_member nat_eq groups.now (link_view l).number n) links.now)) }
    ensures refused { OnErr result ((n : ℕ) × (list_any (λ l. is_member nat_eq groups.now (link_view l).number n) links.now ≡ true)) }
{
    for link in links {
        add_group(candidates, groups, link.number)?;
    }
    Ok(())
}
