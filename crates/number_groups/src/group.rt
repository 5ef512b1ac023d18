//! The numbers of one key.

ghost use Rattle.std.specs.Prelude.{◌≡◌, ℕ, ◌∷◌, [], IfOk, OnOk, OnErr, cond, true, false, length, nat_eq, slice_get};
ghost use Rattle.std.specs.List.{IsDistinct};
ghost use Rattle.indexmap.specs.IndexMap.{keys};
ghost use Rattle.number_groups.specs.Numbers.{is_among, members};

use indexmap::IndexMap;
use std::alloc::{AllocError, Global};

/// The numbers of one key. Most groups have one number, which takes no memory beside its key; one that had more keeps its map
/// until it has none.
#[doc(hidden)]
#[derive(Drop)]
pub enum Group {
    /// This number alone.
    One(u64),
    /// Any numbers.
    Many(IndexMap<u64, ()>),
}

impl Group {
    /// Puts the number into the group; one that is there already stays as it was.
    ///
    /// # Errors
    ///
    /// Memory was refused; then the numbers stay as they were.
    pub(crate) fn insert(&mut self, alloc: Global, number: u64) -> Result<(), AllocError>
        ensures joined { OnOk result ((n : ℕ) → is_among (members self.new) n ≡ cond (nat_eq number n) true (is_among (members self.old) n)) }
        ensures unchanged { OnErr result (members self.new ≡ members self.old) }
    {
        match self {
            Group::Many(numbers) => {
                numbers.insert(number, ())?;
            }
            Group::One(first) => {
                let first = *first;
                if first != number {
                    *self = Group::Many(set_of(alloc, first, number)?);
                }
            }
        }
        Ok(())
    }

    /// Takes the number out of the group, if it is there. The last number takes the place of this one, which no clause says.
    pub(crate) fn remove(&mut self, alloc: Global, number: u64)
        ensures { (n : ℕ) → is_among (members self.new) n ≡ cond (nat_eq number n) false (is_among (members self.old) n) }
    {
        match self {
            Group::Many(numbers) => {
                numbers.swap_remove(&number);
            }
            Group::One(first) => {
                if *first == number {
                    *self = Group::Many(IndexMap::new(alloc));
                }
            }
        }
    }

    /// The number is in the group.
    pub(crate) fn has(&self, number: u64) -> bool
        ensures { result ≡ is_among (members self.now) number }
    {
        match self {
            Group::Many(numbers) => numbers.contains_key(&number),
            Group::One(first) => number == *first,
        }
    }

    /// How many numbers the group has.
    pub(crate) fn count(&self) -> usize
        ensures count { result ≡ length (members self.now) }
        ensures distinct { IsDistinct nat_eq (members self.now) }
    {
        match self {
            Group::Many(numbers) => numbers.len(),
            Group::One(_) => 1,
        }
    }

    /// The number at the index. While none is removed, no call changes the order, which no clause says.
    pub(crate) fn get(&self, index: usize) -> Option<u64>
        ensures { result ≡ slice_get (members self.now) index }
    {
        match self {
            Group::Many(numbers) => {
                let (number, _) = numbers.get_index(index)?;
                Some(*number)
            }
            Group::One(first) if index == 0 => Some(*first),
            Group::One(_) => None,
        }
    }
}

/// The map whose keys are two numbers.
///
/// # Errors
///
/// Memory was refused.
fn set_of(alloc: Global, first: u64, second: u64) -> Result<IndexMap<u64, ()>, AllocError>
    ensures { IfOk result (λ numbers. (n : ℕ) → is_among (keys numbers) n ≡ cond (nat_eq second n) true (is_among (first ∷ []) n)) }
{
    let mut numbers = IndexMap::with_capacity(alloc, 2)?;
    numbers.insert(first, ())?;
    numbers.insert(second, ())?;
    Ok(numbers)
}
