//! Some numbers, each once.

ghost use Rattle.std.specs.Prelude.{◌≡◌, ℕ, ◌<◌, ◌+◌, ◌++◌, [], IfSome, IsSome, OnOk, OnErr, ◌↔◌, cond, true, false, if◌then◌else◌, is_some, length, nat_eq, option_to_list};
ghost use Rattle.number_groups.specs.Numbers.{is_among};

use crate::group::Group;
use std::alloc::{AllocError, Global};
use std::marker::Model;

/// Some numbers, each once, in the order in which they came. Up to one takes no memory.
#[derive(Drop)]
pub struct NumberSet {
    alloc: Global,
    group: Option<Group>,
}

impl Model for NumberSet {
    ghost use Rattle.std.specs.Prelude.{ℕ, List, ⊤};
    ghost use Rattle.number_groups.specs.Numbers.{listed};

    ghost Value = { List ℕ };

    ghost view = { λ set. listed set.group };

    ghost invariant = { λ set. ⊤ };
}

impl NumberSet {
    /// No numbers.
    pub fn new(alloc: Global) -> NumberSet
        ensures { result ≡ [] }
    {
        NumberSet { alloc, group: None }
    }

    /// The number comes in, unless it is there already.
    ///
    /// # Errors
    ///
    /// Memory was refused; then the numbers stay as they were.
    pub fn insert(&mut self, number: u64) -> Result<(), AllocError>
        ensures joined { OnOk result ((n : ℕ) → is_among self.new n ≡ cond (nat_eq number n) true (is_among self.old n)) }
        ensures unchanged { OnErr result (self.new ≡ self.old) }
    {
        let alloc = self.alloc;
        match &mut self.group {
            Some(group) => group.insert(alloc, number)?,
            None => self.group = Some(Group::One(number)),
        }
        Ok(())
    }

    /// Takes out the number that came last. `None` where there is none.
    pub fn pop(&mut self) -> Option<u64>
        ensures last { self.old ≡ self.new ++ option_to_list result }
        ensures found { IsSome result ↔ (0 < length self.old) }
        ensures left { IfSome result (λ number. (n : ℕ) → is_among self.new n ≡ cond (nat_eq number n) false (is_among self.old n)) }
        ensures len { length self.new + (if is_some result then 1 else 0) ≡ length self.old }
    {
        match &mut self.group {
            Some(Group::Many(numbers)) => {
                let (number, _) = numbers.pop()?;
                Some(number)
            }
            Some(Group::One(number)) => {
                let number = *number;
                self.group = None;
                Some(number)
            }
            None => None,
        }
    }
}
