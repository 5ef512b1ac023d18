//! The deliveries to clients that are decided and not to be settled yet, by what they carry.

ghost use Rattle.std.specs.Prelude.{◌≡◌, ◌||◌, ℕ, true, OnOk, nat_eq};
ghost use Rattle.number_groups.specs.Ascending.{has};
ghost use Rattle.number_groups.specs.Groups.{is_member};
ghost use Rattle.due_outcomes.specs.Parked.{IsLeft, is_parked};
ghost use Rattle.due_outcomes.specs.Candidates.{Grows};

use number_groups::{Ascending, Groups};
use state_answers::add_group;
use std::alloc::{AllocError, Global};

/// Deliveries to clients, each under the delivery from a client that it carries. One that is let go may still stand under it.
#[doc(hidden)]
#[derive(Drop)]
pub struct Parked {
    alloc: Global,
    /// All of them.
    pub(crate) numbers: Ascending,
    /// By the number of the delivery from a client.
    pub(crate) carrying: Groups<u64>,
}

impl Parked {
    /// None.
    pub(crate) fn new(alloc: Global) -> Parked {
        Parked {
            alloc,
            numbers: Ascending::new(alloc),
            carrying: Groups::new(alloc),
        }
    }

    /// The number is parked under the delivery that it carries.
    ///
    /// # Errors
    ///
    /// Memory was refused; then those that were parked still are.
    pub(crate) fn put(&mut self, carried: u64, number: u64) -> Result<(), AllocError>
        ensures parked { OnOk result (is_parked self.new carried number ≡ true) }
        ensures kept { (n m : ℕ) → is_parked self.old n m ≡ true → is_parked self.new n m ≡ true }
    {
        self.carrying.insert(carried, number)?;
        self.numbers.insert(number)?;
        Ok(())
    }

    /// All that are parked under the delivery become candidates.
    ///
    /// # Errors
    ///
    /// Memory was refused; then some of them may be candidates already.
    pub(crate) fn release(
        &mut self,
        candidates: &mut Ascending,
        carried: u64,
    ) -> Result<(), AllocError>
        ensures grown { OnOk result (Grows candidates.old candidates.new) }
        ensures released { OnOk result ((m : ℕ) → is_parked self.old carried m ≡ true → has candidates.new m ≡ true) }
        ensures left { OnOk result (IsLeft candidates.new self.old self.new) }
    {
        add_group(candidates, &self.carrying, carried)?;
        self.clear(carried);
        Ok(())
    }

    /// No more is parked that is under the delivery.
    fn clear(&mut self, carried: u64)
        ensures { (n m : ℕ) → is_parked self.old n m ≡ true → (is_member nat_eq self.old.carrying carried m || is_parked self.new n m) ≡ true }
    {
        for _ in 0..self.carrying.count(&carried) {
            if let Some(number) = self.carrying.first(&carried) {
                self.carrying.remove(&carried, number);
                self.numbers.remove(number);
            }
        }
    }

    /// All that are parked become candidates. It takes the time of them all.
    ///
    /// # Errors
    ///
    /// Memory was refused; then some of them may be candidates already.
    pub(crate) fn release_all(&mut self, candidates: &mut Ascending) -> Result<(), AllocError>
        ensures grown { OnOk result (Grows candidates.old candidates.new) }
        ensures released { OnOk result ((n m : ℕ) → is_parked self.old n m ≡ true → has candidates.new m ≡ true) }
    {
        while let Some(number) = self.numbers.first() {
            candidates.insert(number)?;
            self.numbers.remove(number);
        }
        self.carrying = Groups::new(self.alloc);
        Ok(())
    }
}
