//! What may be to do, in the order of its numbers.

ghost use Rattle.std.specs.Prelude.{◌≡◌, ◌<◌, ℕ, Some, None, OnOk, IfSome, nat_eq, if◌then◌else◌, ◌==◌};
ghost use Rattle.due_lists.specs.Candidates.{count_of, value_of};

use std::alloc::{AllocError, Global};
use std::collections::BTreeMap;

/// Values by their numbers, the lowest first.
#[derive(Drop)]
pub struct Candidates<V: Copy + Drop> {
    entries: BTreeMap<u64, V>,
}

impl<V: Copy + Drop> Candidates<V> {
    /// None.
    pub fn new(alloc: Global) -> Candidates<V>
        ensures { (n : ℕ) → value_of result n ≡ None }
    {
        Candidates {
            entries: BTreeMap::new(alloc),
        }
    }

    /// The value stands under the number.
    ///
    /// # Errors
    ///
    /// Memory was refused; then all stays as it was.
    pub fn insert(&mut self, number: u64, value: V) -> Result<(), AllocError>
        ensures { OnOk result ((n : ℕ) → value_of self.new n ≡ (if number == n then Some value else value_of self.old n)) }
    {
        self.entries.insert(number, value)?;
        Ok(())
    }

    /// Nothing stands under the number.
    pub fn remove(&mut self, number: u64)
        ensures removed { (n : ℕ) → value_of self.new n ≡ (if number == n then None else value_of self.old n) }
        ensures fewer { (v : V) → value_of self.old number ≡ Some v → count_of self.new < count_of self.old }
    {
        self.entries.remove(&number);
    }

    /// What stands under the number.
    pub fn get(&self, number: u64) -> Option<V>
        ensures { result ≡ value_of self.now number }
    {
        self.entries.get(&number).copied()
    }

    /// The lowest number, and what stands under it.
    pub fn first(&self) -> Option<(u64, V)>
        ensures stands { IfSome result (λ entry. value_of self.now entry.0 ≡ Some entry.1) }
        ensures none { result ≡ None → (n : ℕ) → value_of self.now n ≡ None }
    {
        let (number, value) = self.entries.first_key_value()?;
        Some((*number, *value))
    }
}
