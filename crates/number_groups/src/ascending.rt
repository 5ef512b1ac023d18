//! Some numbers, the lowest first.

ghost use Rattle.std.specs.Prelude.{◌≡◌, ◌<◌, ◌&&◌, ◌||◌, ◌==◌, ℕ, not, true, false, None, IfOk, IfSome, OnOk, OnErr};
ghost use Rattle.std.specs.List.{find};
ghost use Rattle.std.specs.Ordering.{nat_cmp};
ghost use Rattle.std.specs.BTreeSet.{contains};
ghost use Rattle.number_groups.specs.Ascending.{count_of, has};

use std::alloc::{AllocError, Global};
use std::collections::BTreeSet;

/// A test of numbers.
pub trait NumberTest {
    ghost use Rattle.std.specs.Prelude.{◌≡◌, ℕ, Bool};

    /// Which of them pass.
    ghost does_pass: { Self → ℕ → Bool };

    /// The number passes.
    fn passes(&self, number: u64) -> bool
        ensures { result ≡ Self.does_pass self.now number };
}

/// One number, which takes no memory, or any.
#[doc(hidden)]
#[derive(Drop)]
pub enum Ascent {
    One(u64),
    Many(BTreeSet<u64>),
}

/// Numbers, the lowest first. One that was alone takes no memory.
#[derive(Drop)]
pub struct Ascending {
    alloc: Global,
    numbers: Ascent,
}

impl Ascending {
    /// None.
    pub fn new(alloc: Global) -> Ascending
        ensures { (n : ℕ) → has result n ≡ false }
    {
        Ascending {
            alloc,
            numbers: Ascent::Many(BTreeSet::new(alloc)),
        }
    }

    /// The number comes in, if it is not there yet.
    ///
    /// # Errors
    ///
    /// Memory was refused; then all stays as it was.
    pub fn insert(&mut self, number: u64) -> Result<(), AllocError>
        ensures joined { OnOk result ((n : ℕ) → has self.new n ≡ (has self.old n || number == n)) }
        ensures unchanged { OnErr result ((n : ℕ) → has self.new n ≡ has self.old n) }
    {
        match &mut self.numbers {
            Ascent::Many(numbers) if numbers.is_empty() => self.numbers = Ascent::One(number),
            Ascent::Many(numbers) => {
                numbers.insert(number)?;
            }
            Ascent::One(first) => {
                let first = *first;
                if first != number {
                    self.numbers = Ascent::Many(set_of(self.alloc, first, number)?);
                }
            }
        }
        Ok(())
    }

    /// The number goes, if it is there.
    pub fn remove(&mut self, number: u64)
        ensures left { (n : ℕ) → has self.new n ≡ (has self.old n && not (number == n)) }
        ensures shorter { has self.old number ≡ true → count_of self.new < count_of self.old }
    {
        match &mut self.numbers {
            Ascent::Many(numbers) => {
                numbers.remove(&number);
            }
            Ascent::One(first) => {
                if *first == number {
                    self.numbers = Ascent::Many(BTreeSet::new(self.alloc));
                }
            }
        }
    }

    /// The lowest. `None` where there is no number.
    pub fn first(&self) -> Option<u64>
        ensures there { IfSome result (λ number. has self.now number ≡ true) }
        ensures none { result ≡ None → (n : ℕ) → has self.now n ≡ false }
    {
        match &self.numbers {
            Ascent::Many(numbers) => numbers.first().copied(),
            Ascent::One(first) => Some(*first),
        }
    }

    /// The lowest that passes the test. `None` where none does. It takes the time of those up to there.
    pub fn first_passing<T: NumberTest>(&self, test: &T) -> Option<u64>
        ensures passes { IfSome result (λ number. T.does_pass test.now number ≡ true) }
        ensures none { result ≡ None → (n : ℕ) → has self.now n ≡ true → T.does_pass test.now n ≡ false }
    {
        match &self.numbers {
            Ascent::Many(numbers) => found(numbers, test),
            Ascent::One(first) if test.passes(*first) => Some(*first),
            Ascent::One(_) => None,
        }
    }
}

/// The set of two numbers.
///
/// # Errors
///
/// Memory was refused.
fn set_of(alloc: Global, first: u64, second: u64) -> Result<BTreeSet<u64>, AllocError>
    ensures { IfOk result (λ numbers. (n : ℕ) → contains nat_cmp numbers n ≡ (first == n || second == n)) }
{
    let mut numbers = BTreeSet::new(alloc);
    numbers.insert(first)?;
    numbers.insert(second)?;
    Ok(numbers)
}

/// The lowest number of the set that passes the test.
fn found<T: NumberTest>(numbers: &BTreeSet<u64>, test: &T) -> Option<u64>
    ensures passes { IfSome result (λ number. T.does_pass test.now number ≡ true) }
    ensures none { result ≡ None → (n : ℕ) → contains nat_cmp numbers.now n ≡ true → T.does_pass test.now n ≡ false }
{
    first_of(numbers, test)
}

fn first_of<T: NumberTest>(numbers: &BTreeSet<u64>, test: &T) -> Option<u64>
    ensures { result ≡ find (T.does_pass test.now) numbers.now.keys }
{
    numbers.iter().copied().find(|number| test.passes(*number))
}
