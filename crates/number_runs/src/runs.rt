//! Runs of numbers.

ghost use Rattle.std.specs.Prelude.{◌≡◌, ◌≤◌, ◌↔◌, ◌&&◌, ◌==◌, ℕ, [], IfOk, IfSome, IsSomeAnd, IsTrue, OnOk, OnErr, Some, drop, is_none, is_some, if◌then◌else◌, length, nat_lt, slice_get, take};
ghost use Rattle.number_runs.specs.Runs.{AreApart, BeginBehind, EndBefore, EndFrom, HasBefore, HasBehind, NeedsRun, Puts, value_in};

use crate::run::Run;
use crate::value::RunValue;
use std::alloc::{AllocError, Global};
use std::marker::Model;

/// Values under numbers, where many neighbours have the same value: a run of numbers with one value takes one entry.
#[derive(Drop)]
pub struct NumberRuns<V: RunValue> {
    runs: Vec<Run<V>>,
}

impl<V: RunValue> Model for NumberRuns<V> {
    ghost use Rattle.std.specs.Prelude.{List};
    ghost use Rattle.number_runs.specs.declared.run.Run.{Run as Numbers};

    ghost Value = { List (Numbers V) };

    ghost use Rattle.number_runs.specs.Runs.{AreApart};

    ghost view = { λ all. all.runs.items };

    ghost invariant = { λ all. AreApart 0 all.runs.items };
}

impl<V: RunValue> NumberRuns<V> {
    /// No number has a value. It takes no memory until the first insert.
    pub fn new(alloc: Global) -> NumberRuns<V>
        ensures { result ≡ [] }
    {
        NumberRuns {
            runs: Vec::new(alloc),
        }
    }

    /// How many runs there are.
    pub fn runs(&self) -> usize
        ensures { result ≡ length self.now }
    {
        self.runs.len()
    }

    /// The value of the number. `None` where it has none. It takes the time of the logarithm of the number of runs; of a number
    /// behind all of them, none.
    pub fn get(&self, number: u32) -> Option<V>
        ensures { result ≡ value_in self.now number }
    {
        value_of(self.runs.as_slice(), number)
    }

    /// The number has the value, and the answer is `true`, unless it has one already: then all stays as it was.
    ///
    /// # Errors
    ///
    /// Memory was refused, for a number beside which none has the value; then all stays as it was.
    pub fn insert(&mut self, number: u32, value: V) -> Result<bool, AllocError>
        ensures put { IfOk result (λ is_put. (n : ℕ) → value_in self.new n ≡ (if is_put && (number == n) then Some value else value_in self.old n)) }
        ensures first { IfOk result (λ is_put. is_put ≡ is_none (value_in self.old number)) }
        ensures unchanged { OnErr result (self.new ≡ self.old) }
        ensures full { OnErr result (NeedsRun number value self.old) }
    {
        let Some(place) = free_place(self.runs.as_slice(), number) else {
            return Ok(false);
        };
        put(&mut self.runs, place, number, value)?;
        Ok(true)
    }
}

/// The place of the first run that does not end before the number.
fn place<V: RunValue>(runs: &[Run<V>], number: u32) -> usize
    ensures within { result ≤ length runs.now }
    ensures before { AreApart 0 runs.now → EndBefore number (take result runs.now) }
    ensures behind { AreApart 0 runs.now → EndFrom number (drop result runs.now) }
{
    match runs.last() {
        Some(run) if number <= run.last => runs.partition_point(
            |run: &Run<V>| -> bool
                ensures { result ≡ nat_lt run.now.last number }
            { run.last < number },
        ),
        _ => runs.len(),
    }
}

/// The value of the number.
fn value_of<V: RunValue>(runs: &[Run<V>], number: u32) -> Option<V>
    ensures { AreApart 0 runs.now → result ≡ value_in runs.now number }
{
    let run = run_at(runs, place(runs, number))?;
    if run.first <= number {
        Some(run.value)
    } else {
        None
    }
}

/// The run at the place.
fn run_at<V: RunValue>(runs: &[Run<V>], place: usize) -> Option<Run<V>>
    ensures { result ≡ slice_get runs.now place }
{
    runs.get(place).copied()
}

/// The place for a run of the number, which has no value yet; `None` where it has one.
fn free_place<V: RunValue>(runs: &[Run<V>], number: u32) -> Option<usize>
    ensures within { IfSome result (λ place. place ≤ length runs.now) }
    ensures before { AreApart 0 runs.now → IfSome result (λ place. EndBefore number (take place runs.now)) }
    ensures behind { AreApart 0 runs.now → IfSome result (λ place. BeginBehind number (drop place runs.now)) }
    ensures free { AreApart 0 runs.now → is_some result ≡ is_none (value_in runs.now number) }
{
    let place = place(runs, number);
    if begins_by(runs, place, number) {
        None
    } else {
        Some(place)
    }
}

/// The run at the place begins with the number or before it.
fn begins_by<V: RunValue>(runs: &[Run<V>], place: usize, number: u32) -> bool
    ensures { IsTrue result ↔ IsSomeAnd (slice_get runs.now place) (λ run. run.first ≤ number) }
{
    match runs.get(place) {
        Some(run) => run.first <= number,
        None => false,
    }
}

/// The run before the place ends right before the number, and has the value.
fn ends_beside<V: RunValue>(runs: &[Run<V>], place: usize, number: u32, value: V) -> bool
    requires { place ≤ length runs.now }
    ensures { IsTrue result ↔ HasBefore number value place runs.now }
{
    place > 0 && runs[place - 1].ends_beside(number, value)
}

/// The run at the place begins right behind the number, and has the value.
fn begins_beside<V: RunValue>(runs: &[Run<V>], place: usize, number: u32, value: V) -> bool
    ensures { IsTrue result ↔ HasBehind number value place runs.now }
{
    match runs.get(place) {
        Some(run) => run.begins_beside(number, value),
        None => false,
    }
}

/// The number has the value: in the run that ends before it, in that which begins behind it, in both as one, or in one more.
fn put<V: RunValue>(
    runs: &mut Vec<Run<V>>,
    place: usize,
    number: u32,
    value: V,
) -> Result<(), AllocError>
    requires within { place ≤ length runs.old.items }
    requires apart { AreApart 0 runs.old.items }
    requires before { EndBefore number (take place runs.old.items) }
    requires behind { BeginBehind number (drop place runs.old.items) }
    ensures put { OnOk result (Puts number value runs.old.items runs.new.items) }
    ensures apart { AreApart 0 runs.new.items }
    ensures unchanged { OnErr result (runs.new.items ≡ runs.old.items) }
    ensures full { OnErr result (NeedsRun number value runs.old.items) }
{
    let is_behind = ends_beside(runs.as_slice(), place, number, value);
    let is_before = begins_beside(runs.as_slice(), place, number, value);
    match (is_behind, is_before) {
        (true, true) => {
            runs[place - 1].last = runs[place].last;
            runs.remove(place);
        }
        (true, false) => runs[place - 1].last = number,
        (false, true) => runs[place].first = number,
        (false, false) => runs.insert(place, Run::of(number, value))?,
    }
    Ok(())
}
