//! A run of numbers with one value.

ghost use Rattle.std.specs.Prelude.{◌≡◌, ◌↔◌, IsTrue};
ghost use Rattle.number_runs.specs.Runs.{BeginsBeside, EndsBeside};

use crate::value::RunValue;

/// The numbers from the first to the last, with one value.
#[doc(hidden)]
#[derive(Clone, Copy)]
pub struct Run<V> {
    pub(crate) first: u32,
    pub(crate) last: u32,
    pub(crate) value: V,
}

impl<V: RunValue> Run<V> {
    /// The number alone.
    pub(crate) fn of(number: u32, value: V) -> Run<V>
        ensures { result ≡ record { first = number; last = number; value = value } }
    {
        Run {
            first: number,
            last: number,
            value,
        }
    }

    /// The run has the value, and its last number is the one before this.
    pub(crate) fn ends_beside(&self, number: u32, value: V) -> bool
        ensures { IsTrue result ↔ EndsBeside number value self.now }
    {
        self.last < number && number - self.last == 1 && self.value.is_same(value)
    }

    /// The run has the value, and its first number is the one behind this.
    pub(crate) fn begins_beside(&self, number: u32, value: V) -> bool
        ensures { IsTrue result ↔ BeginsBeside number value self.now }
    {
        number < self.first && self.first - number == 1 && self.value.is_same(value)
    }
}
