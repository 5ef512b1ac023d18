//! Of the records for which a column stands, of each quantity the lowest and the highest value.

ghost use Rattle.std.specs.Prelude.{◌≡◌, ◌∷◌, [], Some, min, max};
ghost use Rattle.credit_chart.specs.declared.level.Quantity.{Quantity};
ghost use Rattle.credit_chart.specs.Levels.{value_of};
ghost use Rattle.credit_chart.specs.Thinning.{both, extent_at, extent_in, extent_of, values_of};

use crate::level::{Level, Quantity};

/// The lowest and the highest of some values.
#[derive(Clone, Copy, Debug)]
pub(crate) struct Extent {
    pub low: u32,
    pub high: u32,
}

/// What stood at records of which some have a level: of each quantity the lowest value, and the highest.
#[doc(hidden)]
#[derive(Clone, Copy, Debug)]
pub struct Column {
    pub(crate) low: Level,
    pub(crate) high: Level,
}

impl Column {
    /// The lowest and the highest value of a quantity.
    pub(crate) fn extent(self, quantity: Quantity) -> Extent
        ensures { result ≡ extent_at quantity self }
    {
        Extent {
            low: quantity.value_of(self.low),
            high: quantity.value_of(self.high),
        }
    }

    /// Of the records of both.
    fn joined(self, other: Column) -> Column
        ensures { (quantity : Quantity) → Some (extent_at quantity result) ≡ both (Some (extent_at quantity self)) (Some (extent_at quantity other)) }
    {
        Column {
            low: lowest(self.low, other.low),
            high: highest(self.high, other.high),
        }
    }
}

/// Of one record.
pub(crate) fn column_of(found: Option<Level>) -> Option<Column>
    ensures { (quantity : Quantity) → extent_in quantity result ≡ extent_of (values_of quantity (found ∷ [])) }
{
    match found {
        Some(level) => Some(Column {
            low: level,
            high: level,
        }),
        None => None,
    }
}

/// Of the records of both.
pub(crate) fn joined(first: Option<Column>, second: Option<Column>) -> Option<Column>
    ensures { (quantity : Quantity) → extent_in quantity result ≡ both (extent_in quantity first) (extent_in quantity second) }
{
    match (first, second) {
        (Some(first), Some(second)) => Some(first.joined(second)),
        (Some(first), None) => Some(first),
        (None, second) => second,
    }
}

/// The lowest value of each quantity.
fn lowest(first: Level, second: Level) -> Level
    ensures { (quantity : Quantity) → value_of quantity result ≡ min (value_of quantity first) (value_of quantity second) }
{
    Level {
        credit: first.credit.min(second.credit),
        window: first.window.min(second.window),
        waiting: first.waiting.min(second.waiting),
        unsettled: first.unsettled.min(second.unsettled),
        is_draining: first.is_draining && second.is_draining,
    }
}

/// The highest value of each quantity.
fn highest(first: Level, second: Level) -> Level
    ensures { (quantity : Quantity) → value_of quantity result ≡ max (value_of quantity first) (value_of quantity second) }
{
    Level {
        credit: first.credit.max(second.credit),
        window: first.window.max(second.window),
        waiting: first.waiting.max(second.waiting),
        unsettled: first.unsettled.max(second.unsettled),
        is_draining: first.is_draining || second.is_draining,
    }
}
