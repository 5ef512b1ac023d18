//! The levels of records, thinned on their way.

ghost use Rattle.std.specs.Prelude.{◌≡◌, ◌<◌, ◌≤◌, ◌==◌, ◌+◌, ◌*◌, ◌%◌, ◌∷◌, ◌++◌, ℕ, List, [], IfOk, None, OnErr, OnOk, Option, get_or, if◌then◌else◌, length};
ghost use Rattle.credit_chart.specs.declared.level.Level.{Level};
ghost use Rattle.credit_chart.specs.declared.level.Quantity.{Quantity};
ghost use Rattle.credit_chart.specs.declared.scale.TheConstants.{COLUMNS};
ghost use Rattle.credit_chart.specs.Thinning as spec;
ghost use Rattle.credit_chart.specs.Thinning.{IsColumn, both, extent_in, extent_of, extent_place, values_of};
ghost use Rattle.credit_chart.specs.Thinned.{AreColumns, AreThinned, AreThinnedFor};

use crate::level::{Level, Quantity};
use crate::scale::COLUMNS;
use crate::thinning::{Column, Extent, column_of, joined};
use std::alloc::{AllocError, Global};

/// The levels of records, as they are drawn: in columns, each of which has of each quantity the lowest and the highest value of the
/// records for which it stands. Where the records need more columns than a picture has, two become one, and each stands for twice
/// as many records; so no extreme is lost, and however many records there are, they take no more memory than a picture's columns.
#[derive(Drop)]
pub struct Thinned {
    columns: Vec<Option<Column>>,
    /// For how many records each stands.
    span: usize,
    /// How many records more the last one takes.
    room: usize,
    /// How many records there are.
    records: usize,
    /// Of all of them.
    all: Option<Column>,
}

impl Thinned {
    /// No records. It takes no memory.
    pub fn new(alloc: Global) -> Thinned
        ensures { AreThinned [] result }
    {
        Thinned {
            columns: Vec::new(alloc),
            span: 1,
            room: 0,
            records: 0,
            all: None,
        }
    }

    /// These, one after the other.
    ///
    /// # Errors
    ///
    /// Memory was refused.
    pub fn of(alloc: Global, levels: &[Option<Level>]) -> Result<Thinned, AllocError>
        ensures { IfOk result (AreThinned levels.now) }
    {
        let mut thinned = Thinned::new(alloc);
        for found in levels {
            thinned.push(*found)?;
        }
        Ok(thinned)
    }

    /// What stood at one record more, where it has a level. It takes constant time, but that now and then, when as many records came as
    /// there are already, it takes the time of the columns.
    ///
    /// # Errors
    ///
    /// Memory was refused, or there are as many records as a number of 64 bits can count; then all stays as it was.
    pub fn push(&mut self, found: Option<Level>) -> Result<(), AllocError>
        ensures taken { OnOk result ((levels : List (Option Level)) → AreThinned levels self.old → AreThinned (levels ++ found ∷ []) self.new) }
        ensures unchanged { OnErr result ((levels : List (Option Level)) → AreThinned levels self.old → AreThinned levels self.new) }
        // There are never more columns than a picture has.
        ensures few { OnOk result ((levels : List (Option Level)) → AreThinned levels self.old → length self.new.columns.items ≤ COLUMNS) }
    {
        let Some(records) = self.records.checked_add(1) else {
            return Err(AllocError);
        };
        let column = column_of(found);
        self.room = put(&mut self.columns, self.span, self.room, column)?;
        self.records = records;
        self.all = joined(self.all, column);
        self.widen();
        Ok(())
    }

    /// Two columns become one where no column is free.
    fn widen(&mut self)
        ensures { (records : ℕ) (levels : List (Option Level)) → length levels ≡ records + 1 → AreThinnedFor records levels self.old → AreThinned levels self.new }
    {
        if self.records / COLUMNS >= self.span {
            join_pairs(&mut self.columns);
            self.span = self.span.saturating_mul(2);
        }
    }

    /// How many records there are.
    pub(crate) fn records(&self) -> usize
        ensures { (levels : List (Option Level)) → AreThinned levels self.now → result ≡ length levels }
    {
        self.records
    }

    /// For how many records each column stands.
    pub(crate) fn span(&self) -> usize
        ensures { result ≡ self.now.span }
    {
        self.span
    }

    /// The lowest and the highest value of a quantity in the column at a place.
    pub(crate) fn extent(&self, quantity: Quantity, place: usize) -> Option<Extent>
        ensures computed { (levels : List (Option Level)) → AreThinned levels self.now → result ≡ spec.column_of quantity self.now.span levels place }
        // Both are values of the records for which the column stands, and each other one lies between them; there is none just where no
        // record has one.
        ensures kept { (levels : List (Option Level)) → AreThinned levels self.now →
            IsColumn (values_of quantity (spec.levels_at self.now.span levels place)) result }
    {
        extent_of(at(self.columns.as_slice(), place), quantity)
    }

    /// The highest value of a quantity at all records; 1 at least.
    pub(crate) fn top(&self, quantity: Quantity) -> u32
        ensures computed { (levels : List (Option Level)) → AreThinned levels self.now → result ≡ spec.top_of quantity levels }
        ensures some { 1 ≤ result }
    {
        match extent_of(self.all, quantity) {
            Some(extent) => extent.high.max(1),
            None => 1,
        }
    }
}

/// The lowest and the highest value of a quantity in a column.
fn extent_of(column: Option<Column>, quantity: Quantity) -> Option<Extent>
    ensures { result ≡ extent_in quantity column }
{
    match column {
        Some(column) => Some(column.extent(quantity)),
        None => None,
    }
}

/// The column at a place, if there is one.
fn at(columns: &[Option<Column>], place: usize) -> Option<Column>
    ensures { result ≡ get_or columns.now place None }
{
    match columns.get(place) {
        Some(column) => *column,
        None => None,
    }
}

/// A record comes in: into the last column, where that has room, else into one more. Gives how many more that takes.
///
/// # Errors
///
/// Memory was refused; then all stays as it was.
fn put(
    columns: &mut Vec<Option<Column>>,
    span: usize,
    room: usize,
    column: Option<Column>,
) -> Result<usize, AllocError>
    ensures placed { IfOk result (λ left. (levels : List (Option Level)) (found : Option Level) →
        ((quantity : Quantity) → extent_in quantity column ≡ extent_of (values_of quantity (found ∷ []))) →
        AreColumns levels span room columns.old.items → AreColumns (levels ++ found ∷ []) span left columns.new.items) }
    ensures unchanged { OnErr result (columns.new.items ≡ columns.old.items) }
{
    if room == 0 {
        columns.push(column)?;
        return Ok(span.saturating_sub(1));
    }
    put_last(columns, column);
    Ok(room - 1)
}

/// The last column stands for the records of this one too.
fn put_last(columns: &mut Vec<Option<Column>>, column: Option<Column>)
    ensures long { length columns.new.items ≡ length columns.old.items }
    ensures put { (quantity : Quantity) (place : ℕ) → extent_place quantity columns.new.items place
        ≡ (if place + 1 == length columns.old.items then both (extent_place quantity columns.old.items place) (extent_in quantity column) else extent_place quantity columns.old.items place) }
{
    if let Some(place) = columns.len().checked_sub(1) {
        columns[place] = joined(columns[place], column);
    }
}

/// Two columns become one.
fn join_pairs(columns: &mut Vec<Option<Column>>)
    ensures half { length columns.new.items * 2 ≡ length columns.old.items + length columns.old.items % 2 }
    ensures joined { (quantity : Quantity) (place : ℕ) → extent_place quantity columns.new.items place
        ≡ both (extent_place quantity columns.old.items (place * 2)) (extent_place quantity columns.old.items (place * 2 + 1)) }
{
    let count = columns.len();
    let half = count - count / 2;
    join_first(columns, half);
    columns.truncate(half);
}

/// So many columns become those of two each.
fn join_first(columns: &mut Vec<Option<Column>>, half: usize)
    requires { half * 2 ≤ length columns.old.items + 1 }
    ensures long { length columns.new.items ≡ length columns.old.items }
    ensures joined { (quantity : Quantity) (place : ℕ) → place < half → extent_place quantity columns.new.items place
        ≡ both (extent_place quantity columns.old.items (place * 2)) (extent_place quantity columns.old.items (place * 2 + 1)) }
{
    for place in 0..half {
        let first = at(columns, place * 2);
        let second = at(columns, place * 2 + 1);
        columns[place] = joined(first, second);
    }
}
