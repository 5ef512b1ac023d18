//! The numbers of the records that write a frame, by connection.

ghost use Rattle.std.specs.Prelude.{◌≡◌, ◌<◌, ◌^◌, ◌+◌, ◌∷◌, [], ◌++◌, List, OnOk, OnErr, length, None, nat_eq, nat_le, nat_lt, option_map, slice_get};
ghost use Rattle.std.specs.List.{find};
ghost use Rattle.std.specs.List.Sorted.{IsNonDecreasing};
ghost use Rattle.capture_form.specs.declared.records.Record.{Record};
ghost use Rattle.indexmap.specs.IndexMap.{get};
ghost use Rattle.route_items.specs.WrittenFrames.{AreWritten, AreSame, HasWritten, IsAdded, first_out, frame_at, numbers_from, numbers_in};

use capture_form::{Frame, Record, What};
use number_map::NumberMap;
use std::alloc::{AllocError, Global};

/// By connection the numbers of the records that write a frame on it, in rising order.
#[derive(Drop)]
pub struct WrittenFrames {
    alloc: Global,
    entries: NumberMap<u32, Vec<u64>>,
}

/// The first of rising numbers that is this one or a later one.
fn first_from(numbers: &[u64], from: u64) -> Option<u64>
    ensures { IsNonDecreasing numbers.now → result ≡ find (nat_le from) numbers.now }
{
    let at = numbers.partition_point(
        |number: &u64| -> bool
            ensures { result ≡ nat_lt number.now from }
        { *number < from },
    );
    number_at(numbers, at)
}

/// The number at the index.
fn number_at(numbers: &[u64], index: usize) -> Option<u64>
    ensures { result ≡ slice_get numbers.now index }
{
    numbers.get(index).copied()
}

/// The number, with the frame that the record of that number writes.
fn frame_at(records: &[Record], number: u64) -> Option<(u64, &Frame)>
    ensures { option_map (λ out. (out.0, out.1.now)) result ≡ frame_at number records.now }
{
    match &records.get(number as usize)?.what {
        What::Out(frame) => Some((number, frame)),
        _ => None,
    }
}

impl WrittenFrames {
    /// No records.
    pub fn new(alloc: Global) -> WrittenFrames
        ensures { AreWritten result [] }
    {
        WrittenFrames {
            alloc,
            entries: NumberMap::new(alloc),
        }
    }

    /// These records follow; the first has this number.
    ///
    /// # Errors
    ///
    /// Memory was refused. Then some of them may have come; the records so far are still found, and no others.
    pub fn extend(&mut self, first: u64, group: &[Record]) -> Result<(), AllocError>
        requires few { first + length group.now < 2 ^ 64 }
        ensures extended { OnOk result ((records : List Record) → first ≡ length records → AreWritten self.old records → AreWritten self.new (records ++ group.now)) }
        ensures kept { (records : List Record) → first ≡ length records → AreWritten self.old records → HasWritten self.new records }
    {
        let mut number = first;
        for entry in group {
            self.push(number, entry)?;
            number += 1;
        }
        Ok(())
    }

    /// The record of this number follows.
    ///
    /// # Errors
    ///
    /// Memory was refused; then nothing changed.
    fn push(&mut self, number: u64, entry: &Record) -> Result<(), AllocError>
        ensures pushed { OnOk result ((records : List Record) → number ≡ length records → AreWritten self.old records → AreWritten self.new (records ++ entry.now ∷ [])) }
        ensures unchanged { OnErr result (AreSame self.old self.new) }
    {
        match entry.what {
            What::Out(_) => self.add(entry.connection, number),
            _ => Ok(()),
        }
    }

    /// The number comes last for the connection.
    fn add(&mut self, connection: u32, number: u64) -> Result<(), AllocError>
        ensures added { OnOk result (IsAdded connection number self.old self.new) }
        ensures unchanged { OnErr result (AreSame self.old self.new) }
    {
        let Some(numbers) = self.entries.get_mut(&connection) else {
            return self.add_first(connection, number);
        };
        numbers.push(number)?;
        Ok(())
    }

    /// The number is the first for the connection.
    fn add_first(&mut self, connection: u32, number: u64) -> Result<(), AllocError>
        requires new { get nat_eq self.old.entries connection ≡ None }
        ensures added { OnOk result (IsAdded connection number self.old self.new) }
        ensures unchanged { OnErr result (AreSame self.old self.new) }
    {
        let mut numbers = Vec::new(self.alloc);
        numbers.push(number)?;
        self.entries.insert(connection, numbers)?;
        Ok(())
    }

    /// The connection's numbers.
    fn numbers(&self, connection: u32) -> &[u64]
        ensures { result.now ≡ numbers_in self.now connection }
    {
        match self.entries.get(&connection) {
            Some(numbers) => numbers.as_slice(),
            None => &[],
        }
    }

    /// The first number of the connection's that is this one or a later one.
    fn first(&self, connection: u32, from: u64) -> Option<u64>
        ensures { (records : List Record) → AreWritten self.now records → result ≡ find (nat_le from) (numbers_from connection 0 records) }
    {
        first_from(self.numbers(connection), from)
    }

    /// The first of these records, which are those so far, that writes a frame on the connection and has this number or a
    /// later one: its number, and its frame. It takes no memory, and time logarithmic in the frames of the connection.
    pub fn next<'r>(
        &self,
        records: &'r [Record],
        connection: u32,
        from: u64,
    ) -> Option<(u64, &'r Frame)>
        ensures { HasWritten self.now records.now → option_map (λ out. (out.0, out.1.now)) result ≡ first_out connection from 0 records.now }
    {
        match self.first(connection, from) {
            Some(number) => frame_at(records, number),
            None => None,
        }
    }
}
