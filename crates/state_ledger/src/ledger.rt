//! What the records of a capture have come to.

ghost use Rattle.std.specs.Prelude.{◌≡◌, ◌≢◌, ◌<◌, ◌^◌, ◌∷◌, [], ◌++◌, List, None, IfErr, IfOk, OnOk, false, is_some, length, true};
ghost use Rattle.capture_form.specs.Rules.{RuleSet};
ghost use Rattle.capture_form.specs.declared.records.Record.{Record};
ghost use Rattle.trace_events.specs.History.{history, moment_of};
ghost use Rattle.state_tables.specs.Connections.{IsLawfulNext};
ghost use Rattle.state_answers.specs.Tables.{AreTables, AreWhole, IsWhole, KeepsLast, StandFor, entries_of};
ghost use Rattle.state_ledger.specs.HeldEvents.{held_event_view};
ghost use Rattle.state_ledger.specs.declared.not_entered.NotEntered.TheVariants.{Memory};
ghost use Rattle.state_ledger.specs.Ledger.{IsReason, Stands, broken_behind};

use crate::not_entered::NotEntered;
use crate::{HeldEvent, counted, hold_next};
use capture_form::{Record, RuleSet};
use state_answers::{LentTables, Tables};
use std::alloc::{AllocError, Global};
use trace_events::{ReadRecord, Tally};

/// The tables, with what the records so far hold.
pub struct Ledger {
    alloc: Global,
    tables: Tables,
    tally: Tally,
    // The event of the record that is entered.
    held: HeldEvent,
    // Deliveries of which nothing can come any more are let go.
    forgets: bool,
}

// Written out, and not derived, so that where one is let go the prover need not go through all that it owns.
impl Drop for Ledger {
    fn drop(self) {
        let Ledger {
            alloc: _,
            tables: _,
            tally: _,
            held: _,
            forgets: _,
        } = self;
    }
}

impl Ledger {
    /// No records. Of all that come it is to keep what matters, and to let nothing go. It takes no memory.
    pub fn new(alloc: Global) -> Ledger
        ensures stand { (rules : RuleSet) → Stands rules result [] }
        ensures keeps { result.forgets ≡ false }
    {
        Ledger::made(alloc, false)
    }

    /// No records. It is to let go of what a lawful record cannot name any more, so that its memory does not grow with the capture;
    /// of a record that it refuses it cannot say which clause it breaks first. It takes no memory.
    pub fn forgetting(alloc: Global) -> Ledger
        ensures stand { (rules : RuleSet) → Stands rules result [] }
        ensures forgets { result.forgets ≡ true }
    {
        Ledger::made(alloc, true)
    }

    fn made(alloc: Global, forgets: bool) -> Ledger
        ensures stand { (rules : RuleSet) → Stands rules result [] }
        ensures forgets { result.forgets ≡ forgets }
    {
        Ledger {
            alloc,
            tables: Tables::new(alloc),
            tally: Tally {
                records: 0,
                deliveries: 0,
                outcomes: 0,
            },
            held: HeldEvent::new(),
            forgets,
        }
    }

    /// It lets go of what a lawful record cannot name any more.
    pub fn forgets(&self) -> bool
        ensures { result ≡ self.now.forgets }
    {
        self.forgets
    }

    /// What the records so far hold.
    pub fn tally(&self) -> Tally
        ensures { result ≡ self.now.tally }
    {
        self.tally
    }

    /// What can be asked of the records so far, lent.
    pub fn lent(&self) -> LentTables<'_>
        ensures stand { (rules : RuleSet) (records : List Record) → Stands rules self.now records →
            StandFor rules result.connections.now result.links.now result.consumers.now result.deliveries.now
            result.consumer_links.now result.copies.now result.sent.now result.verdicts.now (history rules records) }
        ensures whole { (rules : RuleSet) (records : List Record) → Stands rules self.now records → self.now.forgets ≡ false → IsWhole result.deliveries.now }
    {
        self.tables.lent()
    }

    /// How many entries its tables have; a delivery to a client is none.
    pub fn entries(&self) -> usize
        ensures { result ≡ entries_of self.now.tables }
    {
        self.tables.entries()
    }

    /// The record follows those so far, judged by these rules, if it meets the clauses.
    ///
    /// # Errors
    ///
    /// The first clause that it breaks; then the ledger is as it was. One that forgets names some clause, where the record breaks
    /// that one or another. Or memory was refused; then it may agree with no records any more.
    pub fn enter(&mut self, rules: &RuleSet, entry: &Record) -> Result<(), NotEntered>
        requires few { self.old.tally.records < 2 ^ 63 }
        ensures met { OnOk result ((records : List Record) → Stands rules.now self.old records → broken_behind rules.now records entry.now ≡ None) }
        ensures entered { OnOk result ((records : List Record) → Stands rules.now self.old records → Stands rules.now self.new (records ++ entry.now ∷ [])) }
        ensures reason { IfErr result (λ why. self.old.forgets ≡ false → (records : List Record) → Stands rules.now self.old records → IsReason rules.now records entry.now why) }
        // Also what one that forgets refuses breaks a clause.
        ensures broken { IfErr result (λ why. why ≢ Memory → (records : List Record) → Stands rules.now self.old records → is_some (broken_behind rules.now records entry.now) ≡ true) }
        ensures alike { self.new.forgets ≡ self.old.forgets }
        ensures same { IfErr result (λ why. why ≢ Memory → self.new ≡ self.old) }
    {
        let number = self.tally.records;
        let entry = ReadRecord::of(entry);
        hold_event(
            &mut self.held,
            self.alloc,
            &self.tables,
            rules,
            number,
            &entry,
        )?;
        self.follow(rules, &entry)?;
        Ok(())
    }

    /// The record, of which the event is held and with which the capture is lawful, follows those so far.
    fn follow(&mut self, rules: &RuleSet, entry: &ReadRecord<'_>) -> Result<(), AllocError>
        ensures stand { OnOk result (self.old.tally.records < 2 ^ 63 → (records : List Record) →
            IsLawfulNext rules.now records entry.now (held_event_view self.old.held (moment_of entry.now.what)) →
            Stands rules.now self.old records → Stands rules.now self.new (records ++ entry.now ∷ [])) }
        ensures alike { self.new.forgets ≡ self.old.forgets }
    {
        let event = self.held.event(entry);
        self.tables.take(rules, &event)?;
        self.tally = counted(self.tally, &event);
        // Two are looked at, since a record may make one delivery more: so what is over does not grow while others stay open.
        self.forget();
        self.forget();
        Ok(())
    }

    /// A delivery is let go of, where this one forgets and nothing can come of it any more.
    fn forget(&mut self)
        ensures stand { (rules : RuleSet) (records : List Record) → Stands rules self.old records → Stands rules self.new records }
        ensures alike { self.new.forgets ≡ self.old.forgets }
    {
        if self.forgets {
            self.tables.let_go_next_but_last();
        }
    }
}

/// The event of the record, which has this number behind those of the tables, is held, but for its moment.
///
/// # Errors
///
/// The first clause that it breaks; then what is held stays. Or memory was refused; then what is held may be of no record.
fn hold_event<'a, 'm: 'a>(
    held: &mut HeldEvent,
    alloc: Global,
    tables: &'a Tables,
    rules: &RuleSet,
    number: u64,
    entry: &ReadRecord<'m>,
) -> Result<(), NotEntered>
    ensures lawful { OnOk result ((records : List Record) → AreTables rules.now tables.now (history rules.now records) → KeepsLast tables.now.deliveries.let_go.items (history rules.now records) → number ≡ length (history rules.now records) →
        IsLawfulNext rules.now records entry.now (held_event_view held.new (moment_of entry.now.what))) }
    ensures met { OnOk result ((records : List Record) → AreTables rules.now tables.now (history rules.now records) → KeepsLast tables.now.deliveries.let_go.items (history rules.now records) → number ≡ length (history rules.now records) →
        broken_behind rules.now records entry.now ≡ None) }
    ensures reason { IfErr result (λ why. (records : List Record) → AreTables rules.now tables.now (history rules.now records) → AreWhole tables.now → number ≡ length (history rules.now records) →
        IsReason rules.now records entry.now why) }
    ensures broken { IfErr result (λ why. why ≢ Memory → (records : List Record) → AreTables rules.now tables.now (history rules.now records) → KeepsLast tables.now.deliveries.let_go.items (history rules.now records) → number ≡ length (history rules.now records) →
        is_some (broken_behind rules.now records entry.now) ≡ true) }
    ensures same { IfErr result (λ why. why ≢ Memory → held.new ≡ held.old) }
{
    let lent = tables.lent();
    hold_next(held, alloc, &lent, rules, number, entry)
}
