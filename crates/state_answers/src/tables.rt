//! All tables, moved forward by one event after the other.

ghost use Rattle.std.specs.Prelude.{◌≡◌, ◌∷◌, ◌++◌, ℕ, List, [], Some, OnOk};
ghost use Rattle.capture_form.specs.Rules.{RuleSet};
ghost use Rattle.capture_form.specs.declared.records.Record.{Record};
ghost use Rattle.trace_events.specs.History.{history};
ghost use Rattle.state_tables.specs.Addressed.{IsAddressed};
ghost use Rattle.state_tables.specs.Connections.{IsLawfulNext};
ghost use Rattle.state_answers.specs.Tables.{AreTables, AreWhole, IsReady, IsToGo, IsTurnOfLast, IsWhole, KeepsLast, LetsGoAtMost, StandFor, completed_with, entries_of, kept_in, turn_behind};
ghost use Rattle.state_incoming.specs.HeldTables.{number_at};
ghost use Rattle.trace_events.specs.View.{Events, event_view};

use crate::completed::completed_for;
use crate::lent_tables::LentTables;
use capture_form::RuleSet;
use state_incoming::Deliveries;
use state_outgoing::SentDeliveries;
use state_tables::{Connections, ConsumerLinks, Consumers, Copies, Links, receivers_of};
use state_verdicts::Verdicts;
use std::alloc::{AllocError, Global};
use trace_events::Event;

/// What the records so far have come to.
pub struct Tables {
    alloc: Global,
    connections: Connections,
    links: Links,
    consumers: Consumers,
    deliveries: Deliveries,
    consumer_links: ConsumerLinks,
    copies: Copies,
    sent: SentDeliveries,
    verdicts: Verdicts,
    /// The place, among the entries of deliveries from clients, of the one that has its turn to be let go.
    turn: usize,
    /// How many deliveries from clients were completed, or the greatest number where they are more.
    completed: u64,
}

// Written out, and not derived, so that where one is let go the prover need not go through all that it owns.
impl Drop for Tables {
    fn drop(self) {
        let Tables {
            alloc: _,
            connections: _,
            links: _,
            consumers: _,
            deliveries: _,
            consumer_links: _,
            copies: _,
            sent: _,
            verdicts: _,
            turn: _,
            completed: _,
        } = self;
    }
}

/// How many deliveries from clients were completed, where so many were before the event.
fn completed_with(event: &Event, before: u64) -> u64
    ensures { result ≡ completed_with (event_view event.now) before }
{
    match event.completed_by() {
        Some(_) => before.saturating_add(1),
        None => before,
    }
}

impl Tables {
    /// No records.
    pub fn new(alloc: Global) -> Tables
        ensures stand { (rules : RuleSet) → AreTables rules result [] }
        ensures whole { AreWhole result }
        ensures last { KeepsLast result.deliveries.let_go.items [] }
        ensures counted { result.completed ≡ 0 }
    {
        Tables {
            alloc,
            connections: Connections::new(alloc),
            links: Links::new(alloc),
            consumers: Consumers::new(alloc),
            deliveries: Deliveries::new(alloc),
            consumer_links: ConsumerLinks::new(alloc),
            copies: Copies::new(alloc),
            sent: SentDeliveries::new(alloc),
            verdicts: Verdicts::new(alloc),
            turn: 0,
            completed: 0,
        }
    }

    /// The tables, lent to be asked.
    pub fn lent(&self) -> LentTables<'_>
        ensures stand { (rules : RuleSet) (history : Events) → AreTables rules self.now history →
            StandFor rules result.connections.now result.links.now result.consumers.now result.deliveries.now
            result.consumer_links.now result.copies.now result.sent.now result.verdicts.now history }
        ensures whole { AreWhole self.now → IsWhole result.deliveries.now }
        ensures last { (history : Events) → KeepsLast self.now.deliveries.let_go.items history → KeepsLast result.deliveries.now.let_go.items history }
    {
        LentTables {
            connections: &self.connections,
            links: &self.links,
            consumers: &self.consumers,
            deliveries: &self.deliveries,
            consumer_links: &self.consumer_links,
            copies: &self.copies,
            sent: &self.sent,
            verdicts: &self.verdicts,
        }
    }

    /// How many entries there are: connections, sessions, links, what of clients is still to be answered, and the deliveries from
    /// clients that are kept; the greatest number where there are more.
    pub fn entries(&self) -> usize
        ensures { result ≡ entries_of self.now }
    {
        self.connections
            .entries()
            .saturating_add(self.links.entries())
            .saturating_add(self.deliveries.count())
    }

    /// How many deliveries from clients were completed; the greatest number where they are more.
    pub fn completed(&self) -> u64
        ensures { result ≡ self.now.completed }
    {
        self.completed
    }

    /// How many deliveries from clients are kept: those that are still to be sent or decided, and those that were not let go yet.
    pub fn kept(&self) -> usize
        ensures { result ≡ kept_in self.now }
    {
        self.deliveries.count()
    }

    /// The event follows those so far.
    ///
    /// # Errors
    ///
    /// Memory was refused; then the tables may agree with no records any more.
    pub fn take(&mut self, rules: &RuleSet, event: &Event) -> Result<(), AllocError>
        ensures stand { OnOk result ((records : List Record) (r : Record) → IsLawfulNext rules.now records r (event_view event.now) →
            AreTables rules.now self.old (history rules.now records) →
            AreTables rules.now self.new (event_view event.now ∷ history rules.now records)) }
        ensures whole { OnOk result (AreWhole self.old → AreWhole self.new) }
        ensures last { OnOk result ((records : List Record) (r : Record) → IsLawfulNext rules.now records r (event_view event.now) →
            AreTables rules.now self.old (history rules.now records) → KeepsLast self.old.deliveries.let_go.items (history rules.now records) →
            KeepsLast self.new.deliveries.let_go.items (event_view event.now ∷ history rules.now records)) }
    {
        let completed = completed_for(&self.deliveries, event);
        self.take_addressed(rules, event, completed.octets())?;
        Ok(())
    }

    /// The event follows those so far; what it completes is for this address, as `completed_for` tells.
    ///
    /// # Errors
    ///
    /// Memory was refused; then the tables may agree with no records any more.
    pub fn take_addressed(
        &mut self,
        rules: &RuleSet,
        event: &Event,
        address: &[u8],
    ) -> Result<(), AllocError>
        ensures stand { OnOk result ((records : List Record) (r : Record) → IsLawfulNext rules.now records r (event_view event.now) →
            IsAddressed (event_view event.now) (history rules.now records) address.now →
            AreTables rules.now self.old (history rules.now records) →
            AreTables rules.now self.new (event_view event.now ∷ history rules.now records)) }
        ensures whole { OnOk result (AreWhole self.old → AreWhole self.new) }
        ensures last { OnOk result ((records : List Record) (r : Record) → IsLawfulNext rules.now records r (event_view event.now) →
            AreTables rules.now self.old (history rules.now records) → KeepsLast self.old.deliveries.let_go.items (history rules.now records) →
            KeepsLast self.new.deliveries.let_go.items (event_view event.now ∷ history rules.now records)) }
        ensures counted { OnOk result (self.new.completed ≡ completed_with (event_view event.now) self.old.completed) }
    {
        let ended = self.links.ended(self.alloc, event)?;
        let receivers = receivers_of(
            self.alloc,
            rules,
            event,
            address,
            &self.consumers,
            &self.consumer_links,
            &self.links,
        )?;
        let due = self
            .copies
            .due_to(self.alloc, rules, event, address, &receivers)?;
        self.consumers.take(event, &ended)?;
        self.deliveries
            .take(rules, event, address, &ended, &self.consumers)?;
        self.consumer_links.take(event, &ended)?;
        self.copies.take(rules, event, address, &ended, &receivers)?;
        let given = self.sent.take(event, &ended)?;
        self.verdicts.take(event, &due, &given, &ended)?;
        drop(ended);
        self.links.take(event)?;
        self.connections.take(event)?;
        self.completed = completed_with(event, self.completed);
        Ok(())
    }

    /// Lets the delivery go whose turn it is, with all that carried it to consumers, where nothing can come of it any more; else the
    /// next one has its turn. It takes no memory, and its time grows with the copies of that delivery alone. Which deliveries are kept
    /// matters to nobody who asks of lawful records alone: whoever is to find the clause that a record breaks lets none go.
    pub fn let_go_next(&mut self)
        ensures stand { (rules : RuleSet) (records : List Record) → AreTables rules self.old (history rules records) →
            AreTables rules self.new (history rules records) }
        // The one whose turn it is goes where it is ready; else the next one has its turn.
        ensures lets { (n : ℕ) → number_at self.old.deliveries self.old.turn ≡ Some n → IsReady self.old n →
            self.new.deliveries.let_go.items ≡ self.old.deliveries.let_go.items ++ (n, tt) ∷ [] }
        ensures turns { ((n : ℕ) → number_at self.old.deliveries self.old.turn ≡ Some n → IsReady self.old n → ⊥) →
            self.new.turn ≡ turn_behind self.old }
        ensures most { LetsGoAtMost self.old self.new }
        ensures counted { self.new.completed ≡ self.old.completed }
    {
        match self.deliveries.spent_at(self.turn) {
            // The last entry has its place then.
            Some(number) if self.verdicts.has_all_of(number) && self.sent.has_finished(number) => {
                self.deliveries.let_go(number);
                self.sent.let_go(number);
                self.verdicts.let_go(number);
            }
            _ => self.turn = self.turn_behind(),
        }
    }

    /// The same, but where a delivery that carries the one whose turn it is began last on a live link of a consumer, the next one
    /// has its turn. So what the next transfer on a link carries can be compared with what the one before it did.
    pub fn let_go_next_but_last(&mut self)
        ensures stand { (rules : RuleSet) (records : List Record) → AreTables rules self.old (history rules records) →
            AreTables rules self.new (history rules records) }
        ensures last { (rules : RuleSet) (records : List Record) → AreTables rules self.old (history rules records) →
            KeepsLast self.old.deliveries.let_go.items (history rules records) → KeepsLast self.new.deliveries.let_go.items (history rules records) }
        // The one whose turn it is goes where it is ready, and no such delivery carries it; else the next one has its turn.
        ensures lets { (n : ℕ) → number_at self.old.deliveries self.old.turn ≡ Some n → IsToGo self.old n →
            self.new.deliveries.let_go.items ≡ self.old.deliveries.let_go.items ++ (n, tt) ∷ [] }
        ensures turns { ((n : ℕ) → number_at self.old.deliveries self.old.turn ≡ Some n → IsToGo self.old n → ⊥) →
            self.new.turn ≡ turn_behind self.old }
        ensures most { LetsGoAtMost self.old self.new }
        ensures counted { self.new.completed ≡ self.old.completed }
    {
        if self.has_last_turn() {
            self.turn = self.turn_behind();
        } else {
            self.let_go_next();
        }
    }

    /// The delivery whose turn it is is spent, and one that carries it began last on a live link of a consumer.
    fn has_last_turn(&self) -> bool
        ensures { IsTurnOfLast self.now result }
    {
        match self.deliveries.spent_at(self.turn) {
            Some(number) => self.sent.is_carried_last(number, &self.consumer_links),
            None => false,
        }
    }

    /// The place that has its turn behind this one.
    fn turn_behind(&self) -> usize
        ensures { result ≡ turn_behind self.now }
    {
        if self.turn < self.deliveries.count() {
            self.turn + 1
        } else {
            0
        }
    }
}
