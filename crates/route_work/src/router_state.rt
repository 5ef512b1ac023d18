//! The tables, with lists of what is due.

ghost use Rattle.std.specs.Prelude.{◌≡◌, ◌∷◌, [], ◌++◌, List, None, true, OnOk, IfOk, IfSome, length};
ghost use Rattle.capture_form.specs.Rules.{RuleSet};
ghost use Rattle.capture_form.specs.declared.records.Record.{Record};
ghost use Rattle.trace_events.specs.History.{history, judge, moment_of};
ghost use Rattle.state_answers.specs.Tables.{completed_by_all, kept_in, TellsOf};
ghost use Rattle.state_ledger.specs.HeldEvents.{held_event_view};
ghost use Rattle.trace_duties.specs.Quiet.{is_quiet};
ghost use Rattle.route_work.specs.Dues.{IsNextFrame};
ghost use Rattle.route_dues.specs.Writing.{IsInOrder};
ghost use Rattle.capture_form.specs.Text.{IsRecord};
ghost use Rattle.route_work.specs.RouterState.{IsRouterState, AreInOrder, IsUnbroken};
ghost use Rattle.state_tables.specs.Connections.{IsLawfulNext};
ghost use Rattle.trace_events.specs.View.{Events, event_view};

use crate::dues::Dues;
use crate::record_of;
use capture_form::{Record, RuleSet};
use state_answers::{EventEffects, LentTables, Tables, completed_for};
use state_ledger::HeldEvent;
use std::alloc::{AllocError, Global};
use trace_events::{Event, ReadRecord};
use trace_judge::{judge_unopened, open};

/// The tables of the records so far, and what is due behind them.
pub struct RouterState<D: Dues> {
    alloc: Global,
    tables: Tables,
    dues: D,
}

// Written out, and not derived, so that where one is let go the prover need not go through all that it owns.
impl<D: Dues + Drop> Drop for RouterState<D> {
    fn drop(self) {
        let RouterState {
            alloc: _,
            tables: _,
            dues: _,
        } = self;
    }
}

impl<D: Dues> RouterState<D> {
    /// No records.
    pub fn new(alloc: Global) -> RouterState<D>
        ensures { (rules : RuleSet) → IsRouterState D.has_all rules result [] }
    {
        let tables = Tables::new(alloc);
        let dues = D::new(alloc);
        RouterState {
            alloc,
            tables,
            dues,
        }
    }

    /// The tables, lent.
    pub fn lent(&self) -> LentTables<'_>
        ensures { (rules : RuleSet) (records : List Record) → IsRouterState D.has_all rules self.now records → TellsOf rules result (history rules records) }
    {
        self.tables.lent()
    }

    /// How many deliveries from clients were completed; the greatest number where they are more.
    pub fn completed(&self) -> u64
        ensures { (rules : RuleSet) (records : List Record) → IsRouterState D.has_all rules self.now records →
            result ≡ completed_by_all (history rules records) }
    {
        self.tables.completed()
    }

    /// How many deliveries from clients are kept.
    pub fn kept(&self) -> usize
        ensures { result ≡ kept_in self.now.tables }
    {
        self.tables.kept()
    }

    /// The event of the next record, which breaks no clause and has this number, is held, but for its moment.
    ///
    /// # Errors
    ///
    /// Where memory is refused; then what is held may be of no record.
    pub fn judge(
        &self,
        held: &mut HeldEvent,
        rules: &RuleSet,
        number: u64,
        entry: &ReadRecord<'_>,
    ) -> Result<(), AllocError>
        ensures { OnOk result ((records : List Record) → IsRouterState D.has_all rules.now self.now records → number ≡ length records →
            IsUnbroken rules.now records entry.now → IsLawfulNext rules.now records entry.now (held_event_view held.new (moment_of entry.now.what))) }
    {
        let lent = self.tables.lent();
        let mut event = judge_unopened(&lent, rules, number, entry);
        open(&lent, &mut event);
        held.keep(self.alloc, &event)
    }

    /// The event of a next record follows those so far.
    ///
    /// # Errors
    ///
    /// Memory was refused; then the state may agree with no records any more.
    pub fn follow(&mut self, rules: &RuleSet, event: &Event) -> Result<(), AllocError>
        ensures { OnOk result ((records : List Record) (r : Record) → IsLawfulNext rules.now records r (event_view event.now) →
            IsRouterState D.has_all rules.now self.old records → IsRouterState D.has_all rules.now self.new (records ++ r ∷ [])) }
    {
        let lent = self.tables.lent();
        let completed = completed_for(lent.deliveries, event);
        let address = completed.octets();
        let effects = EventEffects::of(self.alloc, event, &lent)?;
        self.dues.follow(rules, event, address, &lent, &effects)?;
        drop(effects);
        self.tables.take_addressed(rules, event, address)?;
        Ok(())
    }

    /// The record of the frame that is due next; `None` where nothing is. Then up to two deliveries are let go, of which nothing can
    /// come any more.
    ///
    /// # Errors
    ///
    /// Where memory is refused.
    pub fn next_record(&mut self, rules: &RuleSet) -> Result<Option<Record>, AllocError>
        requires known { AreInOrder D.has_all rules.now self.old }
        ensures bounds { IfOk result (λ next. IfSome next IsRecord) }
        ensures next { (records : List Record) → IsRouterState D.has_all rules.now self.old records → IsInOrder rules.now (history rules.now records) →
            IfOk result (λ next. IfSome next (IsNextFrame rules.now (history rules.now records))) }
        ensures kept { (records : List Record) → IsRouterState D.has_all rules.now self.old records → IsRouterState D.has_all rules.now self.new records }
        ensures quiet { (records : List Record) → IsRouterState D.has_all rules.now self.old records →
            IfOk result (λ next. next ≡ None → is_quiet rules.now (history rules.now records) ≡ true) }
    {
        let lent = self.tables.lent();
        match self.dues.next_due(rules, &lent) {
            Some(due) => Ok(Some(record_of(self.alloc, &lent, rules, &due)?)),
            None => {
                // Two are looked at, since a step may make one delivery more: so what is over does not grow while others stay open.
                self.tables.let_go_next();
                self.tables.let_go_next();
                Ok(None)
            }
        }
    }
}
