//! What is to be sent to consumers: the next part of a delivery in progress, a delivery that waits, and copies (part 2 of the
//! standard, section 2.6.14; own rules).

ghost use Rattle.std.specs.Prelude.{◌≡◌, true, ◌&&◌, ◌∷◌, List, [], None, IfSome, OnOk};
ghost use Rattle.capture_form.specs.Rules.{RuleSet};
ghost use Rattle.capture_form.specs.declared.records.Record.{Record};
ghost use Rattle.trace_events.specs.History.{history};
ghost use Rattle.trace_duties.specs.Quiet.{none_stands_still};
ghost use Rattle.trace_duties.specs.Turn.{is_all_told, is_first_to_begin};
ghost use Rattle.trace_events.specs.View.{Events, event_view, incoming_view};
ghost use Rattle.state_tables.specs.Connections.{IsLawfulNext};
ghost use Rattle.state_tables.specs.Addressed.{IsAddressed};
ghost use Rattle.state_answers.specs.Tables.{TellsOf};
ghost use Rattle.state_answers.specs.Effects.{AreEffects};
ghost use Rattle.due_lists.specs.Copies.{IsDueCopy};
ghost use Rattle.due_lists.specs.Waiting.{IsDueWaiting};
ghost use Rattle.route_work.specs.Dues.{IsDue, is_in_turn};
ghost use Rattle.route_work.specs.Work.{HasSending, IsAllSent, IsAllTold};

use crate::Due;
use capture_form::RuleSet;
use due_lists::{DeliveriesInProgress, DueBegin, UnsentCopies, Waiting};
use state_answers::{EventEffects, LentTables};
use std::alloc::{AllocError, Global};
use trace_events::Event;

/// Deliveries to consumers that may go on or begin.
pub struct Sending {
    parts: DeliveriesInProgress,
    waiting: Waiting,
    copies: UnsentCopies,
}

// Written out, and not derived, so that where one is let go the prover need not go through all that it owns.
impl Drop for Sending {
    fn drop(self) {
        let Sending {
            parts: _,
            waiting: _,
            copies: _,
        } = self;
    }
}

impl Sending {
    /// Of no records.
    pub(crate) fn new(alloc: Global) -> Sending
        ensures { (rules : RuleSet) → HasSending rules result [] }
    {
        let parts = DeliveriesInProgress::new(alloc);
        let waiting = Waiting::new(alloc);
        let copies = UnsentCopies::new(alloc);
        Sending {
            parts,
            waiting,
            copies,
        }
    }

    /// The event follows, with these effects; what it completes is for this address, and `before` are the tables without it.
    ///
    /// # Errors
    ///
    /// Memory was refused; then something that is due may not be found any more.
    pub(crate) fn follow(
        &mut self,
        rules: &RuleSet,
        event: &Event,
        address: &[u8],
        before: &LentTables<'_>,
        effects: &EventEffects<'_>,
    ) -> Result<(), AllocError>
        ensures { OnOk result ((records : List Record) (r : Record) → IsLawfulNext rules.now records r (event_view event.now) →
            IsAddressed (event_view event.now) (history rules.now records) address.now →
            TellsOf rules.now before.now (history rules.now records) → AreEffects (event_view event.now) (history rules.now records) effects.now →
            HasSending rules.now self.old (history rules.now records) → HasSending rules.now self.new (event_view event.now ∷ history rules.now records)) }
    {
        self.parts.follow(event, effects)?;
        self.waiting.follow(rules, event, address, before, effects)?;
        self.copies.follow(rules, event, address, before, effects)?;
        Ok(())
    }

    /// The first part of a delivery in progress; where none goes on, of the deliveries that wait and may begin and of the copies
    /// that may be sent the one that was completed first.
    pub(crate) fn next_due<'t>(
        &mut self,
        rules: &RuleSet,
        tables: &LentTables<'t>,
    ) -> Option<Due<'t>>
        ensures due { (records : List Record) → TellsOf rules.now tables.now (history rules.now records) →
            HasSending rules.now self.old (history rules.now records) → IfSome result (IsDue rules.now (history rules.now records)) }
        ensures turn { (records : List Record) → TellsOf rules.now tables.now (history rules.now records) →
            HasSending rules.now self.old (history rules.now records) → IsAllTold rules.now (history rules.now records) →
            IfSome result (λ due. is_in_turn rules.now (history rules.now records) due ≡ true) }
        ensures kept { (records : List Record) → TellsOf rules.now tables.now (history rules.now records) →
            HasSending rules.now self.old (history rules.now records) → HasSending rules.now self.new (history rules.now records) }
        ensures quiet { (records : List Record) → TellsOf rules.now tables.now (history rules.now records) →
            HasSending rules.now self.old (history rules.now records) → result ≡ None → IsAllSent rules.now (history rules.now records) }
    {
        if let Some(part) = self.parts.first_due(tables) {
            return Some(Due::Part(part));
        }
        let waiting = self.waiting.first_due(rules, tables);
        let copy = self.copies.first_due(rules, tables);
        first_completed(waiting, copy, tables)
    }
}

/// Of a delivery that waits and of a copy the one whose delivery was completed first.
fn first_completed<'t>(
    waiting: Option<DueBegin<'t>>,
    copy: Option<DueBegin<'t>>,
    tables: &LentTables<'t>,
) -> Option<Due<'t>>
    ensures due { (rules : RuleSet) (past : Events) → IfSome waiting.entry (λ due. IsDueWaiting rules due past) → IfSome copy.entry (λ due. IsDueCopy rules due past) →
        IfSome result (IsDue rules past) }
    ensures turn { (rules : RuleSet) (past : Events) → is_all_told rules past && none_stands_still past ≡ true →
        IfSome waiting.entry (λ due. is_first_to_begin rules past (incoming_view due.delivery) ≡ true) → IfSome result (λ due. is_in_turn rules past due ≡ true) }
    ensures none { result ≡ None → (waiting.entry ≡ None) × (copy.entry ≡ None) }
{
    match (waiting, copy) {
        (Some(begin), Some(copy)) => {
            if tables
                .deliveries
                .completed_before(&copy.delivery, &begin.delivery)
            {
                Some(Due::Copy(copy))
            } else {
                Some(Due::Waiting(begin))
            }
        }
        (Some(begin), None) => Some(Due::Waiting(begin)),
        (None, Some(copy)) => Some(Due::Copy(copy)),
        (None, None) => None,
    }
}
