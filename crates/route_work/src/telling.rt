//! What is to be told: outcomes to producers, and settlings to consumers (part 3 of the standard, section 3.4; part 2, section
//! 2.6.12).

ghost use Rattle.std.specs.Prelude.{◌≡◌, true, ◌∷◌, List, [], None, IfSome, OnOk};
ghost use Rattle.capture_form.specs.Rules.{RuleSet};
ghost use Rattle.capture_form.specs.declared.records.Record.{Record};
ghost use Rattle.trace_events.specs.History.{history};
ghost use Rattle.trace_events.specs.View.{event_view};
ghost use Rattle.state_tables.specs.Connections.{IsLawfulNext};
ghost use Rattle.state_answers.specs.Tables.{TellsOf};
ghost use Rattle.state_answers.specs.Effects.{AreEffects};
ghost use Rattle.route_work.specs.Dues.{IsDue, is_in_turn};
ghost use Rattle.route_work.specs.Work.{HasTelling, IsAllTold};

use crate::Due;
use capture_form::RuleSet;
use due_outcomes::{Unsettled, Untold};
use state_answers::{EventEffects, LentTables};
use std::alloc::{AllocError, Global};
use trace_events::Event;

/// Outcomes to tell, and deliveries to settle.
pub struct Telling {
    untold: Untold,
    unsettled: Unsettled,
}

// Written out, and not derived, so that where one is let go the prover need not go through all that it owns.
impl Drop for Telling {
    fn drop(self) {
        let Telling {
            untold: _,
            unsettled: _,
        } = self;
    }
}

impl Telling {
    /// Of no records.
    pub(crate) fn new(alloc: Global) -> Telling
        ensures { (rules : RuleSet) → HasTelling rules result [] }
    {
        let untold = Untold::new(alloc);
        let unsettled = Unsettled::new(alloc);
        Telling { untold, unsettled }
    }

    /// The event follows, with these effects; `before` are the tables without it.
    ///
    /// # Errors
    ///
    /// Memory was refused; then something that is due may not be found any more.
    pub(crate) fn follow(
        &mut self,
        rules: &RuleSet,
        event: &Event,
        before: &LentTables<'_>,
        effects: &EventEffects<'_>,
    ) -> Result<(), AllocError>
        ensures { OnOk result ((records : List Record) (r : Record) → IsLawfulNext rules.now records r (event_view event.now) →
            TellsOf rules.now before.now (history rules.now records) → AreEffects (event_view event.now) (history rules.now records) effects.now →
            HasTelling rules.now self.old (history rules.now records) → HasTelling rules.now self.new (event_view event.now ∷ history rules.now records)) }
    {
        self.untold.follow(rules, event, before, effects)?;
        self.unsettled.follow(event, effects)?;
        Ok(())
    }

    /// The first outcome; where none is to be told, the first settling.
    pub(crate) fn next_due<'t>(
        &mut self,
        rules: &RuleSet,
        tables: &LentTables<'t>,
    ) -> Option<Due<'t>>
        ensures due { (records : List Record) → TellsOf rules.now tables.now (history rules.now records) →
            HasTelling rules.now self.old (history rules.now records) → IfSome result (IsDue rules.now (history rules.now records)) }
        ensures turn { (records : List Record) → TellsOf rules.now tables.now (history rules.now records) →
            HasTelling rules.now self.old (history rules.now records) → IfSome result (λ due. is_in_turn rules.now (history rules.now records) due ≡ true) }
        ensures kept { (records : List Record) → TellsOf rules.now tables.now (history rules.now records) →
            HasTelling rules.now self.old (history rules.now records) → HasTelling rules.now self.new (history rules.now records) }
        ensures quiet { (records : List Record) → TellsOf rules.now tables.now (history rules.now records) →
            HasTelling rules.now self.old (history rules.now records) → result ≡ None → IsAllTold rules.now (history rules.now records) }
    {
        if let Some(outcome) = self.untold.first_due(rules, tables) {
            return Some(Due::Outcome(outcome));
        }
        if let Some(settling) = self.unsettled.first_due(tables) {
            return Some(Due::Settling(settling));
        }
        None
    }
}
