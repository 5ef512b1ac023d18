//! What links and sessions are to be given: drain answers, credit and windows (part 2 of the standard, sections 2.5.6 and
//! 2.6.7).

ghost use Rattle.std.specs.Prelude.{◌≡◌, true, ◌∷◌, List, [], None, IfSome, OnOk};
ghost use Rattle.capture_form.specs.Rules.{RuleSet};
ghost use Rattle.capture_form.specs.declared.records.Record.{Record};
ghost use Rattle.trace_events.specs.History.{history};
ghost use Rattle.trace_events.specs.View.{event_view};
ghost use Rattle.state_tables.specs.Connections.{IsLawfulNext};
ghost use Rattle.state_answers.specs.Tables.{TellsOf};
ghost use Rattle.state_answers.specs.Effects.{AreEffects};
ghost use Rattle.route_work.specs.Dues.{IsDue, is_in_turn};
ghost use Rattle.route_work.specs.Work.{HasFlowing, IsAllGiven, IsAllSent, IsAllTold};

use crate::Due;
use capture_form::RuleSet;
use due_lists::{Credits, Drains, Windows};
use state_answers::{EventEffects, LentTables};
use std::alloc::{AllocError, Global};
use trace_events::Event;

/// Drains to answer, links that may be given credit, and sessions that may be given their window.
pub struct Flowing {
    drains: Drains,
    credits: Credits,
    windows: Windows,
}

// Written out, and not derived, so that where one is let go the prover need not go through all that it owns.
impl Drop for Flowing {
    fn drop(self) {
        let Flowing {
            drains: _,
            credits: _,
            windows: _,
        } = self;
    }
}

impl Flowing {
    /// Of no records.
    pub(crate) fn new(alloc: Global) -> Flowing
        ensures { (rules : RuleSet) → HasFlowing rules result [] }
    {
        let drains = Drains::new(alloc);
        let credits = Credits::new(alloc);
        let windows = Windows::new(alloc);
        Flowing {
            drains,
            credits,
            windows,
        }
    }

    /// The event follows, with these effects; `before` are the tables without it.
    ///
    /// # Errors
    ///
    /// Memory was refused; then something that is due may not be found any more.
    pub(crate) fn follow(
        &mut self,
        event: &Event,
        before: &LentTables<'_>,
        effects: &EventEffects<'_>,
    ) -> Result<(), AllocError>
        ensures { OnOk result ((rules : RuleSet) (records : List Record) (r : Record) → IsLawfulNext rules records r (event_view event.now) →
            TellsOf rules before.now (history rules records) → AreEffects (event_view event.now) (history rules records) effects.now → HasFlowing rules self.old (history rules records) →
            HasFlowing rules self.new (event_view event.now ∷ history rules records)) }
    {
        self.drains.follow(event, effects)?;
        self.credits.follow(event, before, effects)?;
        self.windows.follow(event, before)?;
        Ok(())
    }

    /// The first drain answer; where no drain may be answered, the first credit; where none may be given, the first window.
    #[tactic(auto, using(crate::proofs::Turns::all_sent, crate::proofs::Turns::all_drained, crate::proofs::Turns::all_credited))]
    pub(crate) fn next_due<'t>(
        &mut self,
        rules: &RuleSet,
        tables: &LentTables<'t>,
    ) -> Option<Due<'t>>
        ensures due { (records : List Record) → TellsOf rules.now tables.now (history rules.now records) →
            HasFlowing rules.now self.old (history rules.now records) → IfSome result (IsDue rules.now (history rules.now records)) }
        ensures turn { (records : List Record) → TellsOf rules.now tables.now (history rules.now records) →
            HasFlowing rules.now self.old (history rules.now records) → IsAllTold rules.now (history rules.now records) →
            IsAllSent rules.now (history rules.now records) → IfSome result (λ due. is_in_turn rules.now (history rules.now records) due ≡ true) }
        ensures kept { (records : List Record) → TellsOf rules.now tables.now (history rules.now records) →
            HasFlowing rules.now self.old (history rules.now records) → HasFlowing rules.now self.new (history rules.now records) }
        ensures quiet { (records : List Record) → TellsOf rules.now tables.now (history rules.now records) →
            HasFlowing rules.now self.old (history rules.now records) → result ≡ None → IsAllGiven rules.now (history rules.now records) }
    {
        if let Some(link) = self.drains.first_due(rules, tables) {
            return Some(Due::Drain(link));
        }
        if let Some(link) = self.credits.first_due(rules, tables) {
            return Some(Due::Credit(link));
        }
        if let Some(session) = self.windows.first_due(tables) {
            return Some(Due::Window(session));
        }
        None
    }
}
