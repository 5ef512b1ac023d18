//! What is asked of lists of what is due.

ghost use Rattle.std.specs.Prelude.{◌≡◌, ◌∷◌, List, [], None, true, OnOk, IfSome};
ghost use Rattle.capture_form.specs.Rules.{RuleSet};
ghost use Rattle.capture_form.specs.declared.records.Record.{Record};
ghost use Rattle.trace_events.specs.History.{history};
ghost use Rattle.state_tables.specs.Connections.{IsLawfulNext};
ghost use Rattle.state_tables.specs.Addressed.{IsAddressed};
ghost use Rattle.trace_duties.specs.Quiet.{is_quiet};
ghost use Rattle.trace_events.specs.View.{Events, event_view};
ghost use Rattle.state_answers.specs.Tables.{TellsOf};
ghost use Rattle.state_answers.specs.Effects.{AreEffects};
ghost use Rattle.route_work.specs.Dues.{IsDue, is_in_turn};

use crate::Due;
use capture_form::RuleSet;
use state_answers::{EventEffects, LentTables};
use std::alloc::{AllocError, Global};
use trace_events::Event;

/// Lists of what may be due, from which the next that is due is found without a search through all deliveries, links or
/// sessions. They are moved by one event after the other, and ask the tables of what else they need.
pub trait Dues {
    /// All that is due behind these events, judged by these rules, is listed.
    ghost has_all: { Self → RuleSet → Events → Type 0 };

    /// Of no records.
    fn new(alloc: Global) -> Self
        ensures { (rules : RuleSet) → has_all result rules [] };

    /// The event follows those so far, of which the tables that are lent tell, with these effects; what it completes is
    /// for this address.
    ///
    /// # Errors
    ///
    /// Memory was refused; then something may be due that is not listed any more.
    fn follow(
        &mut self,
        rules: &RuleSet,
        event: &Event,
        address: &[u8],
        before: &LentTables<'_>,
        effects: &EventEffects<'_>,
    ) -> Result<(), AllocError>
        ensures { OnOk result ((records : List Record) (r : Record) → IsLawfulNext rules.now records r (event_view event.now) →
            IsAddressed (event_view event.now) (history rules.now records) address.now →
            TellsOf rules.now before.now (history rules.now records) → AreEffects (event_view event.now) (history rules.now records) effects.now →
            has_all self.old rules.now (history rules.now records) → has_all self.new rules.now (event_view event.now ∷ history rules.now records)) };

    /// What is due next, by the tables of the events so far; `None` where nothing is.
    fn next_due<'t>(&mut self, rules: &RuleSet, tables: &LentTables<'t>) -> Option<Due<'t>>
        // What is answered is due.
        ensures due { (records : List Record) → TellsOf rules.now tables.now (history rules.now records) →
            has_all self.old rules.now (history rules.now records) → IfSome result (IsDue rules.now (history rules.now records)) }
        // Nothing is due in front of it.
        ensures turn { (records : List Record) → TellsOf rules.now tables.now (history rules.now records) →
            has_all self.old rules.now (history rules.now records) → IfSome result (λ due. is_in_turn rules.now (history rules.now records) due ≡ true) }
        // All that is due stays listed.
        ensures kept { (records : List Record) → TellsOf rules.now tables.now (history rules.now records) →
            has_all self.old rules.now (history rules.now records) → has_all self.new rules.now (history rules.now records) }
        // Nothing is left where nothing is answered.
        ensures quiet { (records : List Record) → TellsOf rules.now tables.now (history rules.now records) →
            has_all self.old rules.now (history rules.now records) → result ≡ None → is_quiet rules.now (history rules.now records) ≡ true };
}
