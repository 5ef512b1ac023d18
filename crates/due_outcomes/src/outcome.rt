//! An outcome that is due: its row, and the state that it tells (part 3 of the standard, section 3.4; own rules).

ghost use Rattle.std.specs.Prelude.{◌≡◌, List, false, None, Contains, IfSome};
ghost use Rattle.capture_form.specs.declared.records.Record.{Record};
ghost use Rattle.trace_events.specs.Outcome.{is_to_tell};
ghost use Rattle.trace_events.specs.Event as events;
ghost use Rattle.trace_events.specs.History.{history};
ghost use Rattle.trace_events.specs.Incoming.{incoming_deliveries};
ghost use Rattle.trace_judge.specs.Told.{told_view};
ghost use Rattle.trace_events.specs.View.{incoming_view};
ghost use Rattle.state_answers.specs.Tables.{TellsOf};
ghost use Rattle.due_outcomes.specs.DueOutcomes.{IsDueOutcome};

use capture_form::RuleSet;
use pairing_cert::Why;
use state_answers::LentTables;
use trace_events::Incoming;
use trace_judge::{Told, first_row, may_be_told};

/// An outcome that is due.
#[derive(Clone, Copy)]
pub struct DueOutcome<'t> {
    pub delivery: Incoming<'t>,
    pub why: Why,
    /// The state that is told.
    pub told: Told<'t>,
}

/// The outcome of the delivery of the number, if one is to be told.
#[inline(never)]
pub(crate) fn outcome_of<'t>(
    rules: &RuleSet,
    tables: &LentTables<'t>,
    number: u64,
) -> Option<DueOutcome<'t>>
    ensures due { IfSome result (λ due. (records : List Record) → TellsOf rules.now tables.now (history rules.now records) →
        IsDueOutcome rules.now (history rules.now records) (incoming_view due.delivery) due.why (told_view due.told)) }
    ensures none { result ≡ None → (records : List Record) → TellsOf rules.now tables.now (history rules.now records) →
        (d : events.Incoming) → Contains (incoming_deliveries (history rules.now records)) d → d.number ≡ number →
        is_to_tell rules.now (history rules.now records) d ≡ false }
{
    let delivery = tables.deliveries.incoming_at(number)?;
    if !may_be_told(tables, &delivery) {
        return None;
    }
    let (why, told) = first_row(tables, rules, &delivery)?;
    Some(DueOutcome {
        delivery,
        why,
        told,
    })
}
