//! L11 and L12: outcomes that the router tells, and deliveries that it settles (part 2 of the standard, section 2.7.6).

ghost use Rattle.std.specs.Prelude.{◌≡◌, IfSome, option_map};
ghost use Rattle.amqp_perf.specs.View.{disposition_fields};
ghost use Rattle.trace_events.specs.View.{event_view, incoming_view, Events};
ghost use Rattle.trace_events.specs.DispositionClause as law;

use crate::outcome::{may_be_told, row};
use crate::questions::Outcomes;
use amqp_perf::Disposition;
use capture_form::RuleSet;
use pairing_cert::Note;
use trace_events::{Event, Incoming};

/// Settled, and of one id.
pub(crate) fn settles_one(disposition: &Disposition) -> bool
    ensures { result ≡ law.settles_one (disposition_fields disposition.now) }
{
    disposition.is_settled() && disposition.last_id() == disposition.first
}

/// The row of the note applies to the delivery, with the state that is told.
fn tells_by<'a, P: Outcomes<'a>>(
    past: &P,
    rules: &RuleSet,
    delivery: &Incoming,
    note: Note,
    disposition: &Disposition,
) -> bool
    requires few { P.is_short past.now }
    ensures { (history : Events) → P.stands_for past.now rules.now history → P.knows_incoming past.now (incoming_view delivery.now) history → (result ≡ law.tells_by rules.now (incoming_view delivery.now) note
        (option_map (λ s. s.octets) (disposition_fields disposition.now).state) history) }
{
    let Note::Told(why) = note else {
        return false;
    };
    match (row(past, rules, delivery, why), disposition.state) {
        (Some(told), Some(state)) => told.has_octets(Some(state.raw())),
        (Some(told), None) => told.has_octets(None),
        (None, _) => false,
    }
}

/// L11: an outcome, of a delivery that may be told one.
pub(crate) fn is_outcome<'a, P: Outcomes<'a>>(
    past: &P,
    rules: &RuleSet,
    event: &Event,
    disposition: &Disposition,
) -> bool
    requires few { P.is_short past.now }
    ensures { (history : Events) → P.stands_for past.now rules.now history → IfSome (event_view event.now).told (λ n. P.knows_number past.now n history) →
        (result ≡ law.is_outcome rules.now (event_view event.now) (disposition_fields disposition.now) history) }
{
    if !settles_one(disposition) {
        return false;
    }
    let Some(number) = event.told else {
        return false;
    };
    match past.incoming_at(number) {
        Some(delivery) => {
            may_be_told(past, &delivery)
                && tells_by(past, rules, &delivery, event.note, disposition)
        }
        None => false,
    }
}
