//! Which frames of a client are heard, and which are passed over.

ghost use Rattle.capture_form.specs.Rules.{RuleSet};
ghost use Rattle.std.specs.Prelude.{List, ◌≡◌};
ghost use Rattle.amqp_perf.specs.View.{view};
ghost use Rattle.trace_events.specs.Session.{StandsLive};
ghost use Rattle.trace_events.specs.View.{event_view, body_view, Events};
ghost use Rattle.trace_events.specs.Heard as law;

use crate::questions::Inputs;
use amqp_perf::Performative;
use trace_events::{Body, Event, handle_in, is_of_connection};

/// It stands on a handle that awaits the client's detach.
fn is_on_detached<'a, P: Inputs<'a>>(past: &P, event: &Event, performative: &Performative) -> bool
    ensures { (rules : RuleSet) (history : Events) → P.stands_for past.now rules history → StandsLive (event_view event.now) history →
        (result ≡ law.is_on_detached (event_view event.now) (view performative.now) history) }
{
    match (event.session, handle_in(performative)) {
        (Some(session), Some(handle)) => past.awaits_detach(session, handle),
        _ => false,
    }
}

/// Passed over are an empty body, all but opens and closes on a channel that awaits the client's end, and what
/// stands on a handle that awaits its detach.
fn is_passed_over<'a, P: Inputs<'a>>(past: &P, event: &Event, body: &Body) -> bool
    ensures { (rules : RuleSet) (history : Events) → P.stands_for past.now rules history → StandsLive (event_view event.now) history →
        (result ≡ law.is_passed_over (event_view event.now) (body_view body.now) history) }
{
    match body {
        Body::NoFrame => false,
        Body::Empty(_) => true,
        Body::NoPerformative(channel) => past.awaits_end(event.connection, *channel),
        Body::Says(spoken) => {
            !is_of_connection(&spoken.performative)
                && (past.awaits_end(event.connection, spoken.channel)
                    || is_on_detached(past, event, &spoken.performative))
        }
    }
}

/// The frame counts: its connection isn't over, and it isn't passed over.
pub(crate) fn is_heard_body<'a, P: Inputs<'a>>(past: &P, event: &Event, body: &Body) -> bool
    ensures { (rules : RuleSet) (history : Events) → P.stands_for past.now rules history → StandsLive (event_view event.now) history →
        (result ≡ law.is_heard_body (event_view event.now) (body_view body.now) history) }
{
    !past.is_over(event.connection) && !is_passed_over(past, event, body)
}
