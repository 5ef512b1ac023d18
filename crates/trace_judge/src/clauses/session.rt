//! L2 and L13: begins and ends that the router writes.

ghost use Rattle.capture_form.specs.Rules.{RuleSet};
ghost use Rattle.std.specs.Prelude.{List, ◌≡◌};
ghost use Rattle.trace_events.specs.View.{event_view, Events};
ghost use Rattle.trace_events.specs.SessionClause as law;

use crate::questions::Openings;
use amqp_perf::Begin;
use flow_counts::INCOMING_WINDOW;
use trace_events::Event;

/// L2: the client's begin asks for it.
pub(crate) fn answers_begin<'a, P: Openings<'a>>(
    past: &P,
    connection: u32,
    channel: u16,
    begin: &Begin,
) -> bool
    ensures { (rules : RuleSet) (history : Events) → P.stands_for past.now rules history → (result ≡ law.answers_begin connection channel begin.now history) }
{
    past.has_unanswered_begin(connection, channel)
        && begin.remote_channel == Some(channel)
        && begin.incoming_window == INCOMING_WINDOW
}

/// L13: the session lives, or the client's end of it is to be answered.
pub(crate) fn may_end<'a, P: Openings<'a>>(past: &P, event: &Event, channel: u16) -> bool
    ensures { (rules : RuleSet) (history : Events) → P.stands_for past.now rules history → (result ≡ law.may_end (event_view event.now) channel history) }
{
    event.session.is_some() || past.owes_end(event.connection, channel)
}
