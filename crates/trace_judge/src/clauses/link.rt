//! L3 and L13: attaches and detaches that the router writes.

ghost use Rattle.capture_form.specs.Rules.{RuleSet};
ghost use Rattle.std.specs.Prelude.{List, ◌≡◌};
ghost use Rattle.amqp_perf.specs.View.{attach_fields, detach_fields};
ghost use Rattle.trace_events.specs.Session.{IsLiveOn, StandsLive};
ghost use Rattle.trace_events.specs.View.{event_view, Events};
ghost use Rattle.trace_events.specs.LinkClause as law;

use crate::questions::Openings;
use amqp_perf::{Attach, Detach};
use trace_events::{Event, Session};

/// L3: it answers the client's last attach of the handle.
pub(crate) fn answers_attach<'a, P: Openings<'a>>(past: &P, ours: &Attach, session: Session) -> bool
    ensures { (rules : RuleSet) (history : Events) → P.stands_for past.now rules history → IsLiveOn session history →
        (result ≡ law.answers_attach (attach_fields ours.now) history session) }
{
    match past.asking(session, ours.handle) {
        Some(asked) => asked.is_answered(ours),
        None => false,
    }
}

/// L13: the link lives, or the client's detach of it, or a refused attach, is to be answered.
pub(crate) fn may_detach<'a, P: Openings<'a>>(past: &P, event: &Event, detach: &Detach) -> bool
    ensures { (rules : RuleSet) (history : Events) → P.stands_for past.now rules history → StandsLive (event_view event.now) history →
        (result ≡ law.may_detach (event_view event.now) (detach_fields detach.now) history) }
{
    match event.session {
        _ if event.link.is_some() => true,
        Some(session) => past.owes_detach(session, detach.handle),
        None => false,
    }
}
