//! What L13 compares: a detach or an end with what is live, and with what the client has ended.

ghost use Rattle.capture_form.specs.Rules.{RuleSet};
ghost use Rattle.std.specs.Prelude.{List, ◌≡◌, is_some, IfSome};
ghost use Rattle.trace_events.specs.Link as links;
ghost use Rattle.trace_events.specs.Session.{IsLiveOn, StandsLive};
ghost use Rattle.trace_events.specs.Words.{is_some_and};
ghost use Rattle.trace_events.specs.View.{Events, event_view};
ghost use Rattle.trace_events.specs.Said as said;
ghost use Rattle.refusal_facts.specs.EndingFacts.{AreDetach, AreEnd};

use trace_events::{Event, Link, Session};
use trace_judge::Openings;

/// A detach of the router's.
#[derive(Clone, Copy)]
pub struct DetachFacts<'a> {
    pub handle: u32,
    /// The live session of its channel.
    pub session: Option<Session>,
    /// The live link of the handle.
    pub link: Option<Link<'a>>,
    /// A detach of the client's, or an attach of its that was refused, is still to be answered.
    pub is_owed: bool,
}

/// An end of the router's.
#[derive(Clone, Copy)]
pub struct EndFacts {
    pub channel: u16,
    /// The live session of its channel.
    pub session: Option<Session>,
    /// An end of the client's is still to be answered.
    pub is_owed: bool,
}

/// A detach of the handle is owed on the session, if there is one.
fn is_detach_owed<'a, P: Openings<'a>>(past: &P, session: Option<Session>, handle: u32) -> bool
    ensures { (rules : RuleSet) (history : Events) → P.stands_for past.now rules history → IfSome session (λ s. IsLiveOn s history) →
        (result ≡ is_some_and session (λ s. links.owes_detach s handle history)) }
{
    match session {
        Some(session) => past.owes_detach(session, handle),
        None => false,
    }
}

/// A detach.
pub(crate) fn detach_facts<'a, P: Openings<'a>>(
    past: &P,
    event: &Event<'a, '_, 'a>,
) -> Option<DetachFacts<'a>>
    ensures facts { (rules : RuleSet) (history : Events) → P.stands_for past.now rules history → StandsLive (event_view event.now) history → IfSome result (AreDetach (event_view event.now) history) }
    ensures there { is_some result ≡ is_some (said.out_detach (event_view event.now)) }
{
    let detach = event.out_detach()?;
    Some(DetachFacts {
        handle: detach.handle,
        session: event.session,
        link: event.link,
        is_owed: is_detach_owed(past, event.session, detach.handle),
    })
}

/// An end.
pub(crate) fn end_facts<'a, P: Openings<'a>>(past: &P, event: &Event) -> Option<EndFacts>
    ensures facts { (rules : RuleSet) (history : Events) → P.stands_for past.now rules history → IfSome result (AreEnd (event_view event.now) history) }
    ensures there { is_some result ≡ said.is_out_end (event_view event.now) }
{
    let spoken = event.out_spoken()?;
    if !event.is_out_end() {
        return None;
    }
    let channel = spoken.channel;
    Some(EndFacts {
        channel,
        session: event.session,
        is_owed: past.owes_end(event.connection, channel),
    })
}
