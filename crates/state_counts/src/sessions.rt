//! A live session, and what its windows have come to (part 2 of the standard, section 2.5.6).

ghost use Rattle.std.specs.Prelude.{◌≡◌, [], ◌∷◌, true, option_map};
ghost use Rattle.flow_counts.specs.Window.{lag};
ghost use Rattle.trace_events.specs.Outgoing.{next_delivery_id};
ghost use Rattle.state_counts.specs.Sessions.{begins_delivery, begun, counted, moved, moved_by, opens_or_ends, session_next};
ghost use Rattle.trace_events.specs.Event.{is_on_session};
ghost use Rattle.trace_events.specs.Window.{window_event, window_events};
ghost use Rattle.trace_events.specs.View.{Events, event_view};

use flow_counts::{INCOMING_WINDOW, WindowEvent};
use trace_events::{Event, Session};

/// A session with its counts.
#[derive(Clone, Copy, Debug)]
pub struct CountedSession {
    pub session: Session,
    /// How many transfers may still be sent.
    pub window: u32,
    /// How many transfers the client may still send.
    pub given_window: u32,
    /// The id of the router's next transfer, and of the client's.
    pub next_outgoing_id: u32,
    pub next_incoming_id: u32,
    /// The id of the next delivery to the client.
    pub next_delivery_id: u32,
}

/// A delivery to the client of the session begins with the event.
fn begins_delivery(event: &Event, session: Session) -> bool
    ensures { result ≡ begins_delivery (event_view event.now) session }
{
    match event.outgoing {
        Some(delivery) => {
            delivery.number == event.number && delivery.link.session.number == session.number
        }
        None => false,
    }
}

impl CountedSession {
    /// A session of which no event stands yet.
    pub fn new(session: Session) -> CountedSession
        ensures begun { result ≡ begun session }
        ensures known { (history : Events) → window_events session history ≡ [] → next_delivery_id session history ≡ 0 →
            result ≡ counted session history }
    {
        CountedSession {
            session,
            window: session.their_window,
            given_window: INCOMING_WINDOW,
            next_outgoing_id: session.our_first_id,
            next_incoming_id: session.their_first_id,
            next_delivery_id: 0,
        }
    }

    /// With one more of its events.
    pub fn after(self, event: &Event) -> CountedSession
        ensures moved { result ≡ moved_by (event_view event.now) self }
        ensures known { (history : Events) → self ≡ counted self.session history → is_on_session self.session (event_view event.now) ≡ true →
            result ≡ counted self.session (event_view event.now ∷ history) }
    {
        let later = self.with_windows(event);
        if begins_delivery(event, self.session) {
            CountedSession {
                next_delivery_id: later.next_delivery_id.wrapping_add(1),
                ..later
            }
        } else {
            later
        }
    }

    /// With what the event does to its windows.
    fn with_windows(self, event: &Event) -> CountedSession
        ensures { result ≡ moved self (window_event (event_view event.now).moment) }
    {
        match event.moment.window_event() {
            None => self,
            Some(WindowEvent::Sent) => CountedSession {
                window: self.window.saturating_sub(1),
                next_outgoing_id: self.next_outgoing_id.wrapping_add(1),
                ..self
            },
            Some(WindowEvent::Received) => CountedSession {
                given_window: self.given_window.saturating_sub(1),
                next_incoming_id: self.next_incoming_id.wrapping_add(1),
                ..self
            },
            Some(WindowEvent::OurFlow) => CountedSession {
                given_window: INCOMING_WINDOW,
                ..self
            },
            Some(
                WindowEvent::TheirFlow {
                    next_incoming,
                    incoming_window,
                },
            ) => CountedSession {
                window: incoming_window.saturating_sub(self.unseen(next_incoming)),
                ..self
            },
        }
    }

    /// How many transfers the client had not seen when it expected this id, or none yet.
    fn unseen(&self, next_incoming: Option<u32>) -> u32
        ensures { result ≡ lag self.now.session.our_first_id self.now.next_outgoing_id next_incoming }
    {
        let expected = next_incoming.unwrap_or(self.session.our_first_id);
        self.next_outgoing_id.wrapping_sub(expected)
    }
}

/// The event is a begin or an end, in either direction.
pub fn opens_or_ends(event: &Event) -> bool
    ensures { result ≡ opens_or_ends (event_view event.now) }
{
    event.in_begin().is_some()
        || event.out_begin().is_some()
        || event.is_in_end()
        || event.is_out_end()
}

/// What an event of the channel makes of its session.
pub fn session_after(earlier: Option<CountedSession>, event: &Event) -> Option<CountedSession>
    ensures { result ≡ session_next (event_view event.now) earlier }
{
    if event.is_in_end() || event.is_out_end() {
        None
    } else if event.out_begin().is_some() {
        Some(CountedSession::new(event.session?))
    } else {
        Some(earlier?.after(event))
    }
}
