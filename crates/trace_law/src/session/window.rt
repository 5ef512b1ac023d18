//! The windows of a session (part 2 of the standard, section 2.5.6).

use crate::past::Past;
use flow_counts::{INCOMING_WINDOW, WindowEvent};
use trace_events::Session;

impl<'p, 'a> Past<'p, 'a> {
    ghost use Rattle.std.specs.Prelude.{◌≡◌};
    ghost use Rattle.flow_counts.specs.Window.{granted_window};
    ghost use Rattle.trace_events.specs.Window as law;
    ghost use Rattle.trace_law.specs.OnStack.{events};

    /// The id of the next transfer to the client.
    #[tactic(auto, using(crate::proofs::Counted::serial_step))]
    pub(crate) fn next_outgoing_id(&self, session: Session) -> u32
        ensures { result ≡ law.next_outgoing_id session (events self.now) }
    {
        let mut id = session.our_first_id;
        let mut rest = self;
        while let Past::After(event, earlier) = rest {
            if let Some(WindowEvent::Sent) = event.window_event(session) {
                id = id.wrapping_add(1);
            }
            rest = *earlier;
        }
        id
    }

    /// The id of the next transfer from the client.
    #[tactic(auto, using(crate::proofs::Counted::serial_step))]
    pub(crate) fn next_incoming_id(&self, session: Session) -> u32
        ensures { result ≡ law.next_incoming_id session (events self.now) }
    {
        let mut id = session.their_first_id;
        let mut rest = self;
        while let Past::After(event, earlier) = rest {
            if let Some(WindowEvent::Received) = event.window_event(session) {
                id = id.wrapping_add(1);
            }
            rest = *earlier;
        }
        id
    }

    /// What the client's last flow left of its window: the transfers that it had not seen are taken off. Without a flow
    /// the window of its begin.
    fn granted_window(&self, session: Session) -> u32
        ensures { result ≡ granted_window session.our_first_id session.their_window (law.window_events session (events self.now)) }
    {
        let mut rest = self;
        while let Past::After(event, earlier) = rest {
            if let Some(
                WindowEvent::TheirFlow {
                    next_incoming,
                    incoming_window,
                },
            ) = event.window_event(session)
            {
                let expected = next_incoming.unwrap_or(session.our_first_id);
                let unseen = earlier.next_outgoing_id(session).wrapping_sub(expected);
                return incoming_window.saturating_sub(unseen);
            }
            rest = *earlier;
        }
        session.their_window
    }

    /// How many transfers may still go to the client.
    pub(crate) fn session_window(&self, session: Session) -> u32
        ensures { result ≡ law.session_window session (events self.now) }
    {
        let mut left = self.granted_window(session);
        let mut rest = self;
        while let Past::After(event, earlier) = rest {
            match event.window_event(session) {
                Some(WindowEvent::Sent) => left = left.saturating_sub(1),
                Some(WindowEvent::TheirFlow { .. }) => return left,
                _ => {}
            }
            rest = *earlier;
        }
        left
    }

    /// How many transfers may still come from the client.
    pub(crate) fn given_window(&self, session: Session) -> u32
        ensures { result ≡ law.given_window session (events self.now) }
    {
        let mut left = INCOMING_WINDOW;
        let mut rest = self;
        while let Past::After(event, earlier) = rest {
            match event.window_event(session) {
                Some(WindowEvent::Received) => left = left.saturating_sub(1),
                Some(WindowEvent::OurFlow) => return left,
                _ => {}
            }
            rest = *earlier;
        }
        left
    }
}
