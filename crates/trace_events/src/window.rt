//! What moves the windows of a session (part 2 of the standard, section 2.5.6).

use crate::event::{Event, Moment};
use crate::session::Session;
use amqp_perf::Performative;
use flow_counts::WindowEvent;

impl<'a> Moment<'a> {
    ghost use Rattle.std.specs.Prelude.{◌≡◌};
    ghost use Rattle.trace_events.specs.Window.{window_event};
    ghost use Rattle.trace_events.specs.View.{moment_view};

    /// How it moves the windows of the session on which it stands. `None` where it is neither a flow nor a transfer.
    pub fn window_event(&self) -> Option<WindowEvent>
        ensures { result ≡ window_event (moment_view self.now) }
    {
        match self {
            Moment::In(frame) => match frame.spoken()?.performative {
                Performative::Flow(flow) => Some(WindowEvent::TheirFlow {
                    next_incoming: flow.next_incoming_id,
                    incoming_window: flow.incoming_window,
                }),
                Performative::Transfer(_) => Some(WindowEvent::Received),
                _ => None,
            },
            Moment::Out(frame) => match frame.spoken()?.performative {
                Performative::Flow(_) => Some(WindowEvent::OurFlow),
                Performative::Transfer(_) => Some(WindowEvent::Sent),
                _ => None,
            },
            _ => None,
        }
    }
}

impl<'a, 'r, 'm> Event<'a, 'r, 'm> {
    ghost use Rattle.std.specs.Prelude.{◌≡◌, if◌then◌else◌, None};
    ghost use Rattle.trace_events.specs.Event.{is_on_session};
    ghost use Rattle.trace_events.specs.Window.{window_event};
    ghost use Rattle.trace_events.specs.View.{event_view};

    /// How it moves the windows of this session. `None` where it does not, or does not stand on it.
    pub fn window_event(&self, session: Session) -> Option<WindowEvent>
        ensures { result
            ≡ (if is_on_session session (event_view self.now) then window_event (event_view self.now).moment else None) }
    {
        if self.is_on_session(session) {
            self.moment.window_event()
        } else {
            None
        }
    }
}
