//! What says that a connection is over (part 2 of the standard, section 2.4).

use crate::event::Moment;
use crate::frame::Frame;
use amqp_perf::Performative;

impl<'a> Frame<'a> {
    ghost use Rattle.std.specs.Prelude.{◌≡◌};
    ghost use Rattle.trace_events.specs.Connection.{says_close};
    ghost use Rattle.trace_events.specs.View.{frame_view};

    fn says_close(&self) -> bool
        ensures { result ≡ says_close (frame_view self.now) }
    {
        match self.spoken() {
            Some(spoken) => matches!(spoken.performative, Performative::Close(_)),
            None => false,
        }
    }
}

impl<'a> Moment<'a> {
    ghost use Rattle.std.specs.Prelude.{◌≡◌};
    ghost use Rattle.trace_events.specs.Connection.{is_final};
    ghost use Rattle.trace_events.specs.View.{moment_view};

    /// A close in either direction, the end of the device, or octets that stopped being frames.
    pub fn is_final(&self) -> bool
        ensures { result ≡ is_final (moment_view self.now) }
    {
        match self {
            Moment::In(frame) | Moment::Out(frame) => frame.says_close(),
            Moment::Lost | Moment::Broken => true,
            Moment::Opened => false,
        }
    }
}
