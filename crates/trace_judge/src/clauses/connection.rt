//! L1: a frame that the router writes, on its connection.

ghost use Rattle.capture_form.specs.Rules.{RuleSet};
ghost use Rattle.std.specs.Prelude.{List, ◌≡◌};
ghost use Rattle.trace_events.specs.View.{spoken_view, frame_view, Events};
ghost use Rattle.trace_events.specs.ConnectionClause as law;

use crate::questions::{Openings, Outcomes};
use amqp_perf::Performative;
use trace_events::{Frame, Spoken, is_of_connection};

/// The first frame that is written is an open, and no other is (part 2 of the standard, section 2.4.1).
fn is_open_in_place<'a, P: Openings<'a>>(past: &P, connection: u32, spoken: &Spoken) -> bool
    ensures { (rules : RuleSet) (history : Events) → P.stands_for past.now rules history →
        (result ≡ law.is_open_in_place connection (spoken_view spoken.now).meaning history) }
{
    matches!(spoken.performative, Performative::Open(_)) != past.has_out_frame(connection)
}

/// The connection was opened, and is neither lost nor closed by the router; behind the client's close or a broken stands
/// an open or a close alone.
pub(crate) fn may_be_written<'a, P: Openings<'a>>(
    past: &P,
    connection: u32,
    spoken: &Spoken,
) -> bool
    ensures { (rules : RuleSet) (history : Events) → P.stands_for past.now rules history →
        (result ≡ law.may_be_written connection (spoken_view spoken.now).meaning history) }
{
    past.was_opened(connection)
        && !past.was_finished(connection)
        && is_open_in_place(past, connection, spoken)
        && (is_of_connection(&spoken.performative) || !past.was_stopped(connection))
}

/// Within the longest frame that may be written.
pub(crate) fn fits_limit<'a, P: Outcomes<'a>>(past: &P, connection: u32, frame: &Frame) -> bool
    ensures { (rules : RuleSet) (history : Events) → P.stands_for past.now rules history → (result ≡ law.fits_limit connection (frame_view frame.now) history) }
{
    frame.octets.len() <= past.frame_limit(connection) as usize
}
