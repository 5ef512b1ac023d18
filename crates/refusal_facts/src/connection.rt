//! What L1 compares: a frame that the router writes, on its connection.

ghost use Rattle.capture_form.specs.Rules.{RuleSet};
ghost use Rattle.std.specs.Prelude.{List, ◌≡◌, ◌&&◌, IfSome, is_none, is_some, option_map};
ghost use Rattle.amqp_perf.specs.View.{view};
ghost use Rattle.trace_events.specs.Event as said;
ghost use Rattle.trace_events.specs.Said.{as_open, out_spoken};
ghost use Rattle.trace_events.specs.View.{Events, event_view, frame_view};
ghost use Rattle.refusal_facts.specs.OpeningFacts.{AreWriting, IsFrame};

use amqp_perf::Performative;
use trace_events::{Event, Frame, Moment, is_of_connection};
use trace_judge::{Openings, Outcomes};

/// Octets that are no performative.
#[derive(Clone, Copy)]
pub struct FrameFacts<'a> {
    pub frame: Frame<'a>,
}

/// Whether a performative may be written, by what happened on its connection before.
#[derive(Clone, Copy)]
pub struct WritingFacts {
    /// It is an open.
    pub is_open: bool,
    /// It is an open or a close.
    pub is_of_connection: bool,
    /// The connection was opened.
    pub was_opened: bool,
    /// It is lost, or the router has closed it.
    pub was_finished: bool,
    /// A close of the client's or a broken stands.
    pub was_stopped: bool,
    /// A frame was written on it before.
    pub has_out_frame: bool,
    /// How many octets the frame has.
    pub len: usize,
    /// The longest frame that may be written on it, in octets.
    pub limit: u32,
}

/// The frame that the router wrote.
fn out_frame<'a>(event: &Event<'_, '_, 'a>) -> Option<Frame<'a>>
    ensures { option_map frame_view result ≡ said.out_frame (event_view event.now).moment }
{
    match event.moment {
        Moment::Out(frame) => Some(*frame),
        _ => None,
    }
}

/// An open.
fn is_open(performative: &Performative) -> bool
    ensures { result ≡ is_some (as_open (view performative.now)) }
{
    matches!(performative, Performative::Open(_))
}

/// L1, of a frame that is no performative.
pub(crate) fn frame_facts<'a>(event: &Event<'_, '_, 'a>) -> Option<FrameFacts<'a>>
    ensures facts { IfSome result (IsFrame (event_view event.now)) }
    ensures there { is_some result ≡ (is_some (said.out_frame (event_view event.now).moment) && is_none (out_spoken (event_view event.now))) }
{
    let frame = out_frame(event)?;
    match event.out_spoken() {
        Some(_) => None,
        None => Some(FrameFacts { frame }),
    }
}

/// L1, of a performative.
pub(crate) fn writing_facts<'a, P: Openings<'a> + Outcomes<'a>>(
    past: &P,
    event: &Event,
) -> Option<WritingFacts>
    ensures facts { (rules : RuleSet) (history : Events) → P.stands_for past.now rules history → IfSome result (AreWriting (event_view event.now) history) }
    ensures there { is_some result ≡ is_some (out_spoken (event_view event.now)) }
{
    let frame = out_frame(event)?;
    let spoken = event.out_spoken()?;
    let connection = event.connection;
    Some(WritingFacts {
        is_open: is_open(&spoken.performative),
        is_of_connection: is_of_connection(&spoken.performative),
        was_opened: past.was_opened(connection),
        was_finished: past.was_finished(connection),
        was_stopped: past.was_stopped(connection),
        has_out_frame: past.has_out_frame(connection),
        len: frame.octets.len(),
        limit: past.frame_limit(connection),
    })
}
