//! What stands at the front of a client's octets.

ghost use Rattle.std.specs.Prelude.{◌≡◌};
ghost use Rattle.flow_counts.specs.declared.profile.TheConstants.{MAX_FRAME_SIZE};
ghost use Rattle.amqp_frames.specs.declared.frame.FrameKind.TheVariants as kinds;
ghost use Rattle.amqp_frames.specs.Frame.{IsFrame};
ghost use Rattle.amqp_frames.specs.View.{view};
ghost use Rattle.stream_reading.specs.declared.step.Phase.TheVariants as phases;
ghost use Rattle.stream_reading.specs.Stream.{event_of, Answers, AnswersInit, AnswersBody, AnswersName};

use crate::step::{Event, Phase, Step, StreamFault};
use amqp_frames::{FrameKind, FrameView, ProtocolHeader, SaslFrame, sasl_read};
use flow_counts::MAX_FRAME_SIZE;

/// The octets of a header.
const HEADER_OCTETS: usize = 8;

/// The mechanism that asks for nothing.
const ANONYMOUS: &str = "ANONYMOUS";

/// The step of the stream that stands at the front of the octets, by what comes next in it; `None` where octets are
/// missing that would tell. Frames have at most `MAX_FRAME_SIZE` octets, those of the SASL exchange too. It takes no
/// memory.
///
/// # Errors
///
/// Why the stream ends there: no octets behind these change it.
pub fn front(phase: Phase, octets: &[u8]) -> Result<Option<Step<'_>>, StreamFault>
    ensures { Answers phase octets.now result }
{
    match phase {
        Phase::FirstHeader => first_header(octets),
        Phase::Exchange => init_frame(octets),
        Phase::SecondHeader => second_header(octets),
        Phase::Open => amqp_frame(octets),
    }
}

fn first_header(octets: &[u8]) -> Result<Option<Step<'_>>, StreamFault>
    ensures { Answers phases.FirstHeader octets.now result }
{
    if octets.len() < HEADER_OCTETS {
        return Ok(None);
    }
    let octets = &octets[..HEADER_OCTETS];
    match ProtocolHeader::of(octets) {
        Some(header) => {
            let event = event_of(header);
            Ok(Some(Step { event, octets }))
        }
        None => Err(StreamFault::HeaderRefused),
    }
}

fn event_of(header: ProtocolHeader) -> Event
    ensures { result ≡ event_of header }
{
    match header {
        ProtocolHeader::Amqp => Event::AmqpHeader,
        ProtocolHeader::Sasl => Event::SaslHeader,
    }
}

fn second_header(octets: &[u8]) -> Result<Option<Step<'_>>, StreamFault>
    ensures { Answers phases.SecondHeader octets.now result }
{
    if octets.len() < HEADER_OCTETS {
        return Ok(None);
    }
    let octets = &octets[..HEADER_OCTETS];
    match ProtocolHeader::of(octets) {
        Some(ProtocolHeader::Amqp) => {
            let event = Event::AmqpHeader;
            Ok(Some(Step { event, octets }))
        }
        Some(ProtocolHeader::Sasl) => Err(StreamFault::HeaderRefused),
        None => Err(StreamFault::HeaderRefused),
    }
}

fn amqp_frame(octets: &[u8]) -> Result<Option<Step<'_>>, StreamFault>
    ensures { Answers phases.Open octets.now result }
{
    match FrameView::read(octets, MAX_FRAME_SIZE) {
        Ok(None) => Ok(None),
        Ok(Some((frame, _))) => match frame.kind() {
            FrameKind::Amqp => Ok(Some(Step {
                event: Event::AmqpFrame,
                octets: frame.octets(),
            })),
            FrameKind::Sasl => Err(StreamFault::BadFrame),
        },
        Err(_) => Err(StreamFault::BadFrame),
    }
}

fn init_frame(octets: &[u8]) -> Result<Option<Step<'_>>, StreamFault>
    ensures { Answers phases.Exchange octets.now result }
{
    match FrameView::read(octets, MAX_FRAME_SIZE) {
        Ok(None) => Ok(None),
        Ok(Some((frame, _))) => match check_init(&frame) {
            Ok(()) => Ok(Some(Step {
                event: Event::AnonymousInit,
                octets: frame.octets(),
            })),
            Err(fault) => Err(fault),
        },
        Err(_) => Err(StreamFault::BadFrame),
    }
}

/// Whether a frame is the init that chooses ANONYMOUS, or why the exchange ends.
#[tactic(auto, using(crate::proofs::Fronts::of_body))]
fn check_init(frame: &FrameView<'_>) -> Result<(), StreamFault>
    ensures { AnswersInit (view frame.now) result }
{
    match frame.kind() {
        FrameKind::Amqp => Err(StreamFault::BadFrame),
        FrameKind::Sasl => check_mechanism(frame.body()),
    }
}

/// Whether the body of a SASL frame is the init that chooses ANONYMOUS.
fn check_mechanism(body: &[u8]) -> Result<(), StreamFault>
    ensures { AnswersBody body.now result }
{
    match sasl_read(body) {
        Ok(SaslFrame::Init { mechanism, .. }) => check_name(mechanism),
        Ok(SaslFrame::Mechanisms { .. }) => Err(StreamFault::BadFrame),
        Ok(SaslFrame::Outcome { .. }) => Err(StreamFault::BadFrame),
        Err(_) => Err(StreamFault::BadFrame),
    }
}

/// Whether a mechanism is ANONYMOUS.
fn check_name(mechanism: &str) -> Result<(), StreamFault>
    ensures { AnswersName mechanism.now result }
{
    if mechanism == ANONYMOUS {
        Ok(())
    } else {
        Err(StreamFault::SaslRefused)
    }
}
