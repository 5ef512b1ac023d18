//! What the octets of a frame say.

ghost use Rattle.std.specs.Prelude.{◌≡◌, ◌-◌, ◌≤◌, length};
ghost use Rattle.amqp_frames.specs.View.{view};
ghost use Rattle.capture_view.specs.Saying.{fault_place, fault_within, said_in, said_of, said_by, saying};

use amqp_frames::{FrameFault, FrameKind, FrameView};
use amqp_perf::{PerfFault, Performative};
use flow_counts::MAX_FRAME_SIZE;

/// Why octets are not one whole frame of AMQP.
#[derive(Clone, Copy, Debug, PartialEq, Eq)]
pub enum FrameFlaw {
    /// They begin no frame.
    Fault(FrameFault),
    /// They end inside the frame that they begin.
    Short,
    /// Others stand behind the frame that they begin.
    Long,
    /// The frame belongs to a SASL exchange.
    Sasl,
}

/// What octets say that were recorded as a frame.
#[derive(Clone, Copy, Debug)]
pub enum Said<'a> {
    /// They are no whole frame of AMQP; the flaw stands at this offset.
    NoFrame {
        flaw: FrameFlaw,
        at: usize,
    },
    /// The frame's body is empty.
    Empty {
        channel: u16,
    },
    /// The frame's body begins with no performative; the fault stands at this offset of the octets.
    NoPerformative {
        channel: u16,
        fault: PerfFault,
        at: usize,
    },
    /// The frame's body begins with a performative, and these octets stand behind it: of a transfer the payload.
    Says {
        channel: u16,
        performative: Performative<'a>,
        rest: &'a [u8],
    },
}

/// What these octets say, as a frame of `MAX_FRAME_SIZE` octets at most.
pub fn said_by(octets: &[u8]) -> Said<'_>
    ensures { saying result ≡ said_by octets.now }
{
    match FrameView::read(octets, MAX_FRAME_SIZE) {
        Ok(Some((frame, _))) => said_of(octets, frame),
        Ok(None) => Said::NoFrame {
            flaw: FrameFlaw::Short,
            at: octets.len(),
        },
        Err(fault) => Said::NoFrame {
            flaw: FrameFlaw::Fault(fault),
            at: fault_place(fault),
        },
    }
}

/// What octets say that begin with this frame.
fn said_of<'a>(octets: &'a [u8], frame: FrameView<'a>) -> Said<'a>
    ensures { saying result ≡ said_of octets.entry.now (view frame.entry) }
{
    let length = frame.octets().len();
    if length != octets.len() {
        return Said::NoFrame {
            flaw: FrameFlaw::Long,
            at: length,
        };
    }
    match frame.kind() {
        FrameKind::Amqp => said_in(frame),
        FrameKind::Sasl => Said::NoFrame {
            flaw: FrameFlaw::Sasl,
            at: 5,
        },
    }
}

/// What the body of a frame says.
fn said_in(frame: FrameView<'_>) -> Said<'_>
    ensures { saying result ≡ said_in (view frame.entry) }
{
    let channel = frame.channel();
    let body = frame.body();
    if body.is_empty() {
        return Said::Empty { channel };
    }
    match Performative::read(body) {
        Ok((performative, rest)) => Said::Says {
            channel,
            performative,
            rest,
        },
        Err(fault) => {
            let start = frame.octets().len().saturating_sub(body.len());
            Said::NoPerformative {
                channel,
                fault,
                at: start.saturating_add(fault_within(fault)),
            }
        }
    }
}

/// Where octets show a fault of a frame: the size stands at 0, the data offset at 4, the type at 5.
fn fault_place(fault: FrameFault) -> usize
    ensures { result ≡ fault_place fault }
{
    match fault {
        FrameFault::TooSmall | FrameFault::TooLarge => 0,
        FrameFault::BadOffset => 4,
        FrameFault::WrongType => 5,
    }
}

/// Where a body shows a fault of a performative: that of a value where the value stands, any other at its start.
fn fault_within(fault: PerfFault) -> usize
    ensures { result ≡ fault_within fault }
{
    match fault {
        PerfFault::Value(fault) => fault.at,
        PerfFault::NotPerformative
        | PerfFault::MissingField(_)
        | PerfFault::WrongType(_)
        | PerfFault::TooManyFields => 0,
    }
}
