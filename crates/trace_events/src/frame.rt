//! What the octets of a record are, as one whole frame (part 2 of the standard, section 2.3).

use amqp_frames::{FrameKind, FrameView};
use amqp_perf::Performative;
use flow_counts::MAX_FRAME_SIZE;

/// A performative on a channel, and what stands behind it: a transfer's payload.
#[derive(Clone, Copy)]
pub struct Spoken<'a> {
    pub channel: u16,
    pub performative: Performative<'a>,
    pub payload: &'a [u8],
}

/// What octets are.
#[derive(Clone, Copy)]
pub enum Body<'a> {
    /// Not one whole frame of type AMQP.
    NoFrame,
    /// A frame on this channel, with an empty body.
    Empty(u16),
    /// A frame on this channel that begins with no performative.
    NoPerformative(u16),
    /// A frame that begins with a performative.
    Says(Spoken<'a>),
}

/// Octets, and what they are.
#[derive(Clone, Copy)]
pub struct Frame<'a> {
    pub octets: &'a [u8],
    pub body: Body<'a>,
}

impl<'a> Frame<'a> {
    ghost use Rattle.std.specs.Prelude.{◌≡◌, option_map};
    ghost use Rattle.trace_events.specs.Frame.{frame_read, spoken_in, channel_in};
    ghost use Rattle.trace_events.specs.View.{frame_view, spoken_view};

    /// The octets, read.
    #[tactic(auto, unfolding(crate::specs::Frame::frame_read))]
    pub fn read(octets: &'a [u8]) -> Frame<'a>
        ensures { frame_view result ≡ frame_read octets.now }
    {
        let body = match FrameView::whole(octets, MAX_FRAME_SIZE) {
            Some(frame) => Body::of(frame.kind(), frame.channel(), frame.body()),
            None => Body::NoFrame,
        };
        Frame { octets, body }
    }

    /// The performative, if it is one.
    pub fn spoken(&self) -> Option<&Spoken<'a>>
        ensures { option_map (λ spoken. spoken_view spoken.now) result ≡ spoken_in (frame_view self.now).body }
    {
        match &self.body {
            Body::Says(spoken) => Some(spoken),
            _ => None,
        }
    }

    /// The channel, if it is a whole frame.
    pub fn channel(&self) -> Option<u16>
        ensures { result ≡ channel_in (frame_view self.now).body }
    {
        match self.body {
            Body::NoFrame => None,
            Body::Empty(channel) | Body::NoPerformative(channel) => Some(channel),
            Body::Says(spoken) => Some(spoken.channel),
        }
    }
}

impl<'a> Body<'a> {
    ghost use Rattle.std.specs.Prelude.{◌≡◌};
    ghost use Rattle.trace_events.specs.Frame.{body_by};
    ghost use Rattle.trace_events.specs.View.{body_view};

    /// What the body of a frame of this kind is.
    fn of(kind: FrameKind, channel: u16, octets: &'a [u8]) -> Body<'a>
        ensures { body_view result ≡ body_by kind channel octets.now }
    {
        if kind == FrameKind::Sasl {
            return Body::NoFrame;
        }
        if octets.is_empty() {
            return Body::Empty(channel);
        }
        match Performative::read(octets) {
            Ok((performative, payload)) => Body::Says(Spoken {
                channel,
                performative,
                payload,
            }),
            Err(_) => Body::NoPerformative(channel),
        }
    }
}
