//! The frame at the front of a stream.

use crate::fault::FrameFault;
use byteorder::{BigEndian, ByteOrder};

/// How many octets hold a frame's size.
const SIZE_OCTETS: usize = 4;

/// How many octets a frame's header has, without what may extend it.
pub(crate) const HEADER_OCTETS: usize = 8;

/// What a frame belongs to: its type.
#[derive(Clone, Copy, Debug, PartialEq, Eq)]
pub enum FrameKind {
    /// A connection and its sessions (part 2, 2.3.2).
    Amqp = 0,
    /// The SASL exchange in front of a connection (part 5, 5.3.1).
    Sasl = 1,
}

impl FrameKind {
    ghost use Rattle.std.specs.Prelude.{◌≡◌};
    ghost use Rattle.amqp_frames.specs.Reading.{kind_of};

    /// The type that an octet names.
    fn of(octet: u8) -> Option<FrameKind>
        ensures { result ≡ kind_of octet }
    {
        match octet {
            0 => Some(FrameKind::Amqp),
            1 => Some(FrameKind::Sasl),
            _ => None,
        }
    }
}

/// A whole frame, on the octets that it was read from.
#[derive(Clone, Copy, Debug)]
pub struct FrameView<'a> {
    octets: &'a [u8],
    kind: FrameKind,
    channel: u16,
    body: &'a [u8],
}

impl<'a> FrameView<'a> {
    ghost use Rattle.std.specs.Prelude.{◌≡◌, ◌≤◌, ℕ, List, drop, length, Ok, Some, IfErr, IfOk, IfSome, option_map};
    ghost use Rattle.amqp_frames.specs.Frame.{Frame, IsFrame, IsFront, IsFault, IsPartial};
    ghost use Rattle.amqp_frames.specs.Reading.{frame_at, whole_frame};
    ghost use Rattle.amqp_frames.specs.View.{view, Gives, IsFoundAt, IfMissing};

    /// Reads the frame at the front of the octets, whose size may be `limit` octets at most, and gives
    /// how many octets it has; `None` where the frame isn't whole yet. It takes no memory.
    ///
    /// # Errors
    ///
    /// The first fault, in the order of `FrameFault`: of the size as soon as 4 octets are there, the
    /// others as soon as 8 are.
    #[tactic(auto, unfolding(crate::specs::Reading::frame_at, crate::specs::Reading::sized_frame, crate::specs::Reading::headed_frame))]
    pub fn read(octets: &'a [u8], limit: u32) -> Result<Option<(FrameView<'a>, usize)>, FrameFault>
        // What is read is a frame at the front of the octets, and its length.
        ensures found { IfOk result (λ read. IfSome read (IsFoundAt limit octets.now)) }
        // A frame at the front of the octets is read, whatever is behind it.
        ensures only { (frame : Frame) (rest : List ℕ) → IsFront limit octets.now frame rest → Gives result (Ok (Some frame)) }
        // Where none is read without fault, no fault stands yet and the frame isn't whole.
        ensures partial { IfOk result (IfMissing (IsPartial limit octets.now)) }
        // A fault is one of what stands at the front.
        ensures broken { IfErr result (IsFault limit octets.now) }
        // Which of the three it is.
        ensures exact { Gives result (frame_at limit octets.now) }
    {
        if octets.len() < SIZE_OCTETS {
            return Ok(None);
        }
        let size = BigEndian::read_u32(octets);
        if (size as usize) < HEADER_OCTETS {
            return Err(FrameFault::TooSmall);
        }
        if limit < size {
            return Err(FrameFault::TooLarge);
        }
        if octets.len() < HEADER_OCTETS {
            return Ok(None);
        }
        let size = size as usize;
        let start = 4 * usize::from(octets[4]);
        if start < HEADER_OCTETS || size < start {
            return Err(FrameFault::BadOffset);
        }
        let Some(kind) = FrameKind::of(octets[5]) else {
            return Err(FrameFault::WrongType);
        };
        if octets.len() < size {
            return Ok(None);
        }
        let whole = &octets[..size];
        let frame = FrameView {
            octets: whole,
            kind,
            channel: BigEndian::read_u16(&whole[6..]),
            body: &whole[start..],
        };
        Ok(Some((frame, size)))
    }

    /// The frame that all these octets are, if they are one of `limit` octets at most. It takes no
    /// memory.
    #[tactic(auto, unfolding(crate::specs::Reading::whole_frame), using(crate::proofs::Fronts::whole_read))]
    pub fn whole(octets: &'a [u8], limit: u32) -> Option<FrameView<'a>>
        ensures found { IfSome result (λ frame. IsFrame limit (view frame) × ((view frame).octets ≡ octets.now)) }
        ensures only { (frame : Frame) → IsFrame limit frame → frame.octets ≡ octets.now → option_map view result ≡ Some frame }
        ensures exact { option_map view result ≡ whole_frame limit octets.now }
    {
        match FrameView::read(octets, limit) {
            Ok(Some((frame, length))) => (length == octets.len()).then_some(frame),
            Ok(None) | Err(_) => None,
        }
    }

    /// What the frame belongs to.
    pub fn kind(&self) -> FrameKind
        ensures { result ≡ (view self.now).kind }
    {
        self.kind
    }

    /// The channel that the frame names. In a SASL exchange it means nothing.
    pub fn channel(&self) -> u16
        ensures { result ≡ (view self.now).channel }
    {
        self.channel
    }

    /// What stands behind the header and what extends it.
    pub fn body(&self) -> &'a [u8]
        ensures { result.now ≡ (view self.now).body }
    {
        self.body
    }

    /// All octets of the frame, its size among them.
    pub fn octets(&self) -> &'a [u8]
        ensures { result.now ≡ (view self.now).octets }
    {
        self.octets
    }
}
