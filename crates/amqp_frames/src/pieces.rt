//! The frames of a stream that came in pieces.

ghost use Rattle.std.specs.Prelude.{◌≡◌, ℕ, List, Option, IfOk};
ghost use Rattle.std.specs.List.{flat_map};
ghost use Rattle.amqp_frames.specs.declared.fault.FrameFault.{FrameFault};
ghost use Rattle.flow_counts.specs.declared.profile.TheConstants.{MAX_FRAME_SIZE};
ghost use Rattle.amqp_frames.specs.Stream.{AreFramesOf, IsAfter};
ghost use Rattle.amqp_frames.specs.Held.{octets_of};

use crate::fault::FrameFault;
use crate::splitter::Splitter;
use std::alloc::{AllocError, Global};

/// The frames of a stream, and what is behind the last of them.
#[derive(Debug, Drop)]
pub struct CutStream {
    /// All octets of each frame, in the order of the stream.
    pub frames: Vec<Vec<u8>>,
    /// The fault of what is behind the last frame; none where that is less than a frame.
    pub fault: Option<FrameFault>,
}

/// Cuts a stream that came in these pieces into its frames, however it was cut into pieces.
///
/// # Errors
///
/// Where the memory for the frames is refused.
pub fn cut_stream(alloc: Global, pieces: &[&[u8]]) -> Result<CutStream, AllocError>
    // The pieces joined are these frames, and behind them less than a frame, or the fault.
    ensures found { IfOk result (λ cut. AreFramesOf MAX_FRAME_SIZE (flat_map (λ piece. piece.now) pieces.now) (octets_of cut.frames) cut.fault) }
    // They are no other frames, with no other end.
    ensures only { IfOk result (λ cut. (others : List (List ℕ)) (end : Option FrameFault)
        → AreFramesOf MAX_FRAME_SIZE (flat_map (λ piece. piece.now) pieces.now) others end
        → (octets_of cut.frames ≡ others) × (cut.fault ≡ end)) }
{
    let mut splitter = Splitter::new(alloc);
    let mut cut = CutStream {
        frames: Vec::new(alloc),
        fault: None,
    };
    for piece in pieces {
        splitter.feed(piece)?;
        cut.fault = take_frames(alloc, &mut splitter, &mut cut.frames)?;
    }
    Ok(cut)
}

/// Takes the frames that are whole by now, and gives the fault of what is behind them.
fn take_frames(
    alloc: Global,
    splitter: &mut Splitter,
    frames: &mut Vec<Vec<u8>>,
) -> Result<Option<FrameFault>, AllocError>
    ensures { (stream : List ℕ) → IsAfter stream (octets_of frames.old) splitter.old
        → IfOk result (λ fault. IsAfter stream (octets_of frames.new) splitter.new
        × AreFramesOf MAX_FRAME_SIZE stream (octets_of frames.new) fault) }
{
    loop {
        match splitter.next() {
            Ok(Some(frame)) => frames.push(frame.to_vec(alloc)?)?,
            Ok(None) => return Ok(None),
            Err(fault) => return Ok(Some(fault)),
        }
    }
}
