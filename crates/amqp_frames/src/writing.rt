//! Writing whole frames.

ghost use Rattle.std.specs.Prelude.{◌≡◌, ◌<◌, ◌≤◌, ◌^◌, ◌++◌, ℕ, [], Some, Ok};
ghost use Rattle.amqp_types.specs.Writing.{Puts};
ghost use Rattle.amqp_perf.specs.Reading.{performative_at};
ghost use Rattle.amqp_perf.specs.View.{view};
ghost use Rattle.amqp_perf.specs.Writing.{performative_octets, IsWritable};
ghost use Rattle.amqp_frames.specs.declared.frame.FrameKind.TheVariants as kinds;
ghost use Rattle.amqp_frames.specs.Reading.{whole_frame};
ghost use Rattle.amqp_frames.specs.Writing.{frame_size, frame_octets, frame_with};

use crate::frame::{FrameKind, HEADER_OCTETS};
use amqp_perf::Performative;
use amqp_types::put_parts;
use std::alloc::{AllocError, Global};

/// How many words of four octets a frame's header has that nothing extends.
const DATA_OFFSET: u8 = 2;

/// Room for all but few performatives, so that none of these has to move while it is written, in octets.
const USUAL_OCTETS: usize = 96;

/// Appends a whole frame of type AMQP: a performative on a channel, and behind it the payload, which only a transfer
/// has.
///
/// # Errors
///
/// Where memory is refused: then nothing was appended.
#[tactic(auto, using(crate::proofs::FrameWritten::frame_again, crate::proofs::FrameWritten::spoken_again))]
pub fn put_frame(
    out: &mut Vec<u8>,
    channel: u16,
    performative: &Performative<'_>,
    payload: &[u8],
) -> Result<(), AllocError>
    requires writable { IsWritable (view performative.now) }
    requires fits { frame_size (performative_octets (view performative.now) ++ payload.now) < 2 ^ 32 }
    ensures appended { Puts out.old.items out.new.items result (frame_octets kinds.Amqp channel (performative_octets (view performative.now) ++ payload.now)) }
    // What is written is a whole frame on this channel, where frames may have so many octets.
    ensures framed { (limit : ℕ) → frame_size (performative_octets (view performative.now) ++ payload.now) ≤ limit
        → whole_frame limit (frame_octets kinds.Amqp channel (performative_octets (view performative.now) ++ payload.now))
        ≡ Some (frame_with kinds.Amqp channel (performative_octets (view performative.now) ++ payload.now)) }
    // Its body says this performative again, with this payload.
    ensures again { performative_at (performative_octets (view performative.now) ++ payload.now) ≡ Ok (view performative.now, payload.now) }
{
    let mut body = with_room(*out.allocator());
    performative.write(&mut body)?;
    put_around(out, FrameKind::Amqp, channel, &body, payload)
}

/// No octets, with room for those of a usual performative, if there is memory for it.
fn with_room(alloc: Global) -> Vec<u8>
    ensures { result.items ≡ [] }
{
    match Vec::with_capacity(alloc, USUAL_OCTETS) {
        Ok(body) => body,
        Err(_) => Vec::new(alloc),
    }
}

/// Appends a frame whose body is these octets, and behind them the payload.
///
/// # Errors
///
/// Where memory is refused: then nothing was appended.
#[tactic(auto, unfolding(crate::specs::Writing::frame_octets), using(crate::proofs::FrameWritten::frame_again))]
pub(crate) fn put_around(
    out: &mut Vec<u8>,
    kind: FrameKind,
    channel: u16,
    body: &[u8],
    payload: &[u8],
) -> Result<(), AllocError>
    requires { frame_size (body.now ++ payload.now) < 2 ^ 32 }
    ensures appended { Puts out.old.items out.new.items result (frame_octets kind channel (body.now ++ payload.now)) }
    // Where frames may have so many octets, what is written is this frame.
    ensures again { (limit : ℕ) → frame_size (body.now ++ payload.now) ≤ limit
        → whole_frame limit (frame_octets kind channel (body.now ++ payload.now)) ≡ Some (frame_with kind channel (body.now ++ payload.now)) }
{
    let size = (HEADER_OCTETS + body.len() + payload.len()) as u32;
    out.reserve(size as usize)?;
    let shape = [DATA_OFFSET, kind as u8];
    put_parts(
        out,
        &[
            &size.to_be_bytes(),
            &shape,
            &channel.to_be_bytes(),
            body,
            payload,
        ],
    )
}
