//! Whole frames.

ghost use Rattle.std.specs.Prelude.{◌≤◌, ◌<◌, ◌^◌, length};
ghost use Rattle.flow_counts.specs.declared.profile.TheConstants.{MAX_FRAME_SIZE};
ghost use Rattle.amqp_types.specs.Writing.{Puts};
ghost use Rattle.amqp_perf.specs.View.{view};
ghost use Rattle.amqp_perf.specs.Writing.{IsWritable};
ghost use Rattle.trace_events.specs.Written.{spoken_octets};
ghost use Rattle.route_dues.specs.Writing.{spoken_with, IsReadAgain};

use amqp_frames::put_frame;
use amqp_perf::Performative;
use std::alloc::AllocError;

/// Appends a frame.
///
/// # Errors
///
/// Where memory is refused: then nothing was appended.
#[tactic(auto, unfolding(trace_events::specs::Written::spoken_octets))]
pub(crate) fn put_spoken(
    out: &mut Vec<u8>,
    channel: u16,
    performative: &Performative<'_>,
    payload: &[u8],
) -> Result<(), AllocError>
    requires writable { IsWritable (view performative.now) }
    requires fits { length (spoken_octets (spoken_with channel (view performative.now) payload.now)) < 2 ^ 32 }
    ensures appended { Puts out.old.items out.new.items result (spoken_octets (spoken_with channel (view performative.now) payload.now)) }
    // It is read again, where frames may be so long.
    ensures again { length (spoken_octets (spoken_with channel (view performative.now) payload.now)) ≤ MAX_FRAME_SIZE → IsReadAgain (spoken_with channel (view performative.now) payload.now) }
{
    put_frame(out, channel, performative, payload)
}
