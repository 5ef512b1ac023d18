//! What an engine takes from its port.

ghost use Rattle.std.specs.Prelude.{◌≡◌, true, false, IfOk, OnOk, OnErr};
ghost use Rattle.conn_engine.specs.Taking.{IsRefilled, TookFrames, TookFrame};

use crate::frame_ends::FrameEnds;
use crate::output::Output;
use crate::port::Port;
use std::alloc::AllocError;

/// Where so many octets wait, no more frames are taken: four of the largest.
pub(crate) const ENOUGH_OCTETS: usize = 65536;

/// Takes frames of a port until it has none or enough octets wait, from the record numbered `next` on, and keeps where
/// the first open and the first close end. The port holds in between.
///
/// # Errors
///
/// Where the memory for a frame is refused. Those before it were taken.
pub(crate) fn take_frames<P: Port>(
    port: &mut P,
    output: &mut Output,
    next: &mut u64,
    frame_ends: &mut FrameEnds,
) -> Result<(), AllocError>
    ensures took { TookFrames (P.frames port.old) (P.frames port.new) output.old output.new frame_ends.old frame_ends.new }
    ensures all { OnOk result (IsRefilled (P.is_idle port.new) output.new) }
    ensures items { P.items port.new ≡ P.items port.old }
    ensures connection { P.connection port.new ≡ P.connection port.old }
{
    port.hold();
    let taken = take_all_frames(port, output, next, frame_ends);
    port.rest();
    taken
}

/// Takes frames of a port until it has none or enough octets wait.
///
/// # Errors
///
/// Where the memory for a frame is refused. Those before it were taken.
fn take_all_frames<P: Port>(
    port: &mut P,
    output: &mut Output,
    next: &mut u64,
    frame_ends: &mut FrameEnds,
) -> Result<(), AllocError>
    ensures took { TookFrames (P.frames port.old) (P.frames port.new) output.old output.new frame_ends.old frame_ends.new }
    ensures all { OnOk result (IsRefilled (P.is_idle port.new) output.new) }
    ensures items { P.items port.new ≡ P.items port.old }
    ensures connection { P.connection port.new ≡ P.connection port.old }
{
    while output.waiting().len() < ENOUGH_OCTETS {
        match take_frame(port, output, next, frame_ends) {
            Ok(true) => {}
            Ok(false) => return Ok(()),
            Err(fault) => return Err(fault),
        }
    }
    Ok(())
}

/// Takes the next frame of a port, if it has one.
fn take_frame<P: Port>(
    port: &mut P,
    output: &mut Output,
    next: &mut u64,
    frame_ends: &mut FrameEnds,
) -> Result<bool, AllocError>
    ensures ok { IfOk result (TookFrame (P.frames port.old) (P.frames port.new) output.old output.new frame_ends.old frame_ends.new next.old next.new) }
    ensures none { IfOk result (λ taken. taken ≡ false → P.is_idle port.new ≡ true) }
    ensures err { OnErr result ((P.frames port.new ≡ P.frames port.old) × (output.new ≡ output.old) × (frame_ends.new ≡ frame_ends.old) × (next.new ≡ next.old)) }
    ensures items { P.items port.new ≡ P.items port.old }
    ensures connection { P.connection port.new ≡ P.connection port.old }
{
    let before = output.waiting().len();
    match output.take_from(port, *next) {
        Ok(Some(number)) => {
            *next = number + 1;
            *frame_ends = frame_ends.with_frame(output.waiting(), before);
            Ok(true)
        }
        Ok(None) => Ok(false),
        Err(fault) => Err(fault),
    }
}
