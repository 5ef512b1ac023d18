//! The tasks that write.

use crate::repeated::task::Done;
use amqp_perf::{Disposition, Flow, Outcome, State, Transfer};
use std::alloc::AllocError;

/// Writes the flow of a link.
pub(crate) fn write_flow(out: &mut Vec<u8>, number: u32, done: Done) -> Result<Done, AllocError> {
    Flow::of_session(number, 2)
        .of_link(3, number, 100, false)
        .write(out)?;
    Ok(done.and(out.len() as u64))
}

/// Writes the first transfer of a delivery.
pub(crate) fn write_transfer(
    out: &mut Vec<u8>,
    number: u32,
    done: Done,
) -> Result<Done, AllocError> {
    Transfer::first(3, number, b"\x00\x00\x00\x01", 0, false, false).write(out)?;
    Ok(done.and(out.len() as u64))
}

/// Writes the disposition of one delivery that was accepted.
pub(crate) fn write_disposition(
    out: &mut Vec<u8>,
    number: u32,
    done: Done,
) -> Result<Done, AllocError> {
    let state = State::of_outcome(Outcome::Accepted);
    Disposition::outcome(number, Some(state)).write(out)?;
    Ok(done.and(out.len() as u64))
}
