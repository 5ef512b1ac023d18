//! What a producer says whose message comes in two transfers, parted anywhere.

use crate::script::{
    AMQP_HEADER, BEGIN, CLOSE, FIRST_PART, LATER_PART, MESSAGE, PRODUCER_OPEN, RELAY_ATTACH,
    TO_NOBODY,
};
use std::alloc::{AllocError, Global};

/// What stands in front of a performative: the frame's size behind its first octets, and then that it is one of AMQP on channel 0.
const FRAME_HEAD: usize = 8;

/// All that the producer of `RELAY_IN_TWO` says, where so many octets of its message stand in the first transfer; all of them, where
/// it has fewer.
///
/// # Errors
///
/// Where memory is refused.
pub fn stream_parted(alloc: Global, front: usize) -> Result<Vec<u8>, AllocError> {
    let (first, later) = MESSAGE.split_at(front.min(MESSAGE.len()));
    let mut stream = Vec::new(alloc);
    for octets in [AMQP_HEADER, PRODUCER_OPEN, BEGIN, RELAY_ATTACH] {
        stream.extend_from_slice(octets)?;
    }
    put_frame(&mut stream, FIRST_PART, first)?;
    put_frame(&mut stream, LATER_PART, later)?;
    stream.extend_from_slice(TO_NOBODY)?;
    stream.extend_from_slice(CLOSE)?;
    Ok(stream)
}

/// Puts a frame on channel 0, of at most 255 octets.
fn put_frame(stream: &mut Vec<u8>, performative: &[u8], payload: &[u8]) -> Result<(), AllocError> {
    let len = FRAME_HEAD
        .saturating_add(performative.len())
        .saturating_add(payload.len());
    stream.extend_from_slice(&[0, 0, 0, len.min(255) as u8, 2, 0, 0, 0])?;
    stream.extend_from_slice(performative)?;
    stream.extend_from_slice(payload)
}
