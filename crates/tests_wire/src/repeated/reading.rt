//! The tasks that read.

use crate::repeated::task::Done;
use amqp_frames::FrameView;
use amqp_perf::{PerfFault, Performative};
use amqp_types::{Value, ValueFault};
use std::alloc::AllocError;

/// Copies the octets.
pub(crate) fn copy(out: &mut Vec<u8>, octets: &[u8], done: Done) -> Result<Done, AllocError> {
    out.extend_from_slice(octets)?;
    Ok(done.and(out.len() as u64))
}

/// Reads each frame of a stream, and the performative in it.
pub(crate) fn read_frames(octets: &[u8], done: Done) -> Done {
    let mut done = done;
    let mut rest = octets;
    for _ in 0..octets.len() {
        let Ok(Some((frame, size))) = FrameView::read(rest, u32::MAX) else {
            return done;
        };
        done = done.and(match read_performative(frame.body()) {
            Ok((performative, payload)) => said(&performative).wrapping_add(payload.len() as u64),
            Err(_) => 0,
        });
        let (_, after) = rest.split_at(size);
        rest = after;
    }
    done
}

/// A call of its own, so that nothing of what it reads is left out.
#[inline(never)]
fn read_performative(octets: &[u8]) -> Result<(Performative<'_>, &[u8]), PerfFault> {
    Performative::read(octets)
}

/// A number that the performative says.
fn said(performative: &Performative<'_>) -> u64 {
    match performative {
        Performative::Open(open) => open.container_id.len() as u64,
        Performative::Begin(begin) => u64::from(begin.incoming_window),
        Performative::Attach(attach) => u64::from(attach.handle),
        Performative::Flow(flow) => u64::from(flow.incoming_window),
        Performative::Transfer(transfer) => u64::from(transfer.handle),
        Performative::Disposition(disposition) => u64::from(disposition.first),
        Performative::Detach(detach) => u64::from(detach.handle),
        Performative::End(_) => 1,
        Performative::Close(_) => 2,
    }
}

/// Reads values, one after the other.
pub(crate) fn read_values(octets: &[u8], done: Done) -> Done {
    let mut done = done;
    let mut rest = octets;
    for _ in 0..octets.len() {
        let Ok((value, after)) = read_value(rest) else {
            return done;
        };
        done = done.and(value.raw().len() as u64);
        rest = after;
    }
    done
}

/// A call of its own, so that nothing of what it reads is left out.
#[inline(never)]
fn read_value(octets: &[u8]) -> Result<(Value<'_>, &[u8]), ValueFault> {
    Value::read(octets)
}
