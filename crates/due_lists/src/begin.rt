//! A delivery that is due to begin.

use trace_events::{Incoming, Link};

/// A delivery that is due to begin on a consumer's link: one that waits, or a copy; with its payload.
#[derive(Clone, Copy)]
pub struct DueBegin<'t> {
    pub link: Link<'t>,
    pub delivery: Incoming<'t>,
    pub payload: &'t [u8],
}
