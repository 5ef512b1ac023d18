//! Runs of a kind.

use crate::owner::ROOM;
use crate::owner::run::{Came, serve_two};
use audit_core::Verdict;
use kit_gates::Pair;
use std::alloc::{AllocError, Global};
use std::fmt;

/// How many runs came to what.
#[derive(Clone, Copy)]
pub struct CaptureCounts {
    /// The auditor accepts the capture.
    accepted: u64,
    /// It ends in the middle of a record, and is accepted up to there.
    cut: u64,
    /// None of this.
    others: u64,
}

impl CaptureCounts {
    pub const NONE: CaptureCounts = CaptureCounts {
        accepted: 0,
        cut: 0,
        others: 0,
    };

    /// That of runs of these pairs.
    ///
    /// # Errors
    ///
    /// Where memory is refused outside the server.
    pub fn of(alloc: Global, pairs: &[Pair]) -> Result<CaptureCounts, AllocError> {
        let mut tally = CaptureCounts::NONE;
        for pair in pairs {
            tally.count(serve_two(alloc, pair, ROOM)?);
        }
        Ok(tally)
    }

    /// One more run. Where a client was not shut once, or was called behind its end, it is among the others.
    pub fn count(&mut self, came: Came) {
        match came.verdict {
            Verdict::Accepted(_) if came.is_right() => {
                self.accepted = self.accepted.saturating_add(1);
            }
            Verdict::Malformed(..) if came.is_right() => {
                self.cut = self.cut.saturating_add(1);
            }
            _ => self.others = self.others.saturating_add(1),
        }
    }
}

impl fmt::Display for CaptureCounts {
    fn fmt<W: fmt::Write>(&self, f: &mut fmt::Formatter<W>) -> fmt::Result {
        let CaptureCounts {
            accepted,
            cut,
            others,
        } = self;
        write!(f, "{accepted} accepted, {cut} cut, {others} others")
    }
}
