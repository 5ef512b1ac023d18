//! How many runs came to what.

ghost use Rattle.std.specs.Prelude.{◌<◌, ◌≤◌};

use crate::workers::served::{Served, serve_two};
use audit_core::Verdict;
use kit_gates::Pair;
use std::alloc::{AllocError, Global};
use std::fmt;
use std::sync::Wait;
use std::thread::Threads;

/// How many runs came to a report whose capture the auditor accepts, and how many did not.
#[derive(Clone, Copy)]
pub struct ReportCounts {
    accepted: u64,
    others: u64,
    /// How many devices failed in those that are accepted.
    failures: u64,
}

impl ReportCounts {
    pub const NONE: ReportCounts = ReportCounts {
        accepted: 0,
        others: 0,
        failures: 0,
    };

    /// Serves two clients by so many workers, and counts what came of it.
    pub fn count_pair<R: Threads + Wait + Sync>(
        &mut self,
        rt: &R,
        alloc: Global,
        workers: usize,
        pair: &Pair,
    ) -> Result<(), AllocError>
        requires some { 0 < workers }
        requires few { workers ≤ 64 }
    {
        self.count(serve_two(rt, alloc, workers, pair)?);
        Ok(())
    }

    /// The same of each of these pairs.
    pub fn count_all<R: Threads + Wait + Sync>(
        &mut self,
        rt: &R,
        alloc: Global,
        workers: usize,
        pairs: &[Pair],
    ) -> Result<(), AllocError>
        requires some { 0 < workers }
        requires few { workers ≤ 64 }
    {
        for pair in pairs {
            self.count_pair(rt, alloc, workers, pair)?;
        }
        Ok(())
    }

    /// How many devices failed in those that are accepted.
    pub fn failures(&self) -> u64 {
        self.failures
    }

    fn count(&mut self, served: Served) {
        let is_accepted = match served {
            Served::Report(verdict, _, failures) => {
                self.failures = self.failures.saturating_add(failures);
                matches!(verdict, Verdict::Accepted(_))
            }
            Served::NotAlone
            | Served::NotLost
            | Served::OtherOctets
            | Served::CoreFailed(_)
            | Served::Fault(_) => false,
        };
        let count = if is_accepted {
            &mut self.accepted
        } else {
            &mut self.others
        };
        *count = count.saturating_add(1);
    }
}

impl fmt::Display for ReportCounts {
    fn fmt<W: fmt::Write>(&self, f: &mut fmt::Formatter<W>) -> fmt::Result {
        write!(f, "{} accepted, {} others", self.accepted, self.others)
    }
}

/// In how many runs both clients were content, and the capture has one delivery to a client and two outcomes, and in how many not.
#[derive(Clone, Copy)]
pub struct Relays {
    content: u64,
    others: u64,
}

impl Relays {
    pub const NONE: Relays = Relays {
        content: 0,
        others: 0,
    };

    /// One more run.
    pub fn count(&mut self, served: Served) {
        let count = match served {
            Served::Report(Verdict::Accepted(tally), true, _)
                if tally.deliveries == 1 && tally.outcomes == 2 => { &mut self.content }
            _ => &mut self.others,
        };
        *count = count.saturating_add(1);
    }
}

impl fmt::Display for Relays {
    fn fmt<W: fmt::Write>(&self, f: &mut fmt::Formatter<W>) -> fmt::Result {
        write!(
            f,
            "{} of one delivery and two outcomes, {} others",
            self.content, self.others
        )
    }
}
