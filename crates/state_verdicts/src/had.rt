//! Which verdicts the copies of one delivery have.

ghost use Rattle.std.specs.Prelude.{◌≡◌, ◌||◌, false};
ghost use Rattle.amqp_perf.specs.declared.descriptor.Outcome.{Outcome};
ghost use Rattle.trace_events.specs.BestVerdict.{is_same_outcome};
ghost use Rattle.state_verdicts.specs.Verdicts.{best_of, says};

use amqp_perf::Outcome;

/// For each outcome whether some copy has it as its verdict.
#[derive(Clone, Copy)]
pub(crate) struct Had {
    accepted: bool,
    modified: bool,
    rejected: bool,
    released: bool,
}

impl Had {
    /// No copy has one.
    pub(crate) fn none() -> Had
        ensures { (outcome : Outcome) → says result outcome ≡ false }
    {
        Had {
            accepted: false,
            modified: false,
            rejected: false,
            released: false,
        }
    }

    /// And one has this.
    pub(crate) fn and(mut self, verdict: Outcome) -> Had
        ensures { (outcome : Outcome) → says result outcome ≡ (says self outcome || is_same_outcome outcome verdict) }
    {
        match verdict {
            Outcome::Accepted => self.accepted = true,
            Outcome::Modified => self.modified = true,
            Outcome::Rejected => self.rejected = true,
            Outcome::Released => self.released = true,
        }
        self
    }

    /// The best of them: accepted before modified, rejected and released; accepted too where there is none.
    pub(crate) fn best(&self) -> Outcome
        ensures { result ≡ best_of (says self.now) }
    {
        if self.accepted {
            Outcome::Accepted
        } else if self.modified {
            Outcome::Modified
        } else if self.rejected {
            Outcome::Rejected
        } else if self.released {
            Outcome::Released
        } else {
            Outcome::Accepted
        }
    }
}
