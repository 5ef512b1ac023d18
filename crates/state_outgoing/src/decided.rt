//! What the consumer of a delivery decided, with octets of its own (part 3 of the standard, section 3.4).

ghost use Rattle.std.specs.Prelude.{◌≡◌, IfOk, OnErr, is_some, true};
ghost use Rattle.state_outgoing.specs.Sent.{outcome_of};
ghost use Rattle.state_outgoing.specs.SentViews.{decided_view};
ghost use Rattle.trace_events.specs.View.{decision_view};

use amqp_perf::Outcome;
use std::alloc::{AllocError, Global};
use trace_events::Decision;

/// What a consumer decided.
#[doc(hidden)]
#[derive(Drop)]
pub enum Decided {
    /// It settled, and told no outcome.
    Settled,
    /// A terminal state: its outcome, and its octets.
    Terminal(Outcome, Vec<u8>),
}

impl Decided {
    /// A copy of it.
    ///
    /// # Errors
    ///
    /// Memory was refused, for the octets of a terminal state.
    pub(crate) fn new(alloc: Global, decision: &Decision) -> Result<Decided, AllocError>
        ensures copied { IfOk result (λ own. decided_view own ≡ decision_view decision.now) }
        ensures state { OnErr result (is_some (decision_view decision.now) ≡ true) }
    {
        let Decision::Terminal(outcome, raw) = *decision else {
            return Ok(Decided::Settled);
        };
        let mut octets = Vec::new(alloc);
        octets.extend_from_slice(raw)?;
        Ok(Decided::Terminal(outcome, octets))
    }

    /// The decision, with the octets lent.
    pub(crate) fn decision(&self) -> Decision<'_>
        ensures { decision_view result ≡ decided_view self.now }
    {
        match self {
            Decided::Settled => Decision::Settled,
            Decided::Terminal(outcome, octets) => Decision::Terminal(*outcome, octets),
        }
    }

    /// Its outcome; accepted, where it told none.
    pub(crate) fn outcome(&self) -> Outcome
        ensures { result ≡ outcome_of (decided_view self.now) }
    {
        match self {
            Decided::Settled => Outcome::Accepted,
            Decided::Terminal(outcome, _) => *outcome,
        }
    }
}
