//! What a capture holds, counted.

ghost use Rattle.std.specs.Prelude.{◌≡◌};
ghost use Rattle.trace_events.specs.Verdict.{tally_of};
ghost use Rattle.trace_events.specs.History.{history};

use crate::ask::walk::{Asked, walk};
use crate::past::Past;
use capture_form::{Capture, Record, RuleSet};
use trace_events::Tally;

impl<'p, 'a> Past<'p, 'a> {
    ghost use Rattle.std.specs.Prelude.{◌≡◌, ◌<◌, ◌^◌, length, count_by};
    ghost use Rattle.trace_events.specs.Credit.{begins_outgoing};
    ghost use Rattle.trace_events.specs.Verdict.{tells_outcome, tally_of};
    ghost use Rattle.trace_law.specs.OnStack.{events};

    /// How many deliveries to clients have begun.
    fn deliveries(&self) -> u64
        requires few { length (events self.now) < 2 ^ 64 }
        ensures { result ≡ count_by begins_outgoing (events self.now) }
    {
        let mut count = 0;
        let mut rest = self;
        while let Past::After(event, earlier) = rest {
            if event.begins_outgoing() {
                count += 1;
            }
            rest = *earlier;
        }
        count
    }

    /// How many outcomes were told.
    fn outcomes(&self) -> u64
        requires few { length (events self.now) < 2 ^ 64 }
        ensures { result ≡ count_by tells_outcome (events self.now) }
    {
        let mut count = 0;
        let mut rest = self;
        while let Past::After(event, earlier) = rest {
            if event.tells_outcome() {
                count += 1;
            }
            rest = *earlier;
        }
        count
    }

    /// What the events hold, so many of them.
    fn tally(&self, number: u64) -> Tally
        requires numbered { number ≡ length (events self.now) }
        ensures { result ≡ tally_of (events self.now) }
    {
        Tally {
            records: number,
            deliveries: self.deliveries(),
            outcomes: self.outcomes(),
        }
    }
}

/// What all records hold.
#[derive(Clone, Copy)]
struct Tallied;

impl Asked for Tallied {
    ghost use Rattle.std.specs.Prelude.{◌≡◌};
    ghost use Rattle.trace_events.specs.Verdict.{tally_of};

    type Answer = Tally;

    ghost is_answer = { λ asked rules past rest answer. answer ≡ tally_of past };

    fn answer<'a>(
        &self,
        rules: &RuleSet,
        past: &Past<'_, 'a>,
        number: u64,
        rest: &'a [Record],
    ) -> Tally {
        past.tally(number)
    }
}

/// What the capture holds: its records, the deliveries to clients that begin in them, and the outcomes told, whether they meet
/// the law or not. It takes stack as `slow_check` does, and no other memory.
pub fn tally_capture<'a>(capture: &'a Capture) -> Tally
    ensures { result ≡ tally_of (history capture.now.rules capture.now.records) }
{
    let records = capture.records();
    let start: Past<'_, 'a> = Past::Start;
    walk(&Tallied, capture.rules(), records, 0, records.len(), &start)
}
