//! The walk over the records of a capture: each becomes the next event on the stack, one call for each, and behind the
//! last one that counts the question is answered. So a capture of many thousand records asks for more stack than a
//! thread has; no memory of the heap is taken.

ghost use Rattle.std.specs.Prelude.{◌≡◌, ◌≤◌, length, slice_range, drop};
ghost use Rattle.trace_events.specs.History.{continued};
ghost use Rattle.trace_law.specs.OnStack.{events};

use crate::past::Past;
use capture_form::{Record, RuleSet};
use trace_events::ReadRecord;

/// What is asked of the events of a capture's first records.
pub(crate) trait Asked {
    ghost use Rattle.std.specs.Prelude.{◌≡◌, List, length};
    ghost use Rattle.capture_form.specs.declared.records.Record.{Record};
    ghost use Rattle.capture_form.specs.Rules.{RuleSet};
    ghost use Rattle.trace_law.specs.OnStack.{events};
    ghost use Rattle.trace_events.specs.View.{Events};

    type Answer;

    /// It is the answer by these rules, events and records behind them.
    ghost is_answer: { Self → RuleSet → Events → List Record → Self.Answer → Type 0 };

    /// The answer by the events so far, so many of them.
    fn answer<'a>(
        &self,
        rules: &RuleSet,
        past: &Past<'_, 'a>,
        number: u64,
        rest: &'a [Record],
    ) -> Self::Answer
        requires numbered { number ≡ length (events past.now) }
        ensures { Self.is_answer self.now rules.now (events past.now) rest.now result };
}

/// The answer once the records from `from` to `end` have followed the past.
pub(crate) fn walk<'p, 'a, Q: Asked>(
    asked: &Q,
    rules: &RuleSet,
    records: &'a [Record],
    from: usize,
    end: usize,
    past: &'p Past<'p, 'a>,
) -> Q::Answer
    requires ordered { from ≤ end }
    requires within { end ≤ length records.now }
    requires numbered { length (events past.now) ≡ from }
    ensures { Q.is_answer asked.now rules.now (continued rules.now (events past.now) (slice_range records.now from end)) (drop end records.now) result }
{
    if from == end {
        let (_, rest) = records.split_at(end);
        return asked.answer(rules, past, from as u64, rest);
    }
    let entry = ReadRecord::of(&records[from]);
    let event = past.judge(rules, from as u64, &entry);
    let here = Past::After(event, &*past);
    walk(asked, rules, &*records, from + 1, end, &here)
}
