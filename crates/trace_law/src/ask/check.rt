//! The plain checker: what the law says of a capture at one of its records, computed from the records below it anew each
//! time.

ghost use Rattle.std.specs.Prelude.{◌≡◌, ◌<◌, length};
ghost use Rattle.trace_law.specs.Check as checked;

use crate::ask::walk::{Asked, walk};
use crate::past::Past;
use amqp_perf::Outcome;
use capture_form::{Capture, Record, RuleSet};
use trace_events::Clause;

/// How many transfers may still be sent on the live session of a channel.
#[derive(Clone, Copy)]
struct WindowOn {
    connection: u32,
    channel: u16,
}

impl Asked for WindowOn {
    ghost use Rattle.std.specs.Prelude.{◌≡◌};
    ghost use Rattle.trace_law.specs.Check.{window_on};

    type Answer = Option<u32>;

    ghost is_answer = { λ asked rules past rest answer. answer ≡ window_on asked.connection asked.channel past };

    fn answer<'a>(
        &self,
        rules: &RuleSet,
        past: &Past<'_, 'a>,
        number: u64,
        rest: &'a [Record],
    ) -> Option<u32> {
        let session = past.live_session(self.connection, self.channel)?;
        Some(past.session_window(session))
    }
}

/// How many deliveries may still begin on the live link of a handle.
#[derive(Clone, Copy)]
struct CreditOn {
    connection: u32,
    channel: u16,
    handle: u32,
}

impl Asked for CreditOn {
    ghost use Rattle.std.specs.Prelude.{◌≡◌};
    ghost use Rattle.trace_law.specs.Check.{credit_on};

    type Answer = Option<u32>;

    ghost is_answer = { λ asked rules past rest answer. answer ≡ credit_on asked.connection asked.channel asked.handle past };

    fn answer<'a>(
        &self,
        rules: &RuleSet,
        past: &Past<'_, 'a>,
        number: u64,
        rest: &'a [Record],
    ) -> Option<u32> {
        let link = past.live_link(self.connection, self.channel, self.handle)?;
        if link.is_consumer() {
            Some(past.link_credit(&link))
        } else {
            None
        }
    }
}

/// Whether the delivery that begins in a record waits for a consumer.
#[derive(Clone, Copy)]
struct Waits {
    delivery: u64,
}

impl Asked for Waits {
    ghost use Rattle.std.specs.Prelude.{◌≡◌};
    ghost use Rattle.trace_law.specs.Check.{waits};

    type Answer = bool;

    ghost is_answer = { λ asked rules past rest answer. answer ≡ waits rules asked.delivery past };

    fn answer<'a>(
        &self,
        rules: &RuleSet,
        past: &Past<'_, 'a>,
        number: u64,
        rest: &'a [Record],
    ) -> bool {
        match past.incoming_at(self.delivery) {
            Some(delivery) => past.is_waiting(rules, &delivery),
            None => false,
        }
    }
}

/// What the producer of the multicast delivery that begins in a record would be told.
#[derive(Clone, Copy)]
struct BestVerdict {
    delivery: u64,
}

impl Asked for BestVerdict {
    ghost use Rattle.std.specs.Prelude.{◌≡◌};
    ghost use Rattle.trace_law.specs.Check.{best_at};

    type Answer = Option<Outcome>;

    ghost is_answer = { λ asked rules past rest answer. answer ≡ best_at rules asked.delivery past };

    fn answer<'a>(
        &self,
        rules: &RuleSet,
        past: &Past<'_, 'a>,
        number: u64,
        rest: &'a [Record],
    ) -> Option<Outcome> {
        past.told_of(rules, &past.incoming_at(self.delivery)?)
    }
}

/// The first clause that the next record breaks.
#[derive(Clone, Copy)]
struct BrokenByNext;

impl Asked for BrokenByNext {
    ghost use Rattle.std.specs.Prelude.{◌≡◌};
    ghost use Rattle.trace_law.specs.Check.{broken_by_first};

    type Answer = Option<Clause>;

    ghost is_answer = { λ asked rules past rest answer. answer ≡ broken_by_first rules past rest };

    fn answer<'a>(
        &self,
        rules: &RuleSet,
        past: &Past<'_, 'a>,
        number: u64,
        rest: &'a [Record],
    ) -> Option<Clause> {
        past.broken_by(rules, number, rest.first()?)
    }
}

/// Whether the record of this number meets the law, by those before it. It takes no memory of the heap, but a call on the
/// stack for each of these: for many thousand records that is more stack than a thread has.
///
/// `Ok` says that it breaks no clause; one that is no frame of the router's never does. Of the records before it nothing is
/// said: they are taken as they stand, also where one breaks a clause.
///
/// # Errors
///
/// The first clause that it breaks.
pub fn slow_check<'a>(capture: &'a Capture, i: usize) -> Result<(), Clause>
    requires { i < length capture.now.records }
    ensures { result ≡ checked.as_checked (checked.clause_broken_by i capture.now) }
{
    let records = capture.records();
    let start: Past<'_, 'a> = Past::Start;
    match walk(&BrokenByNext, capture.rules(), records, 0, i, &start) {
        None => Ok(()),
        Some(clause) => Err(clause),
    }
}

/// How many transfers may still be sent on the live session of a channel, by the records below this number (by all, where
/// there are fewer); `None` where no session is live there. It takes stack as `slow_check` does, and no other memory.
pub fn window_at<'a>(capture: &'a Capture, i: usize, conn: u32, channel: u16) -> Option<u32>
    ensures { result ≡ checked.window_on conn channel (checked.events_below i capture.now) }
{
    let records = capture.records();
    let end = i.min(records.len());
    let window = WindowOn {
        connection: conn,
        channel,
    };
    let start: Past<'_, 'a> = Past::Start;
    walk(&window, capture.rules(), records, 0, end, &start)
}

/// How many deliveries may still begin on the live link of a handle, by the records below this number (by all, where there
/// are fewer); `None` where no consumer's link is live there. It takes stack as `slow_check` does, and no other memory.
pub fn credit_at<'a>(
    capture: &'a Capture,
    i: usize,
    conn: u32,
    channel: u16,
    handle: u32,
) -> Option<u32>
    ensures { result ≡ checked.credit_on conn channel handle (checked.events_below i capture.now) }
{
    let records = capture.records();
    let end = i.min(records.len());
    let credit = CreditOn {
        connection: conn,
        channel,
        handle,
    };
    let start: Past<'_, 'a> = Past::Start;
    walk(&credit, capture.rules(), records, 0, end, &start)
}

/// Whether the delivery that begins in record `d` waits for a consumer, by the records below this number (by all, where
/// there are fewer): it is complete, not of multicast, and went to no consumer, and its address has had one from its completion
/// on. `false` also where no delivery of a client's begins in that record. It takes stack as `slow_check` does, and no other
/// memory.
pub fn waiting_at<'a>(capture: &'a Capture, i: usize, d: u64) -> bool
    ensures { result ≡ checked.waits capture.now.rules d (checked.events_below i capture.now) }
{
    let records = capture.records();
    let end = i.min(records.len());
    let start: Past<'_, 'a> = Past::Start;
    walk(
        &Waits { delivery: d },
        capture.rules(),
        records,
        0,
        end,
        &start,
    )
}

/// What the producer of the multicast delivery that begins in record `d` would be told, by the records below this number (by
/// all, where there are fewer): the best of the verdicts of its copies, once it is complete and each that is due has one;
/// `None` before, and of another delivery. It takes stack as `slow_check` does, and no other memory.
pub fn best_verdict_at<'a>(capture: &'a Capture, i: usize, d: u64) -> Option<Outcome>
    ensures { result ≡ checked.best_at capture.now.rules d (checked.events_below i capture.now) }
{
    let records = capture.records();
    let end = i.min(records.len());
    let start: Past<'_, 'a> = Past::Start;
    walk(
        &BestVerdict { delivery: d },
        capture.rules(),
        records,
        0,
        end,
        &start,
    )
}
