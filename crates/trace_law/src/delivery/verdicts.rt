//! What came of the copies of a multicast delivery, and what its producer is told of them (part 3 of the standard, section
//! 3.4; own rules).

ghost use Rattle.std.specs.Prelude.{◌≡◌};
ghost use Rattle.amqp_perf.specs.View.{disposition_fields};
ghost use Rattle.trace_events.specs.BestVerdict as best;
ghost use Rattle.trace_events.specs.CopyVerdict as copies;

use crate::past::Past;
use amqp_perf::{Disposition, Outcome};
use capture_form::RuleSet;
use trace_events::{Decision, Incoming, Link, Outgoing, names};

impl<'p, 'a> Past<'p, 'a> {
    ghost use Rattle.std.specs.Prelude.{◌≡◌, ◌<◌, ◌^◌, length, option_map};
    ghost use Rattle.trace_events.specs.Outgoing.{decision};
    ghost use Rattle.trace_events.specs.Outcome.{is_sent_settled};
    ghost use Rattle.trace_law.specs.OnStack.{events};
    ghost use Rattle.trace_events.specs.View.{incoming_view, link_view, outgoing_view};

    /// The copy on the link: the delivery to its client that carries the multicast one.
    fn copy_on(&self, delivery: &Incoming, link: &Link) -> Option<Outgoing<'a>>
        ensures { option_map outgoing_view result ≡ copies.copy_on (incoming_view delivery.now) (link_view link.now) (events self.now) }
    {
        let mut rest = self;
        while let Past::After(event, earlier) = rest {
            if let Some(begun) = event.outgoing_begun() {
                if begun.link.number == link.number && names(delivery.number, begun.note) {
                    return Some(begun);
                }
            }
            rest = *earlier;
        }
        None
    }

    /// What came of a copy that was begun: what its consumer decided; or accepted, where it was sent settled.
    fn sent_verdict(&self, copy: &Outgoing) -> Option<Outcome>
        ensures { result ≡ copies.sent_verdict (decision (outgoing_view copy.now) (events self.now)) (is_sent_settled (outgoing_view copy.now) (events self.now)) }
    {
        match self.decision(copy) {
            Some(fields) => Some(decided_outcome(&fields)),
            None if copy.link.is_pre_settled && self.is_sent(copy) => Some(Outcome::Accepted),
            None => None,
        }
    }

    /// What came of the copy on the link, where one was begun.
    fn begun_verdict(&self, delivery: &Incoming, link: &Link) -> Option<Outcome>
        ensures { result ≡ copies.begun_verdict (incoming_view delivery.now) (link_view link.now) (events self.now) }
    {
        match self.copy_on(delivery, link) {
            Some(copy) => self.sent_verdict(&copy),
            None => None,
        }
    }

    /// That; modified, where the link is over without it.
    fn copy_verdict(&self, delivery: &Incoming, link: &Link) -> Option<Outcome>
        ensures { result ≡ copies.copy_verdict (incoming_view delivery.now) (link_view link.now) (events self.now) }
    {
        match self.begun_verdict(delivery, link) {
            Some(outcome) => Some(outcome),
            None if self.is_live(link) => None,
            None => Some(Outcome::Modified),
        }
    }

    /// A copy is due to the link, and has no verdict yet.
    fn awaits_verdict(&self, rules: &RuleSet, delivery: &Incoming, link: &Link) -> bool
        requires few { length (events self.now) < 2 ^ 64 }
        ensures { result ≡ copies.awaits_verdict rules.now (incoming_view delivery.now) (events self.now) (link_view link.now) }
    {
        self.is_due(rules, delivery, link) && self.copy_verdict(delivery, link).is_none()
    }
}

/// The best of the verdicts.
impl<'p, 'a> Past<'p, 'a> {
    ghost use Rattle.std.specs.Prelude.{◌≡◌, ◌<◌, ◌^◌, length};
    ghost use Rattle.trace_law.specs.Check.{told_of};
    ghost use Rattle.trace_law.specs.OnStack.{events};
    ghost use Rattle.trace_events.specs.View.{incoming_view, link_view};

    /// A copy of the delivery is due to some link.
    fn is_due_to_some(&self, rules: &RuleSet, delivery: &Incoming) -> bool
        requires few { length (events self.now) < 2 ^ 64 }
        ensures { result ≡ best.is_due_to_some rules.now (incoming_view delivery.now) (events self.now) }
    {
        let mut rest = self;
        while let Past::After(event, earlier) = rest {
            if let Some(link) = event.link {
                if link.number == event.number && self.is_due(rules, delivery, &link) {
                    return true;
                }
            }
            rest = *earlier;
        }
        false
    }

    /// Every copy that is due has its verdict.
    fn has_all_verdicts(&self, rules: &RuleSet, delivery: &Incoming) -> bool
        requires few { length (events self.now) < 2 ^ 64 }
        ensures { result ≡ best.has_all_verdicts rules.now (incoming_view delivery.now) (events self.now) }
    {
        let mut rest = self;
        while let Past::After(event, earlier) = rest {
            if let Some(link) = event.link {
                if link.number == event.number && self.awaits_verdict(rules, delivery, &link) {
                    return false;
                }
            }
            rest = *earlier;
        }
        true
    }

    /// A copy is due to the link, and this is its verdict.
    fn is_verdict(
        &self,
        rules: &RuleSet,
        delivery: &Incoming,
        outcome: Outcome,
        link: &Link,
    ) -> bool
        requires few { length (events self.now) < 2 ^ 64 }
        ensures { result ≡ best.is_verdict rules.now (incoming_view delivery.now) (events self.now) outcome (link_view link.now) }
    {
        match self.copy_verdict(delivery, link) {
            Some(verdict) => {
                is_same_outcome(outcome, verdict) && self.is_due(rules, delivery, link)
            }
            None => false,
        }
    }

    /// Some copy has this verdict.
    fn has_verdict(&self, rules: &RuleSet, delivery: &Incoming, outcome: Outcome) -> bool
        requires few { length (events self.now) < 2 ^ 64 }
        ensures { result ≡ best.has_verdict rules.now (incoming_view delivery.now) (events self.now) outcome }
    {
        let mut rest = self;
        while let Past::After(event, earlier) = rest {
            if let Some(link) = event.link {
                if link.number == event.number && self.is_verdict(rules, delivery, outcome, &link) {
                    return true;
                }
            }
            rest = *earlier;
        }
        false
    }

    /// The best of the verdicts: accepted before modified, rejected and released; accepted too where no copy is due.
    fn best_verdict(&self, rules: &RuleSet, delivery: &Incoming) -> Outcome
        requires few { length (events self.now) < 2 ^ 64 }
        ensures { result ≡ best.best_verdict rules.now (incoming_view delivery.now) (events self.now) }
    {
        if !self.is_due_to_some(rules, delivery)
            || self.has_verdict(rules, delivery, Outcome::Accepted)
        {
            Outcome::Accepted
        } else if self.has_verdict(rules, delivery, Outcome::Modified) {
            Outcome::Modified
        } else if self.has_verdict(rules, delivery, Outcome::Rejected) {
            Outcome::Rejected
        } else {
            Outcome::Released
        }
    }

    /// The verdict of the whole delivery: the best one, where every copy that is due has its own.
    pub(crate) fn whole_verdict(&self, rules: &RuleSet, delivery: &Incoming) -> Option<Outcome>
        requires few { length (events self.now) < 2 ^ 64 }
        ensures { result ≡ best.whole_verdict rules.now (incoming_view delivery.now) (events self.now) }
    {
        if self.has_all_verdicts(rules, delivery) {
            Some(self.best_verdict(rules, delivery))
        } else {
            None
        }
    }

    /// What the producer of a multicast delivery is told: once it is complete and each copy has its verdict, the best.
    pub(crate) fn told_of(&self, rules: &RuleSet, delivery: &Incoming) -> Option<Outcome>
        requires few { length (events self.now) < 2 ^ 64 }
        ensures { result ≡ told_of rules.now (events self.now) (incoming_view delivery.now) }
    {
        if self.is_of_multicast(rules, delivery) && self.is_complete(delivery) {
            self.whole_verdict(rules, delivery)
        } else {
            None
        }
    }
}

/// What a consumer decides: its terminal state's outcome, and accepted without one.
fn decided_outcome(fields: &Disposition) -> Outcome
    ensures { result ≡ copies.decided_outcome (disposition_fields fields.now) }
{
    match Decision::of_disposition(fields) {
        Decision::Terminal(outcome, _) => outcome,
        Decision::Settled => Outcome::Accepted,
    }
}

/// Both are the same outcome.
fn is_same_outcome(one: Outcome, other: Outcome) -> bool
    ensures { result ≡ best.is_same_outcome one other }
{
    matches!(
        (one, other),
        (Outcome::Accepted, Outcome::Accepted)
            | (Outcome::Rejected, Outcome::Rejected)
            | (Outcome::Released, Outcome::Released)
            | (Outcome::Modified, Outcome::Modified)
    )
}
