//! The copies of a multicast delivery: to whose links one is due, and which of them are sent.

use crate::past::Past;
use capture_form::RuleSet;
use trace_events::{Incoming, Link, has_multicast};

impl<'p, 'a> Past<'p, 'a> {
    ghost use Rattle.std.specs.Prelude.{◌≡◌, ◌<◌, ◌^◌, length};
    ghost use Rattle.trace_events.specs.Due as law;
    ghost use Rattle.trace_law.specs.Copied.{copied_at, due_at};
    ghost use Rattle.trace_law.specs.OnStack.{events};
    ghost use Rattle.trace_events.specs.View.{link_view, incoming_view};

    /// The multicast delivery that the last event completes is for the link: one of a consumer of its address, live before it.
    fn is_copied_to(&self, rules: &RuleSet, link: &Link) -> bool
        ensures { result ≡ copied_at rules.now (link_view link.now) (events self.now) }
    {
        let Past::After(event, earlier) = self else {
            return false;
        };
        let Some(delivery) = event.completed_by() else {
            return false;
        };
        let address = self.address_of(&delivery);
        has_multicast(rules, address.octets()) && earlier.is_consumer_of(address.octets(), link)
    }

    /// A copy of that delivery is due: the link's credit before the event exceeds the copies that are still to be sent, of `due`
    /// that were due before.
    fn makes_due(&self, rules: &RuleSet, link: &Link, due: u64) -> bool
        requires few { length (events self.now) < 2 ^ 64 }
        ensures { result ≡ due_at rules.now (link_view link.now) (events self.now) due }
    {
        let Past::After(_, earlier) = self else {
            return false;
        };
        self.is_copied_to(rules, link)
            && due.saturating_sub(earlier.begun_count(link)) < u64::from(earlier.link_credit(link))
    }

    /// How many copies were due to the link.
    #[tactic(auto, using(crate::proofs::Copies::few_due))]
    fn due_count(&self, rules: &RuleSet, link: &Link) -> u64
        requires few { length (events self.now) < 2 ^ 64 }
        ensures { result ≡ law.due_count rules.now (link_view link.now) (events self.now) }
    {
        match self {
            Past::Start => 0,
            Past::After(_, earlier) => {
                let before = earlier.due_count(rules, link);
                if self.makes_due(rules, link, before) {
                    before + 1
                } else {
                    before
                }
            }
        }
    }

    /// A copy of the delivery is due to the link.
    pub(crate) fn is_due(&self, rules: &RuleSet, delivery: &Incoming, link: &Link) -> bool
        requires few { length (events self.now) < 2 ^ 64 }
        ensures { result ≡ law.is_due rules.now (incoming_view delivery.now) (link_view link.now) (events self.now) }
    {
        let mut rest = self;
        while let Past::After(event, earlier) = rest {
            if event.completes(delivery) {
                let before = earlier.due_count(rules, link);
                return rest.makes_due(rules, link, before);
            }
            rest = *earlier;
        }
        false
    }

    /// And no transfer on the link has named the delivery.
    pub(crate) fn is_unsent(&self, rules: &RuleSet, delivery: &Incoming, link: &Link) -> bool
        requires few { length (events self.now) < 2 ^ 64 }
        ensures { result ≡ law.is_unsent rules.now (incoming_view delivery.now) (link_view link.now) (events self.now) }
    {
        !self.is_named_on(delivery, link) && self.is_due(rules, delivery, link)
    }

    /// A copy is still to be sent on the link.
    pub(crate) fn has_unsent(&self, rules: &RuleSet, link: &Link) -> bool
        requires few { length (events self.now) < 2 ^ 64 }
        ensures { result ≡ law.has_unsent rules.now (link_view link.now) (events self.now) }
    {
        let mut rest = self;
        while let Past::After(event, earlier) = rest {
            if let Some(delivery) = event.incoming {
                if delivery.number == event.number && self.is_unsent(rules, &delivery, link) {
                    return true;
                }
            }
            rest = *earlier;
        }
        false
    }
}
