//! What becomes of a delivery from a client: whether it waits for a consumer, is gone, or is decided (own rules).

use crate::past::Past;
use capture_form::RuleSet;
use pairing_cert::Note;
use trace_events::{Incoming, Link, Session};

impl<'p, 'a> Past<'p, 'a> {
    ghost use Rattle.std.specs.Prelude.{◌≡◌, ◌<◌, ◌^◌, ◌&&◌, length, bytes_eq, option_map};
    ghost use Rattle.trace_events.specs.Incoming.{address_of};
    ghost use Rattle.trace_events.specs.TransferClause.{to_carry};
    ghost use Rattle.trace_events.specs.Fault.{is_id_in_use};
    ghost use Rattle.trace_events.specs.Waiting as law;
    ghost use Rattle.trace_law.specs.OnStack.{events};
    ghost use Rattle.trace_events.specs.View.{link_view, incoming_view};

    /// At each moment since the delivery's completion its address had a consumer.
    fn always_had_consumer(&self, delivery: &Incoming) -> bool
        ensures { result ≡ law.always_had_consumer (incoming_view delivery.now) (events self.now) }
    {
        let mut rest = self;
        while let Past::After(event, earlier) = rest {
            if !rest.has_consumer(rest.address_of(delivery).octets()) {
                return false;
            }
            if event.completes(delivery) {
                return true;
            }
            rest = *earlier;
        }
        false
    }

    /// An anycast delivery that is complete, and that went to no consumer.
    fn is_unpaired(&self, rules: &RuleSet, delivery: &Incoming) -> bool
        ensures { result ≡ law.is_unpaired rules.now (incoming_view delivery.now) (events self.now) }
    {
        !self.is_of_multicast(rules, delivery)
            && !self.is_paired(delivery)
            && self.is_complete(delivery)
    }

    /// It waits for a consumer that may be sent it.
    pub(crate) fn is_waiting(&self, rules: &RuleSet, delivery: &Incoming) -> bool
        ensures { result ≡ law.is_waiting rules.now (incoming_view delivery.now) (events self.now) }
    {
        self.is_unpaired(rules, delivery) && self.always_had_consumer(delivery)
    }

    /// It found no consumer, or lost the last one, and goes to none any more.
    pub(crate) fn is_gone(&self, rules: &RuleSet, delivery: &Incoming) -> bool
        ensures { result ≡ law.is_gone rules.now (incoming_view delivery.now) (events self.now) }
    {
        self.is_unpaired(rules, delivery) && !self.always_had_consumer(delivery)
    }

    /// The delivery that a note names, where it may go to consumers: it is complete, and not gone.
    pub(crate) fn to_carry(&self, rules: &RuleSet, note: Note) -> Option<Incoming<'a>>
        ensures { option_map incoming_view result ≡ to_carry rules.now note (events self.now) }
    {
        let delivery = self.noted(note)?;
        if self.is_complete(&delivery) && !self.is_gone(rules, &delivery) {
            Some(delivery)
        } else {
            None
        }
    }

    /// Of a live link: it isn't complete, it waits, or it is neither settled nor told; an aborted one is decided.
    pub(crate) fn is_undecided(&self, rules: &RuleSet, delivery: &Incoming) -> bool
        ensures { result ≡ law.is_undecided rules.now (incoming_view delivery.now) (events self.now) }
    {
        if self.is_aborted(delivery) || !self.is_live(&delivery.link) {
            return false;
        }
        if !self.is_settled(delivery) && !self.is_told(delivery) {
            return true;
        }
        !self.is_complete(delivery) || self.is_waiting(rules, delivery)
    }

    /// How many undecided deliveries the link has.
    pub(crate) fn undecided_count(&self, rules: &RuleSet, link: &Link) -> u64
        requires few { length (events self.now) < 2 ^ 64 }
        ensures { result ≡ law.undecided_count rules.now (link_view link.now) (events self.now) }
    {
        let mut count = 0;
        let mut rest = self;
        while let Past::After(event, earlier) = rest {
            if let Some(delivery) = event.incoming_begun() {
                if delivery.link.number == link.number && self.is_undecided(rules, &delivery) {
                    count += 1;
                }
            }
            rest = *earlier;
        }
        count
    }

    /// It is the undecided delivery of this id on the session.
    pub(crate) fn is_undecided_of(
        &self,
        rules: &RuleSet,
        session: Session,
        id: u32,
        delivery: &Incoming,
    ) -> bool
        ensures { result ≡ law.is_undecided_of rules.now session id (events self.now) (incoming_view delivery.now) }
    {
        delivery.link.session.number == session.number
            && delivery.id == Some(id)
            && self.is_undecided(rules, delivery)
    }

    /// The delivery waits, and at this address.
    fn is_waiting_at(&self, rules: &RuleSet, address: &[u8], delivery: &Incoming) -> bool
        ensures { result ≡ (bytes_eq (address_of (incoming_view delivery.now) (events self.now)) address.now
            && law.is_waiting rules.now (incoming_view delivery.now) (events self.now)) }
    {
        self.is_for(delivery, address) && self.is_waiting(rules, delivery)
    }

    /// A delivery waits at the address.
    pub(crate) fn has_waiting(&self, rules: &RuleSet, address: &[u8]) -> bool
        ensures { result ≡ law.has_waiting rules.now address.now (events self.now) }
    {
        let mut rest = self;
        while let Past::After(event, earlier) = rest {
            if let Some(delivery) = event.incoming_begun() {
                if self.is_waiting_at(rules, address, &delivery) {
                    return true;
                }
            }
            rest = *earlier;
        }
        false
    }

    /// A delivery of this id on the session isn't decided yet.
    pub(crate) fn is_id_in_use(&self, rules: &RuleSet, session: Session, id: u32) -> bool
        ensures { result ≡ is_id_in_use rules.now session id (events self.now) }
    {
        let mut rest = self;
        while let Past::After(event, earlier) = rest {
            if let Some(delivery) = event.incoming_begun() {
                if self.is_undecided_of(rules, session, id, &delivery) {
                    return true;
                }
            }
            rest = *earlier;
        }
        false
    }
}
