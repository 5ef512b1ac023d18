//! Which delivery the router settles with its consumer, and which one an outcome is told of (part 2 of the standard,
//! section 2.6.12; own rules).

use crate::past::Past;
use capture_form::RuleSet;
use trace_events::{Incoming, Outgoing, Session};

impl<'p, 'a> Past<'p, 'a> {
    ghost use Rattle.std.specs.Prelude.{◌≡◌, ◌==◌, ◌&&◌, option_map};
    ghost use Rattle.trace_events.specs.Words.{is_number};
    ghost use Rattle.trace_events.specs.Settling as law;
    ghost use Rattle.trace_law.specs.OnStack.{events};
    ghost use Rattle.trace_events.specs.View.{incoming_view, outgoing_view};

    /// Nothing more is to be told of an incoming delivery: it is told, settled, or of a link that is over.
    pub(crate) fn is_closed(&self, delivery: &Incoming) -> bool
        ensures { result ≡ law.is_closed (events self.now) (incoming_view delivery.now) }
    {
        self.is_told(delivery) || self.is_settled(delivery) || !self.is_live(&delivery.link)
    }

    /// The router is to settle the delivery: its link lives, its consumer has decided and settled nothing, the router
    /// hasn't settled it, and nothing more is to be told of what it carries.
    fn is_to_settle(&self, delivery: &Outgoing) -> bool
        ensures { result ≡ law.is_to_settle (events self.now) (outgoing_view delivery.now) }
    {
        if self.is_settled_by_router(delivery) || self.is_settled_by_consumer(delivery) {
            return false;
        }
        if !self.is_live(&delivery.link) || self.decision(delivery).is_none() {
            return false;
        }
        match self.noted(delivery.note) {
            Some(carried) => self.is_closed(&carried),
            None => false,
        }
    }

    /// The router is to settle the delivery, and it has this id on the session.
    fn is_to_settle_as(&self, session: Session, id: u32, delivery: &Outgoing) -> bool
        ensures { result ≡ (delivery.now.link.session.number == session.number && is_number delivery.now.id id
            && law.is_to_settle (events self.now) (outgoing_view delivery.now)) }
    {
        delivery.link.session.number == session.number
            && delivery.id == Some(id)
            && self.is_to_settle(delivery)
    }

    /// The earliest such delivery of the id on the session.
    #[tactic(auto, using(trace_events::proofs::Earliest::the_earliest))]
    pub(crate) fn to_settle(&self, session: Session, id: u32) -> Option<Outgoing<'a>>
        ensures { option_map outgoing_view result ≡ law.to_settle session id (events self.now) }
    {
        let mut earliest = None;
        let mut rest = self;
        while let Past::After(event, earlier) = rest {
            if let Some(begun) = event.outgoing_begun() {
                if self.is_to_settle_as(session, id, &begun) {
                    earliest = Some(begun);
                }
            }
            rest = *earlier;
        }
        earliest
    }

    /// The undecided delivery of the id on the session, whose outcome may be told.
    pub(crate) fn to_tell(&self, rules: &RuleSet, session: Session, id: u32) -> Option<Incoming<'a>>
        ensures { option_map incoming_view result ≡ law.to_tell rules.now session id (events self.now) }
    {
        let mut rest = self;
        while let Past::After(event, earlier) = rest {
            if let Some(begun) = event.incoming_begun() {
                if self.is_undecided_of(rules, session, id, &begun) {
                    return Some(begun);
                }
            }
            rest = *earlier;
        }
        None
    }
}
