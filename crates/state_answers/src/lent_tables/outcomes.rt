//! What is asked when an outcome is told or a delivery is settled.

use crate::closings::HeldClosings;
use crate::lent_tables::LentTables;
use amqp_perf::Outcome;
use capture_form::RuleSet;
use trace_events::{Decision, Incoming, Link, Outgoing, Session};
use trace_judge::Outcomes;

impl<'t> Outcomes<'t> for LentTables<'t> {
    fn to_tell(&self, _rules: &RuleSet, session: Session, id: u32) -> Option<Incoming<'t>> {
        self.deliveries.to_tell(session, id)
    }

    fn to_settle(&self, session: Session, id: u32) -> Option<Outgoing<'t>> {
        let closings = HeldClosings {
            deliveries: self.deliveries,
        };
        self.sent.to_settle(session, id, &closings)
    }

    fn incoming_at(&self, number: u64) -> Option<Incoming<'t>> {
        self.deliveries.incoming_at(number)
    }

    fn is_complete(&self, delivery: &Incoming) -> bool {
        self.deliveries.is_complete(delivery)
    }

    fn is_closed(&self, delivery: &Incoming) -> bool {
        self.deliveries.is_closed(delivery)
    }

    fn is_of_multicast(&self, rules: &RuleSet, delivery: &Incoming) -> bool {
        self.deliveries.is_of_multicast(rules, delivery)
    }

    fn is_gone(&self, _rules: &RuleSet, delivery: &Incoming) -> bool {
        self.deliveries.is_gone(delivery)
    }

    fn is_live(&self, link: &Link) -> bool {
        self.links.is_live(link)
    }

    fn pairing(&self, delivery: &Incoming) -> Option<Outgoing<'t>> {
        self.sent.pairing(delivery)
    }

    fn decision(&self, delivery: &Outgoing) -> Option<Decision<'t>> {
        self.sent.decision(delivery)
    }

    fn is_sent(&self, delivery: &Outgoing) -> bool {
        self.sent.is_sent(delivery)
    }

    fn whole_verdict(&self, _rules: &RuleSet, delivery: &Incoming) -> Option<Outcome> {
        self.verdicts.whole_verdict(delivery)
    }

    fn frame_limit(&self, connection: u32) -> u32 {
        self.connections.seen(connection).frame_limit
    }
}
