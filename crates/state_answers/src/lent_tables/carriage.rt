//! What is asked when a transfer carries a delivery from a client to a consumer.

use crate::lent_tables::LentTables;
use capture_form::RuleSet;
use pairing_cert::Note;
use trace_events::{Incoming, Link, Outgoing};
use trace_judge::Carriage;

impl<'t> Carriage<'t> for LentTables<'t> {
    fn outgoing_in_progress(&self, link: &Link) -> Option<Outgoing<'t>> {
        self.sent.outgoing_in_progress(link)
    }

    fn to_carry(&self, _rules: &RuleSet, note: Note) -> Option<Incoming<'t>> {
        self.deliveries.to_carry(note)
    }

    fn carried_before(&self, link: &Link) -> Option<Incoming<'t>> {
        self.deliveries.kept(self.sent.carried_before(link))
    }

    fn completed_before(&self, a: &Incoming, b: &Incoming) -> bool {
        self.deliveries.completed_before(a, b)
    }

    fn is_payload_so_far(
        &self,
        more: bool,
        delivery: &Incoming,
        outgoing: &Outgoing,
        octets: &'t [u8],
    ) -> bool {
        let payload = self.deliveries.payload(delivery);
        self.sent
            .is_payload_so_far(outgoing.number, more, payload, octets)
    }

    fn is_for(&self, delivery: &Incoming, address: &[u8]) -> bool {
        self.deliveries.is_for(delivery, address)
    }

    fn is_paired(&self, delivery: &Incoming) -> bool {
        self.sent.is_paired(delivery)
    }

    fn is_unsent(&self, _rules: &RuleSet, delivery: &Incoming, link: &Link) -> bool {
        self.copies.is_unsent(delivery, link)
    }
}
