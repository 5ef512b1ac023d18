//! What the auditor's tables tell of deliveries beside the questions.

use refusal_facts::{Incoming, Outgoing, Payloads};
use state_incoming::Deliveries;
use state_outgoing::SentDeliveries;

/// The tables of deliveries from clients, and of those to clients, lent.
#[derive(Clone, Copy)]
pub(crate) struct Contents<'t> {
    pub(crate) deliveries: &'t Deliveries,
    pub(crate) sent: &'t SentDeliveries,
}

impl<'t> Payloads<'t> for Contents<'t> {
    ghost use Rattle.state_incoming.specs.EntryAnswers.{Knows};
    ghost use Rattle.refusal_showing.specs.Contents.{TellOf};
    ghost use Rattle.state_outgoing.specs.SentAnswers.{KnowsOrBegins};

    ghost tells_of = { λ contents rules history. TellOf rules contents.deliveries.now contents.sent.now history };

    ghost knows = { λ contents delivery. Knows contents.deliveries.now delivery };

    ghost knows_sent = { λ contents delivery history. KnowsOrBegins contents.sent.now history delivery };

    fn payload(&self, delivery: &Incoming) -> &'t [u8] {
        self.deliveries.payload(delivery)
    }

    fn address(&self, delivery: &Incoming) -> &'t [u8] {
        self.deliveries.address(delivery)
    }

    fn sent_count(&self, delivery: &Outgoing) -> u64 {
        self.sent.sent_count(delivery.number)
    }

    #[tactic(auto, using(crate::proofs::Completions::completion_known, crate::proofs::Completions::has_entry))]
    fn completion(&self, delivery: &Incoming) -> Option<u64> {
        match self.deliveries.get(delivery.number) {
            Some(held) => held.completion(),
            None => None,
        }
    }
}
