//! The credit of a consumer's link and of a producer's.

use crate::counting::words::{Event, events, optional};
use kit_cases::{Answer, Subject, behind, done, parted, small, told, word};
use link_credit::{
    ConsumerEvent, GivenCredit, Over, ProducerEvent, SenderCredit, given_credit_after,
    sender_credit_after,
};
use std::alloc::Global;

/// A consumer's link and a producer's.
#[derive(Drop)]
pub struct Credits {
    alloc: Global,
    consumer: SenderCredit,
    producer: GivenCredit,
}

impl Credits {
    pub fn new(alloc: Global) -> Credits {
        Credits {
            alloc,
            consumer: SenderCredit::new(0),
            producer: GivenCredit::new(0),
        }
    }
}

impl Subject for Credits {
    fn answer(&mut self, words: &[&str]) -> Answer {
        let (side, words) = parted(words);
        match side {
            "consumer" => self.consumer_answer(words),
            "producer" => self.producer_answer(words),
            _ => Ok(None),
        }
    }
}

impl Credits {
    /// What comes of words about the consumer's link.
    fn consumer_answer(&mut self, words: &[&str]) -> Answer {
        let (verb, rest) = parted(words);
        let first = word(rest, 0);
        match verb {
            "attach" => self.consumer = SenderCredit::new(small(first)),
            "flow" => {
                let (credit, drain) = (optional(word(rest, 1)), word(rest, 2) == "drain");
                self.consumer.on_flow(optional(first), credit, drain);
            }
            "begun" => return told(self.alloc, self.begun(small(first))),
            "drain-answer" => return told(self.alloc, self.drain_answer()),
            "counts" => return told(self.alloc, sender_counts(&self.consumer)),
            "after" => return self.sender_after(small(first), behind(rest, 1)),
            _ => return Ok(None),
        }
        done(self.alloc)
    }

    /// So many deliveries begin, if there is credit for them: how many did.
    fn begun(&mut self, times: u32) -> u32 {
        for count in 0..times {
            if self.consumer.left() == 0 {
                return count;
            }
            self.consumer.begun();
        }
        times
    }

    /// The drain is answered, if one is asked for and credit is left.
    fn drain_answer(&mut self) -> Option<u32> {
        if self.consumer.draining() && self.consumer.left() > 0 {
            Some(self.consumer.drain_answer())
        } else {
            None
        }
    }

    /// All of these events happen on a consumer's link.
    fn sender_after(&self, count: u32, words: &[&str]) -> Answer {
        let Some(events) = events::<ConsumerEvent>(self.alloc, words)? else {
            return Ok(None);
        };
        let credit = sender_credit_after(count, events.as_slice());
        told(self.alloc, credit.map(|credit| sender_counts(&credit)))
    }

    /// What comes of words about the producer's link.
    fn producer_answer(&mut self, words: &[&str]) -> Answer {
        let (verb, rest) = parted(words);
        let first = small(word(rest, 0));
        match verb {
            "attach" => self.producer = GivenCredit::new(first),
            "begun" => return told(self.alloc, self.begun_by_client(first)),
            "top-up" => return told(self.alloc, self.producer.top_up(first)),
            "counts" => return told(self.alloc, given_counts(&self.producer)),
            "after" => return self.given_after(first, behind(rest, 1)),
            _ => return Ok(None),
        }
        done(self.alloc)
    }

    /// The client begins so many deliveries.
    fn begun_by_client(&mut self, times: u32) -> Result<(), Over> {
        for _ in 0..times {
            self.producer.begun()?;
        }
        Ok(())
    }

    /// All of these events happen on a producer's link.
    fn given_after(&self, count: u32, words: &[&str]) -> Answer {
        let Some(events) = events::<ProducerEvent>(self.alloc, words)? else {
            return Ok(None);
        };
        let credit = given_credit_after(count, events.as_slice());
        told(self.alloc, credit.map(|credit| given_counts(&credit)))
    }
}

/// The delivery-count, the credit that is left, and whether the client asks to drain.
fn sender_counts(credit: &SenderCredit) -> (u32, u32, bool) {
    (credit.snd(), credit.left(), credit.draining())
}

/// The delivery-count and the credit that is left.
fn given_counts(credit: &GivenCredit) -> (u32, u32) {
    (credit.rcv(), credit.left())
}

/// What happens on a consumer's link.
impl Event for ConsumerEvent {
    fn of(parts: &[&str]) -> Option<ConsumerEvent> {
        let (verb, rest) = parted(parts);
        match verb {
            "flow" => Some(ConsumerEvent::TheirFlow {
                delivery_count: optional(word(rest, 0)),
                link_credit: optional(word(rest, 1)),
                drain: word(rest, 2) == "drain",
            }),
            "begun" => Some(ConsumerEvent::Begun),
            "told" => Some(ConsumerEvent::Told),
            "drain-answer" => Some(ConsumerEvent::DrainAnswer),
            _ => None,
        }
    }
}

/// What happens on a producer's link.
impl Event for ProducerEvent {
    fn of(parts: &[&str]) -> Option<ProducerEvent> {
        let (verb, rest) = parted(parts);
        match verb {
            "flow" => Some(ProducerEvent::TheirFlow {
                delivery_count: optional(word(rest, 0)),
                link_credit: optional(word(rest, 1)),
                drain: word(rest, 2) == "drain",
            }),
            "begun" => Some(ProducerEvent::Begun),
            "told" => Some(ProducerEvent::Told),
            "topped-up" => Some(ProducerEvent::ToppedUp(small(word(rest, 0)))),
            _ => None,
        }
    }
}
