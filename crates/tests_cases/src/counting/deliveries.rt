//! The deliveries of a session: those that come in from a client, and those that were sent to it.
//!
//! A payload is the text of its word, and `-` an empty one; `-` is also a transfer without a delivery-id. `cuts` tells how
//! many octets each cut has of the delivery that was completed last.

use crate::counting::words::{Event, events, optional, parts};
use bytes::Bytes;
use flow_counts::SentEvent;
use kit_cases::{Answer, Subject, done, number, parted, small, told, word};
use std::alloc::{AllocError, Global};
use unsettled::{Inbound, Outstanding, PartEvent, PartFault, inbound_after, outstanding_after};

/// The deliveries of one session, in both directions, and the cuts of the one that was completed last.
#[derive(Drop)]
pub struct Deliveries {
    alloc: Global,
    inbound: Inbound,
    cuts: Vec<Bytes>,
    sent: Outstanding,
}

impl Deliveries {
    pub fn new(alloc: Global) -> Deliveries {
        Deliveries {
            alloc,
            inbound: Inbound::new(alloc),
            cuts: Vec::new(alloc),
            sent: Outstanding::new(alloc),
        }
    }
}

impl Subject for Deliveries {
    fn answer(&mut self, words: &[&str]) -> Answer {
        let (side, words) = parted(words);
        match side {
            "new" => *self = Deliveries::new(self.alloc),
            "in" => return self.inbound_answer(words),
            "sent" => return self.sent_answer(words),
            _ => return Ok(None),
        }
        done(self.alloc)
    }
}

impl Deliveries {
    /// What comes of words about the deliveries that come in.
    fn inbound_answer(&mut self, words: &[&str]) -> Answer {
        let (verb, rest) = parted(words);
        let link = number(word(rest, 0));
        match verb {
            "part" => return self.part(link, rest, payload_of(self.alloc, word(rest, 3))?),
            "large" => {
                let octets = vec![in self.alloc; 7u8; number(word(rest, 3)) as usize]?;
                return self.part(link, rest, Bytes::from_vec(octets)?);
            }
            "admits" => {
                let admitted = self.inbound.admits(link, optional(word(rest, 1)));
                return told(self.alloc, numbered(admitted));
            }
            "is-in-progress" => return told(self.alloc, self.inbound.is_in_progress(link)),
            "complete" => return self.complete(link),
            "cuts" => return self.sizes(),
            "abort" => self.inbound.abort(link),
            "freed" => self.inbound.freed(small(word(rest, 0))),
            "after" => return self.inbound_after(rest),
            _ => return Ok(None),
        }
        done(self.alloc)
    }

    /// A transfer comes, whose record and delivery-id are told by the words behind the link.
    fn part(&mut self, link: u64, words: &[&str], payload: Bytes) -> Answer {
        let (record, id) = (number(word(words, 1)), optional(word(words, 2)));
        let taken = self.inbound.part(link, record, id, payload);
        told(self.alloc, numbered(taken))
    }

    /// A delivery is complete: the record of its first transfer and its payload, or how many octets a long one has.
    fn complete(&mut self, link: u64) -> Answer {
        if !self.inbound.is_in_progress(link) {
            return told(self.alloc, "not in progress");
        }
        let (record, cuts) = self.inbound.complete(link);
        self.cuts = cuts;
        let payload = joined(self.alloc, self.cuts.as_slice())?;
        if payload.len() > 100 {
            return told(self.alloc, (record, payload.len()));
        }
        let text = str::from_utf8(payload.as_slice()).unwrap_or("no text");
        told(self.alloc, (record, text))
    }

    /// How many octets each cut has of the delivery that was completed last.
    fn sizes(&self) -> Answer {
        let sizes: Vec<usize> = self.cuts.iter().map(|cut| cut.len()).collect(self.alloc)?;
        told(self.alloc, sizes)
    }

    /// All of these events happen on a new session.
    fn inbound_after(&mut self, words: &[&str]) -> Answer {
        let payloads = payloads_of(self.alloc, words)?;
        let mut events = Vec::new(self.alloc);
        if !put_events(&mut events, words, payloads.as_slice())? {
            return Ok(None);
        }
        self.become_after(events.as_slice())
    }

    /// The deliveries become those of a new session on which these events happen.
    fn become_after(&mut self, events: &[PartEvent<'_>]) -> Answer {
        match inbound_after(self.alloc, events) {
            Ok(inbound) => {
                self.inbound = inbound;
                done(self.alloc)
            }
            Err(fault) => told(self.alloc, (fault, fault.number())),
        }
    }

    /// What comes of words about the deliveries that were sent.
    fn sent_answer(&mut self, words: &[&str]) -> Answer {
        let (verb, rest) = parted(words);
        let (first, second) = (word(rest, 0), word(rest, 1));
        match verb {
            "add" => self.sent.add(number(first), small(second))?,
            "remove" => self.sent.remove(number(first)),
            "cover" => return self.cover(small(first), small(second)),
            "after" => return self.sent_after(rest),
            _ => return Ok(None),
        }
        done(self.alloc)
    }

    /// The deliveries that a range of ids covers.
    fn cover(&self, first: u32, last: u32) -> Answer {
        let covered: Vec<(u64, u32)> = self.sent.cover(first, last).collect(self.alloc)?;
        told(self.alloc, covered)
    }

    /// All of these events happen on a new session.
    fn sent_after(&mut self, words: &[&str]) -> Answer {
        let Some(events) = events::<SentEvent>(self.alloc, words)? else {
            return Ok(None);
        };
        self.sent = outstanding_after(self.alloc, events.as_slice())?;
        done(self.alloc)
    }
}

/// A fault is told with its number.
fn numbered(taken: Result<(), PartFault>) -> Result<(), (PartFault, u8)> {
    match taken {
        Ok(()) => Ok(()),
        Err(fault) => Err((fault, fault.number())),
    }
}

/// The octets of a payload's word.
fn payload_of(alloc: Global, word: &str) -> Result<Bytes, AllocError> {
    Bytes::copy_from_slice(alloc, if word == "-" { &[] } else { word.as_bytes() })
}

/// The payload of each of these words for events, an empty one where it has none.
fn payloads_of(alloc: Global, words: &[&str]) -> Result<Vec<Bytes>, AllocError> {
    let mut payloads = Vec::new(alloc);
    for event in words {
        payloads.push(payload_in(alloc, event)?)?;
    }
    Ok(payloads)
}

/// The payload of an event's word.
fn payload_in(alloc: Global, event: &str) -> Result<Bytes, AllocError> {
    let parts = parts(alloc, event)?;
    payload_of(alloc, word(parts.as_slice(), 4))
}

/// Puts what these words tell with these payloads, and answers whether each of them tells something.
fn put_events<'a>(
    events: &mut Vec<PartEvent<'a>>,
    words: &[&str],
    payloads: &'a [Bytes],
) -> Result<bool, AllocError> {
    for (word, payload) in words.iter().zip(payloads.iter()) {
        let parts = parts(*events.allocator(), word)?;
        match part_event(parts.as_slice(), payload) {
            Some(event) => events.push(event)?,
            None => return Ok(false),
        }
    }
    Ok(true)
}

/// The octets of these cuts, one behind the other.
fn joined(alloc: Global, cuts: &[Bytes]) -> Result<Vec<u8>, AllocError> {
    let mut octets = Vec::new(alloc);
    for cut in cuts {
        octets.extend_from_slice(cut.as_slice())?;
    }
    Ok(octets)
}

/// What happens to the deliveries that come in, by the parts of its word and its payload.
fn part_event<'a>(parts: &[&str], payload: &'a Bytes) -> Option<PartEvent<'a>> {
    let (verb, rest) = parted(parts);
    let link = number(word(rest, 0));
    match verb {
        "part" => Some(PartEvent::Part {
            link,
            number: number(word(rest, 1)),
            id: optional(word(rest, 2)),
            payload,
        }),
        "aborted" => Some(PartEvent::Aborted { link }),
        "completed" => Some(PartEvent::Completed { link }),
        "freed" => Some(PartEvent::Freed {
            id: small(word(rest, 0)),
        }),
        _ => None,
    }
}

/// What happens to the deliveries that were sent.
impl Event for SentEvent {
    fn of(parts: &[&str]) -> Option<SentEvent> {
        let (verb, rest) = parted(parts);
        let number = number(word(rest, 0));
        match verb {
            "added" => Some(SentEvent::Added {
                number,
                id: small(word(rest, 1)),
            }),
            "removed" => Some(SentEvent::Removed { number }),
            _ => None,
        }
    }
}
