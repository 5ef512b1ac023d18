//! A plain scan of a capture: whether each delivery that begins on a consumer's link carries the earliest one that waits at its
//! address, and goes to the consumer that a balanced address picks.
//!
//! For each of them it goes over all records before it anew, and counts by their frames alone. It knows what a crowd does, and
//! no more: a client has one session, on channel 0, and one link, on handle 0, of which the router's first count is 0; no link is
//! refused; a message stands in one frame; windows have room; nothing is drained; and some consumer is always there.

use crate::seen::spoken;
use amqp_perf::{
    Address, Attach, Disposition, Flow, Performative, Role, Target, Terminus, Transfer,
};
use capture_form::{Capture, Record, What};
use pairing_cert::Note;
use std::alloc::{AllocError, Global};
use std::fmt;
use std::fmt::{Display, Formatter};

/// What was found, in numbers.
#[derive(Clone, Copy)]
pub struct Picks {
    /// Deliveries that began.
    begun: u32,
    /// Those of them behind which others waited, and those for which a consumer with fewer undecided ones had no credit.
    queued: u32,
    passed: u32,
    /// Those that carry another one than the earliest that waits, and those that went to another consumer.
    unordered: u32,
    elsewhere: u32,
    /// The first record of these two.
    first_wrong: Option<u64>,
}

/// A link that is attached.
#[derive(Clone, Copy)]
struct Attached<'a> {
    connection: u32,
    address: &'a [u8],
    is_consumer: bool,
    /// Up to which count deliveries may begin, and how many began.
    most: u32,
    begun: u32,
}

impl Attached<'_> {
    /// Whether it is a consumer's link of this address.
    fn serves(&self, address: &[u8]) -> bool {
        self.is_consumer && self.address == address
    }

    /// Whether another delivery may begin.
    fn has_credit(&self) -> bool {
        self.begun < self.most
    }
}

/// A complete delivery that no client got: the record of its transfer, and its address.
#[derive(Clone, Copy)]
struct Waiting<'a> {
    number: u64,
    address: &'a [u8],
}

/// A delivery that a consumer got and did not decide.
#[derive(Clone, Copy)]
struct Undecided {
    connection: u32,
    id: u32,
}

/// What the records before one come to.
#[derive(Drop)]
struct Past<'a> {
    /// In the order in which the router attached them.
    links: Vec<Attached<'a>>,
    /// In the order in which they were completed.
    waiting: Vec<Waiting<'a>>,
    undecided: Vec<Undecided>,
}

/// Scans a capture.
///
/// # Errors
///
/// Where memory is refused.
pub fn scan_picks(alloc: Global, capture: &Capture) -> Result<Picks, AllocError> {
    let mut picks = Picks {
        begun: 0,
        queued: 0,
        passed: 0,
        unordered: 0,
        elsewhere: 0,
        first_wrong: None,
    };
    for (number, entry) in capture.records().iter().enumerate() {
        if begins(entry) {
            let mut past = Past {
                links: Vec::new(alloc),
                waiting: Vec::new(alloc),
                undecided: Vec::new(alloc),
            };
            past.go_over(capture.records(), number)?;
            picks.judge(&past, number as u64, entry);
        }
    }
    Ok(picks)
}

/// Whether a delivery to a client begins with a record.
fn begins(entry: &Record) -> bool {
    let What::Out(frame) = &entry.what else {
        return false;
    };
    match spoken(entry.connection, frame.octets()) {
        Some((_, Performative::Transfer(transfer))) => transfer.delivery_id.is_some(),
        _ => false,
    }
}

/// The delivery that a record's note names.
fn carried(entry: &Record) -> Option<u64> {
    match entry.note {
        Note::Pair(number) => Some(number),
        Note::None | Note::Told(_) => None,
    }
}

impl Picks {
    /// Whether so many deliveries began, and none of them in a wrong way.
    pub fn are_right(&self, begun: u32) -> bool {
        self.begun == begun && self.unordered == 0 && self.elsewhere == 0
    }

    /// Judges the record of a number, with which a delivery begins behind this past.
    fn judge(&mut self, past: &Past<'_>, number: u64, entry: &Record) {
        let address = past.address_of(entry.connection);
        let (first, count) = past.waiting_at(address);
        let pick = past.pick(address);
        let is_first = first.is_some() && carried(entry) == first;
        let is_picked = match pick {
            Some((connection, _)) => connection == entry.connection,
            None => false,
        };
        let is_passed = match pick {
            Some((_, least)) => past.has_idle(address, least),
            None => false,
        };
        self.begun = self.begun.saturating_add(1);
        self.queued = self.queued.saturating_add(u32::from(count > 1));
        self.passed = self.passed.saturating_add(u32::from(is_passed));
        self.unordered = self.unordered.saturating_add(u32::from(!is_first));
        self.elsewhere = self.elsewhere.saturating_add(u32::from(!is_picked));
        if self.first_wrong.is_none() && !(is_first && is_picked) {
            self.first_wrong = Some(number);
        }
    }
}

impl Display for Picks {
    fn fmt<W: fmt::Write>(&self, f: &mut Formatter<W>) -> fmt::Result {
        write!(
            f,
            "begun={} with others waiting={} past one without credit={} out of order={} elsewhere={}",
            self.begun, self.queued, self.passed, self.unordered, self.elsewhere
        )?;
        match self.first_wrong {
            Some(number) => write!(f, " first at record {number}"),
            None => Ok(()),
        }
    }
}

impl<'a> Past<'a> {
    /// Goes over so many first records.
    fn go_over(&mut self, records: &'a [Record], end: usize) -> Result<(), AllocError> {
        for (number, entry) in records.iter().enumerate().take(end) {
            match &entry.what {
                What::In(frame) => self.come_in(number as u64, entry, frame.octets())?,
                What::Out(frame) => self.go_out(entry, frame.octets())?,
                What::Lost | What::Broken => self.leave(entry.connection),
                What::Opened => {}
            }
        }
        Ok(())
    }

    /// A client sent this frame.
    fn come_in(&mut self, number: u64, entry: &Record, octets: &'a [u8]) -> Result<(), AllocError> {
        let connection = entry.connection;
        let Some((_, said)) = spoken(connection, octets) else {
            return Ok(());
        };
        match said {
            Performative::Flow(flow) => self.credit(connection, &flow),
            Performative::Transfer(_) => {
                let address = self.address_of(connection);
                self.waiting.push(Waiting { number, address })?;
            }
            Performative::Disposition(disposition) => self.decide(connection, &disposition),
            Performative::Detach(_) | Performative::End(_) | Performative::Close(_) => {
                self.leave(connection);
            }
            _ => {}
        }
        Ok(())
    }

    /// The router wrote this frame.
    fn go_out(&mut self, entry: &Record, octets: &'a [u8]) -> Result<(), AllocError> {
        let connection = entry.connection;
        let Some((_, said)) = spoken(connection, octets) else {
            return Ok(());
        };
        match said {
            Performative::Attach(attach) => self.links.push(Attached {
                connection,
                address: address_of(&attach),
                is_consumer: attach.role == Role::Sender,
                most: 0,
                begun: 0,
            })?,
            Performative::Transfer(transfer) => self.carry(entry, &transfer)?,
            _ => {}
        }
        Ok(())
    }

    /// A consumer gives credit: from its count on as many deliveries may begin.
    fn credit(&mut self, connection: u32, flow: &Flow) {
        let count = flow.delivery_count.unwrap_or(0);
        let credit = flow.link_credit.unwrap_or(0);
        for link in self.links.iter_mut() {
            if link.connection == connection {
                link.most = count.saturating_add(credit);
            }
        }
    }

    /// A delivery begins on a consumer's link: what it carries waits no more, and it is undecided unless it is settled.
    fn carry(&mut self, entry: &Record, transfer: &Transfer<'_>) -> Result<(), AllocError> {
        let connection = entry.connection;
        let gone = carried(entry);
        self.waiting.retain(|waiting| Some(waiting.number) != gone);
        for link in self.links.iter_mut() {
            if link.connection == connection {
                link.begun = link.begun.saturating_add(1);
            }
        }
        if let (Some(id), false) = (transfer.delivery_id, transfer.settled == Some(true)) {
            self.undecided.push(Undecided { connection, id })?;
        }
        Ok(())
    }

    /// A consumer speaks of the deliveries of a range, which decides them where it settles them or tells an outcome.
    fn decide(&mut self, connection: u32, said: &Disposition<'_>) {
        let has_outcome = match said.state {
            Some(state) => state.outcome().is_some(),
            None => false,
        };
        if said.role == Role::Receiver && (said.is_settled() || has_outcome) {
            let first = said.first;
            let most = said.last_id().wrapping_sub(first);
            self.undecided.retain(|undecided| {
                undecided.connection != connection || undecided.id.wrapping_sub(first) > most
            });
        }
    }

    /// The link of a connection is over.
    fn leave(&mut self, connection: u32) {
        self.links.retain(|link| link.connection != connection);
    }

    /// The address of a connection's link.
    fn address_of(&self, connection: u32) -> &'a [u8] {
        for link in self.links.iter() {
            if link.connection == connection {
                return link.address;
            }
        }
        &[]
    }

    /// The earliest delivery that waits at an address, and how many wait there.
    fn waiting_at(&self, address: &[u8]) -> (Option<u64>, u32) {
        let mut first = None;
        let mut count: u32 = 0;
        for waiting in self.waiting.iter() {
            if waiting.address == address {
                first = first.or(Some(waiting.number));
                count = count.saturating_add(1);
            }
        }
        (first, count)
    }

    /// The connection of the consumer of an address that may take one and has the fewest undecided deliveries, of equal ones the
    /// one that attached first; and how many it has.
    fn pick(&self, address: &[u8]) -> Option<(u32, usize)> {
        let mut best: Option<(u32, usize)> = None;
        for link in self.links.iter() {
            if link.serves(address) && link.has_credit() {
                let count = self.undecided_of(link.connection);
                let is_better = match best {
                    Some((_, least)) => count < least,
                    None => true,
                };
                if is_better {
                    best = Some((link.connection, count));
                }
            }
        }
        best
    }

    /// Whether a consumer of an address has fewer undecided deliveries than this, and no credit.
    fn has_idle(&self, address: &[u8], least: usize) -> bool {
        self.links.iter().any(|link| {
            link.serves(address) && !link.has_credit() && self.undecided_of(link.connection) < least
        })
    }

    /// How many deliveries a connection's client got and did not decide.
    fn undecided_of(&self, connection: u32) -> usize {
        self.undecided
            .iter()
            .filter(|undecided| undecided.connection == connection)
            .count()
    }
}

/// The address that the router attaches a client to: a consumer's source, a producer's target.
fn address_of<'a>(attach: &Attach<'a>) -> &'a [u8] {
    let terminus = match (attach.role, attach.source, attach.target) {
        (Role::Sender, source, _) => source,
        (Role::Receiver, _, Some(Target::Terminus(target))) => Some(target),
        (Role::Receiver, _, _) => None,
    };
    match terminus {
        Some(
            Terminus {
                address: Some(Address::Text(text)),
                ..
            },
        ) => text.as_bytes(),
        _ => &[],
    }
}
