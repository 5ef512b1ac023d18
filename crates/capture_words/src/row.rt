//! A link of the table.

use amqp_perf::Outcome;
use capture_view::Link;

/// A link, and what came of the deliveries that began on it. Numbers stop at 18446744073709551615.
#[derive(Debug, Drop)]
pub struct Row {
    pub connection: u32,
    pub channel: u16,
    pub handle: u32,
    pub link: Link,
    pub deliveries: u64,
    /// The octets of their payloads.
    pub octets: u64,
    pub accepted: u64,
    pub rejected: u64,
    pub released: u64,
    pub modified: u64,
    /// Those that were settled without an outcome.
    pub settled: u64,
    /// Those that were given up by their sender.
    pub aborted: u64,
    /// Those of a producer that are complete, that no transfer carries, and of which no outcome was told.
    pub waiting: u64,
    /// A delivery has begun, and its last part has not come.
    pub(crate) progress: Option<Progress>,
}

/// A delivery.
#[derive(Clone, Copy, Debug)]
pub(crate) struct Delivery {
    /// The number of the record of its first transfer.
    pub record: u64,
    /// The number of its link.
    pub link: usize,
}

/// The delivery in progress on a link.
#[derive(Clone, Copy, Debug)]
pub(crate) struct Progress {
    pub delivery: Delivery,
    pub id: Option<u32>,
    /// It is settled already.
    pub is_settled: bool,
}

impl Row {
    /// No deliveries yet.
    pub(crate) fn new(connection: u32, channel: u16, handle: u32, link: Link) -> Row {
        Row {
            connection,
            channel,
            handle,
            link,
            deliveries: 0,
            octets: 0,
            accepted: 0,
            rejected: 0,
            released: 0,
            modified: 0,
            settled: 0,
            aborted: 0,
            waiting: 0,
            progress: None,
        }
    }

    /// How many of them nothing has come of.
    pub fn undecided(&self) -> u64 {
        self.deliveries
            .saturating_sub(self.accepted)
            .saturating_sub(self.rejected)
            .saturating_sub(self.released)
            .saturating_sub(self.modified)
            .saturating_sub(self.settled)
            .saturating_sub(self.aborted)
    }

    /// A delivery has this outcome, or is settled without one.
    pub(crate) fn decide(&mut self, outcome: Option<Outcome>) {
        match outcome {
            Some(Outcome::Accepted) => self.accepted = self.accepted.saturating_add(1),
            Some(Outcome::Rejected) => self.rejected = self.rejected.saturating_add(1),
            Some(Outcome::Released) => self.released = self.released.saturating_add(1),
            Some(Outcome::Modified) => self.modified = self.modified.saturating_add(1),
            None => self.settled = self.settled.saturating_add(1),
        }
    }
}
