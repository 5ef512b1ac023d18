//! What captures tell, in numbers.

use crate::seen::spoken;
use amqp_perf::Performative;
use capture_form::{Capture, What};
use pairing_cert::{Note, Why};
use std::fmt;
use std::fmt::{Display, Formatter};

/// How many outcomes were told, by their row.
#[derive(Clone, Copy)]
struct Outcomes {
    c: u64,
    z: u64,
    s: u64,
    l: u64,
    n: u64,
    m: u64,
}

impl Outcomes {
    /// None so far.
    const NOTHING: Outcomes = Outcomes {
        c: 0,
        z: 0,
        s: 0,
        l: 0,
        n: 0,
        m: 0,
    };

    /// Counts one of a row.
    fn count(&mut self, why: Why) {
        match why {
            Why::C => self.c = self.c.wrapping_add(1),
            Why::Z => self.z = self.z.wrapping_add(1),
            Why::S => self.s = self.s.wrapping_add(1),
            Why::L => self.l = self.l.wrapping_add(1),
            Why::N => self.n = self.n.wrapping_add(1),
            Why::M => self.m = self.m.wrapping_add(1),
        }
    }
}

impl Display for Outcomes {
    fn fmt<W: fmt::Write>(&self, f: &mut Formatter<W>) -> fmt::Result {
        write!(
            f,
            "C={} Z={} S={} L={} N={} M={}",
            self.c, self.z, self.s, self.l, self.n, self.m
        )
    }
}

/// The numbers.
#[derive(Clone, Copy)]
pub struct FrameCounts {
    records: u64,
    /// Frames that came in and went out, by what they say.
    transfers_in: u64,
    transfers: u64,
    deliveries: u64,
    drain_answers: u64,
    flows: u64,
    settlings: u64,
    attaches: u64,
    detaches: u64,
    ends: u64,
    closes: u64,
    told: Outcomes,
}

impl FrameCounts {
    /// Nothing so far.
    pub const NOTHING: FrameCounts = FrameCounts {
        records: 0,
        transfers_in: 0,
        transfers: 0,
        deliveries: 0,
        drain_answers: 0,
        flows: 0,
        settlings: 0,
        attaches: 0,
        detaches: 0,
        ends: 0,
        closes: 0,
        told: Outcomes::NOTHING,
    };

    /// Counts the records of a capture.
    pub fn count(&mut self, capture: &Capture) {
        for entry in capture.records() {
            self.records = self.records.wrapping_add(1);
            match &entry.what {
                What::In(frame) => self.count_in(entry.connection, frame.octets()),
                What::Out(frame) => {
                    self.count_out(entry.connection, frame.octets(), entry.note);
                }
                What::Opened | What::Lost | What::Broken => {}
            }
        }
    }

    /// Counts a frame that came in.
    fn count_in(&mut self, connection: u32, octets: &[u8]) {
        if let Some((_, Performative::Transfer(_))) = spoken(connection, octets) {
            self.transfers_in = self.transfers_in.wrapping_add(1);
        }
    }

    /// Counts a frame that went out.
    fn count_out(&mut self, connection: u32, octets: &[u8], note: Note) {
        let Some((_, said)) = spoken(connection, octets) else {
            return;
        };
        match said {
            Performative::Transfer(transfer) => {
                self.transfers = self.transfers.wrapping_add(1);
                if transfer.delivery_id.is_some() {
                    self.deliveries = self.deliveries.wrapping_add(1);
                }
            }
            Performative::Flow(flow) => {
                self.flows = self.flows.wrapping_add(1);
                if flow.drains() && flow.link_credit == Some(0) {
                    self.drain_answers = self.drain_answers.wrapping_add(1);
                }
            }
            Performative::Disposition(_) => self.count_told(note),
            Performative::Attach(_) => self.attaches = self.attaches.wrapping_add(1),
            Performative::Detach(_) => self.detaches = self.detaches.wrapping_add(1),
            Performative::End(_) => self.ends = self.ends.wrapping_add(1),
            Performative::Close(_) => self.closes = self.closes.wrapping_add(1),
            _ => {}
        }
    }

    /// Counts an outcome, or what settles a delivery.
    fn count_told(&mut self, note: Note) {
        match note {
            Note::Told(why) => self.told.count(why),
            Note::None | Note::Pair(_) => self.settlings = self.settlings.wrapping_add(1),
        }
    }
}

impl Display for FrameCounts {
    fn fmt<W: fmt::Write>(&self, f: &mut Formatter<W>) -> fmt::Result {
        write!(
            f,
            "records={} transfers in={} out={} deliveries out={}\noutcomes {} settlings={}\nflows={} drain answers={}\nattaches={} detaches={} ends={} closes={}",
            self.records,
            self.transfers_in,
            self.transfers,
            self.deliveries,
            self.told,
            self.settlings,
            self.flows,
            self.drain_answers,
            self.attaches,
            self.detaches,
            self.ends,
            self.closes
        )
    }
}
