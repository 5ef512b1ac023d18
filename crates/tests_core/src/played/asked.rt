//! What the auditor's tables answer behind the records so far, in the words of a scenario's questions.

use capture_form::RuleSet;
use kit_talks::{Names, Telling, Words};
use state_incoming::HeldDelivery;
use state_ledger::Ledger;
use std::alloc::{AllocError, Global};
use trace_events::{Asking, Link, Session};
use trace_judge::{Counts, Inputs, Openings, Outcomes};

/// Who answers: the tables of a ledger, by these rules, of deliveries with these names.
#[derive(Clone, Copy)]
pub(crate) struct Tables<'t> {
    pub(crate) alloc: Global,
    pub(crate) ledger: &'t Ledger,
    pub(crate) rules: &'t RuleSet,
    pub(crate) names: &'t Names,
}

impl<'t> Tables<'t> {
    /// All that is answered to the question of a line.
    pub(crate) fn answer(&self, line: &Words<'_>) -> Result<String, AllocError> {
        let alloc = self.alloc;
        let (who, what) = (line.at(0), line.at(2));
        let mut telling = Telling::new(format!(in alloc; "{who} ? {what}")?);
        self.tell(&mut telling, line)?;
        Ok(telling.into_text())
    }

    /// Tells what is answered.
    ///
    /// It borrows the words: owned here, their drop would be proved on each way out.
    fn tell(&self, telling: &mut Telling, line: &Words<'_>) -> Result<(), AllocError> {
        let connection = line.at(0).parse::<u32>().unwrap_or(0);
        let channel = (line.number("channel").unwrap_or(0) & 0xFFFF) as u16;
        match line.at(2) {
            "connection" => self.connection(telling, connection),
            "channel" => self.channel(telling, connection, channel),
            "handle" => match self.ledger.lent().live_session(connection, channel) {
                Some(session) => self.handle(telling, session, line),
                None => telling.value("session", "-"),
            },
            "address" => self.address(telling, line.at(3)),
            "delivery" => self.delivery(telling, line),
            _ => Ok(()),
        }
    }

    /// Of a connection: how far it is, and the largest frame that its client takes.
    fn connection(&self, telling: &mut Telling, connection: u32) -> Result<(), AllocError> {
        let lent = self.ledger.lent();
        telling.facts(&[
            ("opened", lent.was_opened(connection)),
            ("heard-open", lent.has_in_open(connection)),
            ("written", lent.has_out_frame(connection)),
            ("over", lent.is_over(connection)),
            ("finished", lent.was_finished(connection)),
            ("stopped", lent.was_stopped(connection)),
        ])?;
        telling.number("frame", Some(lent.frame_limit(connection)))
    }

    /// Of a channel: what its client is owed or owes, its last begin, and the session that is live there.
    fn channel(
        &self,
        telling: &mut Telling,
        connection: u32,
        channel: u16,
    ) -> Result<(), AllocError> {
        let lent = self.ledger.lent();
        telling.facts(&[
            ("asks", lent.has_unanswered_begin(connection, channel)),
            ("owes-end", lent.owes_end(connection, channel)),
            ("awaits-end", lent.awaits_end(connection, channel)),
        ])?;
        let begin = lent.last_in_begin(connection, channel);
        telling.numbers(&[
            ("channel", Some(u64::from(channel))),
            (
                "asked-first",
                begin.map(|begin| u64::from(begin.next_outgoing_id)),
            ),
            (
                "asked-window",
                begin.map(|begin| u64::from(begin.incoming_window)),
            ),
        ])?;
        match lent.live_session(connection, channel) {
            Some(session) => self.session(telling, session),
            None => telling.value("session", "-"),
        }
    }

    /// Of a session: the record that began it, its windows and its numbers.
    fn session(&self, telling: &mut Telling, session: Session) -> Result<(), AllocError> {
        let lent = self.ledger.lent();
        telling.numbers(&[
            ("session", Some(session.number)),
            ("window", Some(u64::from(lent.session_window(session)))),
            ("given-window", Some(u64::from(lent.given_window(session)))),
            ("next-out", Some(u64::from(lent.next_outgoing_id(session)))),
            ("next-in", Some(u64::from(lent.next_incoming_id(session)))),
            ("next-id", Some(u64::from(lent.next_delivery_id(session)))),
        ])
    }

    /// Of a handle: what its client is owed or owes, its attach that is not answered, and the link that is live there.
    fn handle(
        &self,
        telling: &mut Telling,
        session: Session,
        line: &Words<'_>,
    ) -> Result<(), AllocError> {
        let lent = self.ledger.lent();
        let handle = line.number("handle").unwrap_or(0);
        telling.numbers(&[
            ("channel", Some(u64::from(session.channel))),
            ("handle", Some(u64::from(handle))),
        ])?;
        telling.facts(&[
            ("owes-detach", lent.owes_detach(session, handle)),
            ("awaits-detach", lent.awaits_detach(session, handle)),
        ])?;
        match lent.asking(session, handle) {
            Some(asking) => self.asking(telling, &asking)?,
            None => telling.value("asks", "-")?,
        }
        match lent.session_link(session, handle) {
            Some(link) => self.link(telling, &link),
            None => telling.value("link", "-"),
        }
    }

    /// Of an attach that is not answered: the name of its link, and its fault where it has one.
    fn asking(&self, telling: &mut Telling, asking: &Asking<'_>) -> Result<(), AllocError> {
        telling.value("asks", asking.name)?;
        telling.role(asking.role)?;
        match asking.fault {
            Some(fault) => {
                let fault = format!(in self.alloc; "{fault:?}")?;
                telling.value("fault", fault.as_str())
            }
            None => telling.value("fault", "-"),
        }
    }

    /// Of a link: the record that opened it, its address, its counts and its credit.
    fn link(&self, telling: &mut Telling, link: &Link<'_>) -> Result<(), AllocError> {
        let lent = self.ledger.lent();
        telling.role(link.role)?;
        telling.value("address", str::from_utf8(link.address).unwrap_or("?"))?;
        telling.facts(&[
            ("live", lent.is_live(link)),
            (
                "of-consumer",
                lent.consumer_links.get(link.number).is_some(),
            ),
            ("draining", lent.is_draining(link)),
            ("unsent", lent.has_unsent(self.rules, link)),
        ])?;
        telling.numbers(&[
            ("link", Some(link.number)),
            ("credit", Some(u64::from(lent.link_credit(link)))),
            ("count", Some(u64::from(lent.delivery_count(link)))),
            ("given-credit", Some(u64::from(lent.given_credit(link)))),
            ("received", Some(u64::from(lent.received_count(link)))),
            ("undecided", Some(lent.undecided_count(self.rules, link))),
        ])
    }

    /// Of an address: whether a delivery waits there, and its consumers' links in order.
    fn address(&self, telling: &mut Telling, address: &str) -> Result<(), AllocError> {
        let lent = self.ledger.lent();
        let octets = address.as_bytes();
        telling.word(address)?;
        telling.fact("served", lent.has_consumer(octets))?;
        telling.fact("waiting", lent.has_waiting(self.rules, octets))?;
        let mut consumers = String::new(self.alloc);
        self.put_consumers(&mut consumers, octets)?;
        telling.value("consumers", consumers.as_str())
    }

    /// Puts the consumers' links of an address, in order.
    fn put_consumers(&self, out: &mut String, address: &[u8]) -> Result<(), AllocError> {
        for place in 0..self.ledger.lent().consumers.count(address) {
            if place > 0 {
                out.push_str(",")?;
            }
            self.put_consumer(out, address, place)?;
        }
        Ok(())
    }

    /// Puts a consumer's link, by its place at the address: `8@5` if record 8 opened it on handle 5.
    fn put_consumer(
        &self,
        out: &mut String,
        address: &[u8],
        place: usize,
    ) -> Result<(), AllocError> {
        let number = self
            .ledger
            .lent()
            .consumers
            .get(address, place)
            .unwrap_or(0);
        match self.ledger.lent().consumer_links.get(number) {
            Some(link) if link.address == address => { write!(out, "{number}@{}", link.handle) }
            _ => write!(out, "{number}@?"),
        }
    }

    /// Of a delivery from a client, by its name: what stands of it, and whether it was complete before the other.
    fn delivery(&self, telling: &mut Telling, line: &Words<'_>) -> Result<(), AllocError> {
        telling.word(line.at(3))?;
        let Some(number) = self.names.number(line.at(3)) else {
            return telling.word("unnamed");
        };
        let Some(held) = self.ledger.lent().deliveries.get(number) else {
            return telling.word("not-kept");
        };
        put_held(telling, held)?;
        let other = line
            .value("before")
            .or(line.value("not-before"))
            .unwrap_or("");
        match self.kept(other) {
            Some(kept) if held.is_completed_before(kept) => telling.value("before", other),
            Some(_) => telling.value("not-before", other),
            None => Ok(()),
        }
    }

    /// The delivery of this name, if it is kept.
    fn kept(&self, name: &str) -> Option<&'t HeldDelivery> {
        let number = self.names.number(name)?;
        self.ledger.lent().deliveries.get(number)
    }
}

/// What stands of a delivery.
fn put_held(telling: &mut Telling, held: &HeldDelivery) -> Result<(), AllocError> {
    telling.facts(&[
        ("complete", held.is_complete()),
        ("undecided", held.is_undecided()),
        ("waiting", held.is_waiting()),
        ("paired", held.is_paired()),
        ("gone", held.is_gone()),
        ("closed", held.is_closed()),
        ("may-go", held.may_go()),
        ("may-be-told", held.may_be_told()),
    ])?;
    let delivery = held.delivery();
    telling.numbers(&[
        ("completed", held.completion()),
        ("payload", Some(held.payload().len() as u64)),
        ("began", Some(delivery.number)),
        ("id", delivery.id.map(u64::from)),
        ("format", Some(u64::from(delivery.format))),
    ])
}
