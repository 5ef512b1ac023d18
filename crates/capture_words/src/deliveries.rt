//! What transfers and dispositions do to links.

use crate::links::Links;
use crate::row::{Delivery, Progress};
use amqp_perf::{Disposition, Outcome, Role, Transfer};
use capture_view::{LinkKey, LinkRole, Scope, Sender, Writer};
use pairing_cert::Note;
use std::alloc::AllocError;

/// A transfer where it stands.
#[derive(Clone, Copy, Debug)]
pub(crate) struct Part<'a> {
    /// The number of its record.
    pub record: u64,
    pub connection: u32,
    pub channel: u16,
    pub writer: Writer,
    pub transfer: Transfer<'a>,
    /// The octets of its payload.
    pub octets: usize,
}

impl Part<'_> {
    /// The handle that it names.
    fn key(&self) -> LinkKey {
        LinkKey {
            connection: self.connection,
            channel: self.channel,
            handle: self.transfer.handle,
        }
    }
}

impl Links {
    /// Takes a transfer with its note: what it carries waits no more, and a delivery begins or goes on on the live link of
    /// its handle.
    pub(crate) fn take_transfer(&mut self, part: &Part<'_>, note: Note) -> Result<(), AllocError> {
        if let (Writer::Router, Note::Pair(carried)) = (part.writer, note) {
            self.stop_waiting(carried);
        }
        let Some(step) = self.go_on(part) else {
            return Ok(());
        };
        if part.writer == Writer::Client {
            self.arrive(&step, &part.transfer)?;
        }
        let Some(id) = step.id else {
            return Ok(());
        };
        let scope = Scope {
            connection: part.connection,
            channel: part.channel,
            sender: sender_of(part.writer),
        };
        if part.transfer.is_aborted() || step.is_settled {
            self.ids.take_covered(scope, id, id);
        } else if step.is_new {
            self.ids.insert(scope, id, step.delivery)?;
        }
        Ok(())
    }

    /// The number of the live link of this handle, whose deliveries this writer sends.
    fn link_of(&self, writer: Writer, key: LinkKey) -> Option<usize> {
        let number = *self.live.get(&key)?;
        let role = self.rows.get(number)?.link.role;
        match (writer, role) {
            (Writer::Client, LinkRole::Producer) | (Writer::Router, LinkRole::Consumer) => {
                Some(number)
            }
            _ => None,
        }
    }

    /// Begins a delivery on the live link of a transfer's handle, or goes on with the one in progress there.
    fn go_on(&mut self, part: &Part<'_>) -> Option<TransferEffect> {
        let transfer = &part.transfer;
        let link = self.link_of(part.writer, part.key())?;
        let row = self.rows.get_mut(link)?;
        let begun = row.progress;
        let before = begun.unwrap_or(Progress {
            delivery: Delivery {
                record: part.record,
                link,
            },
            id: transfer.delivery_id,
            is_settled: false,
        });
        if begun.is_none() {
            row.deliveries = row.deliveries.saturating_add(1);
        }
        row.octets = row.octets.saturating_add(part.octets as u64);
        let is_settled = before.is_settled || transfer.settled == Some(true);
        if transfer.is_aborted() {
            row.aborted = row.aborted.saturating_add(1);
        } else if is_settled && !before.is_settled {
            row.settled = row.settled.saturating_add(1);
        }
        let after = Progress {
            is_settled,
            ..before
        };
        row.progress = (transfer.has_more() && !transfer.is_aborted()).then_some(after);
        Some(TransferEffect {
            delivery: before.delivery,
            id: before.id,
            is_settled,
            is_new: begun.is_none(),
        })
    }

    /// A part of a client's delivery has come: behind its last one it waits, unless it is given up.
    fn arrive(&mut self, step: &TransferEffect, transfer: &Transfer<'_>) -> Result<(), AllocError> {
        if step.is_new {
            self.begin_to_send(step.delivery)?;
        }
        if transfer.is_aborted() {
            self.stop_waiting(step.delivery.record);
        } else if !transfer.has_more() {
            self.wait(step.delivery.record);
        }
        Ok(())
    }

    /// Takes a disposition. One of a receiver decides what the other side sent, if it has an outcome or settles; one of a
    /// sender settles its own.
    pub(crate) fn take_disposition(
        &mut self,
        connection: u32,
        channel: u16,
        writer: Writer,
        disposition: &Disposition<'_>,
    ) {
        let sender = match (writer, disposition.role) {
            (Writer::Client, Role::Sender) | (Writer::Router, Role::Receiver) => Sender::Client,
            (Writer::Client, Role::Receiver) | (Writer::Router, Role::Sender) => Sender::Router,
        };
        let outcome = match disposition.role {
            Role::Receiver => disposition.state.and_then(|state| state.outcome()),
            Role::Sender => None,
        };
        if outcome.is_none() && !disposition.is_settled() {
            return;
        }
        let scope = Scope {
            connection,
            channel,
            sender,
        };
        self.decide(scope, disposition, outcome);
    }

    /// Decides the deliveries of the scope that a disposition covers. What a receiver decides waits no more.
    fn decide(&mut self, scope: Scope, disposition: &Disposition<'_>, outcome: Option<Outcome>) {
        let (first, last) = (disposition.first, disposition.last_id());
        // Each turn takes an id out.
        for _ in 0..u32::MAX {
            let Some(delivery) = self.ids.take_covered(scope, first, last) else {
                return;
            };
            if let Some(row) = self.rows.get_mut(delivery.link) {
                row.decide(outcome);
            }
            if disposition.role == Role::Receiver {
                self.stop_waiting(delivery.record);
            }
        }
    }
}

/// What a transfer did to its link.
#[derive(Clone, Copy, Debug)]
struct TransferEffect {
    delivery: Delivery,
    id: Option<u32>,
    is_settled: bool,
    is_new: bool,
}

fn sender_of(writer: Writer) -> Sender {
    match writer {
        Writer::Client => Sender::Client,
        Writer::Router => Sender::Router,
    }
}
