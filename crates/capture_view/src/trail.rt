//! Following one delivery from a client.

use crate::{Happened, Ids, LinkKey, RecordView, Said, Scope, Sender, Writer};
use amqp_perf::{Disposition, Performative, Role, Transfer};
use pairing_cert::Note;
use std::alloc::{AllocError, Global};

/// Where the delivery comes from.
#[derive(Clone, Copy, Debug)]
struct DeliveryOrigin {
    link: LinkKey,
    id: Option<u32>,
    /// Parts of it may still come.
    arrives: bool,
    /// Its id still names it.
    is_named: bool,
}

/// What is known of one delivery from a client, by the records so far.
#[derive(Debug, Drop)]
pub struct Trail {
    /// The record of its first transfer.
    delivery: u64,
    source: Option<DeliveryOrigin>,
    /// The ids of the deliveries that carry it.
    copies: Ids<u64>,
}

impl Trail {
    /// Follows the delivery whose first transfer is the record of this number.
    pub fn new(alloc: Global, delivery: u64) -> Trail {
        Trail {
            delivery,
            source: None,
            copies: Ids::new(alloc),
        }
    }

    /// Takes one record more, and tells whether it is about the delivery. After an error a transfer of this record may
    /// not be followed.
    pub fn take(&mut self, view: &RecordView<'_>) -> Result<bool, AllocError> {
        let (writer, said) = match view.happened {
            Happened::In(said) => (Writer::Client, said),
            Happened::Out(said) => (Writer::Router, said),
            Happened::Opened | Happened::Lost | Happened::Broken => return Ok(false),
        };
        let Said::Says {
            channel,
            performative,
            ..
        } = said
        else {
            return Ok(false);
        };
        match performative {
            Performative::Transfer(transfer) => self.take_transfer(
                view, writer, channel, &transfer,
            ),
            Performative::Disposition(disposition) => {
                Ok(self.take_disposition(view.connection, writer, channel, &disposition))
            }
            Performative::Begin(_) => {
                self.end_session(view.connection, channel);
                Ok(false)
            }
            _ => Ok(false),
        }
    }

    fn take_transfer(
        &mut self,
        view: &RecordView<'_>,
        writer: Writer,
        channel: u16,
        transfer: &Transfer<'_>,
    ) -> Result<bool, AllocError> {
        let link = LinkKey {
            connection: view.connection,
            channel,
            handle: transfer.handle,
        };
        match writer {
            Writer::Client => Ok(self.take_part(view.number, link, transfer)),
            Writer::Router => {
                if view.note != Note::Pair(self.delivery) {
                    return Ok(false);
                }
                if let Some(id) = transfer.delivery_id {
                    let scope = scope_of(view.connection, channel, Sender::Router);
                    self.copies.insert(scope, id, view.number)?;
                }
                Ok(true)
            }
        }
    }

    /// Takes a transfer of a client.
    fn take_part(&mut self, number: u64, link: LinkKey, transfer: &Transfer<'_>) -> bool {
        let arrives = transfer.has_more() && !transfer.is_aborted();
        if number == self.delivery {
            self.source = Some(DeliveryOrigin {
                link,
                id: transfer.delivery_id,
                arrives,
                is_named: true,
            });
            return true;
        }
        let Some(source) = self.source else {
            return false;
        };
        let is_part = source.arrives && source.link == link;
        if is_part {
            self.source = Some(DeliveryOrigin { arrives, ..source });
        }
        is_part
    }

    /// Takes a disposition. One of a receiver names deliveries that the other side sent, one of a sender its own.
    fn take_disposition(
        &mut self,
        connection: u32,
        writer: Writer,
        channel: u16,
        disposition: &Disposition<'_>,
    ) -> bool {
        let sender = match (writer, disposition.role) {
            (Writer::Client, Role::Sender) | (Writer::Router, Role::Receiver) => Sender::Client,
            (Writer::Client, Role::Receiver) | (Writer::Router, Role::Sender) => Sender::Router,
        };
        let (first, last) = (disposition.first, disposition.last_id());
        match sender {
            Sender::Router => {
                let scope = scope_of(connection, channel, sender);
                self.copies.has_covered(scope, first, last)
            }
            Sender::Client => self.take_outcome(connection, channel, disposition),
        }
    }

    /// Takes a disposition that names deliveries of clients. Behind one that is settled the id may be another's.
    fn take_outcome(
        &mut self,
        connection: u32,
        channel: u16,
        disposition: &Disposition<'_>,
    ) -> bool {
        let Some(source) = self.source else {
            return false;
        };
        let is_named = source.is_named
            && source.link.connection == connection
            && source.link.channel == channel
            && source
                .id
                .is_some_and(|id| covers(disposition.first, disposition.last_id(), id));
        if is_named && disposition.is_settled() {
            self.source = Some(DeliveryOrigin {
                is_named: false,
                ..source
            });
        }
        is_named
    }

    /// Another session begins on the channel: ids of the one before name nothing any more.
    fn end_session(&mut self, connection: u32, channel: u16) {
        self.copies
            .clear(scope_of(connection, channel, Sender::Router));
        if let Some(source) = self.source {
            if source.link.connection == connection && source.link.channel == channel {
                self.source = Some(DeliveryOrigin {
                    arrives: false,
                    is_named: false,
                    ..source
                });
            }
        }
    }
}

/// The ids of a sender on a channel.
fn scope_of(connection: u32, channel: u16, sender: Sender) -> Scope {
    Scope {
        connection,
        channel,
        sender,
    }
}

ghost use Rattle.std.specs.Prelude.{◌≡◌};
ghost use Rattle.flow_counts.specs.Covers.{covers};

/// Whether the range from `first` to `last` covers an id, as serial numbers.
fn covers(first: u32, last: u32, id: u32) -> bool
    ensures { result ≡ covers first last id }
{
    let span = last.wrapping_sub(first);
    id.wrapping_sub(first) <= span && span < 0x8000_0000
}
