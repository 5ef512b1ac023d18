//! What happens to the deliveries of a session, and what they come to by it.

ghost use Rattle.std.specs.Prelude.{◌≡◌, reverse, IfOk, OnOk};
ghost use Rattle.flow_counts.specs.Parts.{Completed};
ghost use Rattle.flow_counts.specs.Covers.{outstanding};
ghost use Rattle.unsettled.specs.Deliveries as deliveries;
ghost use Rattle.unsettled.specs.Deliveries.{IsCount};
ghost use Rattle.unsettled.specs.Sent as sent;
ghost use Rattle.unsettled.specs.History.{part_event, parts_of};

use crate::fault::PartFault;
use crate::inbound::Inbound;
use crate::outstanding::Outstanding;
use bytes::Bytes;
use flow_counts::SentEvent;
use std::alloc::{AllocError, Global};

/// What happens to the deliveries that come in from a client.
#[derive(Clone, Copy, Debug, PartialEq, Eq)]
pub enum PartEvent<'a> {
    /// A transfer comes on a link.
    Part {
        link: u64,
        /// The record of the transfer.
        number: u64,
        id: Option<u32>,
        /// Its octets are shared, and not copied.
        payload: &'a Bytes,
    },
    /// The delivery in progress on a link is aborted.
    Aborted {
        link: u64,
    },
    /// The last part of the delivery in progress on a link has come.
    Completed {
        link: u64,
    },
    /// The delivery of an id is decided.
    Freed {
        id: u32,
    },
}

impl Inbound {
    /// One event more. A completion without a delivery in progress changes nothing.
    fn count(&mut self, event: PartEvent<'_>) -> Result<(), PartFault>
        ensures { OnOk result (deliveries.CountsOneMore self.old self.new (part_event event.entry)) }
    {
        match event {
            PartEvent::Part {
                link,
                number,
                id,
                payload,
            } => self.part(link, number, id, payload.clone()?)?,
            PartEvent::Aborted { link } => self.abort(link),
            PartEvent::Completed { link } => self.let_go(link),
            PartEvent::Freed { id } => self.freed(id),
        }
        Ok(())
    }

    /// The delivery in progress on the link is complete, if there is one.
    fn let_go(&mut self, link: u64)
        ensures { deliveries.CountsOneMore self.old self.new (Completed link) }
    {
        if self.is_in_progress(link) {
            self.complete(link);
        }
    }
}

/// What the deliveries of a session come to, to which this happened, the oldest first.
///
/// # Errors
///
/// The fault of the first part that is refused, as `Inbound::part` tells it; or `Memory`, where a payload has as many
/// owners already as it may have.
pub fn inbound_after(alloc: Global, events: &[PartEvent<'_>]) -> Result<Inbound, PartFault>
    ensures { IfOk result (λ inbound. IsCount inbound (parts_of events.now)) }
{
    let mut inbound = Inbound::new(alloc);
    for event in events {
        inbound.count(*event)?;
    }
    Ok(inbound)
}

impl Outstanding {
    /// One event more.
    fn count(&mut self, event: SentEvent) -> Result<(), AllocError>
        ensures { OnOk result (sent.CountsOneMore self.old self.new event) }
    {
        match event {
            SentEvent::Added { number, id } => self.add(number, id)?,
            SentEvent::Removed { number } => self.remove(number),
        }
        Ok(())
    }
}

/// The deliveries that are outstanding after this has happened, the oldest first.
///
/// # Errors
///
/// Where memory is refused.
pub fn outstanding_after(alloc: Global, events: &[SentEvent]) -> Result<Outstanding, AllocError>
    ensures { IfOk result (λ left. left ≡ outstanding (reverse events.now)) }
{
    let mut outstanding = Outstanding::new(alloc);
    for event in events {
        outstanding.count(*event)?;
    }
    Ok(outstanding)
}
