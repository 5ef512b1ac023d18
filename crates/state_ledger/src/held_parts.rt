//! The link of an event and the deliveries that its transfer begins or goes on with, kept: with addresses of their own.

ghost use Rattle.std.specs.Prelude.{◌≡◌, IfOk, OnOk, OnErr, is_some, true, option_map};
ghost use Rattle.state_ledger.specs.HeldEvents.{parts_of, has_parts, held_incoming_view, held_outgoing_view, held_parts_view};
ghost use Rattle.state_tables.specs.HeldViews.{held_link_view};
ghost use Rattle.trace_events.specs.View.{event_view, incoming_view, link_view, outgoing_view};

use pairing_cert::Note;
use state_tables::HeldLink;
use std::alloc::{AllocError, Global};
use trace_events::{Event, Incoming, Link, Outgoing};

/// A delivery from a client, with a link of its own.
#[doc(hidden)]
#[derive(Drop)]
pub struct HeldIncoming {
    number: u64,
    link: HeldLink,
    id: Option<u32>,
    format: u32,
}

impl HeldIncoming {
    /// A copy of it.
    ///
    /// # Errors
    ///
    /// Memory was refused, for the address of its link.
    fn new(alloc: Global, delivery: &Incoming) -> Result<HeldIncoming, AllocError>
        ensures { IfOk result (λ own. held_incoming_view own ≡ incoming_view delivery.now) }
    {
        Ok(HeldIncoming {
            number: delivery.number,
            link: HeldLink::new(alloc, &delivery.link)?,
            id: delivery.id,
            format: delivery.format,
        })
    }

    /// The delivery, with the address lent.
    fn delivery(&self) -> Incoming<'_>
        ensures { incoming_view result ≡ held_incoming_view self.now }
    {
        Incoming {
            number: self.number,
            link: self.link.link(),
            id: self.id,
            format: self.format,
        }
    }
}

/// A delivery to a client, with a link of its own.
#[doc(hidden)]
#[derive(Drop)]
pub struct HeldOutgoing {
    number: u64,
    link: HeldLink,
    note: Note,
    id: Option<u32>,
    is_settled: bool,
}

impl HeldOutgoing {
    /// A copy of it.
    ///
    /// # Errors
    ///
    /// Memory was refused, for the address of its link.
    fn new(alloc: Global, delivery: &Outgoing) -> Result<HeldOutgoing, AllocError>
        ensures { IfOk result (λ own. held_outgoing_view own ≡ outgoing_view delivery.now) }
    {
        Ok(HeldOutgoing {
            number: delivery.number,
            link: HeldLink::new(alloc, &delivery.link)?,
            id: delivery.id,
            is_settled: delivery.is_settled,
            note: delivery.note,
        })
    }

    /// The delivery, with the address lent.
    fn delivery(&self) -> Outgoing<'_>
        ensures { outgoing_view result ≡ held_outgoing_view self.now }
    {
        Outgoing {
            number: self.number,
            link: self.link.link(),
            id: self.id,
            is_settled: self.is_settled,
            note: self.note,
        }
    }
}

/// What of an event has addresses: its link, and the deliveries that its transfer begins or goes on with.
#[doc(hidden)]
#[derive(Drop)]
pub struct HeldParts {
    link: Option<HeldLink>,
    incoming: Option<HeldIncoming>,
    outgoing: Option<HeldOutgoing>,
}

fn held_link(alloc: Global, link: Option<Link>) -> Result<Option<HeldLink>, AllocError>
    ensures value { IfOk result (λ own. option_map held_link_view own ≡ option_map link_view link.entry) }
    ensures refused { OnErr result (is_some link.entry ≡ true) }
{
    match link {
        Some(link) => Ok(Some(HeldLink::new(alloc, &link)?)),
        None => Ok(None),
    }
}

fn held_incoming(
    alloc: Global,
    delivery: Option<Incoming>,
) -> Result<Option<HeldIncoming>, AllocError>
    ensures value { IfOk result (λ own. option_map held_incoming_view own ≡ option_map incoming_view delivery.entry) }
    ensures refused { OnErr result (is_some delivery.entry ≡ true) }
{
    match delivery {
        Some(delivery) => Ok(Some(HeldIncoming::new(alloc, &delivery)?)),
        None => Ok(None),
    }
}

fn held_outgoing(
    alloc: Global,
    delivery: Option<Outgoing>,
) -> Result<Option<HeldOutgoing>, AllocError>
    ensures value { IfOk result (λ own. option_map held_outgoing_view own ≡ option_map outgoing_view delivery.entry) }
    ensures refused { OnErr result (is_some delivery.entry ≡ true) }
{
    match delivery {
        Some(delivery) => Ok(Some(HeldOutgoing::new(alloc, &delivery)?)),
        None => Ok(None),
    }
}

impl HeldParts {
    /// None of them.
    pub(crate) fn new() -> HeldParts {
        HeldParts {
            link: None,
            incoming: None,
            outgoing: None,
        }
    }

    /// Copies of those of the event, in the place of those before.
    ///
    /// # Errors
    ///
    /// Memory was refused, for the address of a link; the event has one, or a delivery. Then some may be those before.
    pub(crate) fn keep(&mut self, alloc: Global, event: &Event) -> Result<(), AllocError>
        ensures value { OnOk result (held_parts_view self.new ≡ parts_of (event_view event.now)) }
        ensures refused { OnErr result (has_parts (parts_of (event_view event.now)) ≡ true) }
    {
        self.link = held_link(alloc, event.link)?;
        self.incoming = held_incoming(alloc, event.incoming)?;
        self.outgoing = held_outgoing(alloc, event.outgoing)?;
        Ok(())
    }

    /// The link, with the address lent.
    pub(crate) fn link(&self) -> Option<Link<'_>>
        ensures { option_map link_view result ≡ (held_parts_view self.now).link }
    {
        match &self.link {
            Some(link) => Some(link.link()),
            None => None,
        }
    }

    /// The delivery from a client, with the address lent.
    pub(crate) fn incoming(&self) -> Option<Incoming<'_>>
        ensures { option_map incoming_view result ≡ (held_parts_view self.now).incoming }
    {
        match &self.incoming {
            Some(delivery) => Some(delivery.delivery()),
            None => None,
        }
    }

    /// The delivery to a client, with the address lent.
    pub(crate) fn outgoing(&self) -> Option<Outgoing<'_>>
        ensures { option_map outgoing_view result ≡ (held_parts_view self.now).outgoing }
    {
        match &self.outgoing {
            Some(delivery) => Some(delivery.delivery()),
            None => None,
        }
    }
}
