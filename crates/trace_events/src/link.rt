//! The link that an attach opens, and what ends it (part 2 of the standard, section 2.6).

ghost use Rattle.std.specs.Prelude.{◌≡◌, option_map};
ghost use Rattle.amqp_perf.specs.View.{attach_fields};
ghost use Rattle.amqp_perf.specs.NestedViews.{address_view, terminus_view, target_view};
ghost use Rattle.trace_events.specs.Link.{opens_link, address_text, source_address, target_address, address_at, first_count, is_settled_mode};
ghost use Rattle.trace_events.specs.Answering.{their_first_count};
ghost use Rattle.trace_events.specs.View.{event_view};

use crate::event::{Event, Link};
use crate::session::Session;
use amqp_perf::{Address, Attach, Role, SenderSettleMode, Target, Terminus};

/// An attach with source and target opens a link; one without both refuses it (2.6.3).
pub fn opens_link(attach: &Attach) -> bool
    ensures { result ≡ opens_link (attach_fields attach.now) }
{
    attach.source.is_some() && attach.target.is_some()
}

/// An address that is a text; any other is empty.
fn address_text<'a>(address: Option<Address<'a>>) -> &'a [u8]
    ensures { result.now ≡ address_text (option_map address_view address.entry) }
{
    match address {
        Some(Address::Text(text)) => text.as_bytes(),
        _ => &[],
    }
}

fn source_address<'a>(source: Option<Terminus<'a>>) -> &'a [u8]
    ensures { result.now ≡ source_address (option_map terminus_view source.entry) }
{
    match source {
        Some(terminus) => address_text(terminus.address),
        None => &[],
    }
}

fn target_address<'a>(target: Option<Target<'a>>) -> &'a [u8]
    ensures { result.now ≡ target_address (option_map target_view target.entry) }
{
    match target {
        Some(Target::Terminus(terminus)) => address_text(terminus.address),
        _ => &[],
    }
}

/// The address of a link, by the role that the router has on it: a receiver's is the target's, a sender's the source's.
pub fn address_at<'a>(role: Role, attach: &Attach<'a>) -> &'a [u8]
    ensures { result.now ≡ address_at role (attach_fields attach.now) }
{
    match role {
        Role::Receiver => target_address(attach.target),
        Role::Sender => source_address(attach.source),
    }
}

/// The initial-delivery-count of an attach, 0 where it has none (2.7.3).
fn first_count(attach: &Attach) -> u32
    ensures { result ≡ first_count (attach_fields attach.now) }
{
    attach.initial_delivery_count.unwrap_or(0)
}

/// The same of the client's attach that an event is, 0 where there is none.
pub fn their_first_count(event: Option<Event>) -> u32
    ensures { result ≡ their_first_count (option_map event_view event.entry) }
{
    let attach = match event {
        Some(event) => event.in_attach(),
        None => None,
    };
    match attach {
        Some(attach) => first_count(&attach),
        None => 0,
    }
}

/// Deliveries are sent settled (2.8.2).
fn is_settled_mode(mode: SenderSettleMode) -> bool
    ensures { result ≡ is_settled_mode mode }
{
    mode == SenderSettleMode::Settled
}

impl<'a> Link<'a> {
    ghost use Rattle.std.specs.Prelude.{◌≡◌};
    ghost use Rattle.amqp_perf.specs.View.{attach_fields};
    ghost use Rattle.trace_events.specs.Link.{is_anonymous, is_producer, is_consumer};
    ghost use Rattle.trace_events.specs.Answering.{link_answering};
    ghost use Rattle.trace_events.specs.View.{link_view};

    /// The link that an Out attach, in this record, opens in answer to the client's of this initial-delivery-count.
    pub fn new(number: u64, session: Session, ours: &Attach<'a>, their_first_count: u32) -> Link<'a>
        ensures { link_view result ≡ link_answering number session (attach_fields ours.now) their_first_count }
    {
        Link {
            number,
            session,
            handle: ours.handle,
            role: ours.role,
            address: address_at(ours.role, ours),
            is_pre_settled: is_settled_mode(ours.sender_mode()),
            our_first_count: first_count(ours),
            their_first_count,
        }
    }

    /// It has no address: each delivery on it is for the one in its message.
    pub fn is_anonymous(&self) -> bool
        ensures { result ≡ is_anonymous (link_view self.now) }
    {
        self.address.is_empty()
    }

    /// Deliveries come from the client.
    pub fn is_producer(&self) -> bool
        ensures { result ≡ is_producer (link_view self.now) }
    {
        self.role == Role::Receiver
    }

    /// Deliveries go to the client.
    pub fn is_consumer(&self) -> bool
        ensures { result ≡ is_consumer (link_view self.now) }
    {
        self.role == Role::Sender
    }
}

impl<'a, 'r, 'm> Event<'a, 'r, 'm> {
    ghost use Rattle.std.specs.Prelude.{◌≡◌, option_map};
    ghost use Rattle.trace_events.specs.Link.{attaches_in, attaches_out, detaches_in, detaches_out, opened_consumer};
    ghost use Rattle.trace_events.specs.Ends.{replaces_link, ends_link};
    ghost use Rattle.trace_events.specs.View.{link_view, event_view};

    /// An attach of the handle on the session, from the client.
    pub fn attaches_in(&self, session: Session, handle: u32) -> bool
        ensures { result ≡ attaches_in session handle (event_view self.now) }
    {
        match self.in_attach() {
            Some(attach) => attach.handle == handle && self.is_on_session(session),
            None => false,
        }
    }

    /// An attach of the handle on the session, to the client.
    pub fn attaches_out(&self, session: Session, handle: u32) -> bool
        ensures { result ≡ attaches_out session handle (event_view self.now) }
    {
        match self.out_attach() {
            Some(attach) => attach.handle == handle && self.is_on_session(session),
            None => false,
        }
    }

    /// A detach of the handle on the session, from the client.
    pub fn detaches_in(&self, session: Session, handle: u32) -> bool
        ensures { result ≡ detaches_in session handle (event_view self.now) }
    {
        match self.in_detach() {
            Some(detach) => detach.handle == handle && self.is_on_session(session),
            None => false,
        }
    }

    /// A detach of the handle on the session, to the client.
    pub fn detaches_out(&self, session: Session, handle: u32) -> bool
        ensures { result ≡ detaches_out session handle (event_view self.now) }
    {
        match self.out_detach() {
            Some(detach) => detach.handle == handle && self.is_on_session(session),
            None => false,
        }
    }

    /// The consumer's link that it opens. `None` where it opens none, or a producer's.
    pub fn opened_consumer(&self) -> Option<Link<'a>>
        ensures { option_map link_view result ≡ opened_consumer (event_view self.now) }
    {
        match self.link {
            Some(link) if link.number == self.number && link.role == Role::Sender => Some(link),
            _ => None,
        }
    }

    /// An Out attach of the link's handle that opens another.
    fn replaces_link(&self, link: &Link) -> bool
        ensures { result ≡ replaces_link (link_view link.now) (event_view self.now) }
    {
        match self.out_attach() {
            Some(attach) => opens_link(&attach) && self.attaches_out(link.session, link.handle),
            None => false,
        }
    }

    /// The end of the link's session, a detach of its handle, or an Out attach that opens another.
    pub fn ends_link(&self, link: &Link) -> bool
        ensures { result ≡ ends_link (link_view link.now) (event_view self.now) }
    {
        self.ends_session(link.session)
            || (self.detaches_in(link.session, link.handle)
                || self.detaches_out(link.session, link.handle))
            || self.replaces_link(link)
    }
}
