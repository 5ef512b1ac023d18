//! A handle of a live session: its link, and what of it is still to be answered (part 2 of the standard, section 2.6).

ghost use Rattle.std.specs.Prelude.{◌≡◌, IfOk, None, OnOk, OnErr, is_some, option_map, ◌&&◌, if◌then◌else◌};
ghost use Rattle.state_tables.specs.Entries.{entries_of_handle};
ghost use Rattle.state_counts.specs.LinkCounts as counting;
ghost use Rattle.state_tables.specs.Links as law;
ghost use Rattle.state_tables.specs.Links.{asked_in, asked_next, awaits_next, begun, link_next, nothing, owes_next, standing_next, undetached_next};
ghost use Rattle.trace_events.specs.View.{asking_view, event_view, link_view};

use crate::counted_link::CountedLink;
use crate::held_attach::HeldAttach;
use state_counts::LinkCounts;
use std::alloc::{AllocError, Global};
use std::marker::Model;
use trace_events::{Asking, Event, Link, handle_in};

/// What stands of a handle.
#[doc(hidden)]
#[derive(Drop)]
pub struct Handle {
    link: Option<CountedLink>,
    attach: Option<HeldAttach>,
    owes_detach: bool,
    awaits_detach: bool,
    is_undetached: bool,
}

impl Model for Handle {
    ghost use Rattle.state_tables.specs.Links.{HandleState};

    ghost Value = { HandleState };

    ghost view = { λ x. record {
      link = x.link;
      asked = x.attach;
      owes_detach = x.owes_detach;
      awaits_detach = x.awaits_detach;
      is_undetached = x.is_undetached;
    } };
}

/// The handle that a flow, a transfer or a detach names.
pub(crate) fn named_handle(event: &Event) -> Option<u32>
    ensures { result ≡ counting.named_handle (event_view event.now) }
{
    handle_in(&event.moment.spoken()?.performative)
}

/// The client attaches the handle.
fn attaches_in(handle: u32, event: &Event) -> bool
    ensures { result ≡ law.attaches_in handle (event_view event.now) }
{
    match event.in_attach() {
        Some(attach) => attach.handle == handle,
        None => false,
    }
}

/// The router attaches it.
fn attaches_out(handle: u32, event: &Event) -> bool
    ensures { result ≡ law.attaches_out handle (event_view event.now) }
{
    match event.out_attach() {
        Some(attach) => attach.handle == handle,
        None => false,
    }
}

/// The client detaches it.
fn detaches_in(handle: u32, event: &Event) -> bool
    ensures { result ≡ law.detaches_in handle (event_view event.now) }
{
    match event.in_detach() {
        Some(detach) => detach.handle == handle,
        None => false,
    }
}

/// The router detaches it.
fn detaches_out(handle: u32, event: &Event) -> bool
    ensures { result ≡ law.detaches_out handle (event_view event.now) }
{
    match event.out_detach() {
        Some(detach) => detach.handle == handle,
        None => false,
    }
}

/// The link that the router's attach of the handle opens.
fn opened(alloc: Global, handle: u32, event: &Event) -> Result<Option<CountedLink>, AllocError>
    ensures { IfOk result (λ x. x ≡ (if law.attaches_out handle (event_view event.now) then option_map begun (event_view event.now).link else None)) }
{
    match event.link {
        Some(link) if attaches_out(handle, event) => Ok(Some(CountedLink::new(alloc, &link)?)),
        _ => Ok(None),
    }
}

/// What the client's attach of the handle asks for, where it is heard.
fn asked(alloc: Global, handle: u32, event: &Event) -> Result<Option<HeldAttach>, AllocError>
    ensures { IfOk result (λ x. x ≡ (if law.attaches_in handle (event_view event.now) && (event_view event.now).is_heard then asked_in (event_view event.now) else None)) }
{
    match event.in_attach() {
        Some(attach) if attach.handle == handle && event.is_heard => Ok(Some(HeldAttach::new(
            alloc, event, &attach,
        )?)),
        _ => Ok(None),
    }
}

impl Handle {
    /// Before its first event.
    pub(crate) fn nothing() -> Handle
        ensures { result ≡ nothing }
    {
        Handle {
            link: None,
            attach: None,
            owes_detach: false,
            awaits_detach: false,
            is_undetached: false,
        }
    }

    /// Nothing stands.
    pub(crate) fn is_nothing(&self) -> bool
        ensures { result ≡ law.is_nothing self.now }
    {
        self.link.is_none()
            && self.attach.is_none()
            && !self.owes_detach
            && !self.awaits_detach
            && !self.is_undetached
    }

    /// How many entries it has: its link, an attach and a detach that are to be answered, and a detach that is awaited.
    pub(crate) fn entries(&self) -> usize
        ensures { result ≡ entries_of_handle self.now }
    {
        usize::from(self.link.is_some())
            + usize::from(self.attach.is_some())
            + usize::from(self.owes_detach)
            + usize::from(self.awaits_detach)
    }

    /// The live link.
    pub(crate) fn link(&self) -> Option<Link<'_>>
        ensures { option_map link_view result ≡ law.link_of self.now }
    {
        match &self.link {
            Some(link) => Some(link.link()),
            None => None,
        }
    }

    /// Its counts.
    pub(crate) fn counts(&self) -> Option<LinkCounts>
        ensures { result ≡ law.counts_of self.now }
    {
        match &self.link {
            Some(link) => Some(link.counts()),
            None => None,
        }
    }

    /// What the client's attach asks for that is to be answered.
    pub(crate) fn asking(&self) -> Option<Asking<'_>>
        ensures { option_map asking_view result ≡ law.asking_of self.now }
    {
        match &self.attach {
            Some(attach) => Some(attach.asking()),
            None => None,
        }
    }

    /// The initial-delivery-count of that attach, 0 where it has none, or there is none.
    pub(crate) fn first_count(&self) -> u32
        ensures { result ≡ law.first_count_of self.now }
    {
        match &self.attach {
            Some(attach) => attach.first_count(),
            None => 0,
        }
    }

    /// A detach of the client's, or an attach of its that was refused, is to be answered.
    pub(crate) fn owes_detach(&self) -> bool
        ensures { result ≡ self.now.owes_detach }
    {
        self.owes_detach
    }

    /// The router has detached it, and the client hasn't.
    pub(crate) fn awaits_detach(&self) -> bool
        ensures { result ≡ self.now.awaits_detach }
    {
        self.awaits_detach
    }

    /// An event stands on its session.
    ///
    /// # Errors
    ///
    /// Memory was refused, for an attach; then all stays as it was.
    pub(crate) fn take(
        &mut self,
        alloc: Global,
        handle: u32,
        event: &Event,
    ) -> Result<(), AllocError>
        ensures taken { OnOk result (self.new ≡ standing_next handle (event_view event.now) self.old) }
        ensures unchanged { OnErr result (self.new ≡ self.old) }
    {
        let link = opened(alloc, handle, event)?;
        let attach = asked(alloc, handle, event)?;
        self.put_link(handle, event, link);
        self.put_attach(handle, event, attach);
        self.owes_detach = self.owes_after(handle, event);
        self.awaits_detach = self.awaits_after(handle, event);
        self.is_undetached = self.undetached_after(handle, event);
        Ok(())
    }

    /// The link behind the event, where this is the one that it opens.
    fn put_link(&mut self, handle: u32, event: &Event, link: Option<CountedLink>)
        requires { link ≡ (if law.attaches_out handle (event_view event.now) then option_map begun (event_view event.now).link else None) }
        ensures { self.new ≡ record self.old { link = link_next handle (event_view event.now) self.old.link } }
    {
        if detaches_in(handle, event) || detaches_out(handle, event) {
            self.link = None;
        } else if attaches_out(handle, event) {
            if link.is_some() {
                self.link = link;
            }
        } else if named_handle(event) == Some(handle) {
            self.count(event);
        }
    }

    /// The event names the link.
    fn count(&mut self, event: &Event)
        ensures { self.new ≡ record self.old { link = option_map (law.counted_next (event_view event.now)) self.old.link } }
    {
        if let Some(link) = &mut self.link {
            link.count(event);
        }
    }

    /// The attach that is to be answered behind the event, where this is the one that it asks for.
    fn put_attach(&mut self, handle: u32, event: &Event, attach: Option<HeldAttach>)
        requires { attach ≡ (if law.attaches_in handle (event_view event.now) && (event_view event.now).is_heard then asked_in (event_view event.now) else None) }
        ensures { self.new ≡ record self.old { asked = asked_next handle (event_view event.now) self.old.asked } }
    {
        if attaches_out(handle, event) {
            self.attach = None;
        } else if attaches_in(handle, event) && event.is_heard {
            self.attach = attach;
        }
    }

    fn owes_after(&self, handle: u32, event: &Event) -> bool
        ensures { result ≡ owes_next handle (event_view event.now) self.now.owes_detach }
    {
        !detaches_out(handle, event)
            && (detaches_in(handle, event) && event.link.is_some()
                || attaches_out(handle, event) && event.link.is_none()
                || self.owes_detach)
    }

    fn awaits_after(&self, handle: u32, event: &Event) -> bool
        ensures { result ≡ awaits_next handle (event_view event.now) self.now.is_undetached self.now.awaits_detach }
    {
        if attaches_out(handle, event) || detaches_in(handle, event) {
            false
        } else if detaches_out(handle, event) {
            self.is_undetached
        } else {
            self.awaits_detach
        }
    }

    fn undetached_after(&self, handle: u32, event: &Event) -> bool
        ensures { result ≡ undetached_next handle (event_view event.now) self.now.is_undetached }
    {
        attaches_out(handle, event) || !detaches_in(handle, event) && self.is_undetached
    }
}
