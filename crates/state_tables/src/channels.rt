//! The sessions of a connection, as far as their handles go.

ghost use Rattle.std.specs.Prelude.{◌≡◌, ℕ, None, OnOk, OnErr, nat_eq, option_and_then, true, unwrap_or, ◌==◌, if◌then◌else◌};
ghost use Rattle.std.specs.Option.{option_copied};
ghost use Rattle.indexmap.specs.IndexMap.{get};
ghost use Rattle.state_tables.specs.Entries.{capped, entries_of_channels};
ghost use Rattle.state_tables.specs.Links.{nothing, says_of_handle, standing_next};
ghost use Rattle.state_tables.specs.LinkTables.{AreEmpty, AreMoved, AreMovedOn, AreSame, standing_of};
ghost use Rattle.trace_events.specs.View.{event_view};

use crate::ended_links::ends_channel;
use crate::handle::Handle;
use crate::handles::{Handles, handle_of};
use number_map::NumberMap;
use std::alloc::{AllocError, Global};
use trace_events::Event;

/// The channels of a connection on which something stands of a handle.
#[doc(hidden)]
#[derive(Drop)]
pub struct Channels {
    alloc: Global,
    pub(crate) entries: NumberMap<u16, Handles>,
}

/// The event says something of a handle on a live session.
pub(crate) fn says_of_handle(event: &Event) -> bool
    ensures { result ≡ says_of_handle (event_view event.now) }
{
    event.session.is_some() && handle_of(event).is_some()
}

impl Channels {
    /// Of a connection that is new.
    pub(crate) fn new(alloc: Global) -> Channels
        ensures { AreEmpty result }
    {
        Channels {
            alloc,
            entries: NumberMap::new(alloc),
        }
    }

    /// What stands of a handle, if anything.
    pub(crate) fn handle(&self, channel: u16, handle: u32) -> Option<&Handle>
        ensures { unwrap_or (option_copied result) nothing ≡ standing_of self.now channel handle }
    {
        self.entries.get(&channel)?.handle(handle)
    }

    /// How many entries the handles of the connection have; the greatest number where there are more.
    pub(crate) fn entries(&self) -> usize
        ensures { result ≡ capped (entries_of_channels self.now) }
    {
        let mut count: usize = 0;
        for session in self.entries.values().as_slice() {
            count = count.saturating_add(session.entries());
        }
        count
    }

    /// An event of the connection.
    ///
    /// # Errors
    ///
    /// Memory was refused, for an event that says something of a handle; then all stays as it was.
    pub(crate) fn take(&mut self, event: &Event) -> Result<(), AllocError>
        ensures taken { OnOk result (AreMoved (event_view event.now) self.old self.new) }
        ensures unchanged { OnErr result (AreSame self.old self.new) }
        ensures said { OnErr result (says_of_handle (event_view event.now) ≡ true) }
    {
        if event.moment.is_final() {
            self.entries = NumberMap::new(self.alloc);
        } else if let Some(channel) = event.moment.channel() {
            self.take_on(channel, event)?;
        }
        Ok(())
    }

    /// The event stands on the channel.
    fn take_on(&mut self, channel: u16, event: &Event) -> Result<(), AllocError>
        ensures taken { OnOk result (AreMovedOn channel (event_view event.now) self.old self.new) }
        ensures unchanged { OnErr result (AreSame self.old self.new) }
        ensures said { OnErr result (says_of_handle (event_view event.now) ≡ true) }
    {
        if ends_channel(event) {
            self.entries.swap_remove(&channel);
            return Ok(());
        }
        if !says_of_handle(event) {
            return Ok(());
        }
        self.put(channel, event)?;
        Ok(())
    }

    /// The event, which says something of a handle, stands in the entry of its session.
    #[inline(always)]
    fn put(&mut self, channel: u16, event: &Event) -> Result<(), AllocError>
        ensures taken { OnOk result ((n handle : ℕ) → standing_of self.new n handle
            ≡ (if channel == n then standing_next handle (event_view event.now) (standing_of self.old n handle) else standing_of self.old n handle)) }
        ensures unchanged { OnErr result (AreSame self.old self.new) }
    {
        match self.entries.get_mut(&channel) {
            Some(session) => session.take(event),
            None => self.put_first(channel, event),
        }
    }

    /// The event is the first of its session that says something of a handle.
    fn put_first(&mut self, channel: u16, event: &Event) -> Result<(), AllocError>
        requires new { get nat_eq self.old.entries channel ≡ None }
        ensures taken { OnOk result ((n handle : ℕ) → standing_of self.new n handle
            ≡ (if channel == n then standing_next handle (event_view event.now) (standing_of self.old n handle) else standing_of self.old n handle)) }
        ensures unchanged { OnErr result (AreSame self.old self.new) }
    {
        let mut session = Handles::new(self.alloc);
        session.take(event)?;
        self.entries.insert(channel, session)?;
        Ok(())
    }
}
