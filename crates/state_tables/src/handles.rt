//! The handles of a live session.

ghost use Rattle.std.specs.Prelude.{◌≡◌, ℕ, None, OnOk, OnErr, nat_eq, unwrap_or, ◌==◌, if◌then◌else◌};
ghost use Rattle.indexmap.specs.IndexMap.{get};
ghost use Rattle.amqp_perf.specs.View.{view};
ghost use Rattle.std.specs.Option.{option_copied};
ghost use Rattle.state_tables.specs.Entries.{capped, entries_of_session};
ghost use Rattle.state_tables.specs.Links.{handle_about, handle_of, nothing, standing_next};
ghost use Rattle.state_tables.specs.LinkTables.{IsEmpty, IsMoved, IsSame, standing_on};
ghost use Rattle.trace_events.specs.View.{event_view};

use crate::handle::Handle;
use amqp_perf::Performative;
use number_map::NumberMap;
use std::alloc::{AllocError, Global};
use trace_events::{Event, handle_in};

/// The handles of a session of which something stands.
#[doc(hidden)]
#[derive(Drop)]
pub struct Handles {
    alloc: Global,
    pub(crate) entries: NumberMap<u32, Handle>,
}

/// The handle of which a performative says something.
fn handle_about(performative: &Performative) -> Option<u32>
    ensures { result ≡ handle_about (view performative.now) }
{
    match performative {
        Performative::Attach(attach) => Some(attach.handle),
        _ => handle_in(performative),
    }
}

/// The handle of which an event says something.
pub(crate) fn handle_of(event: &Event) -> Option<u32>
    ensures { result ≡ handle_of (event_view event.now) }
{
    handle_about(&event.moment.spoken()?.performative)
}

impl Handles {
    /// Of a session that begins.
    pub(crate) fn new(alloc: Global) -> Handles
        ensures { IsEmpty result }
    {
        Handles {
            alloc,
            entries: NumberMap::new(alloc),
        }
    }

    /// What stands of the handle, if anything.
    pub(crate) fn handle(&self, handle: u32) -> Option<&Handle>
        ensures { unwrap_or (option_copied result) nothing ≡ standing_on self.now handle }
    {
        self.entries.get(&handle)
    }

    /// How many entries the handles of the session have; the greatest number where there are more.
    pub(crate) fn entries(&self) -> usize
        ensures { result ≡ capped (entries_of_session self.now) }
    {
        let mut count: usize = 0;
        for handle in self.entries.values().as_slice() {
            count = count.saturating_add(handle.entries());
        }
        count
    }

    /// An event stands on the session.
    ///
    /// # Errors
    ///
    /// Memory was refused, for an attach; then all stays as it was.
    pub(crate) fn take(&mut self, event: &Event) -> Result<(), AllocError>
        ensures taken { OnOk result (IsMoved (event_view event.now) self.old self.new) }
        ensures unchanged { OnErr result (IsSame self.old self.new) }
    {
        let Some(handle) = handle_of(event) else {
            return Ok(());
        };
        self.put(handle, event)?;
        self.forget(handle);
        Ok(())
    }

    /// The event, which says something of the handle, stands in its entry.
    #[inline(always)]
    fn put(&mut self, handle: u32, event: &Event) -> Result<(), AllocError>
        ensures taken { OnOk result ((n : ℕ) → standing_on self.new n ≡ (if handle == n then standing_next handle (event_view event.now) (standing_on self.old n) else standing_on self.old n)) }
        ensures unchanged { OnErr result (IsSame self.old self.new) }
    {
        match self.entries.get_mut(&handle) {
            Some(entry) => entry.take(self.alloc, handle, event),
            None => self.put_first(handle, event),
        }
    }

    /// The event is the first that says something of the handle.
    fn put_first(&mut self, handle: u32, event: &Event) -> Result<(), AllocError>
        requires new { get nat_eq self.old.entries handle ≡ None }
        ensures taken { OnOk result ((n : ℕ) → standing_on self.new n ≡ (if handle == n then standing_next handle (event_view event.now) (standing_on self.old n) else standing_on self.old n)) }
        ensures unchanged { OnErr result (IsSame self.old self.new) }
    {
        let mut entry = Handle::nothing();
        entry.take(self.alloc, handle, event)?;
        if !entry.is_nothing() {
            self.entries.insert(handle, entry)?;
        }
        Ok(())
    }

    /// Where nothing stands of the handle any more, it has no entry.
    fn forget(&mut self, handle: u32)
        ensures { IsSame self.old self.new }
    {
        let is_nothing = match self.entries.get(&handle) {
            Some(entry) => entry.is_nothing(),
            None => false,
        };
        if is_nothing {
            self.entries.swap_remove(&handle);
        }
    }
}
