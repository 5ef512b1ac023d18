//! The links of live sessions, and what is still to be answered of their handles.

ghost use Rattle.std.specs.Prelude.{◌≡◌, ℕ, List, [], ◌∷◌, None, OnOk, OnErr, nat_eq, true, unwrap_or};
ghost use Rattle.std.specs.Option.{option_copied};
ghost use Rattle.indexmap.specs.IndexMap.{get};
ghost use Rattle.capture_form.specs.Rules.{RuleSet};
ghost use Rattle.capture_form.specs.declared.records.Record.{Record};
ghost use Rattle.trace_events.specs.History.{history, judge};
ghost use Rattle.state_tables.specs.Entries.{capped, entries_of_links};
ghost use Rattle.state_tables.specs.Links.{nothing, says_of_handle};
ghost use Rattle.state_tables.specs.LinkTables.{AreLinked, LinksMoved, LinksSame, standing_in};
ghost use Rattle.trace_events.specs.View.{Events, event_view};

use crate::channels::{Channels, says_of_handle};
use crate::handle::Handle;
use number_map::NumberMap;
use std::alloc::{AllocError, Global};
use trace_events::Event;

/// The links of live sessions, with the counts of their credit, and what is still to be answered of their handles.
pub struct Links {
    alloc: Global,
    pub(crate) entries: NumberMap<u32, Channels>,
}

// Written out, and not derived, so that where one is let go the prover need not go through all that it owns.
impl Drop for Links {
    fn drop(self) {
        let Links {
            alloc: _,
            entries: _,
        } = self;
    }
}

impl Links {
    /// No records.
    pub fn new(alloc: Global) -> Links
        ensures { AreLinked result [] }
    {
        Links {
            alloc,
            entries: NumberMap::new(alloc),
        }
    }

    /// What stands of a handle, if anything.
    pub(crate) fn handle(&self, connection: u32, channel: u16, handle: u32) -> Option<&Handle>
        ensures { unwrap_or (option_copied result) nothing ≡ standing_in self.now connection channel handle }
    {
        self.entries.get(&connection)?.handle(channel, handle)
    }

    /// How many entries there are: links that are live or await their detach, and the attaches and detaches of clients that are
    /// still to be answered; the greatest number where there are more.
    pub fn entries(&self) -> usize
        ensures { result ≡ capped (entries_of_links self.now) }
    {
        let mut count: usize = 0;
        for connection in self.entries.values().as_slice() {
            count = count.saturating_add(connection.entries());
        }
        count
    }

    /// The event follows those so far.
    ///
    /// # Errors
    ///
    /// Memory was refused, for an event that says something of a handle; then all stays as it was.
    pub fn take(&mut self, event: &Event) -> Result<(), AllocError>
        ensures kept { OnOk result ((rules : RuleSet) (records : List Record) (r : Record) → event_view event.now ≡ judge rules (history rules records) r →
            AreLinked self.old (history rules records) → AreLinked self.new (event_view event.now ∷ history rules records)) }
        ensures unchanged { OnErr result (LinksSame self.old self.new) }
        ensures said { OnErr result (says_of_handle (event_view event.now) ≡ true) }
    {
        self.put(event)?;
        Ok(())
    }

    /// The event stands in the entry of its connection.
    fn put(&mut self, event: &Event) -> Result<(), AllocError>
        ensures taken { OnOk result (LinksMoved (event_view event.now) self.old self.new) }
        ensures unchanged { OnErr result (LinksSame self.old self.new) }
        ensures said { OnErr result (says_of_handle (event_view event.now) ≡ true) }
    {
        if event.moment.is_final() {
            self.entries.swap_remove(&event.connection);
            return Ok(());
        }
        match self.entries.get_mut(&event.connection) {
            Some(connection) => connection.take(event),
            None if says_of_handle(event) => self.put_first(event),
            None => Ok(()),
        }
    }

    /// The event is the first of its connection that says something of a handle.
    fn put_first(&mut self, event: &Event) -> Result<(), AllocError>
        requires new { get nat_eq self.old.entries event.now.connection ≡ None }
        ensures taken { OnOk result (LinksMoved (event_view event.now) self.old self.new) }
        ensures unchanged { OnErr result (LinksSame self.old self.new) }
    {
        let mut connection = Channels::new(self.alloc);
        connection.take(event)?;
        self.entries.insert(event.connection, connection)?;
        Ok(())
    }
}
