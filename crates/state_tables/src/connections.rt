//! The connections of which a record stands, with their live sessions and what is still to be answered on their channels.
//! Those of which nothing more is to come stand in runs of neighbours that came to the same, so that one that came and went
//! takes no memory for ever.

ghost use Rattle.std.specs.Prelude.{◌≡◌, List, [], ◌∷◌, None, Some, OnOk, OnErr, IfSome, IsTrue, ℕ, nat_eq};
ghost use Rattle.indexmap.specs.IndexMap.{get};
ghost use Rattle.capture_form.specs.Rules.{RuleSet};
ghost use Rattle.capture_form.specs.declared.records.Record.{Record};
ghost use Rattle.trace_events.specs.History.{history};
ghost use Rattle.number_runs.specs.Runs.{value_in};
ghost use Rattle.state_tables.specs.Connections.{AreKept, AreSame, AreSeen, HasNoRoom, IsDone, IsLawfulNext, TakesOne, connection_at, seen_in, seen_over, session_in, unanswered_in};
ghost use Rattle.state_tables.specs.Entries.{capped, entries_of_connections};
ghost use Rattle.state_counts.specs.Sessions.{session_at};
ghost use Rattle.state_tables.specs.Unanswered.{unanswered_at};
ghost use Rattle.trace_events.specs.View.{Events, event_view};

use crate::connection::{Connection, ConnectionSummary};
use crate::unanswered::Unanswered;
use number_map::NumberMap;
use number_runs::{NumberRuns, RunValue};
use state_counts::CountedSession;
use std::alloc::{AllocError, Global};
use trace_events::Event;

/// The connections of which a record stands.
pub struct Connections {
    alloc: Global,
    /// Those of which more may come, or of which something is still to be answered. They are asked first.
    entries: NumberMap<u32, Connection>,
    /// What those have come to of which nothing more is to come.
    over: NumberRuns<ConnectionSummary>,
}

// Written out, and not derived, so that where one is let go the prover need not go through all that it owns.
impl Drop for Connections {
    fn drop(self) {
        let Connections {
            alloc: _,
            entries: _,
            over: _,
        } = self;
    }
}

impl Connections {
    /// No records.
    pub fn new(alloc: Global) -> Connections
        ensures seen { AreSeen result [] }
        ensures kept { AreKept result [] }
    {
        Connections {
            alloc,
            entries: NumberMap::new(alloc),
            over: NumberRuns::new(alloc),
        }
    }

    /// What the connection has come to.
    pub fn seen(&self, connection: u32) -> ConnectionSummary
        ensures stored { result ≡ seen_in self.now connection }
        ensures known { (history : Events) → AreSeen self.now history → result ≡ connection_at connection history }
    {
        match self.entries.get(&connection) {
            Some(connection) => connection.seen(),
            None => self.seen_over(connection),
        }
    }

    /// What the connection has come to, where it has no entry.
    fn seen_over(&self, connection: u32) -> ConnectionSummary
        ensures { result ≡ seen_over self.now connection }
    {
        match self.over.get(connection) {
            Some(seen) => seen,
            None => ConnectionSummary::new(),
        }
    }

    /// The live session of the channel, with its counts. `None` where none lives there.
    pub fn session(&self, connection: u32, channel: u16) -> Option<CountedSession>
        ensures stored { result ≡ session_in self.now connection channel }
        ensures known { (history : Events) → AreKept self.now history → result ≡ session_at connection channel history }
    {
        self.entries.get(&connection)?.session(channel)
    }

    /// What of the channel is still to be answered.
    pub fn unanswered(&self, connection: u32, channel: u16) -> Unanswered
        ensures stored { result ≡ unanswered_in self.now connection channel }
        ensures known { (history : Events) → AreKept self.now history → result ≡ unanswered_at connection channel history }
    {
        match self.entries.get(&connection) {
            Some(connection) => connection.unanswered(channel),
            None => Unanswered::nothing(),
        }
    }

    /// How many entries there are: connections of which more may come, runs of others, sessions that are live or await their
    /// end, and the begins and ends of clients that are still to be answered; the greatest number where there are more.
    pub fn entries(&self) -> usize
        ensures { result ≡ capped (entries_of_connections self.now) }
    {
        let mut count = self.over.runs();
        for connection in self.entries.values().as_slice() {
            count = count.saturating_add(connection.entries());
        }
        count
    }

    /// The event follows those so far.
    ///
    /// # Errors
    ///
    /// Memory was refused, for a connection that is new or of which nothing more was to come, or for a begin or an end where a
    /// table of its connection is full or is not there yet; then all stays as it was. An end of a connection needs no memory.
    pub fn take(&mut self, event: &Event) -> Result<(), AllocError>
        ensures seen { OnOk result ((history : Events) → AreSeen self.old history → AreSeen self.new (event_view event.now ∷ history)) }
        ensures kept { OnOk result ((rules : RuleSet) (records : List Record) (r : Record) → IsLawfulNext rules records r (event_view event.now) →
            AreKept self.old (history rules records) → AreKept self.new (event_view event.now ∷ history rules records)) }
        ensures unchanged { OnErr result (AreSame self.old self.new) }
        ensures full { OnErr result (HasNoRoom self.old (event_view event.now)) }
    {
        self.put(event)?;
        Ok(())
    }

    /// The event stands in the entry of its connection, which goes if nothing more is to come.
    fn put(&mut self, event: &Event) -> Result<(), AllocError>
        ensures taken { OnOk result (TakesOne (event_view event.now) self.old self.new) }
        ensures unchanged { OnErr result (AreSame self.old self.new) }
        ensures full { OnErr result (HasNoRoom self.old (event_view event.now)) }
    {
        self.put_in_entry(event)?;
        self.retire(event);
        Ok(())
    }

    /// The event stands in the entry of its connection.
    fn put_in_entry(&mut self, event: &Event) -> Result<(), AllocError>
        ensures taken { OnOk result (TakesOne (event_view event.now) self.old self.new) }
        ensures unchanged { OnErr result (AreSame self.old self.new) }
        ensures full { OnErr result (HasNoRoom self.old (event_view event.now)) }
    {
        match self.entries.get_mut(&event.connection) {
            Some(connection) => connection.take(event),
            None => self.put_first(event),
        }
    }

    /// The event is the first of its connection, or one behind that with which nothing more was to come.
    fn put_first(&mut self, event: &Event) -> Result<(), AllocError>
        requires new { get nat_eq self.old.entries event.now.connection ≡ None }
        ensures taken { OnOk result (TakesOne (event_view event.now) self.old self.new) }
        ensures unchanged { OnErr result (AreSame self.old self.new) }
        ensures full { OnErr result (HasNoRoom self.old (event_view event.now)) }
    {
        let mut connection = Connection::of(self.alloc, self.seen_over(event.connection));
        connection.take(event)?;
        self.entries.insert(event.connection, connection)?;
        Ok(())
    }

    /// The entry goes of a connection of which nothing more is to come behind the event, and what it has come to stands in a
    /// run. Without memory for the run the entry stays, and so it does where a record came behind that with which nothing more
    /// was to come, and changed something.
    fn retire(&mut self, event: &Event)
        ensures { AreSame self.old self.new }
    {
        let connection = event.connection;
        let Some(seen) = self.done(event) else {
            return;
        };
        if self.over.insert(connection, seen).is_err() {
            return;
        }
        if self.is_over_with(connection, seen) {
            self.entries.swap_remove(&connection);
        }
    }

    /// What the connection has come to, if nothing more of it is to come behind the event: it is lost, or closed from both
    /// ends; and nothing is to be answered.
    fn done(&self, event: &Event) -> Option<ConnectionSummary>
        ensures { IfSome result (λ seen. IsDone seen (get nat_eq self.now.entries event.now.connection)) }
    {
        if !event.moment.is_final() {
            return None;
        }
        let entry = self.entries.get(&event.connection)?;
        let seen = entry.seen();
        if entry.has_none() && (event.moment.is_lost() || seen.was_finished && seen.was_stopped) {
            Some(seen)
        } else {
            None
        }
    }

    /// The connection stands in a run, with what it has come to.
    fn is_over_with(&self, connection: u32, seen: ConnectionSummary) -> bool
        ensures { IsTrue result → value_in self.now.over connection ≡ Some seen }
    {
        match self.over.get(connection) {
            Some(found) => found.is_same(seen),
            None => false,
        }
    }
}
