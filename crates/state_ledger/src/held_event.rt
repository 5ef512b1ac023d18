//! An event that is kept, but for its moment, with addresses of its own: what it borrowed them from may then be moved by it.

ghost use Rattle.std.specs.Prelude.{◌≡◌, OnOk, OnErr, true};
ghost use Rattle.state_ledger.specs.HeldEvents.{facts_of, parts_of, has_parts, held_event_view};
ghost use Rattle.trace_events.specs.Event as law;
ghost use Rattle.trace_events.specs.History.{moment_of};
ghost use Rattle.trace_events.specs.View.{event_view};

use crate::held_parts::HeldParts;
use pairing_cert::Note;
use std::alloc::{AllocError, Global};
use trace_events::{Event, Fault, ReadRecord, Session};

/// What of an event borrows nothing.
#[doc(hidden)]
#[derive(Clone, Copy)]
pub struct HeldFacts {
    number: u64,
    session: Option<Session>,
    told: Option<u64>,
    settled: Option<u64>,
    note: Note,
    connection: u32,
    is_heard: bool,
    fault: Option<Fault>,
}

impl HeldFacts {
    /// Those of no record.
    fn none() -> HeldFacts {
        HeldFacts {
            number: 0,
            connection: 0,
            note: Note::None,
            session: None,
            told: None,
            settled: None,
            is_heard: false,
            fault: None,
        }
    }

    fn new(event: &Event) -> HeldFacts
        ensures { result ≡ facts_of (event_view event.now) }
    {
        HeldFacts {
            number: event.number,
            connection: event.connection,
            note: event.note,
            session: event.session,
            told: event.told,
            settled: event.settled,
            is_heard: event.is_heard,
            fault: event.fault,
        }
    }
}

/// An event but for its moment. The octets of its frame stand with whoever read them, and are handed back with the moment.
#[derive(Drop)]
pub struct HeldEvent {
    facts: HeldFacts,
    parts: HeldParts,
}

impl HeldEvent {
    /// The place for one: of no record yet. It takes no memory.
    pub fn new() -> HeldEvent {
        HeldEvent {
            facts: HeldFacts::none(),
            parts: HeldParts::new(),
        }
    }

    /// Keeps this event in the place of the one before.
    ///
    /// # Errors
    ///
    /// Memory was refused, for the address of a link; the event has one, or a delivery. Then what is kept may be of neither.
    pub fn keep(&mut self, alloc: Global, event: &Event) -> Result<(), AllocError>
        ensures copied { OnOk result ((moment : law.Moment) → held_event_view self.new moment ≡ record (event_view event.now) { moment = moment }) }
        ensures refused { OnErr result (has_parts (parts_of (event_view event.now)) ≡ true) }
    {
        self.facts = HeldFacts::new(event);
        self.parts.keep(alloc, event)
    }

    /// The event, with the moment of this record, and with the addresses lent.
    pub fn event<'e, 'r, 'm>(&'e self, entry: &'r ReadRecord<'m>) -> Event<'e, 'r, 'm>
        ensures { event_view result ≡ held_event_view self.now (moment_of entry.now.what) }
    {
        let facts = &self.facts;
        Event {
            number: facts.number,
            connection: facts.connection,
            moment: entry.moment(),
            note: facts.note,
            session: facts.session,
            link: self.parts.link(),
            incoming: self.parts.incoming(),
            outgoing: self.parts.outgoing(),
            told: facts.told,
            settled: facts.settled,
            is_heard: facts.is_heard,
            fault: facts.fault,
        }
    }
}
