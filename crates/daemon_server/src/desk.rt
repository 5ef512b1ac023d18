//! A port with an inbox and an outbox.

ghost use Rattle.std.specs.Prelude.{◌≡◌, ◌+◌, ◌++◌, ◌∷◌, [], ℕ, true, List, map, length, IfOk, IfNone, IfSome, OnOk, OnErr, All};
ghost use Rattle.std.specs.VecDeque.{deque_len};
ghost use Rattle.capture_form.specs.declared.records.Record.{Record as Entry};
ghost use Rattle.capture_form.specs.Text.{IsRecord};
ghost use Rattle.route_items.specs.Items.{connection_of, record_of, what_of, IsShort};
ghost use Rattle.conn_engine.specs.Giving.{GivesNext};
ghost use Rattle.daemon_server.specs.Desks.{IsEntry, is_empty, laid};

use crate::before::Before;
use capture_form::{Frame, Record};
use conn_engine::{Port, PortFault};
use http_server::Log;
use route_items::Item;
use std::alloc::{AllocError, Global};
use std::collections::VecDeque;
use std::marker::{Model, PhantomData};

/// Where a connection's items lie until its router takes them, in order, and the frames that the router wrote to it until they
/// are given, in order. It is set up for one turn.
#[derive(Drop)]
pub struct Desk<J: Before> {
    alloc: Global,
    connection: u32,
    inbox: Vec<Record>,
    outbox: VecDeque<Frame>,
    /// How many octets the frames have that were given in this turn. By it is counted what waits, of which no clause speaks.
    freed: u64,
    /// The frames that were given in this turn. Only proofs read it.
    given: Log<Frame, ()>,
    before: PhantomData<J>,
}

impl<J: Before> Model for Desk<J> {
    ghost use Rattle.daemon_server.specs.Desks.{Laid, IsLaid, laid};

    ghost Value = { Laid };

    ghost view = { λ desk. laid J.items J.frames desk.connection desk.inbox.items desk.outbox.items desk.given.items };

    ghost invariant = { λ desk. IsLaid J.due desk.connection desk.inbox.items desk.outbox.items desk.given.items };
}

impl<J: Before> Desk<J> {
    /// The desk of the connection of this number, with an empty inbox, whose room is used again, and these frames in its outbox.
    pub fn new(
        alloc: Global,
        connection: u32,
        inbox: Vec<Record>,
        outbox: VecDeque<Frame>,
    ) -> Desk<J>
        requires empty { inbox.items ≡ [] }
        requires due { outbox.items ≡ J.due }
        ensures { result ≡ record { connection = connection; items = J.items; frames = J.frames; inbox = []; due = J.due } }
    {
        Desk {
            alloc,
            connection,
            inbox,
            outbox,
            freed: 0,
            given: Log::new(),
            before: PhantomData,
        }
    }

    /// How many octets the frames have that were given in this turn; the greatest number where they have more.
    pub fn freed(&self) -> u64 {
        self.freed
    }

    /// The inbox, and the outbox.
    pub fn into_parts(self) -> (Vec<Record>, VecDeque<Frame>)
        ensures inbox { result.0.items ≡ self.inbox }
        ensures outbox { result.1.items ≡ self.due }
        // What was taken before and what lies in the inbox are the items, in order.
        ensures items { self.items ≡ J.items ++ map (λ (entry : Entry). entry.what) self.inbox }
        // What was given and what lies in the outbox is what was due, in order.
        ensures frames { self.frames ++ self.due ≡ J.frames ++ J.due }
        // Each record of the inbox tells an item of the connection.
        ensures entries { All (IsEntry self.connection) self.inbox }
    {
        let Desk {
            alloc: _,
            connection: _,
            inbox,
            outbox,
            freed: _,
            given: _,
            before: _,
        } = self;
        (inbox, outbox)
    }
}

impl<J: Before> Port for Desk<J> {
    ghost connection = { λ desk. desk.connection };

    ghost items = { λ desk. desk.items };

    ghost frames = { λ desk. desk.frames };

    ghost is_idle = { λ desk. is_empty desk.due };

    /// Lays the record that tells the item into the inbox. It is refused only where memory is.
    fn submit(&mut self, item: Item<'_>) -> Result<(), PortFault> {
        match put(self.alloc, &mut self.inbox, item) {
            Ok(()) => Ok(()),
            Err(_refused) => Err(PortFault::Memory),
        }
    }

    /// Gives the first frame of the outbox. Its number is the one that is asked for.
    fn next_out(&mut self, from: u64, out: &mut Vec<u8>) -> Result<Option<u64>, AllocError> {
        let Some(frame) = self.outbox.front() else {
            return Ok(None);
        };
        if from == u64::MAX {
            return Err(AllocError);
        }
        out.extend_from_slice(frame.octets())?;
        self.freed = self.freed.saturating_add(frame.octets().len() as u64);
        self.given = self.given.and(frame, &());
        self.outbox.pop_front();
        Ok(Some(from))
    }
}

/// Puts the record that tells the item behind the others.
fn put(alloc: Global, inbox: &mut Vec<Record>, item: Item<'_>) -> Result<(), AllocError>
    requires short { IsShort item }
    ensures put { OnOk result (inbox.new.items ≡ inbox.old.items ++ record_of item.entry ∷ []) }
    ensures bounds { OnOk result (IsRecord (record_of item.entry)) }
    ensures unchanged { OnErr result (inbox.new.items ≡ inbox.old.items) }
{
    let entry = item.to_record(alloc)?;
    inbox.push(entry)?;
    Ok(())
}
