//! One turn of a connection.

ghost use Rattle.std.specs.Prelude.{◌≡◌, ◌<◌, [], length, IfOk};
ghost use Rattle.conn_engine.specs.Pausing.{resumed};
ghost use Rattle.conn_engine.specs.Served.{IsOpen, NothingNoted, status_after};
ghost use Rattle.daemon_server.specs.Desks.{is_empty};
ghost use Rattle.daemon_server.specs.Turns.{HasServed};

use crate::before::Before;
use crate::desk::Desk;
use capture_form::{Frame, Record};
use conn_engine::{Gate, PausedEngine, Stop, Turn, Unnoted, serve};
use std::alloc::Global;
use std::collections::VecDeque;

/// What a turn leaves: what it did, the engine, the records of the items that are to be taken, the frames that are still due, and how
/// many octets those have that are not due any more.
#[derive(Drop)]
pub struct Served {
    pub turn: Turn,
    pub engine: PausedEngine,
    pub inbox: Vec<Record>,
    pub outbox: VecDeque<Frame>,
    pub freed: u64,
}

/// Moves what octets can be moved now, and ends the connection where its gate has ended or failed, or its engine is over and all is
/// given. The frames of the outbox are given in order, and the items lie in the inbox, whose room is used again.
///
/// # Errors
///
/// As `serve`. Then no more can be said of the connection.
pub fn serve_at_desk<G: Gate, J: Before>(
    alloc: Global,
    connection: u32,
    gate: &mut G,
    engine: PausedEngine,
    inbox: Vec<Record>,
    outbox: VecDeque<Frame>,
    buffer: &mut [u8],
) -> Result<Served, Stop>
    requires number { engine.number ≡ connection }
    requires empty { inbox.items ≡ [] }
    requires due { outbox.items ≡ J.due }
    requires open { IsOpen G.delivered G.took gate.old (resumed engine J.items J.frames (is_empty J.due)) NothingNoted }
    requires room { 0 < length buffer.old }
    // What holds of a line behind its turn holds; its items are those before and then those of the inbox, and what it was given and
    // what is still due is what was given and due before.
    ensures served { IfOk result (λ served. HasServed G.delivered G.took G.has_ended J.items J.frames J.due connection (status_after served.turn) gate.new served.engine served.inbox.items served.outbox.items) }
    ensures follows { G.follows gate.old gate.new }
{
    let desk: Desk<J> = Desk::new(alloc, connection, inbox, outbox);
    let mut engine = engine.resume(desk);
    match serve(gate, &mut engine, &mut Unnoted, buffer) {
        Ok(turn) => {
            let (engine, desk) = engine.pause();
            let freed = desk.freed();
            let (inbox, outbox) = desk.into_parts();
            Ok(Served {
                turn,
                engine,
                inbox,
                outbox,
                freed,
            })
        }
        Err(stop) => Err(stop),
    }
}
