//! A gate with its engine.

ghost use Rattle.std.specs.Prelude.{◌≡◌, ◌<◌, [], List, ℕ, length, map, IfOk, OnOk};
ghost use Rattle.conn_engine.specs.declared.serving.Status.TheVariants.{Open, Ended};
ghost use Rattle.conn_engine.specs.Scripts.{octets_taken};
ghost use Rattle.conn_engine.specs.Served.{status_after};
ghost use Rattle.conn_workers.specs.Lines.{IsDone};

use conn_engine::{Engine, Gate, Port, Ready, Script, Status, Stop, Turn, serve};
use core_exchange::{ExchangePort, Seat};
use std::alloc::Global;
use std::marker::{Model, PhantomData};
use std::sync::Wait;

/// The gates of a run, by their numbers. Each run picks them.
pub(crate) trait Origin<G> {
    ghost gates: { List G };
}

/// A gate that was not called yet, with its number. Contracts see it as the number.
#[derive(Drop)]
pub(crate) struct Start<G: Gate, J: Origin<G>> {
    conn: u32,
    gate: G,
    origin: PhantomData<J>,
}

impl<G: Gate, J: Origin<G>> Model for Start<G, J> {
    ghost use Rattle.std.specs.Prelude.{◌≡◌, ℕ, [], Some, slice_get};

    ghost Value = { ℕ };

    ghost view = { λ s. s.conn };

    ghost invariant = { λ s. (slice_get J.gates s.conn ≡ Some s.gate) × G.delivered s.gate [] × G.took s.gate [] };
}

/// A gate, its engine, and the script of the octets that it took. Contracts see how far it is.
#[derive(Drop)]
pub(crate) struct Line<G: Gate, P: Port, J: Origin<G>> {
    conn: u32,
    gate: G,
    engine: Engine<P>,
    script: Script,
    status: Status,
    origin: PhantomData<J>,
}

impl<G: Gate, P: Port, J: Origin<G>> Model for Line<G, P, J> {
    ghost use Rattle.std.specs.Prelude.{◌≡◌};
    ghost use Rattle.conn_engine.specs.declared.serving.Status.{Status};
    ghost use Rattle.conn_workers.specs.Lines.{IsFrom, ScriptHolds};

    ghost Value = { Status };

    ghost view = { λ l. l.status };

    ghost invariant = { λ l. IsFrom J.gates G.follows l.conn l.gate × (l.engine.number ≡ l.conn) × ScriptHolds G.delivered G.took G.has_ended l.status l.gate l.engine l.script };
}

impl<G: Gate, J: Origin<G>> Start<G, J> {
    ghost use Rattle.std.specs.Prelude.{◌≡◌, [], Some, slice_get};

    /// The gate of this connection, which was never called.
    pub(crate) fn new(conn: u32, gate: G) -> Start<G, J>
        requires given { slice_get J.gates conn ≡ Some gate }
        requires fresh { G.delivered gate [] × G.took gate [] }
        ensures { result ≡ conn }
    {
        Start {
            conn,
            gate,
            origin: PhantomData,
        }
    }

    /// The number of its connection.
    pub(crate) fn conn(&self) -> u32
        ensures { result ≡ self.now }
    {
        self.conn
    }
}

impl<G: Gate, P: Port, J: Origin<G>> Line<G, P, J> {
    /// The line of a gate and a port of its number.
    #[tactic(auto, using(conn_engine::proofs::ServedOn::open_new))]
    pub(crate) fn new(alloc: Global, start: Start<G, J>, port: P) -> Line<G, P, J>
        requires conn { P.connection port ≡ start }
        requires items { P.items port ≡ [] }
        requires frames { P.frames port ≡ [] }
        ensures { result ≡ Open }
    {
        let Start { conn, gate, origin } = start;
        Line {
            conn,
            gate,
            engine: Engine::new(alloc, conn, port),
            script: Script::new(alloc),
            status: Status::Open,
            origin,
        }
    }

    /// Moves what octets can be moved now, and ends the line where its gate has ended or failed, or its engine is over and
    /// all is given.
    ///
    /// # Errors
    ///
    /// As `Stop` says.
    #[tactic(auto, using(conn_engine::proofs::ServedOn::served_by_script))]
    pub(crate) fn turn(&mut self, buffer: &mut [u8]) -> Result<Turn, Stop>
        requires open { self.old ≡ Open }
        requires room { 0 < length buffer.old }
        ensures { IfOk result (λ turn. self.new ≡ status_after turn) }
    {
        match serve(&mut self.gate, &mut self.engine, &mut self.script, buffer) {
            Ok(Turn::Ended) => {
                self.status = Status::Ended;
                Ok(Turn::Ended)
            }
            Ok(Turn::Moved) => Ok(Turn::Moved),
            Ok(Turn::Still) => Ok(Turn::Still),
            Err(stop) => {
                self.status = Status::Failed;
                Err(stop)
            }
        }
    }

    /// Waits a little for octets or room.
    ///
    /// # Errors
    ///
    /// `Device`, where the gate answers it.
    #[tactic(auto, using(conn_engine::proofs::ServedOn::open_kept))]
    pub(crate) fn wait(&mut self) -> Result<(), Stop>
        requires { self.old ≡ Open }
        ensures { self.new ≡ Open }
    {
        match self.gate.ready() {
            Ready::Yes | Ready::No => Ok(()),
            Ready::Device => Err(Stop::Device),
        }
    }
}

impl<'a, G: Gate, R: Wait, J: Origin<G>> Line<G, ExchangePort<'a, R>, J> {
    /// The gate of a line that has ended, the script of the octets that it took, and its seat.
    pub(crate) fn into_parts(self) -> (G, Script, Seat)
        requires { self ≡ Ended }
        ensures { IsDone J.gates G.follows G.delivered G.took G.has_ended result.0 (octets_taken result.1 result.2.frames.items) result.2 }
    {
        let Line {
            conn: _,
            gate,
            engine,
            script,
            status: _,
            origin: _,
        } = self;
        (gate, script, engine.into_port().into_seat())
    }
}
