//! A line that has ended, and its two halves.

ghost use Rattle.std.specs.Prelude.{◌≡◌};
ghost use Rattle.conn_engine.specs.declared.serving.Status.TheVariants.{Ended};

use crate::line::{Line, Origin};
use conn_engine::{Gate, Script};
use core_exchange::{ExchangePort, Seat};
use std::marker::{Model, PhantomData};
use std::snapshot::Snapshot;
use std::sync::Wait;

/// A gate that was shut, the script of the octets that it took, and its seat. Contracts see it as the seat.
#[derive(Drop)]
pub(crate) struct Done<G: Gate, J: Origin<G>> {
    gate: G,
    script: Script,
    seat: Seat,
    origin: PhantomData<J>,
}

impl<G: Gate, J: Origin<G>> Model for Done<G, J> {
    ghost use Rattle.core_exchange.specs.declared.seat.Seat.{Seat};
    ghost use Rattle.conn_engine.specs.Scripts.{octets_taken};
    ghost use Rattle.conn_workers.specs.Lines.{IsDone};

    ghost Value = { Seat };

    ghost view = { λ d. d.seat };

    ghost invariant = { λ d. IsDone J.gates G.follows G.delivered G.took G.has_ended d.gate (octets_taken d.script d.seat.frames.items) d.seat };
}

/// The same without the seat, which contracts still see.
#[derive(Drop)]
pub(crate) struct Part<G: Gate, J: Origin<G>> {
    gate: G,
    script: Script,
    seat: Snapshot<Seat>,
    origin: PhantomData<J>,
}

impl<G: Gate, J: Origin<G>> Model for Part<G, J> {
    ghost use Rattle.core_exchange.specs.declared.seat.Seat.{Seat};
    ghost use Rattle.conn_engine.specs.Scripts.{octets_taken};
    ghost use Rattle.conn_workers.specs.Lines.{IsDone};

    ghost Value = { Seat };

    ghost view = { λ p. p.seat.value };

    ghost invariant = { λ p. IsDone J.gates G.follows G.delivered G.took G.has_ended p.gate (octets_taken p.script p.seat.value.frames.items) p.seat.value };
}

impl<G: Gate, J: Origin<G>> Done<G, J> {
    /// What is left of a line that has ended.
    pub(crate) fn new<'a, R: Wait>(line: Line<G, ExchangePort<'a, R>, J>) -> Done<G, J>
        requires { line ≡ Ended }
    {
        let (gate, script, seat) = line.into_parts();
        Done {
            gate,
            script,
            seat,
            origin: PhantomData,
        }
    }

    /// The number of its connection.
    pub(crate) fn conn(&self) -> u32
        ensures { result ≡ self.now.conn }
    {
        self.seat.conn
    }

    /// Its gate with the script, and its seat, apart.
    pub(crate) fn apart(self) -> (Part<G, J>, Seat)
        ensures part { result.0 ≡ self }
        ensures seat { result.1 ≡ self }
    {
        let Done {
            gate,
            script,
            seat,
            origin,
        } = self;
        let seen = Snapshot::of(&seat);
        (
            Part {
                gate,
                script,
                seat: seen,
                origin,
            },
            seat,
        )
    }
}

impl<G: Gate, J: Origin<G>> Part<G, J> {
    ghost use Rattle.conn_engine.specs.Scripts.{octets_taken};
    ghost use Rattle.conn_workers.specs.Lines.{IsDone};

    /// The gate, and the script of the octets that it took.
    pub(crate) fn opened(self) -> (G, Script)
        ensures { IsDone J.gates G.follows G.delivered G.took G.has_ended result.0 (octets_taken result.1 self.frames.items) self }
    {
        let Part {
            gate,
            script,
            seat: _,
            origin: _,
        } = self;
        (gate, script)
    }
}
