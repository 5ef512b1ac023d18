//! What a run comes to.

ghost use Rattle.std.specs.Prelude.{◌≡◌, IfOk};
ghost use Rattle.conn_engine.specs.Scripts.{octets_taken};
ghost use Rattle.conn_workers.specs.Faults.{fault_number};

use capture_form::{Capture, Frame, What};
use conn_engine::Script;
use std::alloc::{AllocError, Global};
use std::marker::Model;

/// What came of one connection: its number, its gate, the items that the router took of it, and the octets that the gate
/// took.
#[derive(Drop)]
pub struct ConnReport<G> {
    pub conn: u32,
    pub gate: G,
    pub items: Vec<What>,
    pub taken: TakenOctets,
}

/// The octets that a gate took. `octets` makes them, of the frames that were written to its connection, whose octets are those of
/// the capture's records, and of what stood between these frames. Contracts see them as they are made, as `items`.
#[derive(Drop)]
pub struct TakenOctets {
    script: Script,
    frames: Vec<Frame>,
}

impl Model for TakenOctets {
    ghost use Rattle.conn_engine.specs.Scripts.{octets_taken};
    ghost use Rattle.conn_workers.specs.Octets.{Octets};

    ghost Value = { Octets };

    ghost view = { λ taken. record { items = octets_taken taken.script taken.frames.items } };
}

impl TakenOctets {
    /// Those that a script tells of frames.
    pub(crate) fn new(script: Script, frames: Vec<Frame>) -> TakenOctets
        ensures { result.items ≡ octets_taken script frames.items }
    {
        TakenOctets { script, frames }
    }

    /// All of them.
    ///
    /// # Errors
    ///
    /// Where the memory for them is refused.
    pub fn octets(&self, alloc: Global) -> Result<Vec<u8>, AllocError>
        ensures { IfOk result (λ octets. octets.items ≡ self.now.items) }
    {
        self.script.octets(alloc, &self.frames)
    }
}

/// What came of a run: the one capture, and each connection in the order of the gates.
#[derive(Drop)]
pub struct RunReport<G> {
    pub capture: Capture,
    pub conns: Vec<ConnReport<G>>,
}

/// Why a run came to no report. Where a worker stops, the others are called off. It is why the first of those that stopped for
/// a reason of their own did, in the order of the workers' numbers.
#[derive(Debug, Drop)]
pub enum RunFault {
    /// Memory was refused outside the core.
    Memory,
    /// A poll or a listener failed, or the address could not be listened at.
    Device,
    /// What the ports took and gave, or the rules, are not what the capture has.
    Mismatch,
    /// The core refused a step. This is its capture.
    CoreFailed(Capture),
}

impl RunFault {
    /// The number of the fault, from 1 to 4.
    pub fn number(&self) -> u8
        ensures { result ≡ fault_number self.now }
    {
        match self {
            RunFault::Memory => 1,
            RunFault::Device => 2,
            RunFault::Mismatch => 3,
            RunFault::CoreFailed(_) => 4,
        }
    }
}
