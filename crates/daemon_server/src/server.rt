//! The owner.

ghost use Rattle.std.specs.Prelude.{◌≡◌, ◌<◌, [], None, true, false, length, IfOk, OnOk};
ghost use Rattle.capture_journal.specs.Journals.{IsPassedOn, IsWhole};
ghost use Rattle.trace_events.specs.History.{history};
ghost use Rattle.trace_events.specs.Clauses.{first_broken};
ghost use Rattle.trace_duties.specs.Diligent.{is_diligent};
ghost use Rattle.trace_duties.specs.Turn.{is_ordered};
ghost use Rattle.indexmap.specs.IndexMap.{index_map_len};
ghost use Rattle.state_answers.specs.Tables.{completed_by_all};
ghost use Rattle.daemon_server.specs.Lines.{HasCome};
ghost use Rattle.daemon_server.specs.Servers.{IsServing};

use crate::halt::Halt;
use crate::recording::RecordingCore;
use crate::round::{serve_round, written};
use crate::table::Table;
use address_table::Rules;
use conn_engine::Gate;
use route_core::Dues;
use std::alloc::Global;
use std::io::Write;
use std::marker::Model;

/// A router with all that is its own: a core over a list of what is due, the writer of its capture, and the gates of its
/// connections. Nothing of it is behind a lock, so nothing has to be compared afterwards.
pub struct Server<D: Dues, W: Write, G: Gate> {
    alloc: Global,
    core: RecordingCore<D, W>,
    table: Table<G>,
    has_stopped: bool,
}

// Written out, and not derived, so that where one is let go the prover need not go through all that it owns.
impl<D: Dues + Drop, W: Write + Drop, G: Gate + Drop> Drop for Server<D, W, G> {
    fn drop(self) {
        let Server {
            alloc: _,
            core: _,
            table: _,
            has_stopped: _,
        } = self;
    }
}

impl<D: Dues, W: Write, G: Gate> Model for Server<D, W, G> {
    ghost use Rattle.std.specs.Prelude.{◌≡◌, false};
    ghost use Rattle.daemon_server.specs.Servers.{IsServing, Serving, serving};
    ghost use Rattle.std.specs.Coded.{codes};
    ghost use Rattle.indexmap.specs.Layout.{hash_map_code};

    ghost Value = { Serving G };

    ghost coded = { Prim.hlevel (codes, hash_map_code) };

    ghost view = { λ s. serving s.core s.table s.has_stopped };

    ghost invariant = { λ s. s.has_stopped ≡ false → IsServing G.delivered G.took G.has_ended s.core s.table };
}

impl<D: Dues + Drop, W: Write + Drop, G: Gate + Drop> Server<D, W, G> {
    /// A router of these rules without connections, that takes items while its capture has fewer than `limit` records. What stands
    /// in front of the records is written.
    ///
    /// # Errors
    ///
    /// `Memory` or `NotWritten`. The writer is let go then.
    pub fn new(alloc: Global, rules: &Rules, limit: u64, writer: W) -> Result<Server<D, W, G>, Halt>
        ensures works { IfOk result (λ server. server.has_stopped ≡ false) }
        ensures rules { IfOk result (λ server. server.core.journal.rules ≡ rules.now) }
    {
        let core = begin(alloc, rules, limit, writer)?;
        Ok(Server {
            alloc,
            core,
            table: Table::new(alloc),
            has_stopped: false,
        })
    }

    /// A connection comes, at a gate that was not called yet. It has its first turn in the next round. None where no number is left
    /// for it, since there were 2^32 connections; its gate is let go then.
    ///
    /// # Errors
    ///
    /// `Memory`, and `Stopped` behind an earlier error; its gate is let go then.
    pub fn admit(&mut self, gate: G) -> Result<Option<u32>, Halt>
        requires fresh { G.delivered gate [] × G.took gate [] }
        ensures works { OnOk result (self.new.has_stopped ≡ false) }
        ensures came { IfOk result (λ number. HasCome gate self.old.table self.new.table number) }
    {
        if self.has_stopped {
            return Err(Halt::Stopped);
        }
        match self.table.admit(gate) {
            Ok(number) => Ok(number),
            Err(_refused) => {
                self.has_stopped = true;
                Err(Halt::Memory)
            }
        }
    }

    /// The connection of this number, if it is open, has a turn in the next round.
    ///
    /// # Errors
    ///
    /// `Memory`. Then nothing more is done.
    pub fn sign(&mut self, number: u32) -> Result<(), Halt> {
        match self.table.sign(number) {
            Ok(()) => Ok(()),
            Err(_refused) => {
                self.has_stopped = true;
                Err(Halt::Memory)
            }
        }
    }

    /// All that are open have a turn in the next round.
    ///
    /// # Errors
    ///
    /// `Memory`. Then nothing more is done.
    pub fn sign_all(&mut self) -> Result<(), Halt> {
        match self.table.sign_all() {
            Ok(()) => Ok(()),
            Err(_refused) => {
                self.has_stopped = true;
                Err(Halt::Memory)
            }
        }
    }

    /// One round: the connections that are signed have a turn each, in order, until enough was heard of them, those that are left in
    /// the next round; the core takes what came; and the writer takes the records of that, before a later round gives any connection
    /// a turn in which it is written a frame that they tell. Says whether any has a turn in the next round.
    ///
    /// # Errors
    ///
    /// As `Halt` says. Then nothing more is done.
    pub fn round(&mut self, buffer: &mut [u8]) -> Result<bool, Halt>
        requires room { 0 < length buffer.old }
        ensures works { OnOk result (self.new.has_stopped ≡ false) }
    {
        if self.has_stopped {
            return Err(Halt::Stopped);
        }
        match serve_round(&mut self.core, &mut self.table, buffer) {
            Ok(()) => Ok(self.table.is_signed()),
            Err(halt) => {
                self.has_stopped = true;
                Err(halt)
            }
        }
    }

    /// How many records its capture has.
    pub fn count(&self) -> u64
        ensures count { result ≡ length self.now.core.journal.records }
        // What the writer took and what waits is the text of the capture, and no record of it breaks a clause of the law; the router
        // did all that it owes, in order.
        ensures whole { IsWhole self.now.core.journal }
        ensures lawful { first_broken self.now.core.journal.rules (history self.now.core.journal.rules self.now.core.journal.records) ≡ None }
        ensures diligent { is_diligent self.now.core.journal.rules self.now.core.journal.records ≡ true }
        ensures ordered { is_ordered self.now.core.journal.rules self.now.core.journal.records ≡ true }
        // While it works, nothing of it waits, and each connection is served so far or was to its end: its inputs are exactly those
        // that its gate delivered, and what its gate took begins with the answers and then the frames that were written to it.
        ensures serving { self.now.has_stopped ≡ false → IsServing G.delivered G.took G.has_ended self.now.core self.now.table }
    {
        let _rules = self.core.rules();
        self.core.count()
    }

    /// How many connections are open.
    pub fn open(&self) -> usize
        ensures { result ≡ index_map_len self.now.table.lines }
    {
        self.table.open()
    }

    /// How many messages came whole from clients; the greatest number where they are more.
    pub fn messages(&self) -> u64
        ensures { self.now.core.has_failed ≡ false →
            result ≡ completed_by_all (history self.now.core.journal.rules self.now.core.journal.records) }
    {
        self.core.completed()
    }

    /// How many messages are kept: those that are still to be sent or decided, and a few that are over.
    pub fn kept(&self) -> usize {
        self.core.kept()
    }

    /// How many octets the frames have that wait for connections that are open, without those that their engines have.
    pub fn waiting(&self) -> u64
        ensures { result ≡ self.now.table.waiting }
    {
        self.table.waiting()
    }

    /// Gives the writer back, and lets all connections go.
    pub fn into_writer(self) -> W
        ensures held { W.contents result ≡ self.core.journal.held }
        // What it took begins the text of the capture.
        ensures whole { IsWhole self.core.journal }
        // While it worked, it took all of it.
        ensures serving { self.has_stopped ≡ false → IsServing G.delivered G.took G.has_ended self.core self.table }
        ensures lawful { first_broken self.core.journal.rules (history self.core.journal.rules self.core.journal.records) ≡ None }
        ensures diligent { is_diligent self.core.journal.rules self.core.journal.records ≡ true }
        ensures ordered { is_ordered self.core.journal.rules self.core.journal.records ≡ true }
    {
        let Server {
            alloc: _,
            core,
            table: _,
            has_stopped: _,
        } = self;
        core.into_writer()
    }
}

/// A core of these rules, and what stands in front of the records is written.
fn begin<D: Dues + Drop, W: Write + Drop>(
    alloc: Global,
    rules: &Rules,
    limit: u64,
    writer: W,
) -> Result<RecordingCore<D, W>, Halt>
    ensures passed { IfOk result (λ core. IsPassedOn core.journal) }
    ensures records { IfOk result (λ core. core.journal.records ≡ []) }
    ensures rules { IfOk result (λ core. core.journal.rules ≡ rules.now) }
{
    let Ok(mut core) = RecordingCore::new(alloc, rules, limit, writer) else {
        return Err(Halt::Memory);
    };
    match written(&mut core) {
        Ok(()) => Ok(core),
        Err(fault) => Err(Halt::NotWritten(fault)),
    }
}
