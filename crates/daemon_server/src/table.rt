//! All connections of an owner.

ghost use Rattle.std.specs.Prelude.{◌≡◌, ◌<◌, ◌++◌, ◌∷◌, ◌↔◌, [], ℕ, List, length, IsTrue, IfOk, OnOk};
ghost use Rattle.indexmap.specs.IndexMap.{index_map_len};
ghost use Rattle.capture_form.specs.declared.records.Record.{Record as Entry};
ghost use Rattle.capture_journal.specs.Journals.{IsPassedOn};
ghost use Rattle.daemon_server.specs.Lines.{HasCome, HasLeft, HasSigned, Serves};

use crate::halt::Halt;
use crate::line::Line;
use crate::recording::RecordingCore;
use capture_form::{Record, What};
use conn_engine::{Gate, Stop, Turn};
use http_server::Log;
use number_map::NumberMap;
use route_core::Dues;
use route_items::StepFault;
use std::alloc::{AllocError, Global};
use std::io::Write;
use std::mem;

/// The connections of an owner by their numbers, which count up from 0, and which of them have a turn in the next round. Those that
/// have ended are let go; of these only proofs know.
#[derive(Drop)]
pub struct Table<G> {
    alloc: Global,
    lines: NumberMap<u32, Line<G>>,
    signed: Vec<u32>,
    /// How many octets the frames have that wait for all of them, of which no clause speaks.
    waiting: u64,
    /// The number of the next connection, above those of all connections so far.
    next: u64,
    over: Log<Line<G>, ()>,
}

impl<G: Gate + Drop> Table<G> {
    /// No connections.
    pub fn new(alloc: Global) -> Table<G>
        ensures { Serves G.delivered G.took G.has_ended [] [] [] result }
    {
        Table {
            alloc,
            lines: NumberMap::new(alloc),
            signed: Vec::new(alloc),
            waiting: 0,
            next: 0,
            over: Log::new(),
        }
    }

    /// How many connections are open.
    pub fn open(&self) -> usize
        ensures { result ≡ index_map_len self.now.lines }
    {
        self.lines.len()
    }

    /// How many octets the frames have that were laid out for connections that are open, and not given to their engines yet; the
    /// greatest number where they have more.
    pub fn waiting(&self) -> u64
        ensures { result ≡ self.now.waiting }
    {
        self.waiting
    }

    /// Whether any has a turn in the next round.
    pub fn is_signed(&self) -> bool
        ensures { IsTrue result ↔ (self.now.signed.items ≡ [] → ⊥) }
    {
        !self.signed.is_empty()
    }

    /// A connection comes, at a gate that was not called yet. It has a turn in the next round. None where no number is left, since
    /// there were 2^32 connections; the gate is let go then.
    ///
    /// # Errors
    ///
    /// Where memory is refused.
    pub fn admit(&mut self, gate: G) -> Result<Option<u32>, AllocError>
        requires fresh { G.delivered gate [] × G.took gate [] }
        ensures serves { OnOk result ((records : List Entry) (waiting : List ℕ) → Serves G.delivered G.took G.has_ended records [] waiting self.old → Serves G.delivered G.took G.has_ended records [] waiting self.new) }
        ensures came { IfOk result (λ number. HasCome gate self.old self.new number) }
    {
        let Ok(number) = u32::try_from(self.next) else {
            return Ok(None);
        };
        let line = Line::new(self.alloc, number, gate);
        self.lines.insert(number, line)?;
        self.next += 1;
        self.sign(number)?;
        Ok(Some(number))
    }

    /// The connection of this number, if it is open, has a turn in the next round.
    ///
    /// # Errors
    ///
    /// Where memory is refused.
    pub fn sign(&mut self, number: u32) -> Result<(), AllocError>
        ensures serves { OnOk result ((records given : List Entry) (waiting : List ℕ) → Serves G.delivered G.took G.has_ended records given waiting self.old → Serves G.delivered G.took G.has_ended records given waiting self.new) }
        ensures signed { OnOk result (HasSigned number self.old self.new) }
    {
        let Some(line) = self.lines.get_mut(&number) else {
            return Ok(());
        };
        if line.sign() {
            self.signed.push(number)?;
        }
        Ok(())
    }

    /// All that are open have a turn in the next round.
    ///
    /// # Errors
    ///
    /// Where memory is refused.
    pub fn sign_all(&mut self) -> Result<(), AllocError>
        ensures serves { OnOk result ((records given : List Entry) (waiting : List ℕ) → Serves G.delivered G.took G.has_ended records given waiting self.old → Serves G.delivered G.took G.has_ended records given waiting self.new) }
    {
        for number in self.numbers()? {
            self.sign(number)?;
        }
        Ok(())
    }

    /// The numbers of those that are open.
    fn numbers(&self) -> Result<Vec<u32>, AllocError> {
        let mut numbers = Vec::with_capacity(self.alloc, self.lines.len())?;
        for line in self.lines.values() {
            numbers.push(line.number())?;
        }
        Ok(numbers)
    }

    /// The numbers of those that have a turn in this round.
    pub fn take_signed(&mut self) -> Vec<u32>
        ensures serves { (records given : List Entry) (waiting : List ℕ) → Serves G.delivered G.took G.has_ended records given waiting self.old → Serves G.delivered G.took G.has_ended records given waiting self.new }
        ensures signed { result.items ≡ self.old.signed.items }
    {
        mem::replace(&mut self.signed, Vec::new(self.alloc))
    }

    /// The connection of this number, if it is open, has a turn, and one more in the next round where this one moved octets. Tells how
    /// many records came of it that the core is to take. The core stands here for the contract alone: all that it has was handed to the
    /// writer, which has passed it on, before any frame of it is written to a gate.
    ///
    /// # Errors
    ///
    /// As `serve` of `conn_engine`, and `Memory` where memory is refused.
    pub fn give_turn<D: Dues, W: Write>(
        &mut self,
        core: &RecordingCore<D, W>,
        number: u32,
        buffer: &mut [u8],
    ) -> Result<usize, Stop>
        requires passed { IsPassedOn core.now.journal }
        requires serves { (waiting : List ℕ) × Serves G.delivered G.took G.has_ended core.now.journal.records [] waiting self.old }
        requires room { 0 < length buffer.old }
        ensures serves { OnOk result ((waiting : List ℕ) → Serves G.delivered G.took G.has_ended core.now.journal.records [] waiting self.old
            → Serves G.delivered G.took G.has_ended core.now.journal.records [] (waiting ++ number ∷ []) self.new) }
    {
        if self.turn_of(core, number, buffer)? == Some(Turn::Moved) && self.sign(number).is_err() {
            return Err(Stop::Memory);
        }
        Ok(self.came_of(number))
    }

    /// How many records lie in the inbox of the connection of this number, of which no clause speaks.
    fn came_of(&self, number: u32) -> usize {
        match self.lines.get(&number) {
            Some(line) => line.came(),
            None => 0,
        }
    }

    /// Those of these numbers have a turn in the next round, in front of those that are signed already.
    ///
    /// # Errors
    ///
    /// Where memory is refused. Then some may have none.
    pub fn put_back(&mut self, numbers: &[u32]) -> Result<(), AllocError>
        ensures serves { OnOk result ((records given : List Entry) (waiting : List ℕ) → Serves G.delivered G.took G.has_ended records given waiting self.old → Serves G.delivered G.took G.has_ended records given waiting self.new) }
        ensures signed { OnOk result (self.new.signed.items ≡ numbers.now ++ self.old.signed.items) }
    {
        if numbers.is_empty() {
            return Ok(());
        }
        let mut signed = numbers.to_vec(self.alloc)?;
        signed.append(&mut self.signed)?;
        self.signed = signed;
        Ok(())
    }

    /// The connection of this number, if it is open, has a turn.
    fn turn_of<D: Dues, W: Write>(
        &mut self,
        core: &RecordingCore<D, W>,
        number: u32,
        buffer: &mut [u8],
    ) -> Result<Option<Turn>, Stop>
        requires serves { (waiting : List ℕ) × Serves G.delivered G.took G.has_ended core.now.journal.records [] waiting self.old }
        requires room { 0 < length buffer.old }
        ensures serves { OnOk result ((waiting : List ℕ) → Serves G.delivered G.took G.has_ended core.now.journal.records [] waiting self.old
            → Serves G.delivered G.took G.has_ended core.now.journal.records [] (waiting ++ number ∷ []) self.new) }
    {
        let alloc = self.alloc;
        let Some(line) = self.lines.get_mut(&number) else {
            return Ok(None);
        };
        let before = line.waiting();
        let turn = line.take_turn(alloc, core, buffer)?;
        let freed = before.saturating_sub(line.waiting());
        self.waiting = self.waiting.saturating_sub(freed);
        Ok(turn)
    }

    /// The core takes what came of the connection of this number, in order, and each frame that it writes is laid out for its
    /// connection, which has a turn in the next round.
    ///
    /// # Errors
    ///
    /// `Core` as `step_inbox` says, and `Memory`.
    pub fn step<D: Dues + Drop, W: Write + Drop>(
        &mut self,
        core: &mut RecordingCore<D, W>,
        number: u32,
    ) -> Result<(), Halt>
        requires serves { (waiting : List ℕ) × Serves G.delivered G.took G.has_ended core.old.journal.records [] waiting self.old }
        ensures serves { OnOk result ((waiting : List ℕ) → Serves G.delivered G.took G.has_ended core.old.journal.records [] (number ∷ waiting) self.old
            → Serves G.delivered G.took G.has_ended core.new.journal.records [] waiting self.new) }
    {
        match self.records_of(core, number) {
            Ok(given) => match self.lay_all(given) {
                Ok(()) => Ok(()),
                Err(_refused) => Err(Halt::Memory),
            },
            Err(fault) => Err(Halt::Core(fault)),
        }
    }

    /// The core takes what came of the connection of this number, in order, and gives the records of all these steps, whose frames are
    /// still to be laid out.
    fn records_of<D: Dues + Drop, W: Write + Drop>(
        &mut self,
        core: &mut RecordingCore<D, W>,
        number: u32,
    ) -> Result<Vec<Record>, StepFault>
        requires serves { (waiting : List ℕ) × Serves G.delivered G.took G.has_ended core.old.journal.records [] waiting self.old }
        ensures serves { IfOk result (λ given. (waiting : List ℕ) → Serves G.delivered G.took G.has_ended core.old.journal.records [] (number ∷ waiting) self.old
            → Serves G.delivered G.took G.has_ended core.new.journal.records given.items waiting self.new) }
    {
        let alloc = self.alloc;
        let Some(line) = self.lines.get_mut(&number) else {
            return Ok(Vec::new(alloc));
        };
        let given = line.step(alloc, core)?;
        Ok(given)
    }

    /// Lays each frame that is written in these records out for its connection, which has a turn in the next round.
    ///
    /// # Errors
    ///
    /// Where memory is refused.
    fn lay_all(&mut self, given: Vec<Record>) -> Result<(), AllocError>
        ensures serves { OnOk result ((records : List Entry) (waiting : List ℕ) → Serves G.delivered G.took G.has_ended records given.items waiting self.old → Serves G.delivered G.took G.has_ended records [] waiting self.new) }
    {
        for entry in given {
            self.lay(entry)?;
        }
        Ok(())
    }

    /// Lays the frame that is written in this record, if one is, out for its connection.
    fn lay(&mut self, entry: Record) -> Result<(), AllocError>
        ensures serves { OnOk result ((records rest : List Entry) (waiting : List ℕ) → Serves G.delivered G.took G.has_ended records (entry ∷ rest) waiting self.old
            → Serves G.delivered G.took G.has_ended records rest waiting self.new) }
    {
        let Record {
            connection,
            what,
            ..
        } = entry;
        self.next = self.next.max(connection as u64 + 1);
        let What::Out(frame) = what else {
            return Ok(());
        };
        let Some(line) = self.lines.get_mut(&connection) else {
            return Ok(());
        };
        let octets = frame.octets().len() as u64;
        line.lay(frame)?;
        self.waiting = self.waiting.saturating_add(octets);
        if line.sign() {
            self.signed.push(connection)?;
        }
        Ok(())
    }

    /// The connection of this number is let go, if it has ended and the core has taken all that came of it.
    pub fn let_go(&mut self, number: u32)
        ensures serves { (records given : List Entry) (waiting : List ℕ) → Serves G.delivered G.took G.has_ended records given waiting self.old → Serves G.delivered G.took G.has_ended records given waiting self.new }
        ensures gone { HasLeft number self.old self.new }
    {
        let Some(line) = self.lines.get(&number) else {
            return;
        };
        if !line.is_over() {
            return;
        }
        self.waiting = self.waiting.saturating_sub(line.waiting());
        self.over = self.over.and(line, &());
        self.lines.swap_remove(&number);
    }
}
