//! One connection of an owner.

ghost use Rattle.std.specs.Prelude.{◌≡◌, ◌<◌, ◌++◌, ◌∷◌, ◌↔◌, [], ℕ, List, length, not, true, false, IsTrue, IfOk, OnOk, All};
ghost use Rattle.capture_form.specs.declared.records.What.{What};
ghost use Rattle.conn_engine.specs.Pausing.{resumed};
ghost use Rattle.conn_engine.specs.declared.serving.Status.TheVariants.{Open, Ended};
ghost use Rattle.conn_engine.specs.Served.{IsOpen, NothingNoted, status_after};
ghost use Rattle.daemon_server.specs.Desks.{IsEntry, is_empty, told_by};
ghost use Rattle.daemon_server.specs.Turns.{HasServed};
ghost use Rattle.daemon_server.specs.Stepping.{HasStepped};
ghost use Rattle.daemon_server.specs.Lines.{IsLine, frames_to, front_of, inputs_of};

use crate::before::Before;
use crate::desk_turn::{Served, serve_at_desk};
use crate::recording::RecordingCore;
use crate::stepping::step_inbox;
use capture_form::{Frame, Record};
use conn_engine::{Gate, PausedEngine, Status, Stop, Turn};
use route_core::Dues;
use route_items::StepFault;
use std::alloc::{AllocError, Global};
use std::collections::VecDeque;
use std::io::Write;
use std::marker::Brand;
use std::mem;

/// A connection between two turns: its gate, its engine, how far it is, the records of the items that its core has not taken
/// yet, and the frames of the core that its engine was not given yet.
#[derive(Drop)]
pub struct Line<G> {
    gate: G,
    /// None behind a turn that failed; then nothing more is known of the connection.
    engine: Option<PausedEngine>,
    inbox: Vec<Record>,
    outbox: VecDeque<Frame>,
    /// How many octets the frames of the outbox have, of which no clause speaks.
    waiting: u64,
    number: u32,
    status: Status,
    /// It has a turn in the next round.
    is_signed: bool,
}

impl<G: Gate> Line<G> {
    /// The connection of this number, at a gate that was not called yet.
    pub(crate) fn new(alloc: Global, number: u32, gate: G) -> Line<G>
        requires fresh { G.delivered gate [] × G.took gate [] }
        ensures number { result.number ≡ number }
        ensures gate { result.gate ≡ gate }
        ensures empty { result.inbox.items ≡ [] }
        ensures unsigned { result.is_signed ≡ false }
        ensures line { IsLine G.delivered G.took G.has_ended [] [] result }
    {
        Line {
            gate,
            engine: Some(PausedEngine::new(alloc, number)),
            inbox: Vec::new(alloc),
            outbox: VecDeque::new(alloc),
            waiting: 0,
            number,
            status: Status::Open,
            is_signed: false,
        }
    }

    /// The number of the connection.
    pub(crate) fn number(&self) -> u32
        ensures { result ≡ self.now.number }
    {
        self.number
    }

    /// How many octets the frames have that wait for it.
    pub(crate) fn waiting(&self) -> u64
        ensures { result ≡ self.now.waiting }
    {
        self.waiting
    }

    /// How many records lie in its inbox.
    pub(crate) fn came(&self) -> usize {
        self.inbox.len()
    }

    /// Whether its gate was shut, and its core has taken all that came of it.
    pub(crate) fn is_over(&self) -> bool
        ensures { IsTrue result ↔ ((self.now.status ≡ Ended) × (self.now.inbox.items ≡ [])) }
    {
        self.status == Status::Ended && self.inbox.is_empty()
    }

    /// It has a turn in the next round. Says whether it was to have none so far.
    pub(crate) fn sign(&mut self) -> bool
        ensures line { (taken : List What) → (written : List (List ℕ)) → IsLine G.delivered G.took G.has_ended taken written self.old → IsLine G.delivered G.took G.has_ended taken written self.new }
        ensures number { self.new.number ≡ self.old.number }
        ensures news { result ≡ not self.old.is_signed }
        ensures marked { self.new.is_signed ≡ true }
        ensures gate { self.new.gate ≡ self.old.gate }
        ensures inbox { self.new.inbox.items ≡ self.old.inbox.items }
    {
        let is_news = !self.is_signed;
        self.is_signed = true;
        is_news
    }

    /// The core wrote this frame to it.
    ///
    /// # Errors
    ///
    /// Where memory is refused. Nothing has changed then.
    pub(crate) fn lay(&mut self, frame: Frame) -> Result<(), AllocError>
        ensures line { OnOk result ((taken : List What) → (written : List (List ℕ)) → IsLine G.delivered G.took G.has_ended taken written self.old
            → IsLine G.delivered G.took G.has_ended taken (written ++ frame ∷ []) self.new) }
        ensures number { self.new.number ≡ self.old.number }
        ensures inbox { self.new.inbox.items ≡ self.old.inbox.items }
    {
        let octets = frame.octets().len() as u64;
        self.outbox.push_back(frame)?;
        self.waiting = self.waiting.saturating_add(octets);
        Ok(())
    }

    /// The core takes what came, in order, and gives the records of all these steps.
    ///
    /// # Errors
    ///
    /// As `step_inbox`.
    pub(crate) fn step<D: Dues + Drop, W: Write + Drop>(
        &mut self,
        alloc: Global,
        core: &mut RecordingCore<D, W>,
    ) -> Result<Vec<Record>, StepFault>
        requires entries { All (IsEntry self.old.number) self.old.inbox.items }
        ensures stepped { IfOk result (λ given. HasStepped self.old.inbox.items core.old core.new given.items) }
        ensures line { OnOk result ((taken : List What) → (written : List (List ℕ)) → IsLine G.delivered G.took G.has_ended taken written self.old
            → IsLine G.delivered G.took G.has_ended (taken ++ told_by self.old.inbox.items) written self.new) }
        ensures number { self.new.number ≡ self.old.number }
        ensures taken { OnOk result (self.new.inbox.items ≡ []) }
    {
        let given = step_inbox(alloc, core, &self.inbox)?;
        self.inbox.clear();
        Ok(given)
    }

    /// One turn, if its gate was not shut and its core has taken what came before: octets are moved between its gate and its engine,
    /// which is given the frames that were laid, and what came lies in its inbox. The core stands here for the contract alone: it
    /// tells what was taken of the connection and written to it.
    ///
    /// # Errors
    ///
    /// As `serve_at_desk`. Then nothing more is known of the connection.
    pub(crate) fn take_turn<D: Dues, W: Write>(
        &mut self,
        alloc: Global,
        core: &RecordingCore<D, W>,
        buffer: &mut [u8],
    ) -> Result<Option<Turn>, Stop>
        requires line { IsLine G.delivered G.took G.has_ended (inputs_of self.old.number core.now.journal.records) (frames_to self.old.number core.now.journal.records) self.old }
        requires room { 0 < length buffer.old }
        ensures line { OnOk result (IsLine G.delivered G.took G.has_ended (inputs_of self.old.number core.now.journal.records) (frames_to self.old.number core.now.journal.records) self.new) }
        ensures number { self.new.number ≡ self.old.number }
        ensures follows { G.follows self.old.gate self.new.gate }
    {
        self.is_signed = false;
        if self.status != Status::Open || !self.inbox.is_empty() {
            return Ok(None);
        }
        let turn = self.turn(alloc, core, buffer)?;
        Ok(Some(turn))
    }

    /// One turn.
    fn turn<D: Dues, W: Write>(
        &mut self,
        alloc: Global,
        core: &RecordingCore<D, W>,
        buffer: &mut [u8],
    ) -> Result<Turn, Stop>
        requires open { self.old.status ≡ Open }
        requires empty { self.old.inbox.items ≡ [] }
        requires line { IsLine G.delivered G.took G.has_ended (inputs_of self.old.number core.now.journal.records) (frames_to self.old.number core.now.journal.records) self.old }
        requires room { 0 < length buffer.old }
        ensures line { OnOk result (IsLine G.delivered G.took G.has_ended (inputs_of self.old.number core.now.journal.records) (frames_to self.old.number core.now.journal.records) self.new) }
        ensures number { self.new.number ≡ self.old.number }
        ensures follows { G.follows self.old.gate self.new.gate }
    {
        let Some(engine) = self.engine.take() else {
            unreachable!()
        };
        let inbox = mem::replace(&mut self.inbox, Vec::new(alloc));
        let outbox = mem::replace(&mut self.outbox, VecDeque::new(alloc));
        let served = serve_beside::<G, D, W, Brand>(
            alloc,
            core,
            self.number,
            &mut self.gate,
            engine,
            inbox,
            outbox,
            buffer,
        )?;
        Ok(self.go_on(served))
    }

    /// What a turn left is put back.
    fn go_on(&mut self, served: Served) -> Turn
        ensures turn { result ≡ served.turn }
        ensures engine { self.new.engine ≡ Some served.engine }
        ensures inbox { self.new.inbox.items ≡ served.inbox.items }
        ensures outbox { self.new.outbox.items ≡ served.outbox.items }
        ensures status { self.old.status ≡ Open → self.new.status ≡ status_after served.turn }
        ensures gate { self.new.gate ≡ self.old.gate }
        ensures number { self.new.number ≡ self.old.number }
    {
        let Served {
            turn,
            engine,
            inbox,
            outbox,
            freed,
        } = served;
        self.engine = Some(engine);
        self.inbox = inbox;
        self.outbox = outbox;
        self.waiting = self.waiting.saturating_sub(freed);
        if turn == Turn::Ended {
            self.status = Status::Ended;
        }
        turn
    }
}

/// One turn, beside the core whose records tell what was taken of the connection before and written to it.
fn serve_beside<G: Gate, D: Dues, W: Write, J: Before>(
    alloc: Global,
    _core: &RecordingCore<D, W>,
    connection: u32,
    gate: &mut G,
    engine: PausedEngine,
    inbox: Vec<Record>,
    outbox: VecDeque<Frame>,
    buffer: &mut [u8],
) -> Result<Served, Stop>
    requires items { inputs_of connection _core.now.journal.records ≡ J.items }
    requires frames { front_of (frames_to connection _core.now.journal.records) outbox.items ≡ J.frames }
    requires number { engine.number ≡ connection }
    requires empty { inbox.items ≡ [] }
    requires due { outbox.items ≡ J.due }
    requires open { IsOpen G.delivered G.took gate.old (resumed engine J.items J.frames (is_empty J.due)) NothingNoted }
    requires room { 0 < length buffer.old }
    ensures served { IfOk result (λ served. HasServed G.delivered G.took G.has_ended J.items J.frames J.due connection (status_after served.turn) gate.new served.engine served.inbox.items served.outbox.items) }
    ensures follows { G.follows gate.old gate.new }
{
    serve_at_desk::<G, J>(alloc, connection, gate, engine, inbox, outbox, buffer)
}
