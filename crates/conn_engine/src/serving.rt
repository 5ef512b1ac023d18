//! The octets of one connection, moved between its gate and its engine.

ghost use Rattle.std.specs.Prelude.{◌≡◌, ◌≤◌, ◌<◌, ◌++◌, ◌⊎◌, ◌↔◌, IsTrue, [], List, ℕ, length, take, true, false, IfOk, OnOk, Ok, MatchOption};
ghost use Rattle.conn_engine.specs.Closing.{is_over};
ghost use Rattle.conn_engine.specs.declared.serving.Status.TheVariants.{Open};
ghost use Rattle.conn_engine.specs.declared.serving.Motion.TheVariants as motions;
ghost use Rattle.conn_engine.specs.Served.{IsOpen, IsServedAsNoted, LineHolds, either_motion, status_after};

use crate::notes::Notes;
use crate::noting::{feed, gave, refill, stop_of, tick};
use crate::{Delivered, Engine, Gate, Port, Taken};

/// How far a connection is.
#[derive(Clone, Copy, Debug, PartialEq, Eq)]
pub enum Status {
    /// Its octets are moved.
    Open,
    /// Its gate was shut, and the router knows of it.
    Ended,
    /// It stopped in between, and is good for nothing.
    Failed,
}

/// Why a connection is not served on.
#[derive(Clone, Copy, Debug, PartialEq, Eq)]
pub enum Stop {
    /// Memory was refused outside the core.
    Memory,
    /// A poll or a listener failed.
    Device,
    /// The core refused a step.
    Core,
}

/// What one turn of a line did.
#[derive(Clone, Copy, Debug, PartialEq, Eq)]
pub enum Turn {
    /// Octets were moved.
    Moved,
    /// None.
    Still,
    /// The connection was ended.
    Ended,
}

/// What was done with a gate.
#[derive(Clone, Copy, Debug, PartialEq, Eq)]
pub(crate) enum Motion {
    /// Octets were moved.
    Moved,
    /// None.
    Still,
    /// The gate ended or failed.
    Gone,
}

/// Moves what octets can be moved now, and ends the connection where its gate has ended or failed, or its engine is over and
/// all is given.
///
/// # Errors
///
/// `Memory` or `Core`. Then no more can be said of the connection.
#[tactic(auto, using(crate::proofs::ServedOn::line_open, crate::proofs::ServedOn::why_ended))]
pub fn serve<G: Gate, P: Port, S: Notes>(
    gate: &mut G,
    engine: &mut Engine<P>,
    notes: &mut S,
    buffer: &mut [u8],
) -> Result<Turn, Stop>
    requires { 0 < length buffer.old }
    ensures holds { IfOk result (λ turn. IsOpen G.delivered G.took gate.old engine.old (S.stands_for notes.old) → LineHolds G.delivered G.took G.has_ended (status_after turn) gate.new engine.new (S.stands_for notes.new)) }
    ensures follows { G.follows gate.old gate.new }
    ensures number { engine.new.number ≡ engine.old.number }
{
    let motion = match advance(gate, engine, notes, buffer) {
        Ok(motion) => motion,
        Err(stop) => return Err(stop),
    };
    if let Some(turn) = going_on(motion, engine) {
        return Ok(turn);
    }
    match end(gate, engine, notes) {
        Ok(()) => Ok(Turn::Ended),
        Err(stop) => Err(stop),
    }
}

/// Takes frames for the gate, and moves what octets can be moved now.
fn advance<G: Gate, P: Port, S: Notes>(
    gate: &mut G,
    engine: &mut Engine<P>,
    notes: &mut S,
    buffer: &mut [u8],
) -> Result<Motion, Stop>
    requires { 0 < length buffer.old }
    ensures holds { OnOk result (IsOpen G.delivered G.took gate.old engine.old (S.stands_for notes.old) → IsOpen G.delivered G.took gate.new engine.new (S.stands_for notes.new)) }
    ensures ended { result ≡ Ok motions.Gone → G.has_ended gate.new ≡ true }
    ensures follows { G.follows gate.old gate.new }
    ensures number { engine.new.number ≡ engine.old.number }
{
    match take_frames(gate, engine, notes) {
        Ok(()) => move_octets(gate, engine, notes, buffer),
        Err(stop) => Err(stop),
    }
}

/// Takes frames for the gate, and tells the engine the moment, which may place an empty one where there are none.
fn take_frames<G: Gate, P: Port, S: Notes>(
    gate: &G,
    engine: &mut Engine<P>,
    notes: &mut S,
) -> Result<(), Stop>
    ensures holds { OnOk result (IsOpen G.delivered G.took gate.now engine.old (S.stands_for notes.old) → IsOpen G.delivered G.took gate.now engine.new (S.stands_for notes.new)) }
    ensures number { engine.new.number ≡ engine.old.number }
{
    match refill(engine, notes) {
        Ok(()) => tick(engine, gate.now(), notes),
        Err(stop) => Err(stop),
    }
}

/// Writes what waits, and reads where the engine takes more.
fn move_octets<G: Gate, P: Port, S: Notes>(
    gate: &mut G,
    engine: &mut Engine<P>,
    notes: &mut S,
    buffer: &mut [u8],
) -> Result<Motion, Stop>
    requires { 0 < length buffer.old }
    ensures holds { OnOk result (IsOpen G.delivered G.took gate.old engine.old (S.stands_for notes.old) → IsOpen G.delivered G.took gate.new engine.new (S.stands_for notes.new)) }
    ensures ended { result ≡ Ok motions.Gone → G.has_ended gate.new ≡ true }
    ensures follows { G.follows gate.old gate.new }
    ensures number { engine.new.number ≡ engine.old.number }
{
    match write_out(gate, engine, notes) {
        Ok(Motion::Gone) => Ok(Motion::Gone),
        Ok(wrote) => {
            if engine.is_over() {
                return Ok(wrote);
            }
            match read_in(gate, engine, notes, buffer) {
                Ok(read) => Ok(either_motion(wrote, read)),
                Err(stop) => Err(stop),
            }
        }
        Err(stop) => Err(stop),
    }
}

/// Shows the gate what waits. It is gone where the gate failed.
#[tactic(auto, using(crate::proofs::ServedOn::open_kept))]
fn write_out<G: Gate, P: Port, S: Notes>(
    gate: &mut G,
    engine: &mut Engine<P>,
    notes: &mut S,
) -> Result<Motion, Stop>
    ensures holds { OnOk result (IsOpen G.delivered G.took gate.old engine.old (S.stands_for notes.old) → IsOpen G.delivered G.took gate.new engine.new (S.stands_for notes.new)) }
    ensures ended { result ≡ Ok motions.Gone → G.has_ended gate.new ≡ true }
    ensures follows { G.follows gate.old gate.new }
    ensures number { engine.new.number ≡ engine.old.number }
{
    if !notes.has_room(engine.give().len()) {
        return Err(Stop::Memory);
    }
    match gate.write(engine.give()) {
        Taken::Took(n) => {
            gave(engine, n, notes);
            Ok(motion_of(n))
        }
        Taken::Nothing => Ok(Motion::Still),
        Taken::Fault => Ok(Motion::Gone),
    }
}

/// Feeds the engine what the gate delivers. It is gone where the gate ended or failed.
#[tactic(auto, using(crate::proofs::ServedOn::open_kept))]
fn read_in<G: Gate, P: Port, S: Notes>(
    gate: &mut G,
    engine: &mut Engine<P>,
    notes: &mut S,
    buffer: &mut [u8],
) -> Result<Motion, Stop>
    requires going { is_over engine.old.place ≡ false }
    requires room { 0 < length buffer.old }
    ensures holds { OnOk result (IsOpen G.delivered G.took gate.old engine.old (S.stands_for notes.old) → IsOpen G.delivered G.took gate.new engine.new (S.stands_for notes.new)) }
    ensures ended { result ≡ Ok motions.Gone → G.has_ended gate.new ≡ true }
    ensures follows { G.follows gate.old gate.new }
    ensures number { engine.new.number ≡ engine.old.number }
{
    match gate.read(buffer) {
        Delivered::Octets(n) => match feed(engine, &buffer[..n], notes) {
            Ok(()) => Ok(motion_of(n)),
            Err(stop) => Err(stop),
        },
        Delivered::Nothing => Ok(Motion::Still),
        Delivered::End | Delivered::Fault => Ok(Motion::Gone),
    }
}

/// Ends the connection: the router is told of it, if it is to be, and the gate is shut.
///
/// # Errors
///
/// `Memory` or `Core`, where the router did not take it.
fn end<G: Gate, P: Port, S: Notes>(
    gate: &mut G,
    engine: &mut Engine<P>,
    notes: &S,
) -> Result<(), Stop>
    requires { (G.has_ended gate.old ≡ true) ⊎ ((is_over engine.old.place ≡ true) × (engine.old.waiting ≡ [])) }
    ensures holds { OnOk result (IsOpen G.delivered G.took gate.old engine.old (S.stands_for notes.now) → IsServedAsNoted G.delivered G.took G.has_ended gate.new engine.new.items engine.new.frames (S.stands_for notes.now)) }
    ensures follows { G.follows gate.old gate.new }
    ensures number { engine.new.number ≡ engine.old.number }
{
    let told = engine.gone();
    gate.shut();
    match stop_of(told) {
        None => Ok(()),
        Some(stop) => Err(stop),
    }
}

/// The turn of a line that goes on behind this: its gate has neither ended nor failed, and its engine is not over or has
/// something to give.
fn going_on<P: Port>(motion: Motion, engine: &Engine<P>) -> Option<Turn>
    ensures { MatchOption result ((motion ≡ motions.Gone) ⊎ ((is_over engine.now.place ≡ true) × (engine.now.waiting ≡ []))) (λ turn. status_after turn ≡ Open) }
{
    let turn = match motion {
        Motion::Moved => Turn::Moved,
        Motion::Still => Turn::Still,
        Motion::Gone => return None,
    };
    if is_done(engine) { None } else { Some(turn) }
}

/// Whether the engine is over and all is given.
fn is_done<P: Port>(engine: &Engine<P>) -> bool
    ensures { IsTrue result ↔ ((is_over engine.now.place ≡ true) × (engine.now.waiting ≡ [])) }
{
    engine.is_over() && engine.give().is_empty()
}

/// Whether octets were moved.
fn motion_of(n: usize) -> Motion
    ensures { (result ≡ motions.Moved) ⊎ (result ≡ motions.Still) }
{
    if n == 0 { Motion::Still } else { Motion::Moved }
}

/// What two parts of a turn did.
fn either_motion(wrote: Motion, read: Motion) -> Motion
    ensures { result ≡ either_motion wrote read }
{
    match read {
        Motion::Still => wrote,
        Motion::Moved | Motion::Gone => read,
    }
}
