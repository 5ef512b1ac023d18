//! An engine and the notes of its octets: each call of the engine that puts octets, and what is noted of it.

ghost use Rattle.std.specs.Prelude.{◌≡◌, ◌≤◌, ◌++◌, false, List, ℕ, length, take, drop, OnOk};
ghost use Rattle.conn_engine.specs.Closing.{is_over};
ghost use Rattle.conn_engine.specs.Served.{IsNoted, stop_of};

use crate::notes::Notes;
use crate::serving::Stop;
use crate::{Engine, EngineFault, Port};

/// Takes frames of the router.
///
/// # Errors
///
/// `Memory`.
pub(crate) fn refill<P: Port, S: Notes>(engine: &mut Engine<P>, notes: &mut S) -> Result<(), Stop>
    ensures noted { OnOk result ((octets taken : List ℕ) → IsNoted engine.old (S.stands_for notes.old) octets taken → IsNoted engine.new (S.stands_for notes.new) octets taken) }
    ensures number { engine.new.number ≡ engine.old.number }
{
    let before = engine.give().len();
    let Ok(()) = engine.refill() else {
        return Err(Stop::Memory);
    };
    match notes.framed(engine.give().len() - before) {
        Ok(()) => Ok(()),
        Err(_) => Err(Stop::Memory),
    }
}

/// Tells the engine the moment, which may place an empty frame where there are none.
///
/// # Errors
///
/// `Memory`.
pub(crate) fn tick<P: Port, S: Notes>(
    engine: &mut Engine<P>,
    moment: u64,
    notes: &mut S,
) -> Result<(), Stop>
    ensures noted { OnOk result ((octets taken : List ℕ) → IsNoted engine.old (S.stands_for notes.old) octets taken → IsNoted engine.new (S.stands_for notes.new) octets taken) }
    ensures number { engine.new.number ≡ engine.old.number }
{
    let before = engine.give().len();
    let Ok(_) = engine.tick(moment) else {
        return Err(Stop::Memory);
    };
    note_own(engine, before, notes)
}

/// Feeds the engine octets of the client, which it may answer.
///
/// # Errors
///
/// `Memory` or `Core`.
pub(crate) fn feed<P: Port, S: Notes>(
    engine: &mut Engine<P>,
    piece: &[u8],
    notes: &mut S,
) -> Result<(), Stop>
    requires { is_over engine.old.place ≡ false }
    ensures noted { OnOk result ((octets taken : List ℕ) → IsNoted engine.old (S.stands_for notes.old) octets taken → IsNoted engine.new (S.stands_for notes.new) (octets ++ piece.now) taken) }
    ensures number { engine.new.number ≡ engine.old.number }
{
    let before = engine.give().len();
    if let Some(stop) = stop_of(engine.feed(piece)) {
        return Err(stop);
    }
    note_own(engine, before, notes)
}

/// Notes that what waits behind the first `before` octets is the engine's own.
fn note_own<P: Port, S: Notes>(engine: &Engine<P>, before: usize, notes: &mut S) -> Result<(), Stop>
    requires { before ≤ length engine.now.waiting }
    ensures { OnOk result ((framed taken waiting : List ℕ) → S.stands_for notes.old framed taken waiting → S.stands_for notes.new framed taken (waiting ++ drop before engine.now.waiting)) }
{
    match notes.own(&engine.give()[before..]) {
        Ok(()) => Ok(()),
        Err(_) => Err(Stop::Memory),
    }
}

/// The first `n` octets that wait were given.
pub(crate) fn gave<P: Port, S: Notes>(engine: &mut Engine<P>, n: usize, notes: &mut S)
    requires waiting { n ≤ length engine.old.waiting }
    requires room { S.has_count notes.old n }
    ensures noted { (octets taken : List ℕ) → IsNoted engine.old (S.stands_for notes.old) octets taken → IsNoted engine.new (S.stands_for notes.new) octets (taken ++ take n engine.old.waiting) }
    ensures number { engine.new.number ≡ engine.old.number }
{
    notes.gave(n);
    engine.gave(n);
}

/// Why a worker does not go on behind an engine's answer. That the octets are refused or no frames is no reason: the client
/// is answered then, and its connection closed.
pub(crate) fn stop_of(answer: Result<(), EngineFault>) -> Option<Stop>
    ensures { result ≡ stop_of answer }
{
    match answer {
        Err(EngineFault::Port(_)) => Some(Stop::Core),
        Err(EngineFault::Memory) => Some(Stop::Memory),
        Ok(())
        | Err(
            EngineFault::HeaderRefused
            | EngineFault::Frame
            | EngineFault::SaslRefused
            | EngineFault::Over,
        ) => None,
    }
}
