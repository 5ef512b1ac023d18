//! A client's stream that comes in pieces.

ghost use Rattle.std.specs.Prelude.{◌≡◌, ◌≤◌, ℕ, List, [], ◌++◌, length, take, drop, OnOk, OnErr};
ghost use Rattle.stream_reading.specs.declared.step.Phase.TheVariants.{FirstHeader};
ghost use Rattle.stream_reading.specs.Stream.{Answers, MayStand, phase_after};
ghost use Rattle.stream_reading.specs.Steps.{StepText, IsAfter, and_step};

use crate::step::{Event, Phase, Step, StreamFault};
use crate::stream::front;
use std::alloc::{AllocError, Global};
use std::marker::Model;

/// The steps of a stream, one after the other.
///
/// It keeps the octets that were fed and are of no step that was taken. Those that were taken are let go before a piece
/// where they are half of what is kept or more, so that to let go takes time by the length of the stream.
#[derive(Debug, Drop)]
pub struct StreamReader {
    kept: Vec<u8>,
    /// How many of the octets that are kept are of steps that were taken.
    taken: usize,
    phase: Phase,
}

impl Model for StreamReader {
    ghost use Rattle.std.specs.Prelude.{◌≤◌, length, drop};
    ghost use Rattle.stream_reading.specs.Steps.{Ahead};

    ghost Value = { Ahead };

    ghost view = { λ r. record { phase = r.phase; octets = drop r.taken r.kept.items } };

    ghost invariant = { λ r. r.taken ≤ length r.kept.items };
}

impl StreamReader {
    /// A reader of a stream of which no octet has come yet.
    pub fn new(alloc: Global) -> StreamReader
        ensures value { result ≡ record { phase = FirstHeader; octets = [] } }
        ensures start { IsAfter [] [] result }
    {
        StreamReader {
            kept: Vec::new(alloc),
            taken: 0,
            phase: Phase::FirstHeader,
        }
    }

    /// Takes the next octets of the stream.
    ///
    /// # Errors
    ///
    /// Where the memory to keep them is refused; nothing has changed then.
    #[tactic(auto, using(crate::proofs::Following::fed_piece))]
    pub fn feed(&mut self, piece: &[u8]) -> Result<(), AllocError>
        ensures value { OnOk result (self.new ≡ record { phase = self.old.phase; octets = self.old.octets ++ piece.now }) }
        ensures err { OnErr result (self.new ≡ self.old) }
        // Whatever was fed and taken before, now this piece was fed too.
        ensures stream { (stream : List ℕ) (steps : List StepText) → IsAfter stream steps self.old
            → OnOk result (IsAfter (stream ++ piece.now) steps self.new) }
    {
        if self.kept.len() - self.taken <= self.taken {
            self.let_go();
        }
        self.kept.extend_from_slice(piece)
    }

    /// What stands next in the stream, lent; `None` where octets are missing that would tell.
    ///
    /// # Errors
    ///
    /// Why the stream ends here. Each later call answers it again, since no step stands here that could be taken.
    pub fn peek(&self) -> Result<Option<Step<'_>>, StreamFault>
        ensures { Answers self.now.phase self.now.octets result }
    {
        front(self.phase, &self.kept[self.taken..])
    }

    /// Takes the step of `len` octets that stands next.
    pub fn took(&mut self, event: Event, len: usize)
        requires within { len ≤ length self.old.octets }
        requires stands { MayStand self.old.phase event (take len self.old.octets) }
        ensures value { self.new ≡ record { phase = phase_after event; octets = drop len self.old.octets } }
        // Whatever was fed and taken before, now this step was taken too.
        ensures after { (stream : List ℕ) (steps : List StepText) → IsAfter stream steps self.old
            → IsAfter stream (and_step steps event (take len self.old.octets)) self.new }
    {
        self.taken += len;
        self.phase = event.phase_after();
    }

    /// What comes next.
    pub fn phase(&self) -> Phase
        ensures { result ≡ self.now.phase }
    {
        self.phase
    }

    /// Lets go of the octets of steps that were taken.
    fn let_go(&mut self)
        ensures { self.new ≡ self.old }
    {
        if self.taken == self.kept.len() {
            self.kept.clear();
            self.taken = 0;
        } else if let Ok(rest) = self.kept.split_off(self.taken) {
            self.kept = rest;
            self.taken = 0;
        }
    }
}
