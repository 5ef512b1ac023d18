//! A stream of octets that comes in pieces, and its frames.

ghost use Rattle.std.specs.Prelude.{◌≡◌, ℕ, List, [], ◌++◌, IsOk, OnOk, OnErr};
ghost use Rattle.std.specs.Borrow.{sem};
ghost use Rattle.std.specs.Io.BufRead.{Rests};
ghost use Rattle.amqp_frames.specs.Stream.{Octets, IsBroken, IsAfter, fed, next_answer, next_ahead, Tells};
ghost use Rattle.amqp_frames.specs.Held.{told, length_answer, looked_ahead};
ghost use Rattle.amqp_frames.specs.contracts.splitter.Splitter.{the_row};

use crate::fault::FrameFault;
use crate::frame::FrameView;
use flow_counts::MAX_FRAME_SIZE;
use std::alloc::{AllocError, Global};
use std::marker::Model;

/// Cuts a stream into its frames, each of at most `MAX_FRAME_SIZE` octets.
///
/// It keeps the octets that were fed and not yet given, and after a fault none. Those that were given
/// are let go once no whole frame is left, and before a piece where they are half of what is kept or
/// more. So to let go takes time by the length of the stream, however small its frames and pieces.
#[derive(Debug, Drop)]
pub struct Splitter {
    kept: Vec<u8>,
    /// How many of the octets that are kept were given.
    given: usize,
    fault: Option<FrameFault>,
}

impl Model for Splitter {
    ghost use Rattle.std.specs.Prelude.{◌≤◌, length};
    ghost use Rattle.amqp_frames.specs.Stream.{Ahead};
    ghost use Rattle.amqp_frames.specs.Held.{ahead_of};

    ghost Value = { Ahead };

    ghost view = { λ s. ahead_of s.kept.items s.given s.fault };

    ghost invariant = { λ s. s.given ≤ length s.kept.items };
}

impl Splitter {
    /// A splitter of a stream of which no octet has come yet.
    pub fn new(alloc: Global) -> Splitter
        ensures value { result ≡ Octets [] }
        ensures start { IsAfter [] [] result }
    {
        Splitter {
            kept: Vec::new(alloc),
            given: 0,
            fault: None,
        }
    }

    /// Takes the next octets of the stream. After a fault they are passed over.
    ///
    /// # Errors
    ///
    /// Where the memory to keep them is refused; nothing has changed then.
    pub fn feed(&mut self, piece: &[u8]) -> Result<(), AllocError>
        ensures value { OnOk result (self.new ≡ fed self.old piece.now) }
        ensures err { OnErr result (self.new ≡ self.old) }
        ensures passed_over { IsBroken self.old → IsOk result }
        // Whatever was fed and given before, now this piece was fed too.
        ensures stream { (stream : List ℕ) (given : List (List ℕ)) → IsAfter stream given self.old
            → OnOk result (IsAfter (stream ++ piece.now) given self.new) }
    {
        if self.fault.is_some() {
            return Ok(());
        }
        if self.kept.len() - self.given <= self.given {
            self.let_go();
        }
        self.kept.extend_from_slice(piece)
    }

    /// The next frame, all its octets; `None` where no whole frame is left of what was fed.
    ///
    /// # Errors
    ///
    /// The fault of what stands in the next frame's place, from then on at each call.
    pub fn next(&mut self) -> Result<Option<&[u8]>, FrameFault>
        ensures* after { sem 𝓛 (Rests the_row self.entry (λ new. (new ≡ next_ahead self.old)
            × ((stream : List ℕ) (given : List (List ℕ)) → IsAfter stream given self.old → Tells stream given (told result) new))) }
        ensures answer { told result ≡ next_answer self.old }
    {
        let Some(count) = self.length_ahead()? else {
            return Ok(None);
        };
        let start = self.given;
        let end = start + count;
        self.given = end;
        Ok(Some(&self.kept[start..end]))
    }

    /// How many octets the next frame has, if it is whole. Else what was given is let go, and behind a
    /// fault all that is kept.
    fn length_ahead(&mut self) -> Result<Option<usize>, FrameFault>
        ensures answer { result ≡ length_answer self.old }
        ensures ahead { self.new ≡ looked_ahead self.old }
    {
        if let Some(fault) = self.fault {
            return Err(fault);
        }
        match FrameView::read(&self.kept[self.given..], MAX_FRAME_SIZE) {
            Ok(Some((_, count))) => Ok(Some(count)),
            Ok(None) => {
                self.let_go();
                Ok(None)
            }
            Err(fault) => {
                self.fault = Some(fault);
                self.kept.clear();
                self.given = 0;
                Err(fault)
            }
        }
    }

    /// Lets go of the octets that were given.
    fn let_go(&mut self)
        ensures { self.new ≡ self.old }
    {
        if self.given == self.kept.len() {
            self.kept.clear();
        } else if self.given > 0 {
            self.kept.drain(..self.given);
        }
        self.given = 0;
    }
}
