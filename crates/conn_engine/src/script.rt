//! What is kept of the octets that a gate took.

ghost use Rattle.std.specs.Prelude.{◌≡◌, ◌++◌, [], List, ℕ, take, drop, IfOk, OnOk};
ghost use Rattle.std.specs.List.{concat};
ghost use Rattle.conn_engine.specs.Scripts.{StandsFor, empty_frames, octets_taken, own_octets};
ghost use Rattle.conn_engine.specs.Silence.{empty_frame};

use crate::notes::Notes;
use crate::silence::EMPTY_FRAME;
use capture_form::Frame;
use std::alloc::{AllocError, Global};
use std::marker::Model;

/// Octets that an engine put on its own, and that are of no frame of its port.
#[derive(Debug, Drop)]
struct Own {
    /// Behind how many octets of frames they stand, counted from the piece in front of this one.
    behind: usize,
    octets: Vec<u8>,
    /// How many empty frames stand behind these octets. So those that a client hears while nothing else is said take no memory.
    empties: usize,
}

impl Own {
    /// Puts its octets behind `out`.
    ///
    /// # Errors
    ///
    /// Where the memory for them is refused.
    fn put(&self, out: &mut Vec<u8>) -> Result<(), AllocError>
        ensures { OnOk result (out.new.items ≡ out.old.items ++ own_octets self.now) }
    {
        out.extend_from_slice(&self.octets)?;
        put_empties(self.empties, out)
    }

    /// One empty frame more stands behind it.
    ///
    /// # Errors
    ///
    /// Where there are more than can be counted; nothing has changed then.
    fn add_empty(&mut self) -> Result<(), AllocError>
        ensures place { self.new.behind ≡ self.old.behind }
        ensures more { OnOk result (own_octets self.new ≡ own_octets self.old ++ empty_frame) }
    {
        match self.empties.checked_add(1) {
            Some(empties) => {
                self.empties = empties;
                Ok(())
            }
            None => Err(AllocError),
        }
    }
}

/// Puts so many empty frames behind `out`.
fn put_empties(count: usize, out: &mut Vec<u8>) -> Result<(), AllocError>
    ensures { OnOk result (out.new.items ≡ out.old.items ++ empty_frames count) }
{
    for _ in 0..count {
        out.extend_from_slice(&EMPTY_FRAME)?;
    }
    Ok(())
}

/// Which octets a gate took of an engine, where those of the frames that the engine's port gave are not kept once more: what
/// the engine put between the frames on its own, which is its answers to the client's headers and SASL, and empty frames; and
/// how many octets the gate took.
///
/// It takes memory by how many pieces of its own the engine put between frames, and by their octets. Empty frames in a row are one
/// piece, and have none.
#[derive(Debug, Drop)]
pub struct Script {
    owns: Vec<Own>,
    /// How many octets of frames stand behind the last piece.
    behind: usize,
    taken: usize,
}

impl Script {
    /// Of an engine that has put nothing.
    pub fn new(alloc: Global) -> Script
        ensures { StandsFor result [] [] [] }
    {
        Script {
            owns: Vec::new(alloc),
            behind: 0,
            taken: 0,
        }
    }

    /// The octets that the gate took, where these are all frames that the engine's port gave.
    ///
    /// # Errors
    ///
    /// Where the memory for them is refused.
    pub fn octets(&self, alloc: Global, frames: &[Frame]) -> Result<Vec<u8>, AllocError>
        ensures value { IfOk result (λ octets. octets.items ≡ octets_taken self.now frames.now) }
        // Where the script stands for octets that were taken, it is these.
        ensures exact { IfOk result (λ octets. (taken waiting : List ℕ) → StandsFor self.now (concat frames.now) taken waiting → octets.items ≡ taken) }
    {
        let mut octets = Vec::with_capacity(alloc, self.taken)?;
        let mut left = Left::of(frames);
        for own in &self.owns {
            left.put(own.behind, &mut octets)?;
            own.put(&mut octets)?;
        }
        left.put(self.taken.saturating_sub(octets.len()), &mut octets)?;
        octets.truncate(self.taken);
        Ok(octets)
    }

    /// The engine put an empty frame behind those that wait.
    fn own_empty(&mut self) -> Result<(), AllocError>
        ensures { OnOk result ((framed taken waiting : List ℕ) → StandsFor self.old framed taken waiting → StandsFor self.new framed taken (waiting ++ empty_frame)) }
    {
        if self.behind == 0 {
            self.join_empty()
        } else {
            self.begin(&[], 1)
        }
    }

    /// Joins an empty frame to the last piece, behind which no frame of the port stands, if there is one.
    fn join_empty(&mut self) -> Result<(), AllocError>
        requires { self.old.behind ≡ 0 }
        ensures { OnOk result ((framed taken waiting : List ℕ) → StandsFor self.old framed taken waiting → StandsFor self.new framed taken (waiting ++ empty_frame)) }
    {
        match self.owns.last_mut() {
            Some(last) => last.add_empty(),
            None => self.begin(&[], 1),
        }
    }

    /// Begins a piece with these octets, and so many empty frames behind them.
    fn begin(&mut self, octets: &[u8], empties: usize) -> Result<(), AllocError>
        ensures { OnOk result ((said : List ℕ) → octets.now ++ empty_frames empties ≡ said → (framed taken waiting : List ℕ) → StandsFor self.old framed taken waiting → StandsFor self.new framed taken (waiting ++ said)) }
    {
        let octets = Vec::from_slice(*self.owns.allocator(), octets)?;
        self.owns.push(Own {
            behind: self.behind,
            octets,
            empties,
        })?;
        self.behind = 0;
        Ok(())
    }
}

impl Notes for Script {
    ghost use Rattle.std.specs.Prelude.{◌+◌, ◌<◌, ◌^◌};
    ghost use Rattle.conn_engine.specs.Scripts.{StandsFor};

    ghost stands_for = { λ script. StandsFor script };

    ghost has_count = { λ script count. script.taken + count < 2 ^ 64 };

    fn has_room(&self, count: usize) -> bool {
        self.taken.checked_add(count).is_some()
    }

    fn gave(&mut self, count: usize) {
        self.taken += count;
    }

    fn framed(&mut self, count: usize) -> Result<(), AllocError> {
        match self.behind.checked_add(count) {
            Some(behind) => {
                self.behind = behind;
                Ok(())
            }
            None => Err(AllocError),
        }
    }

    fn own(&mut self, octets: &[u8]) -> Result<(), AllocError> {
        if octets.is_empty() {
            return Ok(());
        }
        if octets == EMPTY_FRAME.as_slice() {
            return self.own_empty();
        }
        self.begin(octets, 0)
    }
}

/// What is left of the octets of frames. Contracts see it as these.
#[derive(Drop)]
struct Left<'a> {
    /// Of the frame that stands first.
    octets: &'a [u8],
    frames: &'a [Frame],
}

impl<'a> Model for Left<'a> {
    ghost use Rattle.std.specs.Prelude.{◌++◌, ℕ, List};
    ghost use Rattle.std.specs.List.{concat};

    ghost Value = { List ℕ };

    ghost view = { λ left. left.octets.now ++ concat left.frames.now };
}

impl<'a> Left<'a> {
    fn of(frames: &'a [Frame]) -> Left<'a>
        ensures { result ≡ concat frames.now }
    {
        Left {
            octets: &[],
            frames,
        }
    }

    /// Puts the first `count` of them behind `out`, or all where they are fewer.
    ///
    /// # Errors
    ///
    /// Where the memory for them is refused.
    fn put(&mut self, mut count: usize, out: &mut Vec<u8>) -> Result<(), AllocError>
        ensures put { OnOk result (out.new.items ≡ out.old.items ++ take count self.old) }
        ensures left { OnOk result (self.new ≡ drop count self.old) }
    {
        while self.octets.len() < count {
            out.extend_from_slice(self.octets)?;
            count -= self.octets.len();
            let [frame, frames @ ..] = self.frames else {
                self.octets = &[];
                return Ok(());
            };
            self.octets = frame.octets();
            self.frames = frames;
        }
        let (first, behind) = self.octets.split_at(count);
        out.extend_from_slice(first)?;
        self.octets = behind;
        Ok(())
    }
}
