//! Readers and writers over memory.

use crate::case::{Case, number_at, word_at};
use std::alloc::{AllocGlobal, Global};
use std::io::{ErrorKind, Read, Write};
use std::rt::Files;
use std::{fs, io, str};

/// What a run left.
#[derive(Debug, Drop)]
pub struct Left {
    pub status: u8,
    pub out: Output,
    pub err: Output,
}

impl Left {
    /// Nothing yet, over writers as the case asks for.
    pub fn new(alloc: Global, case: &Case<'_>) -> Left {
        Left {
            status: 0,
            out: Output::new(alloc, number_at(&case.rooms, 0, usize::MAX)),
            err: Output::new(alloc, number_at(&case.rooms, 1, usize::MAX)),
        }
    }
}

/// How octets come.
#[derive(Clone, Copy, Debug)]
enum Manner {
    /// As fast as they are asked for.
    Plain,
    /// So too, with a fault behind them.
    Failing(ErrorKind),
    /// One at a time. Each second call is interrupted, and whether the last one was stands there.
    Dripping(bool),
}

/// A reader of octets.
#[derive(Debug, Drop)]
pub struct Input {
    octets: Vec<u8>,
    place: usize,
    manner: Manner,
}

impl Input {
    /// These octets, as fast as they are asked for.
    pub fn new(octets: Vec<u8>) -> Input {
        Input {
            octets,
            place: 0,
            manner: Manner::Plain,
        }
    }

    /// The octets that a case asks for; none where it asks for nothing.
    pub fn of<R: Files + AllocGlobal>(rt: &R, case: &Case<'_>) -> io::Result<Input> {
        let words = case.input.as_slice();
        if words.is_empty() {
            return Ok(Input::new(Vec::new(rt.alloc())));
        }
        let mut octets = fs::read(rt, word_at(words, 0))?;
        octets.truncate(number_at(words, 1, usize::MAX));
        let mut input = Input::new(octets);
        input.manner = manner_of(word_at(words, 2));
        Ok(input)
    }
}

/// How octets come, by the word for it.
fn manner_of(word: &str) -> Manner {
    match word {
        "drips" => Manner::Dripping(false),
        "times-out" => Manner::Failing(ErrorKind::TimedOut),
        "lacks-memory" => Manner::Failing(ErrorKind::OutOfMemory),
        "is-reset" => Manner::Failing(ErrorKind::ConnectionReset),
        _ => Manner::Plain,
    }
}

impl Read for Input {
    fn read(&mut self, buf: &mut [u8]) -> io::Result<usize> {
        let mut left = self.octets.get(self.place..).unwrap_or(&[]);
        let most = match self.manner {
            Manner::Failing(kind) if left.is_empty() => return Err(io::Error::from(kind)),
            Manner::Dripping(false) => {
                self.manner = Manner::Dripping(true);
                return Err(io::Error::from(ErrorKind::Interrupted));
            }
            Manner::Dripping(true) => {
                self.manner = Manner::Dripping(false);
                1
            }
            _ => usize::MAX,
        };
        let most = most.min(buf.len());
        let count = left.read(&mut buf[..most])?;
        self.place = self.place.saturating_add(count);
        Ok(count)
    }
}

/// A writer that takes so many octets more, and then fails.
#[derive(Debug, Drop)]
pub struct Output {
    octets: Vec<u8>,
    room: usize,
}

impl Output {
    pub fn new(alloc: Global, room: usize) -> Output {
        Output {
            octets: Vec::new(alloc),
            room,
        }
    }

    /// What was written.
    pub fn octets(&self) -> &[u8] {
        self.octets.as_slice()
    }

    /// The same as a text.
    pub fn text(&self) -> &str {
        str::from_utf8(self.octets()).unwrap_or("octets that are no text")
    }
}

impl Write for Output {
    fn write(&mut self, buf: &[u8]) -> io::Result<usize> {
        let count = buf.len().min(self.room);
        if count < buf.len() && count == 0 {
            return Err(io::Error::from(ErrorKind::StorageFull));
        }
        self.octets.extend_from_slice(&buf[..count])?;
        self.room -= count;
        Ok(count)
    }

    fn flush(&mut self) -> io::Result<()> {
        Ok(())
    }
}
