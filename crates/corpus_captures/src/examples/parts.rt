//! Captures that are made piece by piece, while they are read.

use std::alloc::Global;
use std::io::Read;
use std::{fs, io};

/// The octets of a file, and how often they come, once at least.
#[derive(Drop)]
pub struct Part {
    octets: Vec<u8>,
    times: u32,
}

impl Part {
    /// The part that a word tells: `FILE`, or `TIMES*FILE`.
    pub fn of(rt: &HostRuntime, word: &str) -> io::Result<Part> {
        let (times, file) = match word.split_once('*') {
            Some((times, file)) => (times.parse::<u32>().unwrap_or(1), file),
            None => (1, word),
        };
        Ok(Part {
            octets: fs::read(rt, format!(in rt.alloc(); "examples/{file}")?)?,
            times,
        })
    }
}

/// Gives the octets of parts, one behind the other, each as often as it comes.
#[derive(Drop)]
pub struct PartsReader<'a> {
    left: &'a [u8],
    parts: &'a [Part],
    /// How often the first of these parts was given.
    given: u32,
}

impl<'a> PartsReader<'a> {
    /// All of these parts.
    pub fn of(parts: &'a [Part]) -> PartsReader<'a> {
        PartsReader {
            left: &[],
            parts,
            given: 0,
        }
    }

    /// The next part is due.
    fn go_on(&mut self) {
        let Some((part, behind)) = self.parts.split_first() else {
            return;
        };
        self.left = part.octets.as_slice();
        self.given = self.given.saturating_add(1);
        if self.given >= part.times {
            self.parts = behind;
            self.given = 0;
        }
    }
}

impl Read for PartsReader<'_> {
    fn read(&mut self, buf: &mut [u8]) -> io::Result<usize> {
        if self.left.is_empty() {
            self.go_on();
        }
        self.left.read(buf)
    }
}

/// All octets of these parts.
pub fn octets_of(alloc: Global, parts: &[Part]) -> io::Result<Vec<u8>> {
    let mut octets = Vec::new(alloc);
    let _ = PartsReader::of(parts).read_to_end(&mut octets)?;
    Ok(octets)
}
