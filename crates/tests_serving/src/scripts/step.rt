//! A line in its parts.

use std::alloc::Global;
use std::io;

/// A line: a verb, a word, and the rest.
#[derive(Clone, Copy, Debug)]
pub struct ScriptLine<'a> {
    pub verb: &'a str,
    pub first: &'a str,
    pub rest: &'a str,
}

impl<'a> ScriptLine<'a> {
    pub fn of(line: &'a str) -> ScriptLine<'a> {
        let (verb, words) = parted(line);
        let (first, rest) = parted(words);
        ScriptLine { verb, first, rest }
    }

    /// The word as a number; 0 where it is none.
    pub fn number(&self) -> u32 {
        self.first.parse::<u32>().unwrap_or(0)
    }

    /// The rest as a number; 0 where it is none.
    pub fn count(&self) -> u32 {
        self.rest.parse::<u32>().unwrap_or(0)
    }

    /// The octets that the rest is in hexadecimal digits; none where it is no such.
    pub fn octets(&self, alloc: Global) -> Vec<u8> {
        octets_of(alloc, self.rest)
    }
}

/// The octets that hexadecimal digits are; none where they are none.
pub fn octets_of(alloc: Global, digits: &str) -> Vec<u8> {
    hex::decode(alloc, digits).unwrap_or(Vec::new(alloc))
}

/// Prints what a step came to.
pub fn tell(rt: &impl Print, line: &str, told: &str) -> io::Result<()> {
    println!(rt; "{line}: {told}")
}

/// What stands before the first space, and what behind.
fn parted(text: &str) -> (&str, &str) {
    text.split_once(' ').unwrap_or((text, ""))
}
