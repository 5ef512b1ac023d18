//! Octets and numbers as words, and as text.

use std::alloc::{AllocError, AllocFailed, Global};
use std::fmt::{Debug, Formatter};
use std::io::ErrorKind;
use std::str::FromStr;
use std::{fmt, io};

/// Why a line has no answer.
///
/// It is no `io::Error`, since that has a drop, which would be proved on each way out of all functions that answer.
#[derive(Clone, Copy)]
pub(crate) enum NoAnswer {
    /// It is no case.
    NoCase,
    /// Memory was refused.
    Memory,
}

impl From<AllocError> for NoAnswer {
    fn from(_fault: AllocError) -> NoAnswer {
        NoAnswer::Memory
    }
}

impl<T: Drop> From<AllocFailed<T>> for NoAnswer {
    fn from(_fault: AllocFailed<T>) -> NoAnswer {
        NoAnswer::Memory
    }
}

impl From<NoAnswer> for io::Error {
    fn from(fault: NoAnswer) -> io::Error {
        match fault {
            NoAnswer::NoCase => io::Error::from(ErrorKind::InvalidInput),
            NoAnswer::Memory => io::Error::from(AllocError),
        }
    }
}

/// The octets that a word is in hex, none where it is `-`.
pub(crate) fn octets(alloc: Global, word: &str) -> Result<Vec<u8>, NoAnswer> {
    if word == "-" {
        return Ok(Vec::new(alloc));
    }
    match hex::decode(alloc, word) {
        Ok(octets) => Ok(octets),
        Err(_) => Err(NoAnswer::NoCase),
    }
}

/// The octets of each word.
pub(crate) fn octets_of_each(alloc: Global, words: &[&str]) -> Result<Vec<Vec<u8>>, NoAnswer> {
    let mut pieces = Vec::new(alloc);
    for word in words {
        pieces.push(octets(alloc, word)?)?;
    }
    Ok(pieces)
}

/// The pieces of octets, lent.
pub(crate) fn lent(alloc: Global, pieces: &[Vec<u8>]) -> Result<Vec<&[u8]>, AllocError> {
    let mut lent = Vec::new(alloc);
    for piece in pieces {
        lent.push(piece.as_slice())?;
    }
    Ok(lent)
}

/// The words between commas.
pub(crate) fn between_commas<'a>(
    alloc: Global,
    words: &'a [&'a str],
) -> Result<Vec<&'a [&'a str]>, AllocError> {
    words.split(|word| *word == ",").collect(alloc)
}

/// The number or truth value that a word is.
pub(crate) fn number<T: FromStr>(word: &str) -> Result<T, NoAnswer>
where
    T::Err: Drop,
{
    match word.parse::<T>() {
        Ok(number) => Ok(number),
        Err(_) => Err(NoAnswer::NoCase),
    }
}

/// Octets that are printed in hex, `-` where there are none.
#[derive(Clone, Copy)]
pub(crate) struct Hex<'a>(pub(crate) &'a [u8]);

impl Debug for Hex<'_> {
    fn fmt<W: fmt::Write>(&self, f: &mut Formatter<W>) -> fmt::Result {
        if self.0.is_empty() {
            return write!(f, "-");
        }
        for octet in self.0 {
            write!(f, "{octet:02X}")?;
        }
        Ok(())
    }
}

/// The same of octets that may be absent.
pub(crate) fn hex_if(octets: Option<&[u8]>) -> Option<Hex<'_>> {
    Some(Hex(octets?))
}

/// The octets in hex.
pub(crate) fn hexed(alloc: Global, octets: &[u8]) -> Result<String, AllocError> {
    format!(in alloc; "{:?}", Hex(octets))
}

/// Adds what a question is answered, behind its name.
pub(crate) fn tell<T: Debug + Drop>(
    out: &mut String,
    name: &str,
    told: T,
) -> Result<(), AllocError> {
    write!(out, " {name} {told:?}")
}

/// The same where there is an answer.
pub(crate) fn tell_if<T: Debug + Drop>(
    out: &mut String,
    name: &str,
    told: Option<T>,
) -> Result<(), AllocError> {
    match told {
        Some(told) => tell(out, name, told),
        None => Ok(()),
    }
}
