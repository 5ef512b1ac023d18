//! Captures that are read, written, looked at, and packed.
//!
//! What is expected was worked out by hand from the formats, and an independent program made the octets of packets, which tshark
//! read. The modules, in reading order:
//!
//! - `octets`: what a case is written in
//! - `fakes`: a reader that gives a text in pieces or fails, and a writer with room for less
//! - `runs`: what comes of many numbers
//! - `reading`, `writing`, `packing`: what is done with a text
//! - `texts`, `records`: the subjects

mod fakes;
mod octets;
mod packing;
mod reading;
mod records;
mod runs;
mod texts;
mod writing;

use kit_cases::tell_cases;
use records::Records;
use std::io;
use texts::Texts;

/// Tells what comes of the cases of each subject.
pub fn tell_captures(rt: &HostRuntime) -> io::Result<()> {
    let alloc = rt.alloc();
    tell_cases(rt, "reading", Texts::new(alloc))?;
    tell_cases(rt, "writing", Texts::new(alloc))?;
    tell_cases(rt, "packing", Texts::new(alloc))?;
    tell_cases(rt, "records", Records::new(alloc))
}
