//! Does what lines say to an engine over a port that plays a router's part, and compares what comes of it with what they tell.
//!
//! `README.md` says how a line is written. The modules, in reading order:
//!
//! - `names`: octets by their names
//! - `router`: a router's part
//! - `bench`: an engine, and what is done to it

mod bench;
mod names;
mod router;

use bench::Bench;
use std::io;

/// Tells of which lines of the input something else came than they say, and how many lines there are.
pub(crate) fn play_input(rt: &HostRuntime) -> io::Result<()> {
    tell_lines(rt, &mut Bench::new(rt.alloc()))
}

/// The same by a bench that has no engine fed yet.
///
/// It borrows the bench: owned here, its drop would be proved on each way out of the loop.
fn tell_lines(rt: &HostRuntime, bench: &mut Bench) -> io::Result<()> {
    let alloc = rt.alloc();
    let (mut told, mut others) = (0u64, 0u64);
    for line in rt.lines(alloc) {
        let line = line?;
        let Some((said, wanted)) = line.split_once(" = ") else {
            bench.prepare(line.as_str())?;
            continue;
        };
        told = told.saturating_add(1);
        let came = bench.answer(said)?;
        if came.as_str() != wanted {
            others = others.saturating_add(1);
            println!(rt; "{said} = {wanted}: but it is {came}")?;
        }
    }
    println!(rt; "{told} lines, of which {others} tell something else")
}
