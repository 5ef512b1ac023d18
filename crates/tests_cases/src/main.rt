//! Counts, reads, writes and draws captures and what they are made of as each line of its files says, and tells what came of it.
//!
//! The files are `NAME.cases` of the folder that the program runs in, `data/` here, one for each subject, and those of `charts/`
//! there. A line has the words of a case; one that begins with `#` says what the cases behind it are about, and is passed on.
//! Behind the words of a case stands what came of it. `stdout` holds what is expected. In reading order:
//!
//! - `counting`: the counters of a session, a link or an address
//! - `captures`: texts of captures, their records, and packets
//! - `charts`: captures as pictures
#![tactic(auto)]

mod captures;
mod charts;
mod counting;

use std::io;

fn main(rt: HostRuntime) -> io::Result<()> {
    counting::tell_counters(&rt)?;
    captures::tell_captures(&rt)?;
    charts::tell_charts(&rt)
}
