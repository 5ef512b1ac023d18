//! Does to engines what each line of its input says, and feeds them random streams, and compares what comes of it with what the line
//! or a plain reading of the stream tells.
//!
//! Without words it does both: the lines, and then 1000 streams. Its words say how many streams there are and which is the
//! first one, and ask for these alone. `README.md` says how a line is written. In reading order:
//!
//! - `lines`: lines of data, over a port that plays a router's part
//! - `fuzzed`: streams of a client, in pieces
#![tactic(auto)]

mod fuzzed;
mod lines;

use std::{env, io};

/// How many streams are fed, if no word says so.
const STREAMS: u64 = 1000;

fn main(rt: HostRuntime) -> io::Result<()> {
    let words: Vec<String> = env::args(&rt)?.skip(1).collect(rt.alloc())?;
    done_by(&rt, words.as_slice())
}

/// Does what these words ask for.
///
/// It borrows the words: owned here, their drop would be proved on each way out.
fn done_by(rt: &HostRuntime, words: &[String]) -> io::Result<()> {
    if words.is_empty() {
        lines::play_input(rt)?;
    }
    let count = number_of(words, 0).unwrap_or(STREAMS);
    fuzzed::feed_streams(rt, number_of(words, 1).unwrap_or(0), count)
}

/// The word in this place, if it is a number.
fn number_of(words: &[String], place: usize) -> Option<u64> {
    words.get(place)?.as_str().parse::<u64>().ok()
}
