//! What the auditor and the plain checker say of captures whose lines were worked out by hand: of the examples, and of small ones,
//! each of which tells a right reading of the law from a likely wrong one.
//!
//! Without words it answers the lines of its input, which ask for the examples, and then judges the small ones, each damaged
//! eight times. By words it judges these alone: the first says how often each is damaged, the second the seed of the damage (42
//! without it). `stdout` has what is expected. In reading order:
//!
//! - `examples`: worked captures, and longer ones that are made of these
//! - `judged`: the small ones, why some of them are refused, and damaged ones
#![tactic(auto)]

mod examples;
mod judged;

use audit_core::one_verdict;
use std::{env, io};

/// How often each capture is damaged, if there are no words.
const OFTEN: u32 = 8;

/// Where the choices of the damage begin, if no word says so.
const SEED: u32 = 42;

fn main(rt: HostRuntime) -> io::Result<()> {
    one_verdict();
    let words: Vec<String> = env::args(&rt)?.skip(1).collect(rt.alloc())?;
    done_by(&rt, words.as_slice())
}

/// Does what these words ask for.
///
/// It borrows the words: owned here, their drop would be proved on each way out.
fn done_by(rt: &HostRuntime, words: &[String]) -> io::Result<()> {
    if words.is_empty() {
        examples::answer_lines(rt)?;
    }
    let often = number_of(words, 0).unwrap_or(OFTEN);
    judged::judge_all(rt, often, number_of(words, 1).unwrap_or(SEED))
}

/// The word in this place, if it is a number.
fn number_of(words: &[String], place: usize) -> Option<u32> {
    words.get(place)?.as_str().parse::<u32>().ok()
}
