//! The router: `amqp_router LISTEN CAPTURE WORKERS CONNECTIONS [RULE]...` serves so many connections at an address, by so
//! many threads, and writes the capture of what it did to a file.
//!
//! It prints how the run ended as one line on standard output; the exit status tells it too (`router_words::RunEnd`).
//! Words that the parser does not take give its text on standard error, nothing on standard output, and status 64; those
//! that it takes and that are wrong have a line and status 64 too. The library `router_program` is a run over any words and
//! writers.
#![tactic(auto)]

use program_ends::{tell_unread_words, words_of};
use router_program::run_words;
use std::process::ExitCode;

fn main(rt: HostRuntime) -> ExitCode {
    let (mut out, mut err) = (rt.stdout(), rt.stderr());
    let status = match words_of(&rt) {
        Ok(words) => run_words(&rt, rt.alloc(), words.as_slice(), &mut out, &mut err),
        Err(error) => tell_unread_words(error, &mut out, &mut err),
    };
    ExitCode::from(status)
}
