//! The router that stays up: `amqp_routerd [OPTION]...` serves connections at an address until it is told to end, and writes the
//! capture of what it does to a new file while it serves.
//!
//! It prints how the run ended as one line on standard output; the exit status tells it too (`router_words::RunEnd`). It ends where
//! standard input ends or has the line `quit`, where that is a pipe or a socket. Words that the parser does not take give its text on
//! standard error, nothing on standard output, and status 64. The library `daemon_program` is a run over any words, input and
//! writers.
#![tactic(auto)]

use daemon_program::run_words;
use program_ends::{tell_unread_words, words_of};
use std::io::IsTerminal;
use std::os::fd::AsRawFd;
use std::process::ExitCode;

fn main(rt: HostRuntime) -> ExitCode {
    let (mut out, mut err, mut input) = (rt.stdout(), rt.stderr(), rt.stdin());
    // To read of a terminal would stop a router that was started in its background.
    let heard = (!input.is_terminal()).then_some(input.as_raw_fd());
    let status = match words_of(&rt) {
        Ok(words) => run_words(
            &rt,
            rt.alloc(),
            words.as_slice(),
            heard,
            &mut input,
            &mut out,
            &mut err,
        ),
        Err(error) => tell_unread_words(error, &mut out, &mut err),
    };
    ExitCode::from(status)
}
