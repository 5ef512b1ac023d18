//! The auditor of captures: `amqp_audit [OPTION]... [FILE]` reads a capture from the file, or from standard input
//! where no word is given, and prints its verdict as one line on standard output.
//!
//! With `--follow` it judges a capture that a router still writes, record by record, and stops at the first that is refused; with
//! `--idle SECONDS` also where nothing has come for so long. The exit status tells the verdict too (`Verdict::status`). A fault of
//! the words gives the parser's text on standard error, nothing on standard output, and status 64. The library `audit_program` is a
//! run over any words, reader and writers.
#![tactic(auto)]

use audit_program::run_words;
use program_ends::{tell_unread_words, words_of};
use std::process::ExitCode;

fn main(rt: HostRuntime) -> ExitCode {
    let (mut out, mut err) = (rt.stdout(), rt.stderr());
    let status = match words_of(&rt) {
        Ok(words) => run_words(
            &rt,
            &rt,
            rt.alloc(),
            words.as_slice(),
            &mut rt.stdin(),
            &mut out,
            &mut err,
        ),
        Err(error) => tell_unread_words(error, &mut out, &mut err),
    };
    ExitCode::from(status)
}
