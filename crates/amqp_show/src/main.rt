//! A capture in words: `amqp_show [OPTION]... [FILE]` reads a capture from the file, or from standard input where no word is given
//! or the word is `-`, and prints a line for each record; with `--summary` the form, the rules and one table. With `--pcapng OUT`
//! it prints no record, and writes the packets of all to a new file, in the format pcapng; with `--chart OUT` it draws those that
//! are asked for as an SVG. With `--credit OUT` it audits the capture, and draws the credit of a consumer's link; with `--why` it
//! audits the capture, and prints the verdict and why it is not accepted.
//!
//! The exit status tells whether the capture is whole (`Ending::status`), or the verdict. What was read in front of a fault is
//! printed, and then the line of the fault. A mistake in the words gives the parser's text on standard error alone, and status
//! 64. The library `show_program` is a run over any words, reader and writers.
#![tactic(auto)]

use program_ends::{tell_unread_words, words_of};
use show_program::run_words;
use std::io::IsTerminal;
use std::process::ExitCode;

fn main(rt: HostRuntime) -> ExitCode {
    let (mut out, mut err) = (rt.stdout(), rt.stderr());
    let is_watched = err.is_terminal() && !out.is_terminal();
    let status = match words_of(&rt) {
        Ok(words) => run_words(
            &rt,
            rt.alloc(),
            words.as_slice(),
            is_watched,
            &mut rt.stdin(),
            &mut out,
            &mut err,
        ),
        Err(error) => tell_unread_words(error, &mut out, &mut err),
    };
    ExitCode::from(status)
}
