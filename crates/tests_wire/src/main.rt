//! Reads and writes octets of AMQP as each line of its input says, and writes the line again with what came of it.
//!
//! A line is a case: what it is about, what is done, and with which octets, in hex (`-` is none). Lines that begin with
//! `#` say what the cases below them are for. What is written has to be what stands in `stdout`, whose answers were
//! worked out by hand from the standard. The cases are about
//!
//! - `value`: values (`values`, and `puts` where they are written);
//! - `performative`: performatives (`performatives`, and `written` where they are written);
//! - `message`: the address that a message is for (`messages`);
//! - `frame`, `header`, `sasl`: frames, protocol headers and the frames of a SASL exchange (`frames`, with
//!   `changed` for those of which an octet is another, and `pieces` for streams of frames that come in pieces);
//! - `stream`: the steps of a client's stream (`streams`);
//! - `repeat`: a task that is done over and over again (`repeated`).
//!
//! `words` has what all of them read and print. By the words `TASK COUNT` the program does that task so many times with the
//! octets of its input, which are no lines then: `measure` beside `src` measures it.
#![tactic(auto)]

mod changed;
mod frames;
mod messages;
mod performatives;
mod pieces;
mod puts;
mod repeated;
mod streams;
mod values;
mod words;
mod written;

use kit_cases::{parted, word};
use std::alloc::Global;
use std::process::ExitCode;
use std::{env, io};
use words::NoAnswer;

/// The status after words that ask for nothing.
const WORDS_FAULT: u8 = 64;

/// The status where the input could not be read, or a line not written.
const SYSTEM_FAULT: u8 = 74;

fn main(rt: HostRuntime) -> ExitCode {
    ExitCode::from(match done(&rt) {
        Ok(true) => 0,
        Ok(false) => WORDS_FAULT,
        Err(_) => SYSTEM_FAULT,
    })
}

/// Does what the words of the command ask for. It answers whether they ask for something.
fn done(rt: &HostRuntime) -> io::Result<bool> {
    let words: Vec<String> = env::args(rt)?.skip(1).collect(rt.alloc())?;
    done_by(rt, words.as_slice())
}

/// Does what these words ask for.
///
/// It borrows the words: owned here, their drop would be proved on each way out.
fn done_by(rt: &HostRuntime, words: &[String]) -> io::Result<bool> {
    match words {
        [] => tell_lines(rt),
        [task, count] => repeated::repeat_input(rt, task.as_str(), count.as_str()),
        _ => Ok(false),
    }
}

/// Writes each line of the input again, with what came of it where it is a case.
fn tell_lines(rt: &HostRuntime) -> io::Result<bool> {
    for line in rt.lines(rt.alloc()) {
        tell(rt, line?.as_str())?;
    }
    Ok(true)
}

/// Writes a line again, with what came of it where it is a case.
fn tell(rt: &HostRuntime, line: &str) -> io::Result<()> {
    let words: Vec<&str> = line.split_whitespace().collect(rt.alloc())?;
    let (subject, rest) = parted(&words);
    if subject.is_empty() || subject == "#" {
        rt.println(line)
    } else {
        println!(rt; "{line}: {}", answer(rt.alloc(), subject, rest)?)
    }
}

/// What comes of a case of this subject.
fn answer(alloc: Global, subject: &str, words: &[&str]) -> Result<String, NoAnswer> {
    match subject {
        "value" => values::answer(alloc, words),
        "performative" => performatives::answer(alloc, words),
        "message" => messages::answer(alloc, words),
        "frame" => frames::answer(alloc, words),
        "header" => frames::header(alloc, word(words, 0)),
        "sasl" => frames::sasl(alloc, words),
        "stream" => streams::answer(alloc, words),
        "repeat" => repeated::answer(alloc, words),
        _ => Err(NoAnswer::NoCase),
    }
}
