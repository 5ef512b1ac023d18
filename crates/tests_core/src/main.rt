//! Lets the router's core run, in six ways, and judges what it does.
//!
//! Without words all are done, one behind the other. `README.md` says what each does and prints, and which words ask for
//! one of them alone. In reading order:
//!
//! - `auditing`: what the auditor says of what a core holds: whatever clients did, its text is accepted
//! - `names`, `cores`: what is there to be run, and the cores that run it
//! - `played`: scenarios, line by line
//! - `replayed`: the inputs of worked captures
//! - `exchanged`: clients whose octets are cut into pieces
//! - `hostile`: clients by chance, of whom some keep to nothing
//! - `crowded`: many consumers of one balanced address
//! - `routed`: messages beside others, and how long they take
#![tactic(auto)]

mod auditing;
mod cores;
mod crowded;
mod exchanged;
mod hostile;
mod names;
mod played;
mod replayed;
mod routed;

use std::process::ExitCode;
use std::{env, io};

/// The status after words that ask for nothing.
const WORDS_FAULT: u8 = 64;

/// The status where memory was refused, a file not read or a line not written.
const SYSTEM_FAULT: u8 = 74;

/// The status where something is wrong.
const WRONG: u8 = 1;

fn main(rt: HostRuntime) -> ExitCode {
    ExitCode::from(match done(&rt) {
        Ok(status) => status,
        Err(_) => SYSTEM_FAULT,
    })
}

/// Does what the words of the command ask for, and answers the status.
fn done(rt: &HostRuntime) -> io::Result<u8> {
    let words: Vec<String> = env::args(rt)?.skip(1).collect(rt.alloc())?;
    done_by(rt, words.as_slice())
}

/// Does what words ask for, and answers the status.
///
/// It borrows the words: owned here, their drop would be proved on each way out.
fn done_by(rt: &HostRuntime, words: &[String]) -> io::Result<u8> {
    let Some((part, behind)) = words.split_first() else {
        return done_all(rt);
    };
    match part.as_str() {
        "played" => played::play_all(rt, behind),
        "replayed" => replayed::replay_all(rt, behind),
        "exchanged" => exchanged::exchange_all(rt, numbers_of(rt, behind)?.as_slice()),
        "hostile" => hostile::drive_all(rt, numbers_of(rt, behind)?.as_slice()),
        "show" => hostile::show(rt, numbers_of(rt, behind)?.as_slice()),
        "crowd" => crowded::serve_crowd(rt, numbers_of(rt, behind)?.as_slice()),
        "routed" => routed::route_all(rt, behind, false),
        "timed" => routed::route_all(rt, behind, true),
        _ => Ok(WORDS_FAULT),
    }
}

/// Does all, and answers the worst status.
fn done_all(rt: &HostRuntime) -> io::Result<u8> {
    let statuses = [
        played::play_all(rt, &[])?,
        replayed::replay_all(rt, &[])?,
        exchanged::exchange_all(rt, &[40, 1])?,
        hostile::drive_all(rt, &[30, 100, 1, 40])?,
        crowded::serve_crowd(rt, &[200, 1000, 1])?,
        routed::route_each(rt)?,
    ];
    Ok(statuses.into_iter().max().unwrap_or(0))
}

/// The numbers that words are, or 0.
fn numbers_of(rt: &HostRuntime, words: &[String]) -> io::Result<Vec<u32>> {
    let numbers = words
        .iter()
        .map(|word| word.as_str().parse::<u32>().unwrap_or(0));
    Ok(numbers.collect(rt.alloc())?)
}
