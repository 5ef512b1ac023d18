//! Plays cases through the runs of the programs, over fake readers and writers, and prints what each left: its exit status,
//! standard output behind `|`, and standard error behind `!`.
//!
//! The words name the files of the cases, `data/NAME.cases` here. A case is a line; one that is empty or begins with `#` is none.
//! `README.md` says how a case is written. The modules, in reading order:
//!
//! - `case`: a line in its parts
//! - `fakes`: the reader and the writers that it asks for
//! - `runs`: the programs
//! - `growing`: a file that grows while the auditor follows it
//! - `exchanges`: greetings over a router whose octets were worked out beforehand
//! - `ends`: what the programs do alike at their ends, and the words of the router
#![tactic(auto)]

mod case;
mod ends;
mod exchanges;
mod fakes;
mod growing;
mod runs;

use case::Case;
use fakes::Left;
use program_ends::words_of;
use std::alloc::AllocGlobal;
use std::net::Net;
use std::rt::Files;
use std::sync::Wait;
use std::thread::Threads;
use std::time::Clock;
use std::{fs, io};

fn main(rt: HostRuntime) -> io::Result<()> {
    let paths = words_of(&rt)?;
    play_files(&rt, paths.as_slice())
}

/// Plays the cases of files.
///
/// It borrows their names, as the functions below borrow what those above them own: owned together, the drops of all would be proved
/// on each way out.
fn play_files<R>(rt: &R, paths: &[String]) -> io::Result<()>
where
    R: Files + Print + AllocGlobal + Threads + Wait + Net + Clock + Sync,
{
    for path in paths {
        let text = fs::read_to_string(rt, path.as_str())?;
        play_all(rt, text.as_str())?;
    }
    Ok(())
}

/// Plays the cases of a file.
fn play_all<R>(rt: &R, text: &str) -> io::Result<()>
where
    R: Files + Print + AllocGlobal + Threads + Wait + Net + Clock + Sync,
{
    for line in text.lines() {
        if line.is_empty() || line.starts_with('#') {
            continue;
        }
        play(rt, line)?;
    }
    Ok(())
}

/// Plays the case of a line.
fn play<R>(rt: &R, line: &str) -> io::Result<()>
where
    R: Files + Print + AllocGlobal + Threads + Wait + Net + Clock + Sync,
{
    println!(rt; "> {line}")?;
    let case = Case::of(rt.alloc(), line)?;
    let mut left = Left::new(rt.alloc(), &case);
    play_into(rt, &case, &mut left)
}

/// Plays a case, which leaves this.
fn play_into<R>(rt: &R, case: &Case<'_>, left: &mut Left) -> io::Result<()>
where
    R: Files + Print + AllocGlobal + Threads + Wait + Net + Clock + Sync,
{
    runs::run(rt, case, left)?;
    tell(rt, left, case.piece)
}

/// Prints what a run left.
fn tell(rt: &impl Print, left: &Left, piece: &str) -> io::Result<()> {
    println!(rt; "status {}", left.status)?;
    tell_text(rt, '|', left.out.text(), piece)?;
    tell_text(rt, '!', left.err.text(), piece)
}

/// Prints a text: the piece that is asked for, where it stands there, or else all lines.
fn tell_text(rt: &impl Print, mark: char, text: &str, piece: &str) -> io::Result<()> {
    if !piece.is_empty() {
        match text.find(piece) {
            Some(0) => return println!(rt; "{mark} {piece}"),
            Some(_) => return println!(rt; "{mark} .. {piece}"),
            None => {}
        }
    }
    for line in text.lines() {
        println!(rt; "{mark} {line}")?;
    }
    if !text.is_empty() && !text.ends_with('\n') {
        println!(rt; "{mark} without a newline")?;
    }
    Ok(())
}
