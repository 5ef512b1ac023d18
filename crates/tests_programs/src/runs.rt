//! The programs.

use crate::case::Case;
use crate::fakes::{Input, Left};
use crate::{ends, exchanges, growing};
use std::alloc::{AllocGlobal, Global};
use std::io::Write;
use std::net::Net;
use std::rt::Files;
use std::sync::Wait;
use std::thread::Threads;
use std::time::Clock;
use std::{fs, io};

/// Does what the case asks for.
pub fn run<R>(rt: &R, case: &Case<'_>, left: &mut Left) -> io::Result<()>
where
    R: Files + AllocGlobal + Threads + Wait + Net + Clock + Sync,
{
    match case.kind {
        "audit" => audit(rt, case, left),
        "follow" => growing::follow(rt, case, left),
        "show" => show(rt, case, left),
        "router" => {
            route(rt, case.words_from(0), left);
            Ok(())
        }
        "daemon" => {
            stay_up(rt, case.words_from(0), left);
            Ok(())
        }
        "octets" => write_octets(rt, case, left),
        "text" => write_text(rt, case, left),
        "remove" => {
            // Nothing is to be said where it is not there.
            let _ = fs::remove_file(rt, case.word(0));
            Ok(())
        }
        "exchange" => exchanges::exchange(rt, case, left),
        _ => ends::run(rt.alloc(), case, left),
    }
}

/// The auditor.
fn audit<R: Files + Clock + AllocGlobal>(
    rt: &R,
    case: &Case<'_>,
    left: &mut Left,
) -> io::Result<()> {
    let mut input = Input::of(rt, case)?;
    let (out, err) = (&mut left.out, &mut left.err);
    left.status = audit_program::run_words(
        rt,
        rt,
        rt.alloc(),
        case.words_from(0),
        &mut input,
        out,
        err,
    );
    Ok(())
}

/// A capture in words. Nobody watches it.
fn show<R: Files + AllocGlobal>(rt: &R, case: &Case<'_>, left: &mut Left) -> io::Result<()> {
    let mut input = Input::of(rt, case)?;
    let (out, err) = (&mut left.out, &mut left.err);
    left.status = show_program::run_words(
        rt,
        rt.alloc(),
        case.words_from(0),
        false,
        &mut input,
        out,
        err,
    );
    Ok(())
}

/// The router.
fn route<R: Files + AllocGlobal + Threads + Wait + Net + Clock + Sync>(
    rt: &R,
    words: &[&str],
    left: &mut Left,
) {
    let (out, err) = (&mut left.out, &mut left.err);
    left.status = router_program::run_words(rt, rt.alloc(), words, out, err);
}

/// The router that stays up. No standard input tells it to end.
fn stay_up<R: Files + AllocGlobal + Wait + Net + Clock>(rt: &R, words: &[&str], left: &mut Left) {
    let mut input = Input::new(Vec::new(rt.alloc()));
    let (out, err) = (&mut left.out, &mut left.err);
    left.status = daemon_program::run_words(rt, rt.alloc(), words, None, &mut input, out, err);
}

/// How many octets a file has, and where no number of them is asked for, which.
fn write_octets<R: Files + AllocGlobal>(
    rt: &R,
    case: &Case<'_>,
    left: &mut Left,
) -> io::Result<()> {
    let octets = fs::read(rt, case.word(0))?;
    tell_octets(rt.alloc(), octets.as_slice(), case.word(1) == "shown", left)
}

/// How many octets there are, and which, where that is asked for.
///
/// It borrows the octets: owned here, their drop would be proved on each way out.
fn tell_octets(alloc: Global, octets: &[u8], are_shown: bool, left: &mut Left) -> io::Result<()> {
    writeln!(left.out, "{} octets", octets.len())?;
    if are_shown {
        let text = hex::encode(alloc, octets)?;
        writeln!(left.out, "{text}")?;
    }
    Ok(())
}

/// The text of a file.
fn write_text<R: Files + AllocGlobal>(rt: &R, case: &Case<'_>, left: &mut Left) -> io::Result<()> {
    let text = fs::read_to_string(rt, case.word(0))?;
    left.out.write_all(text.as_bytes())
}
