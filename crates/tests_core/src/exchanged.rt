//! Serves clients by engines that share one core on one thread.
//!
//! First it plays an exchange of a producer and a consumer, whose octets come and go in pieces of 1, 7 and 4096, compares its
//! capture with the worked one, and prints what the auditor says of it; and short talks of one client, whose octets are
//! compared with those that were worked out. Then it makes runs by chance: some clients with random streams, which are
//! compared with a plain second reading of them. It names the seed of each run of which something is wrong, and prints what
//! was done, in numbers. The modules, in reading order:
//!
//! - `port`: a connection's way to the core
//! - `device`: an engine, and the octets that it gave
//! - `exchange`, `talks`: the exchange, and the talks
//! - `client`, `running`: a client with a stream, and a run of several

mod client;
mod device;
mod exchange;
mod port;
mod running;
mod talks;

ghost use Rattle.std.specs.Prelude.{◌<◌};

use crate::cores::{no_rules, text_in_form};
use crate::{WORDS_FAULT, WRONG};
use audit_core::Verdict;
use capture_form::{Capture, read_capture};
use exchange::exchanged;
use kit_gates::audited;
use kit_talks::{StreamCounts, are_served};
use running::{Run, run_of_seed};
use std::alloc::{AllocError, Global};
use std::{fs, io};
use talks::{TALKS, Talk, goes_right};

/// Plays the exchange, holds the talks, and makes as many runs as the first number says, by the seeds from the second on; and
/// prints what came of it.
pub(crate) fn exchange_all(rt: &HostRuntime, numbers: &[u32]) -> io::Result<u8> {
    let [runs, seed] = numbers else {
        return Ok(WORDS_FAULT);
    };
    let is_same = play(rt)?;
    let are_right = talk(rt)?;
    let wrong = judged(rt, *runs, *seed)?;
    println!(rt; "{wrong} wrong")?;
    let is_right = is_same && are_right && wrong == 0;
    Ok(if is_right { 0 } else { WRONG })
}

/// Plays the exchange in pieces of each length, and answers whether it is the worked one each time.
fn play(rt: &HostRuntime) -> io::Result<bool> {
    let worked = fs::read(rt, "replayed/two_clients.cap")?;
    are_worked(rt, worked.as_slice())
}

/// The same, where these are the octets of the worked one.
fn are_worked(rt: &HostRuntime, worked: &[u8]) -> io::Result<bool> {
    let mut is_same = true;
    for most in [1, 7, 4096] {
        is_same = is_worked(rt, most, worked)? && is_same;
    }
    Ok(is_same)
}

/// Plays the exchange in pieces of this length, prints what came of it, and answers whether it is the worked one.
fn is_worked(rt: &HostRuntime, most: usize, worked: &[u8]) -> io::Result<bool>
    requires { 0 < most }
{
    match exchanged(rt.alloc(), most)? {
        Some(capture) => tell(rt, most, &capture, worked),
        None => {
            println!(rt; "pieces of {most}: a client did not come to its end")?;
            Ok(false)
        }
    }
}

/// Prints what is said of the capture of the exchange in pieces of this length, and answers whether it is the worked one.
///
/// It borrows the capture: owned here, its drop would be proved on each way out.
fn tell(rt: &HostRuntime, most: usize, capture: &Capture, worked: &[u8]) -> io::Result<bool> {
    let is_same = is_made(rt.alloc(), capture, worked)?;
    let name = if is_same {
        "the worked capture"
    } else {
        "another capture"
    };
    match audited(rt.alloc(), capture)? {
        Verdict::Accepted(tally) => println!(rt;
            "pieces of {most}: {name}, accepted records={} deliveries={} outcomes={}",
            tally.records, tally.deliveries, tally.outcomes
        )?,
        _ => println!(rt; "pieces of {most}: {name}, not accepted")?,
    }
    Ok(is_same)
}

/// Whether the worked capture is what the core made, without rules.
fn is_made(alloc: Global, made: &Capture, worked: &[u8]) -> Result<bool, AllocError> {
    match read_capture(alloc, worked) {
        Ok(known) => is_known(alloc, made, &known, worked),
        Err(_) => Ok(false),
    }
}

/// Whether this known capture is, whose text this is.
fn is_known(
    alloc: Global,
    made: &Capture,
    known: &Capture,
    worked: &[u8],
) -> Result<bool, AllocError> {
    let text = text_in_form(alloc, &no_rules(alloc)?, known, made)?;
    Ok(text.is_some_and(|text| text.as_slice() == worked))
}

/// Holds each talk, and answers whether all go as they were worked out.
fn talk(rt: &HostRuntime) -> io::Result<bool> {
    let mut are_right = true;
    for talk in TALKS {
        are_right = is_worked_out(rt, talk)? && are_right;
    }
    Ok(are_right)
}

/// Holds a talk in pieces of each length, prints what came of it, and answers whether it is what was worked out.
fn is_worked_out(rt: &HostRuntime, talk: &Talk) -> io::Result<bool> {
    let mut is_right = true;
    for most in [1, 7, 4096] {
        is_right = goes_right(rt.alloc(), talk, most)? && is_right;
    }
    let name = talk.name;
    let word = if is_right {
        "as worked out"
    } else {
        "otherwise"
    };
    println!(rt; "{name}: {word}")?;
    Ok(is_right)
}

/// Makes the runs, names those of which something is wrong, prints the numbers, and gives how many are wrong.
fn judged(rt: &HostRuntime, runs: u32, seed: u32) -> io::Result<u32> {
    let (mut counts, mut wrong): (StreamCounts, u32) = (StreamCounts::NOTHING, 0);
    for run in 0..runs {
        let seed = seed.wrapping_add(run);
        if !is_right(rt.alloc(), seed, &mut counts)? {
            wrong = wrong.wrapping_add(1);
            println!(rt; "seed {seed} is wrong")?;
        }
    }
    println!(rt; "{counts}")?;
    Ok(wrong)
}

/// Makes the run of a seed, counts what came of it, and answers whether it is right.
fn is_right(alloc: Global, seed: u32, counts: &mut StreamCounts) -> Result<bool, AllocError> {
    let run = run_of_seed(alloc, u64::from(seed))?;
    counts.count(&run.capture, run.served.as_slice());
    is_served(alloc, &run)
}

/// Whether the auditor accepts the capture of a run, and each client was served as its octets say.
fn is_served(alloc: Global, run: &Run) -> Result<bool, AllocError> {
    let Verdict::Accepted(_) = audited(alloc, &run.capture)? else {
        return Ok(false);
    };
    are_served(alloc, &run.capture, run.limit, run.served.as_slice())
}
