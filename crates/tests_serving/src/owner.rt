//! Runs of clients in memory over one server, round by round.
//!
//! It prints a line for each kind of run. The modules, in reading order:
//!
//! - `writer`: a writer in memory that may fail
//! - `run`: two clients that are served to their ends
//! - `kinds`: runs of a kind, and how many of them came to what
//! - `crowd`: many clients at once

mod crowd;
mod kinds;
mod run;
mod writer;

use crowd::serve_crowd;
use kinds::CaptureCounts;
use kit_gates::{
    BEGINS_LATE, CONSUMER, IN_HASTE, MESSAGE, ONE_BY_ONE, OPENS_LATE, Pace, Pair, Part, QUIET,
    RELAY, RELAY_IN_TWO, RELAYED, RunRules, STRANGERS, exchanging, failing, part, two_of,
    vanishing,
};
use run::serve_two;
use std::alloc::Global;
use std::io;

/// More octets than the text of any of these runs has.
const ROOM: usize = usize::MAX;

/// As many reads in a row that bring nothing as a client bears: more than the other takes to say all.
const PATIENCE_OF_ONE: u64 = 10_000;

/// Runs each kind.
pub fn run_all<R: Print>(rt: &R, alloc: Global) -> io::Result<()> {
    exchange(rt, alloc)?;
    relay(rt, alloc)?;
    take_turns(rt, alloc)?;
    vanish(rt, alloc)?;
    fail(rt, alloc)?;
    meet_strangers(rt, alloc)?;
    take_nothing(rt, alloc)?;
    stop(rt, alloc)?;
    let came = serve_crowd(alloc)?;
    println!(rt; "1500 at once: {came}")
}

/// The exchange, octet by octet.
fn exchange<R: Print>(rt: &R, alloc: Global) -> io::Result<()> {
    for (rules, name) in [
        (RunRules::Plain, "no rules"),
        (RunRules::Closest, "closest:q"),
        (RunRules::Multicast, "multicast:q"),
    ] {
        let pair = Pair {
            rules,
            ..exchanging(ONE_BY_ONE, ONE_BY_ONE)
        };
        tell_pair(rt, alloc, name, &pair)?;
    }
    Ok(())
}

/// A producer without address and a consumer: where such senders are served, and where they are not; and where they are, with the
/// message parted behind any octet.
fn relay<R: Print>(rt: &R, alloc: Global) -> io::Result<()> {
    let served = Pair {
        rules: RunRules::Anonymous,
        ..two_of(part(RELAY, ONE_BY_ONE), part(RELAYED, ONE_BY_ONE))
    };
    tell_pair(rt, alloc, "anonymous", &served)?;
    let refused = two_of(part(RELAY, IN_HASTE), part(RELAYED, IN_HASTE));
    tell_pair(rt, alloc, "anonymous not served", &refused)?;
    let mut tally = CaptureCounts::NONE;
    for front in 0..=MESSAGE.len() {
        let first = Part {
            parted: Some(front),
            ..part(RELAY_IN_TWO, ONE_BY_ONE)
        };
        let pair = Pair {
            rules: RunRules::Anonymous,
            ..two_of(first, part(RELAYED, ONE_BY_ONE))
        };
        tally.count(serve_two(alloc, &pair, ROOM)?);
    }
    println!(rt; "anonymous, parted behind any octet: {tally}")
}

/// Two clients that wait for each other, and two that wait for signs of life.
fn take_turns<R: Print>(rt: &R, alloc: Global) -> io::Result<()> {
    let pair = two_of(part(BEGINS_LATE, ONE_BY_ONE), part(OPENS_LATE, ONE_BY_ONE));
    tell_pair(rt, alloc, "in turns", &pair)?;
    let pace = Pace {
        passes: 90,
        ..IN_HASTE
    };
    tell_pair(
        rt,
        alloc,
        "signs of life",
        &two_of(part(QUIET, pace), part(QUIET, pace)),
    )
}

/// The exchange, where one of both is gone behind any octet.
fn vanish<R: Print>(rt: &R, alloc: Global) -> io::Result<()> {
    let tally = CaptureCounts::of(alloc, &vanishing(alloc, IN_HASTE)?)?;
    println!(rt; "gone behind any octet: {tally}")
}

/// The exchange octet by octet, where each read that brings one, and then each write, of one of both fails in turn.
fn fail<R: Print>(rt: &R, alloc: Global) -> io::Result<()> {
    let pace = Pace {
        patience: PATIENCE_OF_ONE,
        ..ONE_BY_ONE
    };
    let tally = CaptureCounts::of(alloc, &failing(alloc, pace)?)?;
    println!(rt; "each read and each write fails: {tally}")
}

/// Clients that speak something else, beside one that keeps to its script.
fn meet_strangers<R: Print>(rt: &R, alloc: Global) -> io::Result<()> {
    let mut tally = CaptureCounts::NONE;
    for script in STRANGERS {
        let pair = two_of(part(script, IN_HASTE), part(CONSUMER, IN_HASTE));
        tally.count(serve_two(alloc, &pair, ROOM)?);
    }
    println!(rt; "strangers: {tally}")
}

/// Clients that take nothing, beside one that keeps to its script or another of them.
fn take_nothing<R: Print>(rt: &R, alloc: Global) -> io::Result<()> {
    let silent = Pace {
        takes: false,
        ..IN_HASTE
    };
    let mut tally = CaptureCounts::NONE;
    for (first, second) in [(silent, IN_HASTE), (IN_HASTE, silent), (silent, silent)] {
        tally.count(serve_two(alloc, &exchanging(first, second), ROOM)?);
    }
    println!(rt; "taking nothing: {tally}")
}

/// A core that is full behind ten records, and writers that fail behind each octet of the text.
fn stop<R: Print>(rt: &R, alloc: Global) -> io::Result<()> {
    let full = Pair {
        limit: 10,
        ..exchanging(ONE_BY_ONE, ONE_BY_ONE)
    };
    tell_pair(rt, alloc, "a full core", &full)?;
    let pair = exchanging(ONE_BY_ONE, ONE_BY_ONE);
    let whole = serve_two(alloc, &pair, ROOM)?;
    let mut tally = CaptureCounts::NONE;
    for room in 0..whole.octets {
        tally.count(serve_two(alloc, &pair, room)?);
    }
    println!(rt; "writers that fail behind any octet: {tally}")
}

/// Serves two clients, and prints what came of it.
fn tell_pair<R: Print>(rt: &R, alloc: Global, name: &str, pair: &Pair) -> io::Result<()> {
    let came = serve_two(alloc, pair, ROOM)?;
    println!(rt; "{name}: {came}")
}
