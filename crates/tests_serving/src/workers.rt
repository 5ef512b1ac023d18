//! Runs of clients in memory over one core, by threads.
//!
//! It prints a line for each kind of run. What a line says does not depend on which thread is first. The modules, in reading
//! order:
//!
//! - `shared`: two threads, each with an engine over a port of one exchange
//! - `served`: runs of workers
//! - `tally`: how many runs came to what

mod served;
mod shared;
mod tally;

ghost use Rattle.std.specs.Prelude.{◌<◌, ◌≤◌};

use address_table::Rules;
use capture_form::Capture;
use kit_gates::{
    BEGINS_LATE, CONSUMER, IN_HASTE, MESSAGE, ONE_BY_ONE, OPENS_LATE, PATIENCE, Pace, Pair, Part,
    QUIET, RELAY, RELAY_IN_TWO, RELAYED, RunRules, STRANGERS, Told, audited, exchanging, failing,
    part, rules, two_of, vanishing,
};
use served::serve_two;
use shared::share_core;
use std::alloc::Global;
use std::io;
use std::sync::Wait;
use std::thread::Threads;
use tally::{Relays, ReportCounts};

/// Runs each kind.
pub fn run_all<R: Threads + Wait + Sync + Print>(rt: &R, alloc: Global) -> io::Result<()> {
    share(rt, alloc)?;
    exchange(rt, alloc)?;
    relay(rt, alloc)?;
    relay_in_two(rt, alloc)?;
    take_turns(rt, alloc)?;
    listen(rt, alloc)?;
    vanish(rt, alloc)?;
    fail(rt, alloc)?;
    meet_strangers(rt, alloc)?;
    take_nothing(rt, alloc)?;
    stop(rt, alloc)
}

/// The exchange, by two threads over one exchange of the core.
fn share<R: Threads + Wait + Sync + Print>(rt: &R, alloc: Global) -> io::Result<()> {
    for (of, name) in [
        (RunRules::Plain, "no rules"),
        (RunRules::Closest, "closest:q"),
    ] {
        let rules = rules(alloc, of)?;
        share_by(rt, alloc, name, &rules)?;
    }
    Ok(())
}

/// The same by these rules.
///
/// It borrows the rules, and the function below the capture: owned together, their drops would be proved on each way out.
fn share_by<R: Threads + Wait + Sync + Print>(
    rt: &R,
    alloc: Global,
    name: &str,
    rules: &Rules,
) -> io::Result<()> {
    let Pair { first, second, .. } = exchanging(ONE_BY_ONE, ONE_BY_ONE);
    match share_core(rt, alloc, rules, first, second)? {
        Some(capture) => tell_shared(rt, alloc, name, &capture),
        None => println!(rt; "two threads, {name}: mismatch"),
    }
}

/// Prints what is said of the capture that two threads shared.
fn tell_shared(rt: &impl Print, alloc: Global, name: &str, capture: &Capture) -> io::Result<()> {
    let verdict = audited(alloc, capture)?;
    println!(rt; "two threads, {name}: {}", Told(verdict))
}

/// The exchange, by two workers; at first each gate is read wherever the other is, and then both at once.
fn exchange<R: Threads + Wait + Sync + Print>(rt: &R, alloc: Global) -> io::Result<()> {
    for (rules, meets, name) in [
        (RunRules::Plain, false, "two workers, no rules"),
        (RunRules::Closest, false, "two workers, closest:q"),
        (RunRules::Plain, true, "two workers, at once"),
    ] {
        let pace = Pace {
            meets,
            ..ONE_BY_ONE
        };
        let pair = Pair {
            rules,
            ..exchanging(pace, pace)
        };
        tell_pair(rt, alloc, name, 2, &pair)?;
    }
    Ok(())
}

/// A producer without address and a consumer, by two workers: where such senders are served, and where they are not.
fn relay<R: Threads + Wait + Sync + Print>(rt: &R, alloc: Global) -> io::Result<()> {
    let served = Pair {
        rules: RunRules::Anonymous,
        ..two_of(part(RELAY, ONE_BY_ONE), part(RELAYED, ONE_BY_ONE))
    };
    tell_pair(rt, alloc, "two workers, anonymous", 2, &served)?;
    let refused = two_of(part(RELAY, IN_HASTE), part(RELAYED, IN_HASTE));
    tell_pair(rt, alloc, "two workers, anonymous not served", 2, &refused)
}

/// The same, where they are served, by two workers, with the message parted behind any octet.
fn relay_in_two<R: Threads + Wait + Sync + Print>(rt: &R, alloc: Global) -> io::Result<()> {
    let mut relays = Relays::NONE;
    for front in 0..=MESSAGE.len() {
        let first = Part {
            parted: Some(front),
            ..part(RELAY_IN_TWO, ONE_BY_ONE)
        };
        let pair = Pair {
            rules: RunRules::Anonymous,
            ..two_of(first, part(RELAYED, ONE_BY_ONE))
        };
        relays.count(serve_two(rt, alloc, 2, &pair)?);
    }
    println!(rt; "two workers, anonymous, parted behind any octet: {relays}")
}

/// Two clients that wait for each other, by one worker.
fn take_turns<R: Threads + Wait + Sync + Print>(rt: &R, alloc: Global) -> io::Result<()> {
    let pace = Pace {
        patience: PATIENCE,
        ..ONE_BY_ONE
    };
    let pair = two_of(part(BEGINS_LATE, pace), part(OPENS_LATE, pace));
    tell_pair(rt, alloc, "one worker, in turns", 1, &pair)
}

/// Two clients that wait for signs of life, with clocks that move, and with clocks that stand still.
fn listen<R: Threads + Wait + Sync + Print>(rt: &R, alloc: Global) -> io::Result<()> {
    for (passes, name) in [(90, "signs of life"), (0, "clocks that stand still")] {
        let pace = Pace { passes, ..IN_HASTE };
        let pair = two_of(part(QUIET, pace), part(QUIET, pace));
        tell_pair(rt, alloc, name, 1, &pair)?;
    }
    Ok(())
}

/// The exchange, where one of both is gone behind any octet.
fn vanish<R: Threads + Wait + Sync + Print>(rt: &R, alloc: Global) -> io::Result<()> {
    let mut tally = ReportCounts::NONE;
    tally.count_all(rt, alloc, 2, &vanishing(alloc, IN_HASTE)?)?;
    println!(rt; "gone behind any octet: {tally}")
}

/// The exchange octet by octet, where each read that brings one, and then each write, of one of both fails in turn. By one
/// worker nothing depends on how patient the other is, and each of these calls comes.
fn fail<R: Threads + Wait + Sync + Print>(rt: &R, alloc: Global) -> io::Result<()> {
    let pace = Pace {
        patience: PATIENCE,
        ..ONE_BY_ONE
    };
    let pairs = failing(alloc, pace)?;
    for (workers, name) in [(1, "one worker"), (2, "two workers")] {
        let mut tally = ReportCounts::NONE;
        tally.count_all(rt, alloc, workers, &pairs)?;
        println!(rt; "{name}, each read and each write fails: {tally}")?;
        if workers == 1 {
            println!(rt; "devices that failed: {}", tally.failures())?;
        }
    }
    Ok(())
}

/// Clients that speak something else, beside one that keeps to its script.
fn meet_strangers<R: Threads + Wait + Sync + Print>(rt: &R, alloc: Global) -> io::Result<()> {
    let mut tally = ReportCounts::NONE;
    for script in STRANGERS {
        let pair = two_of(part(script, IN_HASTE), part(CONSUMER, IN_HASTE));
        tally.count_pair(rt, alloc, 2, &pair)?;
    }
    println!(rt; "strangers: {tally}")
}

/// Clients that take nothing, beside one that keeps to its script or another of them.
fn take_nothing<R: Threads + Wait + Sync + Print>(rt: &R, alloc: Global) -> io::Result<()> {
    let silent = Pace {
        takes: false,
        ..IN_HASTE
    };
    let mut tally = ReportCounts::NONE;
    for (first, second) in [(silent, IN_HASTE), (IN_HASTE, silent), (silent, silent)] {
        tally.count_pair(rt, alloc, 2, &exchanging(first, second))?;
    }
    println!(rt; "taking nothing: {tally}")
}

/// Cores that are full behind ten records, where no client comes to its end, and a device that fails.
fn stop<R: Threads + Wait + Sync + Print>(rt: &R, alloc: Global) -> io::Result<()> {
    let full = Pair {
        limit: 10,
        ..exchanging(ONE_BY_ONE, ONE_BY_ONE)
    };
    tell_pair(rt, alloc, "one worker, a full core", 1, &full)?;
    tell_pair(rt, alloc, "two workers, a full core", 2, &full)?;
    let broken = Pace {
        takes: false,
        breaks: true,
        ..IN_HASTE
    };
    tell_pair(
        rt,
        alloc,
        "a device that fails",
        1,
        &exchanging(broken, broken),
    )
}

/// Serves two clients by so many workers, and prints what came of it.
fn tell_pair<R: Threads + Wait + Sync + Print>(
    rt: &R,
    alloc: Global,
    name: &str,
    workers: usize,
    pair: &Pair,
) -> io::Result<()>
    requires some { 0 < workers }
    requires few { workers ≤ 64 }
{
    let served = serve_two(rt, alloc, workers, pair)?;
    println!(rt; "{name}: {served}")
}
