//! Which two clients a run serves, and by which core.

use crate::captures::RunRules;
use crate::clients::Part;
use crate::gate::{LOOKS, Pace};
use crate::script::{CONSUMER, ClientScript, PRODUCER, stream_of};
use std::alloc::{AllocError, Global};

/// More records than any run of two clients has.
const LIMIT: u64 = 1000;

/// A client that takes one octet at a time, and waits for what is to come.
pub const ONE_BY_ONE: Pace = Pace {
    most: 1,
    vanishes: usize::MAX,
    takes: true,
    meets: false,
    patience: LOOKS,
    breaks: false,
    passes: 0,
    read_fails: usize::MAX,
    write_fails: usize::MAX,
};

/// One that waits a little.
pub const IN_HASTE: Pace = Pace {
    most: 7,
    patience: 200,
    ..ONE_BY_ONE
};

/// Two clients, and the core that they share: which rules it has, and that it takes items while it has fewer than `limit` records.
#[derive(Clone, Copy)]
pub struct Pair {
    pub first: Part,
    pub second: Part,
    pub rules: RunRules,
    pub limit: u64,
}

/// A client of a script, at this pace.
pub fn part(script: ClientScript, pace: Pace) -> Part {
    Part {
        script,
        pace,
        parted: None,
    }
}

/// These two clients over a core without rules, which does not fill.
pub fn two_of(first: Part, second: Part) -> Pair {
    Pair {
        first,
        second,
        rules: RunRules::Plain,
        limit: LIMIT,
    }
}

/// A producer and a consumer, at these paces.
pub fn exchanging(first: Pace, second: Pace) -> Pair {
    two_of(part(PRODUCER, first), part(CONSUMER, second))
}

/// The same, where the first or the second has this pace, and the other that one.
fn one_of_both(is_first: bool, pace: Pace, other: Pace) -> Pair {
    if is_first {
        exchanging(pace, other)
    } else {
        exchanging(other, pace)
    }
}

/// The script of the first or the second.
fn script_of(is_first: bool) -> ClientScript {
    if is_first { PRODUCER } else { CONSUMER }
}

/// The exchange at this pace, where one of both is gone behind any octet that it says.
///
/// # Errors
///
/// Where memory is refused.
pub fn vanishing(alloc: Global, pace: Pace) -> Result<Vec<Pair>, AllocError> {
    let mut pairs = Vec::new(alloc);
    for is_first in [true, false] {
        for vanishes in 0..stream_of(alloc, script_of(is_first))?.len() {
            let gone = Pace { vanishes, ..pace };
            pairs.push(one_of_both(is_first, gone, pace))?;
        }
    }
    Ok(pairs)
}

/// The exchange at this pace, where each read that brings an octet, and then each write of one, of one of both fails in turn.
///
/// # Errors
///
/// Where memory is refused.
pub fn failing(alloc: Global, pace: Pace) -> Result<Vec<Pair>, AllocError> {
    let mut pairs = Vec::new(alloc);
    for is_first in [true, false] {
        let script = script_of(is_first);
        for read_fails in 0..stream_of(alloc, script)?.len() {
            let fails = Pace { read_fails, ..pace };
            pairs.push(one_of_both(is_first, fails, pace))?;
        }
        for write_fails in 0..script.wanted {
            let fails = Pace {
                write_fails,
                ..pace
            };
            pairs.push(one_of_both(is_first, fails, pace))?;
        }
    }
    Ok(pairs)
}
