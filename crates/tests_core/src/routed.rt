//! Measures how many messages the router's core takes and gives in a second, by its steps alone.
//!
//! A row sets up what its shape names, so many times, and then routes so many messages of 100 octets from a producer to a
//! consumer: a transfer in and one out, a disposition in and the outcome out. The program prints how many messages and records
//! there are, and how many nanoseconds a message took where that is asked for, the setting up left out. `README.md` has the
//! shapes, and figures.
//!
//! - `shape`: what stands beside the messages that are measured

mod shape;

use crate::WORDS_FAULT;
use crate::cores::core_of_rule;
use capture_form::Distribution;
use route_core::Core;
use shape::Shape;
use std::io;
use std::time::{Duration, Instant};

/// As many records as a core may have here.
const LIMIT: u64 = 1_000_000_000;

/// What is measured: what stands beside the messages, how often, and how many messages there are.
#[derive(Clone, Copy)]
struct Row<'a> {
    name: &'a str,
    size: u32,
    count: u32,
}

/// A small row of each shape.
const ROWS: [Row<'static>; 7] = [
    Row {
        name: "links",
        size: 2,
        count: 3,
    },
    Row {
        name: "unsettled",
        size: 2,
        count: 3,
    },
    Row {
        name: "ranges",
        size: 2,
        count: 10,
    },
    Row {
        name: "waiting",
        size: 2,
        count: 3,
    },
    Row {
        name: "copies",
        size: 2,
        count: 3,
    },
    Row {
        name: "deciding",
        size: 2,
        count: 3,
    },
    Row {
        name: "ending",
        size: 2,
        count: 2,
    },
];

/// Measures a small row of each shape, whose times are not told.
pub(crate) fn route_each(rt: &HostRuntime) -> io::Result<u8> {
    let mut status = 0;
    for row in ROWS {
        status = measured(rt, row, false)?.max(status);
    }
    Ok(status)
}

/// Measures the rows that words ask for, three words each.
pub(crate) fn route_all(rt: &HostRuntime, words: &[String], is_timed: bool) -> io::Result<u8> {
    let mut status = if words.is_empty() { WORDS_FAULT } else { 0 };
    for row in words.chunks(3) {
        status = match row_of(row) {
            Some(row) => measured(rt, row, is_timed)?.max(status),
            None => WORDS_FAULT,
        };
    }
    Ok(status)
}

/// The row that words ask for.
fn row_of(words: &[String]) -> Option<Row<'_>> {
    let [name, size, count] = words else {
        return None;
    };
    Some(Row {
        name: name.as_str(),
        size: size.as_str().parse::<u32>().ok()?,
        count: count.as_str().parse::<u32>().ok()?,
    })
}

/// Measures a row, prints what came of it, and gives the status.
fn measured(rt: &HostRuntime, row: Row<'_>, is_timed: bool) -> io::Result<u8> {
    let Some(shape) = Shape::of(row.name) else {
        return Ok(WORDS_FAULT);
    };
    let mut core = core_of_rule(rt.alloc(), Distribution::Multicast, "news", LIMIT)?;
    tell_routed(rt, &mut core, shape, row, is_timed)
}

/// Measures a row by a core, prints what came of it, and gives the status.
///
/// It borrows the core: owned here, its drop would be proved on each way out.
fn tell_routed(
    rt: &HostRuntime,
    core: &mut Core,
    shape: Shape,
    row: Row<'_>,
    is_timed: bool,
) -> io::Result<u8> {
    let taken = routed(rt, core, shape, row)?;
    let records = core.capture().records().len();
    let Row { name, size, count } = row;
    print!(rt; "{name} {size}: ")?;
    if is_timed {
        let each = nanoseconds(taken)
            .checked_div(u64::from(count))
            .unwrap_or(0);
        print!(rt; "nanoseconds={each} ")?;
    }
    println!(rt; "messages={count} records={records}")?;
    Ok(0)
}

/// Sets up and routes: how long the routing took.
fn routed(rt: &HostRuntime, core: &mut Core, shape: Shape, row: Row<'_>) -> io::Result<Duration> {
    shape.set_up(rt.alloc(), core, row.size)?;
    let start = Instant::now(rt)?;
    shape.route(rt.alloc(), core, row.size, row.count)?;
    start.elapsed(rt)
}

/// A time in nanoseconds.
fn nanoseconds(time: Duration) -> u64 {
    time.as_secs()
        .wrapping_mul(1_000_000_000)
        .wrapping_add(u64::from(time.subsec_nanos()))
}
