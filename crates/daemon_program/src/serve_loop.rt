//! The loop of a router that stays up.

ghost use Rattle.std.specs.Prelude.{◌<◌, length};

use crate::order::Order;
use crate::{Fault, ServerCounts, SocketServer};
use daemon_server::Work;
use std::io::{Read, Write};
use std::os::fd::RawFd;
use std::sync::Wait;
use std::time::Clock;

/// The most octets of one read: those of four of the largest frames, or of some hundreds of small messages.
const BUFFER: usize = 65536;

/// What had been served at a moment.
#[derive(Clone, Copy, Debug)]
struct Mark {
    // In milliseconds.
    moment: u64,
    messages: u64,
    octets: u64,
}

/// How many messages and octets came and went in a second.
#[derive(Clone, Copy, Debug)]
struct Rates {
    messages: u64,
    octets: u64,
}

impl Mark {
    /// What was served until this moment.
    fn new(moment: u64, counts: &ServerCounts) -> Mark {
        Mark {
            moment,
            messages: counts.messages,
            octets: counts.octets,
        }
    }

    /// How many a second there were from this one to a later one.
    fn rates_to(&self, later: &Mark) -> Rates {
        let millis = later.moment.saturating_sub(self.moment).max(1);
        Rates {
            messages: in_a_second(later.messages.saturating_sub(self.messages), millis),
            octets: in_a_second(later.octets.wrapping_sub(self.octets), millis),
        }
    }
}

/// So many in these milliseconds, of which there are some, are so many in a second.
fn in_a_second(count: u64, millis: u64) -> u64 {
    if millis == 0 {
        return 0;
    }
    count.saturating_mul(1000) / millis
}

/// When lines of what was served are due.
#[derive(Clone, Copy, Debug)]
struct Report {
    // How many milliseconds lie between two of them, if any is due.
    every: Option<u64>,
    // What had been served when the last one was due; first, when it began.
    last: Option<Mark>,
}

impl Report {
    /// So many seconds lie between two lines, if any is due.
    fn new(seconds: Option<u32>) -> Report {
        Report {
            every: seconds.map(|seconds| u64::from(seconds) * 1000),
            last: None,
        }
    }

    /// How many came and went in a second since the last line, where one is due at this moment.
    fn due(&mut self, now: &Mark) -> Option<Rates> {
        let every = self.every?;
        let last = self.last.unwrap_or(*now);
        self.last = Some(last);
        if now.moment.saturating_sub(last.moment) < every {
            return None;
        }
        self.last = Some(*now);
        Some(last.rates_to(now))
    }
}

/// Serves until standard input says that it is to end, where it is heard at this descriptor, or until all connections that are to be
/// served have ended; then ends all that are left. Writes lines of what was served to `err`, so many seconds apart, if they are asked
/// for.
///
/// # Errors
///
/// As `Fault` says. Then nothing more is served.
pub(crate) fn serve_all<R: Wait + Clock, W: Write + Drop, I: Read, E: Write>(
    rt: &R,
    server: &mut SocketServer<Work, W>,
    heard: Option<RawFd>,
    stats: Option<u32>,
    input: &mut I,
    err: &mut E,
) -> Result<(), Fault> {
    let mut buffer = [0u8; BUFFER];
    serve_on(rt, server, heard, stats, input, err, &mut buffer)?;
    server.end(rt, &mut buffer)
}

/// Serves until it is to end.
fn serve_on<R: Wait + Clock, W: Write + Drop, I: Read, E: Write>(
    rt: &R,
    server: &mut SocketServer<Work, W>,
    heard: Option<RawFd>,
    stats: Option<u32>,
    input: &mut I,
    err: &mut E,
    buffer: &mut [u8],
) -> Result<(), Fault>
    requires room { 0 < length buffer.old }
{
    let heard = watched(server, heard);
    let mut order = Order::Begun;
    let mut report = Report::new(stats);
    for _ in rt.forever() {
        if server.is_done() {
            return Ok(());
        }
        let seen = server.turn(rt, buffer)?;
        if seen.watched && hears_end(server, heard, &mut order, input) {
            return Ok(());
        }
        let counts = server.counts();
        if let Some(rates) = report.due(&Mark::new(server.now(), &counts)) {
            tell_counts(&counts, rates, err);
        }
    }
    unreachable!()
}

/// This descriptor, if one is given and the poll takes it.
fn watched<W: Write + Drop>(
    server: &mut SocketServer<Work, W>,
    heard: Option<RawFd>,
) -> Option<RawFd> {
    match heard {
        Some(descriptor) if server.watch(descriptor) => Some(descriptor),
        _ => None,
    }
}

/// Reads of standard input once, and says whether the router is to end.
fn hears_end<W: Write + Drop, I: Read>(
    server: &mut SocketServer<Work, W>,
    heard: Option<RawFd>,
    order: &mut Order,
    input: &mut I,
) -> bool {
    let Some(descriptor) = heard else {
        return false;
    };
    let is_end = order.hear(input);
    server.watch_again(descriptor);
    is_end
}

/// Writes a line of what was served.
fn tell_counts<E: Write>(counts: &ServerCounts, rates: Rates, err: &mut E) {
    let ServerCounts {
        connections,
        live,
        records,
        messages,
        kept,
        octets: _,
        waiting,
    } = *counts;
    let Rates {
        messages: each_second,
        octets,
    } = rates;
    // Nobody may be there any more to read it, which is no reason to end.
    let _ = writeln!(
        err,
        "connections={connections} open={live} records={records} messages={messages} kept={kept} waiting={waiting} messages/s={each_second} octets/s={octets}"
    );
}
