//! A run over any words, input and writers.

ghost use Rattle.std.specs.Prelude.{◌≡◌, ◌⊎◌, ◌<◌, ◌≤◌};
ghost use Rattle.router_words.specs.RunEnd.{IsStatus, TellsSome};

use crate::capture_file::CaptureFile;
use crate::ending::{outcome_of, outcome_of_halt, outcome_refused};
use crate::serve_loop::serve_all;
use crate::words::Words;
use crate::{Fault, Limits, SocketServer};
use address_table::Rules;
use daemon_server::{Server, Work};
use mio::net::TcpListener;
use program_ends::tell_refused_words;
use router_words::{RunEnd, Service, Words as Asked, tell};
use std::alloc::Global;
use std::convert::AsStr;
use std::fs::{File, OpenFile};
use std::io;
use std::io::{Read, Write};
use std::net::{Net, SocketAddr};
use std::os::fd::RawFd;
use std::rt::Files;
use std::sync::Wait;
use std::time::Clock;

/// The core takes items while the capture has fewer records: more than any disk has.
const LIMIT: u64 = 1 << 62;

/// Does what `words`, those behind the program's name, ask for. Writes the line that tells how it ended to `out`, and answers the
/// exit status. The router ends where `input`, which is heard at the descriptor `heard`, if one is given, ends or has the line
/// `quit`.
///
/// A mistake in the words is told on `err`; the help goes to `out`, with status 0.
pub fn run_words<R: Files + Wait + Net + Clock, S: AsStr, I: Read, O: Write, E: Write>(
    rt: &R,
    alloc: Global,
    words: &[S],
    heard: Option<RawFd>,
    input: &mut I,
    out: &mut O,
    err: &mut E,
) -> u8
    // Statuses 1 to 5 come only with the line of an outcome, which has that status.
    ensures told { 0 < result → result ≤ 5 → TellsSome (O.contents out.old) (O.contents out.new) result }
    // There is no other status.
    ensures status { IsStatus result }
{
    match Words::read(alloc, words) {
        Ok(words) => {
            let outcome = outcome_asked(rt, alloc, &words, heard, input, err);
            tell(&outcome, out)
        }
        Err(error) => tell_refused_words(&error, out, err),
    }
}

/// Looks into the words as the router that serves a number of connections does, and serves what they ask for.
fn outcome_asked<R: Files + Wait + Net + Clock, I: Read, E: Write>(
    rt: &R,
    alloc: Global,
    words: &Words<'_>,
    heard: Option<RawFd>,
    input: &mut I,
    err: &mut E,
) -> RunEnd {
    let Ok(rules) = Vec::from_slice(alloc, &words.rules) else {
        return RunEnd::NoMemory;
    };
    let asked = Asked {
        listen: words.listen,
        capture: words.capture,
        workers: 1,
        connections: 0,
        rules,
    };
    match Service::from_words(alloc, &asked) {
        Ok(service) => served(rt, alloc, words, &service, heard, input, err),
        Err(fault) => RunEnd::Refused(fault),
    }
}

/// Listens, makes the file of the capture, and serves.
fn served<R: Files + Wait + Net + Clock, I: Read, E: Write>(
    rt: &R,
    alloc: Global,
    words: &Words<'_>,
    service: &Service<'_>,
    heard: Option<RawFd>,
    input: &mut I,
    err: &mut E,
) -> RunEnd {
    let address = SocketAddr::V4(service.address);
    let listener = match TcpListener::bind(rt, address) {
        Ok(listener) => listener,
        Err(error) => {
            return refused(err, "listen", words.listen, &error, RunEnd::DeviceFault);
        }
    };
    let file = match File::create_new(rt, service.capture) {
        Ok(file) => CaptureFile::new(file, words.sync),
        Err(error) => {
            return refused(err, "capture", words.capture, &error, RunEnd::NotWritten);
        }
    };
    match begun(rt, alloc, words, &service.rules, listener, file) {
        Ok(server) => served_by(rt, server, words, heard, input, err),
        Err(fault) => {
            tell_fault(err, words, &fault, None);
            outcome_of(&fault, 0)
        }
    }
}

/// A router of these rules at this listener, whose capture goes to this writer; what stands in front of the records is written.
fn begun<R: Net, W: Write + Drop>(
    rt: &R,
    alloc: Global,
    words: &Words<'_>,
    rules: &Rules,
    listener: TcpListener,
    writer: W,
) -> Result<SocketServer<Work, W>, Fault> {
    let limits = Limits {
        most: words.most as usize,
        until: words.until,
        buffer: words.buffer,
    };
    let server = Server::new(alloc, rules, LIMIT, writer)?;
    Ok(SocketServer::new(rt, alloc, listener, server, limits)?)
}

/// Serves until it is told to end.
fn served_by<R: Wait + Clock, F: Write + OpenFile + Drop, I: Read, E: Write>(
    rt: &R,
    mut server: SocketServer<Work, CaptureFile<F>>,
    words: &Words<'_>,
    heard: Option<RawFd>,
    input: &mut I,
    err: &mut E,
) -> RunEnd {
    tell_address(err, &server);
    let ended = serve_all(rt, &mut server, heard, words.stats, input, err);
    let counts = server.counts();
    let file = server.into_writer();
    match ended {
        Ok(()) => RunEnd::Served {
            connections: counts.connections,
            records: counts.records,
        },
        Err(fault) => {
            tell_fault(err, words, &fault, file.said());
            outcome_of(&fault, counts.records)
        }
    }
}

/// Tells where the router listens.
fn tell_address<W: Write + Drop, E: Write>(err: &mut E, server: &SocketServer<Work, W>) {
    if let Ok(address) = server.address() {
        // Nobody may be there to read it.
        let _ = writeln!(err, "listening on {address}");
    }
}

/// Tells what the system said of what it was asked for, and answers how the run ended.
fn refused<E: Write>(
    err: &mut E,
    what: &str,
    name: &str,
    error: &io::Error,
    outcome: RunEnd,
) -> RunEnd {
    let _ = writeln!(err, "{what} {name}: {error}");
    outcome_refused(error, outcome)
}

/// Tells what the system said where that is why a router stopped: of a poll, or of the file of its capture.
fn tell_fault<E: Write>(err: &mut E, words: &Words<'_>, fault: &Fault, said: Option<io::Error>) {
    if let Fault::Device(error) = fault {
        let _ = writeln!(err, "poll: {error}");
    }
    if let Some(error) = said {
        let capture = words.capture;
        let _ = writeln!(err, "capture {capture}: {error}");
    }
}
