//! What the programs do alike at their ends, and the words of the router.

use crate::case::Case;
use crate::fakes::Left;
use address_table::RulesFault;
use audit_core::{Clause, FormKind, Tally, Verdict};
use clap::Command;
use program_ends::{tell_line, tell_refused_words, tell_unread_words};
use router_words::{RunEnd, Service, Words, WordsFault};
use std::alloc::{AllocError, Global};
use std::io;
use std::io::{ErrorKind, Write};

/// The number of the system's own want of memory.
const NO_MEMORY: i32 = 12;

/// A verdict of each kind.
const VERDICTS: [Verdict; 5] = [
    Verdict::Accepted(Tally {
        records: 20,
        deliveries: 1,
        outcomes: 0,
    }),
    Verdict::Refused(19, Clause::L4),
    Verdict::Malformed(28, FormKind::Truncated),
    Verdict::NoMemory(0),
    Verdict::Unreadable(0),
];

/// An outcome of each kind.
const OUTCOMES: [RunEnd; 10] = [
    RunEnd::Served {
        connections: 2,
        records: 26,
    },
    RunEnd::DeviceFault,
    RunEnd::NotWritten,
    RunEnd::NoMemory,
    RunEnd::Mismatch,
    RunEnd::CoreFailed { records: 10 },
    RunEnd::Refused(WordsFault::BadAddress),
    RunEnd::Refused(WordsFault::BadRule),
    RunEnd::Refused(WordsFault::RuleRefused(RulesFault::TooLong)),
    RunEnd::Refused(WordsFault::NoMemory),
];

/// Does what the case asks for.
pub fn run(alloc: Global, case: &Case<'_>, left: &mut Left) -> io::Result<()> {
    match case.kind {
        "line" => tell(case, left),
        "unread" => {
            left.status = tell_unread_words(unread(case.word(0)), &mut left.out, &mut left.err);
        }
        "refused" => refuse(alloc, case.words_from(0), left),
        "words" => read(alloc, case.words_from(0), left)?,
        "service" => look_into(alloc, case, left)?,
        "verdicts" => tell_verdicts(left)?,
        "outcomes" => tell_outcomes(left)?,
        _ => writeln!(left.out, "there is no such case")?,
    }
    Ok(())
}

/// Tells a line, which is a number where its word is one.
fn tell(case: &Case<'_>, left: &mut Left) {
    let status = case.word(0).parse::<u8>().unwrap_or(0);
    let line = case.word(1);
    left.status = match line.parse::<u32>() {
        Ok(number) => tell_line(&number, status, &mut left.out),
        Err(_) => tell_line(&line, status, &mut left.out),
    };
}

/// Why the system did not give the words, by the word for it.
fn unread(word: &str) -> io::Error {
    match word {
        "memory" => io::Error::from(AllocError),
        "system" => {
            let error = io::Error::from_raw_os_error(NO_MEMORY);
            // Were it of another kind, it would be no case of this.
            if error.kind() == ErrorKind::OutOfMemory {
                error
            } else {
                io::Error::from(AllocError)
            }
        }
        _ => io::Error::from(ErrorKind::InvalidData),
    }
}

/// Tells what the parser answers to words, of a command that takes none.
fn refuse(alloc: Global, words: &[&str], left: &mut Left) {
    let command = Command::new(alloc, "quiet").no_binary_name(true);
    if let Err(error) = command.try_get_matches_from(words) {
        left.status = tell_refused_words(&error, &mut left.out, &mut left.err);
    }
}

/// Writes what the parser makes of words of the router, or the kind of their mistake.
fn read(alloc: Global, words: &[&str], left: &mut Left) -> io::Result<()> {
    match Words::read(alloc, words) {
        Ok(words) => tell_words(&words, left),
        Err(error) => writeln!(left.out, "{:?}", error.kind()),
    }
}

/// Writes words of the router.
///
/// It borrows the words: owned here, their drop would be proved on each way out.
fn tell_words(words: &Words<'_>, left: &mut Left) -> io::Result<()> {
    let (workers, connections) = (words.workers, words.connections);
    writeln!(left.out, "listen {}", words.listen)?;
    writeln!(left.out, "capture {}", words.capture)?;
    writeln!(left.out, "{workers} workers, {connections} connections")?;
    writeln!(left.out, "rules {:?}", words.rules.as_slice())
}

/// Writes what the words ask the router to serve, and how it distributes the addresses behind them; or the line that tells
/// why they do not.
fn look_into(alloc: Global, case: &Case<'_>, left: &mut Left) -> io::Result<()> {
    match Words::read(alloc, case.words_from(0)) {
        Ok(words) => look_into_words(alloc, case, &words, left),
        Err(_) => writeln!(left.out, "a mistake"),
    }
}

/// The same of these words, which stand in the case.
fn look_into_words(
    alloc: Global,
    case: &Case<'_>,
    words: &Words<'_>,
    left: &mut Left,
) -> io::Result<()> {
    match Service::from_words(alloc, words) {
        Ok(service) => tell_service(&service, case.input.as_slice(), left),
        Err(fault) => writeln!(left.out, "{}", RunEnd::Refused(fault)),
    }
}

fn tell_service(service: &Service<'_>, addresses: &[&str], left: &mut Left) -> io::Result<()> {
    let (workers, connections) = (service.workers, service.connections);
    writeln!(left.out, "served at {}", service.address)?;
    writeln!(left.out, "capture {}", service.capture)?;
    writeln!(left.out, "{workers} workers, {connections} connections")?;
    if service.rules.serves_anonymous() {
        writeln!(left.out, "anonymous senders are served")?;
    }
    for address in addresses {
        let distribution = service.rules.distribution(address);
        writeln!(left.out, "{address} is {distribution:?}")?;
    }
    Ok(())
}

fn tell_verdicts(left: &mut Left) -> io::Result<()> {
    for verdict in VERDICTS.iter() {
        let status = audit_program::tell(verdict, &mut left.out);
        writeln!(left.out, "by status {status}")?;
    }
    Ok(())
}

fn tell_outcomes(left: &mut Left) -> io::Result<()> {
    for outcome in OUTCOMES.iter() {
        let status = router_words::tell(outcome, &mut left.out);
        writeln!(left.out, "by status {status}")?;
    }
    Ok(())
}
