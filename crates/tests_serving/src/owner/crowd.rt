//! Many clients that come at once: more than one round hears.

use crate::owner::ROOM;
use crate::owner::writer::Sheet;
use audit_core::{Verdict, audit_bytes};
use daemon_server::{Halt, Server, Work};
use kit_gates::{
    AMQP_HEADER, Client, IN_HASTE, PRODUCER, Pace, Part, RunRules, Told, part, rules, two_clients,
};
use std::alloc::{AllocError, Global};
use std::fmt;

/// So many pairs of clients come at once. Each client makes two records: it is opened, and lost.
const PAIRS: usize = 750;

/// More records than they make.
const LIMIT: u64 = 1_000_000;

/// As many rounds as they have at most.
const ROUNDS: u64 = 1_000;

/// In how many rounds all of them ended, and how many records came in one at most.
#[derive(Clone, Copy)]
struct Rounds {
    count: u64,
    most: u64,
}

/// What came of them: the rounds, if they came to an end, and what the auditor says of what the writer took.
#[derive(Clone, Copy)]
pub struct CrowdCame {
    rounds: Option<Rounds>,
    verdict: Verdict,
}

impl fmt::Display for CrowdCame {
    fn fmt<W: fmt::Write>(&self, f: &mut fmt::Formatter<W>) -> fmt::Result {
        match self.rounds {
            Some(Rounds { count, most }) => write!(
                f,
                "{count} rounds of {most} records at most, "
            )?,
            None => f.write_str("halted or endless, ")?,
        }
        write!(f, "{}", Told(self.verdict))
    }
}

/// Serves them to their ends, by rounds alone: nothing signs a connection but what the server itself does.
///
/// # Errors
///
/// Where memory is refused outside the server.
pub fn serve_crowd(alloc: Global) -> Result<CrowdCame, AllocError> {
    let rules = rules(alloc, RunRules::Plain)?;
    let writer = Sheet::new(alloc, ROOM);
    let (rounds, octets) = match Server::new(alloc, &rules, LIMIT, writer) {
        Ok(server) => serve(alloc, server),
        Err(_halt) => (None, Vec::new(alloc)),
    };
    Ok(CrowdCame {
        rounds,
        verdict: audit_bytes(alloc, octets.as_slice()),
    })
}

/// Serves them, and gives what the writer took.
fn serve(alloc: Global, mut server: Server<Work, Sheet, Client>) -> (Option<Rounds>, Vec<u8>) {
    let rounds = match serve_all(alloc, &mut server) {
        Ok(rounds) => rounds,
        Err(_halt) => None,
    };
    let Sheet { octets, .. } = server.into_writer();
    (rounds, octets)
}

/// All of them come, and are served round by round.
fn serve_all(
    alloc: Global,
    server: &mut Server<Work, Sheet, Client>,
) -> Result<Option<Rounds>, Halt> {
    for _ in 0..PAIRS {
        admit_two(alloc, server)?;
    }
    let mut buffer = [0u8; 256];
    let mut most = 0;
    for count in 0..ROUNDS {
        if server.open() == 0 {
            return Ok(Some(Rounds { count, most }));
        }
        let before = server.count();
        server.round(&mut buffer)?;
        most = most.max(server.count().saturating_sub(before));
    }
    Ok(None)
}

/// Two clients come that say a header, and are gone.
fn admit_two(alloc: Global, server: &mut Server<Work, Sheet, Client>) -> Result<(), Halt> {
    let pace = Pace {
        most: AMQP_HEADER.len(),
        vanishes: AMQP_HEADER.len(),
        ..IN_HASTE
    };
    let gone: Part = part(PRODUCER, pace);
    let Ok((first, second)) = two_clients(alloc, gone, gone) else {
        return Err(Halt::Memory);
    };
    server.admit(first)?;
    server.admit(second)?;
    Ok(())
}
