//! Two clients that are served to their ends.

ghost use Rattle.std.specs.Prelude.{◌≡◌, []};

use crate::owner::writer::Sheet;
use address_table::Rules;
use audit_core::{Verdict, audit_bytes};
use daemon_server::{Halt, Server, Work};
use kit_gates::{Client, Pair, Post, Told, clients_at, rules};
use std::alloc::{AllocError, Global};
use std::fmt;
use std::sync::Arc;

/// As many rounds as a run has at most.
const ROUNDS: u64 = 1_000_000;

/// How a server ended.
#[derive(Clone, Copy, PartialEq, Eq)]
pub enum Ending {
    /// Each connection has ended.
    Done,
    /// It stopped in between.
    Halted(Halt),
    /// Some were still open behind the last round.
    Endless,
}

/// What a server had when it ended: how many messages came whole, how many of them it still kept, and how many octets waited for
/// clients.
#[derive(Clone, Copy)]
pub struct KeptAtEnd {
    messages: u64,
    kept: usize,
    waiting: u64,
}

impl KeptAtEnd {
    const NOTHING: KeptAtEnd = KeptAtEnd {
        messages: 0,
        kept: 0,
        waiting: 0,
    };

    fn of(server: &Server<Work, Sheet, Client>) -> KeptAtEnd {
        KeptAtEnd {
            messages: server.messages(),
            kept: server.kept(),
            waiting: server.waiting(),
        }
    }
}

/// What came of a run: how the server ended, and what it had then; what the auditor says of what its writer took, and of how many octets
/// this is; how many octets each client took; and whether each was shut once, and not called behind that.
#[derive(Clone, Copy)]
pub struct Came {
    pub ending: Ending,
    pub left: KeptAtEnd,
    pub verdict: Verdict,
    pub octets: usize,
    took: (u64, u64),
    are_left_alone: bool,
}

impl Came {
    /// Whether it came to an end, or stopped in between for what its core or its writer refused.
    pub fn is_right(&self) -> bool {
        match self.ending {
            Ending::Done => self.are_left_alone,
            Ending::Halted(Halt::Core(_) | Halt::NotWritten(_)) => true,
            Ending::Halted(_) | Ending::Endless => false,
        }
    }
}

impl fmt::Display for Came {
    fn fmt<W: fmt::Write>(&self, f: &mut fmt::Formatter<W>) -> fmt::Result {
        let (first, second) = self.took;
        let KeptAtEnd {
            messages,
            kept,
            waiting,
        } = self.left;
        match self.ending {
            Ending::Done if self.are_left_alone => write!(
                f,
                "took {first} and {second}, kept {kept} of {messages}, {waiting} wait, "
            )?,
            Ending::Done => f.write_str("not left alone, ")?,
            Ending::Halted(Halt::Core(_)) => f.write_str("core failed, ")?,
            Ending::Halted(Halt::NotWritten(_)) => f.write_str("not written, ")?,
            Ending::Halted(_) => f.write_str("halted, ")?,
            Ending::Endless => f.write_str("endless, ")?,
        }
        write!(f, "{}", Told(self.verdict))
    }
}

/// Serves two clients to their ends, by a server whose writer takes so many octets.
///
/// # Errors
///
/// Where memory is refused outside the server.
pub fn serve_two(alloc: Global, pair: &Pair, room: usize) -> Result<Came, AllocError> {
    let rules = rules(alloc, pair.rules)?;
    let one = Arc::new(alloc, Post::new())?;
    let two = Arc::new(alloc, Post::new())?;
    serve_at(alloc, pair, room, &rules, &one, &two)
}

/// The same by these rules, where these posts are the clients'.
///
/// It borrows them: owned here, their drops would be proved on each way out.
fn serve_at(
    alloc: Global,
    pair: &Pair,
    room: usize,
    rules: &Rules,
    one: &Arc<Post, Global>,
    two: &Arc<Post, Global>,
) -> Result<Came, AllocError> {
    let (first, second) = clients_at(alloc, pair.first, pair.second, one, two)?;
    let writer = Sheet::new(alloc, room);
    let (ending, left, octets) = match Server::new(alloc, rules, pair.limit, writer) {
        Ok(server) => serve(server, first, second),
        Err(halt) => (Ending::Halted(halt), KeptAtEnd::NOTHING, Vec::new(alloc)),
    };
    Ok(Came {
        ending,
        left,
        verdict: audit_bytes(alloc, octets.as_slice()),
        octets: octets.len(),
        took: (one.taken(), two.taken()),
        are_left_alone: one.is_left_alone() && two.is_left_alone(),
    })
}

/// Serves two clients, and gives what the server had in the end, and what the writer took.
fn serve(
    mut server: Server<Work, Sheet, Client>,
    first: Client,
    second: Client,
) -> (Ending, KeptAtEnd, Vec<u8>)
    requires first { (first.at ≡ 0) × (first.taken.items ≡ []) }
    requires second { (second.at ≡ 0) × (second.taken.items ≡ []) }
{
    let ending = match serve_both(&mut server, first, second) {
        Ok(ending) => ending,
        Err(halt) => Ending::Halted(halt),
    };
    let left = KeptAtEnd::of(&server);
    let Sheet { octets, .. } = server.into_writer();
    (ending, left, octets)
}

/// Serves two clients, round by round.
fn serve_both(
    server: &mut Server<Work, Sheet, Client>,
    first: Client,
    second: Client,
) -> Result<Ending, Halt>
    requires first { (first.at ≡ 0) × (first.taken.items ≡ []) }
    requires second { (second.at ≡ 0) × (second.taken.items ≡ []) }
{
    server.admit(first)?;
    server.admit(second)?;
    let mut buffer = [0u8; 256];
    for _ in 0..ROUNDS {
        if server.open() == 0 {
            return Ok(Ending::Done);
        }
        server.sign_all()?;
        server.round(&mut buffer)?;
    }
    Ok(Ending::Endless)
}
