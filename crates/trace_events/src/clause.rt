//! The clauses that each record of a capture which the router has written must meet.

use std::fmt;

/// A clause of the law of a capture. What each says of a record is in `docs/LAW.md`.
#[derive(Clone, Copy, Debug, PartialEq, Eq)]
pub enum Clause {
    /// A frame is a performative within the frame limit, on an open connection, in the order of opens and closes.
    L1,
    /// A begin answers the client's.
    L2,
    /// An attach answers the client's: same name, opposite role, its address and settle modes; or refuses it.
    L3,
    /// A transfer stands on a consumer's live link, within its session's window.
    L4,
    /// A delivery begins within its link's credit, with the next delivery-id.
    L5,
    /// A later transfer goes on with the delivery that is in progress.
    L6,
    /// A transfer names an incoming delivery that is complete, not gone, and of its link's address.
    L7,
    /// It carries the first octets of that delivery's payload, and at its end all of them.
    L8,
    /// An anycast delivery goes to one consumer, a multicast one once to each, in order.
    L9,
    /// A flow tells what its session and link have come to.
    L10,
    /// An outcome is the consumer's, or that of the outcome table of `docs/LAW.md`, and is told once.
    L11,
    /// A settling follows the consumer's decision.
    L12,
    /// A detach or an end names a live link or session, or answers one.
    L13,
    /// Nothing else has a note.
    L14,
}

impl Clause {
    ghost use Rattle.std.specs.Prelude.{◌≡◌};
    ghost use Rattle.trace_events.specs.ClauseNames.{clause_name};

    /// The clause's name, as a verdict prints it.
    fn name(self) -> &'static str
        ensures { result.now ≡ clause_name self }
    {
        match self {
            Clause::L1 => "L1",
            Clause::L2 => "L2",
            Clause::L3 => "L3",
            Clause::L4 => "L4",
            Clause::L5 => "L5",
            Clause::L6 => "L6",
            Clause::L7 => "L7",
            Clause::L8 => "L8",
            Clause::L9 => "L9",
            Clause::L10 => "L10",
            Clause::L11 => "L11",
            Clause::L12 => "L12",
            Clause::L13 => "L13",
            Clause::L14 => "L14",
        }
    }
}

impl fmt::Display for Clause {
    ghost use Rattle.std.specs.Prelude.{Some};
    ghost use Rattle.trace_events.specs.ClauseNames.{clause_name};

    ghost output = { λ clause. Some (clause_name clause) };

    fn fmt<W: fmt::Write>(&self, f: &mut fmt::Formatter<W>) -> fmt::Result {
        f.write_str(self.name())
    }
}
