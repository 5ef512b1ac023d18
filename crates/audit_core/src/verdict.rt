//! What an auditor says of a capture, and the line and the exit status that tell it.

use capture_form::FormKind;
use std::fmt;
use trace_events::{Clause, Tally};

/// Why a capture is not accepted.
#[derive(Clone, Copy, Debug, PartialEq, Eq)]
pub enum Refusal {
    /// The record of this number is the first that does not meet the clauses, and this is the first that it does not
    /// meet.
    Broken(u64, Clause),
    /// The system had no memory left for a record, of which this says nothing, or for the rules.
    Memory,
}

/// What octets are, as the text of a capture. Of any octets exactly one of the first three holds.
#[derive(Clone, Copy, Debug, PartialEq, Eq)]
pub enum Verdict {
    /// They are the text of a capture, and each record meets the clauses.
    Accepted(Tally),
    /// They begin with the text of a capture whose last record, of this number, is the first that does not meet
    /// the clauses. This is the first one that it does not meet.
    Refused(u64, Clause),
    /// They are no text of a capture, by a fault at this offset; each whole record in front of it meets the clauses.
    Malformed(u64, FormKind),
    /// The system had no memory left for the rule or record that starts at this offset, or, at 0, for the room into which a
    /// reader's octets are read. It is no verdict on the octets.
    NoMemory(u64),
    /// The octets could not be read from this offset on. Octets that lie in memory are never judged so.
    Unreadable(u64),
}

impl Verdict {
    ghost use Rattle.std.specs.Prelude.{◌≡◌};
    ghost use Rattle.audit_core.specs.Report.{status_of};

    /// The exit status that tells the verdict.
    pub fn status(&self) -> u8
        ensures { result ≡ status_of self.now }
    {
        match self {
            Verdict::Accepted(_) => 0,
            Verdict::Refused(..) => 1,
            Verdict::Malformed(..) => 2,
            Verdict::NoMemory(_) => 3,
            Verdict::Unreadable(_) => 4,
        }
    }
}

/// The one line that tells the verdict, without its newline.
impl fmt::Display for Verdict {
    ghost use Rattle.std.specs.Prelude.{Some};
    ghost use Rattle.audit_core.specs.Report.{line_of};

    ghost output = { λ verdict. Some (line_of verdict) };

    fn fmt<W: fmt::Write>(&self, f: &mut fmt::Formatter<W>) -> fmt::Result {
        match self {
            Verdict::Accepted(tally) => {
                let Tally {
                    records,
                    deliveries,
                    outcomes,
                } = tally;
                write!(
                    f,
                    "accepted records={records} deliveries={deliveries} outcomes={outcomes}"
                )
            }
            Verdict::Refused(record, clause) => {
                write!(f, "refused record={record} clause={clause}")
            }
            Verdict::Malformed(offset, _) => write!(f, "malformed offset={offset}"),
            Verdict::NoMemory(_) => write!(f, "no memory"),
            Verdict::Unreadable(offset) => write!(f, "unreadable offset={offset}"),
        }
    }
}
