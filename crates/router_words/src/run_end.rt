//! How a run ended, and the line and the exit status that tell it.

use crate::fault::WordsFault;
use std::fmt;

/// How a run of the router ended.
#[derive(Clone, Copy, Debug, PartialEq, Eq)]
pub enum RunEnd {
    /// All connections were served, and the capture was written.
    Served { connections: u64, records: u64 },
    /// A poll or a listener failed, or the address could not be listened at.
    DeviceFault,
    /// The capture could not be written.
    NotWritten,
    /// A growth was refused.
    NoMemory,
    /// The capture is not that of the connections.
    Mismatch,
    /// The core refused a step. The capture up to there was written.
    CoreFailed { records: u64 },
    /// The words that the parser took are not right.
    Refused(WordsFault),
}

impl RunEnd {
    ghost use Rattle.std.specs.Prelude.{◌≡◌};
    ghost use Rattle.router_words.specs.RunEnd.{status_of};

    /// The exit status that tells the outcome.
    pub fn status(&self) -> u8
        ensures { result ≡ status_of self.now }
    {
        match self {
            RunEnd::Served { .. } => 0,
            RunEnd::DeviceFault => 1,
            RunEnd::NotWritten => 2,
            RunEnd::NoMemory | RunEnd::Refused(WordsFault::NoMemory) => 3,
            RunEnd::Mismatch => 4,
            RunEnd::CoreFailed { .. } => 5,
            RunEnd::Refused(_) => 64,
        }
    }
}

/// The one line that tells the outcome, without its newline.
impl fmt::Display for RunEnd {
    ghost use Rattle.std.specs.Prelude.{Some};
    ghost use Rattle.router_words.specs.RunEnd.{line_of};

    ghost output = { λ outcome. Some (line_of outcome) };

    fn fmt<W: fmt::Write>(&self, f: &mut fmt::Formatter<W>) -> fmt::Result {
        match self {
            RunEnd::Served {
                connections,
                records,
            } => write!(f, "served connections={connections} records={records}"),
            RunEnd::DeviceFault => write!(f, "device fault"),
            RunEnd::NotWritten => write!(f, "capture not written"),
            RunEnd::NoMemory => write!(f, "no memory"),
            RunEnd::Mismatch => write!(f, "mismatch"),
            RunEnd::CoreFailed { records } => write!(f, "core failed records={records}"),
            RunEnd::Refused(fault) => write!(f, "{fault}"),
        }
    }
}
