//! How a run ended, and the line and the exit status that tell it.

use capture_form::{FormFault, FormKind};
use std::fmt;

/// How the reading of a capture ended.
#[derive(Clone, Copy, Debug, PartialEq, Eq)]
pub enum Ending {
    /// The octets are the text of a capture, and all of it was shown that is asked for.
    Whole,
    /// The octets stop being a capture's text at this offset.
    Malformed(u64),
    /// A growth was refused.
    NoMemory,
    /// The octets could not be read from this offset on.
    Unreadable(u64),
}

impl Ending {
    ghost use Rattle.std.specs.Prelude.{◌≡◌};
    ghost use Rattle.capture_words.specs.Ending.{status_of};

    /// The exit status that tells it.
    pub fn status(&self) -> u8
        ensures { result ≡ status_of self.now }
    {
        match self {
            Ending::Whole => 0,
            Ending::Malformed(_) => 2,
            Ending::NoMemory => 3,
            Ending::Unreadable(_) => 4,
        }
    }
}

/// The one line that tells a fault, without its newline. A whole capture has none.
impl fmt::Display for Ending {
    ghost use Rattle.std.specs.Prelude.{Some};
    ghost use Rattle.capture_words.specs.Ending.{line_of};

    ghost output = { λ ending. Some (line_of ending) };

    fn fmt<W: fmt::Write>(&self, f: &mut fmt::Formatter<W>) -> fmt::Result {
        match self {
            Ending::Whole => write!(f, ""),
            Ending::Malformed(offset) => write!(f, "malformed offset={offset}"),
            Ending::NoMemory => write!(f, "no memory"),
            Ending::Unreadable(offset) => write!(f, "unreadable offset={offset}"),
        }
    }
}

impl From<FormFault> for Ending {
    ghost use Rattle.std.specs.Prelude.{◌≡◌};
    ghost use Rattle.capture_words.specs.Ending.{ending_of};

    ghost from_gives = { λ fault ending. ending ≡ ending_of fault };

    fn from(fault: FormFault) -> Ending {
        match fault.kind {
            FormKind::Memory => Ending::NoMemory,
            FormKind::Read => Ending::Unreadable(fault.offset),
            FormKind::Magic
            | FormKind::Rules
            | FormKind::Kind
            | FormKind::Note
            | FormKind::Length
            | FormKind::Truncated => Ending::Malformed(fault.offset),
        }
    }
}
