//! Why rules are refused.

ghost use Rattle.std.specs.Prelude.{◌≡◌};
ghost use Rattle.address_table.specs.Refusals.{fault_number};

use std::error::Error;
use std::fmt;

/// Why rules are refused.
#[derive(Clone, Copy, Debug, PartialEq, Eq)]
pub enum RulesFault {
    /// A rule has the prefix of an earlier one.
    Duplicate = 1,
    /// There are more than `MAX_RULES` rules.
    TooMany,
    /// The prefix of a rule is empty.
    Empty,
    /// Memory for the rules was refused. Rules are kept as they are handed in, which takes none, so this is not answered
    /// today.
    Memory,
    /// The prefix of a rule has more than `MAX_PREFIX` octets.
    TooLong,
}

impl RulesFault {
    /// The number of the fault, from 1 to 5.
    pub fn number(self) -> u8
        ensures { result ≡ fault_number self }
    {
        self as u8
    }
}

impl fmt::Display for RulesFault {
    fn fmt<W: fmt::Write>(&self, f: &mut fmt::Formatter<W>) -> fmt::Result {
        f.write_str(match self {
            RulesFault::Duplicate => "two rules have the same prefix",
            RulesFault::TooMany => "there are more than 64 rules",
            RulesFault::Empty => "the prefix of a rule is empty",
            RulesFault::Memory => "out of memory",
            RulesFault::TooLong => "the prefix of a rule has more than 160 octets",
        })
    }
}

impl Error for RulesFault {}
