//! Why the router does not start on its words.

ghost use Rattle.std.specs.Prelude.{◌≡◌};
ghost use Rattle.router_words.specs.declared.fault.WordsFault.TheVariants.{NoMemory};
ghost use Rattle.router_words.specs.Service.{fault_of_rules};

use address_table::RulesFault;
use std::alloc::{AllocError, AllocFailed};
use std::error::Error;
use std::fmt;

/// What is wrong with words that the parser took.
#[derive(Clone, Copy, Debug, PartialEq, Eq)]
pub enum WordsFault {
    /// The first word is no IPv4 address with its port.
    BadAddress,
    /// A word behind the fourth is neither a rule nor `anonymous`.
    BadRule,
    /// The rules may not stand beside one another.
    RuleRefused(RulesFault),
    /// A growth was refused.
    NoMemory,
}

/// The line that tells the fault, without its newline.
impl fmt::Display for WordsFault {
    ghost use Rattle.std.specs.Prelude.{Some};
    ghost use Rattle.router_words.specs.Service.{fault_line};

    ghost output = { λ fault. Some (fault_line fault) };

    fn fmt<W: fmt::Write>(&self, f: &mut fmt::Formatter<W>) -> fmt::Result {
        match self {
            WordsFault::BadAddress => write!(f, "bad address"),
            WordsFault::BadRule => write!(f, "bad rule"),
            WordsFault::RuleRefused(refusal) => {
                let number = refusal.number();
                write!(f, "rule refused number={number}")
            }
            WordsFault::NoMemory => write!(f, "no memory"),
        }
    }
}

impl Error for WordsFault {}

impl From<RulesFault> for WordsFault {
    ghost from_gives = { λ refusal fault. fault ≡ fault_of_rules refusal };

    fn from(refusal: RulesFault) -> WordsFault {
        match refusal {
            RulesFault::Memory => WordsFault::NoMemory,
            refusal => WordsFault::RuleRefused(refusal),
        }
    }
}

impl From<AllocError> for WordsFault {
    ghost from_gives = { λ _ fault. fault ≡ NoMemory };

    fn from(_error: AllocError) -> WordsFault {
        WordsFault::NoMemory
    }
}

impl<T: Drop> From<AllocFailed<T>> for WordsFault {
    ghost from_gives = { λ _ fault. fault ≡ NoMemory };

    fn from(_error: AllocFailed<T>) -> WordsFault {
        WordsFault::NoMemory
    }
}
