//! What can be wrong with a performative.

ghost use Rattle.std.specs.Prelude.{◌≡◌};
ghost use Rattle.amqp_perf.specs.Numbers.{number_of};

use amqp_types::ValueFault;
use std::error::Error;
use std::fmt;

/// Why octets are no performative. A value's own fault is told first, then that it is no performative, then that it
/// has too many fields, and then the lowest field that is missing or of a wrong type. Fields count from 1.
#[derive(Clone, Copy, Debug, PartialEq, Eq)]
pub enum PerfFault {
    /// They are no value, or one that is cut short.
    Value(ValueFault),
    /// The value is no list that is described as a performative, by its code or its name.
    NotPerformative,
    /// A mandatory field is missing or null.
    MissingField(usize),
    /// A field has a value of another type than its own.
    WrongType(usize),
    /// The list has more items than the performative has fields.
    TooManyFields,
}

impl PerfFault {
    /// The fault's number, from 1 to 5.
    pub fn number(self) -> u8
        ensures { result ≡ number_of self }
    {
        match self {
            PerfFault::Value(_) => 1,
            PerfFault::NotPerformative => 2,
            PerfFault::MissingField(_) => 3,
            PerfFault::WrongType(_) => 4,
            PerfFault::TooManyFields => 5,
        }
    }
}

impl fmt::Display for PerfFault {
    fn fmt<W: fmt::Write>(&self, f: &mut fmt::Formatter<W>) -> fmt::Result {
        match self {
            PerfFault::Value(fault) => write!(f, "no value: {fault}"),
            PerfFault::NotPerformative => write!(f, "not a performative"),
            PerfFault::MissingField(n) => write!(f, "field {n} is missing"),
            PerfFault::WrongType(n) => write!(f, "field {n} has the wrong type"),
            PerfFault::TooManyFields => write!(f, "too many fields"),
        }
    }
}

impl Error for PerfFault {}
