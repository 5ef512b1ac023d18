//! What is wrong with octets that are no value.

ghost use Rattle.std.specs.Prelude.{◌≡◌};
ghost use Rattle.amqp_types.specs.Faults.{number_of, fault_within, fault_in_array};

use std::error::Error;
use std::fmt;
use std::fmt::{Display, Formatter};

/// Which rule octets break that are no value.
#[derive(Clone, Copy, Debug, PartialEq, Eq)]
pub enum ValueFaultKind {
    /// The value passes the end of the input.
    Short = 1,
    /// No type has this format code.
    UnknownCode = 2,
    /// A size doesn't fit the count and the items that it is of.
    BadSize = 3,
    /// A string isn't UTF-8, or a symbol isn't ASCII.
    BadText = 4,
    /// The value is on a level over `MAX_DEPTH`, where the outermost value is on level 1.
    TooDeep = 5,
    /// The octet of a boolean is neither 0 nor 1.
    BadBoolean = 6,
    /// A map has a key without a value.
    OddMap = 7,
}

impl ValueFaultKind {
    /// The number of the fault, from 1 to 7, in the order of the variants.
    pub fn number(self) -> u8
        ensures { result ≡ number_of self }
    {
        self as u8
    }

    /// The fault of this kind of the value at an offset.
    pub(crate) fn of(self, at: usize) -> ValueFault
        ensures kind { result.kind ≡ self }
        ensures at { result.at ≡ at }
    {
        ValueFault { kind: self, at }
    }
}

/// The first fault of octets that are no value, from left to right.
#[derive(Clone, Copy, Debug, PartialEq, Eq)]
pub struct ValueFault {
    /// Which rule is broken.
    pub kind: ValueFaultKind,
    /// The offset, in octets from the start of the input, of the value that breaks it; of the outermost
    /// array where the value lies in one, and the end of the input where a value is missing there.
    pub at: usize,
}

impl ValueFault {
    /// The fault of an item, as a fault of the list or map at an offset: what passes the end of
    /// its items is its own.
    pub(crate) fn within(self, at: usize) -> ValueFault
        ensures { result ≡ fault_within at self }
    {
        match self.kind {
            ValueFaultKind::Short => ValueFaultKind::BadSize.of(at),
            _ => self,
        }
    }

    /// The fault of what lies in an array, as a fault of the array at an offset.
    pub(crate) fn in_array(self, at: usize) -> ValueFault
        ensures { result ≡ fault_in_array at self }
    {
        self.within(at).kind.of(at)
    }
}

impl Display for ValueFault {
    fn fmt<W: fmt::Write>(&self, f: &mut Formatter<W>) -> fmt::Result {
        let rule = match self.kind {
            ValueFaultKind::Short => "the value passes the end of the input",
            ValueFaultKind::UnknownCode => "no type has this format code",
            ValueFaultKind::BadSize => "the size does not fit the count and the items",
            ValueFaultKind::BadText => "the text is not UTF-8, or the symbol not ASCII",
            ValueFaultKind::TooDeep => "the value lies more than 32 values deep",
            ValueFaultKind::BadBoolean => "the octet of a boolean is neither 0 nor 1",
            ValueFaultKind::OddMap => "a key of the map has no value",
        };
        write!(f, "{rule} (octet {})", self.at)
    }
}

impl Error for ValueFault {}
