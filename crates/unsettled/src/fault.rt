//! Why a part of a delivery is refused.

ghost use Rattle.std.specs.Prelude.{◌≡◌};
ghost use Rattle.unsettled.specs.Refusals.{fault_number};
ghost use Rattle.unsettled.specs.declared.fault.PartFault.TheVariants.{Memory};

use std::alloc::{AllocError, AllocFailed};
use std::error::Error;
use std::fmt;

/// Why a part of a delivery is refused.
#[derive(Clone, Copy, Debug, PartialEq, Eq)]
pub enum PartFault {
    /// Memory for the part was refused.
    Memory = 1,
    /// The payloads of the delivery's parts would have more than `MAX_MESSAGE_SIZE` octets.
    TooLarge,
    /// A later part has another delivery-id than the first.
    IdChanged,
    /// The first part has no delivery-id.
    NoId,
    /// The first part has the delivery-id of a delivery that is not decided.
    IdInUse,
}

impl PartFault {
    /// The number of the fault, from 1 to 5.
    pub fn number(self) -> u8
        ensures { result ≡ fault_number self }
    {
        self as u8
    }
}

impl fmt::Display for PartFault {
    fn fmt<W: fmt::Write>(&self, f: &mut fmt::Formatter<W>) -> fmt::Result {
        f.write_str(match self {
            PartFault::Memory => "out of memory",
            PartFault::TooLarge => "the message is larger than the link allows",
            PartFault::IdChanged => "a later part of a delivery has another delivery-id",
            PartFault::NoId => "a delivery begins without a delivery-id",
            PartFault::IdInUse => "a delivery begins with the delivery-id of an undecided one",
        })
    }
}

impl Error for PartFault {}

impl From<AllocError> for PartFault {
    ghost from_gives = { λ _ fault. fault ≡ Memory };

    fn from(_refused: AllocError) -> PartFault {
        PartFault::Memory
    }
}

impl<T: Drop> From<AllocFailed<T>> for PartFault {
    ghost from_gives = { λ _ fault. fault ≡ Memory };

    fn from(_refused: AllocFailed<T>) -> PartFault {
        PartFault::Memory
    }
}
