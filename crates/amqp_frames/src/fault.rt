//! What is wrong with octets that begin no frame.

ghost use Rattle.std.specs.Prelude.{◌≡◌};
ghost use Rattle.amqp_frames.specs.Faults.{number_of};

use std::error::Error;
use std::fmt;
use std::fmt::{Display, Formatter};

/// Which rule octets break that begin no frame, in the order in which it is tested.
#[derive(Clone, Copy, Debug, PartialEq, Eq)]
pub enum FrameFault {
    /// The size is less than the 8 octets of a frame's header.
    TooSmall = 1,
    /// The size is over the limit.
    TooLarge = 2,
    /// The body would start within the header, or behind the frame's end.
    BadOffset = 3,
    /// The type is neither AMQP nor SASL.
    WrongType = 4,
}

impl FrameFault {
    /// The number of the fault, from 1 to 4, in the order of the variants.
    pub fn number(self) -> u8
        ensures { result ≡ number_of self }
    {
        self as u8
    }
}

impl Display for FrameFault {
    fn fmt<W: fmt::Write>(&self, f: &mut Formatter<W>) -> fmt::Result {
        let rule = match self {
            FrameFault::TooSmall => "the size is less than a frame's header",
            FrameFault::TooLarge => "the size is over the limit",
            FrameFault::BadOffset => "the body starts outside the frame",
            FrameFault::WrongType => "the type is neither AMQP nor SASL",
        };
        write!(f, "{rule}")
    }
}

impl Error for FrameFault {}
