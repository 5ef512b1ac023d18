//! Why an engine does not go on.

ghost use Rattle.std.specs.Prelude.{◌≡◌};
ghost use Rattle.conn_engine.specs.Feeding.{engine_fault, engine_fault_number};

use route_items::StepFault;
use stream_reading::StreamFault;

/// Why octets were not taken, or not all of them, or a loss was not told.
#[derive(Clone, Copy, Debug, PartialEq, Eq)]
pub enum EngineFault {
    /// Eight octets that are no header, or not one that may stand there. The client is answered the header of AMQP, and
    /// the connection is over.
    HeaderRefused,
    /// Octets that begin no frame, or a frame that may not stand there. Behind the header of AMQP the router was told,
    /// and its close is to be given: until it is, or the device is gone, each further `feed` answers this too, and then
    /// `Over`. In the SASL exchange the connection is over.
    Frame,
    /// The router did not take an item. Those before it were taken, and the connection is over.
    Port(StepFault),
    /// The connection is over. Nothing changed.
    Over,
    /// A mechanism that is not offered. The client is told so, and the connection is over.
    SaslRefused,
    /// Memory was refused. The items before were taken, and the connection is over.
    Memory,
}

impl EngineFault {
    /// The number of the fault, from 1 to 6.
    pub fn number(self) -> u8
        ensures { result ≡ engine_fault_number self }
    {
        match self {
            EngineFault::HeaderRefused => 1,
            EngineFault::Frame => 2,
            EngineFault::Port(_) => 3,
            EngineFault::Over => 4,
            EngineFault::SaslRefused => 5,
            EngineFault::Memory => 6,
        }
    }

    /// The fault that a stream's is.
    pub(crate) fn of_stream(fault: StreamFault) -> EngineFault
        ensures { result ≡ engine_fault fault }
    {
        match fault {
            StreamFault::HeaderRefused => EngineFault::HeaderRefused,
            StreamFault::BadFrame => EngineFault::Frame,
            StreamFault::SaslRefused => EngineFault::SaslRefused,
        }
    }
}
