//! The steps of a client's stream.

ghost use Rattle.std.specs.Prelude.{◌≡◌};
ghost use Rattle.stream_reading.specs.Stream.{phase_after};

/// What comes next in a stream.
#[derive(Clone, Copy, Debug, PartialEq, Eq)]
pub enum Phase {
    /// The header of AMQP or of SASL.
    FirstHeader,
    /// The init of a SASL exchange.
    Exchange,
    /// The header of AMQP behind a SASL exchange.
    SecondHeader,
    /// A frame of AMQP.
    Open,
}

/// What a step of a stream is.
#[derive(Clone, Copy, Debug, PartialEq, Eq)]
pub enum Event {
    SaslHeader,
    /// The init that chooses the mechanism ANONYMOUS.
    AnonymousInit,
    AmqpHeader,
    AmqpFrame,
}

/// Why a stream does not go on.
#[derive(Clone, Copy, Debug, PartialEq, Eq)]
pub enum StreamFault {
    /// Eight octets that are no header, or not one that may stand there.
    HeaderRefused,
    /// Octets that begin no frame, or a frame that may not stand there.
    BadFrame,
    /// A SASL init that chooses another mechanism than ANONYMOUS.
    SaslRefused,
}

/// A step of a stream: what it is, and all its octets.
#[derive(Clone, Copy, Debug, PartialEq, Eq)]
pub struct Step<'a> {
    pub event: Event,
    pub octets: &'a [u8],
}

impl Event {
    /// What comes behind it.
    pub fn phase_after(self) -> Phase
        ensures { result ≡ phase_after self }
    {
        match self {
            Event::SaslHeader => Phase::Exchange,
            Event::AnonymousInit => Phase::SecondHeader,
            Event::AmqpHeader | Event::AmqpFrame => Phase::Open,
        }
    }
}
