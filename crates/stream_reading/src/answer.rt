//! What a server says before the frames begin.

ghost use Rattle.std.specs.Prelude.{◌≡◌};
ghost use Rattle.stream_reading.specs.Stream.{answer_to, answer_to_fault};

use crate::step::{Event, StreamFault};

/// What the server answers to a step of a stream: its own header, with the mechanisms that it offers, and the outcome of
/// a SASL exchange. To a frame nothing here.
pub fn answer_to(event: Event) -> &'static [u8]
    ensures { result.now ≡ answer_to event }
{
    match event {
        Event::SaslHeader => {
            b"AMQP\x03\x01\x00\x00\x00\x00\x00\x1c\x02\x01\x00\x00\x00\x53\x40\xc0\x0f\x01\xe0\x0c\x01\xa3\x09ANONYMOUS"
        }
        Event::AnonymousInit => b"\x00\x00\x00\x10\x02\x01\x00\x00\x00\x53\x44\xc0\x03\x01\x50\x00",
        Event::AmqpHeader => b"AMQP\x00\x01\x00\x00",
        Event::AmqpFrame => &[],
    }
}

/// What the server still answers where a stream does not go on.
pub fn answer_to_fault(fault: StreamFault) -> &'static [u8]
    ensures { result.now ≡ answer_to_fault fault }
{
    match fault {
        StreamFault::HeaderRefused => b"AMQP\x00\x01\x00\x00",
        StreamFault::BadFrame => &[],
        StreamFault::SaslRefused =>
            b"\x00\x00\x00\x10\x02\x01\x00\x00\x00\x53\x44\xc0\x03\x01\x50\x01",
    }
}
