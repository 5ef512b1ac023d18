//! What is done to a router: an input that owns its frame.

/// What happens next.
#[derive(Drop)]
pub enum Deed {
    /// The client's AMQP header was accepted.
    Opened(u32),
    /// The client sends this frame.
    In(u32, Vec<u8>),
    /// The client's octets stop being frames.
    Broken(u32),
    /// The device ends or fails.
    Lost(u32),
}
