//! What happens on a session: the events over which counters count.

/// What moves the windows of a session.
#[derive(Clone, Copy, Debug, PartialEq, Eq)]
pub enum WindowEvent {
    /// A flow comes from the client, with the id of the transfer that it expects next, where it knows one, and its
    /// incoming-window, in transfers.
    TheirFlow {
        next_incoming: Option<u32>,
        incoming_window: u32,
    },
    /// A transfer is sent to the client.
    Sent,
    /// A flow is written to the client.
    OurFlow,
    /// A transfer comes from the client.
    Received,
}

/// What moves the deliveries that were sent to a client and of which its dispositions may still speak.
#[derive(Clone, Copy, Debug, PartialEq, Eq)]
pub enum SentEvent {
    /// A delivery begins with the transfer of this record, and has this delivery-id.
    Added { number: u64, id: u32 },
    /// The delivery of this record is over.
    Removed { number: u64 },
}
