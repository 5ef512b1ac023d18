//! What a capture holds, in numbers.

/// How many records a capture has, how many of them are transfers to clients that begin a delivery, and how many are
/// outcomes that were told.
#[derive(Clone, Copy, Debug, PartialEq, Eq)]
pub struct Tally {
    pub records: u64,
    /// Out transfers that begin a delivery.
    pub deliveries: u64,
    /// Out dispositions of role receiver.
    pub outcomes: u64,
}
