//! Faults of a client's frames.

use amqp_perf::ErrorCondition;

/// What a faulty frame of a client is answered with, and why (which fault gets which is a choice of this router).
#[derive(Clone, Copy, Debug, PartialEq, Eq)]
pub enum Fault {
    /// The connection is closed.
    Close(ErrorCondition),
    /// The session is ended.
    End(ErrorCondition),
    /// The attach is refused: it is answered without source and target, and detached.
    Refuse(ErrorCondition),
    /// The link is detached.
    Detach(ErrorCondition),
}
