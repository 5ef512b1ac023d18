//! What may be due.

use due_lists::{DueBegin, DuePart};
use due_outcomes::DueOutcome;
use trace_events::{Link, Outgoing, Session};

/// What is due to be written.
#[derive(Clone, Copy)]
pub enum Due<'t> {
    /// The outcome of a client's delivery.
    Outcome(DueOutcome<'t>),
    /// The settling of a delivery to a consumer.
    Settling(Outgoing<'t>),
    /// The next part of a delivery in progress.
    Part(DuePart<'t>),
    /// The first part of a delivery that waits, on the link that is picked.
    Waiting(DueBegin<'t>),
    /// The first part of the earliest copy of a link.
    Copy(DueBegin<'t>),
    /// The answer to the drain of a consumer's link.
    Drain(Link<'t>),
    /// The credit that fills a producer's link up.
    Credit(Link<'t>),
    /// The window of a session, anew.
    Window(Session),
}
