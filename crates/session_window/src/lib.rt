//! The two windows of a session, which neither side may overrun: how many transfers its client may still be sent, and
//! how many it may still send (part 2 of the standard, section 2.5.6).
//!
//! `Window` keeps both as counters. Whatever the session's events were, its numbers are those that the definitions of
//! `flow_counts` count over them, and each call counts one event more. No call takes memory. `window_after` counts a
//! whole list of events, and its contract is that law for all of them. Neither the router nor the auditor stands on
//! this crate: their windows are in `state_counts`, counted by the same definitions.
//!
//! In reading order: `window` keeps the counters; `history` counts the events of a session.
#![tactic(auto)]

mod history;
mod window;

pub use history::window_after;
pub use window::{Violation, Window};
