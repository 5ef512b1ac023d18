//! What the windows of a live session and the credit of a live link have come to, moved on by one event after the other. Each
//! number is what `trace_events` counts over all the events so far.
//!
//! - `sessions`: a live session with its two windows and the ids that come next;
//! - `link_counts`: the credit and the delivery-count of a live link, of either role.
//!
//! `state_tables` keeps one of these for each session and link that lives.
#![tactic(auto)]

mod link_counts;
mod sessions;

pub use link_counts::LinkCounts;
pub use sessions::{CountedSession, opens_or_ends, session_after};
