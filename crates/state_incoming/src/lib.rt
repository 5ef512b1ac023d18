//! Deliveries from clients, kept from their first part on for as long as something may still come of them, and moved forward
//! by one event after the other.
//!
//! - `held`: a delivery that is kept, and what one event makes of it;
//! - `groups`: which of those that are kept arrive, are undecided, or wait;
//! - `touched`: which of them an event may touch;
//! - `deliveries`: all of them, by number, until they are let go;
//! - `entry_answers`: what their entries answer to the questions of `trace_judge`;
//! - `group_answers`: what their groups answer to the questions of `trace_judge`.
#![tactic(auto)]

mod deliveries;
mod entry_answers;
mod group_answers;
mod groups;
mod held;
mod touched;

pub use deliveries::Deliveries;
pub use groups::HeldGroups;
pub use held::{Fate, HeldDelivery, payload_of};
