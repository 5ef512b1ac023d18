//! What has become of the copies of multicast deliveries: which await their verdict, and which verdicts a delivery has, moved
//! forward by one event after the other.
//!
//! - `had`: the verdicts that the copies of one delivery have;
//! - `verdicts`: the table, by the numbers of links and deliveries;
//! - `answers`: what it answers of a delivery.
#![tactic(auto)]

mod answers;
mod had;
mod verdicts;

pub use verdicts::{CopyVerdict, Verdicts};
