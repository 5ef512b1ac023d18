//! Deliveries: scans of the past.

mod due;
mod incoming;
mod message;
mod outgoing;
mod payload;
mod settling;
mod verdicts;
mod waiting;
