//! The tables that auditor and router share, with the tally of a capture, moved forward by one record after the other: each is judged by
//! those before it, and taken if it meets the clauses.
//!
//! The event of a record borrows the addresses of its links from the tables that were asked, and these are to be moved by it: so
//! it is judged, kept, and made again of what was kept. The record itself is read once (`ReadRecord`), and lent to both.
//!
//! - `judging`: a record's event, or the first clause that it breaks;
//! - `held_event`: an event that is kept, but for its moment, with `held_parts`: its link and its deliveries;
//! - `tallied`: what the records up to this one hold;
//! - `ledger`: what the records so far have come to;
//! - `not_entered`: why a record was not taken.
//!
//! In `proofs/`, `NextAnswers` says what the answer of `judging` is worth: with the event the capture is lawful, or the
//! record is its first that breaks a clause.
#![tactic(auto)]

mod held_event;
mod held_parts;
mod judging;
mod ledger;
mod not_entered;
mod tallied;

pub use held_event::{HeldEvent, HeldFacts};
pub use held_parts::{HeldIncoming, HeldOutgoing, HeldParts};
pub use judging::hold_next;
pub use ledger::Ledger;
pub use not_entered::NotEntered;
pub use tallied::counted;
