//! Judging an event of a capture, over questions about the past. What decides whether a frame is heard, which fault it has,
//! which row an outcome has and which clause an event breaks is written once, for whoever can answer the questions: the
//! scans of the plain checker, and the tables of the auditor and of the router.
//!
//! - `questions`: the traits of questions, by who asks them (`Inputs`, `Outcomes`, `Openings`, `Counts`, `Carriage`);
//! - `judging`: a record as the next event: whether it is heard (`heard`), its fault (`fault`), the deliveries that it is of,
//!   and what it opens;
//! - `clauses`: the first clause that an event breaks, with `connection`, `session`, `link`, `transfer`, `flow` and
//!   `disposition`;
//! - `outcome`: the row of an outcome, and what is told.
//!
//! In `specs/`, `OutcomeSize` says how long the frame of an outcome is, and `Told` what is decided and told, as the code has it.
//! The law itself stands in `trace_events`, and `docs/LAW.md` says it in words.
#![tactic(auto)]

mod clauses;
mod judging;
mod outcome;
mod questions;

pub use clauses::broken_clause;
pub use clauses::flow::{full_credit, may_be_drained, may_be_topped_up};
pub use clauses::transfer::may_take;
pub use judging::{judge, judge_unopened, open};
pub use outcome::{Told, first_row, may_be_told, row};
pub use questions::{Carriage, Counts, History, Inputs, Openings, Outcomes, Questions};
