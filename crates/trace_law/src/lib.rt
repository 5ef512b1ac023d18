//! The plain checker of the law: whether a record that the router has written meets the clauses of `trace_events`, by
//! the records before it. It takes no memory of the heap: the events of `trace_events` stand on the stack, one call for
//! each, the newest first, and each definition is computed anew by the function of the same name, whose contract it is.
//!
//! - `past`: the events on the stack, and `scans`, their answers to the questions of `trace_judge`, each by a scan: `session`, with `connection` and `window`; `link`, with `credit` and `address`; `delivery`, with `incoming`,
//!   `outgoing`, `payload`, `message`, `waiting`, `due`, `verdicts` and `settling`;
//! - `ask`: `slow_check`, `window_at`, `credit_at`, `waiting_at` and `best_verdict_at` (`check`) answer what the law says at one
//!   record,
//!   `tally_capture` (`tally`) what a capture holds, in one walk over the records (`walk`).
//!
//! In `specs/`, `Check` is what is asked at one record, `OnStack` and `Payloads` say what the code's values stand for. What an
//! event is, and the law itself, stands in `trace_events`, how it is judged in `trace_judge`; `docs/LAW.md` says it in words.
#![tactic(auto)]

mod ask;
mod delivery;
mod link;
mod past;
mod scans;
mod session;

pub use ask::check::{best_verdict_at, credit_at, slow_check, waiting_at, window_at};
pub use ask::tally::tally_capture;
pub use trace_events::{Clause, Tally};
