//! The offline auditor: what a capture is worth, and what its text is. An `Auditor` takes the records of a capture one after
//! the other, and refuses the first that breaks a clause of the law (`trace_events`). `audit` hands it those of a capture, and
//! tells what that holds. `audit_bytes` answers, for any octets, the one verdict that holds of them, unless memory was
//! refused: that they are the text of a capture each of whose records meets the law, or which record is the first that does
//! not, or at which offset they stop being such a text. `audit_stream` answers it for the octets that a reader gives, which
//! it reads record by record, or at which offset no more could be read; `audit_forgetting` does so in memory that does not grow
//! with a lawful capture. It trusts nothing of the router that wrote the capture.
//!
//! - `verdict`: what is answered;
//! - `auditor`: records, taken one after the other;
//! - `judging`: a capture, and its text, with `lengths`;
//! - `streaming`: a text that a reader gives, with `watching`: those that are told of it on its way;
//! - `laws`: that of any octets exactly one verdict holds, and that the text of a lawful capture is accepted.
#![tactic(auto)]

mod auditor;
mod judging;
mod laws;
mod lengths;
mod streaming;
mod verdict;
mod watching;

pub use auditor::{Auditor, MOST_RECORDS};
pub use capture_form::FormKind;
pub use judging::{audit, audit_bytes};
pub use laws::{lawful_text, one_verdict};
pub use state_ledger::Ledger;
pub use streaming::{
    audit_forgetting, audit_stream, audit_text, audit_watched, audit_watched_forgetting,
};
pub use trace_events::{Clause, Tally};
pub use verdict::{Refusal, Verdict};
pub use watching::Watcher;
