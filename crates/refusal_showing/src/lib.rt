//! Auditing the capture that a reader gives, and saying in words why it is not accepted.
//!
//! `explain_capture` writes the line of the auditor's verdict, and behind it, where a record is refused, that record and the
//! reason; where the octets stop being a capture, what was expected there and the octets that follow. `explain_read` gives this as a
//! value, with the number of the refused record, and of those that it is compared with.
//!
//! - `contents`, `refused`: the reason of a record, which are the facts of `refusal_facts`, asked of the auditor's tables;
//! - `recalling`: a reader that recalls the last octets that it gave;
//! - `explaining`: what is kept on the way, to explain a record by;
//! - `capture`: a capture, audited and explained.
#![tactic(auto)]

mod capture;
mod contents;
mod explaining;
mod recalling;
mod refused;

pub use audit_core::Verdict;
pub use capture::{Explanation, explain_capture, explain_read};
pub use capture_words::NotWritten;
pub use refused::explain_refused;
