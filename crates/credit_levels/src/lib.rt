//! What stands behind each record of a capture, of a consumer's link: the levels that `credit_chart` draws, by whoever can tell of
//! the records so far (`trace_judge`); and a capture that is audited, drawn so.
//!
//! `Levels` is handed each record once it stands in the past, and asks that for the credit of the link, the window of its session,
//! how many deliveries wait at its address and how many are unsettled on it, and whether its client drains it; each answer is the
//! law's number behind the records so far (`trace_events`). The link is the first of a consumer that opens, of those that are
//! picked. What was told is thinned on its way, so that it takes no more memory than a picture.
//!
//! `draw_credit` audits the capture that a reader gives, and keeps on its way what the auditor's tables tell behind each record
//! that is taken, of the link that is picked; it draws that (`credit_chart`), an SVG, and gives the verdict beside it. Of a capture
//! that is refused or malformed it draws the records in front of the first that is not taken.
//!
//! - `pick`: which link, and where it stands;
//! - `delivery_counts`: the questions that no clause of the law asks, with the tables' answers;
//! - `asking`: what stands there, asked of the past;
//! - `levels`: the levels of the records so far;
//! - `watching`: the levels, kept on the way of an audit;
//! - `title`: what the curves are called, by where their link stands;
//! - `drawing`: a capture, audited and drawn.
#![tactic(auto)]

mod asking;
mod delivery_counts;
mod drawing;
mod levels;
mod pick;
mod title;
mod watching;

pub use audit_core::Verdict;
pub use delivery_counts::DeliveryCounts;
pub use drawing::{Drawn, draw_credit, draw_credit_forgetting};
pub use levels::Levels;
pub use pick::{Pick, PickedLink};
