//! The direct answer of a router to what a client does.
//!
//! - `reply`: the frames of an answer, as what they say;
//! - `attach`: the answers to an attach;
//! - `answer`: the answer to an event;
//! - `writing`: a reply as a frame;
//! - `laws`: an answer breaks no clause of the law and keeps the duties.
#![tactic(auto)]

mod answer;
mod attach;
mod laws;
mod reply;
mod writing;

pub use answer::{answer_to, owes_nothing};
pub use laws::laws_of_answers;
pub use reply::{Answer, Reply, Saying, Source};
