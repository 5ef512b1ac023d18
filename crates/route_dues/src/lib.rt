//! The frames that a router writes because they are due: each kind by one call that appends its octets whole or not at
//! all, and by one law of the frame, written where it is due.
//!
//! - `transfers`: the parts of deliveries; `dispositions`: outcomes and settlings; `flows`: windows, credit and drain
//!   answers; each over the questions of `trace_judge` that it asks;
//! - `frame`: one whole frame; `short`: the most usual ones, written straight behind what is there;
//! - `laws`: such a frame breaks no clause and keeps the duties;
//! - `step_laws`: what a router's records keep from step to step, whatever code writes them;
//! - `measure_laws`: what is left to be written while a step goes on is a number (`work_left`) that each frame that is due
//!   lessens: so the loop of `route_core` that writes what is due ends.
//!
//! In `specs/`, `Writing` is a frame as the next event, and what may follow a history; `Transfers` and `Outcomes` are
//! the frames of these kinds, `Short` what is in front of their fields, `Steps` the law of a step, and `Work` the number.
//! All other frames are those of `trace_events/specs/Written`.
#![tactic(auto)]

mod dispositions;
mod flows;
mod frame;
mod laws;
mod measure_laws;
mod short;
mod step_laws;
mod transfers;

pub use dispositions::{put_outcome, put_settling};
pub use flows::{put_credit, put_drain, put_window};
pub use laws::laws_of_dues;
pub use measure_laws::laws_of_measures;
pub use step_laws::laws_of_steps;
pub use transfers::{put_first, put_next};
