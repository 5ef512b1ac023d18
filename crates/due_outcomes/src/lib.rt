//! Two lists of a router's work, each found without a look at what is not due: outcomes to tell, and deliveries to settle.
//! A list keeps candidates, the numbers of deliveries, among which is all that is due, and asks the tables of `state_answers`
//! of each, the lowest first: this is the code's doing, shown by worked captures; neither law nor duties ask for it, so no
//! clause says it.
//!
//! - `parked`: deliveries to clients that are not to be settled yet, by what they carry;
//! - `unsettled`: the deliveries to settle with their consumers;
//! - `untold`: the outcomes to tell, each with its row (`outcome`) and the state that it tells (`state`).
#![tactic(auto)]

mod outcome;
mod parked;
mod state;
mod unsettled;
mod untold;

pub use outcome::DueOutcome;
pub use unsettled::Unsettled;
pub use untold::Untold;
