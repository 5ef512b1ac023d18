//! All that may be due of a router's work, and what a router knows of its capture while it writes it.
//!
//! - `due`: whatever is due to be written next, as one type over what the lists of a router's work answer;
//! - `writing`: the record of the frame that is then written;
//! - `dues`: what is asked of lists of what is due;
//! - `router_state`: the tables that answer the questions about the past, with such lists, moved together by one record after the
//!   other;
//! - `telling`: outcomes, and settlings behind them;
//! - `sending`: deliveries in progress, those that wait, and copies;
//! - `flowing`: drain answers, credit and windows;
//! - `work`: all of these lists as one, in the order in which a step goes over them.
#![tactic(auto)]

mod due;
mod dues;
mod flowing;
mod router_state;
mod sending;
mod telling;
mod work;
mod writing;

pub use due::Due;
pub use dues::Dues;
pub use router_state::RouterState;
pub use work::Work;
pub use writing::record_of;
