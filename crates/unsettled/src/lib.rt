//! The deliveries of a session that are not settled yet, in both directions.
//!
//! `Inbound` puts together the deliveries that come in from a client, part by part, each kept as the cut in which it came,
//! and knows which delivery-ids are in use. `Outstanding` keeps the deliveries that were sent to it, and finds those of
//! which a disposition speaks. Whatever happened on the session, both have come to what the definitions of `flow_counts`
//! say of it, and each call counts one event more. Neither the router nor the auditor stands on this crate: their
//! deliveries are in `state_incoming` and `state_outgoing`.
//!
//! In reading order: `fault` is why a part is refused; `partial` is a delivery in progress; `inbound` and `outstanding`;
//! `history` counts whole lists of events.
#![tactic(auto)]

mod fault;
mod history;
mod inbound;
mod outstanding;
mod partial;

pub use fault::PartFault;
pub use history::{PartEvent, inbound_after, outstanding_after};
pub use inbound::Inbound;
pub use outstanding::{Covered, Outstanding};
pub use partial::Partial;
