//! The credit of a link, which neither side may overrun: how many deliveries may still begin (part 2 of the standard,
//! section 2.6.7).
//!
//! `SenderCredit` counts the credit that a client gives on a consumer's link, where deliveries go to the client, and
//! `GivenCredit` the credit that a client is given on a producer's link, where they come from it. Whatever the link's
//! events were, their numbers are those that the definitions of `flow_counts` count over them, and each call counts one
//! event more. No call takes memory. `sender_credit_after` and `given_credit_after` count whole lists of events, and
//! their contracts are that law for all of them. Neither the router nor the auditor stands on this crate: their credits
//! are in `state_counts`, counted by the same definitions.
//!
//! In reading order: `sender` and `given` keep the counters; `history` counts what happens on a link; `laws` says which
//! flows change no credit.
#![tactic(auto)]

mod given;
mod history;
mod laws;
mod sender;

pub use given::{GivenCredit, Over};
pub use history::{ConsumerEvent, ProducerEvent, given_credit_after, sender_credit_after};
pub use laws::laws_of_flows;
pub use sender::SenderCredit;
