//! The table of deliveries to clients, moved forward by one event after the other: how far each is sent, and how its consumer
//! decided. Each look-up gives what `trace_events` says of all the events so far. A delivery from a client can be let go, once all
//! that carry it are finished: the table keeps nothing of these, and a ghost list has the number of the one from a client, so that
//! what is promised of all others stays.
//!
//! - `sent`: a delivery to a client from its first part on, with its consumer's decision (`decided`), and how it goes on with
//!   the payload that it carries (`payload`);
//! - `groups`: which of them are still unsettled;
//! - `earliest`: the earliest of a group that passes a test;
//! - `touched`: which of them an event may touch, with `id_range`, the ids of which a consumer speaks;
//! - `listed`: a list that grows by what may be there;
//! - `begun`: which of them began last on each link, and which carry the same delivery from a client (`carriers`);
//! - `deliveries`: all of them, by number;
//! - `answers`: what the table answers of them, with `closings`, of which deliveries from clients nothing more is to be told.
#![tactic(auto)]

mod answers;
mod begun;
mod carriers;
mod closings;
mod decided;
mod deliveries;
mod earliest;
mod groups;
mod id_range;
mod listed;
mod payload;
mod sent;
mod touched;

pub use begun::LastNumbers;
pub use carriers::Carriers;
pub use closings::Closings;
pub use decided::Decided;
pub use deliveries::SentDeliveries;
pub use groups::SentGroups;
pub use id_range::IdRange;
pub use payload::rest_of;
pub use sent::SentDelivery;
