//! Clients in memory, as gates, which keep to a script: what programs of tests stand on that serve some.
//!
//! - `captures`: the rules of a run, and what the auditor says of its capture;
//! - `script`: what clients say and take;
//! - `parted`: what one says whose message comes in two transfers;
//! - `gate`: a client as a gate in memory;
//! - `clients`: two of them;
//! - `pairs`: which two a run serves.
#![tactic(auto)]

mod captures;
mod clients;
mod gate;
mod pairs;
mod parted;
mod script;

pub use captures::{RunRules, Told, audited, one_rule, put_rule, rules};
pub use clients::{Part, clients_at, two_clients, two_gates};
pub use gate::{Client, LOOKS, PATIENCE, Pace, Post};
pub use pairs::{IN_HASTE, ONE_BY_ONE, Pair, exchanging, failing, part, two_of, vanishing};
pub use parted::stream_parted;
pub use script::{
    AMQP_HEADER, BEGINS_LATE, CONSUMER, ClientScript, MESSAGE, OPENS_LATE, PRODUCER, QUIET, RELAY,
    RELAY_IN_TWO, RELAYED, STRANGERS, TimedOctets, stream_of,
};
