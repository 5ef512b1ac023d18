//! Sockets that stand in a poll: what is known of each since it was polled, what a call on it did, and why a listener gave none.
//!
//! Both routers stand on it: `conn_workers`, whose workers have a poll each, and `daemon_program`, which has one for all. What a
//! socket delivers and takes no contract says, but that a call moves no more octets than it was lent.
//!
//! - `signs`: whether a read or a write may do something;
//! - `connection`: one socket, with its signs;
//! - `no_connection`: why a listener gave no connection;
//! - `failures`: how often calls failed;
//! - `millis`: the moment.
#![tactic(auto)]

mod connection;
mod failures;
mod millis;
mod no_connection;
mod signs;

pub use connection::{Connection, Moved};
pub use failures::count_failure;
pub use millis::moment;
pub use no_connection::{NoConnection, no_connection_of};
pub use signs::Signs;
