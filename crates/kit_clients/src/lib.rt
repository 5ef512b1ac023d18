//! Clients for tests: what they say, and choices by chance. Several programs of tests stand on it.
//!
//! - `chance`: choices by chance, the same in each run of a seed;
//! - `fields`: the octets of frames as clients write them, well-formed or not: numbers and lists in their longest form, which
//!   the router never writes;
//! - `scripted`: two clients over loopback, whose octets were worked out;
//! - `reading`: a plain second reading of a client's octets, which shares no code with the engine: what it is answered before
//!   the frames, the frames, and why they do not go on. Programs compare with it what an engine did.
#![tactic(auto)]

mod chance;
mod fields;
mod reading;
mod scripted;

pub use chance::Chance;
pub use fields::{Fields, framed};
pub use reading::{AMQP_HEADER, MECHANISMS, REFUSAL, Reading, SASL_HEADER, WELCOME, read};
pub use scripted::{LOOPBACK_CONSUMER, LOOPBACK_PRODUCER, ScriptStep, heard, talks};
