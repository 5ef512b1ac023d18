//! What the loopback clients do with their words: a producer and a consumer exchange greetings over a router, as anybody's
//! clients could.
//!
//! Both connect to the router at the address that the words name, one as a consumer of the address `greetings` and one as a
//! producer for it. The producer sends so many messages as the words say, 1 to 200; the consumer accepts them, but rejects
//! each third; and the router tells the producer so. A line tells of each message that arrived and of each outcome that was
//! told, and the last one how many there were.
//!
//! Where no router is at the address, or it says something else, the last line tells that, and the exit status is 1. The
//! modules, in reading order:
//!
//! - `words`: what the command line asks for
//! - `greeting`: a message, by its number: its text, its octets, and how it is decided
//! - `said`: the performatives that clients say
//! - `fault`: why an exchange was not finished
//! - `client`: a connection, on which frames are said and heard
//! - `opening`: what each client says first and last
//! - `consumer`, `producer`: what each of them says between
//! - `counts`: how many messages there were
//! - `exchange`: the two of them, step by step
//! - `run`: connecting, and how it ended
#![tactic(auto)]

mod client;
mod consumer;
mod counts;
pub mod exchange;
mod fault;
mod greeting;
mod opening;
mod producer;
mod run;
mod said;
mod words;

pub use client::Client;
pub use counts::ExchangeCounts;
pub use fault::{Fault, Wanted};
pub use run::run_words;
