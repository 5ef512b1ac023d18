//! A router's core that threads share.
//!
//! `Exchange` keeps the core behind one lock. Each connection reaches it by a port of its own (`ExchangePort`), which keeps
//! what it handed over and what it was given: its `Seat`. At the end `Exchange::close` compares all seats, and the rules,
//! with the one capture, so that nothing of what was done under the lock is taken on trust.
//!
//! In reading order: `seat`, `written_counts` (whether there may be frames to ask for), `exchange`, `port`; `comparing` tells
//! whether seats are what a capture has.
#![tactic(auto)]

mod comparing;
mod exchange;
mod port;
mod seat;
mod written_counts;

pub use exchange::{Exchange, frame_from};
pub use port::ExchangePort;
pub use seat::Seat;
