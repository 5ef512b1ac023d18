//! What clients and a router say to one another, in words and by chance. It names no core, so that its functions are proved
//! beside little; `tests_core` does to a core what is said here.
//!
//! - `said`: the bodies of clients' frames;
//! - `lines`: the lines of a scenario, `words`: one as words, `frames`: a client's frame that it tells, and `records`: a record
//!   of a capture in words; `stage`: how far the scenario is played;
//! - `deed`: an input of a router; `driver`: clients by chance, with what they know (`known`), how they learn it (`seen`), and
//!   what they do next, as they may (`lawful`) or not (`hostile`);
//! - `measured`: the frames of clients whose messages are measured;
//! - `crowd`: many consumers of one address, and what they do; `picks`: a plain scan of whether each delivery went where it had
//!   to;
//! - `streams`: the octets of a client by chance; `served`: whether an engine served a client as its octets say;
//! - `frame_counts`, `stream_counts`: what came of it, in numbers.
#![tactic(auto)]

mod crowd;
mod deed;
mod driver;
mod frame_counts;
mod frames;
mod hostile;
mod known;
mod lawful;
mod lines;
mod measured;
mod picks;
mod records;
mod said;
mod seen;
mod served;
mod stage;
mod stream_counts;
mod streams;
mod words;

pub use crowd::{CROWDED, Crowd, CrowdCounts};
pub use deed::Deed;
pub use driver::Driver;
pub use frame_counts::FrameCounts;
pub use known::{ChannelKey, Held, Known, Life, Link, Sent, Session};
pub use lines::lines_meant;
pub use measured::{
    BEGIN, DETACH, OPEN, attaching, attaching_settled, crediting, put_accepted, put_all_accepted,
    put_transfer,
};
pub use picks::{Picks, scan_picks};
pub use records::{Names, Telling};
pub use served::{EngineReport, Served, are_served};
pub use stage::{Difference, Stage};
pub use stream_counts::StreamCounts;
pub use streams::stream;
pub use words::Words;
