//! A router that one owner serves: the core, the writer of its capture, and all connections, round by round.
//!
//! A desk is the port of a connection's engine (`conn_engine`): it reaches nothing but its own inbox and outbox, so that the
//! engine's turn needs neither a lock nor the router. It stands for one turn: between two turns the engine is paused, and the owner
//! has inbox and outbox to itself. What was taken and given before a turn is named by a type (`Before`), which each turn picks, so
//! that what an engine hands back can speak of it.
//!
//! A `RecordingCore` is a kernel (`route_core`) with the journal of its capture (`capture_journal`): it keeps none of its records.
//! Each step gives them out, and their text waits until it is handed over. Whenever one can be seen, what the writer took and what
//! waits behind it is the text of all that the core wrote, and that is lawful, diligent and in order.
//!
//! In reading order:
//!
//! - `before`, `desk`: what stood before a turn, and the desk of a connection in it;
//! - `desk_turn`: a turn at a desk, in which octets are moved between the engine and its gate;
//! - `recording`: a core that writes its capture while it serves;
//! - `stepping`: it goes through an inbox: each record of it is the next input, in order, and what the router writes is given out;
//! - `line`: one connection between two turns, and its turn: its gate, its paused engine, what came of its client that the core has
//!   not taken yet, and the frames of the core that its engine was not given yet;
//! - `table`: all of them, by their numbers: it gives turns, has the core take what came, lays frames, and lets go of lines that have
//!   ended;
//! - `halt`: why the owner stops;
//! - `round`: one round;
//! - `server`: the owner, and what it promises at every moment.
#![tactic(auto)]

mod before;
mod desk;
mod desk_turn;
mod halt;
mod line;
mod recording;
mod round;
mod server;
mod stepping;
mod table;

pub use before::Before;
pub use desk::Desk;
pub use desk_turn::{Served, serve_at_desk};
pub use halt::Halt;
pub use line::Line;
pub use recording::RecordingCore;
pub use route_core::{Dues, Work};
pub use server::Server;
pub use stepping::{step_entry, step_inbox};
pub use table::Table;
