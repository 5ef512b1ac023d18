//! One connection between a device and a router, whatever the two are: what is asked of either (`Gate` and `Port`), the engine
//! between them (`Engine`), and the turn that moves the octets (`serve`).
//!
//! An engine is fed the octets that a device delivers, and tells the router what they are. It takes the router's frames,
//! and gives the octets that the device is to take (`Output`). It touches neither a device nor a clock, and waits for
//! nothing: moments are handed to it, and where a client is to hear something before so much time has passed, it gives an empty
//! frame.
//!
//! - `gate`, `port`: what is asked of a device, and of a router;
//! - `engine`: the engine, with `paused`: what is kept of it between two turns without its port; `engine_state` is where it is,
//!   `fault` why it does not go on;
//! - `feeding`: what it does with the octets of its client; `taking`: what it takes from its port;
//! - `output`: octets that wait to be given; `frame_ends`: where the router's open and its close end among them;
//! - `said`: what a frame says of the connection itself; `silence`: how long a client has heard nothing.
//!
//! A turn takes the router's frames and tells the engine the moment, writes what waits, reads where the engine takes more, and ends
//! the connection where its gate has ended or failed, or its engine is over and all is given. Whoever calls it decides when, and
//! waits in between. What it moves it notes (`Notes`): a `Script` tells which octets the gate took, together with the frames of the
//! engine's port, so that these are not kept once more; where nobody asks, nothing is kept (`Unnoted`).
//!
//! - `serving`: a turn;
//! - `notes`: what is noted of the octets that an engine puts; `noting`: the engine's calls that put some, and what is noted of each;
//! - `script`: notes by which the octets that a gate took can be told.
#![tactic(auto)]

mod engine;
mod engine_state;
mod fault;
mod feeding;
mod frame_ends;
mod gate;
mod notes;
mod noting;
mod output;
mod port;
mod said;
mod script;
mod serving;
mod silence;
mod taking;

pub use engine::{Engine, PausedEngine};
pub use fault::EngineFault;
pub use gate::{Delivered, Gate, Ready, Taken};
pub use notes::{Notes, Unnoted};
pub use output::Output;
pub use port::{Port, PortFault};
pub use script::Script;
pub use serving::{Status, Stop, Turn, serve};
pub use silence::EMPTY_FRAME;
