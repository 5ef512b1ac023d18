//! What happens to a router from outside: its inputs, one by one, why one is not taken, and what a router keeps of them by
//! connection.
//!
//! - `item`, `fault`: an input, and why it is not taken;
//! - `connection_states`: what became of each connection, by its inputs: which item may come next;
//! - `written_frames`: where the frames that were written on each connection stand in a capture: the next one of a connection
//!   is looked up, and not searched for through the records of others.
#![tactic(auto)]

mod connection_states;
mod fault;
mod item;
mod written_frames;

pub use connection_states::ConnectionStates;
pub use fault::StepFault;
pub use item::Item;
pub use written_frames::WrittenFrames;
