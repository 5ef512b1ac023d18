//! The address that a message is for, read from octets that lie in several parts, without memory and without joining them.
//!
//! `message_to` gives what `amqp_perf::message_to` gives of the same octets side by side, wherever they are cut: in a
//! size, in a name, in a character or in the address. Who keeps the parts says by `Cuts` what lies at an offset. The
//! address is copied out, at most `MAX_ADDRESS` octets; nothing else is.
//!
//! Reading order: `cuts`, `parts`, `address`, `layout`, `octets`, `text`, `passing`, `section`, `message`.
#![tactic(auto)]

mod address;
mod cuts;
mod layout;
mod message;
mod octets;
mod parts;
mod passing;
mod section;
mod text;

pub use address::Address;
pub use cuts::Cuts;
pub use message::message_to;
pub use parts::Parts;
