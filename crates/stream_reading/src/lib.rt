//! What a client of an AMQP server sends, from the first octet on: a header, perhaps a SASL exchange and a header again,
//! and then frames. And what the server answers before the frames begin.
//!
//! `front` tells what stands at the front of octets, by what the stream is at (`Phase`): a step of it, octets that are
//! missing, or why the stream ends there. It looks at the octets themselves, and takes no memory. A `StreamReader` is
//! fed the stream in whatever pieces it comes, and keeps what is of no step that was taken. `answer_to` and
//! `answer_to_fault` are what the server says to it.
//!
//! - `step`: the steps of a stream, its phases and faults; `stream`: what stands at the front of octets;
//! - `reader`: a stream that comes in pieces;
//! - `answer`: what a server says before the frames begin.
#![tactic(auto)]

mod answer;
mod reader;
mod step;
mod stream;

pub use answer::{answer_to, answer_to_fault};
pub use reader::StreamReader;
pub use step::{Event, Phase, Step, StreamFault};
pub use stream::front;
