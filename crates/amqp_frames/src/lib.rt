//! Frames of AMQP 1.0: cut out of a stream of octets, in whatever pieces it comes, and written whole; and what the
//! frames of a SASL exchange say.
//!
//! `FrameView::read` looks at the front of any octets. Where a whole frame stands there it gives the
//! frame's parts, on the octets themselves; where octets are still missing it says so; and it gives a
//! fault as soon as the octets that show it are there. A `Splitter` is fed the stream piece by piece
//! and gives its frames, in order and each once, up to the first fault, which it then gives for good.
//! `ProtocolHeader` is the eight octets in front of the frames. `put_frame` appends the frame of a performative.
//! `sasl_read` gives what the body of a SASL frame says, and `sasl_write` appends such a frame.
//!
//! Reading order: `fault`, `header`, `frame`, `splitter`, `pieces`, `writing`, `sasl`, `sasl_writing`.
#![tactic(auto)]

mod fault;
mod frame;
mod header;
mod pieces;
mod sasl;
mod sasl_writing;
mod splitter;
mod writing;

pub use fault::FrameFault;
pub use frame::{FrameKind, FrameView};
pub use header::ProtocolHeader;
pub use pieces::{CutStream, cut_stream};
pub use sasl::{SASL_AUTH, SASL_OK, SaslFrame, sasl_read};
pub use sasl_writing::sasl_write;
pub use splitter::Splitter;
pub use writing::put_frame;
