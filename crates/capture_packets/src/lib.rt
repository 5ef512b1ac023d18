//! A capture as packets: a pcapng file, which tshark and Wireshark decode as AMQP 1.0.
//!
//! A `PacketWriter` writes the head of the file, by `start`, and the packets of one record after the other, by `put`. A
//! record becomes one TCP segment with its frame's octets, in an IPv4 packet of made-up addresses; in front of the first
//! record of a connection stand a handshake and the AMQP headers of both sides, which a capture does not hold. It keeps
//! two sequence numbers for each connection, and the packets of one record.
//!
//! `pack_capture` reads a capture's text record by record and writes the packets of each. It tells how the reading ended,
//! as `capture_words::show_capture` does: in front of a fault of the text stand the packets of all whole records.
//!
//! In reading order: `segment` is a segment of a connection, with its two ends; `checksum`, `headers` and `blocks` are
//! the octets of a packet in a pcapng file; `comment` is what stands beside it in words; `conversation` says which
//! segments a record becomes; `writer` writes them; `packing` those of a reader's capture; `laws` says what the definitions
//! of the text are good for.
#![tactic(auto)]

mod blocks;
mod checksum;
mod comment;
mod conversation;
mod headers;
mod laws;
mod packing;
mod segment;
mod writer;

pub use laws::laws_of_packets;
pub use packing::{NotPacked, pack_capture};
pub use writer::{PacketFault, PacketWriter};
