//! What the router that stays up does with its words: it serves connections at an address until it is told to end, and writes the
//! capture of what it does to a new file while it serves.
//!
//! The line on standard output tells how the run ended, and the exit status tells it too, both as those of the router that serves
//! a number of connections (`router_words::RunEnd`). Standard error has a line when it listens, what the system said where that
//! is why it ends, and lines of what was served where they are asked for. Words that the parser does not take give its text there,
//! nothing on standard output, and status 64; those that it takes and that are wrong have a line and status 64 too.
//!
//! In reading order: `words` is what the words of the command line say; `order` is what standard input says; `capture_file` is the
//! file; `ending` is how a run ended; `serve_loop` is the loop; `run` is a run over any words, input and writers.
//!
//! Below them stands a router over sockets that stays up: one thread has its listener, its sockets in one poll, and its server
//! (`SocketServer`). A turn waits for a sign of any socket, takes the connections that have come, and serves a round. A read or a
//! write asks the system only where the poll has told that it may do something. Ten times in a second all connections have a turn,
//! so that clients that ask for it hear something. A client that has said less than 16 octets within ten seconds is taken to have
//! ended, and a socket that takes nothing for a minute, while octets wait for it, to have failed. At the router's end each gate
//! says that its client has ended, so that the core is told of all of them.
//!
//! `notice` is what the owner tells its gates; `gate` is a socket; `sockets` is their poll with the listener; `fault` is why a
//! router stops; `socket_server` is the router.
#![tactic(auto)]

mod capture_file;
mod ending;
mod fault;
mod gate;
mod notice;
mod order;
mod run;
mod serve_loop;
mod socket_server;
mod sockets;
mod words;

pub use fault::Fault;
pub use gate::SocketGate;
pub use run::run_words;
pub use socket_server::{Limits, ServerCounts, SocketServer};
pub use sockets::WaitSigns;
pub use words::Words;
