//! One socket of a poll.

ghost use Rattle.std.specs.Prelude.{length};
ghost use Rattle.polled_sockets.specs.Moved.{IsWithin};

use crate::signs::Signs;
use mio::net::TcpStream;
use std::alloc::Global;
use std::io;
use std::io::{ErrorKind, Read, Write};
use std::net::Shutdown;
use std::sync::Arc;

/// So many times a socket that is shut is read at most, so that a peer that goes on can not hold it.
const LEFTOVERS: usize = 64;

/// What a call on a socket did.
#[derive(Clone, Copy, Debug, PartialEq, Eq)]
pub enum Moved {
    /// It moved so many octets.
    Octets(usize),
    /// It moved none now.
    Nothing,
    /// There are no more.
    End,
    Fault,
}

/// A socket that does not block, with its key in the poll and its signs.
#[derive(Drop)]
pub struct Connection {
    stream: TcpStream,
    key: usize,
    signs: Arc<Signs, Global>,
}

impl Connection {
    /// A socket that stands in a poll under this key, and whose signs the poll's owner notes.
    pub fn new(stream: TcpStream, key: usize, signs: Arc<Signs, Global>) -> Connection {
        Connection { stream, key, signs }
    }

    /// Its key in the poll.
    pub fn key(&self) -> usize {
        self.key
    }

    /// Reads into the front of the buffer, if there may be anything.
    pub fn read(&mut self, buffer: &mut [u8]) -> Moved
        ensures { IsWithin result (length buffer.new) }
    {
        if !self.signs.may_read() {
            return Moved::Nothing;
        }
        match self.stream.read(buffer) {
            Ok(0) => Moved::End,
            Ok(n) => {
                if n < buffer.len() {
                    self.signs.octets_are_read();
                }
                Moved::Octets(n)
            }
            Err(error) if is_empty_handed(&error) => {
                self.signs.octets_are_read();
                Moved::Nothing
            }
            Err(error) => moved_by(&error),
        }
    }

    /// Writes octets from the front of these, if there are any and there may be room.
    pub fn write(&mut self, octets: &[u8]) -> Moved
        ensures { IsWithin result (length octets.now) }
    {
        if octets.is_empty() || !self.signs.may_write() {
            return Moved::Nothing;
        }
        match self.stream.write(octets) {
            Ok(n) => {
                if n < octets.len() {
                    self.signs.room_is_used();
                }
                Moved::Octets(n)
            }
            Err(error) if is_empty_handed(&error) => {
                self.signs.room_is_used();
                Moved::Nothing
            }
            Err(error) => moved_by(&error),
        }
    }

    /// Ends the connection. It says that no more comes, and reads away what the peer has sent meanwhile: a socket that is
    /// closed with octets unread takes back what the peer has not received yet.
    pub fn shut(&mut self) {
        // One that the peer has ended may refuse it.
        let _ = self.stream.shutdown(Shutdown::Write);
        let mut rest = [0u8; 4096];
        for _ in 0..LEFTOVERS {
            match self.stream.read(&mut rest) {
                Ok(n) if n > 0 => {}
                _ => return,
            }
        }
    }
}

/// Whether the call would have had to wait.
fn is_empty_handed(error: &io::Error) -> bool {
    error.kind() == ErrorKind::WouldBlock
}

/// What a call did that failed otherwise. One that a signal cut off is made again at the next turn.
fn moved_by(error: &io::Error) -> Moved
    ensures { IsWithin result 0 }
{
    if error.kind() == ErrorKind::Interrupted {
        Moved::Nothing
    } else {
        Moved::Fault
    }
}
