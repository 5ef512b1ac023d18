//! A writer in memory that may fail.

use std::alloc::Global;
use std::io;
use std::io::Write;

/// The most octets at once.
const MOST: usize = 7;

/// Octets in memory, behind so many of which none is taken any more.
#[derive(Drop)]
pub struct Sheet {
    pub octets: Vec<u8>,
    left: usize,
}

impl Sheet {
    /// No octets, and room for so many.
    pub fn new(alloc: Global, room: usize) -> Sheet {
        Sheet {
            octets: Vec::new(alloc),
            left: room,
        }
    }
}

impl Write for Sheet {
    fn write(&mut self, buf: &[u8]) -> io::Result<usize> {
        let len = buf.len().min(MOST).min(self.left);
        self.octets.extend_from_slice(&buf[..len])?;
        self.left -= len;
        Ok(len)
    }

    fn flush(&mut self) -> io::Result<()> {
        Ok(())
    }
}
