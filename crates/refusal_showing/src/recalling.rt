//! A reader that recalls what it gave.

use std::alloc::Global;
use std::io;
use std::io::Read;

/// So many octets are recalled at least, once so many were given. A capture is read ahead by less than a record and a block.
const RECALLED: usize = 65536;

/// Gives what another reader gives, and recalls the last octets of it.
#[derive(Drop)]
pub(crate) struct Recalling<R> {
    reader: R,
    recent: Vec<u8>,
    // How many octets were given in front of the recent ones.
    forgotten: u64,
}

impl<R> Recalling<R> {
    ghost use Rattle.std.specs.Prelude.{◌≡◌};

    /// Recalls nothing yet.
    pub(crate) fn new(alloc: Global, reader: R) -> Recalling<R>
        ensures { result.reader ≡ reader }
    {
        Recalling {
            reader,
            recent: Vec::new(alloc),
            forgotten: 0,
        }
    }

    /// At most so many of the octets from this offset on, as far as they were read and are recalled.
    pub(crate) fn recalled(&self, offset: u64, most: usize) -> &[u8] {
        let rest = match offset.checked_sub(self.forgotten).map(usize::try_from) {
            Some(Ok(start)) => self.recent.get(start..).unwrap_or(&[]),
            _ => &[],
        };
        rest.get(..most).unwrap_or(rest)
    }

    /// These octets were given. Where memory is refused, all are forgotten.
    fn keep(&mut self, given: &[u8])
        ensures { self.new.reader ≡ self.old.reader }
    {
        let count = self.recent.len();
        if count >= 2 * RECALLED {
            self.forget(count - RECALLED);
        }
        if self.recent.extend_from_slice(given).is_err() {
            self.forget(count);
            self.forgotten = self.forgotten.saturating_add(given.len() as u64);
        }
    }

    /// So many of the recent octets, the first ones, are forgotten.
    fn forget(&mut self, count: usize)
        ensures { self.new.reader ≡ self.old.reader }
    {
        let start = count.min(self.recent.len());
        self.recent.drain(..start);
        self.forgotten = self.forgotten.saturating_add(start as u64);
    }
}

impl<R: Read> Read for Recalling<R> {
    ghost remaining = { λ recalling. R.remaining recalling.reader };

    fn read(&mut self, buf: &mut [u8]) -> io::Result<usize> {
        let count = self.reader.read(buf)?;
        self.keep(buf.get(..count).unwrap_or(&[]));
        Ok(count)
    }
}
