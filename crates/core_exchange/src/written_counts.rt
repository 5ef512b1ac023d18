//! How many frames were written, by connection, to be looked at without the core's lock.

use capture_form::{Record, What};
use std::alloc::{AllocError, Global};
use std::sync::atomic::{AtomicU64, Ordering};

/// How many counts there are: 8 KiB of them. Of more connections, some share one.
const COUNTS: usize = 1024;

/// Counts of the frames that a core wrote. Whoever found no more frames at some count will find none while it stands: so a
/// port that waits for frames asks for the lock only where there may be one.
#[derive(Drop)]
pub(crate) struct WrittenCounts {
    counts: Vec<AtomicU64>,
}

impl WrittenCounts {
    /// Counts of nothing.
    ///
    /// # Errors
    ///
    /// Where memory is refused.
    pub(crate) fn new(alloc: Global) -> Result<WrittenCounts, AllocError> {
        let mut counts = Vec::new(alloc);
        for _ in 0..COUNTS {
            counts.push(AtomicU64::new(0))?;
        }
        Ok(WrittenCounts { counts })
    }

    /// Counts the frames that these records write.
    pub(crate) fn note(&self, records: &[Record]) {
        for entry in records {
            if matches!(&entry.what, What::Out(_)) {
                if let Some(count) = self.count_of(entry.connection) {
                    count.fetch_add(1, Ordering::SeqCst);
                }
            }
        }
    }

    /// What is counted of the connection, and of those that share its count.
    pub(crate) fn mark_of(&self, conn: u32) -> u64 {
        match self.count_of(conn) {
            Some(count) => count.load(Ordering::SeqCst),
            None => 0,
        }
    }

    fn count_of(&self, conn: u32) -> Option<&AtomicU64> {
        self.counts.get(conn as usize % COUNTS)
    }
}
