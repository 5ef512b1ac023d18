//! What the owner of a router tells all of its gates.

use std::sync::atomic::{AtomicBool, AtomicU64, Ordering};

/// The moment, whether the octets of clients are read, and how many were moved. One thread alone writes and reads it; its gates are
/// owned elsewhere, so that it is shared.
#[derive(Drop)]
pub(crate) struct Notice {
    // In milliseconds from some start.
    moment: AtomicU64,
    // No octets are read now.
    is_held: AtomicBool,
    // None are read any more.
    is_over: AtomicBool,
    // How many octets were read and written, of all clients, counted in 64 bits.
    moved: AtomicU64,
}

impl Notice {
    /// Octets are read.
    pub(crate) const fn new() -> Notice {
        Notice {
            moment: AtomicU64::new(0),
            is_held: AtomicBool::new(false),
            is_over: AtomicBool::new(false),
            moved: AtomicU64::new(0),
        }
    }

    /// The moment, in milliseconds from some start.
    pub(crate) fn moment(&self) -> u64 {
        self.moment.load(Ordering::SeqCst)
    }

    /// Whether no octets are read now.
    pub(crate) fn is_held(&self) -> bool {
        self.is_held.load(Ordering::SeqCst)
    }

    /// Whether none are read any more, and each gate is to say that it has ended.
    pub(crate) fn is_over(&self) -> bool {
        self.is_over.load(Ordering::SeqCst)
    }

    /// How many octets were read and written, of all clients, counted in 64 bits.
    pub(crate) fn moved(&self) -> u64 {
        self.moved.load(Ordering::SeqCst)
    }

    /// So many octets more were read or written.
    pub(crate) fn count_moved(&self, octets: usize) {
        self.moved.fetch_add(octets as u64, Ordering::SeqCst);
    }

    /// This is the moment.
    pub(crate) fn tell_moment(&self, millis: u64) {
        self.moment.store(millis, Ordering::SeqCst);
    }

    /// No octets are read from now on, or they are again.
    pub(crate) fn hold(&self, is_held: bool) {
        self.is_held.store(is_held, Ordering::SeqCst);
    }

    /// None are read any more.
    pub(crate) fn end(&self) {
        self.is_over.store(true, Ordering::SeqCst);
    }
}
