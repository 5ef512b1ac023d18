//! What is known of a socket since it was polled.

use mio::event::Event;
use std::sync::atomic::{AtomicBool, Ordering};

/// Whether a read or a write may do something. Polls report a change once, so a sign stands until a call has used up what
/// it told of.
#[derive(Drop)]
pub struct Signs {
    readable: AtomicBool,
    writable: AtomicBool,
    // The peer sends no more: behind all octets there is an end to be read, which is not reported again.
    ends: AtomicBool,
}

impl Signs {
    /// Those of a new socket, at which anything may be.
    pub const fn new() -> Signs {
        Signs {
            readable: AtomicBool::new(true),
            writable: AtomicBool::new(true),
            ends: AtomicBool::new(false),
        }
    }

    /// Whether there may be octets to read, or an end.
    pub(crate) fn may_read(&self) -> bool {
        self.readable.load(Ordering::SeqCst)
    }

    /// Whether there may be room to write.
    pub(crate) fn may_write(&self) -> bool {
        self.writable.load(Ordering::SeqCst)
    }

    /// All octets were read.
    pub(crate) fn octets_are_read(&self) {
        let ends = self.ends.load(Ordering::SeqCst);
        self.readable.store(ends, Ordering::SeqCst);
    }

    /// All room was used.
    pub(crate) fn room_is_used(&self) {
        self.writable.store(false, Ordering::SeqCst);
    }

    /// Notes what a poll reports.
    pub fn note(&self, event: &Event) {
        let fails = event.is_error();
        if fails || event.is_read_closed() {
            self.ends.store(true, Ordering::SeqCst);
        }
        if fails || event.is_readable() || event.is_read_closed() {
            self.readable.store(true, Ordering::SeqCst);
        }
        if fails || event.is_writable() || event.is_write_closed() {
            self.writable.store(true, Ordering::SeqCst);
        }
    }
}
