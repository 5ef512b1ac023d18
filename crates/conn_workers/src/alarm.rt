//! What workers tell each other.

use std::sync::atomic::{AtomicBool, Ordering};

/// Whether a worker has stopped, so that the others need not serve on: the run has no report then. Why it has stopped it tells
/// itself.
#[derive(Drop)]
pub(crate) struct Alarm {
    is_raised: AtomicBool,
}

impl Alarm {
    /// No worker has stopped.
    pub(crate) fn new() -> Alarm {
        Alarm {
            is_raised: AtomicBool::new(false),
        }
    }

    /// Tells all workers that one has stopped.
    pub(crate) fn raise(&self) {
        self.is_raised.store(true, Ordering::SeqCst);
    }

    /// Whether a worker has stopped.
    pub(crate) fn is_raised(&self) -> bool {
        self.is_raised.load(Ordering::SeqCst)
    }
}
