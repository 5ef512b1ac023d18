//! The events before a record.

use trace_events::Event;

/// The events before a record, the newest first. Each stands in a call of its own, so none takes memory of the heap.
#[derive(Clone, Copy)]
pub(crate) enum Past<'p, 'a> {
    Start,
    After(Event<'a, 'p, 'a>, &'p Past<'p, 'a>),
}
