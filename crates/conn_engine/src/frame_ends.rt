//! Where the router's open and its close end among the octets that wait.

ghost use Rattle.std.specs.Prelude.{◌≡◌, ◌≤◌, drop, length};
ghost use Rattle.conn_engine.specs.FrameEnds.{first_at, frame_ends_at, frame_ends_left, left_of, no_frame_ends};
ghost use Rattle.conn_engine.specs.Said.{is_open, is_close};
ghost use Rattle.conn_engine.specs.Ticking.{is_given};

use crate::said::{is_close, is_open};

/// How many of the octets that wait are up to the end of the first open, and of the first close, where these were taken. They
/// are none once it was given.
#[derive(Clone, Copy, Debug, PartialEq, Eq)]
pub(crate) struct FrameEnds {
    pub(crate) opened: Option<usize>,
    pub(crate) closed: Option<usize>,
}

impl FrameEnds {
    /// Neither was taken.
    pub(crate) const fn new() -> FrameEnds
        ensures { result ≡ no_frame_ends }
    {
        FrameEnds {
            opened: None,
            closed: None,
        }
    }

    /// Where the octets that wait have a frame behind the first ones.
    pub(crate) fn with_frame(self, waiting: &[u8], before: usize) -> FrameEnds
        requires { before ≤ length waiting.now }
        ensures { result ≡ frame_ends_at self before (drop before waiting.now) }
    {
        FrameEnds {
            opened: opened_at(self.opened, waiting, before),
            closed: closed_at(self.closed, waiting, before),
        }
    }

    /// Where the first `n` octets were given.
    pub(crate) fn left(self, n: usize) -> FrameEnds
        ensures { result ≡ frame_ends_left self n }
    {
        FrameEnds {
            opened: left_of(self.opened, n),
            closed: left_of(self.closed, n),
        }
    }

    /// Whether the open was given.
    pub(crate) fn is_open_given(self) -> bool
        ensures { result ≡ is_given self.opened }
    {
        match self.opened {
            Some(left) => left == 0,
            None => false,
        }
    }
}

/// Where the first open ends, if there is one, where the octets that wait have a frame behind the first ones.
fn opened_at(opened: Option<usize>, waiting: &[u8], before: usize) -> Option<usize>
    requires { before ≤ length waiting.now }
    ensures { result ≡ first_at is_open opened before (drop before waiting.now) }
{
    if opened.is_some() {
        return opened;
    }
    is_open(&waiting[before..]).then_some(waiting.len())
}

/// Where the first close ends, if there is one, where the octets that wait have a frame behind the first ones.
fn closed_at(closed: Option<usize>, waiting: &[u8], before: usize) -> Option<usize>
    requires { before ≤ length waiting.now }
    ensures { result ≡ first_at is_close closed before (drop before waiting.now) }
{
    if closed.is_some() {
        return closed;
    }
    is_close(&waiting[before..]).then_some(waiting.len())
}

/// How many of the octets that still wait are up to such an end, where the first `n` were given.
fn left_of(end: Option<usize>, n: usize) -> Option<usize>
    ensures { result ≡ left_of end n }
{
    match end {
        Some(end) => Some(end.saturating_sub(n)),
        None => None,
    }
}
