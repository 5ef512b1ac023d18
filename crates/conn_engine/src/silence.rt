//! How long a client has heard nothing.

ghost use Rattle.std.specs.Prelude.{◌≡◌};
ghost use Rattle.conn_engine.specs.Silence.{empty_frame, is_due, no_silence, patience, silence_after, silence_given, since_after, time_out_at};

use crate::said::time_out_in;
use stream_reading::Event;

/// A frame without a body, on channel 0. It says that the router is still there.
pub const EMPTY_FRAME: [u8; 8] = [0, 0, 0, 8, 2, 0, 0, 0];

/// From which moment on nothing was given, as far as ticks have told.
#[derive(Clone, Copy, Debug, PartialEq, Eq)]
pub(crate) struct Silence {
    /// The moment from which on it is counted, in milliseconds, once there was a tick.
    pub(crate) since: Option<u64>,
    /// Whether octets were given since the tick before.
    pub(crate) is_broken: bool,
}

impl Silence {
    /// There was no tick.
    pub(crate) const fn new() -> Silence
        ensures { result ≡ no_silence }
    {
        Silence {
            since: None,
            is_broken: false,
        }
    }

    /// Whether an empty frame is due at a moment, for a client that bears a silence of so many milliseconds. It is clear where
    /// nothing waits to be given.
    pub(crate) fn is_due(self, is_clear: bool, patience: u64, moment: u64) -> bool
        ensures { result ≡ is_due self is_clear patience moment }
    {
        match self.since {
            None => false,
            Some(since) => {
                if self.is_broken {
                    false
                } else {
                    is_clear && patience <= moment.saturating_sub(since)
                }
            }
        }
    }

    /// Behind a tick at a moment, which may have placed an empty frame.
    pub(crate) fn after(self, is_placed: bool, moment: u64) -> Silence
        ensures { result ≡ silence_after self is_placed moment }
    {
        Silence {
            since: Some(since_after(self.since, self.is_broken || is_placed, moment)),
            is_broken: false,
        }
    }

    /// Where so many octets were given.
    pub(crate) fn given(self, n: usize) -> Silence
        ensures { result ≡ silence_given self n }
    {
        Silence {
            since: self.since,
            is_broken: self.is_broken || n > 0,
        }
    }
}

/// From which moment on a silence is counted. A moment before the one that was kept counts as that one.
fn since_after(since: Option<u64>, is_anew: bool, moment: u64) -> u64
    ensures { result ≡ since_after since is_anew moment }
{
    match since {
        None => moment,
        Some(since) => { if is_anew { since.max(moment) } else { since } }
    }
}

/// The silence that a client bears, in milliseconds, by the idle-time-out of its open: half of it, and one at least.
pub(crate) fn patience(time_out: Option<u32>) -> Option<u64>
    ensures { result ≡ patience time_out }
{
    match time_out {
        Some(time_out) => (time_out > 0).then_some((time_out as u64 / 2).max(1)),
        None => None,
    }
}

/// The idle-time-out of the first open of a client, behind a step more, once it came.
pub(crate) fn time_out_at(time_out: Option<u32>, event: Event, octets: &[u8]) -> Option<u32>
    ensures { result ≡ time_out_at time_out event octets.now }
{
    match time_out {
        Some(time_out) => Some(time_out),
        None => match event {
            Event::AmqpFrame => time_out_in(octets),
            Event::SaslHeader | Event::AnonymousInit | Event::AmqpHeader => None,
        },
    }
}
