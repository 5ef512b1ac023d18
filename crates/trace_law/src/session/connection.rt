//! A connection's opening and end, and the longest frame that is written on it (part 2 of the standard, section 2.4).

use crate::past::Past;
use amqp_perf::Open;
use flow_counts::{MAX_FRAME_SIZE, MIN_MAX_FRAME_SIZE};

impl<'p, 'a> Past<'p, 'a> {
    ghost use Rattle.std.specs.Prelude.{◌≡◌, option_map};
    ghost use Rattle.amqp_perf.specs.View.{open_fields};
    ghost use Rattle.trace_events.specs.Connection as law;
    ghost use Rattle.trace_events.specs.Connection.{was_finished, was_stopped, has_out_frame};
    ghost use Rattle.trace_law.specs.OnStack.{events};

    /// The connection is over.
    pub(crate) fn is_over(&self, connection: u32) -> bool
        ensures { result ≡ law.is_over connection (events self.now) }
    {
        let mut rest = self;
        while let Past::After(event, earlier) = rest {
            if event.moment.is_final() && event.connection == connection {
                return true;
            }
            rest = *earlier;
        }
        false
    }

    /// The client's AMQP header was accepted.
    pub(crate) fn was_opened(&self, connection: u32) -> bool
        ensures { result ≡ law.was_opened connection (events self.now) }
    {
        let mut rest = self;
        while let Past::After(event, earlier) = rest {
            if event.moment.is_opened() && event.connection == connection {
                return true;
            }
            rest = *earlier;
        }
        false
    }

    /// An open of the client stands, heard or not.
    pub(crate) fn has_in_open(&self, connection: u32) -> bool
        ensures { result ≡ law.has_in_open connection (events self.now) }
    {
        let mut rest = self;
        while let Past::After(event, earlier) = rest {
            if event.in_open().is_some() && event.connection == connection {
                return true;
            }
            rest = *earlier;
        }
        false
    }

    /// The device was lost, or a close was written.
    pub(crate) fn was_finished(&self, connection: u32) -> bool
        ensures { result ≡ was_finished connection (events self.now) }
    {
        let mut rest = self;
        while let Past::After(event, earlier) = rest {
            if (event.moment.is_lost() || event.is_out_close()) && event.connection == connection {
                return true;
            }
            rest = *earlier;
        }
        false
    }

    /// The client closed, or its octets stopped being frames.
    pub(crate) fn was_stopped(&self, connection: u32) -> bool
        ensures { result ≡ was_stopped connection (events self.now) }
    {
        let mut rest = self;
        while let Past::After(event, earlier) = rest {
            if (event.moment.is_broken() || event.is_in_close()) && event.connection == connection {
                return true;
            }
            rest = *earlier;
        }
        false
    }

    /// A frame was written.
    pub(crate) fn has_out_frame(&self, connection: u32) -> bool
        ensures { result ≡ has_out_frame connection (events self.now) }
    {
        let mut rest = self;
        while let Past::After(event, earlier) = rest {
            if event.moment.is_out() && event.connection == connection {
                return true;
            }
            rest = *earlier;
        }
        false
    }

    /// The client's first open.
    fn first_open(&self, connection: u32) -> Option<Open<'a>>
        ensures { option_map open_fields result ≡ law.first_open connection (events self.now) }
    {
        match self {
            Past::Start => None,
            Past::After(event, earlier) => match earlier.first_open(connection) {
                Some(open) => Some(open),
                None if event.connection == connection => event.in_open(),
                None => None,
            },
        }
    }

    /// The longest frame that may be written, in octets: by the client's first open, and the least before it.
    pub(crate) fn frame_limit(&self, connection: u32) -> u32
        ensures { result ≡ law.frame_limit connection (events self.now) }
    {
        match self.first_open(connection) {
            Some(open) => open
                .frame_limit()
                .min(MAX_FRAME_SIZE)
                .max(MIN_MAX_FRAME_SIZE),
            None => MIN_MAX_FRAME_SIZE,
        }
    }
}
