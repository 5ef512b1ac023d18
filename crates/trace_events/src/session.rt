//! A session, as the record of its begin tells it, and what begins and ends it (part 2 of the standard, section 2.5).

ghost use Rattle.std.specs.Prelude.{◌≡◌};
ghost use Rattle.trace_events.specs.Session.{new_session};

use crate::event::Event;
use amqp_perf::Begin;

/// A session, named by the record of its Out begin.
#[derive(Clone, Copy, Debug)]
pub struct Session {
    /// The number of that record.
    pub number: u64,
    /// The connection, by its number in the capture.
    pub connection: u32,
    /// The channel, the same in both directions.
    pub channel: u16,
    /// next-outgoing-id of the Out begin.
    pub our_first_id: u32,
    /// next-outgoing-id of the client's begin, 0 without one.
    pub their_first_id: u32,
    /// incoming-window of the client's begin, in transfers, 0 without one.
    pub their_window: u32,
}

impl Session {
    /// The session that an Out begin, in this record, begins; its opening is the client's last begin.
    pub fn new(
        number: u64,
        connection: u32,
        channel: u16,
        ours: Begin,
        theirs: Option<Begin>,
    ) -> Session
        ensures { result ≡ new_session number connection channel ours theirs }
    {
        let (their_first_id, their_window) = match theirs {
            Some(begin) => (begin.next_outgoing_id, begin.incoming_window),
            None => (0, 0),
        };
        Session {
            number,
            connection,
            channel,
            our_first_id: ours.next_outgoing_id,
            their_first_id,
            their_window,
        }
    }
}

impl<'a, 'r, 'm> Event<'a, 'r, 'm> {
    ghost use Rattle.std.specs.Prelude.{◌≡◌};
    ghost use Rattle.trace_events.specs.Session.{begins_in, begins_out, ends_in, ends_out};
    ghost use Rattle.trace_events.specs.Ends.{ends_session};
    ghost use Rattle.trace_events.specs.View.{event_view};

    /// A begin on the channel, from the client.
    pub fn begins_in(&self, connection: u32, channel: u16) -> bool
        ensures { result ≡ begins_in connection channel (event_view self.now) }
    {
        self.in_begin().is_some() && self.is_on_channel(connection, channel)
    }

    /// A begin on the channel, to the client.
    pub fn begins_out(&self, connection: u32, channel: u16) -> bool
        ensures { result ≡ begins_out connection channel (event_view self.now) }
    {
        self.out_begin().is_some() && self.is_on_channel(connection, channel)
    }

    /// An end on the channel, from the client.
    pub fn ends_in(&self, connection: u32, channel: u16) -> bool
        ensures { result ≡ ends_in connection channel (event_view self.now) }
    {
        self.is_in_end() && self.is_on_channel(connection, channel)
    }

    /// An end on the channel, to the client.
    pub fn ends_out(&self, connection: u32, channel: u16) -> bool
        ensures { result ≡ ends_out connection channel (event_view self.now) }
    {
        self.is_out_end() && self.is_on_channel(connection, channel)
    }

    /// The end of the session's connection, an end of its channel, or an Out begin there, which begins another.
    pub fn ends_session(&self, session: Session) -> bool
        ensures { result ≡ ends_session session (event_view self.now) }
    {
        self.moment.is_final() && self.connection == session.connection
            || (self.ends_in(session.connection, session.channel)
                || self.ends_out(session.connection, session.channel))
            || self.begins_out(session.connection, session.channel)
    }
}
