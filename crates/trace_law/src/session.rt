//! The session on a channel (part 2 of the standard, section 2.5).

mod connection;
mod window;

use crate::past::Past;
use amqp_perf::Begin;
use trace_events::Session;

impl<'p, 'a> Past<'p, 'a> {
    ghost use Rattle.std.specs.Prelude.{◌≡◌};
    ghost use Rattle.trace_events.specs.Session as law;
    ghost use Rattle.trace_events.specs.Session.{has_unanswered_begin, owes_end};
    ghost use Rattle.trace_law.specs.OnStack.{events};

    /// The client's last begin on the channel.
    pub(crate) fn last_in_begin(&self, connection: u32, channel: u16) -> Option<Begin>
        ensures { result ≡ law.last_in_begin connection channel (events self.now) }
    {
        let mut rest = self;
        while let Past::After(event, earlier) = rest {
            if event.begins_in(connection, channel) {
                return event.in_begin();
            }
            rest = *earlier;
        }
        None
    }

    /// The session of the channel's last Out begin, if no end in either direction stands there since.
    fn last_session(&self, connection: u32, channel: u16) -> Option<Session>
        ensures { result ≡ law.last_session connection channel (events self.now) }
    {
        let mut rest = self;
        while let Past::After(event, earlier) = rest {
            if event.ends_in(connection, channel) || event.ends_out(connection, channel) {
                return None;
            }
            if event.begins_out(connection, channel) {
                let theirs = earlier.last_in_begin(connection, channel);
                let ours = event.out_begin()?;
                return Some(Session::new(event.number, connection, channel, ours, theirs));
            }
            rest = *earlier;
        }
        None
    }

    /// The live session: that one, if the connection isn't over.
    pub(crate) fn live_session(&self, connection: u32, channel: u16) -> Option<Session>
        ensures { result ≡ law.live_session connection channel (events self.now) }
    {
        if self.is_over(connection) {
            None
        } else {
            self.last_session(connection, channel)
        }
    }

    /// The client hasn't ended the channel's last session.
    fn is_unended(&self, connection: u32, channel: u16) -> bool
        ensures { result ≡ law.is_unended connection channel (events self.now) }
    {
        let mut rest = self;
        while let Past::After(event, earlier) = rest {
            if event.begins_out(connection, channel) {
                return true;
            }
            if event.ends_in(connection, channel) {
                return false;
            }
            rest = *earlier;
        }
        false
    }

    /// The router has ended the channel's last session, and the client hasn't: its end is awaited.
    pub(crate) fn awaits_end(&self, connection: u32, channel: u16) -> bool
        ensures { result ≡ law.awaits_end connection channel (events self.now) }
    {
        let mut rest = self;
        while let Past::After(event, earlier) = rest {
            if event.begins_out(connection, channel) || event.ends_in(connection, channel) {
                return false;
            }
            if event.ends_out(connection, channel) {
                return earlier.is_unended(connection, channel);
            }
            rest = *earlier;
        }
        false
    }

    /// Since the channel's last Out begin a begin of the client stands there that was heard and had no fault.
    pub(crate) fn has_unanswered_begin(&self, connection: u32, channel: u16) -> bool
        ensures { result ≡ has_unanswered_begin connection channel (events self.now) }
    {
        let mut rest = self;
        while let Past::After(event, earlier) = rest {
            if event.begins_out(connection, channel) {
                return false;
            }
            if event.begins_in(connection, channel) && event.is_heard && event.fault.is_none() {
                return true;
            }
            rest = *earlier;
        }
        false
    }

    /// Since the last Out end of the channel the client has ended a session that was live.
    pub(crate) fn owes_end(&self, connection: u32, channel: u16) -> bool
        ensures { result ≡ owes_end connection channel (events self.now) }
    {
        let mut rest = self;
        while let Past::After(event, earlier) = rest {
            if event.ends_out(connection, channel) {
                return false;
            }
            if event.ends_in(connection, channel) && event.session.is_some() {
                return true;
            }
            rest = *earlier;
        }
        false
    }
}
