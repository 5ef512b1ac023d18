//! What of a channel is still to be answered (part 2 of the standard, section 2.5).

ghost use Rattle.std.specs.Prelude.{◌≡◌};
ghost use Rattle.state_tables.specs.Entries.{entries_unanswered};
ghost use Rattle.state_tables.specs.Unanswered.{begin_next, awaits_end_next, is_nothing, nothing, unanswered_next};
ghost use Rattle.trace_events.specs.View.{event_view};

use amqp_perf::Begin;
use trace_events::Event;

/// What of a channel is still to be answered, by the router or by its client.
#[derive(Clone, Copy, Debug, PartialEq, Eq)]
pub struct Unanswered {
    /// The client's last begin, where the router is still to answer one.
    pub begin: Option<Begin>,
    /// The client has ended a session, and the router hasn't.
    pub owes_end: bool,
    /// The router has ended a session, and the client hasn't.
    pub awaits_end: bool,
}

impl Unanswered {
    /// No begin, and no end.
    pub(crate) fn nothing() -> Unanswered
        ensures { result ≡ nothing }
    {
        Unanswered {
            begin: None,
            owes_end: false,
            awaits_end: false,
        }
    }

    /// No begin, and no end.
    pub(crate) fn is_nothing(&self) -> bool
        ensures { result ≡ is_nothing self.now }
    {
        self.begin.is_none() && !self.owes_end && !self.awaits_end
    }

    /// How many entries it has: a begin and an end that are to be answered, and an end that is awaited.
    pub(crate) fn entries(&self) -> usize
        ensures { result ≡ entries_unanswered self.now }
    {
        usize::from(self.begin.is_some())
            + usize::from(self.owes_end)
            + usize::from(self.awaits_end)
    }

    /// With one more event of the channel.
    pub fn after(self, event: &Event) -> Unanswered
        ensures { result ≡ unanswered_next (event_view event.now) self }
    {
        Unanswered {
            begin: self.begin_after(event),
            owes_end: !event.is_out_end()
                && (event.is_in_end() && event.session.is_some() || self.owes_end),
            awaits_end: self.awaits_end_after(event),
        }
    }

    fn begin_after(&self, event: &Event) -> Option<Begin>
        ensures { result ≡ begin_next (event_view event.now) self.now.begin }
    {
        if event.out_begin().is_some() {
            return None;
        }
        match event.in_begin() {
            Some(begin) if self.begin.is_some() || event.is_heard && event.fault.is_none() => Some(
                begin,
            ),
            _ => self.begin,
        }
    }

    fn awaits_end_after(&self, event: &Event) -> bool
        ensures { result ≡ awaits_end_next (event_view event.now) self.now.awaits_end }
    {
        if event.out_begin().is_some() || event.is_in_end() {
            false
        } else if event.is_out_end() {
            event.session.is_some()
        } else {
            self.awaits_end
        }
    }
}
