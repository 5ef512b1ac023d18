//! A connection: whether it is opened, over, closed from either end, how long a frame may be (part 2 of the standard,
//! section 2.4), and what stands on its channels.

ghost use Rattle.std.specs.Prelude.{◌≡◌, ℕ, None, true, IsTrue, OnOk, OnErr};
ghost use Rattle.state_tables.specs.Connections.{IsBare, IsFull, IsSame, Takes, TakesOn, fresh, seen_next, session_on, unanswered_on};
ghost use Rattle.state_tables.specs.Entries.{capped, entries_of_connection};
ghost use Rattle.state_counts.specs.Sessions.{opens_or_ends};
ghost use Rattle.trace_events.specs.View.{event_view};

use crate::on_channels::OnChannels;
use crate::unanswered::Unanswered;
use flow_counts::{MAX_FRAME_SIZE, MIN_MAX_FRAME_SIZE};
use number_runs::RunValue;
use state_counts::{CountedSession, opens_or_ends};
use std::alloc::{AllocError, Global};
use trace_events::Event;

/// What a connection has come to.
#[derive(Clone, Copy, Debug, PartialEq, Eq)]
pub struct ConnectionSummary {
    /// A close in either direction, a lost or a broken stands. A client's record whose octets are no frame is a fault, and
    /// ends nothing by itself.
    pub is_over: bool,
    /// The connection was opened.
    pub was_opened: bool,
    /// It is lost, or the router has closed it.
    pub was_finished: bool,
    /// A close of the client's or a broken stands.
    pub was_stopped: bool,
    /// A frame was written.
    pub has_out_frame: bool,
    /// An open of the client's stands.
    pub has_in_open: bool,
    /// The longest frame that may be written, in octets.
    pub frame_limit: u32,
}

impl ConnectionSummary {
    /// Before its first record.
    pub(crate) fn new() -> ConnectionSummary
        ensures { result ≡ fresh }
    {
        ConnectionSummary {
            is_over: false,
            was_opened: false,
            was_finished: false,
            was_stopped: false,
            has_out_frame: false,
            has_in_open: false,
            frame_limit: MIN_MAX_FRAME_SIZE,
        }
    }

    /// With one event more of the connection.
    pub fn after(self, event: &Event) -> ConnectionSummary
        ensures { result ≡ seen_next (event_view event.now) self }
    {
        ConnectionSummary {
            is_over: event.moment.is_final() | self.is_over,
            was_opened: event.moment.is_opened() | self.was_opened,
            was_finished: event.moment.is_lost() | event.is_out_close() | self.was_finished,
            was_stopped: event.moment.is_broken() | event.is_in_close() | self.was_stopped,
            has_out_frame: event.moment.is_out() | self.has_out_frame,
            has_in_open: event.in_open().is_some() | self.has_in_open,
            frame_limit: self.limit_after(event),
        }
    }

    /// The longest frame behind the event: the first open counts.
    fn limit_after(&self, event: &Event) -> u32
        ensures { result ≡ (seen_next (event_view event.now) self.now).frame_limit }
    {
        match event.in_open() {
            Some(open) if !self.has_in_open => open
                .frame_limit()
                .min(MAX_FRAME_SIZE)
                .max(MIN_MAX_FRAME_SIZE),
            _ => self.frame_limit,
        }
    }
}

impl RunValue for ConnectionSummary {
    fn is_same(self, other: ConnectionSummary) -> bool {
        self == other
    }
}

/// A connection, with what stands on its channels.
#[doc(hidden)]
#[derive(Drop)]
pub struct Connection {
    alloc: Global,
    seen: ConnectionSummary,
    /// None, so that the entry is small, before the first begin or end, and behind the connection's end unless something is
    /// still to be answered.
    channels: Option<Box<OnChannels>>,
}

impl Connection {
    /// It has come to this, and nothing stands on its channels.
    pub(crate) fn of(alloc: Global, seen: ConnectionSummary) -> Connection
        ensures { IsBare seen result }
    {
        Connection {
            alloc,
            seen,
            channels: None,
        }
    }

    /// What it has come to.
    pub(crate) fn seen(&self) -> ConnectionSummary
        ensures { result ≡ self.now.seen }
    {
        self.seen
    }

    /// Nothing stands on its channels.
    pub(crate) fn has_none(&self) -> bool
        ensures { IsTrue result → self.now.channels ≡ None }
    {
        self.channels.is_none()
    }

    /// The live session of the channel.
    pub(crate) fn session(&self, channel: u16) -> Option<CountedSession>
        ensures { result ≡ session_on self.now channel }
    {
        match &self.channels {
            Some(channels) => channels.session(channel),
            None => None,
        }
    }

    /// What of the channel is still to be answered.
    pub(crate) fn unanswered(&self, channel: u16) -> Unanswered
        ensures { result ≡ unanswered_on self.now channel }
    {
        match &self.channels {
            Some(channels) => channels.unanswered(channel),
            None => Unanswered::nothing(),
        }
    }

    /// How many entries it has, with those of its channels; the greatest number where there are more.
    pub(crate) fn entries(&self) -> usize
        ensures { result ≡ capped (entries_of_connection self.now) }
    {
        match &self.channels {
            Some(channels) => channels.entries().saturating_add(1),
            None => 1,
        }
    }

    /// The event follows those of the connection so far.
    ///
    /// # Errors
    ///
    /// Memory was refused, for a begin or an end, and a table that was full or was not there yet; then all stays as it was.
    pub(crate) fn take(&mut self, event: &Event) -> Result<(), AllocError>
        ensures taken { OnOk result (Takes (event_view event.now) self.old self.new) }
        ensures unchanged { OnErr result (IsSame self.old self.new) }
        ensures full { OnErr result ((opens_or_ends (event_view event.now) ≡ true) × IsFull self.old) }
    {
        if let Some(channel) = event.moment.channel() {
            self.take_on(channel, event)?;
        }
        self.seen = self.seen.after(event);
        if event.moment.is_final() {
            self.end_sessions();
        }
        Ok(())
    }

    /// The event stands on the channel.
    fn take_on(&mut self, channel: u16, event: &Event) -> Result<(), AllocError>
        ensures taken { OnOk result (TakesOn channel (event_view event.now) self.old self.new) }
        ensures unchanged { OnErr result (IsSame self.old self.new) }
        ensures full { OnErr result ((opens_or_ends (event_view event.now) ≡ true) × IsFull self.old) }
    {
        match &mut self.channels {
            Some(channels) => channels.take(channel, event),
            None if opens_or_ends(event) => self.take_first_on(channel, event),
            None => Ok(()),
        }
    }

    /// The event stands on the channel, and nothing on any channel before it.
    fn take_first_on(&mut self, channel: u16, event: &Event) -> Result<(), AllocError>
        requires none { self.old.channels ≡ None }
        ensures taken { OnOk result (TakesOn channel (event_view event.now) self.old self.new) }
        ensures unchanged { OnErr result (IsSame self.old self.new) }
    {
        let mut channels = OnChannels::new(self.alloc);
        channels.take(channel, event)?;
        self.channels = Some(Box::new(self.alloc, channels)?);
        Ok(())
    }

    /// No session is live any more; with nothing to be answered either, nothing stands on its channels.
    fn end_sessions(&mut self)
        ensures sessions { (n : ℕ) → session_on self.new n ≡ None }
        ensures unanswered { (n : ℕ) → unanswered_on self.new n ≡ unanswered_on self.old n }
        ensures seen { self.new.seen ≡ self.old.seen }
    {
        match &mut self.channels {
            Some(channels) if channels.has_unanswered() => channels.end_sessions(self.alloc),
            _ => self.channels = None,
        }
    }
}
