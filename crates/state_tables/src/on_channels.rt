//! What stands on the channels of a connection: live sessions, and what is still to be answered (part 2 of the standard,
//! section 2.5).

ghost use Rattle.std.specs.Prelude.{◌≡◌, ℕ, ◌==◌, ◌<◌, None, false, true, OnOk, OnErr, if◌then◌else◌};
ghost use Rattle.indexmap.specs.IndexMap.{spare};
ghost use Rattle.state_tables.specs.Connections.{AreFull, AreSameAmong, HasNone, TakesAmong, session_among, unanswered_among};
ghost use Rattle.state_tables.specs.Entries.{capped, entries_among};
ghost use Rattle.state_counts.specs.Sessions.{opens_or_ends};
ghost use Rattle.state_tables.specs.Unanswered.{nothing};
ghost use Rattle.trace_events.specs.View.{event_view};

use crate::unanswered::Unanswered;
use number_map::NumberMap;
use state_counts::{CountedSession, opens_or_ends, session_after};
use std::alloc::{AllocError, Global};
use trace_events::Event;

/// The live sessions of a connection, and what is still to be answered on its channels; of a channel with neither there is no
/// entry.
#[doc(hidden)]
#[derive(Drop)]
pub struct OnChannels {
    sessions: NumberMap<u16, CountedSession>,
    unanswered: NumberMap<u16, Unanswered>,
}

impl OnChannels {
    /// Nothing stands on any channel.
    pub(crate) fn new(alloc: Global) -> OnChannels
        ensures { HasNone result }
    {
        OnChannels {
            sessions: NumberMap::new(alloc),
            unanswered: NumberMap::new(alloc),
        }
    }

    /// The live session of the channel.
    pub(crate) fn session(&self, channel: u16) -> Option<CountedSession>
        ensures { result ≡ session_among self.now channel }
    {
        self.sessions.get(&channel).copied()
    }

    /// What of the channel is still to be answered.
    pub(crate) fn unanswered(&self, channel: u16) -> Unanswered
        ensures { result ≡ unanswered_among self.now channel }
    {
        match self.unanswered.get(&channel) {
            Some(unanswered) => *unanswered,
            None => Unanswered::nothing(),
        }
    }

    /// Something is still to be answered on a channel.
    pub(crate) fn has_unanswered(&self) -> bool
        ensures { result ≡ false → (n : ℕ) → unanswered_among self.now n ≡ nothing }
    {
        self.unanswered.len() != 0
    }

    /// How many entries there are; the greatest number where there are more.
    pub(crate) fn entries(&self) -> usize
        ensures { result ≡ capped (entries_among self.now) }
    {
        let mut count = self.sessions.len();
        for unanswered in self.unanswered.values().as_slice() {
            count = count.saturating_add(unanswered.entries());
        }
        count
    }

    /// No session is live any more.
    pub(crate) fn end_sessions(&mut self, alloc: Global)
        ensures sessions { (n : ℕ) → session_among self.new n ≡ None }
        ensures unanswered { self.new.unanswered ≡ self.old.unanswered }
    {
        self.sessions = NumberMap::new(alloc);
    }

    /// The event stands on the channel.
    ///
    /// # Errors
    ///
    /// Memory was refused, for a begin or an end and a table that was full; then all stays as it was.
    pub(crate) fn take(&mut self, channel: u16, event: &Event) -> Result<(), AllocError>
        ensures taken { OnOk result (TakesAmong channel (event_view event.now) self.old self.new) }
        ensures unchanged { OnErr result (AreSameAmong self.old self.new) }
        ensures full { OnErr result ((opens_or_ends (event_view event.now) ≡ true) × AreFull self.old) }
    {
        if opens_or_ends(event) {
            return self.open_or_end(channel, event);
        }
        if let Some(session) = self.sessions.get_mut(&channel) {
            *session = session.after(event);
        }
        Ok(())
    }

    /// The event begins or ends a session on the channel, or asks for it.
    fn open_or_end(&mut self, channel: u16, event: &Event) -> Result<(), AllocError>
        ensures taken { OnOk result (TakesAmong channel (event_view event.now) self.old self.new) }
        ensures unchanged { OnErr result (AreSameAmong self.old self.new) }
        ensures full { OnErr result (AreFull self.old) }
    {
        self.sessions.reserve(1)?;
        self.unanswered.reserve(1)?;
        let session = session_after(self.session(channel), event);
        let unanswered = self.unanswered(channel).after(event);
        self.put_session(channel, session);
        self.put_unanswered(channel, unanswered);
        Ok(())
    }

    /// The session of the channel is this one.
    fn put_session(&mut self, channel: u16, session: Option<CountedSession>)
        requires room { 0 < spare self.old.sessions }
        ensures put { (n : ℕ) → session_among self.new n ≡ (if channel == n then session else session_among self.old n) }
        ensures unanswered { self.new.unanswered ≡ self.old.unanswered }
    {
        match session {
            Some(counted) => {
                // The room is reserved.
                let _ = self.sessions.insert(channel, counted).unwrap();
            }
            None => {
                self.sessions.swap_remove(&channel);
            }
        }
    }

    /// This is still to be answered on the channel.
    fn put_unanswered(&mut self, channel: u16, unanswered: Unanswered)
        requires room { 0 < spare self.old.unanswered }
        ensures put { (n : ℕ) → unanswered_among self.new n ≡ (if channel == n then unanswered else unanswered_among self.old n) }
        ensures sessions { self.new.sessions ≡ self.old.sessions }
    {
        if unanswered.is_nothing() {
            self.unanswered.swap_remove(&channel);
        } else {
            // The room is reserved.
            let _ = self.unanswered.insert(channel, unanswered).unwrap();
        }
    }
}
