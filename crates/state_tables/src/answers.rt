//! Answers to questions about the past, as far as connections and their sessions go: each as the questions of `trace_judge`
//! ask it.

ghost use Rattle.std.specs.Prelude.{◌≡◌, true};
ghost use Rattle.trace_events.specs.Connection as connections;
ghost use Rattle.trace_events.specs.Session as sessions;
ghost use Rattle.trace_events.specs.Session.{IsLiveOn};
ghost use Rattle.trace_events.specs.Outgoing.{next_delivery_id};
ghost use Rattle.trace_events.specs.Window as windows;
ghost use Rattle.state_tables.specs.Connections.{AreKept};
ghost use Rattle.trace_events.specs.View.{Events};

use crate::connections::Connections;
use amqp_perf::Begin;
use trace_events::Session;

impl Connections {
    /// The connection is lost or broken, or a close in either direction stands.
    pub fn is_over(&self, connection: u32) -> bool
        ensures { (history : Events) → AreKept self.now history → result ≡ connections.is_over connection history }
    {
        self.seen(connection).is_over
    }

    /// An open of the client's stands, heard or not.
    pub fn has_in_open(&self, connection: u32) -> bool
        ensures { (history : Events) → AreKept self.now history → result ≡ connections.has_in_open connection history }
    {
        self.seen(connection).has_in_open
    }

    /// The session that lives on the channel. `None` where none does.
    #[tactic(auto, using(crate::proofs::LiveEntries::live_is))]
    pub fn live_session(&self, connection: u32, channel: u16) -> Option<Session>
        ensures { (history : Events) → AreKept self.now history → result ≡ sessions.live_session connection channel history }
    {
        Some(self.session(connection, channel)?.session)
    }

    /// How many transfers may still be sent on a live session.
    #[tactic(auto, using(crate::proofs::LiveEntries::counts_live))]
    pub fn session_window(&self, session: Session) -> u32
        ensures { (history : Events) → AreKept self.now history → IsLiveOn session history →
            result ≡ windows.session_window session history }
    {
        match self.session(session.connection, session.channel) {
            Some(live) => live.window,
            None => 0,
        }
    }

    /// How many transfers the client may still send on a live session.
    #[tactic(auto, using(crate::proofs::LiveEntries::counts_live))]
    pub fn given_window(&self, session: Session) -> u32
        ensures { (history : Events) → AreKept self.now history → IsLiveOn session history →
            result ≡ windows.given_window session history }
    {
        match self.session(session.connection, session.channel) {
            Some(live) => live.given_window,
            None => 0,
        }
    }

    /// The id of the router's next transfer on a live session.
    #[tactic(auto, using(crate::proofs::LiveEntries::counts_live))]
    pub fn next_outgoing_id(&self, session: Session) -> u32
        ensures { (history : Events) → AreKept self.now history → IsLiveOn session history →
            result ≡ windows.next_outgoing_id session history }
    {
        match self.session(session.connection, session.channel) {
            Some(live) => live.next_outgoing_id,
            None => 0,
        }
    }

    /// The id of the client's next transfer on a live session.
    #[tactic(auto, using(crate::proofs::LiveEntries::counts_live))]
    pub fn next_incoming_id(&self, session: Session) -> u32
        ensures { (history : Events) → AreKept self.now history → IsLiveOn session history →
            result ≡ windows.next_incoming_id session history }
    {
        match self.session(session.connection, session.channel) {
            Some(live) => live.next_incoming_id,
            None => 0,
        }
    }

    /// The id of the next delivery to the client on a live session.
    #[tactic(auto, using(crate::proofs::LiveEntries::counts_live))]
    pub fn next_delivery_id(&self, session: Session) -> u32
        ensures { (history : Events) → AreKept self.now history → IsLiveOn session history →
            result ≡ next_delivery_id session history }
    {
        match self.session(session.connection, session.channel) {
            Some(live) => live.next_delivery_id,
            None => 0,
        }
    }

    /// The router has ended the channel's session, and the client hasn't.
    pub fn awaits_end(&self, connection: u32, channel: u16) -> bool
        ensures { (history : Events) → AreKept self.now history → result ≡ sessions.awaits_end connection channel history }
    {
        self.unanswered(connection, channel).awaits_end
    }

    /// An end of the client's on the channel is still to be answered.
    pub fn owes_end(&self, connection: u32, channel: u16) -> bool
        ensures { (history : Events) → AreKept self.now history → result ≡ sessions.owes_end connection channel history }
    {
        self.unanswered(connection, channel).owes_end
    }

    /// The client's last begin on the channel, where one is still to be answered.
    #[tactic(auto, using(crate::proofs::LiveEntries::begin_last))]
    pub fn last_in_begin(&self, connection: u32, channel: u16) -> Option<Begin>
        ensures { (history : Events) → AreKept self.now history → sessions.has_unanswered_begin connection channel history ≡ true →
            result ≡ sessions.last_in_begin connection channel history }
    {
        self.unanswered(connection, channel).begin
    }

    /// A begin of the client's on the channel is still to be answered.
    #[tactic(auto, using(crate::proofs::LiveEntries::begin_known))]
    pub fn has_unanswered_begin(&self, connection: u32, channel: u16) -> bool
        ensures { (history : Events) → AreKept self.now history →
            result ≡ sessions.has_unanswered_begin connection channel history }
    {
        self.unanswered(connection, channel).begin.is_some()
    }
}
