//! What is asked of the past when the router opens a connection, a session or a link, or ends one.

use crate::questions::History;
use amqp_perf::Begin;
use trace_events::{Asking, Session};

/// What is asked of the past when the router opens a connection, a session or a link, or ends one.
///
/// What takes a session is asked of a live one alone.
pub trait Openings<'a>: History {
    ghost use Rattle.capture_form.specs.Rules.{RuleSet};
    ghost use Rattle.std.specs.Prelude.{List, ◌≡◌, option_map};
    ghost use Rattle.trace_events.specs.LinkClause as attaches;
    ghost use Rattle.trace_events.specs.Connection as connections;
    ghost use Rattle.trace_events.specs.Link as links;
    ghost use Rattle.trace_events.specs.Session as sessions;
    ghost use Rattle.trace_events.specs.Session.{IsLiveOn};
    ghost use Rattle.trace_events.specs.Answering.{their_first_count};
    ghost use Rattle.trace_events.specs.View.{Events, asking_view};

    /// The connection was opened.
    fn was_opened(&self, connection: u32) -> bool
        ensures { (rules : RuleSet) (history : Events) → Self.stands_for self.now rules history → (result ≡ connections.was_opened connection history) };

    /// It is lost, or the router has closed it.
    fn was_finished(&self, connection: u32) -> bool
        ensures { (rules : RuleSet) (history : Events) → Self.stands_for self.now rules history → (result ≡ connections.was_finished connection history) };

    /// A close of the client's or a broken stands.
    fn was_stopped(&self, connection: u32) -> bool
        ensures { (rules : RuleSet) (history : Events) → Self.stands_for self.now rules history → (result ≡ connections.was_stopped connection history) };

    /// A frame was written on it.
    fn has_out_frame(&self, connection: u32) -> bool
        ensures { (rules : RuleSet) (history : Events) → Self.stands_for self.now rules history → (result ≡ connections.has_out_frame connection history) };

    /// A begin of the client's on the channel is still to be answered.
    fn has_unanswered_begin(&self, connection: u32, channel: u16) -> bool
        ensures { (rules : RuleSet) (history : Events) → Self.stands_for self.now rules history →
            (result ≡ sessions.has_unanswered_begin connection channel history) };

    /// The client's last begin on the channel, where it is known.
    fn last_in_begin(&self, connection: u32, channel: u16) -> Option<Begin>
        ensures { (rules : RuleSet) (history : Events) → Self.stands_for self.now rules history → Self.knows_begin self.now connection channel history →
            (result ≡ sessions.last_in_begin connection channel history) };

    /// An end of the client's on the channel is still to be answered.
    fn owes_end(&self, connection: u32, channel: u16) -> bool
        ensures { (rules : RuleSet) (history : Events) → Self.stands_for self.now rules history → (result ≡ sessions.owes_end connection channel history) };

    /// The initial-delivery-count of the client's last attach of the handle, where it is known; 0 where it has none.
    fn last_first_count(&self, session: Session, handle: u32) -> u32
        ensures { (rules : RuleSet) (history : Events) → Self.stands_for self.now rules history → IsLiveOn session history →
            Self.knows_attach self.now session handle history → (result ≡ their_first_count (links.last_in_attach session handle history)) };

    /// What an attach of the client's asks for that is still to be answered.
    fn asking(&self, session: Session, handle: u32) -> Option<Asking<'a>>
        ensures { (rules : RuleSet) (history : Events) → Self.stands_for self.now rules history → IsLiveOn session history →
            (option_map asking_view result ≡ attaches.asking session handle history) };

    /// A detach of the client's, or an attach of its that was refused, is still to be answered.
    fn owes_detach(&self, session: Session, handle: u32) -> bool
        ensures { (rules : RuleSet) (history : Events) → Self.stands_for self.now rules history → IsLiveOn session history →
            (result ≡ links.owes_detach session handle history) };
}
