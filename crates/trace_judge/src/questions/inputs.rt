//! What is asked of the past when a client's frame is judged: whether it is heard, which fault it has, and the delivery that
//! it begins or goes on with.

use crate::questions::History;
use capture_form::RuleSet;
use trace_events::{Incoming, Link, Session};

/// What is asked of the past when a client's frame is judged: whether it is heard, which fault it has, and the delivery that
/// it begins or goes on with.
///
/// What takes a session or a link is asked of a live one alone, and what takes a delivery of one that is known.
pub trait Inputs<'a>: History {
    ghost use Rattle.capture_form.specs.Rules.{RuleSet};
    ghost use Rattle.std.specs.Prelude.{List, ◌≡◌, ◌+◌, IfSome, length, nat_lt, option_map};
    ghost use Rattle.trace_events.specs.Connection as connections;
    ghost use Rattle.trace_events.specs.Credit as credits;
    ghost use Rattle.trace_events.specs.Fault as faults;
    ghost use Rattle.trace_events.specs.Incoming as received;
    ghost use Rattle.trace_events.specs.Link as links;
    ghost use Rattle.trace_events.specs.Session as sessions;
    ghost use Rattle.trace_events.specs.Window as windows;
    ghost use Rattle.trace_events.specs.Session.{IsLiveOn};
    ghost use Rattle.trace_events.specs.Link.{IsLiveLink};
    ghost use Rattle.trace_events.specs.View.{Events, incoming_view, link_view};

    /// The connection is lost or broken, or a close in either direction stands.
    fn is_over(&self, connection: u32) -> bool
        ensures { (rules : RuleSet) (history : Events) → Self.stands_for self.now rules history → (result ≡ connections.is_over connection history) };

    /// An open of the client's stands, heard or not.
    fn has_in_open(&self, connection: u32) -> bool
        ensures { (rules : RuleSet) (history : Events) → Self.stands_for self.now rules history → (result ≡ connections.has_in_open connection history) };

    /// The session that lives on the channel.
    fn live_session(&self, connection: u32, channel: u16) -> Option<Session>
        ensures { (rules : RuleSet) (history : Events) → Self.stands_for self.now rules history → (result ≡ sessions.live_session connection channel history) };

    /// Since its last begin the router has ended the channel's session, and the client hasn't.
    fn awaits_end(&self, connection: u32, channel: u16) -> bool
        ensures { (rules : RuleSet) (history : Events) → Self.stands_for self.now rules history → (result ≡ sessions.awaits_end connection channel history) };

    /// The link that lives on the handle.
    fn session_link(&self, session: Session, handle: u32) -> Option<Link<'a>>
        ensures { (rules : RuleSet) (history : Events) → Self.stands_for self.now rules history → IsLiveOn session history →
            (option_map link_view result ≡ links.session_link session handle history) };

    /// Since its last attach, a refusal included, the router has detached the handle, and the client hasn't.
    fn awaits_detach(&self, session: Session, handle: u32) -> bool
        ensures { (rules : RuleSet) (history : Events) → Self.stands_for self.now rules history → IsLiveOn session history →
            (result ≡ links.awaits_detach session handle history) };

    /// How many transfers the client may still send on the session.
    fn given_window(&self, session: Session) -> u32
        ensures { (rules : RuleSet) (history : Events) → Self.stands_for self.now rules history → IsLiveOn session history →
            (result ≡ windows.given_window session history) };

    /// How many deliveries may still begin on a producer's link.
    fn given_credit(&self, link: &Link) -> u32
        ensures { (rules : RuleSet) (history : Events) → Self.stands_for self.now rules history → IsLiveLink (link_view link.now) history →
            (result ≡ credits.given_credit (link_view link.now) history) };

    /// The delivery of a producer's link whose last part hasn't come yet.
    fn incoming_in_progress(&self, link: &Link) -> Option<Incoming<'a>>
        ensures value { (rules : RuleSet) (history : Events) → Self.stands_for self.now rules history → IsLiveLink (link_view link.now) history →
            (option_map incoming_view result ≡ received.in_progress (link_view link.now) history) }
        ensures known { (rules : RuleSet) (history : Events) → Self.stands_for self.now rules history → IsLiveLink (link_view link.now) history →
            IfSome (option_map incoming_view result) (λ d. Self.knows_incoming self.now d history) };

    /// The delivery's payload with these octets behind it is longer than the limit.
    fn is_longer(&self, limit: u64, delivery: &Incoming, octets: &[u8]) -> bool
        ensures { (rules : RuleSet) (history : Events) → Self.stands_for self.now rules history → Self.knows_incoming self.now (incoming_view delivery.now) history →
            (result ≡ nat_lt limit (length (received.payload (incoming_view delivery.now) history) + length octets.now)) };

    /// A delivery of this id on the session is not decided yet.
    fn is_id_in_use(&self, rules: &RuleSet, session: Session, id: u32) -> bool
        ensures { (history : Events) → Self.stands_for self.now rules.now history → IsLiveOn session history →
            (result ≡ faults.is_id_in_use rules.now session id history) };
}
