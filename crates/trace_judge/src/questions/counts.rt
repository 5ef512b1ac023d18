//! What is asked of the past when a transfer begins or a flow is written: windows, credits, and what waits.

use crate::questions::History;
use capture_form::RuleSet;
use trace_events::{Link, Session};

/// What is asked of the past when a transfer begins or a flow is written: windows, credits, and what waits.
///
/// What takes a session or a link is asked of a live one alone.
pub trait Counts: History {
    ghost use Rattle.capture_form.specs.Rules.{RuleSet};
    ghost use Rattle.std.specs.Prelude.{List, ◌≡◌};
    ghost use Rattle.trace_events.specs.Address as addresses;
    ghost use Rattle.trace_events.specs.Credit as credits;
    ghost use Rattle.trace_events.specs.Due as due;
    ghost use Rattle.trace_events.specs.Outgoing as sent;
    ghost use Rattle.trace_events.specs.Waiting as waiting;
    ghost use Rattle.trace_events.specs.Window as windows;
    ghost use Rattle.trace_events.specs.Session.{IsLiveOn};
    ghost use Rattle.trace_events.specs.Link.{IsLiveLink};
    ghost use Rattle.trace_events.specs.View.{Events, link_view};

    /// How many transfers may still be sent on the session.
    fn session_window(&self, session: Session) -> u32
        ensures { (rules : RuleSet) (history : Events) → Self.stands_for self.now rules history → IsLiveOn session history →
            (result ≡ windows.session_window session history) };

    /// The id of the router's next transfer on the session.
    fn next_outgoing_id(&self, session: Session) -> u32
        ensures { (rules : RuleSet) (history : Events) → Self.stands_for self.now rules history → IsLiveOn session history →
            (result ≡ windows.next_outgoing_id session history) };

    /// The id of the client's next transfer on the session.
    fn next_incoming_id(&self, session: Session) -> u32
        ensures { (rules : RuleSet) (history : Events) → Self.stands_for self.now rules history → IsLiveOn session history →
            (result ≡ windows.next_incoming_id session history) };

    /// The id of the session's next delivery to the client.
    fn next_delivery_id(&self, session: Session) -> u32
        ensures { (rules : RuleSet) (history : Events) → Self.stands_for self.now rules history → IsLiveOn session history →
            (result ≡ sent.next_delivery_id session history) };

    /// How many deliveries may still begin on a consumer's link.
    fn link_credit(&self, link: &Link) -> u32
        ensures { (rules : RuleSet) (history : Events) → Self.stands_for self.now rules history → IsLiveLink (link_view link.now) history →
            (result ≡ credits.link_credit (link_view link.now) history) };

    /// A consumer's link's delivery-count.
    fn delivery_count(&self, link: &Link) -> u32
        ensures { (rules : RuleSet) (history : Events) → Self.stands_for self.now rules history → IsLiveLink (link_view link.now) history →
            (result ≡ credits.delivery_count (link_view link.now) history) };

    /// The client's last flow with a link-credit asks to drain.
    fn is_draining(&self, link: &Link) -> bool
        ensures { (rules : RuleSet) (history : Events) → Self.stands_for self.now rules history → IsLiveLink (link_view link.now) history →
            (result ≡ credits.is_draining (link_view link.now) history) };

    /// A producer's link's delivery-count.
    fn received_count(&self, link: &Link) -> u32
        ensures { (rules : RuleSet) (history : Events) → Self.stands_for self.now rules history → IsLiveLink (link_view link.now) history →
            (result ≡ credits.received_count (link_view link.now) history) };

    /// How many deliveries of a producer's link are not decided.
    fn undecided_count(&self, rules: &RuleSet, link: &Link) -> u64
        requires few { Self.is_short self.now }
        ensures { (history : Events) → Self.stands_for self.now rules.now history → IsLiveLink (link_view link.now) history →
            (result ≡ waiting.undecided_count rules.now (link_view link.now) history) };

    /// A link of a consumer of the address lives.
    fn has_consumer(&self, address: &[u8]) -> bool
        ensures { (rules : RuleSet) (history : Events) → Self.stands_for self.now rules history → (result ≡ addresses.has_consumer address.now history) };

    /// A delivery waits at the address.
    fn has_waiting(&self, rules: &RuleSet, address: &[u8]) -> bool
        ensures { (history : Events) → Self.stands_for self.now rules.now history → (result ≡ waiting.has_waiting rules.now address.now history) };

    /// A copy of a multicast delivery is due to the link, and not sent.
    fn has_unsent(&self, rules: &RuleSet, link: &Link) -> bool
        requires few { Self.is_short self.now }
        ensures { (history : Events) → Self.stands_for self.now rules.now history → IsLiveLink (link_view link.now) history →
            (result ≡ due.has_unsent rules.now (link_view link.now) history) };
}
