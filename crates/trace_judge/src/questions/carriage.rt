//! What is asked of the past when a transfer carries an incoming delivery to a consumer.

use crate::questions::History;
use capture_form::RuleSet;
use pairing_cert::Note;
use trace_events::{Incoming, Link, Outgoing};

/// What is asked of the past when a transfer carries an incoming delivery to a consumer.
///
/// What takes a link is asked of a live one alone, and what takes a delivery of one that is known.
pub trait Carriage<'a>: History {
    ghost use Rattle.capture_form.specs.Rules.{RuleSet};
    ghost use Rattle.std.specs.Prelude.{List, ◌≡◌, ◌++◌, IfSome, Some, true, bytes_eq, option_map};
    ghost use Rattle.trace_events.specs.Due as due;
    ghost use Rattle.trace_events.specs.Incoming as received;
    ghost use Rattle.trace_events.specs.Outgoing as sent;
    ghost use Rattle.trace_events.specs.TransferClause as transfers;
    ghost use Rattle.trace_events.specs.Link.{IsLiveLink, is_consumer};
    ghost use Rattle.trace_events.specs.Known.{IsCarriedBy};
    ghost use Rattle.trace_events.specs.View.{Events, incoming_view, link_view, outgoing_view};

    /// The delivery of a consumer's link whose last part isn't written yet.
    fn outgoing_in_progress(&self, link: &Link) -> Option<Outgoing<'a>>
        ensures { (rules : RuleSet) (history : Events) → Self.stands_for self.now rules history → IsLiveLink (link_view link.now) history →
            (option_map outgoing_view result ≡ sent.in_progress (link_view link.now) history) };

    /// The incoming delivery that a note names, where it may go to consumers: it is complete, and not gone.
    fn to_carry(&self, rules: &RuleSet, note: Note) -> Option<Incoming<'a>>
        ensures value { (history : Events) → Self.stands_for self.now rules.now history → Self.is_whole self.now →
            (option_map incoming_view result ≡ transfers.to_carry rules.now note history) }
        ensures known { (history : Events) → Self.stands_for self.now rules.now history →
            IfSome (option_map incoming_view result) (λ d. Self.knows_incoming self.now d history) }
        // What is found is what the law finds, whatever has been let go.
        ensures found { (history : Events) → Self.stands_for self.now rules.now history →
            IfSome (option_map incoming_view result) (λ d. transfers.to_carry rules.now note history ≡ Some d) }
        // What the law finds is found, where it can tell of it.
        ensures all { (history : Events) → Self.stands_for self.now rules.now history →
            IfSome (transfers.to_carry rules.now note history) (λ d. Self.knows_incoming self.now d history → option_map incoming_view result ≡ Some d) };

    /// It is for this address: its link's, or where that has none its message's.
    fn is_for(&self, delivery: &Incoming, address: &[u8]) -> bool
        ensures { (rules : RuleSet) (history : Events) → Self.stands_for self.now rules history → Self.knows_incoming self.now (incoming_view delivery.now) history →
            (result ≡ bytes_eq (received.address_of (incoming_view delivery.now) history) address.now) };

    /// The incoming delivery that the last one begun on the link carries.
    fn carried_before(&self, link: &Link) -> Option<Incoming<'a>>
        ensures value { (rules : RuleSet) (history : Events) → Self.stands_for self.now rules history → Self.is_whole self.now → IsLiveLink (link_view link.now) history →
            (option_map incoming_view result ≡ transfers.carried_before (link_view link.now) history) }
        ensures last { (rules : RuleSet) (history : Events) → Self.stands_for self.now rules history → Self.keeps_last self.now history →
            IsLiveLink (link_view link.now) history → is_consumer (link_view link.now) ≡ true →
            (option_map incoming_view result ≡ transfers.carried_before (link_view link.now) history) }
        ensures known { (rules : RuleSet) (history : Events) → Self.stands_for self.now rules history → IsLiveLink (link_view link.now) history →
            IfSome (option_map incoming_view result) (λ d. Self.knows_incoming self.now d history) };

    /// The one was completed before the other.
    fn completed_before(&self, a: &Incoming, b: &Incoming) -> bool
        ensures { (rules : RuleSet) (history : Events) → Self.stands_for self.now rules history → Self.knows_incoming self.now (incoming_view a.now) history →
            Self.knows_incoming self.now (incoming_view b.now) history → (result ≡ received.completed_before (incoming_view a.now) (incoming_view b.now) history) };

    /// The payload of the outgoing delivery with these octets behind it are the first octets of the incoming one's, and all
    /// of it where no more follows; asked of an outgoing delivery that begins, or whose note names the incoming one.
    fn is_payload_so_far(
        &self,
        more: bool,
        delivery: &Incoming,
        outgoing: &Outgoing,
        octets: &'a [u8],
    ) -> bool
        ensures { (rules : RuleSet) (history : Events) → Self.stands_for self.now rules history → Self.knows_incoming self.now (incoming_view delivery.now) history →
            Self.knows_outgoing self.now (outgoing_view outgoing.now) history → IsCarriedBy (incoming_view delivery.now) history (outgoing_view outgoing.now) →
            (result ≡ transfers.is_payload_so_far more (received.payload (incoming_view delivery.now) history)
            (sent.payload (outgoing_view outgoing.now) history ++ octets.now)) };

    /// It went to a consumer, or began to.
    fn is_paired(&self, delivery: &Incoming) -> bool
        ensures { (rules : RuleSet) (history : Events) → Self.stands_for self.now rules history → Self.knows_incoming self.now (incoming_view delivery.now) history →
            (result ≡ sent.is_paired (incoming_view delivery.now) history) };

    /// A copy of it is due to the link, and no transfer there names it.
    fn is_unsent(&self, rules: &RuleSet, delivery: &Incoming, link: &Link) -> bool
        requires few { Self.is_short self.now }
        ensures { (history : Events) → Self.stands_for self.now rules.now history → IsLiveLink (link_view link.now) history →
            Self.knows_incoming self.now (incoming_view delivery.now) history → (result ≡ due.is_unsent rules.now (incoming_view delivery.now) (link_view link.now) history) };
}
