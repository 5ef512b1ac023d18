//! What facts are asked of, beyond the questions of `trace_judge`: octets and places that no clause asks for by themselves.

use trace_events::{Incoming, Outgoing};

/// What is told of deliveries beside the questions: of those that it knows.
pub trait Payloads<'a> {
    ghost use Rattle.capture_form.specs.Rules.{RuleSet};
    ghost use Rattle.std.specs.Prelude.{List, ◌≡◌, ◌%◌, ◌^◌, length};
    ghost use Rattle.trace_events.specs.Event.{Incoming, Outgoing};
    ghost use Rattle.trace_events.specs.Incoming as received;
    ghost use Rattle.trace_events.specs.Outgoing as told;
    ghost use Rattle.trace_events.specs.View.{Events, incoming_view, outgoing_view};

    /// These are the events, judged by these rules of addresses.
    ghost tells_of: { Self → RuleSet → Events → Type 0 };

    /// It can tell of this delivery of a client.
    ghost knows: { Self → Incoming → Type 0 };

    /// It can tell of this delivery to a client, behind these events.
    ghost knows_sent: { Self → Outgoing → Events → Type 0 };

    /// The octets of a delivery's payload so far.
    fn payload(&self, delivery: &Incoming) -> &'a [u8]
        ensures { (rules : RuleSet) (history : Events) → Self.tells_of self.now rules history → Self.knows self.now (incoming_view delivery.now) →
            (result.now ≡ received.payload (incoming_view delivery.now) history) };

    /// The address that a delivery is for: its link's; on a link without address its message's, from its completion on.
    fn address(&self, delivery: &Incoming) -> &'a [u8]
        ensures { (rules : RuleSet) (history : Events) → Self.tells_of self.now rules history → Self.knows self.now (incoming_view delivery.now) →
            (result.now ≡ received.address_of (incoming_view delivery.now) history) };

    /// How many octets were sent so far of a delivery to a client, counted in 64 bits.
    fn sent_count(&self, delivery: &Outgoing) -> u64
        ensures { (rules : RuleSet) (history : Events) → Self.tells_of self.now rules history → Self.knows_sent self.now (outgoing_view delivery.now) history →
            (result ≡ length (told.payload (outgoing_view delivery.now) history) % 2 ^ 64) };

    /// The record that completed a delivery.
    fn completion(&self, delivery: &Incoming) -> Option<u64>
        ensures { (rules : RuleSet) (history : Events) → Self.tells_of self.now rules history → Self.knows self.now (incoming_view delivery.now) →
            (result ≡ received.completion (incoming_view delivery.now) history) };
}
