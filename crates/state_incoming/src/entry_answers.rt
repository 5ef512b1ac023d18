//! What the entries of the table answer, each of its delivery.

ghost use Rattle.std.specs.Prelude.{◌≡◌, ◌+◌, List, true, false, Some, IfSome, bytes_eq, length, nat_lt, option_map};
ghost use Rattle.capture_form.specs.Rules.{RuleSet};
ghost use Rattle.trace_events.specs.TransferClause as transfers;
ghost use Rattle.trace_events.specs.Incoming as received;
ghost use Rattle.trace_events.specs.Settling as settling;
ghost use Rattle.trace_events.specs.Waiting as waiting;
ghost use Rattle.trace_events.specs.View.{Events, incoming_view};
ghost use Rattle.state_tables.specs.LetGo.{names_let_go};
ghost use Rattle.state_incoming.specs.EntryAnswers as entries;
ghost use Rattle.state_incoming.specs.EntryAnswers.{Knows, delivery_in, has_entry};
ghost use Rattle.state_incoming.specs.HeldTables.{AreHeld, held_in};

use crate::deliveries::Deliveries;
use capture_form::RuleSet;
use pairing_cert::Note;
use trace_events::{Incoming, has_multicast};

impl Deliveries {
    /// The delivery of a client that begins in the record of this number, where the table can tell of it.
    pub fn incoming_at(&self, number: u64) -> Option<Incoming<'_>>
        ensures value { (rules : RuleSet) (history : Events) → AreHeld rules self.now history → has_entry self.now number ≡ true →
            option_map incoming_view result ≡ received.incoming_at number history }
        ensures known { (rules : RuleSet) (history : Events) → AreHeld rules self.now history →
            IfSome (option_map incoming_view result) (Knows self.now) }
    {
        self.delivery(number)
    }

    /// Its last part has come.
    pub fn is_complete(&self, delivery: &Incoming) -> bool
        ensures { (rules : RuleSet) (history : Events) → AreHeld rules self.now history → Knows self.now (incoming_view delivery.now) →
            result ≡ received.is_complete (incoming_view delivery.now) history }
    {
        self.says_complete(delivery.number)
    }

    /// Nothing more is to be told of it: it is told, settled by its producer, or of a link that is over.
    pub fn is_closed(&self, delivery: &Incoming) -> bool
        ensures { (rules : RuleSet) (history : Events) → AreHeld rules self.now history → Knows self.now (incoming_view delivery.now) →
            result ≡ settling.is_closed history (incoming_view delivery.now) }
    {
        self.says_closed(delivery.number)
    }

    /// It found no consumer, or lost the last one, and goes to none any more.
    pub fn is_gone(&self, delivery: &Incoming) -> bool
        ensures { (rules : RuleSet) (history : Events) → AreHeld rules self.now history → Knows self.now (incoming_view delivery.now) →
            result ≡ waiting.is_gone rules (incoming_view delivery.now) history }
    {
        self.has_gone(delivery.number)
    }

    /// The address that it is for: its link's, or on a link without one its message's, from its completion on.
    pub fn address(&self, delivery: &Incoming) -> &[u8]
        ensures { (rules : RuleSet) (history : Events) → AreHeld rules self.now history → Knows self.now (incoming_view delivery.now) →
            result.now ≡ received.address_of (incoming_view delivery.now) history }
    {
        self.held_for(delivery.number)
    }

    /// It is for this address.
    pub fn is_for(&self, delivery: &Incoming, address: &[u8]) -> bool
        ensures { (rules : RuleSet) (history : Events) → AreHeld rules self.now history → Knows self.now (incoming_view delivery.now) →
            result ≡ bytes_eq (received.address_of (incoming_view delivery.now) history) address.now }
    {
        self.held_for(delivery.number) == address
    }

    /// Its address is of multicast: it goes to all consumers of that, and not to one.
    pub fn is_of_multicast(&self, rules: &RuleSet, delivery: &Incoming) -> bool
        ensures { (history : Events) → AreHeld rules.now self.now history → Knows self.now (incoming_view delivery.now) →
            result ≡ waiting.is_of_multicast rules.now (incoming_view delivery.now) history }
    {
        has_multicast(rules, self.held_for(delivery.number))
    }

    /// What has come of its payload.
    pub fn payload(&self, delivery: &Incoming) -> &[u8]
        ensures { (rules : RuleSet) (history : Events) → AreHeld rules self.now history → Knows self.now (incoming_view delivery.now) →
            result.now ≡ received.payload (incoming_view delivery.now) history }
    {
        self.octets(delivery.number)
    }

    /// Its payload with these octets behind it is longer than the limit.
    pub fn is_longer(&self, limit: u64, delivery: &Incoming, octets: &[u8]) -> bool
        ensures { (rules : RuleSet) (history : Events) → AreHeld rules self.now history → Knows self.now (incoming_view delivery.now) →
            result ≡ nat_lt limit (length (received.payload (incoming_view delivery.now) history) + length octets.now) }
    {
        exceeds(limit, self.octets(delivery.number), octets)
    }

    /// The one was completed before the other.
    pub fn completed_before(&self, first: &Incoming, second: &Incoming) -> bool
        ensures { (rules : RuleSet) (history : Events) → AreHeld rules self.now history → Knows self.now (incoming_view first.now) →
            Knows self.now (incoming_view second.now) →
            result ≡ received.completed_before (incoming_view first.now) (incoming_view second.now) history }
    {
        self.is_before(first.number, second.number)
    }

    /// The delivery that a note names, where it may go to consumers: it is complete, and not gone. `None` of any other, of one
    /// that is not kept, and where the note names none.
    pub fn to_carry(&self, note: Note) -> Option<Incoming<'_>>
        ensures value { (rules : RuleSet) (history : Events) → AreHeld rules self.now history → names_let_go self.now.let_go.items note ≡ false →
            option_map incoming_view result ≡ transfers.to_carry rules note history }
        ensures given { (rules : RuleSet) (history : Events) → AreHeld rules self.now history →
            IfSome (option_map incoming_view result) (λ d. transfers.to_carry rules note history ≡ Some d) }
        ensures known { (rules : RuleSet) (history : Events) → AreHeld rules self.now history →
            IfSome (option_map incoming_view result) (Knows self.now) }
    {
        self.to_go_by(note)
    }

    // What the entry of a number says, if there is one.

    fn delivery(&self, number: u64) -> Option<Incoming<'_>>
        ensures { option_map incoming_view result ≡ delivery_in self.now number }
    {
        match self.get(number) {
            Some(held) => Some(held.delivery()),
            None => None,
        }
    }

    fn says_complete(&self, number: u64) -> bool
        ensures { result ≡ entries.says_complete (held_in self.now number) }
    {
        match self.get(number) {
            Some(held) => held.is_complete(),
            None => false,
        }
    }

    fn says_closed(&self, number: u64) -> bool
        ensures { result ≡ entries.says_closed (held_in self.now number) }
    {
        match self.get(number) {
            Some(held) => held.is_closed(),
            None => false,
        }
    }

    /// Nothing more is to be told of the delivery that began in the record of this number; nor is it of one that is not kept.
    pub fn is_shut(&self, number: u64) -> bool
        ensures { result ≡ entries.is_shut (held_in self.now number) }
    {
        match self.get(number) {
            Some(held) => held.is_closed(),
            None => true,
        }
    }

    fn has_gone(&self, number: u64) -> bool
        ensures { result ≡ entries.has_gone (held_in self.now number) }
    {
        match self.get(number) {
            Some(held) => held.is_gone(),
            None => false,
        }
    }

    fn held_for(&self, number: u64) -> &[u8]
        ensures { result.now ≡ entries.address_in (held_in self.now number) }
    {
        match self.get(number) {
            Some(held) => held.address(),
            None => &[],
        }
    }

    /// The octets of the message so far; none of a delivery that is not kept.
    pub fn octets(&self, number: u64) -> &[u8]
        ensures { result.now ≡ entries.payload_of (held_in self.now number) }
    {
        match self.get(number) {
            Some(held) => held.payload(),
            None => &[],
        }
    }

    fn is_before(&self, first: u64, second: u64) -> bool
        ensures { result ≡ entries.is_before (held_in self.now first) (held_in self.now second) }
    {
        match (self.get(first), self.get(second)) {
            (Some(first), Some(second)) => first.is_completed_before(second),
            _ => false,
        }
    }

    fn to_go(&self, number: u64) -> Option<Incoming<'_>>
        ensures { option_map incoming_view result ≡ entries.to_go (held_in self.now number) }
    {
        match self.get(number) {
            Some(held) if held.may_go() => Some(held.delivery()),
            _ => None,
        }
    }

    fn to_go_by(&self, note: Note) -> Option<Incoming<'_>>
        ensures { option_map incoming_view result ≡ entries.to_go_by self.now note }
    {
        match note {
            Note::Pair(number) => self.to_go(number),
            Note::None | Note::Told(_) => None,
        }
    }
}

/// The octets with these behind them are more than the limit.
fn exceeds(limit: u64, payload: &[u8], octets: &[u8]) -> bool
    ensures { result ≡ nat_lt limit (length payload.now + length octets.now) }
{
    match limit.checked_sub(octets.len() as u64) {
        Some(room) => payload.len() as u64 > room,
        None => true,
    }
}
