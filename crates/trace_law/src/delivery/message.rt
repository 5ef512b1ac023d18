//! The address that a delivery from a client is for: its link's, or where that has none the one in its message, which is read
//! from its parts as they stand in the history, without memory (part 3 of the standard, section 3.2.4).

ghost use Rattle.std.specs.Prelude.{◌≡◌, take, drop};

use crate::delivery::payload::Delivery;
use crate::past::Past;
use amqp_cuts::{Address, Cuts, message_to};
use capture_form::RuleSet;
use flow_counts::MAX_MESSAGE_SIZE;
use trace_events::{Incoming, has_multicast};

/// The message of the delivery that began in a record, as far as its parts stand on the stack; a message has no more octets than
/// it may have.
#[derive(Clone, Copy)]
struct Message<'s, 'p, 'a> {
    number: u64,
    past: &'s Past<'p, 'a>,
}

/// The address that a delivery is for.
#[derive(Clone, Copy)]
pub(crate) enum Addressed<'a> {
    /// That of its link.
    OfLink(&'a [u8]),
    /// The one in its message, where that has one.
    OfMessage(Option<Address>),
}

impl<'a> Addressed<'a> {
    ghost use Rattle.std.specs.Prelude.{◌≡◌};
    ghost use Rattle.trace_law.specs.Messages.{addressed_octets};

    /// Its octets; none where there is no address.
    pub(crate) fn octets(&self) -> &[u8]
        ensures { result.now ≡ addressed_octets self.now }
    {
        match self {
            Addressed::OfLink(octets) => octets,
            Addressed::OfMessage(Some(address)) => address.octets(),
            Addressed::OfMessage(None) => &[],
        }
    }
}

impl<'s, 'p, 'a> Cuts for Message<'s, 'p, 'a> {
    ghost use Rattle.trace_law.specs.Messages.{message_octets};

    ghost octets = { λ message. message_octets message };

    fn len(&self) -> usize {
        self.past.message_len(self.number)
    }

    fn part_at(&self, at: usize) -> &[u8] {
        self.past.message_part(self.number, at)
    }
}

impl<'p, 'a> Past<'p, 'a> {
    ghost use Rattle.std.specs.Prelude.{◌≡◌, ◌≤◌, ◌<◌, ◌&&◌, ◌∷◌, bytes_eq, length, take, drop, unwrap_or};
    ghost use Rattle.amqp_perf.specs.Message.{to_of};
    ghost use Rattle.flow_counts.specs.declared.profile.TheConstants.{MAX_MESSAGE_SIZE};
    ghost use Rattle.trace_events.specs.Incoming as law;
    ghost use Rattle.trace_events.specs.Waiting as waiting;
    ghost use Rattle.trace_law.specs.Messages.{addressed_octets, found_octets, joined};
    ghost use Rattle.trace_law.specs.OnStack.{events};
    ghost use Rattle.trace_events.specs.View.{incoming_view};

    /// How many octets the message of the delivery of this number has.
    #[tactic(auto, using(crate::proofs::Messages::joined_length))]
    fn message_len(&self, number: u64) -> usize
        ensures counted { result ≡ length (joined number (events self.now)) }
        ensures most { result ≤ MAX_MESSAGE_SIZE }
    {
        let Past::After(event, earlier) = self else {
            return 0;
        };
        let before = earlier.message_len(number);
        let room = MAX_MESSAGE_SIZE as usize - before;
        let part = Delivery::Incoming(number).part(event).len();
        if part < room {
            before + part
        } else {
            before + room
        }
    }

    /// Its octets from this offset to the end of the part in which it lies.
    fn message_part(&self, number: u64, at: usize) -> &'a [u8]
        ensures front { result.now ≡ take (length result.now) (drop at (joined number (events self.now))) }
        ensures some { at < length (joined number (events self.now)) → 0 < length result.now }
    {
        let Past::After(event, earlier) = self else {
            return &[];
        };
        let before = earlier.message_len(number);
        if at < before {
            return earlier.message_part(number, at);
        }
        message_rest(
            Delivery::Incoming(number).part(event),
            MAX_MESSAGE_SIZE as usize - before,
            at - before,
        )
    }

    /// The address in the message of a delivery, told by the event that completes it.
    #[tactic(auto, unfolding(trace_events::specs::Incoming::message_address), using(crate::proofs::Messages::joined_message))]
    fn message_address(&self, delivery: &Incoming) -> Option<Address>
        ensures { found_octets result ≡ law.message_address (incoming_view delivery.now) (events self.now) }
    {
        let Past::After(event, earlier) = self else {
            return None;
        };
        if !event.completes(delivery) {
            return earlier.message_address(delivery);
        }
        message_to(&Message {
            number: delivery.number,
            past: self,
        })
    }

    /// The address that a delivery is for.
    pub(crate) fn address_of<'d>(&self, delivery: &Incoming<'d>) -> Addressed<'d>
        ensures { addressed_octets result ≡ law.address_of (incoming_view delivery.now) (events self.now) }
    {
        if delivery.link.is_anonymous() {
            Addressed::OfMessage(self.message_address(delivery))
        } else {
            Addressed::OfLink(delivery.link.address)
        }
    }

    /// The delivery is for this address.
    pub(crate) fn is_for(&self, delivery: &Incoming, address: &[u8]) -> bool
        ensures { result ≡ bytes_eq (law.address_of (incoming_view delivery.now) (events self.now)) address.now }
    {
        self.address_of(delivery).octets() == address
    }

    /// Its address goes to all its consumers.
    pub(crate) fn is_of_multicast(&self, rules: &RuleSet, delivery: &Incoming) -> bool
        ensures { result ≡ waiting.is_of_multicast rules.now (incoming_view delivery.now) (events self.now) }
    {
        has_multicast(rules, self.address_of(delivery).octets())
    }
}

/// The octets of a part from this offset on, of which no more than these count.
fn message_rest(part: &[u8], room: usize, from: usize) -> &[u8]
    ensures { result.now ≡ drop from (take room part.now) }
{
    let end = part.len().min(room);
    if from < end { &part[from..end] } else { &[] }
}
