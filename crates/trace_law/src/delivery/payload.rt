//! Payloads of deliveries, compared without a copy: octet by octet from the last one, through the parts as they stand in
//! the history.

use crate::past::Past;
use trace_events::{Event, Incoming, Outgoing};

/// A delivery, by its direction and its number.
#[derive(Clone, Copy)]
pub(crate) enum Delivery {
    Incoming(u64),
    Outgoing(u64),
}

/// A delivery's payload as far as it isn't read: what is left of a part, and the parts before it.
#[derive(Clone, Copy)]
struct Backward<'p, 'a> {
    delivery: Delivery,
    part: &'a [u8],
    rest: &'p Past<'p, 'a>,
}

impl Delivery {
    ghost use Rattle.std.specs.Prelude.{◌≡◌};
    ghost use Rattle.trace_law.specs.Payloads.{part_of};
    ghost use Rattle.trace_events.specs.View.{event_view};

    /// What an event adds to the delivery's payload.
    pub(crate) fn part<'a>(self, event: &Event<'a, '_, 'a>) -> &'a [u8]
        ensures { result.now ≡ part_of self (event_view event.now) }
    {
        let spoken = match (self, event.incoming, event.outgoing) {
            (Delivery::Incoming(number), Some(incoming), _) if incoming.number == number =>
                event.in_spoken(),
            (Delivery::Outgoing(number), _, Some(outgoing)) if outgoing.number == number =>
                event.out_spoken(),
            _ => None,
        };
        match spoken {
            Some(spoken) => spoken.payload,
            None => &[],
        }
    }
}

impl<'p, 'a> Backward<'p, 'a> {
    ghost use Rattle.std.specs.Prelude.{◌≡◌, option_map, bytes_eq};
    ghost use Rattle.trace_law.specs.Payloads as law;

    /// The last octet, and what is left before it.
    fn pop(self) -> Option<(u8, Backward<'p, 'a>)>
        ensures octet { option_map (λ popped. popped.0) result ≡ law.first_octet (law.left self.entry) }
        ensures rest { option_map (λ popped. law.left popped.1) result ≡ law.rest_octets (law.left self.entry) }
    {
        let mut part = self.part;
        let mut rest = self.rest;
        while part.is_empty() {
            let Past::After(event, earlier) = rest else {
                return None;
            };
            part = self.delivery.part(event);
            rest = *earlier;
        }
        let (octet, front) = part.split_last()?;
        Some((
            *octet,
            Backward {
                part: front,
                rest,
                ..self
            },
        ))
    }

    /// What is left without as many octets as the other has; `None` where it has fewer.
    fn without(self, other: Backward) -> Option<Backward<'p, 'a>>
        ensures { option_map law.left result ≡ law.without (law.left self.entry) (law.left other.entry) }
    {
        let mut left = self;
        let mut uncounted = other;
        while let Some((_, shorter)) = uncounted.pop() {
            uncounted = shorter;
            (_, left) = left.pop()?;
        }
        Some(left)
    }

    /// Both have the same octets left.
    fn is_same(self, other: Backward) -> bool
        ensures { result ≡ bytes_eq (law.left self.entry) (law.left other.entry) }
    {
        let mut left = self;
        let mut expected = other;
        while let Some((octet, shorter)) = left.pop() {
            match expected.pop() {
                Some((same, before)) if same == octet => {
                    left = shorter;
                    expected = before;
                }
                _ => return false,
            }
        }
        expected.pop().is_none()
    }

    /// The octets that the other has left are the first ones of these.
    fn begins_with(self, so_far: Backward) -> bool
        ensures { result ≡ law.begins_with (law.left self.entry) (law.left so_far.entry) }
    {
        let Some(behind) = self.without(so_far) else {
            return false;
        };
        match self.without(behind) {
            Some(front) => front.is_same(so_far),
            None => false,
        }
    }
}

impl<'p, 'a> Past<'p, 'a> {
    ghost use Rattle.std.specs.Prelude.{◌≡◌, ◌++◌, ◌+◌, length, reverse, nat_lt};
    ghost use Rattle.trace_law.specs.Payloads as law;
    ghost use Rattle.trace_events.specs.TransferClause as clause;
    ghost use Rattle.trace_events.specs.Incoming as received;
    ghost use Rattle.trace_events.specs.Outgoing as sent;
    ghost use Rattle.trace_law.specs.OnStack.{events};
    ghost use Rattle.trace_events.specs.View.{incoming_view, outgoing_view};

    /// The whole payload of a delivery.
    fn backward<'s>(&'s self, incoming: &Incoming) -> Backward<'s, 'a>
        ensures { law.left result ≡ reverse (received.payload (incoming_view incoming.now) (events self.now)) }
    {
        Backward {
            delivery: Delivery::Incoming(incoming.number),
            part: &[],
            rest: &*self,
        }
    }

    /// The payload that was sent, with these octets behind it.
    #[tactic(auto, using(crate::proofs::Payloads::backward_outgoing))]
    fn backward_sent<'s>(&'s self, outgoing: &Outgoing, octets: &'a [u8]) -> Backward<'s, 'a>
        ensures { law.left result ≡ reverse (sent.payload (outgoing_view outgoing.now) (events self.now) ++ octets.now) }
    {
        Backward {
            delivery: Delivery::Outgoing(outgoing.number),
            part: octets,
            rest: &*self,
        }
    }

    /// The payload of the outgoing delivery with these octets behind it are the first octets of the incoming one's, and
    /// all of it where no more follows.
    #[tactic(auto, using(crate::proofs::Payloads::begins_reverse, crate::proofs::Payloads::same_reverse))]
    pub(crate) fn is_payload_so_far(
        &self,
        more: bool,
        incoming: &Incoming,
        outgoing: &Outgoing,
        octets: &'a [u8],
    ) -> bool
        ensures { result ≡ clause.is_payload_so_far more (received.payload (incoming_view incoming.now) (events self.now))
            (sent.payload (outgoing_view outgoing.now) (events self.now) ++ octets.now) }
    {
        let whole = self.backward(incoming);
        let so_far = self.backward_sent(outgoing, octets);
        if more {
            whole.begins_with(so_far)
        } else {
            whole.is_same(so_far)
        }
    }

    /// The delivery's payload with these octets behind it is longer than the limit.
    #[tactic(auto, using(crate::proofs::Payloads::length_part))]
    pub(crate) fn is_longer(&self, limit: u64, incoming: &Incoming, octets: &[u8]) -> bool
        ensures { result ≡ nat_lt limit (length (received.payload (incoming_view incoming.now) (events self.now)) + length octets.now) }
    {
        let Some(mut room) = limit.checked_sub(octets.len() as u64) else {
            return true;
        };
        let mut rest = self;
        while let Past::After(event, earlier) = rest {
            let part = Delivery::Incoming(incoming.number).part(event);
            match room.checked_sub(part.len() as u64) {
                Some(left) => room = left,
                None => return true,
            }
            rest = *earlier;
        }
        false
    }
}
