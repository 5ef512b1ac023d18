//! Deliveries from clients: their parts, and whether their producer has settled them (part 2 of the standard, sections
//! 2.6.12 and 2.6.14).

use crate::past::Past;
use trace_events::{Incoming, Link, goes_on};

impl<'p, 'a> Past<'p, 'a> {
    ghost use Rattle.std.specs.Prelude.{◌≡◌, option_map};
    ghost use Rattle.trace_events.specs.Incoming as law;
    ghost use Rattle.trace_law.specs.OnStack.{events};
    ghost use Rattle.trace_events.specs.View.{link_view, incoming_view};

    /// The delivery of the link whose last part hasn't come yet.
    pub(crate) fn incoming_in_progress(&self, link: &Link) -> Option<Incoming<'a>>
        ensures { option_map incoming_view result ≡ law.in_progress (link_view link.now) (events self.now) }
    {
        let mut rest = self;
        while let Past::After(event, earlier) = rest {
            if let Some(delivery) = event.incoming {
                if delivery.link.number == link.number {
                    return match event.in_transfer() {
                        Some(transfer) if goes_on(&transfer) => Some(delivery),
                        _ => None,
                    };
                }
            }
            rest = *earlier;
        }
        None
    }

    pub(crate) fn is_complete(&self, delivery: &Incoming) -> bool
        ensures { result ≡ law.is_complete (incoming_view delivery.now) (events self.now) }
    {
        let mut rest = self;
        while let Past::After(event, earlier) = rest {
            if event.completes(delivery) {
                return true;
            }
            rest = *earlier;
        }
        false
    }

    /// The record that completed it.
    pub(crate) fn completion(&self, delivery: &Incoming) -> Option<u64>
        ensures { result ≡ law.completion (incoming_view delivery.now) (events self.now) }
    {
        let mut rest = self;
        while let Past::After(event, earlier) = rest {
            if event.completes(delivery) {
                return Some(event.number);
            }
            rest = *earlier;
        }
        None
    }

    /// The one was completed before the other.
    pub(crate) fn completed_before(&self, a: &Incoming, b: &Incoming) -> bool
        ensures { result ≡ law.completed_before (incoming_view a.now) (incoming_view b.now) (events self.now) }
    {
        match (self.completion(a), self.completion(b)) {
            (Some(one), Some(other)) => one < other,
            _ => false,
        }
    }

    /// Its producer gave it up.
    pub(crate) fn is_aborted(&self, delivery: &Incoming) -> bool
        ensures { result ≡ law.is_aborted (incoming_view delivery.now) (events self.now) }
    {
        let mut rest = self;
        while let Past::After(event, earlier) = rest {
            if event.aborts(delivery) {
                return true;
            }
            rest = *earlier;
        }
        false
    }

    /// The delivery that begins in this record.
    pub(crate) fn incoming_at(&self, number: u64) -> Option<Incoming<'a>>
        ensures { option_map incoming_view result ≡ law.incoming_at number (events self.now) }
    {
        let mut rest = self;
        while let Past::After(event, earlier) = rest {
            if let Some(begun) = event.incoming_begun() {
                if begun.number == number {
                    return Some(begun);
                }
            }
            rest = *earlier;
        }
        None
    }

    /// A part of it or a disposition of its producer says that it is settled.
    pub(crate) fn is_settled(&self, delivery: &Incoming) -> bool
        ensures { result ≡ law.is_settled (incoming_view delivery.now) (events self.now) }
    {
        let mut rest = self;
        while let Past::After(event, earlier) = rest {
            if event.settles_part(delivery) || event.settles_id(delivery) {
                return true;
            }
            rest = *earlier;
        }
        false
    }

    /// Its outcome was told.
    pub(crate) fn is_told(&self, delivery: &Incoming) -> bool
        ensures { result ≡ law.is_told (incoming_view delivery.now) (events self.now) }
    {
        let mut rest = self;
        while let Past::After(event, earlier) = rest {
            if event.told == Some(delivery.number) {
                return true;
            }
            rest = *earlier;
        }
        false
    }
}
