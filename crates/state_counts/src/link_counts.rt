//! What the credit of a live link has come to (part 2 of the standard, section 2.6.7).

ghost use Rattle.std.specs.Prelude.{◌≡◌, Some};
ghost use Rattle.flow_counts.specs.Credit.{Begun};
ghost use Rattle.trace_events.specs.Credit.{link_event, their_flow, our_flow};
ghost use Rattle.state_counts.specs.LinkCounts.{moved, unmoved};
ghost use Rattle.trace_events.specs.View.{event_view, link_view};

use amqp_perf::Flow;
use trace_events::{Event, Link, LinkEvent, is_drain_answer};

/// The counts of a link; those of a consumer's say nothing of a producer's, nor the other way round.
#[derive(Clone, Copy, Debug, PartialEq, Eq)]
pub struct LinkCounts {
    /// How many deliveries may still begin on a consumer's link.
    pub link_credit: u32,
    /// A consumer's link's delivery-count.
    pub delivery_count: u32,
    /// The client's last flow with a link-credit asks to drain.
    pub is_draining: bool,
    /// How many deliveries the client may still begin on a producer's link.
    pub given_credit: u32,
    /// A producer's link's delivery-count.
    pub received_count: u32,
}

impl LinkCounts {
    /// Before the link's first event.
    pub fn new(link: &Link) -> LinkCounts
        ensures { result ≡ unmoved (link_view link.now) }
    {
        LinkCounts {
            link_credit: 0,
            delivery_count: link.our_first_count,
            is_draining: false,
            given_credit: 0,
            received_count: link.their_first_count,
        }
    }

    /// With one more event of the link, which told its client this first count.
    pub fn after(self, our_first_count: u32, event: &Event) -> LinkCounts
        ensures { result ≡ moved our_first_count self (link_event (event_view event.now) (event_view event.now).moment) }
    {
        match event.link_event() {
            None => self,
            Some(LinkEvent::Begun) => self.with_begun(),
            Some(LinkEvent::TheirFlow(flow)) => self.with_their_flow(our_first_count, &flow),
            Some(LinkEvent::OurFlow(flow)) => self.with_our_flow(&flow),
        }
    }

    /// A delivery has begun.
    fn with_begun(self) -> LinkCounts
        ensures { result ≡ moved 0 self (Some Begun) }
    {
        LinkCounts {
            link_credit: self.link_credit.saturating_sub(1),
            delivery_count: self.delivery_count.wrapping_add(1),
            given_credit: self.given_credit.saturating_sub(1),
            received_count: self.received_count.wrapping_add(1),
            ..self
        }
    }

    /// The client has sent a flow: a link-credit in it counts from the delivery-count that the client knew.
    fn with_their_flow(self, our_first_count: u32, flow: &Flow) -> LinkCounts
        ensures { result ≡ moved our_first_count self (Some (their_flow flow.now)) }
    {
        let Some(credit) = flow.link_credit else {
            return self;
        };
        let known = flow.delivery_count.unwrap_or(our_first_count);
        LinkCounts {
            link_credit: credit.saturating_sub(self.delivery_count.wrapping_sub(known)),
            is_draining: flow.drains(),
            ..self
        }
    }

    /// A flow was written: what it says counts, and a drain answer leaves no credit.
    fn with_our_flow(self, flow: &Flow) -> LinkCounts
        ensures { result ≡ moved 0 self (Some (our_flow flow.now)) }
    {
        LinkCounts {
            link_credit: if is_drain_answer(flow) {
                0
            } else {
                self.link_credit
            },
            delivery_count: flow.delivery_count.unwrap_or(self.delivery_count),
            given_credit: flow.link_credit.unwrap_or(self.given_credit),
            ..self
        }
    }
}
