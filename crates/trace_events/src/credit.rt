//! What moves the credit of a link (part 2 of the standard, section 2.6.7).

use crate::event::{Event, Link, Moment};
use amqp_perf::{Flow, Performative};

/// What moves the credit of a link.
#[derive(Clone, Copy)]
pub enum LinkEvent {
    /// A flow from the client.
    TheirFlow(Flow),
    /// A flow to the client.
    OurFlow(Flow),
    /// A delivery begins, from the client or to it.
    Begun,
}

impl<'a, 'r, 'm> Event<'a, 'r, 'm> {
    ghost use Rattle.std.specs.Prelude.{◌≡◌, option_map, if◌then◌else◌, None};
    ghost use Rattle.trace_events.specs.Event.{is_on_link};
    ghost use Rattle.trace_events.specs.Credit as law;
    ghost use Rattle.trace_events.specs.View.{event_view, link_view};
    ghost use Rattle.trace_events.specs.LinkEvents.{link_event_view};

    /// A delivery from the client begins with it.
    pub fn begins_incoming(&self) -> bool
        ensures { result ≡ law.begins_incoming (event_view self.now) }
    {
        match self.incoming {
            Some(delivery) => delivery.number == self.number,
            None => false,
        }
    }

    /// A delivery to the client begins with it.
    pub fn begins_outgoing(&self) -> bool
        ensures { result ≡ law.begins_outgoing (event_view self.now) }
    {
        match self.outgoing {
            Some(delivery) => delivery.number == self.number,
            None => false,
        }
    }

    /// How it moves the credit of the link that it names. `None` where it is neither a flow nor a transfer that begins a delivery.
    pub fn link_event(&self) -> Option<LinkEvent>
        ensures { option_map link_event_view result ≡ law.link_event (event_view self.now) (event_view self.now).moment }
    {
        match self.moment {
            Moment::In(frame) => match frame.spoken()?.performative {
                Performative::Flow(flow) => Some(LinkEvent::TheirFlow(flow)),
                Performative::Transfer(_) if self.begins_incoming() => Some(LinkEvent::Begun),
                _ => None,
            },
            Moment::Out(frame) => match frame.spoken()?.performative {
                Performative::Flow(flow) => Some(LinkEvent::OurFlow(flow)),
                Performative::Transfer(_) if self.begins_outgoing() => Some(LinkEvent::Begun),
                _ => None,
            },
            _ => None,
        }
    }

    /// How it moves the credit of this link. `None` where it does not, or does not name the link.
    pub fn event_of(&self, link: &Link) -> Option<LinkEvent>
        ensures { option_map link_event_view result
            ≡ (if is_on_link (link_view link.now) (event_view self.now) then law.link_event (event_view self.now) (event_view self.now).moment else None) }
    {
        if self.is_on_link(link) {
            self.link_event()
        } else {
            None
        }
    }
}

ghost use Rattle.std.specs.Prelude.{◌≡◌};
ghost use Rattle.flow_counts.specs.Credit.{is_drain_answer};
ghost use Rattle.amqp_perf.specs.Meaning.{flag};

/// A flow to the client says that all credit is used up, as drain asks.
pub fn is_drain_answer(flow: &Flow) -> bool
    ensures { result ≡ is_drain_answer flow.now.link_credit (flag flow.now.drain) }
{
    flow.link_credit == Some(0) && flow.drains()
}
