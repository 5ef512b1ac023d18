//! The parts of deliveries from clients, and what settles them (part 2 of the standard, sections 2.6.12 and 2.6.14).

ghost use Rattle.std.specs.Prelude.{◌≡◌};
ghost use Rattle.amqp_perf.specs.View.{transfer_fields};
ghost use Rattle.trace_events.specs.Incoming as law;

use crate::disposition::covers_id;
use crate::event::{Event, Incoming};
use amqp_perf::{Role, Transfer};

/// A delivery goes on after a transfer with more that isn't aborted (part 2, section 2.7.5).
pub fn goes_on(transfer: &Transfer) -> bool
    ensures { result ≡ law.goes_on (transfer_fields transfer.now) }
{
    transfer.has_more() && !transfer.is_aborted()
}

/// A part without more that isn't aborted completes its delivery.
fn is_last_part(transfer: &Transfer) -> bool
    ensures { result ≡ law.is_last_part (transfer_fields transfer.now) }
{
    !transfer.has_more() && !transfer.is_aborted()
}

impl<'a, 'r, 'm> Event<'a, 'r, 'm> {
    ghost use Rattle.std.specs.Prelude.{◌≡◌, option_map};
    ghost use Rattle.trace_events.specs.Incoming as law;
    ghost use Rattle.trace_events.specs.View.{incoming_view, event_view};

    /// It is one of the delivery's parts.
    pub fn is_incoming_part(&self, delivery: &Incoming) -> bool
        ensures { result ≡ law.is_part (incoming_view delivery.now) (event_view self.now) }
    {
        match self.incoming {
            Some(own) => own.number == delivery.number,
            None => false,
        }
    }

    /// The delivery that it completes. `None` where it is the last part of none.
    pub fn completed_by(&self) -> Option<Incoming<'a>>
        ensures { option_map incoming_view result ≡ law.completed_by (event_view self.now) }
    {
        match self.in_transfer() {
            Some(transfer) if is_last_part(&transfer) => self.incoming,
            _ => None,
        }
    }

    /// It completes the delivery.
    pub fn completes(&self, delivery: &Incoming) -> bool
        ensures { result ≡ law.completes (incoming_view delivery.now) (event_view self.now) }
    {
        match self.completed_by() {
            Some(own) => own.number == delivery.number,
            None => false,
        }
    }

    /// Its producer gives the delivery up (part 2, section 2.7.5).
    pub fn aborts(&self, delivery: &Incoming) -> bool
        ensures { result ≡ law.aborts (incoming_view delivery.now) (event_view self.now) }
    {
        match self.in_transfer() {
            Some(transfer) => transfer.is_aborted() && self.is_incoming_part(delivery),
            None => false,
        }
    }

    /// The delivery that begins in it. `None` where none of a client's does.
    pub fn incoming_begun(&self) -> Option<Incoming<'a>>
        ensures { option_map incoming_view result ≡ law.incoming_begun (event_view self.now) }
    {
        match self.incoming {
            Some(own) if own.number == self.number => Some(own),
            _ => None,
        }
    }

    /// A heard disposition of the producer, behind the delivery's first transfer, that settles its id.
    pub fn settles_id(&self, delivery: &Incoming) -> bool
        ensures { result ≡ law.settles_id (incoming_view delivery.now) (event_view self.now) }
    {
        match self.in_disposition() {
            Some(fields) => {
                fields.role == Role::Sender
                    && fields.is_settled()
                    && covers_id(&fields, delivery.id)
                    && self.is_heard
                    && self.is_on_session(delivery.link.session)
                    && delivery.number < self.number
            }
            None => false,
        }
    }

    /// A part of the delivery that says that it is settled.
    pub fn settles_part(&self, delivery: &Incoming) -> bool
        ensures { result ≡ law.settles_part (incoming_view delivery.now) (event_view self.now) }
    {
        match self.in_transfer() {
            Some(
                Transfer {
                    settled: Some(true),
                    ..
                },
            ) => self.is_incoming_part(delivery),
            _ => false,
        }
    }
}
