//! The parts of deliveries to clients, and what answers them (part 2 of the standard, sections 2.6.12 and 2.6.14).

ghost use Rattle.std.specs.Prelude.{◌≡◌};
ghost use Rattle.trace_events.specs.Outgoing as law;

use crate::disposition::covers_id;
use crate::event::{Event, Incoming, Link, Outgoing};
use amqp_perf::{Disposition, Role};
use pairing_cert::Note;

/// The note names the incoming delivery of this number.
pub fn names(number: u64, note: Note) -> bool
    ensures { result ≡ law.names number note }
{
    match note {
        Note::Pair(named) => named == number,
        Note::None | Note::Told(_) => false,
    }
}

impl<'a, 'r, 'm> Event<'a, 'r, 'm> {
    ghost use Rattle.std.specs.Prelude.{◌≡◌, ◌&&◌, option_map, is_some, not};
    ghost use Rattle.amqp_perf.specs.Meaning.{flag};
    ghost use Rattle.amqp_perf.specs.View.{disposition_fields};
    ghost use Rattle.trace_events.specs.Event.{is_on_link};
    ghost use Rattle.trace_events.specs.Words.{is_some_and};
    ghost use Rattle.trace_events.specs.Said.{out_transfer};
    ghost use Rattle.trace_events.specs.Outgoing as law;
    ghost use Rattle.trace_events.specs.Queue.{pairs};
    ghost use Rattle.trace_events.specs.View.{link_view, incoming_view, outgoing_view, event_view};

    /// It is one of the delivery's parts.
    pub fn is_outgoing_part(&self, delivery: &Outgoing) -> bool
        ensures { result ≡ law.is_part (outgoing_view delivery.now) (event_view self.now) }
    {
        match self.outgoing {
            Some(own) => own.number == delivery.number,
            None => false,
        }
    }

    /// It is the delivery's last part.
    pub fn ends(&self, delivery: &Outgoing) -> bool
        ensures { result ≡ (law.is_part (outgoing_view delivery.now) (event_view self.now)
            && is_some_and (out_transfer (event_view self.now)) (λ fields. not (flag fields.more))) }
    {
        match self.out_transfer() {
            Some(transfer) => !transfer.has_more() && self.is_outgoing_part(delivery),
            None => false,
        }
    }

    /// The delivery that begins in it. `None` where none to a client does.
    pub fn outgoing_begun(&self) -> Option<Outgoing<'a>>
        ensures { option_map outgoing_view result ≡ law.outgoing_begun (event_view self.now) }
    {
        match self.outgoing {
            Some(own) if own.number == self.number => Some(own),
            _ => None,
        }
    }

    /// The number of the incoming delivery that the one carries which it is a part of.
    pub fn carried_number(&self) -> Option<u64>
        ensures { result ≡ law.carried_number (event_view self.now) }
    {
        match self.outgoing.as_ref()?.note {
            Note::Pair(number) => Some(number),
            Note::None | Note::Told(_) => None,
        }
    }

    /// A delivery to a client that carries the incoming one begins in it.
    pub fn pairs(&self, delivery: &Incoming) -> bool
        ensures { result ≡ pairs (incoming_view delivery.now) (event_view self.now) }
    {
        match self.outgoing_begun() {
            Some(outgoing) => names(delivery.number, outgoing.note),
            None => false,
        }
    }

    /// A transfer on the link that names the incoming delivery.
    pub fn names_on(&self, delivery: &Incoming, link: &Link) -> bool
        ensures { result ≡ (is_some (out_transfer (event_view self.now))
            && law.names delivery.now.number self.now.note
            && is_on_link (link_view link.now) (event_view self.now)) }
    {
        names(delivery.number, self.note) && self.is_on_link(link) && self.out_transfer().is_some()
    }

    /// A heard disposition of the consumer, behind the delivery's first transfer, that covers its id. `None` where it is no such.
    pub fn answering(&self, delivery: &Outgoing) -> Option<Disposition<'m>>
        ensures { option_map disposition_fields result ≡ law.answering (outgoing_view delivery.now) (event_view self.now) }
    {
        if !(self.is_heard
            && self.is_on_session(delivery.link.session)
            && delivery.number < self.number)
        {
            return None;
        }
        match self.in_disposition() {
            Some(fields) if fields.role == Role::Receiver && covers_id(&fields, delivery.id) =>
                Some(fields),
            _ => None,
        }
    }
}
