//! Deliveries to clients: their parts, the incoming delivery that each carries, and what its consumer decides (part 2 of
//! the standard, sections 2.6.12 and 2.6.14).

use crate::past::Past;
use amqp_perf::Disposition;
use pairing_cert::Note;
use trace_events::{Decision, Event, Incoming, Link, Outgoing, Session, is_decisive, names};

impl<'p, 'a> Past<'p, 'a> {
    ghost use Rattle.std.specs.Prelude.{◌≡◌, ◌&&◌, option_map};
    ghost use Rattle.amqp_perf.specs.Meaning.{flag};
    ghost use Rattle.amqp_perf.specs.View.{disposition_fields};
    ghost use Rattle.trace_events.specs.Words.{is_some_and};
    ghost use Rattle.trace_events.specs.Link.{is_live};
    ghost use Rattle.trace_events.specs.Outgoing as law;
    ghost use Rattle.trace_events.specs.Disposition.{terminal_state};
    ghost use Rattle.trace_law.specs.OnStack.{events};
    ghost use Rattle.trace_events.specs.View.{decision_view, link_view, incoming_view, outgoing_view, event_view};

    /// The delivery of the link whose last part isn't written yet.
    pub(crate) fn outgoing_in_progress(&self, link: &Link) -> Option<Outgoing<'a>>
        ensures { option_map outgoing_view result ≡ law.in_progress (link_view link.now) (events self.now) }
    {
        let mut rest = self;
        while let Past::After(event, earlier) = rest {
            if let Some(delivery) = event.outgoing {
                if delivery.link.number == link.number {
                    return match event.out_transfer() {
                        Some(transfer) if transfer.has_more() => Some(delivery),
                        _ => None,
                    };
                }
            }
            rest = *earlier;
        }
        None
    }

    /// Its last part is written.
    pub(crate) fn is_sent(&self, delivery: &Outgoing) -> bool
        ensures { result ≡ law.is_sent (outgoing_view delivery.now) (events self.now) }
    {
        let mut rest = self;
        while let Past::After(event, earlier) = rest {
            if event.ends(delivery) {
                return true;
            }
            rest = *earlier;
        }
        false
    }

    /// The id of the session's next delivery: how many have begun (part 2, section 2.7.5).
    pub(crate) fn next_delivery_id(&self, session: Session) -> u32
        ensures { result ≡ law.next_delivery_id session (events self.now) }
    {
        let mut begun: u32 = 0;
        let mut rest = self;
        while let Past::After(event, earlier) = rest {
            if let Some(delivery) = event.outgoing_begun() {
                if delivery.link.session.number == session.number {
                    begun = begun.wrapping_add(1);
                }
            }
            rest = *earlier;
        }
        begun
    }

    /// The incoming delivery that a note names.
    pub(crate) fn noted(&self, note: Note) -> Option<Incoming<'a>>
        ensures { option_map incoming_view result ≡ law.noted note (events self.now) }
    {
        match note {
            Note::Pair(number) => self.incoming_at(number),
            Note::None | Note::Told(_) => None,
        }
    }

    /// The last outgoing delivery that carries the incoming one.
    pub(crate) fn pairing(&self, delivery: &Incoming) -> Option<Outgoing<'a>>
        ensures { option_map outgoing_view result ≡ law.pairing (incoming_view delivery.now) (events self.now) }
    {
        let mut rest = self;
        while let Past::After(event, earlier) = rest {
            if let Some(begun) = event.outgoing_begun() {
                if names(delivery.number, begun.note) {
                    return Some(begun);
                }
            }
            rest = *earlier;
        }
        None
    }

    pub(crate) fn is_paired(&self, delivery: &Incoming) -> bool
        ensures { result ≡ law.is_paired (incoming_view delivery.now) (events self.now) }
    {
        self.pairing(delivery).is_some()
    }

    /// A transfer on the link names the incoming delivery.
    pub(crate) fn is_named_on(&self, delivery: &Incoming, link: &Link) -> bool
        ensures { result ≡ law.is_named_on (incoming_view delivery.now) (link_view link.now) (events self.now) }
    {
        let mut rest = self;
        while let Past::After(event, earlier) = rest {
            if event.names_on(delivery, link) {
                return true;
            }
            rest = *earlier;
        }
        false
    }

    /// A disposition that answers the delivery and decides it, while the link lives.
    fn deciding(&self, delivery: &Outgoing, event: &Event<'a, '_, 'a>) -> Option<Disposition<'a>>
        ensures { option_map disposition_fields result
            ≡ law.deciding (outgoing_view delivery.now) (event_view event.now) (events self.now) }
    {
        match event.answering(delivery) {
            Some(fields) if is_decisive(&fields) && self.is_live(&delivery.link) => Some(fields),
            _ => None,
        }
    }

    /// The first disposition that decides it.
    fn first_deciding(&self, delivery: &Outgoing) -> Option<Disposition<'a>>
        ensures { option_map disposition_fields result ≡ law.first_deciding (outgoing_view delivery.now) (events self.now) }
    {
        let mut first = None;
        let mut rest = self;
        while let Past::After(event, earlier) = rest {
            if let Some(fields) = earlier.deciding(delivery, event) {
                first = Some(fields);
            }
            rest = *earlier;
        }
        first
    }

    /// The consumer's decision: the first of these; on a pre-settled link there is none.
    pub(crate) fn decision(&self, delivery: &Outgoing) -> Option<Disposition<'a>>
        ensures { option_map disposition_fields result ≡ law.decision (outgoing_view delivery.now) (events self.now) }
    {
        if delivery.link.is_pre_settled {
            return None;
        }
        self.first_deciding(delivery)
    }

    /// What the consumer decided.
    pub(crate) fn decided(&self, delivery: &Outgoing) -> Option<Decision<'a>>
        ensures { option_map decision_view result ≡ option_map terminal_state (law.decision (outgoing_view delivery.now) (events self.now)) }
    {
        match self.decision(delivery) {
            Some(fields) => Some(Decision::of_disposition(&fields)),
            None => None,
        }
    }

    /// A disposition that answers the delivery settles it, while the link lives.
    fn is_settled_in(&self, delivery: &Outgoing, event: &Event) -> bool
        ensures { result ≡ (is_live (events self.now) (link_view delivery.now.link)
            && is_some_and (law.answering (outgoing_view delivery.now) (event_view event.now)) (λ fields. flag fields.settled)) }
    {
        match event.answering(delivery) {
            Some(fields) => fields.is_settled() && self.is_live(&delivery.link),
            None => false,
        }
    }

    /// A heard disposition of the consumer settles the delivery, whether it decides or not, while the link lives.
    pub(crate) fn is_settled_by_consumer(&self, delivery: &Outgoing) -> bool
        ensures { result ≡ law.is_settled_by_consumer (outgoing_view delivery.now) (events self.now) }
    {
        let mut rest = self;
        while let Past::After(event, earlier) = rest {
            if earlier.is_settled_in(delivery, event) {
                return true;
            }
            rest = *earlier;
        }
        false
    }

    /// The router settled it.
    pub(crate) fn is_settled_by_router(&self, delivery: &Outgoing) -> bool
        ensures { result ≡ law.is_settled_by_router (outgoing_view delivery.now) (events self.now) }
    {
        let mut rest = self;
        while let Past::After(event, earlier) = rest {
            if event.settled == Some(delivery.number) {
                return true;
            }
            rest = *earlier;
        }
        false
    }
}

/// The order of the deliveries of a link.
impl<'p, 'a> Past<'p, 'a> {
    ghost use Rattle.std.specs.Prelude.{◌≡◌, option_map, find};
    ghost use Rattle.trace_events.specs.Outgoing.{is_on, outgoing_deliveries};
    ghost use Rattle.trace_events.specs.TransferClause.{carried_before};
    ghost use Rattle.trace_law.specs.OnStack.{events};
    ghost use Rattle.trace_events.specs.View.{incoming_view, link_view, outgoing_view};

    /// The last delivery that was begun on the link.
    fn last_begun_on(&self, link: &Link) -> Option<Outgoing<'a>>
        ensures { option_map outgoing_view result ≡ find (is_on (link_view link.now)) (outgoing_deliveries (events self.now)) }
    {
        let mut rest = self;
        while let Past::After(event, earlier) = rest {
            if let Some(outgoing) = event.outgoing_begun() {
                if outgoing.link.number == link.number {
                    return Some(outgoing);
                }
            }
            rest = *earlier;
        }
        None
    }

    /// The incoming delivery that the last one begun on the link carries.
    pub(crate) fn carried_before(&self, link: &Link) -> Option<Incoming<'a>>
        ensures { option_map incoming_view result ≡ carried_before (link_view link.now) (events self.now) }
    {
        self.noted(self.last_begun_on(link)?.note)
    }
}
