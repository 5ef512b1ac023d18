//! What each transfer that the router writes keeps to, L4 to L9.

ghost use Rattle.std.specs.Prelude.{◌≡◌, ◌&&◌, ◌||◌, true, List, Some, IfSome, length};
ghost use Rattle.capture_form.specs.Rules.{RuleSet};
ghost use Rattle.trace_events.specs.Credit.{begins_outgoing};
ghost use Rattle.amqp_perf.specs.View.{transfer_fields};
ghost use Rattle.trace_events.specs.Session.{StandsLive};
ghost use Rattle.trace_events.specs.Link.{IsLiveLink, is_consumer};
ghost use Rattle.trace_events.specs.View.{event_view, incoming_view, link_view, outgoing_view, Events};
ghost use Rattle.trace_events.specs.TransferClause as law;
ghost use Rattle.trace_events.specs.Words.{is_some_and};

use crate::questions::{Carriage, Counts, Outcomes};
use amqp_perf::Transfer;
use capture_form::RuleSet;
use pairing_cert::Note;
use trace_events::{Event, Incoming, Link, Outgoing};

/// They name the same delivery or the same reason, or are both none.
fn is_same_note(note: Note, other: Note) -> bool
    ensures { result ≡ law.is_same_note note other }
{
    match (note, other) {
        (Note::None, Note::None) => true,
        (Note::Pair(n), Note::Pair(m)) => n == m,
        (Note::Told(why), Note::Told(same)) => why == same,
        _ => false,
    }
}

/// L6: a later transfer has no id and no settled flag, or those of the first (part 2, section 2.7.5), and its note.
pub(crate) fn goes_on_with(outgoing: &Outgoing, note: Note, fields: &Transfer) -> bool
    ensures { result ≡ law.goes_on_with (outgoing_view outgoing.now) note (transfer_fields fields.now) }
{
    let has_same_id = match fields.delivery_id {
        Some(id) => outgoing.id == Some(id),
        None => true,
    };
    let has_same_flag = match fields.settled {
        Some(settled) => settled == outgoing.is_settled,
        None => true,
    };
    has_same_id && has_same_flag && is_same_note(note, outgoing.note)
}

/// The first transfer of a delivery has the message-format of what it carries, 0 where it is absent, and is settled just
/// on a pre-settled link.
fn has_form(delivery: &Incoming, link: &Link, fields: &Transfer) -> bool
    ensures { result ≡ law.has_form (incoming_view delivery.now) (link_view link.now) (transfer_fields fields.now) }
{
    fields.message_format.unwrap_or(0) == delivery.format
        && fields.settled.unwrap_or(false) == link.is_pre_settled
}

/// It has the link's address, and its form where it begins.
pub(crate) fn has_address_and_form<'a, P: Carriage<'a>>(
    past: &P,
    event: &Event,
    link: &Link,
    fields: &Transfer,
    delivery: &Incoming,
) -> bool
    ensures { (rules : RuleSet) (history : Events) → P.stands_for past.now rules history → P.knows_incoming past.now (incoming_view delivery.now) history →
        (result ≡ law.has_address_and_form (event_view event.now) (link_view link.now) (transfer_fields fields.now) history (incoming_view delivery.now)) }
{
    past.is_for(delivery, link.address)
        && (!event.begins_outgoing() || has_form(delivery, link, fields))
}

/// L4: on a consumer's live link, within the session's window (part 2, section 2.5.6); it neither resumes nor aborts.
pub(crate) fn has_link_and_window<P: Counts>(past: &P, event: &Event, fields: &Transfer) -> bool
    ensures { (rules : RuleSet) (history : Events) → P.stands_for past.now rules history → StandsLive (event_view event.now) history →
        (result ≡ law.has_link_and_window (event_view event.now) (transfer_fields fields.now) history) }
{
    match (&event.link, event.session) {
        (Some(link), Some(session)) => {
            link.is_consumer()
                && !fields.is_resumed()
                && !fields.is_aborted()
                && past.session_window(session) > 0
        }
        _ => false,
    }
}

/// L5: a delivery that begins has credit (part 2, section 2.6.7) and the next delivery-id.
pub(crate) fn has_credit_and_next_id<P: Counts>(past: &P, link: &Link, fields: &Transfer) -> bool
    ensures { (rules : RuleSet) (history : Events) → P.stands_for past.now rules history → IsLiveLink (link_view link.now) history →
        (result ≡ law.has_credit_and_next_id (link_view link.now) (transfer_fields fields.now) history) }
{
    fields.delivery_id.is_some()
        && past.link_credit(link) > 0
        && fields.delivery_id == Some(past.next_delivery_id(link.session))
}

/// What L4 to L6 ask before a delivery may begin: a consumer's live link has credit, its session has window, and nothing is in
/// progress.
pub fn may_take<'a, P: Counts + Carriage<'a>>(past: &P, link: &Link) -> bool
    ensures { (rules : RuleSet) (history : Events) → P.stands_for past.now rules history → IsLiveLink (link_view link.now) history →
        (result ≡ law.may_take history (link_view link.now)) }
{
    past.link_credit(link) > 0
        && past.session_window(link.session) > 0
        && past.outgoing_in_progress(link).is_none()
}

/// L8: the payloads so far are the first octets of the delivery's payload, and at the last transfer all of it.
pub(crate) fn carries<'a, P: Carriage<'a>>(
    past: &P,
    event: &Event,
    fields: &Transfer,
    octets: &'a [u8],
    delivery: &Incoming,
) -> bool
    ensures { (rules : RuleSet) (history : Events) → P.stands_for past.now rules history → P.knows_incoming past.now (incoming_view delivery.now) history →
        IfSome (event_view event.now).outgoing (λ j. P.knows_outgoing past.now j history) → (event_view event.now).number ≡ length history →
        Some (incoming_view delivery.now) ≡ law.to_carry rules event.now.note history →
        (begins_outgoing (event_view event.now)
        || is_some_and (event_view event.now).outgoing (λ j. law.goes_on_with j event.now.note (transfer_fields fields.now))) ≡ true →
        (result ≡ is_some_and (event_view event.now).outgoing (λ j. law.carries j (transfer_fields fields.now) octets.now history (incoming_view delivery.now))) }
{
    match &event.outgoing {
        Some(outgoing) => past.is_payload_so_far(fields.has_more(), delivery, outgoing, octets),
        None => false,
    }
}

fn goes_to_one_or_is_due<'a, P: Carriage<'a> + Outcomes<'a>>(
    past: &P,
    rules: &RuleSet,
    link: &Link,
    delivery: &Incoming,
) -> bool
    requires few { P.is_short past.now }
    ensures { (history : Events) → P.stands_for past.now rules.now history → IsLiveLink (link_view link.now) history → P.knows_incoming past.now (incoming_view delivery.now) history →
        (result ≡ law.goes_to_one_or_is_due rules.now (link_view link.now) history (incoming_view delivery.now)) }
{
    if past.is_of_multicast(rules, delivery) {
        past.is_unsent(rules, delivery, link)
    } else {
        !past.is_paired(delivery)
    }
}

fn is_in_order<'a, P: Carriage<'a>>(past: &P, link: &Link, delivery: &Incoming) -> bool
    ensures whole { (rules : RuleSet) (history : Events) → P.stands_for past.now rules history → P.is_whole past.now → IsLiveLink (link_view link.now) history → P.knows_incoming past.now (incoming_view delivery.now) history →
        (result ≡ law.is_in_order (link_view link.now) history (incoming_view delivery.now)) }
    ensures last { (rules : RuleSet) (history : Events) → P.stands_for past.now rules history → P.keeps_last past.now history → IsLiveLink (link_view link.now) history →
        is_consumer (link_view link.now) ≡ true → P.knows_incoming past.now (incoming_view delivery.now) history →
        (result ≡ law.is_in_order (link_view link.now) history (incoming_view delivery.now)) }
{
    match past.carried_before(link) {
        Some(before) => past.completed_before(&before, delivery),
        None => true,
    }
}

/// L9: an anycast delivery goes to one consumer, a multicast one once to each that it is due to; on each link in the
/// order of completion.
pub(crate) fn goes_once_and_in_order<'a, P: Carriage<'a> + Outcomes<'a>>(
    past: &P,
    rules: &RuleSet,
    link: &Link,
    delivery: &Incoming,
) -> bool
    requires few { P.is_short past.now }
    ensures whole { (history : Events) → P.stands_for past.now rules.now history → P.is_whole past.now → IsLiveLink (link_view link.now) history → P.knows_incoming past.now (incoming_view delivery.now) history →
        (result ≡ (law.goes_to_one_or_is_due rules.now (link_view link.now) history (incoming_view delivery.now) && law.is_in_order (link_view link.now) history (incoming_view delivery.now))) }
    ensures last { (history : Events) → P.stands_for past.now rules.now history → P.keeps_last past.now history → IsLiveLink (link_view link.now) history →
        is_consumer (link_view link.now) ≡ true → P.knows_incoming past.now (incoming_view delivery.now) history →
        (result ≡ (law.goes_to_one_or_is_due rules.now (link_view link.now) history (incoming_view delivery.now) && law.is_in_order (link_view link.now) history (incoming_view delivery.now))) }
{
    goes_to_one_or_is_due(past, rules, link, delivery) && is_in_order(past, link, delivery)
}
