//! What L4 to L7 and L9 compare: a transfer with its link, and with the delivery that it carries.

ghost use Rattle.capture_form.specs.Rules.{RuleSet};
ghost use Rattle.std.specs.Prelude.{List, ◌≡◌, ◌&&◌, is_some, IfSome, None, option_and_then, option_map};
ghost use Rattle.trace_events.specs.Event as law_events;
ghost use Rattle.trace_events.specs.Incoming as received;
ghost use Rattle.trace_events.specs.Window as windows;
ghost use Rattle.trace_events.specs.Session.{IsLiveOn, StandsLive};
ghost use Rattle.trace_events.specs.Link.{NamesLive};
ghost use Rattle.trace_events.specs.Words.{is_none_or};
ghost use Rattle.trace_events.specs.TransferClause as transfers;
ghost use Rattle.trace_events.specs.View.{Events, event_view, incoming_view};
ghost use Rattle.trace_events.specs.Said as said;
ghost use Rattle.refusal_facts.specs.TransferFacts.{AreBeginning, AreCarrying, AreGoingOn, AreOrder, AreSending, IsNamed, IsNamedAt, IsNamedBy};

use crate::payloads::Payloads;
use capture_form::RuleSet;
use pairing_cert::Note;
use trace_events::{Event, Incoming, Link, Outgoing, Session};
use trace_judge::{Carriage, Counts, Outcomes, Questions};

/// L4: the link on which a transfer stands, and its session's window.
#[derive(Clone, Copy)]
pub struct SendingFacts<'a> {
    /// The handle that it names.
    pub handle: u32,
    /// The live session of its channel.
    pub session: Option<Session>,
    /// How many transfers might still be sent on that session.
    pub window: Option<u32>,
    /// The id of the router's next transfer on it.
    pub next_outgoing_id: Option<u32>,
    /// The live link of the handle.
    pub link: Option<Link<'a>>,
    /// It resumes a delivery.
    pub is_resumed: bool,
    /// It gives its delivery up.
    pub is_aborted: bool,
}

/// L5: the credit of the link of a transfer that begins a delivery, and its delivery-id.
#[derive(Clone, Copy)]
pub struct BeginningFacts<'a> {
    pub link: Link<'a>,
    /// How many deliveries might still begin on the link.
    pub credit: u32,
    /// The link's delivery-count.
    pub delivery_count: u32,
    /// The id of the session's next delivery.
    pub due_id: u32,
    /// The delivery-id that the transfer says.
    pub said_id: Option<u32>,
}

/// L6: a later transfer, and the delivery in progress on its link.
#[derive(Clone, Copy)]
pub struct GoingOnFacts<'a> {
    /// The delivery in progress, with what its first transfer said.
    pub first: Option<Outgoing<'a>>,
    pub id: Option<u32>,
    pub settled: Option<bool>,
    pub note: Note,
}

/// The delivery from a client that a note names.
#[derive(Clone, Copy)]
pub enum Named<'a> {
    /// The note names none.
    Nothing,
    /// It is complete and not gone.
    Carried(Incoming<'a>),
    /// It is kept, and not complete, or gone.
    Kept {
        delivery: Incoming<'a>,
        is_complete: bool,
        is_gone: bool,
    },
    /// Nothing is kept of a delivery that begins in the record of this number: none does, or it is gone, or was given up.
    Unknown(u64),
}

/// L7: the delivery that a transfer's note names, and the link.
#[derive(Clone, Copy)]
pub struct CarryingFacts<'a> {
    pub note: Note,
    pub link: Link<'a>,
    pub named: Named<'a>,
    /// The address that the delivery is for, where it may be carried.
    pub address: Option<&'a [u8]>,
    /// The transfer begins a delivery: only then its message-format and settled flag are compared.
    pub begins: bool,
    /// The message-format that it says, 0 where it says none.
    pub format: u32,
    /// It is settled.
    pub is_settled: bool,
}

/// L9: to whom a delivery from a client went, and in which order the link's deliveries were complete.
#[derive(Clone, Copy)]
pub struct OrderFacts<'a> {
    pub link: Link<'a>,
    /// The delivery from a client that the transfer carries.
    pub delivery: Incoming<'a>,
    /// The record that completed it.
    pub completion: Option<u64>,
    /// Its address is multicast.
    pub is_multicast: bool,
    /// The last delivery to a client that carries it.
    pub carrier: Option<Outgoing<'a>>,
    /// A copy of it is due to the link, and not sent.
    pub is_unsent: bool,
    /// The delivery from a client that the last delivery begun on the link carries.
    pub before: Option<Incoming<'a>>,
    /// The record that completed that one.
    pub before_completion: Option<u64>,
    /// That one, if there is one, was completed before.
    pub is_in_order: bool,
}

/// The window of the session, if there is one.
fn window_on<P: Counts>(past: &P, session: Option<Session>) -> Option<u32>
    ensures { (rules : RuleSet) (history : Events) → P.stands_for past.now rules history → IfSome session (λ s. IsLiveOn s history) →
        (result ≡ option_map (λ s. windows.session_window s history) session) }
{
    match session {
        Some(session) => Some(past.session_window(session)),
        None => None,
    }
}

/// The id of the router's next transfer on the session, if there is one.
fn next_id_on<P: Counts>(past: &P, session: Option<Session>) -> Option<u32>
    ensures { (rules : RuleSet) (history : Events) → P.stands_for past.now rules history → IfSome session (λ s. IsLiveOn s history) →
        (result ≡ option_map (λ s. windows.next_outgoing_id s history) session) }
{
    match session {
        Some(session) => Some(past.next_outgoing_id(session)),
        None => None,
    }
}

/// L4.
pub(crate) fn sending_facts<'a, P: Counts>(
    past: &P,
    event: &Event<'a, '_, 'a>,
) -> Option<SendingFacts<'a>>
    ensures facts { (rules : RuleSet) (history : Events) → P.stands_for past.now rules history → StandsLive (event_view event.now) history → IfSome result (AreSending (event_view event.now) history) }
    ensures there { is_some result ≡ is_some (said.out_transfer (event_view event.now)) }
{
    let transfer = event.out_transfer()?;
    Some(SendingFacts {
        handle: transfer.handle,
        session: event.session,
        window: window_on(past, event.session),
        next_outgoing_id: next_id_on(past, event.session),
        link: event.link,
        is_resumed: transfer.is_resumed(),
        is_aborted: transfer.is_aborted(),
    })
}

/// L5.
pub(crate) fn beginning_facts<'a, P: Counts>(
    past: &P,
    event: &Event<'a, '_, 'a>,
) -> Option<BeginningFacts<'a>>
    ensures facts { (rules : RuleSet) (history : Events) → P.stands_for past.now rules history → NamesLive (event_view event.now) history → IfSome result (AreBeginning (event_view event.now) history) }
    ensures there { is_some result ≡ (is_some (said.out_transfer (event_view event.now)) && is_some (event_view event.now).link) }
{
    let transfer = event.out_transfer()?;
    let link = event.link?;
    Some(BeginningFacts {
        link,
        credit: past.link_credit(&link),
        delivery_count: past.delivery_count(&link),
        due_id: past.next_delivery_id(link.session),
        said_id: transfer.delivery_id,
    })
}

/// L6.
pub(crate) fn going_on_facts<'a>(event: &Event<'a, '_, 'a>) -> Option<GoingOnFacts<'a>>
    ensures facts { IfSome result (AreGoingOn (event_view event.now)) }
    ensures there { is_some result ≡ is_some (said.out_transfer (event_view event.now)) }
{
    let transfer = event.out_transfer()?;
    Some(GoingOnFacts {
        first: event.outgoing,
        id: transfer.delivery_id,
        settled: transfer.settled,
        note: event.note,
    })
}

/// The delivery that begins in the record of this number, which may not be carried.
fn named_at<'a, P: Outcomes<'a>>(past: &P, rules: &RuleSet, number: u64) -> Named<'a>
    ensures { (history : Events) → P.stands_for past.now rules.now history → IsNamedAt rules.now (λ n. P.knows_number past.now n history) history number result }
{
    match past.incoming_at(number) {
        Some(delivery) => Named::Kept {
            delivery,
            is_complete: past.is_complete(&delivery),
            is_gone: past.is_gone(rules, &delivery),
        },
        None => Named::Unknown(number),
    }
}

/// The delivery that a note names, which may not be carried.
fn uncarried<'a, P: Outcomes<'a>>(past: &P, rules: &RuleSet, note: Note) -> Named<'a>
    ensures { (history : Events) → P.stands_for past.now rules.now history → IsNamedBy rules.now (λ n. P.knows_number past.now n history) history note result }
{
    match note {
        Note::Pair(number) => named_at(past, rules, number),
        Note::None | Note::Told(_) => Named::Nothing,
    }
}

/// The delivery that a note names.
#[tactic(auto, using(crate::proofs::NamedDeliveries::uncarried_named))]
fn named_by<'a, P: Outcomes<'a> + Carriage<'a>>(past: &P, rules: &RuleSet, note: Note) -> Named<'a>
    ensures { (history : Events) → P.stands_for past.now rules.now history → P.is_whole past.now → IsNamed rules.now (λ n. P.knows_number past.now n history) history note result }
{
    match past.to_carry(rules, note) {
        Some(delivery) => Named::Carried(delivery),
        None => uncarried(past, rules, note),
    }
}

/// The address of the delivery that a note names, where it may be carried.
fn address_carried<'a, P: Carriage<'a>, C: Payloads<'a>>(
    past: &P,
    contents: &C,
    rules: &RuleSet,
    note: Note,
) -> Option<&'a [u8]>
    ensures { (history : Events) → P.stands_for past.now rules.now history → P.is_whole past.now → C.tells_of contents.now rules.now history → ((d : law_events.Incoming) → P.knows_incoming past.now d history → C.knows contents.now d) →
        (option_map (λ address. address.now) result ≡ option_map (λ d. received.address_of d history) (transfers.to_carry rules.now note history)) }
{
    match past.to_carry(rules, note) {
        Some(delivery) => Some(contents.address(&delivery)),
        None => None,
    }
}

/// L7.
pub(crate) fn carrying_facts<'a, P: Outcomes<'a> + Carriage<'a>, C: Payloads<'a>>(
    past: &P,
    contents: &C,
    rules: &RuleSet,
    event: &Event<'a, '_, 'a>,
) -> Option<CarryingFacts<'a>>
    ensures facts { (history : Events) → P.stands_for past.now rules.now history → P.is_whole past.now → C.tells_of contents.now rules.now history → ((d : law_events.Incoming) → P.knows_incoming past.now d history → C.knows contents.now d) →
        IfSome result (AreCarrying rules.now (λ n. P.knows_number past.now n history) (event_view event.now) history) }
    ensures there { is_some result ≡ (is_some (said.out_transfer (event_view event.now)) && is_some (event_view event.now).link) }
{
    let transfer = event.out_transfer()?;
    Some(CarryingFacts {
        note: event.note,
        link: event.link?,
        named: named_by(past, rules, event.note),
        address: address_carried(past, contents, rules, event.note),
        begins: event.begins_outgoing(),
        format: transfer.message_format.unwrap_or(0),
        is_settled: transfer.settled.unwrap_or(false),
    })
}

/// The record that completed the delivery, if there is one.
fn completion_of<'a, C: Payloads<'a>>(contents: &C, delivery: &Option<Incoming>) -> Option<u64>
    ensures { (rules : RuleSet) (history : Events) → C.tells_of contents.now rules history → IfSome (option_map incoming_view delivery.now) (λ d. C.knows contents.now d) →
        (result ≡ option_and_then (λ d. received.completion d history) (option_map incoming_view delivery.now)) }
{
    match delivery {
        Some(delivery) => contents.completion(delivery),
        None => None,
    }
}

/// The delivery, if there is one, was completed before the other.
fn is_in_order<'a, P: Carriage<'a>>(
    past: &P,
    before: &Option<Incoming>,
    delivery: &Incoming,
) -> bool
    ensures { (rules : RuleSet) (history : Events) → P.stands_for past.now rules history → IfSome (option_map incoming_view before.now) (λ d. P.knows_incoming past.now d history) →
        P.knows_incoming past.now (incoming_view delivery.now) history →
        (result ≡ is_none_or (option_map incoming_view before.now) (λ d. received.completed_before d (incoming_view delivery.now) history)) }
{
    match before {
        Some(before) => past.completed_before(before, delivery),
        None => true,
    }
}

/// L9.
pub(crate) fn order_facts<'a, P: Questions<'a>, C: Payloads<'a>>(
    past: &P,
    contents: &C,
    rules: &RuleSet,
    event: &Event<'a, '_, 'a>,
) -> Option<OrderFacts<'a>>
    requires few { P.is_short past.now }
    ensures facts { (history : Events) → P.stands_for past.now rules.now history → P.is_whole past.now → C.tells_of contents.now rules.now history → ((d : law_events.Incoming) → P.knows_incoming past.now d history → C.knows contents.now d) →
        NamesLive (event_view event.now) history → IfSome result (AreOrder rules.now (event_view event.now) history) }
    ensures there { (history : Events) → P.stands_for past.now rules.now history → P.is_whole past.now → is_some result ≡ (is_some (event_view event.now).link && is_some (transfers.to_carry rules.now (event_view event.now).note history)) }
{
    let link = event.link?;
    let delivery = past.to_carry(rules, event.note)?;
    let before = past.carried_before(&link);
    Some(OrderFacts {
        link,
        delivery,
        completion: contents.completion(&delivery),
        is_multicast: past.is_of_multicast(rules, &delivery),
        carrier: past.pairing(&delivery),
        is_unsent: past.is_unsent(rules, &delivery, &link),
        before,
        before_completion: completion_of(contents, &before),
        is_in_order: is_in_order(past, &before, &delivery),
    })
}
