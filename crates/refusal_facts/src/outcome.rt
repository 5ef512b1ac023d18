//! What L11 and L12 compare: a disposition with the delivery whose outcome it tells, or which it settles.

ghost use Rattle.capture_form.specs.Rules.{RuleSet};
ghost use Rattle.std.specs.Prelude.{List, ◌≡◌, is_some, IfSome, option_and_then, option_map};
ghost use Rattle.trace_events.specs.Event as law_events;
ghost use Rattle.trace_events.specs.Incoming as received;
ghost use Rattle.trace_events.specs.Outgoing as sent;
ghost use Rattle.trace_judge.specs.Told.{told_view};
ghost use Rattle.trace_events.specs.View.{Events, event_view, incoming_view, outgoing_view};
ghost use Rattle.trace_events.specs.Said as said;
ghost use Rattle.refusal_facts.specs.OutcomeFacts.{AreOutcome, AreSettling, AreTold, IsCarrier, row_of, verdict_of};

use crate::payloads::Payloads;
use amqp_perf::{Outcome, State};
use capture_form::RuleSet;
use pairing_cert::Note;
use trace_events::{Decision, Event, Incoming, Outgoing};
use trace_judge::{Outcomes, Told, row};

/// The delivery to a client that carries one whose outcome is told.
#[derive(Clone, Copy)]
pub struct Carrier<'a> {
    pub outgoing: Outgoing<'a>,
    /// Its last part is written.
    pub is_sent: bool,
    /// Its link lives.
    pub is_live: bool,
    /// The consumer's decision.
    pub decision: Option<Decision<'a>>,
}

/// A delivery from a client whose outcome is told.
#[derive(Clone, Copy)]
pub struct ToldDelivery<'a> {
    pub delivery: Incoming<'a>,
    /// Its last part has come.
    pub is_complete: bool,
    /// Nothing more is to be told of it: it is told, settled by its producer, or of a link that is over.
    pub is_closed: bool,
    /// The address that it is for: its link's; on a link without address its message's, once it is complete.
    pub address: &'a [u8],
    /// Its address is multicast.
    pub is_multicast: bool,
    /// The best verdict of its copies, where each that is due has its own; of one of multicast alone.
    pub verdict: Option<Outcome>,
    /// It found no consumer, or lost the last one, and goes to none any more.
    pub is_gone: bool,
    /// The longest frame that its producer takes, in octets.
    pub frame_limit: u32,
    /// What the row that the note names tells, where there is such a row and it applies.
    pub row: Option<Told<'a>>,
    /// The last delivery to a client that carries it.
    pub carrier: Option<Carrier<'a>>,
}

/// L11: a disposition of role receiver.
#[derive(Clone, Copy)]
pub struct OutcomeFacts<'a> {
    pub first: u32,
    pub last: u32,
    pub is_settled: bool,
    pub note: Note,
    /// The state that it tells.
    pub state: Option<State<'a>>,
    /// The undecided delivery of the first id, if there is one.
    pub told: Option<ToldDelivery<'a>>,
}

/// L12: a disposition of role sender.
#[derive(Clone, Copy)]
pub struct SettlingFacts {
    pub first: u32,
    pub last: u32,
    pub is_settled: bool,
    /// The earliest delivery to the client of the first id that is to be settled, by the record that began it.
    pub to_settle: Option<u64>,
}

/// What the row that a note names tells of the delivery.
fn row_of<'a, P: Outcomes<'a>>(
    past: &P,
    rules: &RuleSet,
    delivery: &Incoming,
    note: Note,
) -> Option<Told<'a>>
    requires few { P.is_short past.now }
    ensures { (history : Events) → P.stands_for past.now rules.now history → P.knows_incoming past.now (incoming_view delivery.now) history →
        (option_map told_view result ≡ row_of rules.now (incoming_view delivery.now) history note) }
{
    match note {
        Note::Told(why) => row(past, rules, delivery, why),
        Note::None | Note::Pair(_) => None,
    }
}

/// The best verdict of the copies of a multicast delivery, where each that is due has its own.
fn verdict_of<'a, P: Outcomes<'a>>(
    past: &P,
    rules: &RuleSet,
    delivery: &Incoming,
) -> Option<Outcome>
    requires few { P.is_short past.now }
    ensures { (history : Events) → P.stands_for past.now rules.now history → P.knows_incoming past.now (incoming_view delivery.now) history →
        (result ≡ verdict_of rules.now (incoming_view delivery.now) history) }
{
    if past.is_of_multicast(rules, delivery) {
        past.whole_verdict(rules, delivery)
    } else {
        None
    }
}

/// How the delivery to a client stands.
fn carrier_standing<'a, P: Outcomes<'a>>(past: &P, outgoing: Outgoing<'a>) -> Carrier<'a>
    ensures same { outgoing_view result.outgoing ≡ outgoing_view outgoing.entry }
    ensures stands { (rules : RuleSet) (history : Events) → P.stands_for past.now rules history → P.knows_outgoing past.now (outgoing_view outgoing.entry) history → IsCarrier history result }
{
    Carrier {
        outgoing,
        is_sent: past.is_sent(&outgoing),
        is_live: past.is_live(&outgoing.link),
        decision: past.decision(&outgoing),
    }
}

/// How the last delivery to a client stands that carries this one, if there is one.
fn carrier_of<'a, P: Outcomes<'a>>(past: &P, delivery: &Incoming) -> Option<Carrier<'a>>
    ensures same { (rules : RuleSet) (history : Events) → P.stands_for past.now rules history → P.knows_incoming past.now (incoming_view delivery.now) history →
        (option_map (λ c. outgoing_view c.outgoing) result ≡ sent.pairing (incoming_view delivery.now) history) }
    ensures stands { (rules : RuleSet) (history : Events) → P.stands_for past.now rules history → P.knows_incoming past.now (incoming_view delivery.now) history → IfSome result (IsCarrier history) }
{
    match past.pairing(delivery) {
        Some(outgoing) => Some(carrier_standing(past, outgoing)),
        None => None,
    }
}

/// How the delivery stands.
fn standing<'a, P: Outcomes<'a>, C: Payloads<'a>>(
    past: &P,
    contents: &C,
    rules: &RuleSet,
    delivery: Incoming<'a>,
    note: Note,
) -> ToldDelivery<'a>
    requires few { P.is_short past.now }
    ensures same { incoming_view result.delivery ≡ incoming_view delivery.entry }
    ensures told { (history : Events) → P.stands_for past.now rules.now history → C.tells_of contents.now rules.now history → P.knows_incoming past.now (incoming_view delivery.entry) history →
        C.knows contents.now (incoming_view delivery.entry) → AreTold rules.now note history result }
{
    ToldDelivery {
        delivery,
        is_complete: past.is_complete(&delivery),
        is_closed: past.is_closed(&delivery),
        address: contents.address(&delivery),
        is_multicast: past.is_of_multicast(rules, &delivery),
        verdict: verdict_of(past, rules, &delivery),
        is_gone: past.is_gone(rules, &delivery),
        frame_limit: past.frame_limit(delivery.link.session.connection),
        row: row_of(past, rules, &delivery, note),
        carrier: carrier_of(past, &delivery),
    }
}

/// The delivery that begins in the record of this number, if there is a number, and how it stands.
fn told_delivery<'a, P: Outcomes<'a>, C: Payloads<'a>>(
    past: &P,
    contents: &C,
    rules: &RuleSet,
    number: Option<u64>,
    note: Note,
) -> Option<ToldDelivery<'a>>
    requires few { P.is_short past.now }
    ensures same { (history : Events) → P.stands_for past.now rules.now history → IfSome number (λ n. P.knows_number past.now n history) →
        (option_map (λ told. incoming_view told.delivery) result ≡ option_and_then (λ n. received.incoming_at n history) number) }
    ensures told { (history : Events) → P.stands_for past.now rules.now history → C.tells_of contents.now rules.now history → ((d : law_events.Incoming) → P.knows_incoming past.now d history → C.knows contents.now d) → IfSome number (λ n. P.knows_number past.now n history) → IfSome result (AreTold rules.now note history) }
{
    match past.incoming_at(number?) {
        Some(delivery) => Some(standing(past, contents, rules, delivery, note)),
        None => None,
    }
}

/// L11.
pub(crate) fn outcome_facts<'a, P: Outcomes<'a>, C: Payloads<'a>>(
    past: &P,
    contents: &C,
    rules: &RuleSet,
    event: &Event<'a, '_, 'a>,
) -> Option<OutcomeFacts<'a>>
    requires few { P.is_short past.now }
    ensures facts { (history : Events) → P.stands_for past.now rules.now history → C.tells_of contents.now rules.now history → ((d : law_events.Incoming) → P.knows_incoming past.now d history → C.knows contents.now d) → IfSome (event_view event.now).told (λ n. P.knows_number past.now n history) → IfSome result (AreOutcome rules.now (event_view event.now) history) }
    ensures there { is_some result ≡ is_some (said.out_disposition (event_view event.now)) }
{
    let disposition = event.out_disposition()?;
    Some(OutcomeFacts {
        first: disposition.first,
        last: disposition.last_id(),
        is_settled: disposition.is_settled(),
        note: event.note,
        state: disposition.state,
        told: told_delivery(past, contents, rules, event.told, event.note),
    })
}

/// L12.
pub(crate) fn settling_facts(event: &Event) -> Option<SettlingFacts>
    ensures facts { IfSome result (AreSettling (event_view event.now)) }
    ensures there { is_some result ≡ is_some (said.out_disposition (event_view event.now)) }
{
    let disposition = event.out_disposition()?;
    Some(SettlingFacts {
        first: disposition.first,
        last: disposition.last_id(),
        is_settled: disposition.is_settled(),
        to_settle: event.settled,
    })
}
