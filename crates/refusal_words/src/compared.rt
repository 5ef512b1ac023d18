//! The records that an explanation names, which the refused one is compared with.

ghost use Rattle.std.specs.Prelude.{◌≡◌};
ghost use Rattle.trace_events.specs.Outgoing.{noted_number};
ghost use Rattle.refusal_words.specs.Compared as spec;
ghost use Rattle.refusal_words.specs.declared.compared.Granting.{Granting};

use crate::Origins;
use crate::transfer::{origin_of, window_origin_of};
use pairing_cert::Note;
use refusal_facts::{
    Carrier, Facts, FlowLink, Incoming, Link, Named, OrderFacts, Outgoing, Reason, SessionNumbers,
    ToldDelivery,
};
use trace_events::Session;

/// The records that a refused one is compared with: those of the session, the link and the deliveries that its explanation names,
/// and those from which a window or a credit comes.
#[derive(Clone, Copy, Debug)]
pub struct Compared {
    // A place that is not needed has the number of the refused record.
    numbers: [u64; 8],
}

/// Where the window or the credit comes from that a clause compares.
#[derive(Clone, Copy, Debug)]
struct Granting {
    /// The flow or the begin of the client that granted it.
    granted: Option<u64>,
    /// The flow of the router that used it up, as an answer to a drain.
    answered: Option<u64>,
}

impl Granting {
    ghost use Rattle.std.specs.Prelude.{◌≡◌};
    ghost use Rattle.refusal_words.specs.Compared as spec;

    /// The clause compares none.
    const NOTHING: Granting = Granting {
        granted: None,
        answered: None,
    };

    /// Places for one or two records that the clause compares, and at the end for those from which its window or credit comes.
    fn beside(self, refused: u64, one: Option<u64>, other: Option<u64>) -> [u64; 8]
        ensures { result ≡ spec.in_places refused self (spec.two one other) }
    {
        [
            in_front(refused, one),
            in_front(refused, other),
            refused,
            refused,
            refused,
            refused,
            in_front(refused, self.granted),
            in_front(refused, self.answered),
        ]
    }

    /// The same for up to six records.
    fn behind(
        self,
        refused: u64,
        named: (
            Option<u64>,
            Option<u64>,
            Option<u64>,
            Option<u64>,
            Option<u64>,
            Option<u64>,
        ),
    ) -> [u64; 8]
        ensures { result ≡ spec.in_places refused self (spec.six named) }
    {
        [
            in_front(refused, named.0),
            in_front(refused, named.1),
            in_front(refused, named.2),
            in_front(refused, named.3),
            in_front(refused, named.4),
            in_front(refused, named.5),
            in_front(refused, self.granted),
            in_front(refused, self.answered),
        ]
    }
}

impl Compared {
    /// Their numbers, in no order. None is behind that of the refused record, which stands for one that a note names and that is
    /// not in front of it, and in places that are not needed.
    pub fn numbers(&self) -> &[u64]
        ensures { result.now ≡ spec.numbers_of self.now }
    {
        &self.numbers
    }
}

/// The records that the explanation of this reason names.
pub fn compared_with(reason: &Reason, origins: &Origins) -> Compared
    // Of those that the clause compares none is left out, and no other is named, but for two from which a window or a credit comes.
    ensures named { (granting : Granting) × (spec.numbers_of result ≡ spec.in_places reason.now.number granting (spec.named_in reason.now.facts)) }
{
    let granting = granting_in(&reason.facts, origins);
    Compared {
        numbers: named_in(&reason.facts, reason.number, granting),
    }
}

/// The number of a record in front of the refused one; that of the refused one where there is none.
fn in_front(refused: u64, number: Option<u64>) -> u64
    ensures { result ≡ spec.in_front refused number }
{
    match number {
        Some(number) if number < refused => number,
        _ => refused,
    }
}

/// The records of what the clause compares, and where its window or its credit comes from.
fn named_in(facts: &Facts, refused: u64, granting: Granting) -> [u64; 8]
    ensures { result ≡ spec.in_places refused granting (spec.named_in facts.now) }
{
    match facts {
        Facts::Attach(facts) => granting.beside(refused, session_number(&facts.session), None),
        Facts::Sending(facts) => granting.beside(
            refused,
            session_number(&facts.session),
            link_number(&facts.link),
        ),
        Facts::Beginning(facts) => granting.beside(refused, Some(facts.link.number), None),
        Facts::GoingOn(facts) => going_on(refused, granting, &facts.first, facts.note),
        Facts::Carrying(facts) => granting.beside(
            refused,
            Some(facts.link.number),
            named_number(&facts.named),
        ),
        Facts::Payload(facts) => granting.beside(refused, Some(facts.delivery.number), None),
        Facts::Order(facts) => order(refused, granting, facts),
        Facts::Flow(facts) => granting.beside(
            refused,
            flow_session(&facts.session),
            flow_link(&facts.link),
        ),
        Facts::Outcome(facts) => told(refused, granting, &facts.told),
        Facts::Settling(facts) => granting.beside(refused, facts.to_settle, None),
        Facts::Detach(facts) => granting.beside(
            refused,
            session_number(&facts.session),
            link_number(&facts.link),
        ),
        Facts::End(facts) => granting.beside(refused, session_number(&facts.session), None),
        Facts::Noted(note) => granting.beside(refused, noted(*note), None),
        Facts::Frame(_) | Facts::Writing(_) | Facts::Begin(_) | Facts::Nothing => granting.beside(
            refused, None, None,
        ),
    }
}

/// The record of the router's begin.
fn session_number(session: &Option<Session>) -> Option<u64>
    ensures { result ≡ spec.session_number session.now }
{
    match session {
        Some(session) => Some(session.number),
        None => None,
    }
}

fn flow_session(numbers: &Option<SessionNumbers>) -> Option<u64>
    ensures { result ≡ spec.flow_session numbers.now }
{
    match numbers {
        Some(numbers) => Some(numbers.session.number),
        None => None,
    }
}

/// The record of the router's attach.
fn link_number(link: &Option<Link>) -> Option<u64>
    ensures { result ≡ spec.link_number link.now }
{
    match link {
        Some(link) => Some(link.number),
        None => None,
    }
}

fn flow_link(link: &FlowLink) -> Option<u64>
    ensures { result ≡ spec.flow_link link.now }
{
    match link {
        FlowLink::Producer(numbers) => Some(numbers.link.number),
        FlowLink::Consumer(numbers) => Some(numbers.link.number),
        FlowLink::Nothing | FlowLink::NotLive(_) => None,
    }
}

/// The record that a note names.
fn noted(note: Note) -> Option<u64>
    ensures { result ≡ noted_number note }
{
    match note {
        Note::Pair(number) => Some(number),
        Note::None | Note::Told(_) => None,
    }
}

/// The first transfer of the delivery in progress, and what both notes name.
fn going_on(refused: u64, granting: Granting, first: &Option<Outgoing>, note: Note) -> [u64; 8]
    ensures { result ≡ spec.in_places refused granting (spec.going_on first.now note) }
{
    match first {
        Some(first) => {
            let named = (
                Some(first.number),
                noted(note),
                noted(first.note),
                None,
                None,
                None,
            );
            granting.behind(refused, named)
        }
        None => granting.beside(refused, None, None),
    }
}

/// The number of the delivery that a note names.
fn named_number(named: &Named) -> Option<u64>
    ensures { result ≡ spec.named_number named.now }
{
    match named {
        Named::Carried(delivery) => Some(delivery.number),
        Named::Kept { delivery, .. } => Some(delivery.number),
        Named::Unknown(number) => Some(*number),
        Named::Nothing => None,
    }
}

/// The link, the delivery, and the one that the link carried last, with what completed them; and who was sent this one before.
fn order(refused: u64, granting: Granting, facts: &OrderFacts) -> [u64; 8]
    ensures { result ≡ spec.in_places refused granting (spec.order facts.now) }
{
    let named = (
        Some(facts.link.number),
        Some(facts.delivery.number),
        facts.completion,
        sent_before(&facts.carrier),
        incoming_number(&facts.before),
        facts.before_completion,
    );
    granting.behind(refused, named)
}

fn sent_before(carrier: &Option<Outgoing>) -> Option<u64>
    ensures { result ≡ spec.sent_before carrier.now }
{
    match carrier {
        Some(carrier) => Some(carrier.number),
        None => None,
    }
}

fn incoming_number(delivery: &Option<Incoming>) -> Option<u64>
    ensures { result ≡ spec.incoming_number delivery.now }
{
    match delivery {
        Some(delivery) => Some(delivery.number),
        None => None,
    }
}

/// The delivery whose outcome is told, and the transfer that carried it.
fn told(refused: u64, granting: Granting, told: &Option<ToldDelivery>) -> [u64; 8]
    ensures { result ≡ spec.in_places refused granting (spec.told told.now) }
{
    match told {
        Some(told) => {
            let carrier = carrier_number(&told.carrier);
            granting.beside(refused, Some(told.delivery.number), carrier)
        }
        None => granting.beside(refused, None, None),
    }
}

fn carrier_number(carrier: &Option<Carrier>) -> Option<u64>
    ensures { result ≡ spec.carrier_number carrier.now }
{
    match carrier {
        Some(carrier) => Some(carrier.outgoing.number),
        None => None,
    }
}

/// Where the window or the credit comes from that the clause compares.
fn granting_in(facts: &Facts, origins: &Origins) -> Granting {
    match facts {
        Facts::Sending(facts) => match &facts.session {
            Some(session) => window_granting(session, origins),
            None => Granting::NOTHING,
        },
        Facts::Beginning(facts) => credit_granting(&facts.link, origins),
        Facts::Flow(facts) => match &facts.link {
            FlowLink::Consumer(numbers) => credit_granting(&numbers.link, origins),
            _ => Granting::NOTHING,
        },
        _ => Granting::NOTHING,
    }
}

/// Where the session's window comes from.
fn window_granting(session: &Session, origins: &Origins) -> Granting {
    let granted = match window_origin_of(origins, session) {
        Some(origin) => match (&origin.window, &origin.opened) {
            (Some(window), _) => Some(window.number),
            (None, Some(opened)) => Some(opened.number),
            (None, None) => None,
        },
        None => None,
    };
    Granting {
        granted,
        answered: None,
    }
}

/// Where the link's credit comes from.
fn credit_granting(link: &Link, origins: &Origins) -> Granting {
    match origin_of(origins, link) {
        Some(origin) => match &origin.credit {
            Some(credit) => Granting {
                granted: Some(credit.number),
                answered: origin.drained,
            },
            None => Granting::NOTHING,
        },
        None => Granting::NOTHING,
    }
}
