//! The law: the clauses that each record which the router has written must meet.

ghost use Rattle.capture_form.specs.Rules.{RuleSet};
ghost use Rattle.std.specs.Prelude.{◌≡◌, IfSome, List, Some, None, if◌then◌else◌, find, length, not};
ghost use Rattle.amqp_perf.specs.View.{disposition_fields, transfer_fields, attach_fields};
ghost use Rattle.trace_events.specs.Words.{is_some_and};
ghost use Rattle.trace_events.specs.Said.{as_transfer, out_transfer};
ghost use Rattle.trace_events.specs.Session.{StandsLive};
ghost use Rattle.trace_events.specs.Link.{NamesLive};
ghost use Rattle.trace_events.specs.Known.{CarriesKnown};
ghost use Rattle.trace_events.specs.View.{event_view, spoken_view, frame_view, Events};
ghost use Rattle.trace_events.specs.LinkClause.{answers_attach};
ghost use Rattle.trace_events.specs.declared.clause.Clause.TheVariants as clauses;
ghost use Rattle.trace_events.specs.Clauses as law;
ghost use Rattle.trace_events.specs.TransferClause as transfers;

mod connection;
mod disposition;
pub(crate) mod flow;
mod link;
mod session;
pub(crate) mod transfer;

use self::connection::{fits_limit, may_be_written};
use self::disposition::{is_outcome, settles_one};
use self::flow::tells_counts;
use self::link::{answers_attach, may_detach};
use self::session::{answers_begin, may_end};
use self::transfer::{
    carries, goes_on_with, goes_once_and_in_order, has_address_and_form, has_credit_and_next_id,
    has_link_and_window,
};
use crate::questions::{Carriage, Counts, Inputs, Openings, Outcomes, Questions};
use amqp_perf::{Attach, Disposition, Performative, Role, Transfer};
use capture_form::RuleSet;
use pairing_cert::Note;
use trace_events::{Clause, Event, Frame, Moment, Spoken};

/// L14: no note.
fn has_no_note(note: Note) -> bool
    ensures { result ≡ law.has_no_note note }
{
    matches!(note, Note::None)
}

/// The clause, unless it is met.
fn unless_met(clause: Clause, is_met: bool) -> Option<Clause>
    ensures { result ≡ (if is_met then None else Some clause) }
{
    if is_met { None } else { Some(clause) }
}

/// This clause, unless it is met; then L14, unless there is no note.
fn first_broken(clause: Clause, is_met: bool, note: Note) -> Option<Clause>
    ensures { result ≡ (if is_met then (if law.has_no_note note then None else Some clauses.L14) else Some clause) }
{
    if is_met {
        unless_met(Clause::L14, has_no_note(note))
    } else {
        Some(clause)
    }
}

// The first clause that is broken, by what is written.

fn broken_by_transfer<'a, P: Counts + Carriage<'a> + Outcomes<'a>>(
    past: &P,
    rules: &RuleSet,
    event: &Event,
    transfer: &Transfer,
    payload: &'a [u8],
) -> Option<Clause>
    requires few { P.is_short past.now }
    ensures whole { (history : Events) → P.stands_for past.now rules.now history → P.is_whole past.now → StandsLive (event_view event.now) history → NamesLive (event_view event.now) history →
        (event_view event.now).number ≡ length history →
        CarriesKnown (λ n. P.knows_number past.now n history) (λ j. P.knows_outgoing past.now j history) (event_view event.now) →
        (result ≡ find (λ clause. not (law.transfer_meets rules.now (event_view event.now) (transfer_fields transfer.now) payload.now history clause)) law.clauses) }
    // Where what links carried last is kept, what is found unbroken is so.
    ensures last { (history : Events) → P.stands_for past.now rules.now history → P.keeps_last past.now history → StandsLive (event_view event.now) history → NamesLive (event_view event.now) history →
        (event_view event.now).number ≡ length history →
        CarriesKnown (λ n. P.knows_number past.now n history) (λ j. P.knows_outgoing past.now j history) (event_view event.now) →
        result ≡ None → find (λ clause. not (law.transfer_meets rules.now (event_view event.now) (transfer_fields transfer.now) payload.now history clause)) law.clauses ≡ None }
    // Where it can tell of what the transfer carries too, it is the first that is broken.
    ensures known { (history : Events) → P.stands_for past.now rules.now history → P.keeps_last past.now history → StandsLive (event_view event.now) history → NamesLive (event_view event.now) history →
        (event_view event.now).number ≡ length history →
        CarriesKnown (λ n. P.knows_number past.now n history) (λ j. P.knows_outgoing past.now j history) (event_view event.now) →
        IfSome (transfers.to_carry rules.now (event_view event.now).note history) (λ d. P.knows_incoming past.now d history) →
        (result ≡ find (λ clause. not (law.transfer_meets rules.now (event_view event.now) (transfer_fields transfer.now) payload.now history clause)) law.clauses) }
{
    let begins = event.begins_outgoing();
    if !has_link_and_window(past, event, transfer) {
        return Some(Clause::L4);
    }
    let Some(link) = event.link else {
        return Some(Clause::L4);
    };
    if begins && !has_credit_and_next_id(past, &link, transfer) {
        return Some(Clause::L5);
    }
    if !begins && !goes_on_alike(event, transfer) {
        return Some(Clause::L6);
    }
    let Some(delivery) = past.to_carry(rules, event.note) else {
        return Some(Clause::L7);
    };
    if !has_address_and_form(past, event, &link, transfer, &delivery) {
        return Some(Clause::L7);
    }
    if !carries(past, event, transfer, payload, &delivery) {
        return Some(Clause::L8);
    }
    let is_met = !begins || goes_once_and_in_order(past, rules, &link, &delivery);
    unless_met(Clause::L9, is_met)
}

fn broken_by_disposition<'a, P: Outcomes<'a>>(
    past: &P,
    rules: &RuleSet,
    event: &Event,
    disposition: &Disposition,
) -> Option<Clause>
    requires few { P.is_short past.now }
    ensures { (history : Events) → P.stands_for past.now rules.now history →
        IfSome (event_view event.now).told (λ n. P.knows_number past.now n history) →
        (result ≡ find (λ clause. not (law.disposition_meets rules.now (event_view event.now) (disposition_fields disposition.now) history
        (disposition_fields disposition.now).role clause)) law.clauses) }
{
    match disposition.role {
        Role::Receiver => unless_met(Clause::L11, is_outcome(past, rules, event, disposition)),
        Role::Sender if settles_one(disposition) && event.settled.is_some() => {
            unless_met(Clause::L14, has_no_note(event.note))
        }
        Role::Sender => Some(Clause::L12),
    }
}

/// The clause of what is neither a transfer nor a disposition, apart from its note.
fn broken_by_other<'a, P: Inputs<'a> + Openings<'a> + Counts>(
    past: &P,
    rules: &RuleSet,
    event: &Event,
    spoken: &Spoken,
) -> Option<Clause>
    requires few { P.is_short past.now }
    ensures { (history : Events) → P.stands_for past.now rules.now history → StandsLive (event_view event.now) history → NamesLive (event_view event.now) history →
        (result ≡ find (λ clause. not (law.other_meets rules.now (event_view event.now) (spoken_view spoken.now).channel history
        (spoken_view spoken.now).meaning clause)) law.clauses) }
{
    let note = event.note;
    match &spoken.performative {
        Performative::Begin(begin) => {
            let is_met = answers_begin(past, event.connection, spoken.channel, begin);
            first_broken(Clause::L2, is_met, note)
        }
        Performative::Attach(attach) => {
            first_broken(Clause::L3, answers_live(past, event, attach), note)
        }
        Performative::Flow(flow) => {
            first_broken(Clause::L10, tells_counts(past, rules, event, flow), note)
        }
        Performative::Detach(detach) => {
            first_broken(Clause::L13, may_detach(past, event, detach), note)
        }
        Performative::End(_) => {
            first_broken(Clause::L13, may_end(past, event, spoken.channel), note)
        }
        _ => unless_met(Clause::L14, has_no_note(note)),
    }
}

/// On a live session, the answer to the client's attach.
fn answers_live<'a, P: Openings<'a>>(past: &P, event: &Event, attach: &Attach) -> bool
    ensures { (rules : RuleSet) (history : Events) → P.stands_for past.now rules history → StandsLive (event_view event.now) history →
        (result ≡ is_some_and (event_view event.now).session (answers_attach (attach_fields attach.now) history)) }
{
    match event.session {
        Some(session) => answers_attach(past, attach, session),
        None => false,
    }
}

/// A performative: L1 speaks of each.
fn broken_by_spoken<'a, 'm: 'a, P: Questions<'a>>(
    past: &P,
    rules: &RuleSet,
    event: &Event<'_, '_, 'm>,
    frame: &Frame,
    spoken: &Spoken<'m>,
) -> Option<Clause>
    requires few { P.is_short past.now }
    ensures whole { (history : Events) → P.stands_for past.now rules.now history → P.is_whole past.now → StandsLive (event_view event.now) history → NamesLive (event_view event.now) history →
        (event_view event.now).number ≡ length history →
        CarriesKnown (λ n. P.knows_number past.now n history) (λ j. P.knows_outgoing past.now j history) (event_view event.now) →
        (result ≡ law.broken_by rules.now (event_view event.now) (frame_view frame.now) history (Some (spoken_view spoken.now))) }
    // Where what links carried last is kept, what is found unbroken is so.
    ensures last { (history : Events) → P.stands_for past.now rules.now history → P.keeps_last past.now history → StandsLive (event_view event.now) history → NamesLive (event_view event.now) history →
        (event_view event.now).number ≡ length history →
        CarriesKnown (λ n. P.knows_number past.now n history) (λ j. P.knows_outgoing past.now j history) (event_view event.now) →
        result ≡ None → law.broken_by rules.now (event_view event.now) (frame_view frame.now) history (Some (spoken_view spoken.now)) ≡ None }
    // Where it can tell of what a transfer carries too, it is the first that is broken.
    ensures known { (history : Events) → P.stands_for past.now rules.now history → P.keeps_last past.now history → StandsLive (event_view event.now) history → NamesLive (event_view event.now) history →
        (event_view event.now).number ≡ length history →
        CarriesKnown (λ n. P.knows_number past.now n history) (λ j. P.knows_outgoing past.now j history) (event_view event.now) →
        IfSome (as_transfer (spoken_view spoken.now).meaning) (λ fields. IfSome (transfers.to_carry rules.now (event_view event.now).note history) (λ d. P.knows_incoming past.now d history)) →
        (result ≡ law.broken_by rules.now (event_view event.now) (frame_view frame.now) history (Some (spoken_view spoken.now))) }
{
    if !may_be_written(past, event.connection, spoken)
        || !fits_limit(past, event.connection, frame)
    {
        return Some(Clause::L1);
    }
    match &spoken.performative {
        Performative::Transfer(transfer) => {
            broken_by_transfer(past, rules, event, transfer, spoken.payload)
        }
        Performative::Disposition(disposition) => broken_by_disposition(
            past,
            rules,
            event,
            disposition,
        ),
        _ => broken_by_other(past, rules, event, spoken),
    }
}

/// The first clause that an event breaks: only what the router wrote breaks one. A frame of the router's that is no performative
/// breaks L1. `None` where it breaks none.
pub fn broken_clause<'a, 'm: 'a, P: Questions<'a>>(
    past: &P,
    rules: &RuleSet,
    event: &Event<'_, '_, 'm>,
) -> Option<Clause>
    requires few { P.is_short past.now }
    ensures whole { (history : Events) → P.stands_for past.now rules.now history → P.is_whole past.now → StandsLive (event_view event.now) history → NamesLive (event_view event.now) history →
        (event_view event.now).number ≡ length history →
        CarriesKnown (λ n. P.knows_number past.now n history) (λ j. P.knows_outgoing past.now j history) (event_view event.now) →
        (result ≡ law.broken_clause rules.now (event_view event.now) history) }
    // Where what links carried last is kept, what is found unbroken is so.
    ensures last { (history : Events) → P.stands_for past.now rules.now history → P.keeps_last past.now history → StandsLive (event_view event.now) history → NamesLive (event_view event.now) history →
        (event_view event.now).number ≡ length history →
        CarriesKnown (λ n. P.knows_number past.now n history) (λ j. P.knows_outgoing past.now j history) (event_view event.now) →
        result ≡ None → law.broken_clause rules.now (event_view event.now) history ≡ None }
    // Where it can tell of what a transfer carries too, it is the first that is broken.
    ensures known { (history : Events) → P.stands_for past.now rules.now history → P.keeps_last past.now history → StandsLive (event_view event.now) history → NamesLive (event_view event.now) history →
        (event_view event.now).number ≡ length history →
        CarriesKnown (λ n. P.knows_number past.now n history) (λ j. P.knows_outgoing past.now j history) (event_view event.now) →
        IfSome (out_transfer (event_view event.now)) (λ fields. IfSome (transfers.to_carry rules.now (event_view event.now).note history) (λ d. P.knows_incoming past.now d history)) →
        (result ≡ law.broken_clause rules.now (event_view event.now) history) }
{
    let Moment::Out(frame) = event.moment else {
        return None;
    };
    match frame.spoken() {
        Some(spoken) => broken_by_spoken(past, rules, event, frame, spoken),
        None => Some(Clause::L1),
    }
}

/// A later transfer goes on with its delivery.
fn goes_on_alike(event: &Event, transfer: &Transfer) -> bool
    ensures { let e = event_view event.now in
        result ≡ is_some_and e.outgoing (λ j. transfers.goes_on_with j e.note (transfer_fields transfer.now)) }
{
    match event.outgoing {
        Some(delivery) => goes_on_with(&delivery, event.note, transfer),
        None => false,
    }
}
