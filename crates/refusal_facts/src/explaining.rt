//! The reason of an event.

ghost use Rattle.capture_form.specs.Rules.{RuleSet};
ghost use Rattle.std.specs.Prelude.{List, ◌≡◌, ◌||◌, true, IfSome, is_some, length, option_map};
ghost use Rattle.trace_events.specs.Event as law_events;
ghost use Rattle.trace_events.specs.Said as said;
ghost use Rattle.trace_events.specs.Session.{StandsLive};
ghost use Rattle.trace_events.specs.Link.{NamesLive};
ghost use Rattle.trace_events.specs.Words.{is_some_and};
ghost use Rattle.trace_events.specs.declared.clause.Clause.TheVariants as clauses;
ghost use Rattle.trace_events.specs.Clauses as law;
ghost use Rattle.trace_events.specs.Known.{CarriesKnown};
ghost use Rattle.trace_events.specs.View.{Events, event_view};
ghost use Rattle.refusal_facts.specs.Facts.{AreFacts, IsReasonOf, has_facts, is_of};

use crate::connection::{frame_facts, writing_facts};
use crate::ending::{detach_facts, end_facts};
use crate::flow::flow_facts;
use crate::opening::{attach_facts, begin_facts};
use crate::outcome::{outcome_facts, settling_facts};
use crate::payload::payload_facts;
use crate::payloads::Payloads;
use crate::reason::{Facts, Reason};
use crate::transfer::{
    beginning_facts, carrying_facts, going_on_facts, order_facts, sending_facts,
};
use capture_form::RuleSet;
use trace_events::{Clause, Event};
use trace_judge::{Questions, broken_clause};

/// The reason why an event is refused, if it breaks a clause. The past must be able to tell of what the event carries, and
/// `contents` of the deliveries of which the past can tell.
#[tactic(auto, using(crate::proofs::HasFacts::broken_has))]
pub fn explain<'a, P: Questions<'a>, C: Payloads<'a>>(
    past: &P,
    contents: &C,
    rules: &RuleSet,
    event: &Event<'a, '_, 'a>,
) -> Option<Reason<'a>>
    requires few { P.is_short past.now }
    // There is a reason just where a clause is broken, and it names the first one.
    ensures clause { (history : Events) → P.stands_for past.now rules.now history → P.is_whole past.now → StandsLive (event_view event.now) history → NamesLive (event_view event.now) history →
        (event_view event.now).number ≡ length history →
        CarriesKnown (λ n. P.knows_number past.now n history) (λ j. P.knows_outgoing past.now j history) (event_view event.now) →
        (option_map (λ reason. reason.clause) result ≡ law.broken_clause rules.now (event_view event.now) history) }
    // It has what this clause compares, and each number is the law's at this event.
    ensures facts { (history : Events) → P.stands_for past.now rules.now history → P.is_whole past.now → C.tells_of contents.now rules.now history → ((d : law_events.Incoming) → P.knows_incoming past.now d history → C.knows contents.now d) →
        ((j : law_events.Outgoing) → P.knows_outgoing past.now j history → C.knows_sent contents.now j history) →
        StandsLive (event_view event.now) history → NamesLive (event_view event.now) history →
        (event_view event.now).number ≡ length history →
        CarriesKnown (λ n. P.knows_number past.now n history) (λ j. P.knows_outgoing past.now j history) (event_view event.now) →
        IfSome result (IsReasonOf rules.now (λ n. P.knows_number past.now n history) (event_view event.now) history) }
{
    match broken_clause(past, rules, event) {
        Some(clause) => Some(Reason {
            number: event.number,
            connection: event.connection,
            channel: event.moment.channel(),
            clause,
            facts: facts_of(past, contents, rules, event, clause),
        }),
        None => None,
    }
}

/// What the clause compares at this event.
fn facts_of<'a, P: Questions<'a>, C: Payloads<'a>>(
    past: &P,
    contents: &C,
    rules: &RuleSet,
    event: &Event<'a, '_, 'a>,
    clause: Clause,
) -> Facts<'a>
    requires few { P.is_short past.now }
    ensures facts { (history : Events) → P.stands_for past.now rules.now history → P.is_whole past.now → C.tells_of contents.now rules.now history → ((d : law_events.Incoming) → P.knows_incoming past.now d history → C.knows contents.now d) →
        ((j : law_events.Outgoing) → P.knows_outgoing past.now j history → C.knows_sent contents.now j history) →
        StandsLive (event_view event.now) history → NamesLive (event_view event.now) history →
        (event_view event.now).number ≡ length history →
        CarriesKnown (λ n. P.knows_number past.now n history) (λ j. P.knows_outgoing past.now j history) (event_view event.now) →
        AreFacts rules.now (λ n. P.knows_number past.now n history) (event_view event.now) history result }
    ensures kind { (history : Events) → P.stands_for past.now rules.now history → P.is_whole past.now → has_facts rules.now (event_view event.now) history clause ≡ true → is_of clause result ≡ true }
{
    match facts_by(past, contents, rules, event, clause) {
        Some(facts) => facts,
        None => Facts::Nothing,
    }
}

/// What the clause compares at this event, if the event has it.
fn facts_by<'a, P: Questions<'a>, C: Payloads<'a>>(
    past: &P,
    contents: &C,
    rules: &RuleSet,
    event: &Event<'a, '_, 'a>,
    clause: Clause,
) -> Option<Facts<'a>>
    requires few { P.is_short past.now }
    ensures facts { (history : Events) → P.stands_for past.now rules.now history → P.is_whole past.now → C.tells_of contents.now rules.now history → ((d : law_events.Incoming) → P.knows_incoming past.now d history → C.knows contents.now d) →
        ((j : law_events.Outgoing) → P.knows_outgoing past.now j history → C.knows_sent contents.now j history) →
        StandsLive (event_view event.now) history → NamesLive (event_view event.now) history →
        (event_view event.now).number ≡ length history →
        CarriesKnown (λ n. P.knows_number past.now n history) (λ j. P.knows_outgoing past.now j history) (event_view event.now) →
        IfSome result (AreFacts rules.now (λ n. P.knows_number past.now n history) (event_view event.now) history) }
    ensures kind { (history : Events) → P.stands_for past.now rules.now history → P.is_whole past.now → has_facts rules.now (event_view event.now) history clause ≡ true → is_some_and result (is_of clause) ≡ true }
{
    match clause {
        Clause::L1 => frame_or_writing(past, event),
        Clause::L2 => Some(Facts::Begin(begin_facts(past, event)?)),
        Clause::L3 => Some(Facts::Attach(attach_facts(past, event)?)),
        Clause::L4 => Some(Facts::Sending(sending_facts(past, event)?)),
        Clause::L5 => Some(Facts::Beginning(beginning_facts(past, event)?)),
        Clause::L6 => Some(Facts::GoingOn(going_on_facts(event)?)),
        Clause::L7 => Some(Facts::Carrying(carrying_facts(past, contents, rules, event)?)),
        Clause::L8 => Some(Facts::Payload(payload_facts(past, contents, rules, event)?)),
        Clause::L9 => Some(Facts::Order(order_facts(past, contents, rules, event)?)),
        Clause::L10 => Some(Facts::Flow(flow_facts(past, rules, event)?)),
        Clause::L11 => Some(Facts::Outcome(outcome_facts(past, contents, rules, event)?)),
        Clause::L12 => Some(Facts::Settling(settling_facts(event)?)),
        Clause::L13 => detach_or_end(past, event),
        Clause::L14 => Some(Facts::Noted(event.note)),
    }
}

/// L1: a frame that is no performative, or one that is.
fn frame_or_writing<'a, P: Questions<'a>>(past: &P, event: &Event<'a, '_, 'a>) -> Option<Facts<'a>>
    ensures facts { (rules : RuleSet) (history : Events) → P.stands_for past.now rules history → IfSome result (AreFacts rules (λ n. P.knows_number past.now n history) (event_view event.now) history) }
    ensures kind { is_some (law_events.out_frame (event_view event.now).moment) ≡ true → is_some_and result (is_of clauses.L1) ≡ true }
{
    match frame_facts(event) {
        Some(facts) => Some(Facts::Frame(facts)),
        None => Some(Facts::Writing(writing_facts(past, event)?)),
    }
}

/// L13: a detach, or an end.
fn detach_or_end<'a, P: Questions<'a>>(past: &P, event: &Event<'a, '_, 'a>) -> Option<Facts<'a>>
    ensures facts { (rules : RuleSet) (history : Events) → P.stands_for past.now rules history → StandsLive (event_view event.now) history → IfSome result (AreFacts rules (λ n. P.knows_number past.now n history) (event_view event.now) history) }
    ensures kind { (is_some (said.out_detach (event_view event.now)) || said.is_out_end (event_view event.now)) ≡ true → is_some_and result (is_of clauses.L13) ≡ true }
{
    match detach_facts(past, event) {
        Some(facts) => Some(Facts::Detach(facts)),
        None => Some(Facts::End(end_facts(past, event)?)),
    }
}
