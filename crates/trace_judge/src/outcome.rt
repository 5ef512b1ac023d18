//! What is told of an incoming delivery, and why (states: part 3 of the standard, section 3.4; the rows are a choice of
//! this router).

ghost use Rattle.capture_form.specs.Rules.{RuleSet};
ghost use Rattle.std.specs.Prelude.{List, ◌≡◌, ◌≤◌, ◌^◌, true, false, None, Some, IfSome, is_some, option_map};
ghost use Rattle.std.specs.List.{list_any};
ghost use Rattle.trace_events.specs.Outcome.{outcome_octets, bare_outcome};
ghost use Rattle.std.specs.Option.{option_copied};
ghost use Rattle.trace_events.specs.Event as law_events;
ghost use Rattle.trace_events.specs.Outgoing.{pairing};
ghost use Rattle.trace_events.specs.Waiting as waiting;
ghost use Rattle.trace_judge.specs.Told.{asks_pairing, decided_view, told_view};
ghost use Rattle.trace_events.specs.View.{incoming_view, outgoing_view, Events};
ghost use Rattle.trace_judge.specs.OutcomeSize as law;
ghost use Rattle.trace_events.specs.BestVerdict as verdicts;
ghost use Rattle.trace_events.specs.Outcome as rows;

use crate::questions::Outcomes;
use amqp_perf::{Outcome, State};
use capture_form::RuleSet;
use pairing_cert::Why;
use trace_events::{Decision, Incoming, Outgoing};

/// The state that is told of a delivery.
#[derive(Clone, Copy)]
pub enum Told<'a> {
    /// No state: the delivery is settled without an outcome.
    Nothing,
    /// An outcome without fields.
    Bare(Outcome),
    /// Modified, with delivery-failed true.
    DeliveryFailed,
    /// A state as its octets came.
    Octets(&'a [u8]),
}

/// How many octets of a frame stand around the fields of a disposition: its header's 8, the descriptor's 3, and code,
/// size and count of the list (part 1, section 1.6.22; part 2, sections 2.3.1 and 2.7.6).
const AROUND_SHORT: u64 = 14;

/// The same of a list whose size and count have four octets each.
const AROUND_LONG: u64 = 20;

/// The role, the absent last id and the settled flag.
const FIXED_FIELDS: u64 = 3;

/// How many octets a uint has (part 1, section 1.6.5).
fn uint_size(n: u32) -> u64
    ensures { result ≡ law.uint_size n }
{
    if n == 0 {
        1
    } else if n < 256 {
        2
    } else {
        5
    }
}

/// How many octets the frame has that tells of the delivery of this id a state of so many octets.
fn outcome_frame_size(id: u32, state: u64) -> u64
    requires { state ≤ 2 ^ 32 }
    ensures { result ≡ law.outcome_frame_size id state }
{
    let fields = FIXED_FIELDS + uint_size(id) + state;
    if fields + 1 < 256 {
        AROUND_SHORT + fields
    } else {
        AROUND_LONG + fields
    }
}

/// The outcome that a decision tells, as its octets came; none without a terminal state.
fn decided<'a>(decision: &Decision<'a>) -> Told<'a>
    ensures { told_view result ≡ outcome_octets (decided_view decision.now) }
{
    match *decision {
        Decision::Terminal(_, octets) => Told::Octets(octets),
        Decision::Settled => Told::Nothing,
    }
}

/// The same outcome without its fields.
fn decided_bare(decision: &Decision) -> Told<'static>
    ensures { told_view result ≡ bare_outcome (decided_view decision.now) }
{
    match *decision {
        Decision::Terminal(outcome, _) => Told::Bare(outcome),
        Decision::Settled => Told::Nothing,
    }
}

impl<'a> Told<'a> {
    ghost use Rattle.std.specs.Prelude.{◌≡◌};
    ghost use Rattle.std.specs.Option.{option_copied};
    ghost use Rattle.trace_judge.specs.Told.{told_view};
    ghost use Rattle.trace_events.specs.Words.{are_same_octets};

    /// The state has these octets, or there is none.
    pub fn has_octets(&self, state: Option<&[u8]>) -> bool
        ensures { result ≡ are_same_octets (option_copied state.entry) (told_view self.now) }
    {
        let Some(octets) = state else {
            return matches!(self, Told::Nothing);
        };
        match self {
            Told::Nothing => false,
            Told::Bare(outcome) => octets == State::of_outcome(*outcome).raw(),
            Told::DeliveryFailed => octets == State::delivery_failed().raw(),
            Told::Octets(own) => octets == *own,
        }
    }
}

/// The producer takes the frame that tells this state.
#[tactic(auto, using(crate::proofs::OutcomeSizes::outcome_long))]
fn fits_producer<'a, P: Outcomes<'a>>(past: &P, delivery: &Incoming, state: Option<&[u8]>) -> bool
    ensures { (rules : RuleSet) (history : Events) → P.stands_for past.now rules history →
        (result ≡ rows.fits_producer (incoming_view delivery.now) (option_copied state.entry) history) }
{
    let limit = u64::from(past.frame_limit(delivery.link.session.connection));
    let size = match state {
        Some(octets) => octets.len() as u64,
        None => 0,
    };
    size <= limit && outcome_frame_size(delivery.id.unwrap_or(0), size) <= limit
}

/// The producer takes the frame that tells the decision's outcome.
fn takes_decided<'a, P: Outcomes<'a>>(past: &P, delivery: &Incoming, decision: &Decision) -> bool
    ensures { (rules : RuleSet) (history : Events) → P.stands_for past.now rules history →
        (result ≡ rows.fits_producer (incoming_view delivery.now) (rows.outcome_octets (decided_view decision.now)) history) }
{
    match *decision {
        Decision::Terminal(_, octets) => fits_producer(past, delivery, Some(octets)),
        Decision::Settled => fits_producer(past, delivery, None),
    }
}

/// The last transfer to a pre-settled link is written.
fn is_sent_settled<'a, P: Outcomes<'a>>(past: &P, outgoing: &Outgoing) -> bool
    ensures { (rules : RuleSet) (history : Events) → P.stands_for past.now rules history → P.knows_outgoing past.now (outgoing_view outgoing.now) history →
        (result ≡ rows.is_sent_settled (outgoing_view outgoing.now) history) }
{
    outgoing.link.is_pre_settled && past.is_sent(outgoing)
}

/// What row `why` tells of an anycast delivery that went to a consumer, where it applies.
fn paired_row<'a, P: Outcomes<'a>>(
    past: &P,
    delivery: &Incoming,
    outgoing: &Outgoing,
    decision: &Option<Decision<'a>>,
    why: Why,
) -> Option<Told<'a>>
    ensures { (rules : RuleSet) (history : Events) → P.stands_for past.now rules history → P.knows_outgoing past.now (outgoing_view outgoing.now) history → (option_map told_view result
        ≡ rows.paired_row (incoming_view delivery.now) (outgoing_view outgoing.now) history (option_map decided_view decision.now) why) }
{
    match (decision, why) {
        (Some(own), Why::C) if takes_decided(past, delivery, own) => Some(decided(own)),
        (Some(own), Why::Z) if !takes_decided(past, delivery, own) => Some(decided_bare(own)),
        (_, Why::S) if is_sent_settled(past, outgoing) => Some(Told::Bare(Outcome::Accepted)),
        (None, Why::L) if !past.is_live(&outgoing.link) && !is_sent_settled(past, outgoing) => Some(
            Told::DeliveryFailed,
        ),
        _ => None,
    }
}

#[tactic(auto, using(crate::proofs::DecidedRows::row_decided))]
fn anycast_row<'a, P: Outcomes<'a>>(past: &P, delivery: &Incoming, why: Why) -> Option<Told<'a>>
    ensures { (rules : RuleSet) (history : Events) → P.stands_for past.now rules history → P.knows_incoming past.now (incoming_view delivery.now) history → (option_map told_view result
        ≡ rows.anycast_row (incoming_view delivery.now) history why (pairing (incoming_view delivery.now) history)) }
{
    let outgoing = past.pairing(delivery)?;
    let decision = past.decision(&outgoing);
    paired_row(past, delivery, &outgoing, &decision, why)
}

/// The state that tells the verdict of a multicast delivery: modified as delivery failed, whatever its consumers said.
fn verdict_told(outcome: Outcome) -> Told<'static>
    ensures { told_view result ≡ Some (verdicts.told_octets outcome) }
{
    match outcome {
        Outcome::Modified => Told::DeliveryFailed,
        Outcome::Accepted | Outcome::Rejected | Outcome::Released => Told::Bare(outcome),
    }
}

/// What tells the verdict of a multicast delivery, where each copy that is due has its own.
fn whole_told<'a, P: Outcomes<'a>>(
    past: &P,
    rules: &RuleSet,
    delivery: &Incoming,
) -> Option<Told<'a>>
    requires few { P.is_short past.now }
    ensures { (history : Events) → P.stands_for past.now rules.now history → P.knows_incoming past.now (incoming_view delivery.now) history →
        (option_map told_view result ≡ option_map (λ outcome. Some (verdicts.told_octets outcome)) (verdicts.whole_verdict rules.now (incoming_view delivery.now) history)) }
{
    match past.whole_verdict(rules, delivery) {
        Some(outcome) => Some(verdict_told(outcome)),
        None => None,
    }
}

/// What row `why` tells of a delivery, where it applies; `None` where it does not.
pub fn row<'a, P: Outcomes<'a>>(
    past: &P,
    rules: &RuleSet,
    delivery: &Incoming,
    why: Why,
) -> Option<Told<'a>>
    requires few { P.is_short past.now }
    ensures { (history : Events) → P.stands_for past.now rules.now history → P.knows_incoming past.now (incoming_view delivery.now) history →
        (option_map told_view result ≡ rows.row rules.now (incoming_view delivery.now) history why) }
{
    match why {
        Why::N if past.is_gone(rules, delivery) => Some(Told::Bare(Outcome::Released)),
        Why::N => None,
        Why::M if past.is_of_multicast(rules, delivery) => whole_told(past, rules, delivery),
        Why::M => None,
        _ if past.is_of_multicast(rules, delivery) => None,
        _ => anycast_row(past, delivery, why),
    }
}

/// The first of the rows that ask of the decision, and what it tells: the outcome, without its fields where the producer does not
/// take that frame.
fn decided_row<'a, P: Outcomes<'a>>(
    past: &P,
    delivery: &Incoming,
    own: &Decision<'a>,
) -> (Why, Told<'a>)
    ensures tells { (rules : RuleSet) (history : Events) (j : law_events.Outgoing) → P.stands_for past.now rules history →
        rows.paired_row (incoming_view delivery.now) j history (Some (decided_view own.now)) result.0 ≡ Some (told_view result.1) }
    ensures paired { asks_pairing result.0 ≡ true }
{
    if takes_decided(past, delivery, own) {
        (Why::C, decided(own))
    } else {
        (Why::Z, decided_bare(own))
    }
}

/// The first of the rows that apply without a decision, and what it tells.
fn undecided_row<'a, P: Outcomes<'a>>(past: &P, outgoing: &Outgoing) -> Option<(Why, Told<'a>)>
    ensures tells { (rules : RuleSet) (history : Events) (d : law_events.Incoming) → P.stands_for past.now rules history → P.knows_outgoing past.now (outgoing_view outgoing.now) history →
        IfSome result (λ x. rows.paired_row d (outgoing_view outgoing.now) history None x.0 ≡ Some (told_view x.1)) }
    ensures paired { IfSome result (λ x. asks_pairing x.0 ≡ true) }
    ensures none { (rules : RuleSet) (history : Events) (d : law_events.Incoming) → P.stands_for past.now rules history → P.knows_outgoing past.now (outgoing_view outgoing.now) history →
        result ≡ None → (why : Why) → rows.paired_row d (outgoing_view outgoing.now) history None why ≡ None }
{
    if is_sent_settled(past, outgoing) {
        Some((Why::S, Told::Bare(Outcome::Accepted)))
    } else if past.is_live(&outgoing.link) {
        None
    } else {
        Some((Why::L, Told::DeliveryFailed))
    }
}

/// The first of the rows that ask what carried an anycast delivery to its consumer, and what it tells.
fn first_paired_row<'a, P: Outcomes<'a>>(past: &P, delivery: &Incoming) -> Option<(Why, Told<'a>)>
    ensures tells { (rules : RuleSet) (history : Events) → P.stands_for past.now rules history → P.knows_incoming past.now (incoming_view delivery.now) history →
        IfSome result (λ x. rows.anycast_row (incoming_view delivery.now) history x.0 (pairing (incoming_view delivery.now) history) ≡ Some (told_view x.1)) }
    ensures paired { IfSome result (λ x. asks_pairing x.0 ≡ true) }
    ensures none { (rules : RuleSet) (history : Events) → P.stands_for past.now rules history → P.knows_incoming past.now (incoming_view delivery.now) history →
        result ≡ None → (why : Why) → rows.anycast_row (incoming_view delivery.now) history why (pairing (incoming_view delivery.now) history) ≡ None }
{
    let outgoing = past.pairing(delivery)?;
    match past.decision(&outgoing) {
        Some(own) => Some(decided_row(past, delivery, &own)),
        None => undecided_row(past, &outgoing),
    }
}

/// The same, of a delivery that may be of multicast, and then has none.
fn first_anycast_row<'a, P: Outcomes<'a>>(
    past: &P,
    is_multicast: bool,
    delivery: &Incoming,
) -> Option<(Why, Told<'a>)>
    ensures tells { (history : Events) (rules : RuleSet) → P.stands_for past.now rules history → P.knows_incoming past.now (incoming_view delivery.now) history →
        is_multicast ≡ waiting.is_of_multicast rules (incoming_view delivery.now) history →
        IfSome result (λ x. rows.row rules (incoming_view delivery.now) history x.0 ≡ Some (told_view x.1)) }
    ensures none { (history : Events) (rules : RuleSet) → P.stands_for past.now rules history → P.knows_incoming past.now (incoming_view delivery.now) history →
        is_multicast ≡ waiting.is_of_multicast rules (incoming_view delivery.now) history →
        result ≡ None → (why : Why) → asks_pairing why ≡ true → rows.row rules (incoming_view delivery.now) history why ≡ None }
{
    if is_multicast {
        None
    } else {
        first_paired_row(past, delivery)
    }
}

/// A row that applies to a delivery, and what it tells; none where no row does. The decision is asked for once.
pub fn first_row<'a, P: Outcomes<'a>>(
    past: &P,
    rules: &RuleSet,
    delivery: &Incoming,
) -> Option<(Why, Told<'a>)>
    requires few { P.is_short past.now }
    ensures tells { (history : Events) → P.stands_for past.now rules.now history → P.knows_incoming past.now (incoming_view delivery.now) history →
        IfSome result (λ x. rows.row rules.now (incoming_view delivery.now) history x.0 ≡ Some (told_view x.1)) }
    ensures none { (history : Events) → P.stands_for past.now rules.now history → P.knows_incoming past.now (incoming_view delivery.now) history →
        result ≡ None → list_any (λ why. is_some (rows.row rules.now (incoming_view delivery.now) history why)) rows.reasons ≡ false }
{
    let is_multicast = past.is_of_multicast(rules, delivery);
    match first_anycast_row(past, is_multicast, delivery) {
        Some(first) => Some(first),
        None if past.is_gone(rules, delivery) => Some((Why::N, Told::Bare(Outcome::Released))),
        None if is_multicast => Some((Why::M, whole_told(past, rules, delivery)?)),
        None => None,
    }
}

/// It may be told: complete, of a live link, neither settled nor told.
pub fn may_be_told<'a, P: Outcomes<'a>>(past: &P, delivery: &Incoming) -> bool
    ensures { (rules : RuleSet) (history : Events) → P.stands_for past.now rules history → P.knows_incoming past.now (incoming_view delivery.now) history →
        (result ≡ rows.may_be_told (incoming_view delivery.now) history) }
{
    past.is_complete(delivery) && !past.is_closed(delivery)
}
