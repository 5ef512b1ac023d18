//! Flows that the router writes (part 2 of the standard, sections 2.5.6, 2.6.7 and 2.7.4).

ghost use Rattle.capture_form.specs.Rules.{RuleSet};
ghost use Rattle.std.specs.Prelude.{List, ◌≡◌};
ghost use Rattle.trace_events.specs.Session.{IsLiveOn, StandsLive};
ghost use Rattle.trace_events.specs.Link.{IsLiveLink, NamesLive};
ghost use Rattle.trace_events.specs.View.{event_view, link_view, Events};
ghost use Rattle.trace_events.specs.FlowClause as law;

use crate::questions::{Counts, Inputs};
use amqp_perf::Flow;
use capture_form::RuleSet;
use flow_counts::{CAPACITY, INCOMING_WINDOW, LOW_MARK, OUTGOING_WINDOW};
use trace_events::{Event, Link, Session, has_multicast};

/// The flow has the session's ids and windows.
fn has_session_numbers<P: Counts>(past: &P, flow: &Flow, session: Session) -> bool
    ensures { (rules : RuleSet) (history : Events) → P.stands_for past.now rules history → IsLiveOn session history →
        (result ≡ law.has_session_numbers flow.now history session) }
{
    flow.incoming_window == INCOMING_WINDOW
        && flow.outgoing_window == OUTGOING_WINDOW
        && flow.next_outgoing_id == past.next_outgoing_id(session)
        && flow.next_incoming_id == Some(past.next_incoming_id(session))
}

/// A producer's link may be given more credit: its given credit and its undecided deliveries together have come down to the
/// low mark, and its address is multicast or has a consumer, or it has none.
pub fn may_be_topped_up<'a, P: Inputs<'a> + Counts>(past: &P, rules: &RuleSet, link: &Link) -> bool
    requires few { P.is_short past.now }
    ensures { (history : Events) → P.stands_for past.now rules.now history → IsLiveLink (link_view link.now) history →
        (result ≡ law.may_be_topped_up rules.now history (link_view link.now)) }
{
    let given = u64::from(past.given_credit(link));
    given.saturating_add(past.undecided_count(rules, link)) <= u64::from(LOW_MARK)
        && (link.is_anonymous()
            || has_multicast(rules, link.address)
            || past.has_consumer(link.address))
}

/// The credit that fills a producer's live link up.
pub fn full_credit<P: Counts>(past: &P, rules: &RuleSet, link: &Link) -> u32
    requires few { P.is_short past.now }
    ensures { (history : Events) → P.stands_for past.now rules.now history → IsLiveLink (link_view link.now) history →
        (result ≡ law.full_credit rules.now history (link_view link.now)) }
{
    match u32::try_from(past.undecided_count(rules, link)) {
        Ok(undecided) => CAPACITY.saturating_sub(undecided),
        Err(_) => 0,
    }
}

/// The flow has the numbers of a producer's link, or gives it more credit.
fn has_producer_numbers<'a, P: Inputs<'a> + Counts>(
    past: &P,
    rules: &RuleSet,
    flow: &Flow,
    link: &Link,
) -> bool
    requires few { P.is_short past.now }
    ensures { (history : Events) → P.stands_for past.now rules.now history → IsLiveLink (link_view link.now) history →
        (result ≡ law.has_producer_numbers rules.now flow.now history (link_view link.now)) }
{
    !flow.drains()
        && flow.delivery_count == Some(past.received_count(link))
        && (flow.link_credit == Some(past.given_credit(link))
            || may_be_topped_up(past, rules, link)
                && flow.link_credit == Some(full_credit(past, rules, link)))
}

/// Nothing waits for a consumer's link: no delivery at its address, and no copy that is due to it.
fn nothing_waits<P: Counts>(past: &P, rules: &RuleSet, link: &Link) -> bool
    requires few { P.is_short past.now }
    ensures { (history : Events) → P.stands_for past.now rules.now history → IsLiveLink (link_view link.now) history →
        (result ≡ law.nothing_waits rules.now history (link_view link.now)) }
{
    !past.has_waiting(rules, link.address) && !past.has_unsent(rules, link)
}

/// The credit of a consumer's live link may be used up: its client asks for it, and nothing waits.
pub fn may_be_drained<P: Counts>(past: &P, rules: &RuleSet, link: &Link) -> bool
    requires few { P.is_short past.now }
    ensures { (history : Events) → P.stands_for past.now rules.now history → IsLiveLink (link_view link.now) history →
        (result ≡ law.may_be_drained rules.now history (link_view link.now)) }
{
    past.is_draining(link) && past.link_credit(link) > 0 && nothing_waits(past, rules, link)
}

/// The delivery-count to which the credit left would take it.
fn drained_count<P: Counts>(past: &P, link: &Link) -> u32
    ensures { (rules : RuleSet) (history : Events) → P.stands_for past.now rules history → IsLiveLink (link_view link.now) history →
        (result ≡ law.drained_count history (link_view link.now)) }
{
    past.delivery_count(link)
        .wrapping_add(past.link_credit(link))
}

/// A drain answer of a consumer's link: the flow says that all credit is used up, by the count, where it may be.
fn is_drain_answer<P: Counts>(past: &P, rules: &RuleSet, flow: &Flow, link: &Link) -> bool
    requires few { P.is_short past.now }
    ensures { (history : Events) → P.stands_for past.now rules.now history → IsLiveLink (link_view link.now) history →
        (result ≡ law.is_drain_answer rules.now flow.now history (link_view link.now)) }
{
    flow.link_credit == Some(0)
        && flow.delivery_count == Some(drained_count(past, link))
        && may_be_drained(past, rules, link)
}

/// The flow has the numbers of a consumer's link, or says that all its credit is used up.
fn has_consumer_numbers<P: Counts>(past: &P, rules: &RuleSet, flow: &Flow, link: &Link) -> bool
    requires few { P.is_short past.now }
    ensures { (history : Events) → P.stands_for past.now rules.now history → IsLiveLink (link_view link.now) history →
        (result ≡ law.has_consumer_numbers rules.now flow.now history (link_view link.now)) }
{
    flow.drains() == past.is_draining(link)
        && (flow.delivery_count == Some(past.delivery_count(link))
            && flow.link_credit == Some(past.link_credit(link))
            || is_drain_answer(past, rules, flow, link))
}

/// The flow has the numbers of the link.
fn has_link_numbers<'a, P: Inputs<'a> + Counts>(
    past: &P,
    rules: &RuleSet,
    flow: &Flow,
    link: &Link,
) -> bool
    requires few { P.is_short past.now }
    ensures { (history : Events) → P.stands_for past.now rules.now history → IsLiveLink (link_view link.now) history →
        (result ≡ law.has_link_numbers rules.now flow.now history (link_view link.now)) }
{
    if link.is_consumer() {
        has_consumer_numbers(past, rules, flow, link)
    } else {
        has_producer_numbers(past, rules, flow, link)
    }
}

/// The flow of this event stands on a live session and has its numbers; with a handle, those of a live link too;
/// without one, no drain.
pub(crate) fn tells_counts<'a, P: Inputs<'a> + Counts>(
    past: &P,
    rules: &RuleSet,
    event: &Event,
    flow: &Flow,
) -> bool
    requires few { P.is_short past.now }
    ensures { (history : Events) → P.stands_for past.now rules.now history → StandsLive (event_view event.now) history → NamesLive (event_view event.now) history →
        (result ≡ law.tells_counts rules.now (event_view event.now) flow.now history) }
{
    let Some(session) = event.session else {
        return false;
    };
    let has_rest = match (flow.handle, event.link) {
        (Some(_), Some(link)) => has_link_numbers(past, rules, flow, &link),
        (Some(_), None) => false,
        (None, _) => !flow.drains(),
    };
    has_rest && has_session_numbers(past, flow, session)
}
