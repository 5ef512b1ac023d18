//! What L10 compares: a flow with what its session and link have come to.

ghost use Rattle.capture_form.specs.Rules.{RuleSet};
ghost use Rattle.std.specs.Prelude.{List, ◌≡◌, is_some, ◌-◌, IfSome, option_map};
ghost use Rattle.trace_events.specs.Link.{IsLiveLink, NamesLive};
ghost use Rattle.trace_events.specs.Said as said;
ghost use Rattle.trace_events.specs.Session.{IsLiveOn, StandsLive};
ghost use Rattle.trace_events.specs.View.{Events, event_view, link_view};
ghost use Rattle.refusal_facts.specs.FlowFacts.{AreConsumerNumbers, AreFlow, AreProducerNumbers, AreSessionNumbers, IsFlowLink};

use amqp_perf::{Flow, Performative};
use capture_form::RuleSet;
use flow_counts::CAPACITY;
use trace_events::{Event, Link, Session};
use trace_judge::{Counts, Inputs, may_be_topped_up};

/// What a session has come to.
#[derive(Clone, Copy)]
pub struct SessionNumbers {
    pub session: Session,
    /// The id of the client's next transfer.
    pub next_incoming_id: u32,
    /// The id of the router's next transfer.
    pub next_outgoing_id: u32,
}

/// What a producer's link has come to.
#[derive(Clone, Copy)]
pub struct ProducerNumbers<'a> {
    pub link: Link<'a>,
    pub delivery_count: u32,
    /// How many deliveries may still begin.
    pub given_credit: u32,
    /// How many deliveries are not decided.
    pub undecided: u64,
    /// More credit may be given: what is given and undecided has come down so far, and someone may take the deliveries, or the link has
    /// no address.
    pub may_be_topped_up: bool,
    /// The credit that fills the link up.
    pub full_credit: u32,
}

/// What a consumer's link has come to.
#[derive(Clone, Copy)]
pub struct ConsumerNumbers<'a> {
    pub link: Link<'a>,
    pub delivery_count: u32,
    /// How many deliveries may still begin.
    pub credit: u32,
    /// The client asks to drain.
    pub is_draining: bool,
    /// A delivery waits at the link's address.
    pub has_waiting: bool,
    /// A copy is due to the link, and not sent.
    pub has_unsent: bool,
}

/// The link of a flow.
#[derive(Clone, Copy)]
pub enum FlowLink<'a> {
    /// The flow names none.
    Nothing,
    /// It names this handle, of which no link lives.
    NotLive(u32),
    Producer(ProducerNumbers<'a>),
    Consumer(ConsumerNumbers<'a>),
}

/// L10: what a flow says, and what there is to be said.
#[derive(Clone, Copy)]
pub struct FlowFacts<'a> {
    pub flow: Flow,
    /// The numbers of the live session of its channel, if there is one.
    pub session: Option<SessionNumbers>,
    pub link: FlowLink<'a>,
}

impl ConsumerNumbers<'_> {
    ghost use Rattle.std.specs.Prelude.{◌≡◌, ◌&&◌, not, nat_lt};
    ghost use Rattle.flow_counts.specs.Serial.{serial_add};

    /// The delivery-count of an answer to a drain.
    pub fn drained_count(&self) -> u32
        ensures { result ≡ serial_add self.now.delivery_count self.now.credit }
    {
        self.delivery_count.wrapping_add(self.credit)
    }

    /// A drain may be answered.
    pub fn may_be_drained(&self) -> bool
        ensures { result ≡ (self.now.is_draining && nat_lt 0 self.now.credit && (not self.now.has_waiting && not self.now.has_unsent)) }
    {
        self.is_draining && self.credit > 0 && !self.has_waiting && !self.has_unsent
    }
}

/// The credit that fills a producer's link up, where so many of its deliveries are not decided.
fn full_credit(undecided: u64) -> u32
    ensures { result ≡ CAPACITY - undecided }
{
    match u32::try_from(undecided) {
        Ok(undecided) => CAPACITY.saturating_sub(undecided),
        Err(_) => 0,
    }
}

/// The flow that the router wrote.
fn out_flow(event: &Event) -> Option<Flow>
    ensures { result ≡ said.out_flow (event_view event.now) }
{
    match event.out_spoken()?.performative {
        Performative::Flow(flow) => Some(flow),
        _ => None,
    }
}

fn session_numbers<P: Counts>(past: &P, session: Option<Session>) -> Option<SessionNumbers>
    ensures same { option_map (λ numbers. numbers.session) result ≡ session }
    ensures numbers { (rules : RuleSet) (history : Events) → P.stands_for past.now rules history → IfSome session (λ s. IsLiveOn s history) → IfSome result (AreSessionNumbers history) }
{
    match session {
        Some(session) => Some(SessionNumbers {
            session,
            next_incoming_id: past.next_incoming_id(session),
            next_outgoing_id: past.next_outgoing_id(session),
        }),
        None => None,
    }
}

fn producer_numbers<'a, 'l, P: Inputs<'a> + Counts>(
    past: &P,
    rules: &RuleSet,
    link: &Link<'l>,
) -> ProducerNumbers<'l>
    requires few { P.is_short past.now }
    ensures same { link_view result.link ≡ link_view link.now }
    ensures numbers { (history : Events) → P.stands_for past.now rules.now history → IsLiveLink (link_view link.now) history → AreProducerNumbers rules.now history result }
{
    let undecided = past.undecided_count(rules, link);
    ProducerNumbers {
        link: *link,
        delivery_count: past.received_count(link),
        given_credit: past.given_credit(link),
        undecided,
        may_be_topped_up: may_be_topped_up(past, rules, link),
        full_credit: full_credit(undecided),
    }
}

fn consumer_numbers<'l, P: Counts>(
    past: &P,
    rules: &RuleSet,
    link: &Link<'l>,
) -> ConsumerNumbers<'l>
    requires few { P.is_short past.now }
    ensures same { link_view result.link ≡ link_view link.now }
    ensures numbers { (history : Events) → P.stands_for past.now rules.now history → IsLiveLink (link_view link.now) history → AreConsumerNumbers rules.now history result }
{
    ConsumerNumbers {
        link: *link,
        delivery_count: past.delivery_count(link),
        credit: past.link_credit(link),
        is_draining: past.is_draining(link),
        has_waiting: past.has_waiting(rules, link.address),
        has_unsent: past.has_unsent(rules, link),
    }
}

/// The numbers of the link that a flow with this handle names.
fn link_numbers<'a, 'l, P: Inputs<'a> + Counts>(
    past: &P,
    rules: &RuleSet,
    handle: Option<u32>,
    event: &Event<'l, '_, 'l>,
) -> FlowLink<'l>
    requires few { P.is_short past.now }
    ensures { (history : Events) → P.stands_for past.now rules.now history → NamesLive (event_view event.now) history → IsFlowLink rules.now (event_view event.now) history handle result }
{
    let Some(handle) = handle else {
        return FlowLink::Nothing;
    };
    match event.link {
        Some(link) if link.is_consumer() => FlowLink::Consumer(consumer_numbers(
            past, rules, &link,
        )),
        Some(link) => FlowLink::Producer(producer_numbers(past, rules, &link)),
        None => FlowLink::NotLive(handle),
    }
}

/// L10.
pub(crate) fn flow_facts<'a, P: Inputs<'a> + Counts>(
    past: &P,
    rules: &RuleSet,
    event: &Event<'a, '_, 'a>,
) -> Option<FlowFacts<'a>>
    requires few { P.is_short past.now }
    ensures facts { (history : Events) → P.stands_for past.now rules.now history → StandsLive (event_view event.now) history → NamesLive (event_view event.now) history → IfSome result (AreFlow rules.now (event_view event.now) history) }
    ensures there { is_some result ≡ is_some (said.out_flow (event_view event.now)) }
{
    let flow = out_flow(event)?;
    Some(FlowFacts {
        flow,
        session: session_numbers(past, event.session),
        link: link_numbers(past, rules, flow.handle, event),
    })
}
