//! The performatives that clients say: each has one session, and on it one link.

ghost use Rattle.std.specs.Prelude.{◌≡◌, ◌≤◌, length, None, option_map};
ghost use Rattle.amqp_perf.specs.NestedViews.{address_view, terminus_view};
ghost use Rattle.amqp_perf.specs.View.{view};
ghost use Rattle.clients_program.specs.Said.{IsSmall, opened, begun, consuming, producing, crediting, sending, deciding, closed};

use amqp_perf::{
    Address, Attach, Begin, Disposition, Flow, Open, Outcome, Performative, Role, State, Target,
    Terminus, Transfer,
};
use flow_counts::MAX_FRAME_SIZE;

/// The channel of the session.
pub const CHANNEL: u16 = 0;

/// The number of the link on its session.
pub const HANDLE: u32 = 0;

/// Where greetings go to, and come from.
const ADDRESS: &str = "greetings";

/// How many transfers a client takes of its session, and may send: more than there are.
pub const WINDOW: u32 = 1000;

/// The open of the client of this name.
#[tactic(auto, using(crate::proofs::Small::open_small))]
pub fn open(name: &str) -> Performative<'_>
    requires { length name.now ≤ 100 }
    ensures says { view result ≡ opened name.entry.now }
    ensures small { IsSmall (opened name.entry.now) }
{
    Performative::Open(Open {
        container_id: name,
        max_frame_size: Some(MAX_FRAME_SIZE),
        channel_max: None,
        idle_time_out: None,
    })
}

/// The begin of the session.
#[tactic(auto, using(crate::proofs::Small::begin_small))]
pub fn begin() -> Performative<'static>
    ensures says { view result ≡ begun }
    ensures small { IsSmall begun }
{
    Performative::Begin(Begin {
        remote_channel: None,
        next_outgoing_id: 0,
        incoming_window: WINDOW,
        outgoing_window: WINDOW,
        handle_max: None,
    })
}

/// The end of a link at this address, or at none.
fn end_at(address: Option<Address<'static>>) -> Terminus<'static>
    ensures { terminus_view result ≡ record { address = option_map address_view address.entry; dynamic = None } }
{
    Terminus {
        address,
        dynamic: None,
    }
}

/// The attach of the consumer.
#[tactic(auto, using(crate::proofs::Small::consume_small))]
pub fn consume() -> Performative<'static>
    ensures says { view result ≡ consuming }
    ensures small { IsSmall consuming }
{
    let (source, target) = (Some(Address::Text(ADDRESS)), None);
    Performative::Attach(Attach {
        name: "greeted",
        handle: HANDLE,
        role: Role::Receiver,
        snd_settle_mode: None,
        rcv_settle_mode: None,
        source: Some(end_at(source)),
        target: Some(Target::Terminus(end_at(target))),
        initial_delivery_count: None,
        max_message_size: None,
    })
}

/// The attach of the producer.
#[tactic(auto, using(crate::proofs::Small::produce_small))]
pub fn produce() -> Performative<'static>
    ensures says { view result ≡ producing }
    ensures small { IsSmall producing }
{
    let (source, target) = (None, Some(Address::Text(ADDRESS)));
    Performative::Attach(Attach {
        name: "greeting",
        handle: HANDLE,
        role: Role::Sender,
        snd_settle_mode: None,
        rcv_settle_mode: None,
        source: Some(end_at(source)),
        target: Some(Target::Terminus(end_at(target))),
        initial_delivery_count: Some(0),
        max_message_size: None,
    })
}

/// The flow that lets so many deliveries come to the consumer.
pub fn credit(count: u8) -> Performative<'static>
    ensures says { view result ≡ crediting count }
    ensures small { IsSmall (crediting count) }
{
    Performative::Flow(Flow {
        next_incoming_id: Some(0),
        incoming_window: WINDOW,
        next_outgoing_id: 0,
        outgoing_window: WINDOW,
        handle: Some(HANDLE),
        delivery_count: Some(0),
        link_credit: Some(u32::from(count)),
        drain: None,
        echo: None,
    })
}

/// The transfer of a delivery, whole and not settled.
#[tactic(auto, using(crate::proofs::Small::transfer_small))]
pub fn transfer(id: u32, tag: &[u8]) -> Performative<'_>
    requires { length tag.now ≤ 32 }
    ensures says { view result ≡ sending id tag.entry.now }
    ensures small { IsSmall (sending id tag.entry.now) }
{
    Performative::Transfer(Transfer::first(HANDLE, id, tag, 0, false, false))
}

/// The disposition with which the consumer decides a delivery, and settles it.
pub fn decide(id: u32, outcome: Outcome) -> Performative<'static>
    ensures says { view result ≡ deciding id outcome }
    ensures small { IsSmall (deciding id outcome) }
{
    Performative::Disposition(Disposition {
        role: Role::Receiver,
        first: id,
        last: None,
        settled: Some(true),
        state: Some(State::of_outcome(outcome)),
    })
}

/// The close.
#[tactic(auto, using(crate::proofs::Small::close_small))]
pub fn close() -> Performative<'static>
    ensures says { view result ≡ closed }
    ensures small { IsSmall closed }
{
    Performative::close(None)
}
