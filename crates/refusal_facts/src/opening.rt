//! What L2 and L3 compare: a begin and an attach with those of the client that they answer.

ghost use Rattle.capture_form.specs.Rules.{RuleSet};
ghost use Rattle.std.specs.Prelude.{List, ◌≡◌, is_some, IfSome, option_and_then, option_map};
ghost use Rattle.trace_events.specs.Session.{IsLiveOn, StandsLive};
ghost use Rattle.trace_events.specs.LinkClause as attaches;
ghost use Rattle.trace_events.specs.View.{Events, asking_view, event_view};
ghost use Rattle.trace_events.specs.Said as said;
ghost use Rattle.refusal_facts.specs.OpeningFacts.{AreAttach, AreBegin};

use amqp_perf::{Attach, ReceiverSettleMode, SenderSettleMode};
use trace_events::{Asking, Event, Session, address_at, is_without_address};
use trace_judge::Openings;

/// A begin of the router's.
#[derive(Clone, Copy)]
pub struct BeginFacts {
    /// The channel on which it stands.
    pub channel: u16,
    /// Since the channel's last begin of the router one of the client stands there that was heard and has no fault.
    pub is_asked_for: bool,
    pub remote_channel: Option<u16>,
    pub incoming_window: u32,
}

/// An attach of the router's, and the client's that it is to answer.
#[derive(Clone, Copy)]
pub struct AttachFacts<'a> {
    /// The live session of its channel.
    pub session: Option<Session>,
    pub ours: Attach<'a>,
    /// The address that ours has, by its role.
    pub address: &'a [u8],
    /// Ours has a target without address, as is due to an anonymous sender.
    pub is_without_address: bool,
    /// What the client's attach of the handle asks for, if one is to be answered.
    pub asked: Option<Asking<'a>>,
    /// How the router's sender is to settle, if one is to be answered.
    pub due_sender_mode: Option<SenderSettleMode>,
    /// When the router's receiver is to settle.
    pub due_receiver_mode: Option<ReceiverSettleMode>,
}

/// L2.
pub(crate) fn begin_facts<'a, P: Openings<'a>>(past: &P, event: &Event) -> Option<BeginFacts>
    ensures facts { (rules : RuleSet) (history : Events) → P.stands_for past.now rules history → IfSome result (AreBegin (event_view event.now) history) }
    ensures there { is_some result ≡ is_some (said.out_begin (event_view event.now)) }
{
    let spoken = event.out_spoken()?;
    let begin = event.out_begin()?;
    let channel = spoken.channel;
    Some(BeginFacts {
        channel,
        is_asked_for: past.has_unanswered_begin(event.connection, channel),
        remote_channel: begin.remote_channel,
        incoming_window: begin.incoming_window,
    })
}

/// How the router's sender is to settle, if a link is asked for: as its client asks.
fn due_sender_mode(asked: &Option<Asking>) -> Option<SenderSettleMode>
    ensures { result ≡ option_map (λ a. a.sender_mode) (option_map asking_view asked.now) }
{
    match asked {
        Some(asked) => Some(asked.sender_mode),
        None => None,
    }
}

/// When the router's receiver is to settle, if a link is asked for.
fn due_receiver_mode(asked: &Option<Asking>) -> Option<ReceiverSettleMode>
    ensures { result ≡ option_map (λ a. attaches.answering_receiver_mode a.receiver_mode a.role) (option_map asking_view asked.now) }
{
    match asked {
        Some(asked) => Some(asked.answering_receiver_mode()),
        None => None,
    }
}

/// What is asked for on the session, if there is one.
fn asked_on<'a, P: Openings<'a>>(
    past: &P,
    session: Option<Session>,
    handle: u32,
) -> Option<Asking<'a>>
    ensures { (rules : RuleSet) (history : Events) → P.stands_for past.now rules history → IfSome session (λ s. IsLiveOn s history) →
        (option_map asking_view result ≡ option_and_then (λ s. attaches.asking s handle history) session) }
{
    past.asking(session?, handle)
}

/// L3.
pub(crate) fn attach_facts<'a, P: Openings<'a>>(
    past: &P,
    event: &Event<'a, '_, 'a>,
) -> Option<AttachFacts<'a>>
    ensures facts { (rules : RuleSet) (history : Events) → P.stands_for past.now rules history → StandsLive (event_view event.now) history → IfSome result (AreAttach (event_view event.now) history) }
    ensures there { is_some result ≡ is_some (said.out_attach (event_view event.now)) }
{
    let ours = event.out_attach()?;
    let address = address_at(ours.role, &ours);
    let asked = asked_on(past, event.session, ours.handle);
    Some(AttachFacts {
        session: event.session,
        ours,
        address,
        is_without_address: is_without_address(&ours.target),
        asked,
        due_sender_mode: due_sender_mode(&asked),
        due_receiver_mode: due_receiver_mode(&asked),
    })
}
