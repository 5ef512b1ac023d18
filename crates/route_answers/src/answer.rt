//! The direct answer to what a client does.

ghost use Rattle.std.specs.Prelude.{◌≡◌, ℕ, List, [], ◌∷◌, None, Some, IsTrue, true};
ghost use Rattle.pairing_cert.specs.declared.note.Note.TheVariants as notes;
ghost use Rattle.capture_form.specs.Rules.{RuleSet};
ghost use Rattle.amqp_perf.specs.Meaning.{AFlow};
ghost use Rattle.amqp_perf.specs.View.{view};
ghost use Rattle.trace_events.specs.declared.fault.Fault.TheVariants as faults;
ghost use Rattle.trace_events.specs.Event as law;
ghost use Rattle.trace_events.specs.Session.{IsLiveOn};
ghost use Rattle.trace_events.specs.Link.{IsLiveLink};
ghost use Rattle.trace_events.specs.History.{judge_moment};
ghost use Rattle.trace_events.specs.Clauses.{first_broken};
ghost use Rattle.trace_events.specs.Written.{session_numbers};
ghost use Rattle.trace_events.specs.View.{Events, event_view, link_view, spoken_view, body_view};
ghost use Rattle.trace_duties.specs.Answer as duties;
ghost use Rattle.route_answers.specs.Answering.{IsReady, may_happen, is_sound_transfer_or_disposition};
ghost use Rattle.route_answers.specs.Replies.{reply_view, answer_view, IsAnswerable, IsAnswerableBody, EchoesLive, AreShortTexts, IsHeardShort, CanBeSaid, CanBeWritten, said_answer};

use crate::attach::accepted;
use crate::reply::{Answer, Reply, Saying};
use amqp_perf::{ErrorCondition, Flow, Performative, Role};
use capture_form::RuleSet;
use trace_events::{Body, Event, Fault, Link, Moment, Session, Spoken, handle_in};
use trace_judge::{Counts, Inputs, Openings};

/// A close of the connection, behind the router's open where none was written yet.
#[tactic(auto, using(crate::proofs::Connections::framed_opened))]
fn closing<'p, 'a, P: Openings<'p>>(
    past: &P,
    connection: u32,
    condition: Option<ErrorCondition>,
) -> Answer<'a>
    ensures says { (rules : RuleSet) (history : Events) → P.stands_for past.now rules history → first_broken rules history ≡ None →
        (answer_view result ≡ duties.closing connection condition history) }
    ensures short { CanBeWritten result }
{
    let close = Reply {
        channel: 0,
        saying: Saying::Close(condition),
    };
    if past.has_out_frame(connection) {
        return Answer::One(close);
    }
    let open = Reply {
        channel: 0,
        saying: Saying::Open,
    };
    Answer::Two(open, close)
}

/// The numbers of a session, as a flow.
fn session_numbers<P: Counts>(past: &P, session: Session) -> Flow
    ensures { (rules : RuleSet) (history : Events) → P.stands_for past.now rules history → IsLiveOn session history →
        (result ≡ session_numbers session history) }
{
    Flow::of_session(
        past.next_incoming_id(session),
        past.next_outgoing_id(session),
    )
}

/// The numbers of a link and its session.
fn link_flow<'p, 'a, P: Inputs<'p> + Counts>(past: &P, link: &Link) -> Reply<'a>
    ensures says { (rules : RuleSet) (history : Events) → P.stands_for past.now rules history → IsLiveLink (link_view link.now) history →
        (reply_view result ≡ duties.link_flow (link_view link.now) history) }
    ensures short { CanBeSaid result.saying }
{
    let numbers = session_numbers(past, link.session);
    let flow = if link.role == Role::Sender {
        numbers.of_link(
            link.handle,
            past.delivery_count(link),
            past.link_credit(link),
            past.is_draining(link),
        )
    } else {
        numbers.of_link(
            link.handle,
            past.received_count(link),
            past.given_credit(link),
            false,
        )
    };
    Reply {
        channel: link.session.channel,
        saying: Saying::Flow(flow),
    }
}

/// The echo of a flow that asks for one: the link's numbers, or those of its session alone.
fn echo<'p, 'a, P: Inputs<'p> + Counts>(past: &P, event: &Event, flow: &Flow) -> Answer<'a>
    ensures says { (rules : RuleSet) (history : Events) → P.stands_for past.now rules history → EchoesLive (event_view event.now) history (AFlow flow.now) →
        (answer_view result ≡ duties.echo_on (event_view event.now).session (event_view event.now).link flow.now history) }
    ensures short { CanBeWritten result }
{
    let Some(session) = event.session else {
        return Answer::Nothing;
    };
    if !flow.wants_echo() {
        return Answer::Nothing;
    }
    match &event.link {
        Some(link) => Answer::One(link_flow(past, link)),
        None => {
            let numbers = session_numbers(past, session);
            Answer::one(session.channel, Saying::Flow(numbers))
        }
    }
}

/// The answer to a frame without fault.
fn plain_answer<'p, 'a, P: Inputs<'p> + Openings<'p> + Counts>(
    past: &P,
    rules: &RuleSet,
    event: &Event,
    channel: u16,
    performative: &Performative<'a>,
) -> Answer<'a>
    ensures says { (history : Events) → P.stands_for past.now rules.now history → first_broken rules.now history ≡ None →
        EchoesLive (event_view event.now) history (view performative.now) →
        answer_view result ≡ duties.plain_answer rules.now (event_view event.now) channel (view performative.now) history }
    ensures short { AreShortTexts event.now.number None (view performative.now) → CanBeWritten result }
{
    match *performative {
        Performative::Open(_) => Answer::one(0, Saying::Open),
        Performative::Begin(_) => Answer::one(channel, Saying::Begin),
        Performative::Attach(theirs) => Answer::One(accepted(event.number, channel, theirs)),
        Performative::Flow(flow) => echo(past, event, &flow),
        Performative::Transfer(_) | Performative::Disposition(_) => Answer::Nothing,
        Performative::Detach(detach) => {
            let saying = Saying::Detach(detach.handle, detach.is_closed(), None);
            Answer::one(channel, saying)
        }
        Performative::End(_) => Answer::one(channel, Saying::End(None)),
        Performative::Close(_) => closing(past, event.connection, None),
    }
}

/// The answer to an attach that is refused.
fn refusal<'a>(
    channel: u16,
    condition: ErrorCondition,
    performative: &Performative<'a>,
) -> Answer<'a>
    ensures says { answer_view result ≡ duties.refusal channel condition (view performative.now) }
    ensures short { (number : ℕ) → AreShortTexts number (Some (faults.Refuse condition)) (view performative.now) → CanBeWritten result }
{
    let Performative::Attach(theirs) = *performative else {
        return Answer::Nothing;
    };
    let attach = Reply {
        channel,
        saying: Saying::Refused(theirs),
    };
    let detach = Reply {
        channel,
        saying: Saying::Detach(theirs.handle, true, Some(condition)),
    };
    Answer::Two(attach, detach)
}

/// The answer to a frame with this fault.
fn fault_answer<'p, 'a, P: Openings<'p>>(
    past: &P,
    event: &Event,
    channel: u16,
    performative: &Performative<'a>,
    fault: Fault,
) -> Answer<'a>
    ensures says { (rules : RuleSet) (history : Events) → P.stands_for past.now rules history → first_broken rules history ≡ None →
        (answer_view result ≡ duties.fault_answer (event_view event.now) channel (view performative.now) fault history) }
    ensures short { (number : ℕ) → AreShortTexts number (Some fault) (view performative.now) → CanBeWritten result }
{
    match fault {
        Fault::Close(condition) => closing(past, event.connection, Some(condition)),
        Fault::End(condition) => Answer::one(channel, Saying::End(Some(condition))),
        Fault::Refuse(condition) => refusal(channel, condition, performative),
        Fault::Detach(condition) => {
            let handle = handle_in(performative).unwrap_or(0);
            Answer::one(channel, Saying::Detach(handle, true, Some(condition)))
        }
    }
}

/// The answer to a performative: by its fault where it is heard; of those that are passed over a flow is echoed.
fn spoken_answer<'p, 'a, P: Inputs<'p> + Openings<'p> + Counts>(
    past: &P,
    rules: &RuleSet,
    event: &Event,
    channel: u16,
    performative: &Performative<'a>,
) -> Answer<'a>
    ensures says { (history : Events) → P.stands_for past.now rules.now history → first_broken rules.now history ≡ None →
        EchoesLive (event_view event.now) history (view performative.now) →
        answer_view result ≡ said_answer rules.now (event_view event.now) channel (view performative.now) history }
    ensures short { IsHeardShort event.now.is_heard event.now.number event.now.fault (view performative.now) → CanBeWritten result }
{
    if !event.is_heard {
        return match performative {
            Performative::Flow(flow) => echo(past, event, flow),
            _ => Answer::Nothing,
        };
    }
    match event.fault {
        Some(fault) => fault_answer(past, event, channel, performative, fault),
        None => plain_answer(past, rules, event, channel, performative),
    }
}

/// The answer to octets that are no frame, or begin with no performative.
fn unread_answer<'p, 'a, P: Openings<'p>>(past: &P, event: &Event) -> Answer<'a>
    ensures says { (rules : RuleSet) (history : Events) → P.stands_for past.now rules history → first_broken rules history ≡ None →
        (answer_view result ≡ duties.unread_answer (event_view event.now) event.now.fault history) }
    ensures short { CanBeWritten result }
{
    match event.fault {
        Some(Fault::Close(condition)) => closing(past, event.connection, Some(condition)),
        _ => Answer::Nothing,
    }
}

/// The answer to a frame.
fn body_answer<'p, 'a, P: Inputs<'p> + Openings<'p> + Counts>(
    past: &P,
    rules: &RuleSet,
    event: &Event,
    body: &Body<'a>,
) -> Answer<'a>
    ensures says { (history : Events) → P.stands_for past.now rules.now history → first_broken rules.now history ≡ None →
        IsAnswerableBody (event_view event.now) history (body_view body.now) →
        answer_view result ≡ duties.body_answer rules.now (event_view event.now) (body_view body.now) history }
    ensures short { (history : Events) → IsAnswerableBody (event_view event.now) history (body_view body.now) → CanBeWritten result }
{
    match body {
        Body::Says(spoken) => {
            spoken_answer(past, rules, event, spoken.channel, &spoken.performative)
        }
        _ => unread_answer(past, event),
    }
}

/// The answer to what happens on a connection.
fn moment_answer<'p, 'a, P: Inputs<'p> + Openings<'p> + Counts>(
    past: &P,
    rules: &RuleSet,
    event: &Event<'_, '_, 'a>,
) -> Answer<'a>
    ensures says { (history : Events) → P.stands_for past.now rules.now history → IsAnswerable rules.now (event_view event.now) history →
        answer_view result ≡ duties.answer rules.now (event_view event.now) history }
    ensures short { (history : Events) → IsAnswerable rules.now (event_view event.now) history → CanBeWritten result }
{
    match event.moment {
        Moment::In(frame) => body_answer(past, rules, event, &frame.body),
        Moment::Broken if !past.was_finished(event.connection) => {
            closing(past, event.connection, Some(ErrorCondition::FramingError))
        }
        _ => Answer::Nothing,
    }
}

/// Whether an event is a client's transfer or disposition without fault. Nothing is owed for such a one, whatever came before
/// it: it has no direct answer. Of any other, something may be owed or nothing.
pub fn owes_nothing(event: &Event) -> bool
    ensures is { result ≡ is_sound_transfer_or_disposition (event_view event.now) }
    ensures owed { result ≡ true → (rules : RuleSet) (past : Events) → duties.answer rules (event_view event.now) past ≡ [] }
{
    event.fault.is_none() && (event.in_transfer().is_some() || event.in_disposition().is_some())
}

/// The frames that a router owes for an event of a client: its direct answer. It is asked of what stands for the events up to
/// this one, which it has taken.
pub fn answer_to<'p, 'a, P: Inputs<'p> + Openings<'p> + Counts>(
    past: &P,
    rules: &RuleSet,
    event: &Event<'_, '_, 'a>,
) -> Answer<'a>
    // They are exactly those that are owed.
    ensures says { (history : Events) (c : ℕ) (m : law.Moment) → IsReady rules.now history → IsTrue (may_happen c m history) →
        event_view event.now ≡ judge_moment rules.now history c m notes.None → P.stands_for past.now rules.now (event_view event.now ∷ history) →
        answer_view result ≡ duties.answer rules.now (event_view event.now) (event_view event.now ∷ history) }
    // Each can be written.
    ensures short { (history : Events) (c : ℕ) (m : law.Moment) → IsReady rules.now history → IsTrue (may_happen c m history) →
        event_view event.now ≡ judge_moment rules.now history c m notes.None → CanBeWritten result }
{
    moment_answer(past, rules, event)
}
