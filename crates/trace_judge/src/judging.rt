//! A record in its place, by those before it.

ghost use Rattle.capture_form.specs.Rules.{RuleSet};
ghost use Rattle.std.specs.Prelude.{List, IfSome, ◌≡◌, option_map, length};
ghost use Rattle.trace_events.specs.History.{session_of, named_link, link_of};
ghost use Rattle.trace_events.specs.Session.{IsLiveOn, StandsLive};
ghost use Rattle.trace_events.specs.Link.{NamesLive};
ghost use Rattle.trace_events.specs.Known.{OpensKnown};
ghost use Rattle.trace_events.specs.View.{spoken_view, moment_view, link_view, event_view, incoming_view, outgoing_view, Events};
ghost use Rattle.amqp_perf.specs.View.{disposition_fields};
ghost use Rattle.trace_events.specs.History as law;

mod fault;
mod heard;

use self::fault::body_fault;
use self::heard::is_heard_body;
use crate::questions::{Carriage, Inputs, Openings, Outcomes};
use amqp_perf::{Disposition, Performative, Role};
use capture_form::RuleSet;
use pairing_cert::Note;
use trace_events::{
    Event, Fault, Incoming, Link, Moment, Outgoing, ReadRecord, Session, Spoken, handle_in,
    opens_link,
};

// Where a frame stands.

/// The live session of a frame's channel.
fn session_of<'a, P: Inputs<'a>>(past: &P, connection: u32, moment: &Moment) -> Option<Session>
    ensures { (rules : RuleSet) (history : Events) → P.stands_for past.now rules history → (result ≡ session_of connection (moment_view moment.now) history) }
{
    past.live_session(connection, moment.spoken()?.channel)
}

/// The live link of the handle that a flow, transfer or detach names.
fn named_link<'a, P: Inputs<'a>>(past: &P, session: Session, spoken: &Spoken) -> Option<Link<'a>>
    ensures { (rules : RuleSet) (history : Events) → P.stands_for past.now rules history → IsLiveOn session history →
        (option_map link_view result ≡ named_link session (spoken_view spoken.now).meaning history) }
{
    past.session_link(session, handle_in(&spoken.performative)?)
}

fn link_of<'a, P: Inputs<'a>>(
    past: &P,
    moment: &Moment,
    session: Option<Session>,
) -> Option<Link<'a>>
    ensures { (rules : RuleSet) (history : Events) → P.stands_for past.now rules history → IfSome session (λ s. IsLiveOn s history) →
        (option_map link_view result ≡ link_of (moment_view moment.now) history session) }
{
    named_link(past, session?, moment.spoken()?)
}

// What a transfer begins or goes on with, and what a disposition tells or settles.

/// The delivery in progress on a producer's link, or one that begins.
fn incoming_part<'a, P: Inputs<'a>>(
    past: &P,
    event: &Event<'a, '_, '_>,
    spoken: &Spoken,
) -> Option<Incoming<'a>>
    ensures { (rules : RuleSet) (history : Events) → P.stands_for past.now rules history → NamesLive (event_view event.now) history →
        (option_map incoming_view result ≡ law.incoming_part (event_view event.now) (spoken_view spoken.now).meaning history) }
{
    let Performative::Transfer(transfer) = &spoken.performative else {
        return None;
    };
    let link = event.link?;
    if !link.is_producer() {
        return None;
    }
    match past.incoming_in_progress(&link) {
        Some(delivery) => Some(delivery),
        None => Some(Incoming::new(event.number, transfer, link)),
    }
}

/// The delivery of a transfer that is heard and without fault.
fn incoming_by<'a, P: Inputs<'a>>(past: &P, event: &Event<'a, '_, '_>) -> Option<Incoming<'a>>
    ensures { (rules : RuleSet) (history : Events) → P.stands_for past.now rules history → NamesLive (event_view event.now) history →
        (option_map incoming_view result ≡ law.incoming_by (event_view event.now) (event_view event.now).moment history) }
{
    match event.moment {
        Moment::In(frame) if event.is_heard && event.fault.is_none() => {
            incoming_part(past, event, frame.spoken()?)
        }
        _ => None,
    }
}

/// The delivery in progress on a consumer's link, or one that begins.
fn outgoing_part<'a, P: Carriage<'a>>(
    past: &P,
    event: &Event<'a, '_, '_>,
    spoken: &Spoken,
) -> Option<Outgoing<'a>>
    ensures { (rules : RuleSet) (history : Events) → P.stands_for past.now rules history → NamesLive (event_view event.now) history →
        (option_map outgoing_view result ≡ law.outgoing_part (event_view event.now) (spoken_view spoken.now).meaning history) }
{
    let Performative::Transfer(transfer) = &spoken.performative else {
        return None;
    };
    let link = event.link?;
    if !link.is_consumer() {
        return None;
    }
    match past.outgoing_in_progress(&link) {
        Some(delivery) => Some(delivery),
        None => Some(Outgoing::new(event.number, event.note, transfer, link)),
    }
}

fn outgoing_by<'a, P: Carriage<'a>>(past: &P, event: &Event<'a, '_, '_>) -> Option<Outgoing<'a>>
    ensures { (rules : RuleSet) (history : Events) → P.stands_for past.now rules history → NamesLive (event_view event.now) history →
        (option_map outgoing_view result ≡ law.outgoing_by (event_view event.now) (event_view event.now).moment history) }
{
    match event.moment {
        Moment::Out(frame) => outgoing_part(past, event, frame.spoken()?),
        _ => None,
    }
}

/// The incoming delivery whose outcome a disposition tells, by its first id.
fn told_by_role<'a, P: Outcomes<'a>>(
    past: &P,
    rules: &RuleSet,
    session: Session,
    disposition: &Disposition,
) -> Option<u64>
    ensures { (history : Events) → P.stands_for past.now rules.now history → IsLiveOn session history →
        (result ≡ law.told_by_role rules.now session (disposition_fields disposition.now).first (disposition_fields disposition.now).role history) }
{
    match disposition.role {
        Role::Receiver => Some(past.to_tell(rules, session, disposition.first)?.number),
        Role::Sender => None,
    }
}

/// The outgoing delivery that a disposition settles, by its first id.
fn settled_by_role<'a, P: Outcomes<'a>>(
    past: &P,
    session: Session,
    disposition: &Disposition,
) -> Option<u64>
    ensures { (rules : RuleSet) (history : Events) → P.stands_for past.now rules history → IsLiveOn session history →
        (result ≡ law.settled_by_role session (disposition_fields disposition.now).first (disposition_fields disposition.now).role history) }
{
    match disposition.role {
        Role::Sender => Some(past.to_settle(session, disposition.first)?.number),
        Role::Receiver => None,
    }
}

fn told_by<'a, P: Outcomes<'a>>(past: &P, rules: &RuleSet, event: &Event) -> Option<u64>
    ensures { (history : Events) → P.stands_for past.now rules.now history → StandsLive (event_view event.now) history →
        (result ≡ law.told_by rules.now (event_view event.now) (event_view event.now).moment history) }
{
    match &event.out_spoken()?.performative {
        Performative::Disposition(disposition) => told_by_role(
            past,
            rules,
            event.session?,
            disposition,
        ),
        _ => None,
    }
}

fn settled_by<'a, P: Outcomes<'a>>(past: &P, event: &Event) -> Option<u64>
    ensures { (rules : RuleSet) (history : Events) → P.stands_for past.now rules history → StandsLive (event_view event.now) history →
        (result ≡ law.settled_by (event_view event.now) (event_view event.now).moment history) }
{
    match &event.out_spoken()?.performative {
        Performative::Disposition(disposition) => settled_by_role(
            past,
            event.session?,
            disposition,
        ),
        _ => None,
    }
}

// What the router opens.

/// The session that an Out begin begins.
fn opened_session<'a, P: Openings<'a>>(past: &P, event: &Event) -> Option<Session>
    ensures { (rules : RuleSet) (history : Events) → P.stands_for past.now rules history →
        OpensKnown (λ c channel. P.knows_begin past.now c channel history) (λ s handle. P.knows_attach past.now s handle history) (event_view event.now) → (result ≡ law.opened_session (event_view event.now) history) }
{
    let spoken = event.out_spoken()?;
    let Performative::Begin(begin) = spoken.performative else {
        return None;
    };
    let theirs = past.last_in_begin(event.connection, spoken.channel);
    Some(Session::new(
        event.number,
        event.connection,
        spoken.channel,
        begin,
        theirs,
    ))
}

/// The link that an Out attach with source and target opens on a live session.
fn opened_link<'a, 'm: 'a, P: Openings<'a>>(past: &P, event: &Event<'a, '_, 'm>) -> Option<Link<'a>>
    ensures { (rules : RuleSet) (history : Events) → P.stands_for past.now rules history → StandsLive (event_view event.now) history →
        OpensKnown (λ c channel. P.knows_begin past.now c channel history) (λ s handle. P.knows_attach past.now s handle history) (event_view event.now) →
        (option_map link_view result ≡ law.opened_link (event_view event.now) history) }
{
    let attach = event.out_attach()?;
    let session = event.session?;
    if !opens_link(&attach) {
        return None;
    }
    let their_first_count = past.last_first_count(session, attach.handle);
    Some(Link::new(event.number, session, &attach, their_first_count))
}

// In five steps: where the record stands, whether it is heard, its fault, the deliveries that it is of, and what it
// opens. Each fills in its fields of the event, which is large.

fn placed<'a, 'r, 'm, P: Inputs<'a>>(
    past: &P,
    number: u64,
    connection: u32,
    moment: &'r Moment<'m>,
    note: Note,
) -> Event<'a, 'r, 'm>
    ensures { (rules : RuleSet) (history : Events) → P.stands_for past.now rules history → number ≡ length history →
        (event_view result ≡ law.placed history connection (moment_view moment.now) note) }
{
    let session = session_of(past, connection, moment);
    Event {
        number,
        connection,
        moment,
        note,
        session,
        link: link_of(past, moment, session),
        incoming: None,
        outgoing: None,
        told: None,
        settled: None,
        is_heard: false,
        fault: None,
    }
}

fn heard_by<'a, P: Inputs<'a>>(past: &P, event: &Event) -> bool
    ensures { (rules : RuleSet) (history : Events) → P.stands_for past.now rules history → StandsLive (event_view event.now) history →
        (result ≡ law.heard_by (event_view event.now) (event_view event.now).moment history) }
{
    match event.moment {
        Moment::In(frame) => is_heard_body(past, event, &frame.body),
        _ => false,
    }
}

fn hear<'a, P: Inputs<'a>>(past: &P, event: &mut Event<'a, '_, '_>)
    ensures { (rules : RuleSet) (history : Events) → P.stands_for past.now rules history → StandsLive (event_view event.old) history →
        (event_view event.new ≡ law.heard history (event_view event.old)) }
{
    event.is_heard = heard_by(past, event);
}

fn fault_by<'a, P: Inputs<'a>>(past: &P, rules: &RuleSet, event: &Event) -> Option<Fault>
    ensures { (history : Events) → P.stands_for past.now rules.now history → StandsLive (event_view event.now) history → NamesLive (event_view event.now) history →
        (result ≡ law.fault_by rules.now (event_view event.now) (event_view event.now).moment history) }
{
    match event.moment {
        Moment::In(frame) if event.is_heard => body_fault(past, rules, event, &frame.body),
        _ => None,
    }
}

fn find_fault<'a, P: Inputs<'a>>(past: &P, rules: &RuleSet, event: &mut Event<'a, '_, '_>)
    ensures { (history : Events) → P.stands_for past.now rules.now history → StandsLive (event_view event.old) history → NamesLive (event_view event.old) history →
        (event_view event.new ≡ law.faulted rules.now history (event_view event.old)) }
{
    event.fault = fault_by(past, rules, event);
}

fn find_deliveries<'a, P: Inputs<'a> + Outcomes<'a> + Carriage<'a>>(
    past: &P,
    rules: &RuleSet,
    event: &mut Event<'a, '_, '_>,
)
    ensures { (history : Events) → P.stands_for past.now rules.now history → StandsLive (event_view event.old) history → NamesLive (event_view event.old) history →
        (event_view event.new ≡ law.delivered rules.now history (event_view event.old)) }
{
    let incoming = incoming_by(past, event);
    let outgoing = outgoing_by(past, event);
    let told = told_by(past, rules, event);
    let settled = settled_by(past, event);
    event.incoming = incoming;
    event.outgoing = outgoing;
    event.told = told;
    event.settled = settled;
}

/// Fills in what the event opens: an Out begin stands on its own session, and an Out attach names its own link; any other
/// event stays as it was.
pub fn open<'a, 'm: 'a, P: Openings<'a>>(past: &P, event: &mut Event<'a, '_, 'm>)
    ensures { (rules : RuleSet) (history : Events) → P.stands_for past.now rules history → StandsLive (event_view event.old) history →
        OpensKnown (λ c channel. P.knows_begin past.now c channel history) (λ s handle. P.knows_attach past.now s handle history) (event_view event.old) →
        (event_view event.new ≡ law.opened history (event_view event.old)) }
{
    let session = match opened_session(past, event) {
        Some(own) => Some(own),
        None => event.session,
    };
    let link = match opened_link(past, event) {
        Some(own) => Some(own),
        None => event.link,
    };
    event.session = session;
    event.link = link;
}

/// A record, with its note, as the event of this number, but for what it opens: the law can be asked here.
pub fn judge_unopened<'a, 'r, 'm, P: Inputs<'a> + Outcomes<'a> + Carriage<'a>>(
    past: &P,
    rules: &RuleSet,
    number: u64,
    entry: &'r ReadRecord<'m>,
) -> Event<'a, 'r, 'm>
    ensures { (history : Events) → P.stands_for past.now rules.now history → number ≡ length history →
        (event_view result ≡ law.judge_unopened rules.now history entry.now.connection (law.moment_of entry.now.what) entry.now.note) }
{
    let mut event = placed(
        past,
        number,
        entry.connection(),
        entry.moment(),
        entry.note(),
    );
    hear(past, &mut event);
    find_fault(past, rules, &mut event);
    find_deliveries(past, rules, &mut event);
    event
}

/// The record of this number in its place.
pub fn judge<'a, 'r, 'm: 'a, P: Inputs<'a> + Outcomes<'a> + Openings<'a> + Carriage<'a>>(
    past: &P,
    rules: &RuleSet,
    number: u64,
    entry: &'r ReadRecord<'m>,
) -> Event<'a, 'r, 'm>
    ensures { (history : Events) → P.stands_for past.now rules.now history → number ≡ length history →
        OpensKnown (λ c channel. P.knows_begin past.now c channel history) (λ s handle. P.knows_attach past.now s handle history)
        (law.judge_unopened rules.now history entry.now.connection (law.moment_of entry.now.what) entry.now.note) →
        (event_view result ≡ law.judge rules.now history entry.now) }
{
    let mut event = judge_unopened(past, rules, number, entry);
    open(past, &mut event);
    event
}
