//! The faults of a client's frames, in the order in which they are tested: the first that fits counts. The names of the
//! conditions are the standard's (part 2, sections 2.8.15 to 2.8.18); which fault gets which is a choice of this router.

ghost use Rattle.capture_form.specs.Rules.{RuleSet};
ghost use Rattle.std.specs.Prelude.{List, ◌≡◌, option_map, not, ◌&&◌, if◌then◌else◌};
ghost use Rattle.amqp_perf.specs.declared.condition.ErrorCondition.TheVariants.{MessageSizeExceeded};
ghost use Rattle.trace_events.specs.declared.fault.Fault.TheVariants.{Detach};
ghost use Rattle.amqp_perf.specs.Meaning.{flag};
ghost use Rattle.amqp_perf.specs.NestedViews.{address_view, terminus_view, target_view};
ghost use Rattle.amqp_perf.specs.View.{open_fields, attach_fields, transfer_fields, view};
ghost use Rattle.trace_events.specs.Session.{IsLiveOn, StandsLive};
ghost use Rattle.trace_events.specs.Link.{IsLiveLink, NamesLive};
ghost use Rattle.trace_events.specs.View.{event_view, incoming_view, link_view, spoken_view, body_view, Events};
ghost use Rattle.trace_events.specs.Incoming.{in_progress};
ghost use Rattle.trace_events.specs.Fault as law;

use crate::questions::Inputs;
use amqp_perf::{
    Address, Attach, Begin, ErrorCondition, Open, Performative, Role, Target, Terminus, Transfer,
};
use capture_form::RuleSet;
use flow_counts::{
    CHANNEL_MAX, HANDLE_MAX, MAX_ADDRESS, MAX_DELIVERY_TAG, MAX_LINK_NAME, MAX_MESSAGE_SIZE,
    MIN_MAX_FRAME_SIZE,
};
use trace_events::{Body, Event, Fault, Incoming, Link, Session, Spoken};

/// An address that isn't dynamic is a text of 1 to 160 octets.
fn address_fault(address: &Address) -> Option<Fault>
    ensures { result ≡ law.address_fault (address_view address.now) }
{
    match address {
        Address::Other(_) => Some(Fault::Refuse(ErrorCondition::InvalidField)),
        Address::Text(text) if text.is_empty() => Some(Fault::Refuse(ErrorCondition::InvalidField)),
        Address::Text(text) if text.len() > MAX_ADDRESS => {
            Some(Fault::Refuse(ErrorCondition::ResourceLimitExceeded))
        }
        Address::Text(_) => None,
    }
}

/// A target without address is that of an anonymous sender, which is served or not.
fn target_address_fault(rules: &RuleSet, address: &Option<Address>) -> Option<Fault>
    ensures { result ≡ law.target_address_fault rules.now (option_map address_view address.now) }
{
    match address {
        Some(address) => address_fault(address),
        None if rules.serves_anonymous() => None,
        None => Some(Fault::Refuse(ErrorCondition::NotImplemented)),
    }
}

fn target_fault(rules: &RuleSet, target: &Option<Target>) -> Option<Fault>
    ensures { result ≡ law.target_fault rules.now (option_map target_view target.now) }
{
    match target {
        Some(Target::Terminus(terminus)) if !terminus.is_dynamic() => target_address_fault(
            rules,
            &terminus.address,
        ),
        Some(_) => Some(Fault::Refuse(ErrorCondition::NotImplemented)),
        None => Some(Fault::Refuse(ErrorCondition::InvalidField)),
    }
}

fn source_address_fault(address: &Option<Address>) -> Option<Fault>
    ensures { result ≡ law.source_address_fault (option_map address_view address.now) }
{
    match address {
        Some(address) => address_fault(address),
        None => Some(Fault::Refuse(ErrorCondition::InvalidField)),
    }
}

fn source_fault(source: &Option<Terminus>) -> Option<Fault>
    ensures { result ≡ law.source_fault (option_map terminus_view source.now) }
{
    match source {
        Some(source) if source.is_dynamic() => None,
        Some(source) => source_address_fault(&source.address),
        None => Some(Fault::Refuse(ErrorCondition::InvalidField)),
    }
}

/// Of the terminus at the router's end of the link: a sender's target, a receiver's source.
fn terminus_fault(rules: &RuleSet, attach: &Attach) -> Option<Fault>
    ensures { result ≡ law.terminus_fault rules.now (attach_fields attach.now) attach.now.role }
{
    match attach.role {
        Role::Sender if attach.initial_delivery_count.is_none() => Some(Fault::Refuse(
            ErrorCondition::InvalidField,
        )),
        Role::Sender => target_fault(rules, &attach.target),
        Role::Receiver => source_fault(&attach.source),
    }
}

/// Of a later transfer of the delivery: it names no other id.
fn next_part_fault(delivery: &Incoming, fields: &Transfer) -> Option<Fault>
    ensures { result ≡ law.next_part_fault (incoming_view delivery.now) (transfer_fields fields.now) }
{
    if fields.delivery_id.is_some() && fields.delivery_id != delivery.id {
        return Some(Fault::Detach(ErrorCondition::InvalidField));
    }
    None
}

/// Of a delivery that is longer than the router takes it; an aborted one's length doesn't count.
fn size_fault(fields: &Transfer, is_longer: bool) -> Option<Fault>
    ensures { result ≡ (if not (flag fields.now.aborted) && is_longer then Some (Detach MessageSizeExceeded) else None) }
{
    if is_longer && !fields.is_aborted() {
        return Some(Fault::Detach(ErrorCondition::MessageSizeExceeded));
    }
    None
}

/// Of a flow and a detach: they name a handle with a live link.
fn handle_fault(event: &Event) -> Option<Fault>
    ensures { result ≡ law.handle_fault (event_view event.now) }
{
    if event.link.is_none() {
        return Some(Fault::End(ErrorCondition::UnattachedHandle));
    }
    None
}

/// A client's begin answers none of the router's, and its channel has no session.
fn begin_fault(event: &Event, begin: &Begin) -> Option<Fault>
    ensures { result ≡ law.begin_fault (event_view event.now) begin.now }
{
    if begin.remote_channel.is_some() || event.session.is_some() {
        return Some(Fault::Close(ErrorCondition::NotAllowed));
    }
    None
}

fn open_fault(fields: &Open) -> Option<Fault>
    ensures { result ≡ law.open_fault (open_fields fields.now) }
{
    if fields.frame_limit() < MIN_MAX_FRAME_SIZE {
        return Some(Fault::Close(ErrorCondition::InvalidField));
    }
    None
}

fn is_handle_in_use<'a, P: Inputs<'a>>(past: &P, session: Session, handle: u32) -> bool
    ensures { (rules : RuleSet) (history : Events) → P.stands_for past.now rules history → IsLiveOn session history →
        (result ≡ law.is_handle_in_use session handle history) }
{
    past.session_link(session, handle).is_some() || past.awaits_detach(session, handle)
}

fn attach_fault<'a, P: Inputs<'a>>(
    past: &P,
    rules: &RuleSet,
    session: Session,
    attach: &Attach,
) -> Option<Fault>
    ensures { (history : Events) → P.stands_for past.now rules.now history → IsLiveOn session history →
        (result ≡ law.attach_fault rules.now session (attach_fields attach.now) history) }
{
    if attach.handle > HANDLE_MAX {
        return Some(Fault::Close(ErrorCondition::FramingError));
    }
    if is_handle_in_use(past, session, attach.handle) {
        return Some(Fault::Close(ErrorCondition::HandleInUse));
    }
    if attach.name.len() > MAX_LINK_NAME {
        return Some(Fault::End(ErrorCondition::ResourceLimitExceeded));
    }
    terminus_fault(rules, attach)
}

/// Of the first transfer of a delivery: it has an id that no undecided one has, and the link has credit for it.
fn first_part_fault<'a, P: Inputs<'a>>(
    past: &P,
    rules: &RuleSet,
    link: &Link,
    fields: &Transfer,
) -> Option<Fault>
    ensures { (history : Events) → P.stands_for past.now rules.now history → IsLiveLink (link_view link.now) history →
        (result ≡ law.first_part_fault rules.now (link_view link.now) (transfer_fields fields.now) history) }
{
    let Some(id) = fields.delivery_id else {
        return Some(Fault::Detach(ErrorCondition::InvalidField));
    };
    if past.is_id_in_use(rules, link.session, id) {
        return Some(Fault::Detach(ErrorCondition::NotAllowed));
    }
    if past.given_credit(link) == 0 {
        return Some(Fault::Detach(ErrorCondition::TransferLimitExceeded));
    }
    None
}

/// Of a transfer that goes on with the link's delivery in progress, or begins one.
fn part_fault<'a, P: Inputs<'a>>(
    past: &P,
    rules: &RuleSet,
    link: &Link,
    fields: &Transfer,
    octets: &[u8],
) -> Option<Fault>
    ensures { (history : Events) → P.stands_for past.now rules.now history → IsLiveLink (link_view link.now) history →
        (result ≡ law.part_fault rules.now (link_view link.now) (transfer_fields fields.now) octets.now history
        (in_progress (link_view link.now) history)) }
{
    match past.incoming_in_progress(link) {
        Some(delivery) => match next_part_fault(&delivery, fields) {
            Some(fault) => Some(fault),
            None => size_fault(fields, past.is_longer(MAX_MESSAGE_SIZE, &delivery, octets)),
        },
        None => match first_part_fault(past, rules, link, fields) {
            Some(fault) => Some(fault),
            None => size_fault(fields, octets.len() as u64 > MAX_MESSAGE_SIZE),
        },
    }
}

fn link_transfer_fault<'a, P: Inputs<'a>>(
    past: &P,
    rules: &RuleSet,
    link: &Link,
    fields: &Transfer,
    octets: &[u8],
) -> Option<Fault>
    ensures { (history : Events) → P.stands_for past.now rules.now history → IsLiveLink (link_view link.now) history →
        (result ≡ law.link_transfer_fault rules.now (link_view link.now) (transfer_fields fields.now) octets.now history) }
{
    if link.is_consumer() {
        return Some(Fault::End(ErrorCondition::NotAllowed));
    }
    if fields.is_resumed() {
        return Some(Fault::Detach(ErrorCondition::NotImplemented));
    }
    match fields.delivery_tag {
        Some(tag) if tag.len() > MAX_DELIVERY_TAG => Some(Fault::Detach(
            ErrorCondition::InvalidField,
        )),
        _ => part_fault(past, rules, link, fields, octets),
    }
}

fn transfer_fault<'a, P: Inputs<'a>>(
    past: &P,
    rules: &RuleSet,
    session: Session,
    event: &Event,
    fields: &Transfer,
    octets: &[u8],
) -> Option<Fault>
    ensures { (history : Events) → P.stands_for past.now rules.now history → IsLiveOn session history → NamesLive (event_view event.now) history →
        (result ≡ law.transfer_fault rules.now session (event_view event.now) (transfer_fields fields.now) octets.now history) }
{
    if past.given_window(session) == 0 {
        return Some(Fault::End(ErrorCondition::WindowViolation));
    }
    match &event.link {
        Some(link) => link_transfer_fault(past, rules, link, fields, octets),
        None => Some(Fault::End(ErrorCondition::UnattachedHandle)),
    }
}

/// Of what stands on a session.
fn session_fault<'a, P: Inputs<'a>>(
    past: &P,
    rules: &RuleSet,
    session: Session,
    event: &Event,
    spoken: &Spoken,
) -> Option<Fault>
    ensures { (history : Events) → P.stands_for past.now rules.now history → IsLiveOn session history → NamesLive (event_view event.now) history →
        (result ≡ law.session_fault rules.now session (event_view event.now) (spoken_view spoken.now) (view spoken.now.performative) history) }
{
    match &spoken.performative {
        Performative::Attach(attach) => attach_fault(past, rules, session, attach),
        Performative::Transfer(fields) => transfer_fault(
            past,
            rules,
            session,
            event,
            fields,
            spoken.payload,
        ),
        Performative::Flow(flow) if flow.handle.is_some() => handle_fault(event),
        Performative::Detach(_) => handle_fault(event),
        _ => None,
    }
}

/// Of what stands on a channel: a begin, or what wants a session.
fn channel_fault<'a, P: Inputs<'a>>(
    past: &P,
    rules: &RuleSet,
    event: &Event,
    spoken: &Spoken,
) -> Option<Fault>
    ensures { (history : Events) → P.stands_for past.now rules.now history → StandsLive (event_view event.now) history → NamesLive (event_view event.now) history →
        (result ≡ law.channel_fault rules.now (event_view event.now) (spoken_view spoken.now) (view spoken.now.performative) history) }
{
    match (&spoken.performative, event.session) {
        (Performative::Begin(begin), _) => begin_fault(event, begin),
        (_, Some(session)) => session_fault(past, rules, session, event, spoken),
        (_, None) => Some(Fault::Close(ErrorCondition::NotAllowed)),
    }
}

/// Of what wants an open connection.
fn opened_fault<'a, P: Inputs<'a>>(
    past: &P,
    rules: &RuleSet,
    event: &Event,
    spoken: &Spoken,
) -> Option<Fault>
    ensures { (history : Events) → P.stands_for past.now rules.now history → StandsLive (event_view event.now) history → NamesLive (event_view event.now) history →
        (result ≡ law.opened_fault rules.now (event_view event.now) (spoken_view spoken.now) history) }
{
    if !past.has_in_open(event.connection) {
        return Some(Fault::Close(ErrorCondition::NotAllowed));
    }
    if spoken.channel > CHANNEL_MAX {
        return Some(Fault::Close(ErrorCondition::FramingError));
    }
    channel_fault(past, rules, event, spoken)
}

fn spoken_fault<'a, P: Inputs<'a>>(
    past: &P,
    rules: &RuleSet,
    event: &Event,
    spoken: &Spoken,
) -> Option<Fault>
    ensures { (history : Events) → P.stands_for past.now rules.now history → StandsLive (event_view event.now) history → NamesLive (event_view event.now) history →
        (result ≡ law.spoken_fault rules.now (event_view event.now) (spoken_view spoken.now) (view spoken.now.performative) history) }
{
    match &spoken.performative {
        Performative::Open(_) if past.has_in_open(event.connection) => {
            Some(Fault::Close(ErrorCondition::NotAllowed))
        }
        Performative::Open(fields) => open_fault(fields),
        Performative::Close(_) => None,
        _ => opened_fault(past, rules, event, spoken),
    }
}

/// The fault of a client's frame.
pub(crate) fn body_fault<'a, P: Inputs<'a>>(
    past: &P,
    rules: &RuleSet,
    event: &Event,
    body: &Body,
) -> Option<Fault>
    ensures { (history : Events) → P.stands_for past.now rules.now history → StandsLive (event_view event.now) history → NamesLive (event_view event.now) history →
        (result ≡ law.body_fault rules.now (event_view event.now) (body_view body.now) history) }
{
    match body {
        Body::NoFrame => Some(Fault::Close(ErrorCondition::FramingError)),
        Body::NoPerformative(_) => Some(Fault::Close(ErrorCondition::DecodeError)),
        Body::Empty(_) => None,
        Body::Says(spoken) => spoken_fault(past, rules, event, spoken),
    }
}
