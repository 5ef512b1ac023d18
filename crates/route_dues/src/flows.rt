//! Flows that are due: a session's window, a producer's credit, a drain answer (part 2 of the standard, sections 2.5.6,
//! 2.6.7 and 2.7.4).

ghost use Rattle.std.specs.Prelude.{◌≡◌, ◌≤◌, List, length};
ghost use Rattle.flow_counts.specs.declared.profile.TheConstants.{MAX_FRAME_SIZE};
ghost use Rattle.amqp_types.specs.Writing.{Puts};
ghost use Rattle.amqp_perf.specs.Meaning.{AFlow};
ghost use Rattle.capture_form.specs.Rules.{RuleSet};
ghost use Rattle.trace_events.specs.Session.{IsLiveOn};
ghost use Rattle.trace_events.specs.Link.{IsLiveLink};
ghost use Rattle.trace_events.specs.FlowClause as law;
ghost use Rattle.trace_events.specs.Written.{says, spoken_octets, link_numbers, written_session_flow, written_credit, written_count};
ghost use Rattle.trace_events.specs.View.{link_view, Events};
ghost use Rattle.route_dues.specs.Writing.{IsReadAgain};

use crate::frame::put_spoken;
use amqp_perf::{Flow, Performative};
use capture_form::RuleSet;
use std::alloc::AllocError;
use trace_events::{Link, Session};
use trace_judge::{Counts, full_credit};

/// Appends the flow that gives a live session its window anew.
///
/// # Errors
///
/// Where memory is refused: then nothing was appended.
#[tactic(auto, using(crate::proofs::Lengths::flow_bounded, amqp_perf::proofs::Lengths::flow_writable))]
pub fn put_window<P: Counts>(
    out: &mut Vec<u8>,
    past: &P,
    session: Session,
) -> Result<(), AllocError>
    ensures appended { (rules : RuleSet) (history : Events) → P.stands_for past.now rules history → IsLiveOn session history
        → Puts out.old.items out.new.items result (spoken_octets (written_session_flow session history)) }
    ensures again { (rules : RuleSet) (history : Events) → P.stands_for past.now rules history → IsLiveOn session history → IsReadAgain (written_session_flow session history) }
{
    let numbers = Flow::of_session(
        past.next_incoming_id(session),
        past.next_outgoing_id(session),
    );
    put_spoken(out, session.channel, &Performative::Flow(numbers), &[])
}

/// Appends a flow of a live link, with this delivery-count and link-credit.
#[tactic(auto, using(crate::proofs::Lengths::flow_bounded, amqp_perf::proofs::Lengths::flow_writable))]
fn put_numbers<P: Counts>(
    out: &mut Vec<u8>,
    past: &P,
    link: &Link,
    delivery_count: u32,
    link_credit: u32,
    drains: bool,
) -> Result<(), AllocError>
    ensures appended { (rules : RuleSet) (history : Events) → P.stands_for past.now rules history → IsLiveLink (link_view link.now) history
        → Puts out.old.items out.new.items result (spoken_octets (says link.now.session.channel (AFlow (link_numbers (link_view link.now) delivery_count link_credit drains history)))) }
    ensures again { (rules : RuleSet) (history : Events) → P.stands_for past.now rules history → IsLiveLink (link_view link.now) history
        → IsReadAgain (says link.now.session.channel (AFlow (link_numbers (link_view link.now) delivery_count link_credit drains history))) }
{
    let session = link.session;
    let numbers = Flow::of_session(
        past.next_incoming_id(session),
        past.next_outgoing_id(session),
    );
    let flow = numbers.of_link(link.handle, delivery_count, link_credit, drains);
    put_spoken(out, session.channel, &Performative::Flow(flow), &[])
}

/// Appends the flow that fills up the credit of a producer's live link.
///
/// # Errors
///
/// Where memory is refused: then nothing was appended.
pub fn put_credit<P: Counts>(
    out: &mut Vec<u8>,
    past: &P,
    rules: &RuleSet,
    link: &Link,
) -> Result<(), AllocError>
    requires few { P.is_short past.now }
    ensures appended { (history : Events) → P.stands_for past.now rules.now history → IsLiveLink (link_view link.now) history
        → Puts out.old.items out.new.items result (spoken_octets (written_credit (link_view link.now) (law.full_credit rules.now history (link_view link.now)) history)) }
    ensures again { (history : Events) → P.stands_for past.now rules.now history → IsLiveLink (link_view link.now) history
        → IsReadAgain (written_credit (link_view link.now) (law.full_credit rules.now history (link_view link.now)) history) }
{
    let credit = full_credit(past, rules, link);
    let count = past.received_count(link);
    put_numbers(out, past, link, count, credit, false)
}

/// Appends the answer to the drain of a consumer's live link: its credit is used up.
///
/// # Errors
///
/// Where memory is refused: then nothing was appended.
pub fn put_drain<P: Counts>(out: &mut Vec<u8>, past: &P, link: &Link) -> Result<(), AllocError>
    ensures appended { (rules : RuleSet) (history : Events) → P.stands_for past.now rules history → IsLiveLink (link_view link.now) history
        → Puts out.old.items out.new.items result (spoken_octets (written_count (link_view link.now) (law.drained_count history (link_view link.now)) 0 history)) }
    ensures again { (rules : RuleSet) (history : Events) → P.stands_for past.now rules history → IsLiveLink (link_view link.now) history
        → IsReadAgain (written_count (link_view link.now) (law.drained_count history (link_view link.now)) 0 history) }
{
    let count = past
        .delivery_count(link)
        .wrapping_add(past.link_credit(link));
    let drains = past.is_draining(link);
    put_numbers(out, past, link, count, 0, drains)
}
