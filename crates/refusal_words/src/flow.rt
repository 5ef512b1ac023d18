//! What L10 compares, in words.

use crate::Origins;
use crate::text::deliveries;
use crate::transfer::{
    Linked, NO_SESSION, origin_of, write_credit_origin, write_flag, write_no_link, write_number,
    write_session,
};
use amqp_perf::Flow;
use flow_counts::{INCOMING_WINDOW, LOW_MARK, OUTGOING_WINDOW};
use refusal_facts::{ConsumerNumbers, FlowFacts, FlowLink, ProducerNumbers};
use std::fmt;

/// The numbers of the session.
fn write_session_numbers<W: fmt::Write>(
    f: &mut fmt::Formatter<W>,
    facts: &FlowFacts,
) -> fmt::Result {
    let Some(numbers) = &facts.session else {
        return write!(f, "\nsession: {NO_SESSION}");
    };
    let flow = &facts.flow;
    write_session(f, &numbers.session)?;
    write_number(
        f,
        "next-incoming-id",
        flow.next_incoming_id,
        numbers.next_incoming_id,
    )?;
    write_number(
        f,
        "incoming-window",
        Some(flow.incoming_window),
        INCOMING_WINDOW,
    )?;
    write_number(
        f,
        "next-outgoing-id",
        Some(flow.next_outgoing_id),
        numbers.next_outgoing_id,
    )?;
    write_number(
        f,
        "outgoing-window",
        Some(flow.outgoing_window),
        OUTGOING_WINDOW,
    )
}

/// A producer's link.
fn write_producer<W: fmt::Write>(
    f: &mut fmt::Formatter<W>,
    facts: &FlowFacts,
    numbers: &ProducerNumbers,
    origins: &Origins,
) -> fmt::Result {
    let flow = &facts.flow;
    write!(
        f,
        "\n{}: a producer's, given credit {}, {} undecided {}",
        Linked(&numbers.link, origins),
        numbers.given_credit,
        numbers.undecided,
        deliveries(numbers.undecided)
    )?;
    write_number(
        f,
        "delivery-count",
        flow.delivery_count,
        numbers.delivery_count,
    )?;
    write_flag(f, "drain", flow.drains(), false)?;
    write_given_credit(f, flow.link_credit, numbers)
}

/// The credit that a producer is told, and the one that is due.
fn write_given_credit<W: fmt::Write>(
    f: &mut fmt::Formatter<W>,
    said: Option<u32>,
    numbers: &ProducerNumbers,
) -> fmt::Result {
    write_number(f, "link-credit", said, numbers.given_credit)?;
    if said == Some(numbers.given_credit) {
        Ok(())
    } else if numbers.may_be_topped_up {
        write!(f, ", or {} to top it up", numbers.full_credit)
    } else {
        write_no_top_up(f, numbers)
    }
}

/// Why a producer's credit may not be topped up.
fn write_no_top_up<W: fmt::Write>(
    f: &mut fmt::Formatter<W>,
    numbers: &ProducerNumbers,
) -> fmt::Result {
    let both = u64::from(numbers.given_credit).saturating_add(numbers.undecided);
    if both > u64::from(LOW_MARK) {
        write!(
            f,
            "; it may not be topped up: given credit and undecided deliveries come to {both}, more than {LOW_MARK}"
        )
    } else {
        write!(
            f,
            "; it may not be topped up: its address is anycast and has no consumer"
        )
    }
}

/// Whether a drain may be answered, and why.
fn write_drain<W: fmt::Write>(f: &mut fmt::Formatter<W>, numbers: &ConsumerNumbers) -> fmt::Result {
    write_drain_answer(f, numbers)?;
    write!(
        f,
        " (asked for: {}; credit: {}; a delivery waits at the address: {}; a copy for the link is unsent: {})",
        yes_or_no(numbers.is_draining),
        numbers.credit,
        yes_or_no(numbers.has_waiting),
        yes_or_no(numbers.has_unsent)
    )
}

/// Whether a drain may be answered.
fn write_drain_answer<W: fmt::Write>(
    f: &mut fmt::Formatter<W>,
    numbers: &ConsumerNumbers,
) -> fmt::Result {
    if numbers.may_be_drained() {
        let count = numbers.drained_count();
        write!(
            f,
            "\ndrain answer: it may stand, with delivery-count {count} and link-credit 0"
        )
    } else {
        write!(f, "\ndrain answer: it may not stand")
    }
}

fn yes_or_no(is_so: bool) -> &'static str {
    if is_so { "yes" } else { "no" }
}

/// A consumer's link.
fn write_consumer<W: fmt::Write>(
    f: &mut fmt::Formatter<W>,
    facts: &FlowFacts,
    numbers: &ConsumerNumbers,
    origins: &Origins,
) -> fmt::Result {
    write!(
        f,
        "\n{}: a consumer's, credit {}",
        Linked(&numbers.link, origins),
        numbers.credit
    )?;
    write_credit_origin(f, origin_of(origins, &numbers.link), numbers.delivery_count)?;
    write_consumer_numbers(f, &facts.flow, numbers)
}

/// The numbers of a consumer's link, those that are said and those that are due.
fn write_consumer_numbers<W: fmt::Write>(
    f: &mut fmt::Formatter<W>,
    flow: &Flow,
    numbers: &ConsumerNumbers,
) -> fmt::Result {
    write_number(
        f,
        "delivery-count",
        flow.delivery_count,
        numbers.delivery_count,
    )?;
    write_number(f, "link-credit", flow.link_credit, numbers.credit)?;
    write_flag(f, "drain", flow.drains(), numbers.is_draining)?;
    if flow.drains() || numbers.is_draining {
        write_drain(f, numbers)
    } else {
        Ok(())
    }
}

/// L10.
pub(crate) fn write_flow<W: fmt::Write>(
    f: &mut fmt::Formatter<W>,
    facts: &FlowFacts,
    origins: &Origins,
) -> fmt::Result {
    write_session_numbers(f, facts)?;
    match &facts.link {
        FlowLink::Nothing => write_flag(f, "drain", facts.flow.drains(), false),
        FlowLink::NotLive(handle) => write_no_link(f, *handle),
        FlowLink::Producer(numbers) => write_producer(f, facts, numbers, origins),
        FlowLink::Consumer(numbers) => write_consumer(f, facts, numbers, origins),
    }
}
