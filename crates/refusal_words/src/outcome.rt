//! What L11 and L12 compare, in words.

use crate::text::{Hex, Noted, OrNoAddress, StateToTell, kind_name, where_so};
use crate::transfer::{FromClient, ToClient, write_flag};
use amqp_perf::{Outcome, State};
use capture_view::outcome_name;
use pairing_cert::{Note, Why};
use refusal_facts::{Carrier, Decision, OutcomeFacts, SettlingFacts, ToldDelivery};
use std::fmt;

/// The ids of a disposition.
fn write_ids<W: fmt::Write>(f: &mut fmt::Formatter<W>, first: u32, last: u32) -> fmt::Result {
    if first == last {
        write!(f, "\nid: {first}, one as is due")
    } else {
        write!(f, "\nids: {first} to {last}, due one")
    }
}

/// What the consumer has decided.
fn write_decision<W: fmt::Write>(
    f: &mut fmt::Formatter<W>,
    decision: &Option<Decision>,
) -> fmt::Result {
    match decision {
        None => write!(f, "no decision of the consumer"),
        Some(Decision::Settled) => write!(f, "the consumer settled it without an outcome"),
        Some(Decision::Terminal(outcome, octets)) => write!(
            f,
            "the consumer decided {} ({})",
            outcome_name(*outcome),
            Hex(octets)
        ),
    }
}

/// The state that is told.
fn write_state<W: fmt::Write>(f: &mut fmt::Formatter<W>, state: &Option<State>) -> fmt::Result {
    match state {
        None => write!(f, "\nstate: none"),
        Some(state) => match state.outcome() {
            Some(outcome) => {
                let name = outcome_name(outcome);
                write!(f, "\nstate: {name} ({})", Hex(state.raw()))
            }
            None => write!(f, "\nstate: no outcome ({})", Hex(state.raw())),
        },
    }
}

/// Who was sent the delivery, and what is known of that.
fn write_carrier<W: fmt::Write>(f: &mut fmt::Formatter<W>, carrier: &Carrier) -> fmt::Result {
    write!(
        f,
        "\ncarried: as {}; {}wholly sent, on a link that {} and is {}pre-settled; ",
        ToClient(&carrier.outgoing),
        where_so(!carrier.is_sent, "not "),
        if carrier.is_live { "lives" } else { "is over" },
        where_so(!carrier.outgoing.link.is_pre_settled, "not ")
    )?;
    write_decision(f, &carrier.decision)
}

/// What came of the copies of a multicast delivery.
fn write_verdict<W: fmt::Write>(
    f: &mut fmt::Formatter<W>,
    verdict: Option<Outcome>,
) -> fmt::Result {
    match verdict {
        Some(outcome) => {
            let name = outcome_name(outcome);
            write!(
                f,
                "\nverdict: {name}, the best of its copies; none that is due lacks one"
            )
        }
        None => write!(f, "\nverdict: none yet, since a copy that is due has none"),
    }
}

/// What carries an anycast delivery, or what came of the copies of a multicast one, which come due once it is complete.
fn write_fate<W: fmt::Write>(f: &mut fmt::Formatter<W>, told: &ToldDelivery) -> fmt::Result {
    match &told.carrier {
        _ if told.is_multicast && !told.is_complete => Ok(()),
        _ if told.is_multicast => write_verdict(f, told.verdict),
        None => write!(f, "\ncarried: to no consumer"),
        Some(carrier) => write_carrier(f, carrier),
    }
}

/// The row that the note names.
fn write_row<W: fmt::Write>(
    f: &mut fmt::Formatter<W>,
    note: Note,
    told: &ToldDelivery,
) -> fmt::Result {
    write!(f, "\nnote: {}", Noted(note))?;
    match (told.row, note) {
        (Some(row), _) => write!(f, ", which applies and tells {}", StateToTell(row)),
        (None, Note::Told(Why::C | Why::Z)) => write!(
            f,
            ", which does not apply; the producer takes frames of {} octets",
            told.frame_limit
        ),
        (None, Note::Told(_)) => write!(f, ", which does not apply"),
        (None, _) => write!(f, ", due a row"),
    }
}

/// The address that a complete delivery on a link without one is for.
fn write_own_address<W: fmt::Write>(f: &mut fmt::Formatter<W>, told: &ToldDelivery) -> fmt::Result {
    if told.delivery.link.is_anonymous() && told.is_complete {
        let address = OrNoAddress(told.address);
        write!(f, "\naddress: {address}, by its message")
    } else {
        Ok(())
    }
}

/// A delivery whose outcome is told.
fn write_told<W: fmt::Write>(
    f: &mut fmt::Formatter<W>,
    facts: &OutcomeFacts,
    told: &ToldDelivery,
) -> fmt::Result {
    write!(
        f,
        "\n{} {}{}{}{}",
        kind_name(told.is_multicast),
        FromClient(&told.delivery),
        where_so(
            !told.is_complete,
            "\ncomplete: no, its last part has not come",
        ),
        where_so(
            told.is_closed,
            "\nclosed: it is told, settled by its producer, or its link is over",
        ),
        where_so(
            told.is_gone,
            "\ngone: it found no consumer or lost the last one",
        )
    )?;
    write_own_address(f, told)?;
    write_fate(f, told)?;
    write_row(f, facts.note, told)?;
    write_state(f, &facts.state)
}

/// L11.
pub(crate) fn write_outcome<W: fmt::Write>(
    f: &mut fmt::Formatter<W>,
    facts: &OutcomeFacts,
) -> fmt::Result {
    write_flag(f, "settled", facts.is_settled, true)?;
    write_ids(f, facts.first, facts.last)?;
    match &facts.told {
        Some(told) => write_told(f, facts, told),
        None => write!(
            f,
            "\ndelivery: none of id {} on the session is undecided: none began, or it was told, settled by its producer or given up, or its link is over",
            facts.first
        ),
    }
}

/// L12.
pub(crate) fn write_settling<W: fmt::Write>(
    f: &mut fmt::Formatter<W>,
    facts: &SettlingFacts,
) -> fmt::Result {
    write_flag(f, "settled", facts.is_settled, true)?;
    write_ids(f, facts.first, facts.last)?;
    match facts.to_settle {
        Some(number) => write!(f, "\ndelivery: that of record {number} is to be settled"),
        None => write!(
            f,
            "\ndelivery: none of id {} on the session is to be settled: none began, its link is over or pre-settled, its consumer has not decided it, it is settled, or its producer is still to be told",
            facts.first
        ),
    }
}
