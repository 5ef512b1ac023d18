//! What L1 to L3 and L13 compare, in words.

use crate::Origins;
use crate::text::{
    Asked, OrNoAddress, Quoted, receiver_mode_name, role_name, sender_mode_name, where_so,
};
use crate::transfer::{Linked, NO_SESSION, write_no_link, write_number, write_session};
use amqp_perf::{ErrorCondition, Performative};
use flow_counts::INCOMING_WINDOW;
use refusal_facts::{
    AskedAddress, Asking, AttachFacts, BeginFacts, DetachFacts, EndFacts, FrameFacts, WritingFacts,
};
use std::fmt;
use trace_events::{Body, Fault, Session};

/// The octets of a frame behind its header and whatever extends that, where it is a whole one.
fn body_octets(octets: &[u8]) -> &[u8] {
    match octets.get(4) {
        Some(words) => octets.get(usize::from(*words) * 4..).unwrap_or(&[]),
        None => &[],
    }
}

/// L1, of octets that are no performative.
pub(crate) fn write_frame<W: fmt::Write>(
    f: &mut fmt::Formatter<W>,
    facts: &FrameFacts,
) -> fmt::Result {
    let octets = facts.frame.octets;
    match facts.frame.body {
        Body::NoFrame => write!(
            f,
            "\nframe: {} octets that are not one whole frame of type AMQP",
            octets.len()
        ),
        Body::Empty(_) => write!(f, "\nframe: an empty body, due a performative"),
        Body::NoPerformative(_) => write_no_performative(f, body_octets(octets)),
        Body::Says(_) => Ok(()),
    }
}

/// Why a body is no performative.
fn write_no_performative<W: fmt::Write>(f: &mut fmt::Formatter<W>, body: &[u8]) -> fmt::Result {
    match Performative::read(body).err() {
        None => write!(f, "\nframe: no whole performative stands in its body"),
        Some(fault) => write!(
            f,
            "\nframe: no whole performative stands in its body: {fault}, counted from the body on"
        ),
    }
}

/// L1, of a performative.
pub(crate) fn write_writing<W: fmt::Write>(
    f: &mut fmt::Formatter<W>,
    facts: &WritingFacts,
) -> fmt::Result {
    let is_late = facts.was_stopped && !facts.is_of_connection;
    write!(
        f,
        "{}{}{}{}",
        where_so(!facts.was_opened, "\nconnection: it was not opened"),
        where_so(
            facts.was_finished,
            "\nconnection: it is lost, or the router has closed it",
        ),
        order_broken(facts),
        where_so(
            is_late,
            "\norder: neither an open nor a close, and the client has closed, or its octets stopped being frames (broken)",
        )
    )?;
    let (len, limit) = (facts.len, facts.limit);
    if len > limit as usize {
        write!(f, "\nframe: {len} octets, the limit is {limit}")
    } else {
        Ok(())
    }
}

/// What is wrong with the place of an open, or of a first frame.
fn order_broken(facts: &WritingFacts) -> &'static str {
    match (facts.is_open, facts.has_out_frame) {
        (true, true) => "\norder: an open, and a frame was written on the connection before",
        (false, false) => "\norder: the router's first frame on the connection, and it is no open",
        _ => "",
    }
}

/// L2.
pub(crate) fn write_begin<W: fmt::Write>(
    f: &mut fmt::Formatter<W>,
    facts: &BeginFacts,
) -> fmt::Result {
    let asked = if facts.is_asked_for {
        "there is one to be answered, as is due"
    } else {
        "there is none to be answered on the channel"
    };
    write!(f, "\nthe client's begin: {asked}")?;
    let channel = facts.remote_channel.map(u32::from);
    write_number(f, "remote-channel", channel, u32::from(facts.channel))?;
    write_number(
        f,
        "incoming-window",
        Some(facts.incoming_window),
        INCOMING_WINDOW,
    )
}

/// A word that is said, and the one that is due.
fn write_word<W: fmt::Write>(
    f: &mut fmt::Formatter<W>,
    name: &str,
    said: &str,
    due: &str,
) -> fmt::Result {
    if said == due {
        write!(f, "\n{name}: {due}, as is due")
    } else {
        write!(f, "\n{name}: {said}, due {due}")
    }
}

/// Whether source and target are there.
fn ends_name(facts: &AttachFacts) -> &'static str {
    match (facts.ours.source.is_some(), facts.ours.target.is_some()) {
        (true, true) => "both",
        (true, false) => "the source alone",
        (false, true) => "the target alone",
        (false, false) => "neither",
    }
}

/// The address of an attach that is to be accepted, and its settle modes.
fn write_accepted<W: fmt::Write>(
    f: &mut fmt::Formatter<W>,
    facts: &AttachFacts,
    asked: &Asking,
) -> fmt::Result {
    write_word(f, "source and target", ends_name(facts), "both")?;
    write_address(f, facts, asked.address)?;
    write_due_word(
        f,
        "snd-settle-mode",
        sender_mode_name(facts.ours.sender_mode()),
        facts.due_sender_mode.map(sender_mode_name),
    )?;
    write_due_word(
        f,
        "rcv-settle-mode",
        receiver_mode_name(facts.ours.receiver_mode()),
        facts.due_receiver_mode.map(receiver_mode_name),
    )
}

/// A word that is said, where one is due.
fn write_due_word<W: fmt::Write>(
    f: &mut fmt::Formatter<W>,
    name: &str,
    said: &str,
    due: Option<&str>,
) -> fmt::Result {
    match due {
        Some(due) => write_word(f, name, said, due),
        None => Ok(()),
    }
}

/// The address of an attach, against the one that is asked for.
fn write_address<W: fmt::Write>(
    f: &mut fmt::Formatter<W>,
    facts: &AttachFacts,
    asked: AskedAddress,
) -> fmt::Result {
    let said = facts.address;
    match asked {
        AskedAddress::Given(due) if due.is_empty() => write_no_address(f, facts),
        AskedAddress::Given(due) if due == said => {
            write!(f, "\naddress: {}, as is due", Quoted(said))
        }
        _ => write!(
            f,
            "\naddress: {}, asked for {}",
            OrNoAddress(said),
            Asked(asked)
        ),
    }
}

/// The address of an attach, where none is asked for.
fn write_no_address<W: fmt::Write>(f: &mut fmt::Formatter<W>, facts: &AttachFacts) -> fmt::Result {
    if facts.is_without_address {
        return write!(f, "\naddress: none, as is due");
    }
    if facts.ours.target.is_none() {
        return Ok(());
    }
    if facts.address.is_empty() {
        write!(
            f,
            "\ntarget: a coordinator, or one whose address is no text; asked for one without address"
        )
    } else {
        let said = Quoted(facts.address);
        write!(f, "\naddress: {said}, asked for none")
    }
}

/// What is asked for, against the answer.
fn write_asked<W: fmt::Write>(
    f: &mut fmt::Formatter<W>,
    facts: &AttachFacts,
    asked: &Asking,
) -> fmt::Result {
    write_name(f, facts.ours.name, asked.name)?;
    write_word(
        f,
        "role",
        role_name(facts.ours.role),
        role_name(asked.role.other()),
    )?;
    match asked.fault {
        None => write_accepted(f, facts, asked),
        Some(fault) => write_fault(f, facts, fault),
    }
}

/// The name of an attach, against the one that is asked for.
fn write_name<W: fmt::Write>(f: &mut fmt::Formatter<W>, said: &str, due: &str) -> fmt::Result {
    if said == due {
        write!(f, "\nname: {due:?}, as is due")
    } else {
        write!(f, "\nname: {said:?}, due {due:?}")
    }
}

/// The fault of the client's attach, and what is due for it.
fn write_fault<W: fmt::Write>(
    f: &mut fmt::Formatter<W>,
    facts: &AttachFacts,
    fault: Fault,
) -> fmt::Result {
    let (due, condition) = match fault {
        Fault::Refuse(condition) => return write_refusal(f, facts, condition),
        Fault::Close(condition) => ("close the connection", condition),
        Fault::End(condition) => ("end the session", condition),
        Fault::Detach(condition) => ("detach the link", condition),
    };
    write!(
        f,
        "\nthe client's attach has a fault for which the router has to {due} ({}); no attach may answer it",
        condition.name()
    )
}

/// Why the client's attach is to be refused.
fn write_refusal<W: fmt::Write>(
    f: &mut fmt::Formatter<W>,
    facts: &AttachFacts,
    condition: ErrorCondition,
) -> fmt::Result {
    let name = condition.name();
    write!(f, "\nthe client's attach is to be refused: {name}")?;
    write_word(f, "source and target", ends_name(facts), "neither")
}

/// L3.
pub(crate) fn write_attach<W: fmt::Write>(
    f: &mut fmt::Formatter<W>,
    facts: &AttachFacts,
) -> fmt::Result {
    let Some(session) = &facts.session else {
        return write!(f, "\nsession: {NO_SESSION}");
    };
    write_session(f, session)?;
    match &facts.asked {
        Some(asked) => write_asked(f, facts, asked),
        None => write!(
            f,
            "\nthe client's attach: there is none to be answered of handle {}",
            facts.ours.handle
        ),
    }
}

/// L13, of a detach.
pub(crate) fn write_detach<W: fmt::Write>(
    f: &mut fmt::Formatter<W>,
    facts: &DetachFacts,
    origins: &Origins,
) -> fmt::Result {
    write_any_session(f, &facts.session)?;
    match &facts.link {
        Some(link) => write!(f, "\n{} is live", Linked(link, origins))?,
        None => write_no_link(f, facts.handle)?,
    }
    let owed = if facts.is_owed {
        "a detach of the client's or a refusal is to be answered"
    } else {
        "no detach of the client's and no refusal is to be answered"
    };
    write!(f, "\nowed: {owed}")
}

/// L13, of an end.
pub(crate) fn write_end<W: fmt::Write>(f: &mut fmt::Formatter<W>, facts: &EndFacts) -> fmt::Result {
    write_any_session(f, &facts.session)?;
    let owed = if facts.is_owed { "an" } else { "no" };
    write!(f, "\nowed: {owed} end of the client's is to be answered")
}

/// A session, if one is live.
fn write_any_session<W: fmt::Write>(
    f: &mut fmt::Formatter<W>,
    session: &Option<Session>,
) -> fmt::Result {
    match session {
        Some(session) => write_session(f, session),
        None => write!(f, "\nsession: {NO_SESSION}"),
    }
}
