//! Performatives as the router writes them, alone and in frames, and the frames of a SASL exchange.

ghost use Rattle.std.specs.Prelude.{◌≡◌, ◌≤◌, length, IfOk};
ghost use Rattle.flow_counts.specs.declared.profile.TheConstants.{MAX_ADDRESS};
ghost use Rattle.amqp_perf.specs.View.{view};
ghost use Rattle.amqp_perf.specs.Writing.{IsWritable};

use crate::words::{NoAnswer, between_commas, hexed, number, octets};
use amqp_frames::{SASL_OK, SaslFrame, put_frame, sasl_write};
use amqp_perf::{
    Attach, Begin, Detach, Disposition, ErrorCondition, Flow, Open, Outcome, Performative, Role,
    SenderSettleMode, State, Transfer,
};
use flow_counts::{MAX_ADDRESS, MAX_FRAME_SIZE};
use kit_cases::{behind, parted, word};
use std::alloc::{AllocError, Global};

/// The tag of each delivery.
const TAG: &[u8] = &[0, 0, 0, 0];

/// The octets of performatives, which are written one behind the other; a comma stands between them.
pub(crate) fn answer(alloc: Global, words: &[&str]) -> Result<String, NoAnswer> {
    let mut out = Vec::new(alloc);
    for performative in &between_commas(alloc, words)? {
        write(&mut out, *performative)?;
    }
    Ok(hexed(alloc, &out)?)
}

fn write(out: &mut Vec<u8>, performative: &[&str]) -> Result<(), NoAnswer> {
    let (kind, rest) = parted(performative);
    match kind {
        "open" | "begin" | "end" | "close" => write_beside_links(out, kind, word(rest, 0)),
        "attach" => write_attach(out, word(rest, 0), behind(rest, 1)),
        "flow" => write_flow(out, rest),
        "detach" => write_detach(out, rest),
        _ => write_of_delivery(out, kind, rest),
    }
}

/// A performative of a connection or a session.
fn write_beside_links(out: &mut Vec<u8>, kind: &str, word: &str) -> Result<(), NoAnswer> {
    match kind {
        "open" => Open::of_router().write(out)?,
        "begin" => Begin::answering(number(word)?).write(out)?,
        "end" => Performative::end(None).write(out)?,
        _ => Performative::close(condition(word)?).write(out)?,
    }
    Ok(())
}

fn write_flow(out: &mut Vec<u8>, words: &[&str]) -> Result<(), NoAnswer> {
    let (handle, count) = (number(word(words, 0))?, number(word(words, 1))?);
    let (credit, drains) = (number(word(words, 2))?, number(word(words, 3))?);
    let link = Flow::of_session(0, 0).of_link(handle, count, credit, drains);
    link.write(out)?;
    Ok(())
}

fn write_detach(out: &mut Vec<u8>, words: &[&str]) -> Result<(), NoAnswer> {
    let (handle, error) = (number(word(words, 0))?, condition(word(words, 1))?);
    Detach::with(handle, true, error).write(out)?;
    Ok(())
}

fn write_attach(out: &mut Vec<u8>, name: &str, words: &[&str]) -> Result<(), NoAnswer> {
    if name.len() > 8 {
        return Err(NoAnswer::NoCase);
    }
    let (kind, rest) = parted(words);
    match kind {
        "to-producer" => write_to_producer(out, name, word(rest, 0)),
        "to-consumer" => write_to_consumer(out, name, word(rest, 0), word(rest, 1)),
        "refused-sender" => write_refused(out, name, Role::Sender),
        "refused-receiver" => write_refused(out, name, Role::Receiver),
        _ => Err(NoAnswer::NoCase),
    }
}

fn write_to_producer(out: &mut Vec<u8>, name: &str, address: &str) -> Result<(), NoAnswer>
    requires { length name.now ≤ 8 }
{
    let attach = asked(name, Role::Sender).to_producer(short(address)?);
    Performative::Attach(attach).write(out)?;
    Ok(())
}

fn write_to_consumer(
    out: &mut Vec<u8>,
    name: &str,
    address: &str,
    dynamic: &str,
) -> Result<(), NoAnswer>
    requires { length name.now ≤ 8 }
{
    let (address, dynamic) = (short(address)?, number(dynamic)?);
    let asked = asked(name, Role::Receiver);
    asked
        .to_consumer(address, dynamic, SenderSettleMode::Mixed)
        .write(out)?;
    Ok(())
}

fn write_refused(out: &mut Vec<u8>, name: &str, role: Role) -> Result<(), NoAnswer>
    requires { length name.now ≤ 8 }
{
    asked(name, role).refused().write(out)?;
    Ok(())
}

/// An attach of a client by its name and its role alone.
fn asked(name: &str, role: Role) -> Attach<'_>
    ensures { result.name.now ≡ name.now }
{
    Attach {
        name,
        handle: 0,
        role,
        snd_settle_mode: None,
        rcv_settle_mode: None,
        source: None,
        target: None,
        initial_delivery_count: None,
        max_message_size: None,
    }
}

/// A text that fits an attach.
fn short(text: &str) -> Result<&str, NoAnswer>
    ensures { IfOk result (λ x. (length x.now ≤ MAX_ADDRESS) × (x.now ≡ text.now)) }
{
    if text.len() > MAX_ADDRESS {
        return Err(NoAnswer::NoCase);
    }
    Ok(text)
}

fn write_of_delivery(out: &mut Vec<u8>, kind: &str, words: &[&str]) -> Result<(), NoAnswer> {
    let first = number(word(words, 0))?;
    match kind {
        "transfer" if words.len() > 2 => write_first(out, first, words)?,
        "transfer" => Transfer::later(first, number(word(words, 1))?).write(out)?,
        "disposition" => write_disposition(out, first, word(words, 1))?,
        _ => return Err(NoAnswer::NoCase),
    }
    Ok(())
}

/// A transfer that begins a delivery on the link of this handle.
fn write_first(out: &mut Vec<u8>, handle: u32, words: &[&str]) -> Result<(), NoAnswer> {
    let (settled, more) = (number(word(words, 2))?, number(word(words, 3))?);
    Transfer::first(handle, number(word(words, 1))?, TAG, 0, settled, more).write(out)?;
    Ok(())
}

/// A disposition of one delivery: it is settled, where there is no outcome.
fn write_disposition(out: &mut Vec<u8>, id: u32, outcome: &str) -> Result<(), NoAnswer> {
    match outcome {
        "" => Disposition::settling(id).write(out)?,
        "failed" => Disposition::outcome(id, Some(State::delivery_failed())).write(out)?,
        "released" => {
            Disposition::outcome(id, Some(State::of_outcome(Outcome::Released))).write(out)?;
        }
        "accepted" => {
            Disposition::outcome(id, Some(State::of_outcome(Outcome::Accepted))).write(out)?;
        }
        _ => return Err(NoAnswer::NoCase),
    }
    Ok(())
}

/// The error of this name, none where there is no name.
fn condition(name: &str) -> Result<Option<ErrorCondition>, NoAnswer> {
    match name {
        "" => Ok(None),
        "amqp:invalid-field" => Ok(Some(ErrorCondition::InvalidField)),
        "amqp:not-allowed" => Ok(Some(ErrorCondition::NotAllowed)),
        _ => Err(NoAnswer::NoCase),
    }
}

/// The octets of frames on channels, one behind the other, each with a payload; a comma stands between them.
pub(crate) fn in_frames(alloc: Global, words: &[&str]) -> Result<String, NoAnswer> {
    let mut out = Vec::new(alloc);
    for frame in &between_commas(alloc, words)? {
        write_frame(&mut out, *frame)?;
    }
    Ok(hexed(alloc, &out)?)
}

fn write_frame(out: &mut Vec<u8>, frame: &[&str]) -> Result<(), NoAnswer> {
    let (channel, payload) = (number(word(frame, 0))?, word(frame, 1));
    match word(frame, 2) {
        "open" => put(
            out,
            channel,
            &Performative::Open(Open::of_router()),
            payload,
        ),
        "transfer" => {
            let transfer = Transfer::first(0, 0, TAG, 0, false, false);
            put(out, channel, &Performative::Transfer(transfer), payload)
        }
        _ => Err(NoAnswer::NoCase),
    }
}

fn put(
    out: &mut Vec<u8>,
    channel: u16,
    performative: &Performative<'_>,
    payload: &str,
) -> Result<(), NoAnswer>
    requires { IsWritable (view performative.now) }
{
    let alloc = *out.allocator();
    let payload = octets(alloc, payload)?;
    let mut body = Vec::new(alloc);
    performative.write(&mut body)?;
    if body.len() > MAX_FRAME_SIZE as usize || payload.len() > MAX_FRAME_SIZE as usize {
        return Err(NoAnswer::NoCase);
    }
    put_frame(out, channel, performative, &payload)?;
    Ok(())
}

/// The octets of a frame of a SASL exchange.
pub(crate) fn sasl(alloc: Global, frame: &str) -> Result<String, NoAnswer> {
    let mut out = Vec::new(alloc);
    match frame {
        "mechanisms" => sasl_write(SaslFrame::Mechanisms { anonymous: true }, &mut out)?,
        "init" => {
            let init = SaslFrame::Init {
                mechanism: "ANONYMOUS",
                initial_response: None,
                hostname: None,
            };
            sasl_write(init, &mut out)?;
        }
        "outcome" => sasl_write(SaslFrame::Outcome { code: SASL_OK }, &mut out)?,
        _ => return Err(NoAnswer::NoCase),
    }
    Ok(hexed(alloc, &out)?)
}
