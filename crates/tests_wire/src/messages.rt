//! The address that a message is for, of a payload that lies in one part, and of the same in several.

use crate::words::{Hex, NoAnswer, octets};
use amqp_cuts::{Cuts, Parts};
use kit_cases::{parted, word};
use std::alloc::{AllocError, Global};

/// What comes of a case about messages.
pub(crate) fn answer(alloc: Global, words: &[&str]) -> Result<String, NoAnswer> {
    let (verb, rest) = parted(words);
    match verb {
        "to" => to(alloc, &octets(alloc, word(rest, 0))?),
        _ => Err(NoAnswer::NoCase),
    }
}

/// The octets of the address of the message that has this payload. Behind it stands each other one that is read of the payload
/// over its cuts: in one part, cut once anywhere, and with each octet apart.
fn to(alloc: Global, payload: &[u8]) -> Result<String, NoAnswer> {
    let to = match amqp_perf::message_to(payload) {
        Some(to) => Some(to.as_bytes()),
        None => None,
    };
    let mut out = String::new(alloc);
    tell_all(&mut out, payload, to)?;
    Ok(out)
}

/// Tells this address of a payload, and each other one.
///
/// It borrows the text, as all below: owned here, its drop would be proved on each way out.
fn tell_all(out: &mut String, payload: &[u8], to: Option<&[u8]>) -> Result<(), NoAnswer> {
    tell_address(out, to)?;
    tell_other(out, to, &payload, (1, payload.len()))?;
    for at in 0..=payload.len() {
        let (front, back) = payload.split_at(at);
        tell_of_parts(out, to, &[front, &[], back])?;
    }
    let octets: Vec<&[u8]> = payload.chunks(1).collect(*out.allocator())?;
    tell_of_parts(out, to, &octets)
}

/// Tells an address.
fn tell_address(out: &mut String, to: Option<&[u8]>) -> Result<(), AllocError> {
    match to {
        Some(to) => write!(out, "{:?}", Hex(to)),
        None => out.push_str("none"),
    }
}

/// Tells the address of a payload that lies in these parts, where it is not this one.
fn tell_of_parts(out: &mut String, to: Option<&[u8]>, parts: &[&[u8]]) -> Result<(), NoAnswer> {
    let lengths = (parts.len(), first_length(parts));
    match Parts::new(parts) {
        Some(parts) => Ok(tell_other(out, to, &parts, lengths)?),
        None => Err(NoAnswer::NoCase),
    }
}

/// How many octets stand in the first part.
fn first_length(parts: &[&[u8]]) -> usize {
    match parts {
        [first, ..] => first.len(),
        [] => 0,
    }
}

/// Tells the address of a payload that is read over its cuts, where it is not this one; and how many parts it has, and octets in
/// the first one.
fn tell_other<C: Cuts>(
    out: &mut String,
    to: Option<&[u8]>,
    payload: &C,
    (parts, octets): (usize, usize),
) -> Result<(), AllocError> {
    let other = amqp_cuts::message_to(payload);
    let other = match &other {
        Some(other) => Some(other.octets()),
        None => None,
    };
    if other == to {
        return Ok(());
    }
    out.push_str(" and ")?;
    tell_address(out, other)?;
    write!(out, " over {parts} parts, the first of {octets} octets")
}
