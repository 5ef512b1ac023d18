//! Performatives that are read.

use crate::words::{Hex, NoAnswer, hex_if, octets, tell, tell_if};
use crate::written;
use amqp_perf::{Attach, Disposition, PerfFault, Performative};
use kit_cases::{behind, parted, word};
use std::alloc::{AllocError, Global};

/// What comes of a case about performatives.
pub(crate) fn answer(alloc: Global, words: &[&str]) -> Result<String, NoAnswer> {
    let (verb, rest) = parted(words);
    match verb {
        "read" => Ok(read(alloc, &octets(alloc, word(rest, 0))?)?),
        "fits" => fits(alloc, word(rest, 0), behind(rest, 1)),
        "write" => written::answer(alloc, rest),
        _ => Err(NoAnswer::NoCase),
    }
}

/// A fault, behind its number.
pub(crate) fn fault_told(alloc: Global, fault: PerfFault) -> Result<String, AllocError> {
    format!(in alloc; "fault {} {fault:?}", fault.number())
}

/// The performative at the front of the octets, what its methods say, and the octets behind it.
fn read(alloc: Global, octets: &[u8]) -> Result<String, AllocError> {
    match Performative::read(octets) {
        Ok((performative, payload)) => {
            let mut out = format!(in alloc; "{performative:?}\n ")?;
            tell_meaning(&mut out, &performative)?;
            tell(&mut out, "payload", Hex(payload))?;
            Ok(out)
        }
        Err(fault) => fault_told(alloc, fault),
    }
}

/// What a performative's methods say.
fn tell_meaning(out: &mut String, performative: &Performative<'_>) -> Result<(), AllocError> {
    tell_if(out, "state", hex_if(performative.state_raw()))?;
    match performative {
        Performative::Open(open) => tell(out, "limit", open.frame_limit()),
        Performative::Attach(attach) => tell_attach(out, attach),
        Performative::Flow(flow) => {
            tell(out, "drains", flow.drains())?;
            tell(out, "wants echo", flow.wants_echo())
        }
        Performative::Transfer(transfer) => {
            tell(out, "has more", transfer.has_more())?;
            tell(out, "is resumed", transfer.is_resumed())?;
            tell(out, "is aborted", transfer.is_aborted())
        }
        Performative::Disposition(disposition) => tell_disposition(out, disposition),
        Performative::Detach(detach) => tell(out, "is closed", detach.is_closed()),
        _ => Ok(()),
    }
}

fn tell_attach(out: &mut String, attach: &Attach<'_>) -> Result<(), AllocError> {
    tell(out, "sender", attach.sender_mode())?;
    tell(out, "receiver", attach.receiver_mode())?;
    if let Some(source) = attach.source {
        tell(out, "source is dynamic", source.is_dynamic())?;
    }
    Ok(())
}

fn tell_disposition(out: &mut String, disposition: &Disposition<'_>) -> Result<(), AllocError> {
    tell(out, "last", disposition.last_id())?;
    tell(out, "is settled", disposition.is_settled())?;
    if let Some(state) = disposition.state {
        tell(out, "told", Hex(state.raw()))?;
        tell(out, "outcome", state.outcome())?;
    }
    Ok(())
}

/// Whether fields are those of the performative that has this code, or which fault there is. The list is of the short
/// form.
fn fits(alloc: Global, code: &str, fields: &[&str]) -> Result<String, NoAnswer> {
    let mut list = octets(alloc, code)?;
    put_list(&mut list, fields)?;
    match Performative::read(&list) {
        Ok(_) => Ok("fits".to_string(alloc)?),
        Err(fault) => Ok(fault_told(alloc, fault)?),
    }
}

/// Puts a list of the short form.
fn put_list(out: &mut Vec<u8>, fields: &[&str]) -> Result<(), NoAnswer> {
    let items = joined(*out.allocator(), fields)?;
    let sizes = (
        u8::try_from(items.len().saturating_add(1)),
        u8::try_from(fields.len()),
    );
    let (Ok(size), Ok(count)) = sizes else {
        return Err(NoAnswer::NoCase);
    };
    out.extend_from_slice(&[0xC0, size, count])?;
    out.extend_from_slice(&items)?;
    Ok(())
}

/// The octets of all words, one behind the other.
fn joined(alloc: Global, words: &[&str]) -> Result<Vec<u8>, NoAnswer> {
    let mut all = Vec::new(alloc);
    for word in words {
        all.extend_from_slice(&octets(alloc, word)?)?;
    }
    Ok(all)
}
