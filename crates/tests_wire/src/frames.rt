//! Frames, protocol headers and the frames of a SASL exchange.

use crate::words::{Hex, NoAnswer, lent, number, octets, octets_of_each};
use crate::{changed, performatives, pieces, written};
use amqp_frames::{CutStream, FrameFault, FrameView, ProtocolHeader, cut_stream, sasl_read};
use kit_cases::{parted, word};
use std::alloc::{AllocError, Global};

/// What comes of a case about frames.
pub(crate) fn answer(alloc: Global, words: &[&str]) -> Result<String, NoAnswer> {
    let (verb, rest) = parted(words);
    match verb {
        "read" | "change" => within(alloc, verb, rest),
        "cut" => cut(alloc, rest),
        "write" => written::in_frames(alloc, rest),
        _ => pieces::answer(alloc, verb, rest),
    }
}

/// What is read of octets within a limit, or where one of them is another.
fn within(alloc: Global, verb: &str, words: &[&str]) -> Result<String, NoAnswer> {
    let (limit, octets) = (number(word(words, 0))?, octets(alloc, word(words, 1))?);
    let told = if verb == "read" {
        read(alloc, limit, &octets)
    } else {
        changed::told(alloc, limit, &octets)
    };
    Ok(told?)
}

/// A fault, behind its number.
pub(crate) fn fault_told(alloc: Global, fault: FrameFault) -> Result<String, AllocError> {
    format!(in alloc; "fault {} {fault:?}: {fault}", fault.number())
}

/// The frame at the front of the octets, and whether it is all of them.
fn read(alloc: Global, limit: u32, octets: &[u8]) -> Result<String, AllocError> {
    let mut out = String::new(alloc);
    if FrameView::whole(octets, limit).is_some() {
        out.push_str("whole ")?;
    }
    tell_front(&mut out, limit, octets)?;
    Ok(out)
}

/// Tells the frame at the front of the octets.
fn tell_front(out: &mut String, limit: u32, octets: &[u8]) -> Result<(), AllocError> {
    match FrameView::read(octets, limit) {
        Ok(Some((frame, length))) => {
            let (kind, channel) = (frame.kind(), frame.channel());
            let (all, body) = (Hex(frame.octets()), Hex(frame.body()));
            write!(
                out,
                "{kind:?} frame of {length} octets on channel {channel}\n  {all:?}\n  body {body:?}"
            )
        }
        Ok(None) => out.push_str("no whole frame yet"),
        Err(fault) => out.push_str(&fault_told(*out.allocator(), fault)?),
    }
}

/// The frames of a stream that comes in these pieces, and the fault behind them.
fn cut(alloc: Global, words: &[&str]) -> Result<String, NoAnswer> {
    let pieces = octets_of_each(alloc, words)?;
    Ok(cut_told(alloc, &cut_of(alloc, &pieces)?)?)
}

/// The frames that pieces are cut into.
fn cut_of(alloc: Global, pieces: &[Vec<u8>]) -> Result<CutStream, AllocError> {
    let pieces = lent(alloc, pieces)?;
    cut_stream(alloc, &pieces)
}

/// The frames of a stream that was cut, and the fault behind them.
fn cut_told(alloc: Global, cut: &CutStream) -> Result<String, AllocError> {
    let mut out = String::new(alloc);
    tell_cut(&mut out, cut)?;
    Ok(out)
}

/// Tells them.
fn tell_cut(out: &mut String, cut: &CutStream) -> Result<(), AllocError> {
    for frame in &cut.frames {
        write!(out, "{:?} ", Hex(frame))?;
    }
    write!(out, "{:?}", cut.fault)
}

/// The protocol header that the octets are, and its octets.
pub(crate) fn header(alloc: Global, word: &str) -> Result<String, NoAnswer> {
    let octets = octets(alloc, word)?;
    Ok(header_told(alloc, ProtocolHeader::of(&octets))?)
}

/// A protocol header, and its octets.
fn header_told(alloc: Global, header: Option<ProtocolHeader>) -> Result<String, AllocError> {
    match header {
        Some(header) => format!(in alloc; "{header:?} {:?}", Hex(&header.octets())),
        None => "no header".to_string(alloc),
    }
}

/// What comes of a case about frames of a SASL exchange.
pub(crate) fn sasl(alloc: Global, words: &[&str]) -> Result<String, NoAnswer> {
    let (verb, rest) = parted(words);
    match verb {
        "read" => Ok(sasl_told(alloc, &octets(alloc, word(rest, 0))?)?),
        "write" => written::sasl(alloc, word(rest, 0)),
        _ => Err(NoAnswer::NoCase),
    }
}

/// The frame of a SASL exchange that the octets are.
fn sasl_told(alloc: Global, octets: &[u8]) -> Result<String, AllocError> {
    match sasl_read(octets) {
        Ok(frame) => format!(in alloc; "{frame:?}"),
        Err(fault) => performatives::fault_told(alloc, fault),
    }
}
