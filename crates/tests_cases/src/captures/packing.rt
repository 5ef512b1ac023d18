//! Captures that are written as packets.

use crate::captures::fakes::{Pieces, Room};
use crate::captures::writing::packed;
use capture_form::{Capture, WriteFault, read_capture, read_whole_records};
use capture_packets::{PacketFault, pack_capture};
use kit_cases::{Answer, told};
use std::alloc::Global;

/// More octets than the packets of any case have.
const ENOUGH: usize = 100000;

/// The octets of a capture's packets.
fn packets_of(alloc: Global, capture: &Capture) -> Vec<u8> {
    packed(alloc, capture, Room::new(alloc, 4096, ENOUGH, None)).octets
}

/// How many octets the packets of a capture have, and those behind the first ones, a line for each block.
pub fn packets_shown(alloc: Global, text: &[u8], from: usize) -> Answer {
    let Ok(capture) = read_capture(alloc, text) else {
        return Ok(None);
    };
    let packets = packets_of(alloc, &capture);
    let mut lines = format!(in alloc; ": {}", packets.len())?;
    let mut rest = packets.get(from..).unwrap_or(&[]);
    for _ in 0..packets.len() {
        let (block, behind) = rest.split_at(block_len(rest).min(rest.len()));
        write!(lines, "\n    {}", hex::encode(alloc, block)?)?;
        if behind.is_empty() {
            break;
        }
        rest = behind;
    }
    Ok(Some(lines))
}

/// How many octets a block says that it has.
fn block_len(octets: &[u8]) -> usize {
    match octets {
        [_, _, _, _, a, b, c, d, ..] => u32::from_be_bytes([*a, *b, *c, *d]) as usize,
        _ => octets.len(),
    }
}

/// Why packets are not written, in words.
pub fn faults_in_words(alloc: Global) -> Answer {
    let fault = PacketFault::Write(WriteFault { taken: 20 });
    Ok(Some(format!(in alloc; ": {}, {fault}", PacketFault::Memory)?))
}

/// What comes of a text that is packed from a reader, which fails at its end or not, into room for so many octets, behind
/// four others: the answer, how many octets were written, whether the writer was flushed, and whether the octets are the
/// first ones of the packets of the text's whole records.
pub fn pack_read(alloc: Global, text: &[u8], left: usize, fails: bool, flushes: bool) -> Answer {
    let reader = Pieces::steady(text, 4096, fails.then_some(text.len()));
    let mut room = Room::new(alloc, 4096, left, None);
    room.octets.extend_from_slice(b"held")?;
    if !flushes {
        room.refuse_flush();
    }
    let (out, packed) = pack_capture(alloc, reader, room);
    let whole = read_whole_records(alloc, text).capture;
    let packets = packets_of(alloc, &whole);
    let octets = out.octets.as_slice().strip_prefix(b"held".as_slice());
    let octets = octets.unwrap_or(&[]);
    let are_first = packets.as_slice().starts_with(octets);
    told(alloc, (packed, octets.len(), out.is_flushed, are_first))
}
