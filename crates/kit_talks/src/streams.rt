//! Streams of a client, as it should send them and otherwise.

use kit_clients::{AMQP_HEADER, Chance, SASL_HEADER};
use std::alloc::{AllocError, Global};

/// A header of another protocol, and one of another version.
const OTHER_HEADERS: &[&[u8]] = &[b"HTTP/1.1", b"AMQP\x00\x00\x09\x01"];

/// Inits that choose ANONYMOUS: in short, in long, by name, and with all their fields.
const ANONYMOUS_INITS: &[&[u8]] = &[
    b"\x00\x00\x00\x19\x02\x01\x00\x00\x00\x53\x41\xc0\x0c\x01\xa3\x09ANONYMOUS",
    b"\x00\x00\x00\x29\x02\x01\x00\x07\x00\x80\x00\x00\x00\x00\x00\x00\x00\x41\xd0\x00\x00\x00\x12\x00\x00\x00\x01\xb3\x00\x00\x00\x09ANONYMOUS",
    b"\x00\x00\x00\x2d\x02\x01\x00\x00\x00\xa3\x13amqp:sasl-init:list\xc0\x0d\x02\xa3\x09ANONYMOUS\x40",
    b"\x00\x00\x00\x22\x03\x01\x00\x00\xff\xff\xff\xff\x00\x53\x41\xc0\x11\x03\xa3\x09ANONYMOUS\xa0\x00\xa1\x01h",
];

/// Inits that choose another mechanism, frames that are no init, and octets that are no frame.
const OTHER_INITS: &[&[u8]] = &[
    b"\x00\x00\x00\x15\x02\x01\x00\x00\x00\x53\x41\xc0\x08\x01\xa3\x05PLAIN",
    b"\x00\x00\x00\x19\x02\x01\x00\x00\x00\x53\x41\xc0\x0c\x01\xa3\x09anonymous",
    b"\x00\x00\x00\x10\x02\x01\x00\x00\x00\x53\x41\xc0\x03\x01\xa3\x00",
    b"\x00\x00\x00\x08\x02\x01\x00\x00",
    b"\x00\x00\x00\x10\x02\x01\x00\x00\x00\x53\x44\xc0\x03\x01\x50\x00",
    b"\x00\x00\x00\x0c\x02\x01\x00\x00\x00\x53\x41\x45",
    b"\x00\x00\x00\x19\x02\x00\x00\x00\x00\x53\x41\xc0\x0c\x01\xa3\x09ANONYMOUS",
    b"\x00\x00\x00\x07\x02\x01\x00\x00",
];

/// Opens: of frames of any length, and of none of more than 512 octets.
const OPENS: &[&[u8]] = &[
    b"\x00\x53\x10\xc0\x04\x01\xa1\x01p",
    b"\x00\x53\x10\xc0\x0a\x03\xa1\x01a\x40\x70\x00\x00\x02\x00",
];

/// An open of frames that are too short.
const SMALL_OPEN: &[u8] = b"\x00\x53\x10\xc0\x0a\x03\xa1\x01a\x40\x70\x00\x00\x01\xff";

const BEGIN: &[u8] = b"\x00\x53\x11\xc0\x07\x04\x40\x43\x52\x64\x52\x64";

/// Attaches of producers of `q` and `news`, and of consumers.
const PRODUCERS: &[&[u8]] = &[
    b"\x00\x53\x12\xc0\x15\x0a\xa1\x01s\x43\x42\x40\x40\x40\x00\x53\x29\xc0\x04\x01\xa1\x01q\x40\x40\x43",
    b"\x00\x53\x12\xc0\x18\x0a\xa1\x01s\x43\x42\x40\x40\x40\x00\x53\x29\xc0\x07\x01\xa1\x04news\x40\x40\x43",
];

const CONSUMERS: &[&[u8]] = &[
    b"\x00\x53\x12\xc0\x11\x06\xa1\x01r\x43\x41\x40\x40\x00\x53\x28\xc0\x04\x01\xa1\x01q",
    b"\x00\x53\x12\xc0\x14\x06\xa1\x01r\x43\x41\x40\x40\x00\x53\x28\xc0\x07\x01\xa1\x04news",
];

/// Ends of a link, of a session and of a connection.
const ENDS: &[&[u8]] = &[
    b"\x00\x53\x16\xc0\x03\x02\x43\x41",
    b"\x00\x53\x17\x45",
    b"\x00\x53\x18\x45",
];

/// A stream: what stands before the frames, frames, and perhaps some damage.
pub fn stream(alloc: Global, chance: &mut Chance) -> Result<Vec<u8>, AllocError> {
    let mut octets = Vec::new(alloc);
    put_start(chance, &mut octets)?;
    put_talk(chance, &mut octets)?;
    damage(chance, &mut octets);
    Ok(octets)
}

/// Puts a header, perhaps an exchange, and a header again.
fn put_start(chance: &mut Chance, octets: &mut Vec<u8>) -> Result<(), AllocError> {
    match chance.below(16) {
        0 => return octets.extend_from_slice(chance.one_of(OTHER_HEADERS, &[])),
        1..=8 => return octets.extend_from_slice(AMQP_HEADER),
        _ => octets.extend_from_slice(SASL_HEADER)?,
    }
    let inits = if chance.once_in(5) {
        OTHER_INITS
    } else {
        ANONYMOUS_INITS
    };
    octets.extend_from_slice(chance.one_of(inits, &[]))?;
    match chance.below(12) {
        0 => octets.extend_from_slice(SASL_HEADER),
        1 => octets.extend_from_slice(chance.one_of(OTHER_HEADERS, &[])),
        _ => octets.extend_from_slice(AMQP_HEADER),
    }
}

/// Puts the frames of a producer or a consumer. In half of the streams some are left out, and others come between.
fn put_talk(chance: &mut Chance, octets: &mut Vec<u8>) -> Result<(), AllocError> {
    let is_noisy = chance.once_in(2);
    let is_producer = chance.once_in(2);
    let links = if is_producer { PRODUCERS } else { CONSUMERS };
    for choices in [OPENS, &[BEGIN], links] {
        if !is_noisy || !chance.once_in(12) {
            put_frame(octets, &[chance.one_of(choices, &[])])?;
        }
    }
    if !is_producer {
        put_flow(chance, octets)?;
    }
    for number in 0..chance.below(24) {
        if is_noisy && chance.once_in(6) {
            put_other(chance, octets)?;
        }
        put_next(chance, octets, is_producer, number as u8)?;
    }
    Ok(())
}

/// Puts a frame that should not stand there, or that ends something.
fn put_other(chance: &mut Chance, octets: &mut Vec<u8>) -> Result<(), AllocError> {
    match chance.below(8) {
        0..=2 => put_frame(octets, &[chance.one_of(ENDS, &[])]),
        3 => put_frame(octets, &[chance.one_of(PRODUCERS, &[])]),
        4 => put_frame(octets, &[chance.one_of(CONSUMERS, &[])]),
        5 => put_frame(octets, &[SMALL_OPEN]),
        _ => put_any(chance, octets),
    }
}

/// Puts what a producer or a consumer sends next.
fn put_next(
    chance: &mut Chance,
    octets: &mut Vec<u8>,
    is_producer: bool,
    number: u8,
) -> Result<(), AllocError> {
    if !is_producer {
        return if chance.once_in(3) {
            put_flow(chance, octets)
        } else {
            put_disposition(chance, octets)
        };
    }
    if chance.once_in(6) {
        put_transfer(chance, octets, number, true)?;
    }
    put_transfer(chance, octets, number, false)
}

/// Puts a transfer of the delivery of this id, or of its first part, behind which more comes.
fn put_transfer(
    chance: &mut Chance,
    octets: &mut Vec<u8>,
    id: u8,
    has_more: bool,
) -> Result<(), AllocError> {
    let (settled, more) = (flag(chance.once_in(4)), flag(has_more));
    let list = [
        0x00, 0x53, 0x14, 0xc0, 0x0a, 0x06, 0x43, 0x52, id, 0xa0, 0x01, 0x31, 0x43, settled, more,
    ];
    let len = match chance.below(8) {
        0 => chance.below(1200),
        _ => chance.below(20),
    };
    let mut payload = Vec::new(*octets.allocator());
    for _ in 0..len {
        payload.push(chance.octet())?;
    }
    put_frame(octets, &[&list, &payload])
}

/// Puts a flow that gives some credit.
fn put_flow(chance: &mut Chance, octets: &mut Vec<u8>) -> Result<(), AllocError> {
    let credit = chance.below(30) as u8;
    let drain = flag(chance.once_in(12));
    let echo = flag(chance.once_in(8));
    let list = [
        0x00, 0x53, 0x13, 0xc0, 0x0e, 0x0a, 0x43, 0x52, 0x64, 0x43, 0x52, 0x64, 0x43, 0x43, 0x52,
        credit, 0x40, drain, echo,
    ];
    put_frame(octets, &[&list])
}

/// Puts a disposition of some deliveries.
fn put_disposition(chance: &mut Chance, octets: &mut Vec<u8>) -> Result<(), AllocError> {
    let first = chance.below(12) as u8;
    let last = first.wrapping_add(chance.below(8) as u8);
    let settled = flag(!chance.once_in(4));
    let outcome = 0x24 + chance.below(4) as u8;
    let list = [
        0x00, 0x53, 0x15, 0xc0, 0x0b, 0x05, 0x41, 0x52, first, 0x52, last, settled, 0x00, 0x53,
        outcome, 0x45,
    ];
    put_frame(octets, &[&list])
}

/// The code of a boolean.
fn flag(holds: bool) -> u8 {
    if holds { 0x41 } else { 0x42 }
}

/// Puts a frame on channel 0 whose body are these parts.
fn put_frame(octets: &mut Vec<u8>, body: &[&[u8]]) -> Result<(), AllocError> {
    let size = body
        .iter()
        .fold(8, |size: usize, part| size.saturating_add(part.len()));
    let size = u32::try_from(size).unwrap_or(u32::MAX);
    octets.extend_from_slice(&size.to_be_bytes())?;
    octets.extend_from_slice(&[2, 0, 0, 0])?;
    for part in body {
        octets.extend_from_slice(part)?;
    }
    Ok(())
}

/// Puts a frame with any octets as its body: an AMQP frame, but for a few of SASL, and no longer than 16384 octets, but
/// for a few of one more.
fn put_any(chance: &mut Chance, octets: &mut Vec<u8>) -> Result<(), AllocError> {
    let words = 2 + chance.below(3);
    let body = match chance.below(16) {
        0 => 16384 - 4 * words + chance.below(12) / 11,
        1 => chance.below(4096),
        _ => chance.below(40),
    };
    let size = (4 * words + body) as u32;
    octets.extend_from_slice(&size.to_be_bytes())?;
    octets.push(words as u8)?;
    octets.push((chance.below(10) / 9) as u8)?;
    for _ in 6..4 * words + body {
        octets.push(chance.octet())?;
    }
    Ok(())
}

/// Changes some octets, takes some out, and cuts the end off, or does nothing of this.
fn damage(chance: &mut Chance, octets: &mut Vec<u8>) {
    if chance.once_in(4) {
        for _ in 0..=chance.below(3) {
            change(chance, octets);
        }
    }
    if chance.once_in(8) {
        let from = chance.below(octets.len() + 1);
        let count = chance.below(40).min(octets.len() - from);
        octets.drain(from..from + count);
    }
    if chance.once_in(4) {
        let len = chance.below(octets.len() + 1);
        octets.truncate(len);
    }
}

/// Changes an octet of the first ones, or any.
fn change(chance: &mut Chance, octets: &mut [u8]) {
    let place = if chance.once_in(3) {
        chance.below(60)
    } else {
        chance.below(octets.len() + 1)
    };
    if let Some(octet) = octets.get_mut(place) {
        *octet = chance.octet();
    }
}
