//! Streams of a client, as it should send them and otherwise.

use kit_clients::{AMQP_HEADER, Chance, SASL_HEADER};
use std::alloc::{AllocError, Global};

/// A header of another protocol, and one of another version.
const HTTP: &[u8] = b"HTTP/1.1";

const OTHER_VERSION: &[u8] = b"AMQP\x00\x00\x09\x01";

/// Inits that choose ANONYMOUS: in short, in long, and with all their fields.
const ANONYMOUS_INITS: &[&[u8]] = &[
    b"\x00\x00\x00\x19\x02\x01\x00\x00\x00\x53\x41\xc0\x0c\x01\xa3\x09ANONYMOUS",
    b"\x00\x00\x00\x29\x02\x01\x00\x07\x00\x80\x00\x00\x00\x00\x00\x00\x00\x41\xd0\x00\x00\x00\x12\x00\x00\x00\x01\xb3\x00\x00\x00\x09ANONYMOUS",
    b"\x00\x00\x00\x22\x03\x01\x00\x00\xff\xff\xff\xff\x00\x53\x41\xc0\x11\x03\xa3\x09ANONYMOUS\xa0\x00\xa1\x01h",
];

/// Inits that choose another mechanism.
const OTHER_INITS: &[&[u8]] = &[
    b"\x00\x00\x00\x15\x02\x01\x00\x00\x00\x53\x41\xc0\x08\x01\xa3\x05PLAIN",
    b"\x00\x00\x00\x19\x02\x01\x00\x00\x00\x53\x41\xc0\x0c\x01\xa3\x09anonymous",
    b"\x00\x00\x00\x10\x02\x01\x00\x00\x00\x53\x41\xc0\x03\x01\xa3\x00",
];

/// Frames that are no init, and octets that are no frame.
const NO_INITS: &[&[u8]] = &[
    b"\x00\x00\x00\x08\x02\x01\x00\x00",
    b"\x00\x00\x00\x10\x02\x01\x00\x00\x00\x53\x44\xc0\x03\x01\x50\x00",
    b"\x00\x00\x00\x0c\x02\x01\x00\x00\x00\x53\x41\x45",
    b"\x00\x00\x00\x19\x02\x00\x00\x00\x00\x53\x41\xc0\x0c\x01\xa3\x09ANONYMOUS",
    b"\x00\x00\x00\x19\x02\x02\x00\x00\x00\x53\x41\xc0\x0c\x01\xa3\x09ANONYMOUS",
    b"\x00\x00\x00\x19\x01\x01\x00\x00\x00\x53\x41\xc0\x0c\x01\xa3\x09ANONYMOUS",
    b"\x00\x00\x00\x07\x02\x01\x00\x00",
    b"\x00\x00\x40\x01\x02\x01\x00\x00",
];

/// A stream: what stands before the frames, frames, perhaps an octet changed, perhaps the end cut off.
pub fn stream(alloc: Global, chance: &mut Chance) -> Result<Vec<u8>, AllocError> {
    let mut octets = Vec::new(alloc);
    let start = put_all(chance, &mut octets)?;
    if chance.below(3) == 0 {
        change(chance, &mut octets, start);
    }
    if chance.below(2) == 0 {
        let len = chance.below(octets.len() + 1);
        octets.truncate(len);
    }
    Ok(octets)
}

/// Puts what stands before the frames, and frames, and says where these begin.
fn put_all(chance: &mut Chance, octets: &mut Vec<u8>) -> Result<usize, AllocError> {
    put_start(chance, octets)?;
    let start = octets.len();
    for _ in 0..chance.below(12) {
        put_frame(chance, octets)?;
    }
    Ok(start)
}

/// Puts a header, perhaps an exchange, and a header again.
fn put_start(chance: &mut Chance, octets: &mut Vec<u8>) -> Result<(), AllocError> {
    match chance.below(10) {
        0 => octets.extend_from_slice(HTTP),
        1 => octets.extend_from_slice(OTHER_VERSION),
        2..=4 => octets.extend_from_slice(AMQP_HEADER),
        _ => {
            octets.extend_from_slice(SASL_HEADER)?;
            put_init(chance, octets)?;
            match chance.below(6) {
                0 => octets.extend_from_slice(SASL_HEADER),
                1 => octets.extend_from_slice(HTTP),
                _ => octets.extend_from_slice(AMQP_HEADER),
            }
        }
    }
}

/// Puts an init, of which most choose ANONYMOUS, or no init.
fn put_init(chance: &mut Chance, octets: &mut Vec<u8>) -> Result<(), AllocError> {
    match chance.below(8) {
        0 => octets.extend_from_slice(chance.one_of(OTHER_INITS, &[])),
        1 => octets.extend_from_slice(chance.one_of(NO_INITS, &[])),
        _ => octets.extend_from_slice(chance.one_of(ANONYMOUS_INITS, &[])),
    }
}

/// Puts a frame with any octets as its body: an AMQP frame, but for a few of SASL, and no longer than 16384 octets, but
/// for a few of one more.
fn put_frame(chance: &mut Chance, octets: &mut Vec<u8>) -> Result<(), AllocError> {
    let words = 2 + chance.below(3);
    let body = match chance.below(16) {
        0 => 16384 - 4 * words + chance.below(12) / 11,
        1 => chance.below(4096),
        _ => chance.below(40),
    };
    let size = (4 * words + body) as u32;
    octets.extend_from_slice(&size.to_be_bytes())?;
    octets.push(words as u8)?;
    octets.push((chance.below(40) / 39) as u8)?;
    for _ in 6..4 * words + body {
        octets.push(chance.octet())?;
    }
    Ok(())
}

/// Changes an octet of the first header, or one of the frames.
fn change(chance: &mut Chance, octets: &mut [u8], start: usize) {
    let place = if chance.below(4) == 0 {
        chance.below(8)
    } else {
        start.saturating_add(chance.below(64))
    };
    if let Some(octet) = octets.get_mut(place) {
        *octet = chance.octet();
    }
}
