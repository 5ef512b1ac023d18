//! What a stream is, read at once.

use conn_engine::EngineFault;
use std::alloc::{AllocError, Global};
use std::str;

pub const AMQP_HEADER: &[u8] = b"AMQP\x00\x01\x00\x00";

pub const SASL_HEADER: &[u8] = b"AMQP\x03\x01\x00\x00";

/// The server's mechanisms, and the outcomes of an exchange.
pub const MECHANISMS: &[u8] =
    b"\x00\x00\x00\x1c\x02\x01\x00\x00\x00\x53\x40\xc0\x0f\x01\xe0\x0c\x01\xa3\x09ANONYMOUS";

pub const WELCOME: &[u8] = b"\x00\x00\x00\x10\x02\x01\x00\x00\x00\x53\x44\xc0\x03\x01\x50\x00";

pub const REFUSAL: &[u8] = b"\x00\x00\x00\x10\x02\x01\x00\x00\x00\x53\x44\xc0\x03\x01\x50\x01";

/// The most octets of a frame.
const LARGEST: usize = 16384;

/// What describes an init: its code, short and long, and its name, short and long.
const INITS: [&[u8]; 4] = [
    b"\x00\x53\x41",
    b"\x00\x80\x00\x00\x00\x00\x00\x00\x00\x41",
    b"\x00\xa3\x13amqp:sasl-init:list",
    b"\x00\xb3\x00\x00\x00\x13amqp:sasl-init:list",
];

/// The codes of a symbol, of binary octets and of a string, each for short and for long ones.
const SYMBOL: [u8; 2] = [0xa3, 0xb3];

const BINARY: [u8; 2] = [0xa0, 0xb0];

const STRING: [u8; 2] = [0xa1, 0xb1];

/// What a client's octets are.
#[derive(Debug, Drop)]
pub struct Reading<'a> {
    /// What is answered before the frames.
    pub answers: Vec<u8>,
    /// Whether the AMQP header was accepted.
    pub is_open: bool,
    /// The frames behind it.
    pub frames: Vec<&'a [u8]>,
    /// Why they do not go on, if they do not.
    pub fault: Option<EngineFault>,
}

/// What stands at the front of octets where a frame is due.
#[derive(Clone, Copy)]
enum Front<'a> {
    Less,
    NoFrame,
    Frame(Frame<'a>),
}

/// A frame, and the octets behind it.
#[derive(Clone, Copy)]
struct Frame<'a> {
    kind: u8,
    octets: &'a [u8],
    body: &'a [u8],
    behind: &'a [u8],
}

/// Reads a client's octets from the first on.
pub fn read<'a>(alloc: Global, stream: &'a [u8]) -> Result<Reading<'a>, AllocError> {
    let mut reading = Reading {
        answers: Vec::new(alloc),
        is_open: false,
        frames: Vec::new(alloc),
        fault: None,
    };
    let Some((header, rest)) = stream.split_at_checked(8) else {
        return Ok(reading);
    };
    let frames = if header == SASL_HEADER {
        reading.answers.extend_from_slice(SASL_HEADER)?;
        reading.answers.extend_from_slice(MECHANISMS)?;
        read_exchange(&mut reading, rest)?
    } else {
        read_header(&mut reading, header, rest)?
    };
    if let Some(frames) = frames {
        read_frames(&mut reading, frames)?;
    }
    Ok(reading)
}

/// Reads an exchange and the header behind it, and answers the octets behind these.
fn read_exchange<'a>(
    reading: &mut Reading<'a>,
    octets: &'a [u8],
) -> Result<Option<&'a [u8]>, AllocError> {
    let frame = match read_front(octets) {
        Front::Less => return Ok(None),
        Front::Frame(frame) if frame.kind == 1 => frame,
        Front::Frame(_) | Front::NoFrame => {
            reading.fault = Some(EngineFault::Frame);
            return Ok(None);
        }
    };
    match chosen(frame.body) {
        Some(b"ANONYMOUS") => {
            reading.answers.extend_from_slice(WELCOME)?;
            match frame.behind.split_at_checked(8) {
                Some((header, rest)) => read_header(reading, header, rest),
                None => Ok(None),
            }
        }
        Some(_) => {
            reading.answers.extend_from_slice(REFUSAL)?;
            reading.fault = Some(EngineFault::SaslRefused);
            Ok(None)
        }
        None => {
            reading.fault = Some(EngineFault::Frame);
            Ok(None)
        }
    }
}

/// Reads a header that is to be that of AMQP, and answers the octets behind it.
fn read_header<'a>(
    reading: &mut Reading<'a>,
    header: &[u8],
    rest: &'a [u8],
) -> Result<Option<&'a [u8]>, AllocError> {
    reading.answers.extend_from_slice(AMQP_HEADER)?;
    if header == AMQP_HEADER {
        reading.is_open = true;
        return Ok(Some(rest));
    }
    reading.fault = Some(EngineFault::HeaderRefused);
    Ok(None)
}

/// Reads frames up to octets that are none.
fn read_frames<'a>(reading: &mut Reading<'a>, octets: &'a [u8]) -> Result<(), AllocError> {
    let mut rest = octets;
    for _ in 0..octets.len() {
        match read_front(rest) {
            Front::Less => return Ok(()),
            Front::Frame(frame) if frame.kind == 0 => {
                reading.frames.push(frame.octets)?;
                rest = frame.behind;
            }
            Front::Frame(_) | Front::NoFrame => {
                reading.fault = Some(EngineFault::Frame);
                return Ok(());
            }
        }
    }
    Ok(())
}

/// What stands at the front of octets where a frame is due.
fn read_front(octets: &[u8]) -> Front<'_> {
    let [a, b, c, d, rest @ ..] = octets else {
        return Front::Less;
    };
    let size = u32::from_be_bytes([*a, *b, *c, *d]) as usize;
    if size < 8 || size > LARGEST {
        return Front::NoFrame;
    }
    let [words, kind, _, _, ..] = rest else {
        return Front::Less;
    };
    let start = 4 * usize::from(*words);
    if start < 8 || start > size || *kind > 1 {
        return Front::NoFrame;
    }
    if octets.len() < size {
        return Front::Less;
    }
    let (whole, behind) = octets.split_at(size);
    Front::Frame(Frame {
        kind: *kind,
        octets: whole,
        body: &whole[start..],
        behind,
    })
}

/// The mechanism that the body of an init chooses, or nothing where it is none.
fn chosen(body: &[u8]) -> Option<&[u8]> {
    let (count, items) = list_in(list_of_init(body)?)?;
    if count == 0 || count > 3 {
        return None;
    }
    let (mechanism, rest) = text_in(items, SYMBOL)?;
    if !mechanism.is_ascii() {
        return None;
    }
    let mut rest = rest;
    if count > 1 {
        rest = field_in(rest, BINARY)?.1;
    }
    if count > 2 {
        let (host, behind) = field_in(rest, STRING)?;
        str::from_utf8(host).ok()?;
        rest = behind;
    }
    rest.is_empty().then_some(mechanism)
}

/// The octets behind what describes an init.
fn list_of_init(body: &[u8]) -> Option<&[u8]> {
    INITS.iter().find_map(|front| body.strip_prefix(front))
}

/// How many items the list at the front of these octets has, and their octets.
fn list_in(octets: &[u8]) -> Option<(usize, &[u8])> {
    let (code, rest) = octets.split_first()?;
    match *code {
        0x45 => Some((0, &[])),
        0xc0 => {
            let (size, rest) = rest.split_first()?;
            let (list, _) = rest.split_at_checked(usize::from(*size))?;
            let (count, items) = list.split_first()?;
            Some((usize::from(*count), items))
        }
        0xd0 => {
            let (size, rest) = number_in(rest)?;
            let (list, _) = rest.split_at_checked(size)?;
            number_in(list)
        }
        _ => None,
    }
}

/// The text of these codes at the front of octets, and what stands behind it.
fn text_in(octets: &[u8], codes: [u8; 2]) -> Option<(&[u8], &[u8])> {
    let [short, long] = codes;
    let (code, rest) = octets.split_first()?;
    let (len, rest) = if *code == short {
        let (len, rest) = rest.split_first()?;
        (usize::from(*len), rest)
    } else if *code == long {
        number_in(rest)?
    } else {
        return None;
    };
    rest.split_at_checked(len)
}

/// The text of these codes at the front of octets, or nothing where a null stands there, and what stands behind it.
fn field_in(octets: &[u8], codes: [u8; 2]) -> Option<(&[u8], &[u8])> {
    match octets {
        [0x40, rest @ ..] => Some((&[], rest)),
        _ => text_in(octets, codes),
    }
}

/// The number in the first four octets, and the others.
fn number_in(octets: &[u8]) -> Option<(usize, &[u8])> {
    let [a, b, c, d, rest @ ..] = octets else {
        return None;
    };
    Some((u32::from_be_bytes([*a, *b, *c, *d]) as usize, rest))
}
