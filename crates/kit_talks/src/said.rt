//! What clients say: the bodies of their frames.

use kit_clients::Fields;
use std::alloc::{AllocError, Global};

/// A field of a list, as clients write it.
#[derive(Clone, Copy)]
pub(crate) enum Field<'a> {
    /// One that is absent.
    Absent,
    Uint(u32),
    Ubyte(u8),
    Flag(bool),
    /// Octets behind a code and their number: a string (0xB1), a binary (0xB0) or a symbol (0xB3).
    Sized(u8, &'a [u8]),
    /// The octets of any field, well-formed or not.
    Octets(&'a [u8]),
}

impl<'a> Field<'a> {
    /// A uint, or nothing.
    pub(crate) fn maybe(number: Option<u32>) -> Field<'a> {
        match number {
            Some(number) => Field::Uint(number),
            None => Field::Absent,
        }
    }

    /// A ubyte, or nothing.
    pub(crate) fn octet(octet: Option<u8>) -> Field<'a> {
        match octet {
            Some(octet) => Field::Ubyte(octet),
            None => Field::Absent,
        }
    }

    /// A boolean, where it holds.
    pub(crate) fn mark(holds: bool) -> Field<'a> {
        if holds {
            Field::Flag(true)
        } else {
            Field::Absent
        }
    }

    /// Puts it behind the others.
    fn put(self, fields: &mut Fields) -> Result<(), AllocError> {
        match self {
            Field::Absent => fields.skip(1),
            Field::Uint(number) => fields.number(number),
            Field::Ubyte(octet) => fields.octet(Some(octet)),
            Field::Flag(holds) => fields.flag(holds),
            Field::Sized(code, octets) => fields.sized(code, octets),
            Field::Octets(octets) => fields.put(octets),
        }
    }
}

/// These fields as a list that a code describes.
///
/// A body is made here alone, of fields that are values: where one puts its fields itself, the drop of what it has put so far is
/// proved at each of them.
pub(crate) fn list(alloc: Global, code: u8, said: &[Field<'_>]) -> Result<Vec<u8>, AllocError> {
    let mut fields = Fields::new(alloc);
    put_all(&mut fields, said)?;
    fields.described(code)
}

/// Puts fields one behind the other.
fn put_all(fields: &mut Fields, said: &[Field<'_>]) -> Result<(), AllocError> {
    for field in said {
        field.put(fields)?;
    }
    Ok(())
}

/// An open of this limit of octets in a frame, where there is one.
pub(crate) fn open(alloc: Global, limit: Option<u32>) -> Result<Vec<u8>, AllocError> {
    let name = Field::Sized(0xB1, b"client");
    list(alloc, 0x10, &[name, Field::Absent, Field::maybe(limit)])
}

/// A begin: the number of its first transfer, its window, and a remote channel, where there are to be some.
pub(crate) fn begin(
    alloc: Global,
    first: Option<u32>,
    window: Option<u32>,
    remote: Option<u16>,
) -> Result<Vec<u8>, AllocError> {
    let [high, low] = remote.unwrap_or(0).to_be_bytes();
    let channel = [0x60, high, low];
    let said = [
        if remote.is_some() {
            Field::Octets(&channel)
        } else {
            Field::Absent
        },
        Field::maybe(first),
        Field::maybe(window),
        Field::Uint(100),
    ];
    list(alloc, 0x11, &said)
}

/// What an attach says.
#[derive(Clone, Copy)]
pub(crate) struct Attaching<'a> {
    pub(crate) name: &'a [u8],
    pub(crate) handle: u32,
    pub(crate) is_receiver: bool,
    pub(crate) sender_mode: Option<u8>,
    pub(crate) receiver_mode: Option<u8>,
    /// The octets of source and target.
    pub(crate) source: &'a [u8],
    pub(crate) target: &'a [u8],
    pub(crate) initial_count: Option<u32>,
}

/// An attach.
pub(crate) fn attach(alloc: Global, said: Attaching<'_>) -> Result<Vec<u8>, AllocError> {
    let said = [
        Field::Sized(0xB1, said.name),
        Field::Uint(said.handle),
        Field::Flag(said.is_receiver),
        Field::octet(said.sender_mode),
        Field::octet(said.receiver_mode),
        Field::Octets(said.source),
        Field::Octets(said.target),
        Field::Absent,
        Field::Absent,
        Field::maybe(said.initial_count),
    ];
    list(alloc, 0x12, &said)
}

/// A source (0x28) or a target (0x29) of an address, made up by the router where it is dynamic.
pub(crate) fn terminus(
    alloc: Global,
    code: u8,
    address: &[u8],
    is_dynamic: bool,
) -> Result<Vec<u8>, AllocError> {
    if is_dynamic {
        list(alloc, code, &DYNAMIC)
    } else {
        list(alloc, code, &[Field::Sized(0xB1, address)])
    }
}

/// The fields of a source or a target that is dynamic, up to the one that says so.
const DYNAMIC: [Field<'static>; 5] = [
    Field::Absent,
    Field::Absent,
    Field::Absent,
    Field::Absent,
    Field::Flag(true),
];

/// What a flow says of a link.
#[derive(Clone, Copy)]
pub(crate) struct Crediting {
    pub(crate) handle: u32,
    pub(crate) count: Option<u32>,
    pub(crate) credit: Option<u32>,
    pub(crate) drains: bool,
}

/// A flow: the next transfer that is awaited, the window from there on, the number of the own next transfer, a link's
/// numbers, and whether an answer is wanted.
pub(crate) fn flow(
    alloc: Global,
    awaited: Option<u32>,
    window: u32,
    next: u32,
    link: Option<Crediting>,
    wants_echo: bool,
) -> Result<Vec<u8>, AllocError> {
    let (handle, count, credit, drains) = match link {
        Some(link) => (Some(link.handle), link.count, link.credit, link.drains),
        None => (None, None, None, false),
    };
    let said = [
        Field::maybe(awaited),
        Field::Uint(window),
        Field::Uint(next),
        Field::Uint(100),
        Field::maybe(handle),
        Field::maybe(count),
        Field::maybe(credit),
        Field::Absent,
        Field::mark(drains),
        Field::mark(wants_echo),
    ];
    list(alloc, 0x13, &said)
}

/// What a transfer says.
#[derive(Clone, Copy)]
pub(crate) struct Sending<'a> {
    pub(crate) handle: u32,
    pub(crate) id: Option<u32>,
    pub(crate) tag: &'a [u8],
    pub(crate) is_settled: bool,
    pub(crate) has_more: bool,
    pub(crate) is_resumed: bool,
    pub(crate) is_aborted: bool,
}

/// A transfer, with a payload of so many octets.
pub(crate) fn transfer(
    alloc: Global,
    said: Sending<'_>,
    payload: usize,
) -> Result<Vec<u8>, AllocError> {
    let said = [
        Field::Uint(said.handle),
        Field::maybe(said.id),
        Field::Sized(0xB0, said.tag),
        Field::Uint(0),
        Field::mark(said.is_settled),
        Field::mark(said.has_more),
        Field::Absent,
        Field::Absent,
        Field::mark(said.is_resumed),
        Field::mark(said.is_aborted),
    ];
    let mut body = list(alloc, 0x14, &said)?;
    put_payload(&mut body, payload)?;
    Ok(body)
}

/// Puts a payload of so many octets.
fn put_payload(body: &mut Vec<u8>, payload: usize) -> Result<(), AllocError> {
    for place in 0..payload {
        body.push((place & 0xFF) as u8)?;
    }
    Ok(())
}

/// A disposition, with the octets of its state, none where there is none.
pub(crate) fn disposition(
    alloc: Global,
    is_receiver: bool,
    first: Option<u32>,
    last: Option<u32>,
    is_settled: bool,
    state: &[u8],
) -> Result<Vec<u8>, AllocError> {
    let said = [
        Field::Flag(is_receiver),
        Field::maybe(first),
        Field::maybe(last),
        Field::mark(is_settled),
        if state.is_empty() {
            Field::Absent
        } else {
            Field::Octets(state)
        },
    ];
    list(alloc, 0x15, &said)
}

/// A detach.
pub(crate) fn detach(
    alloc: Global,
    handle: Option<u32>,
    is_closed: bool,
) -> Result<Vec<u8>, AllocError> {
    let said = [Field::maybe(handle), Field::mark(is_closed)];
    list(alloc, 0x16, &said)
}

/// An end (0x17) or a close (0x18).
pub(crate) fn ending(alloc: Global, code: u8) -> Result<Vec<u8>, AllocError> {
    list(alloc, code, &[])
}

/// A rejection that gives a reason of so many octets.
pub(crate) fn rejection(alloc: Global, length: usize) -> Result<Vec<u8>, AllocError> {
    let reason = repeated(alloc, b'r', length)?;
    rejection_for(alloc, reason.as_slice())
}

/// A rejection that gives this reason.
fn rejection_for(alloc: Global, reason: &[u8]) -> Result<Vec<u8>, AllocError> {
    let said = [
        Field::Sized(0xB3, b"client:refuses"),
        Field::Sized(0xB1, reason),
    ];
    let error = list(alloc, 0x1D, &said)?;
    list(alloc, 0x25, &[Field::Octets(error.as_slice())])
}

/// The same octet, so often.
pub(crate) fn repeated(alloc: Global, octet: u8, times: usize) -> Result<Vec<u8>, AllocError> {
    let mut octets = Vec::new(alloc);
    octets.resize(times, octet)?;
    Ok(octets)
}
