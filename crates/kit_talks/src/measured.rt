//! The frames of clients whose messages are measured, on channel 0: they come in short forms and in place of one another, so
//! that little of the time goes to them.

use crate::said;
use crate::said::Attaching;
use kit_clients::framed;
use std::alloc::{AllocError, Global};

/// How many octets a message has.
const MESSAGE: [u8; 100] = [b'.'; 100];

/// A client's open, and its begin, which takes as many transfers as there may be.
pub const OPEN: &[u8] = &[
    0, 0, 0, 0x11, 2, 0, 0, 0, 0, 0x53, 0x10, 0xC0, 4, 1, 0xA1, 1, b'c',
];

pub const BEGIN: &[u8] = &[
    0, 0, 0, 0x17, 2, 0, 0, 0, 0, 0x53, 0x11, 0xC0, 10, 4, 0x40, 0x43, 0x70, 0x7F, 0xFF, 0xFF,
    0xFF, 0x52, 100,
];

/// A detach that closes the link of handle 0.
pub const DETACH: &[u8] = &[
    0, 0, 0, 0x10, 2, 0, 0, 0, 0, 0x53, 0x16, 0xC0, 3, 2, 0x43, 0x41,
];

/// Puts a transfer of a whole message there, in place of what was there.
pub fn put_transfer(out: &mut Vec<u8>, handle: u32, id: u32) -> Result<(), AllocError> {
    let ([a, b, c, d], [e, f, g, h]) = (handle.to_be_bytes(), id.to_be_bytes());
    out.clear();
    out.extend_from_slice(&[
        0, 0, 0, 127, 2, 0, 0, 0, 0, 0x53, 0x14, 0xC0, 14, 3, 0x70, a, b, c, d, 0x70, e, f, g, h,
        0xA0, 1, b'1',
    ])?;
    out.extend_from_slice(&MESSAGE)
}

/// Puts a disposition there that accepts a delivery and settles it.
pub fn put_accepted(out: &mut Vec<u8>, id: u32) -> Result<(), AllocError> {
    let [a, b, c, d] = id.to_be_bytes();
    out.clear();
    out.extend_from_slice(&[
        0, 0, 0, 26, 2, 0, 0, 0, 0, 0x53, 0x15, 0xC0, 13, 5, 0x41, 0x70, a, b, c, d, 0x40, 0x41,
        0x00, 0x53, 0x24, 0x45,
    ])
}

/// Puts a disposition there that accepts all deliveries from the first id to the last, and settles them.
pub fn put_all_accepted(out: &mut Vec<u8>, first: u32, last: u32) -> Result<(), AllocError> {
    let ([a, b, c, d], [e, f, g, h]) = (first.to_be_bytes(), last.to_be_bytes());
    out.clear();
    out.extend_from_slice(&[
        0, 0, 0, 30, 2, 0, 0, 0, 0, 0x53, 0x15, 0xC0, 17, 5, 0x41, 0x70, a, b, c, d, 0x70, e, f, g,
        h, 0x41, 0x00, 0x53, 0x24, 0x45,
    ])
}

/// A flow that gives a link as much credit as there may be.
pub fn crediting(alloc: Global, handle: u32) -> Result<Vec<u8>, AllocError> {
    let [a, b, c, d] = handle.to_be_bytes();
    let flow = [
        0, 0, 0, 34, 2, 0, 0, 0, 0, 0x53, 0x13, 0xC0, 21, 7, 0x43, 0x70, 0x7F, 0xFF, 0xFF, 0xFF,
        0x43, 0x52, 100, 0x70, a, b, c, d, 0x43, 0x70, 0x7F, 0xFF, 0xFF, 0xFF,
    ];
    flow.to_vec(alloc)
}

/// A consumer's attach to an address, or a producer's.
pub fn attaching(
    alloc: Global,
    handle: u32,
    is_consumer: bool,
    address: &str,
) -> Result<Vec<u8>, AllocError> {
    attaching_in(alloc, handle, is_consumer, None, address)
}

/// A consumer's attach to an address, which asks for settled deliveries.
pub fn attaching_settled(alloc: Global, handle: u32, address: &str) -> Result<Vec<u8>, AllocError> {
    attaching_in(alloc, handle, true, Some(1), address)
}

/// An attach to an address that asks for this sender settle mode.
fn attaching_in(
    alloc: Global,
    handle: u32,
    is_consumer: bool,
    sender_mode: Option<u8>,
    address: &str,
) -> Result<Vec<u8>, AllocError> {
    let code = if is_consumer { 0x28 } else { 0x29 };
    let terminus = said::terminus(alloc, code, address.as_bytes(), false)?;
    let (source, target) = if is_consumer {
        (terminus.as_slice(), [0x40].as_slice())
    } else {
        ([0x40].as_slice(), terminus.as_slice())
    };
    let said = Attaching {
        name: b"l",
        handle,
        is_receiver: is_consumer,
        sender_mode,
        receiver_mode: None,
        source,
        target,
        initial_count: Some(0),
    };
    let body = said::attach(alloc, said)?;
    framed(alloc, 0, body.as_slice())
}
