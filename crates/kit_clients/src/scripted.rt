//! Two clients over loopback, whose octets were worked out: a producer that sends a message to the address `q`,
//! and a consumer that takes it. Served by a router over one core, their exchange makes 26 records, with one delivery and one
//! outcome.

use crate::reading::AMQP_HEADER;
use std::alloc::{AllocError, Global};
use std::io::{Read, Write};
use std::net::{Ipv4Addr, Net, SocketAddr, TcpStream};
use std::thread;

/// How often a client tries to connect.
const TRIES: u32 = 100_000;

/// What a client does next.
#[derive(Clone, Copy, Debug)]
pub enum ScriptStep {
    Says(&'static [u8]),
    Hears(&'static [u8]),
}

const ROUTER_OPEN: &[u8] =
    b"\x00\x00\x00\x24\x02\x00\x00\x00\x00\x53\x10\xc0\x17\x04\xa1\x0bamqp-router\x40\x70\x00\x00\x40\x00\x60\x00\xff";

const BEGIN: &[u8] =
    b"\x00\x00\x00\x14\x02\x00\x00\x00\x00\x53\x11\xc0\x07\x04\x40\x43\x52\x64\x52\x64";

const ROUTER_BEGIN: &[u8] =
    b"\x00\x00\x00\x21\x02\x00\x00\x00\x00\x53\x11\xc0\x14\x05\x60\x00\x00\x43\x70\x00\x00\x08\x00\x70\x7f\xff\xff\xff\x70\x00\x00\x03\xff";

const ACCEPTED: &[u8] =
    b"\x00\x00\x00\x16\x02\x00\x00\x00\x00\x53\x15\xc0\x09\x05\x41\x43\x40\x41\x00\x53\x24\x45";

const CLOSE: &[u8] = b"\x00\x00\x00\x0c\x02\x00\x00\x00\x00\x53\x18\x45";

/// Sends the message `hi` to the address `q`, and hears that it was accepted.
pub const LOOPBACK_PRODUCER: &[ScriptStep] = &[
    ScriptStep::Says(AMQP_HEADER),
    ScriptStep::Hears(AMQP_HEADER),
    ScriptStep::Says(b"\x00\x00\x00\x11\x02\x00\x00\x00\x00\x53\x10\xc0\x04\x01\xa1\x01p"),
    ScriptStep::Hears(ROUTER_OPEN),
    ScriptStep::Says(BEGIN),
    ScriptStep::Hears(ROUTER_BEGIN),
    ScriptStep::Says(
        b"\x00\x00\x00\x22\x02\x00\x00\x00\x00\x53\x12\xc0\x15\x0a\xa1\x01s\x43\x42\x40\x40\x40\x00\x53\x29\xc0\x04\x01\xa1\x01q\x40\x40\x43",
    ),
    ScriptStep::Hears(
        b"\x00\x00\x00\x30\x02\x00\x00\x00\x00\x53\x12\xc0\x23\x0b\xa1\x01s\x43\x41\x50\x02\x50\x00\x00\x53\x28\x45\x00\x53\x29\xc0\x04\x01\xa1\x01q\x40\x40\x40\x80\x00\x00\x00\x00\x01\x00\x00\x00",
    ),
    ScriptStep::Hears(
        b"\x00\x00\x00\x1e\x02\x00\x00\x00\x00\x53\x13\xc0\x11\x07\x43\x70\x00\x00\x08\x00\x43\x70\x7f\xff\xff\xff\x43\x43\x52\xfa",
    ),
    ScriptStep::Says(
        b"\x00\x00\x00\x1c\x02\x00\x00\x00\x00\x53\x14\xc0\x08\x05\x43\x43\xa0\x011\x43\x42\x00\x53\x77\xa1\x02hi",
    ),
    ScriptStep::Hears(ACCEPTED),
    ScriptStep::Says(CLOSE),
    ScriptStep::Hears(CLOSE),
];

/// Gives one credit at the address `q`, and accepts what comes.
pub const LOOPBACK_CONSUMER: &[ScriptStep] = &[
    ScriptStep::Says(AMQP_HEADER),
    ScriptStep::Hears(AMQP_HEADER),
    ScriptStep::Says(b"\x00\x00\x00\x11\x02\x00\x00\x00\x00\x53\x10\xc0\x04\x01\xa1\x01c"),
    ScriptStep::Hears(ROUTER_OPEN),
    ScriptStep::Says(BEGIN),
    ScriptStep::Hears(ROUTER_BEGIN),
    ScriptStep::Says(
        b"\x00\x00\x00\x1e\x02\x00\x00\x00\x00\x53\x12\xc0\x11\x06\xa1\x01r\x43\x41\x40\x40\x00\x53\x28\xc0\x04\x01\xa1\x01q",
    ),
    ScriptStep::Hears(
        b"\x00\x00\x00\x27\x02\x00\x00\x00\x00\x53\x12\xc0\x1a\x0a\xa1\x01r\x43\x42\x50\x02\x50\x00\x00\x53\x28\xc0\x04\x01\xa1\x01q\x00\x53\x29\x45\x40\x40\x43",
    ),
    ScriptStep::Says(
        b"\x00\x00\x00\x18\x02\x00\x00\x00\x00\x53\x13\xc0\x0b\x07\x43\x52\x64\x43\x52\x64\x43\x43\x52\x01",
    ),
    ScriptStep::Hears(
        b"\x00\x00\x00\x20\x02\x00\x00\x00\x00\x53\x14\xc0\x0c\x06\x43\x43\xa0\x04\x00\x00\x00\x00\x43\x42\x42\x00\x53\x77\xa1\x02hi",
    ),
    ScriptStep::Says(ACCEPTED),
    ScriptStep::Says(CLOSE),
    ScriptStep::Hears(CLOSE),
];

/// Connects to this port of the loopback, and does these steps. False where it can not connect, or hears something else.
pub fn talks<R: Net<Stream = TcpStream>>(rt: &R, port: u16, steps: &[ScriptStep]) -> bool {
    let addr = SocketAddr::from((Ipv4Addr::LOCALHOST, port));
    for _ in 0..TRIES {
        if let Ok(mut stream) = TcpStream::connect(rt, addr) {
            return steps.iter().all(|step| is_done(&mut stream, step));
        }
        thread::yield_now();
    }
    false
}

fn is_done(stream: &mut TcpStream, step: &ScriptStep) -> bool {
    match step {
        ScriptStep::Says(octets) => stream.write_all(octets).is_ok(),
        ScriptStep::Hears(octets) => {
            let mut heard = [0u8; 64];
            match heard.get_mut(..octets.len()) {
                Some(heard) => stream.read_exact(heard).is_ok() && *heard == **octets,
                None => false,
            }
        }
    }
}

/// All octets that a client hears in these steps.
///
/// # Errors
///
/// Where memory is refused.
pub fn heard(alloc: Global, steps: &[ScriptStep]) -> Result<Vec<u8>, AllocError> {
    let mut heard = Vec::new(alloc);
    for step in steps {
        if let ScriptStep::Hears(octets) = step {
            heard.extend_from_slice(octets)?;
        }
    }
    Ok(heard)
}
