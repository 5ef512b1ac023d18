//! Short talks of a client with a router, whose octets were worked out.

ghost use Rattle.std.specs.Prelude.{◌<◌};

use crate::cores::core_without_rules;
use crate::exchanged::device::Device;
use conn_engine::EngineFault;
use kit_clients::{AMQP_HEADER, MECHANISMS, REFUSAL, SASL_HEADER, WELCOME};
use route_core::Core;
use std::alloc::{AllocError, Global};
use std::cell::RefCell;

/// A talk.
pub struct Talk {
    pub name: &'static str,
    /// What the client sends.
    says: &'static [&'static [u8]],
    /// What the engine answers to that.
    answer: Result<(), EngineFault>,
    /// What the client takes.
    takes: &'static [&'static [u8]],
    /// How many records the core has when the client has left.
    records: usize,
}

/// The init that chooses ANONYMOUS, and one that chooses PLAIN.
const ANONYMOUS: &[u8] =
    b"\x00\x00\x00\x19\x02\x01\x00\x00\x00\x53\x41\xc0\x0c\x01\xa3\x09ANONYMOUS";

const PLAIN: &[u8] = b"\x00\x00\x00\x15\x02\x01\x00\x00\x00\x53\x41\xc0\x08\x01\xa3\x05PLAIN";

/// The router's open.
const ROUTER_OPEN: &[u8] =
    b"\x00\x00\x00\x24\x02\x00\x00\x00\x00\x53\x10\xc0\x17\x04\xa1\x0bamqp-router\x40\x70\x00\x00\x40\x00\x60\x00\xff";

/// The router's close where octets are no frame.
const FRAMING_ERROR: &[u8] =
    b"\x00\x00\x00\x33\x02\x00\x00\x00\x00\x53\x18\xc0\x26\x01\x00\x53\x1d\xc0\x20\x01\xa3\x1damqp:connection:framing-error";

pub const TALKS: &[Talk] = &[
    Talk {
        name: "another protocol",
        says: &[b"HTTP/1.1"],
        answer: Err(EngineFault::HeaderRefused),
        takes: &[AMQP_HEADER],
        records: 0,
    },
    Talk {
        name: "a SASL exchange",
        says: &[SASL_HEADER, ANONYMOUS],
        answer: Ok(()),
        takes: &[SASL_HEADER, MECHANISMS, WELCOME],
        records: 0,
    },
    Talk {
        name: "another mechanism",
        says: &[SASL_HEADER, PLAIN],
        answer: Err(EngineFault::SaslRefused),
        takes: &[SASL_HEADER, MECHANISMS, REFUSAL],
        records: 0,
    },
    // It is opened, breaks, and is lost in the end; the router opens and closes.
    Talk {
        name: "no frame",
        says: &[AMQP_HEADER, b"\x00\x00\x00\x07"],
        answer: Err(EngineFault::Frame),
        takes: &[AMQP_HEADER, ROUTER_OPEN, FRAMING_ERROR],
        records: 5,
    },
];

/// Whether a talk goes as it was worked out, where all octets come and go in pieces of this length.
///
/// # Errors
///
/// Where memory is refused.
pub fn goes_right(alloc: Global, talk: &Talk, most: usize) -> Result<bool, AllocError>
    requires { 0 < most }
{
    let (is_right, records) = hold(alloc, core_without_rules(alloc)?, talk, most);
    Ok(is_right? && records == talk.records)
}

/// Holds a talk over a core, and answers whether the octets are those that were worked out, and how many records the core has
/// then.
fn hold(alloc: Global, core: Core, talk: &Talk, most: usize) -> (Result<bool, AllocError>, usize)
    requires { 0 < most }
{
    let core = RefCell::new(core);
    let is_right = is_talked(alloc, &core, talk, most);
    let core = core.into_inner();
    (is_right, core.capture().records().len())
}

/// Lets a client say all, take all, and leave.
fn is_talked(
    alloc: Global,
    core: &RefCell<Core>,
    talk: &Talk,
    most: usize,
) -> Result<bool, AllocError>
    requires { 0 < most }
{
    let mut device = Device::new(alloc, 0, core);
    is_said(&mut device, talk, most)
}

/// The same by this device.
///
/// It borrows the device: owned here, its drop would be proved on each way out.
fn is_said(device: &mut Device<'_>, talk: &Talk, most: usize) -> Result<bool, AllocError>
    requires { 0 < most }
{
    let mut answer = Ok(());
    for text in talk.says {
        answer = answer.and(device.feed_pieces(text, most));
    }
    device.engine.refill()?;
    device.take_pieces(most)?;
    let is_left = device.engine.gone().is_ok();
    Ok(is_left && answer == talk.answer && device.gave(talk.takes))
}
