//! A record of a capture, with what the records before it say of it.

use crate::fault::Fault;
use crate::frame::Frame;
use crate::session::Session;
use amqp_perf::{Role, Transfer};
use pairing_cert::Note;

/// A link, named by the record of its Out attach, whose role it has: a receiver's is a producer's link, a sender's a
/// consumer's (part 2, section 2.6).
#[derive(Clone, Copy)]
pub struct Link<'a> {
    pub number: u64,
    pub session: Session,
    pub address: &'a [u8],
    pub handle: u32,
    /// initial-delivery-count of the Out attach, 0 where it has none.
    pub our_first_count: u32,
    /// initial-delivery-count of the client's attach that it answers, 0 where that has none.
    pub their_first_count: u32,
    pub role: Role,
    pub is_pre_settled: bool,
}

/// A delivery from a client, named by the record of its first transfer, whose id and message-format it has (part 2,
/// section 2.6.12).
#[derive(Clone, Copy)]
pub struct Incoming<'a> {
    pub number: u64,
    pub link: Link<'a>,
    pub id: Option<u32>,
    pub format: u32,
}

/// A delivery to a client, named by the record of its first transfer, whose id, settled flag and note it has.
#[derive(Clone, Copy)]
pub struct Outgoing<'a> {
    pub number: u64,
    pub link: Link<'a>,
    pub note: Note,
    pub id: Option<u32>,
    pub is_settled: bool,
}

/// What happened.
#[derive(Clone, Copy)]
pub enum Moment<'a> {
    /// The client's AMQP header was accepted.
    Opened,
    /// The client sent these octets.
    In(Frame<'a>),
    /// The router wrote these octets.
    Out(Frame<'a>),
    /// The device ended or failed.
    Lost,
    /// The client's octets stopped being frames.
    Broken,
}

/// A record in its place. Addresses are lent by whoever tells of the records before it, what happened by whoever read the record,
/// and the octets of its frame by the record.
#[derive(Clone, Copy)]
pub struct Event<'a, 'r, 'm> {
    /// Its place in the capture, from 0.
    pub number: u64,
    /// What happened.
    pub moment: &'r Moment<'m>,
    /// The live session on which a frame stands; an Out begin's own.
    pub session: Option<Session>,
    /// The live link whose handle a flow, transfer or detach names; an Out attach's own.
    pub link: Option<Link<'a>>,
    /// The delivery from a client that an In transfer begins or goes on with, where it is heard and has no fault.
    pub incoming: Option<Incoming<'a>>,
    /// The delivery to a client that an Out transfer begins or goes on with.
    pub outgoing: Option<Outgoing<'a>>,
    /// The number of the incoming delivery whose outcome an Out disposition of role receiver tells.
    pub told: Option<u64>,
    /// The number of the outgoing delivery that an Out disposition of role sender settles.
    pub settled: Option<u64>,
    /// What the router certifies of it.
    pub note: Note,
    /// That of the record.
    pub connection: u32,
    /// An In frame that is not passed over.
    pub is_heard: bool,
    /// The fault of a heard frame.
    pub fault: Option<Fault>,
}

impl<'a> Incoming<'a> {
    ghost use Rattle.std.specs.Prelude.{◌≡◌};
    ghost use Rattle.amqp_perf.specs.View.{transfer_fields};
    ghost use Rattle.trace_events.specs.History.{new_incoming};
    ghost use Rattle.trace_events.specs.View.{incoming_view, link_view};

    /// The delivery that a transfer, in this record, begins.
    pub fn new(number: u64, transfer: &Transfer, link: Link<'a>) -> Incoming<'a>
        ensures { incoming_view result ≡ new_incoming number (transfer_fields transfer.now) (link_view link.entry) }
    {
        Incoming {
            number,
            link,
            id: transfer.delivery_id,
            format: transfer.message_format.unwrap_or(0),
        }
    }
}

impl<'a> Outgoing<'a> {
    ghost use Rattle.std.specs.Prelude.{◌≡◌};
    ghost use Rattle.amqp_perf.specs.View.{transfer_fields};
    ghost use Rattle.trace_events.specs.History.{new_outgoing};
    ghost use Rattle.trace_events.specs.View.{outgoing_view, link_view};

    /// The delivery that a transfer, in this record, begins.
    pub fn new(number: u64, note: Note, transfer: &Transfer, link: Link<'a>) -> Outgoing<'a>
        ensures { outgoing_view result ≡ new_outgoing number note (transfer_fields transfer.now) (link_view link.entry) }
    {
        Outgoing {
            number,
            link,
            id: transfer.delivery_id,
            is_settled: transfer.settled.unwrap_or(false),
            note,
        }
    }
}
