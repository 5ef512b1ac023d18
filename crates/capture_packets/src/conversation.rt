//! Which segments a record becomes, by the sequence numbers that both sides have come to.
//!
//! ```text
//! from    what        sequence  acknowledged
//! client  SYN         0         0            \
//! router  SYN, ACK    0         1             |
//! client  ACK         1         1             | in front of the first record of a connection
//! client  AMQP header 1         1             |
//! router  AMQP header 1         9            /
//! client  frame       9         9              records, each one segment
//! ```

ghost use Rattle.std.specs.Prelude.{◌≡◌, ◌++◌, ◌≤◌, length, OnOk};
ghost use Rattle.capture_form.specs.Text.{frame_of};
ghost use Rattle.capture_packets.specs.Conversation as spec;
ghost use Rattle.capture_packets.specs.Conversation.{opening_blocks, own_segment, record_blocks};
ghost use Rattle.capture_packets.specs.Comment.{comment_text};
ghost use Rattle.capture_packets.specs.declared.blocks.TheConstants.{MOST_COMMENT};
ghost use Rattle.flow_counts.specs.declared.profile.TheConstants.{MAX_FRAME_SIZE};

use crate::blocks::{MOST_COMMENT, push_packet};
use crate::segment::Segment;
use capture_form::{Record, What};
use flow_counts::MAX_FRAME_SIZE;
use std::alloc::AllocError;

/// The next sequence number of each side of a connection.
#[derive(Clone, Copy, Debug, PartialEq, Eq)]
pub struct Conversation {
    pub client: u32,
    pub router: u32,
}

/// The header of AMQP 1.0.
const AMQP_HEADER: [u8; 8] = [0x41, 0x4D, 0x51, 0x50, 0, 1, 0, 0];

/// Behind the SYN and the AMQP header of both sides.
pub const FRESH: Conversation = Conversation {
    client: 9,
    router: 9,
};

const RST: u8 = 4;

const SYN: u8 = 2;

const PSH: u8 = 8;

const ACK: u8 = 16;

fn from_client(connection: u32, flags: u8, sequence: u32, acknowledged: u32) -> Segment
    ensures { result ≡ spec.from_client connection flags sequence acknowledged }
{
    Segment {
        connection,
        is_from_client: true,
        flags,
        sequence,
        acknowledged,
    }
}

fn from_router(connection: u32, flags: u8, sequence: u32, acknowledged: u32) -> Segment
    ensures { result ≡ spec.from_router connection flags sequence acknowledged }
{
    Segment {
        connection,
        is_from_client: false,
        flags,
        sequence,
        acknowledged,
    }
}

/// The octets of the frame, lent: none where there is no frame.
fn octets_of(what: &What) -> &[u8]
    ensures value { result.now ≡ frame_of what.now }
    ensures small { length result.now ≤ MAX_FRAME_SIZE }
{
    match what {
        What::In(frame) | What::Out(frame) => frame.octets(),
        What::Opened | What::Lost | What::Broken => &[],
    }
}

/// Appends the handshake, and the AMQP headers of both sides.
#[tactic(auto, unfolding(crate::specs::Conversation::opening_blocks))]
fn push_opening(
    blocks: &mut Vec<u8>,
    number: u64,
    comment: &[u8],
    connection: u32,
) -> Result<(), AllocError>
    requires { length comment.now ≤ MOST_COMMENT }
    ensures { OnOk result (blocks.new.items ≡ blocks.old.items ++ opening_blocks number comment.now connection) }
{
    let syn = from_client(connection, SYN, 0, 0);
    push_packet(blocks, number, comment, syn, &[])?;
    let syn_ack = from_router(connection, SYN | ACK, 0, 1);
    push_packet(blocks, number, comment, syn_ack, &[])?;
    let ack = from_client(connection, ACK, 1, 1);
    push_packet(blocks, number, comment, ack, &[])?;
    let asked = from_client(connection, PSH | ACK, 1, 1);
    push_packet(blocks, number, comment, asked, &AMQP_HEADER)?;
    let answered = from_router(connection, PSH | ACK, 1, 9);
    push_packet(blocks, number, comment, answered, &AMQP_HEADER)?;
    Ok(())
}

impl Conversation {
    /// The segment of what happened on the connection.
    fn segment_of(self, connection: u32, what: &What) -> Segment
        ensures { result ≡ own_segment self connection what.now }
    {
        let (client, router) = (self.client, self.router);
        match what {
            What::Opened | What::Broken => from_client(connection, ACK, client, router),
            What::In(_) => from_client(connection, PSH | ACK, client, router),
            What::Out(_) => from_router(connection, PSH | ACK, router, client),
            What::Lost => from_client(connection, RST | ACK, client, router),
        }
    }

    /// What the sequence numbers have come to behind what happened.
    pub fn behind(self, what: &What) -> Conversation
        ensures { result ≡ spec.behind self what.now }
    {
        match what {
            What::In(frame) => Conversation {
                client: self.client.wrapping_add(frame.octets().len() as u32),
                router: self.router,
            },
            What::Out(frame) => Conversation {
                client: self.client,
                router: self.router.wrapping_add(frame.octets().len() as u32),
            },
            What::Opened | What::Lost | What::Broken => self,
        }
    }
}

/// Appends the blocks of a record of a connection that has come so far, or that has no record in front of this one.
///
/// # Errors
///
/// Memory was refused; then only some of it stands.
pub fn push_record(
    blocks: &mut Vec<u8>,
    comment: &[u8],
    talk: Option<Conversation>,
    number: u64,
    entry: &Record,
) -> Result<(), AllocError>
    requires short { length comment.now ≤ MOST_COMMENT }
    requires told { comment.now ≡ comment_text number entry.now }
    ensures { OnOk result (blocks.new.items ≡ blocks.old.items ++ record_blocks talk number entry.now) }
{
    let frame = octets_of(&entry.what);
    let connection = entry.connection;
    match talk {
        Some(talk) => {
            let segment = talk.segment_of(connection, &entry.what);
            push_packet(blocks, number, comment, segment, frame)?;
            Ok(())
        }
        None => {
            push_opening(blocks, number, comment, connection)?;
            let segment = FRESH.segment_of(connection, &entry.what);
            push_packet(blocks, number, comment, segment, frame)?;
            Ok(())
        }
    }
}
