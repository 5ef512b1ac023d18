//! The blocks of a pcapng file.

ghost use Rattle.std.specs.Prelude.{◌≡◌, ◌≤◌, ◌++◌, ◌+◌, length, OnOk, replicate};
ghost use Rattle.std.specs.Int.{w32, to_be_bytes};
ghost use Rattle.capture_packets.specs.Blocks.{packet_block, block_head, block_end, option_head, block_length, padding};
ghost use Rattle.flow_counts.specs.declared.profile.TheConstants.{MAX_FRAME_SIZE};
ghost use Rattle.capture_packets.specs.declared.blocks.TheConstants.{MOST_COMMENT};

use crate::headers::{ip_header_of, tcp_header_of};
use crate::segment::Segment;
use flow_counts::MAX_FRAME_SIZE;
use std::alloc::AllocError;

/// The most octets of a comment.
pub const MOST_COMMENT: usize = 200;

/// The octets of a packet block in front of its packet.
const BLOCK_HEAD: usize = 28;

/// What stands in a packet block beside its packet and comment, without their padding: its type, its length twice, the
/// interface, the time, the two lengths of the packet, the heads of a comment and of the end of the options.
const BLOCK_FRAME: usize = 40;

/// What stands in front of a payload in a packet.
const PACKET_HEAD: usize = 40;

/// So many octets of zero bring octets of this length to a multiple of four.
fn padding_of(len: usize) -> usize
    ensures { result ≡ padding len }
{
    (4 - len % 4) % 4
}

/// How many octets a packet block has.
fn len_of_block(comment: usize, payload: usize) -> u32
    requires short { comment ≤ MOST_COMMENT }
    requires small { payload ≤ MAX_FRAME_SIZE }
    ensures { result ≡ block_length comment payload }
{
    let packet = PACKET_HEAD + payload + padding_of(PACKET_HEAD + payload);
    (BLOCK_FRAME + packet + comment + padding_of(comment)) as u32
}

/// The octets of a packet block in front of its packet.
#[tactic(auto, unfolding(crate::specs::Blocks::block_head))]
fn head_of_block(number: u64, len: u32, packet: u32) -> [u8; BLOCK_HEAD]
    ensures { result ≡ block_head number len packet }
{
    let [l0, l1, l2, l3] = len.to_be_bytes();
    let [t0, t1, t2, t3, t4, t5, t6, t7] = number.to_be_bytes();
    let [p0, p1, p2, p3] = packet.to_be_bytes();
    [
        0, 0, 0, 6, l0, l1, l2, l3, 0, 0, 0, 0, t0, t1, t2, t3, t4, t5, t6, t7, p0, p1, p2, p3, p0,
        p1, p2, p3,
    ]
}

/// Appends octets, and zeros behind them, so that these and `before` octets in front of them are a multiple of four.
fn push_padded(block: &mut Vec<u8>, before: usize, octets: &[u8]) -> Result<(), AllocError>
    requires { before ≤ 40 }
    ensures { OnOk result (block.new.items ≡ block.old.items ++ (octets.now ++ replicate (padding (before + length octets.now)) 0)) }
{
    block.extend_from_slice(octets)?;
    let zeros = [0; 4];
    block.extend_from_slice(&zeros[..padding_of(before + octets.len())])?;
    Ok(())
}

/// Appends the block of a packet: a segment with a payload, at `number` microseconds, with a comment.
///
/// # Errors
///
/// Memory was refused; then only some of it stands.
pub fn push_packet(
    blocks: &mut Vec<u8>,
    number: u64,
    comment: &[u8],
    segment: Segment,
    payload: &[u8],
) -> Result<(), AllocError>
    requires short { length comment.now ≤ MOST_COMMENT }
    requires small { length payload.now ≤ MAX_FRAME_SIZE }
    ensures { OnOk result (blocks.new.items ≡ blocks.old.items ++ packet_block number comment.now segment payload.now) }
{
    let len = len_of_block(comment.len(), payload.len());
    let packet = (PACKET_HEAD + payload.len()) as u32;
    blocks.extend_from_slice(&head_of_block(number, len, packet))?;
    blocks.extend_from_slice(&ip_header_of(segment, payload.len() as u16))?;
    blocks.extend_from_slice(&tcp_header_of(segment, payload))?;
    push_padded(blocks, PACKET_HEAD, payload)?;
    blocks.extend_from_slice(&head_of_comment(comment.len() as u16))?;
    push_padded(blocks, 0, comment)?;
    blocks.extend_from_slice(&end_of_block(len))?;
    Ok(())
}

/// The octets of a comment's option in front of the comment.
fn head_of_comment(len: u16) -> [u8; 4]
    ensures { result ≡ option_head 1 len }
{
    let [l0, l1] = len.to_be_bytes();
    [0, 1, l0, l1]
}

/// The octets behind the options of a block that has so many octets.
fn end_of_block(len: u32) -> [u8; 8]
    ensures { result ≡ block_end len }
{
    let [l0, l1, l2, l3] = len.to_be_bytes();
    [0, 0, 0, 0, l0, l1, l2, l3]
}
