//! The octets of a packet in front of its payload: an IPv4 header and a TCP header.

ghost use Rattle.std.specs.Prelude.{◌≡◌, ◌≤◌, length};
ghost use Rattle.capture_packets.specs.Headers.{ip_header, ip_header_with, tcp_header, tcp_header_with, pseudo_header};
ghost use Rattle.flow_counts.specs.declared.profile.TheConstants.{MAX_FRAME_SIZE};

use crate::checksum::{checksum_of, sum_of_words};
use crate::segment::Segment;
use flow_counts::MAX_FRAME_SIZE;

/// The octets of an IPv4 header without options.
pub const IP_HEADER: usize = 20;

/// The octets of a TCP header without options.
pub const TCP_HEADER: usize = 20;

/// The octets of an IPv4 header with this checksum, of a segment with so many octets of payload.
#[tactic(auto, unfolding(crate::specs::Headers::ip_header_with))]
fn ip_octets(checksum: u16, segment: Segment, len: u16) -> [u8; IP_HEADER]
    requires { len ≤ MAX_FRAME_SIZE }
    ensures { result ≡ ip_header_with checksum segment len }
{
    let [l0, l1] = (40 + len).to_be_bytes();
    let [c0, c1] = checksum.to_be_bytes();
    let [s0, s1, s2, s3] = segment.source().address;
    let [t0, t1, t2, t3] = segment.target().address;
    [
        0x45, 0, l0, l1, 0, 0, 0x40, 0, 64, 6, c0, c1, s0, s1, s2, s3, t0, t1, t2, t3,
    ]
}

/// The octets of an IPv4 header, of a segment with so many octets of payload.
#[tactic(auto, unfolding(crate::specs::Headers::ip_header))]
pub fn ip_header_of(segment: Segment, len: u16) -> [u8; IP_HEADER]
    requires { len ≤ MAX_FRAME_SIZE }
    ensures { result ≡ ip_header segment len }
{
    let bare = ip_octets(0, segment, len);
    ip_octets(checksum_of(sum_of_words(&bare)), segment, len)
}

/// What the checksum of a segment with so many octets of payload covers beside the segment.
#[tactic(auto, unfolding(crate::specs::Headers::pseudo_header))]
fn pseudo_octets(segment: Segment, len: u16) -> [u8; 12]
    requires { len ≤ MAX_FRAME_SIZE }
    ensures { result ≡ pseudo_header segment len }
{
    let [l0, l1] = (20 + len).to_be_bytes();
    let [s0, s1, s2, s3] = segment.source().address;
    let [t0, t1, t2, t3] = segment.target().address;
    [s0, s1, s2, s3, t0, t1, t2, t3, 0, 6, l0, l1]
}

/// The octets of a TCP header with this checksum.
#[tactic(auto, unfolding(crate::specs::Headers::tcp_header_with))]
fn tcp_octets(checksum: u16, segment: Segment) -> [u8; TCP_HEADER]
    ensures { result ≡ tcp_header_with checksum segment }
{
    let [s0, s1] = segment.source().port.to_be_bytes();
    let [t0, t1] = segment.target().port.to_be_bytes();
    let [n0, n1, n2, n3] = segment.sequence.to_be_bytes();
    let [a0, a1, a2, a3] = segment.acknowledged.to_be_bytes();
    let [c0, c1] = checksum.to_be_bytes();
    [
        s0,
        s1,
        t0,
        t1,
        n0,
        n1,
        n2,
        n3,
        a0,
        a1,
        a2,
        a3,
        0x50,
        segment.flags,
        0xFF,
        0xFF,
        c0,
        c1,
        0,
        0,
    ]
}

/// The octets of a TCP header, of a segment with this payload.
#[tactic(auto, unfolding(crate::specs::Headers::tcp_header))]
pub fn tcp_header_of(segment: Segment, payload: &[u8]) -> [u8; TCP_HEADER]
    requires { length payload.now ≤ MAX_FRAME_SIZE }
    ensures { result ≡ tcp_header segment payload.now }
{
    let pseudo = sum_of_words(&pseudo_octets(segment, payload.len() as u16));
    let header = sum_of_words(&tcp_octets(0, segment));
    tcp_octets(
        checksum_of(pseudo + header + sum_of_words(payload)),
        segment,
    )
}
