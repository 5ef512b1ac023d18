//! What the frames of a connection say of the connection itself.

ghost use Rattle.std.specs.Prelude.{◌≡◌, option_map};
ghost use Rattle.amqp_perf.specs.View.{view};
ghost use Rattle.conn_engine.specs.Said.{is_open, is_close, said_in, said_in_body, time_out_in};

use amqp_frames::{FrameKind, FrameView};
use amqp_perf::Performative;
use flow_counts::MAX_FRAME_SIZE;

/// What octets say, where they are a frame of AMQP.
fn said(octets: &[u8]) -> Option<Performative<'_>>
    ensures { option_map view result ≡ said_in octets.now }
{
    match FrameView::whole(octets, MAX_FRAME_SIZE) {
        Some(frame) => said_in_body(frame.kind(), frame.body()),
        None => None,
    }
}

/// What the body of a frame of this kind says.
fn said_in_body(kind: FrameKind, body: &[u8]) -> Option<Performative<'_>>
    ensures { option_map view result ≡ said_in_body kind body.now }
{
    match kind {
        FrameKind::Sasl => None,
        FrameKind::Amqp => match Performative::read(body) {
            Ok((performative, _)) => Some(performative),
            Err(_) => None,
        },
    }
}

/// Whether a frame is an open.
pub(crate) fn is_open(octets: &[u8]) -> bool
    ensures { result ≡ is_open octets.now }
{
    match said(octets) {
        Some(Performative::Open(_)) => true,
        Some(_) | None => false,
    }
}

/// Whether a frame is a close.
pub(crate) fn is_close(octets: &[u8]) -> bool
    ensures { result ≡ is_close octets.now }
{
    match said(octets) {
        Some(Performative::Close(_)) => true,
        Some(_) | None => false,
    }
}

/// The idle-time-out of the open that a frame is, if it is one, in milliseconds; 0 where it has none.
pub(crate) fn time_out_in(octets: &[u8]) -> Option<u32>
    ensures { result ≡ time_out_in octets.now }
{
    match said(octets) {
        Some(Performative::Open(open)) => Some(open.idle_time_out.unwrap_or(0)),
        Some(_) | None => None,
    }
}
