//! Whether seats are what a capture has.

ghost use Rattle.std.specs.Prelude.{◌≡◌, ◌↔◌, IsTrue, true};
ghost use Rattle.capture_form.specs.Text.{frame_of};
ghost use Rattle.route_items.specs.Inputs.{is_output};
ghost use Rattle.route_items.specs.WrittenFrames.{writes_on};
ghost use Rattle.trace_events.specs.Kept.{AreFirst};
ghost use Rattle.core_exchange.specs.Seats.{Agrees, SeatAgrees, SeatsAgree, inputs_on, outs_on, is_input_on, owned_below, is_owned_below};

use crate::seat::Seat;
use address_table::Rules;
use capture_form::{Capture, Frame, Record, What};

/// Whether the seats are those of connections 0 and up and tell what the capture has of these, the capture has no other
/// inputs, and these are its rules.
pub(crate) fn agree(rules: &Rules, capture: &Capture, seats: &[Seat]) -> bool
    ensures { IsTrue result ↔ Agrees rules.now capture.now seats.now }
{
    rules.are_of(capture)
        && seats_agree(capture.records(), seats)
        && are_owned_below(capture.records(), seats.len())
}

fn seats_agree(records: &[Record], seats: &[Seat]) -> bool
    ensures { IsTrue result ↔ SeatsAgree records.now 0 seats.now }
{
    for (k, seat) in seats.iter().enumerate() {
        if !seat_agrees(records, k, seat) {
            return false;
        }
    }
    true
}

/// Whether the seat is of connection `k`, and tells what the records have of it.
fn seat_agrees(records: &[Record], k: usize, seat: &Seat) -> bool
    ensures { IsTrue result ↔ SeatAgrees records.now k seat.now }
{
    seat.conn as usize == k
        && are_inputs(records, seat.conn, &seat.items)
        && begin_outs(records, seat.conn, &seat.frames)
}

/// Whether these are the inputs on a connection.
fn are_inputs(records: &[Record], conn: u32, items: &[What]) -> bool
    ensures { IsTrue result ↔ (inputs_on conn records.now ≡ items.now) }
{
    let mut rest = items;
    for entry in records {
        if is_input_on(entry, conn) {
            let Some((item, behind)) = rest.split_first() else {
                return false;
            };
            if !is_same(&entry.what, item) {
                return false;
            }
            rest = behind;
        }
    }
    rest.is_empty()
}

/// Whether these frames begin those that were written on a connection.
fn begin_outs(records: &[Record], conn: u32, frames: &[Frame]) -> bool
    ensures { IsTrue result ↔ AreFirst frames.now (outs_on conn records.now) }
{
    let mut rest = frames;
    for entry in records {
        if is_out_on(entry, conn) {
            let Some((frame, behind)) = rest.split_first() else {
                return true;
            };
            if !is_frame_of(&entry.what, frame) {
                return false;
            }
            rest = behind;
        }
    }
    rest.is_empty()
}

/// Whether each record is of one of the first `count` connections, or writes a frame.
fn are_owned_below(records: &[Record], count: usize) -> bool
    ensures { result ≡ owned_below count records.now }
{
    records.iter().all(|entry| is_owned_below(entry, count))
}

fn is_owned_below(entry: &Record, count: usize) -> bool
    ensures { result ≡ is_owned_below count entry.now }
{
    matches!(&entry.what, What::Out(_)) || (entry.connection as usize) < count
}

/// Whether the record is an input on the connection.
fn is_input_on(entry: &Record, conn: u32) -> bool
    ensures { result ≡ is_input_on conn entry.now }
{
    entry.connection == conn && !matches!(&entry.what, What::Out(_))
}

/// Whether the record writes a frame on the connection.
fn is_out_on(entry: &Record, conn: u32) -> bool
    ensures { result ≡ writes_on conn entry.now }
{
    matches!(&entry.what, What::Out(_)) && entry.connection == conn
}

/// Whether these are the octets of what was written.
fn is_frame_of(what: &What, given: &Frame) -> bool
    requires { is_output what.now ≡ true }
    ensures { IsTrue result ↔ (frame_of what.now ≡ given.now) }
{
    match what {
        What::Out(frame) => frame.octets() == given.octets(),
        _ => false,
    }
}

/// Whether the same happened.
fn is_same(what: &What, other: &What) -> bool
    ensures { IsTrue result ↔ (what.now ≡ other.now) }
{
    match (what, other) {
        (What::Opened, What::Opened) => true,
        (What::Lost, What::Lost) => true,
        (What::Broken, What::Broken) => true,
        (What::In(frame), What::In(other)) => frame.octets() == other.octets(),
        (What::Out(frame), What::Out(other)) => frame.octets() == other.octets(),
        _ => false,
    }
}
