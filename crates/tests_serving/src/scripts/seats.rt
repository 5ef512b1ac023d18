//! Two ports of one exchange on one thread, and seats that are not what the capture has.

ghost use Rattle.std.specs.Prelude.{◌≡◌};

use address_table::Rules;
use capture_form::{Capture, Distribution, Frame, Rule, What};
use conn_engine::Port;
use core_exchange::{Exchange, Seat};
use route_items::Item;
use std::alloc::{AllocError, AllocGlobal, Global};
use std::io;
use std::sync::Wait;

/// An open of the container `p`.
const OPEN: &[u8] = b"\x00\x00\x00\x11\x02\x00\x00\x00\x00\x53\x10\xc0\x04\x01\xa1\x01p";

/// As many records as the core may have.
const LIMIT: u64 = 10;

/// An exchange over a core with one rule: `q` is closest.
fn new_exchange<R: Wait>(rt: &R, alloc: Global) -> io::Result<Exchange<&R>> {
    match Rules::new(closest(alloc)?) {
        Ok(rules) => Ok(Exchange::new(rt, alloc, &rules, LIMIT)?),
        Err(_) => Err(io::Error::from(io::ErrorKind::InvalidInput)),
    }
}

/// This one rule.
fn closest(alloc: Global) -> Result<Vec<Rule>, AllocError> {
    let prefix = String::from_str(alloc, "q")?;
    let mut rules = Vec::new(alloc);
    rules.push(Rule {
        distribution: Distribution::Closest,
        prefix,
    })?;
    Ok(rules)
}

/// Closes an exchange with the seats of each step, and prints whether they are what the capture has; then looks for frames at two
/// ports of one connection.
pub fn play<R: Wait + Print + AllocGlobal>(rt: &R, steps: &[&str]) -> io::Result<()> {
    for line in steps {
        if *line == "ports" {
            play_ports(rt)?;
        } else {
            play_seats(rt, line)?;
        }
    }
    Ok(())
}

/// Closes an exchange with seats of which this is wrong, and prints whether they are what the capture has.
fn play_seats<R: Wait + Print + AllocGlobal>(rt: &R, lie: &str) -> io::Result<()> {
    let exchange = new_exchange(rt, rt.alloc())?;
    let seats = told(rt, &exchange, lie)?;
    match exchange.close(seats) {
        Ok((capture, seats)) => tell_same(rt, lie, &capture, seats.as_slice()),
        Err(capture) => tell_other(rt, lie, &capture),
    }
}

/// Prints that seats are what a capture has.
///
/// It borrows both: owned here, their drops would be proved on each way out.
fn tell_same(rt: &impl Print, lie: &str, capture: &Capture, seats: &[Seat]) -> io::Result<()> {
    let (records, rules) = (capture.records().len(), capture.rules().list().len());
    println!(rt; "{lie}: as in the capture, {records} records, {rules} rules")?;
    tell_seats(rt, seats)
}

/// Prints that seats are not what a capture has.
fn tell_other(rt: &impl Print, lie: &str, capture: &Capture) -> io::Result<()> {
    let records = capture.records().len();
    println!(rt; "{lie}: not as in the capture, {records} records")
}

/// The seats of two connections, of which this is wrong.
fn told<R: Wait + Print + AllocGlobal>(
    rt: &R,
    exchange: &Exchange<&R>,
    lie: &str,
) -> io::Result<Vec<Seat>> {
    let mut seats = two_seats(rt, exchange)?;
    spoil(lie, &mut seats)?;
    Ok(seats)
}

/// Connections 0 and 1 are opened, and connection 0 sends an open and takes the router's: their seats.
fn two_seats<R: Wait + Print + AllocGlobal>(
    rt: &R,
    exchange: &Exchange<&R>,
) -> io::Result<Vec<Seat>> {
    let mut first = exchange.port(0);
    let mut second = exchange.port(1);
    // A `?` here would be one more way out on which the drops of both ports are proved.
    let told = tell_openings(rt, &mut first, &mut second);
    told.and(both(rt.alloc(), first.into_seat(), second.into_seat()))
}

/// Both seats.
fn both(alloc: Global, first: Seat, second: Seat) -> io::Result<Vec<Seat>> {
    let mut seats = Vec::new(alloc);
    seats.push(first)?;
    seats.push(second)?;
    Ok(seats)
}

/// Opens the connections of both ports, sends an open by the first one, and prints what they give.
fn tell_openings<R: Print + AllocGlobal, P: Port>(
    rt: &R,
    first: &mut P,
    second: &mut P,
) -> io::Result<()>
    requires first { P.connection first.old ≡ 0 }
    requires second { P.connection second.old ≡ 1 }
{
    let opened = first.submit(Item::Opened(0)).is_ok();
    let beside = second.submit(Item::Opened(1)).is_ok();
    let came = first.submit(Item::In(0, OPEN)).is_ok();
    let is_ok = [opened, beside, came];
    tell_frames(rt, first, second, is_ok, &mut Vec::new(rt.alloc()))
}

/// Prints what both ports give, which is put behind these octets, and whether each of the three items was taken before.
///
/// It borrows the octets: owned here, their drop would be proved on each way out.
fn tell_frames<R: Print + AllocGlobal, P: Port>(
    rt: &R,
    first: &mut P,
    second: &mut P,
    is_ok: [bool; 3],
    out: &mut Vec<u8>,
) -> io::Result<()> {
    let [opened, beside, came] = is_ok;
    let number = first.next_out(0, out)?;
    println!(rt;
        "opened {opened} and {beside}, came {came}, record {number:?} is {}",
        hex::encode(rt.alloc(), out.as_slice())?
    )?;
    let (more, others) = (first.next_out(4, out)?, second.next_out(0, out)?);
    println!(rt; "then {more:?}, and on the other connection {others:?}")
}

/// Makes this of two seats wrong.
fn spoil(lie: &str, seats: &mut Vec<Seat>) -> Result<(), AllocError> {
    match lie {
        "in another order" => seats.reverse(),
        "a connection left out" => seats.truncate(1),
        _ => {
            if let Some(first) = seats.get_mut(0) {
                spoil_seat(lie, first)?;
            }
        }
    }
    Ok(())
}

/// Makes this of a seat wrong.
fn spoil_seat(lie: &str, seat: &mut Seat) -> Result<(), AllocError> {
    match lie {
        "an item left out" => {
            let _ = seat.items.pop();
        }
        "an item told twice" => seat.items.push(What::Opened)?,
        "another frame" => {
            let frame = Frame::new(*seat.frames.allocator(), OPEN)?;
            seat.frames.clear();
            seat.frames.push(frame)?;
        }
        _ => {}
    }
    Ok(())
}

/// Prints what each seat tells: its items, and how many frames.
fn tell_seats(rt: &impl Print, seats: &[Seat]) -> io::Result<()> {
    for seat in seats {
        let frames = seat.frames.len();
        let items = seat.items.as_slice();
        let is_so = matches!(items, [What::Opened, What::In(_)]);
        println!(rt;
            "{} items, an opening and a frame {is_so}, {frames} frames",
            items.len()
        )?;
    }
    Ok(())
}

/// A port that found nothing finds what comes; and asked from an earlier record on, it looks again.
fn play_ports<R: Wait + Print + AllocGlobal>(rt: &R) -> io::Result<()> {
    let exchange = new_exchange(rt, rt.alloc())?;
    tell_found(rt, exchange.port(1), exchange.port(1))
}

/// Opens the connection of both ports and sends an open by one of them, and prints what the other finds.
fn tell_found<R: Print + AllocGlobal, P: Port + Drop>(rt: &R, one: P, same: P) -> io::Result<()>
    requires { P.connection one ≡ 1 }
{
    let (mut one, mut same) = (one, same);
    tell_both(rt, &mut one, &mut same, &mut Vec::new(rt.alloc()))
}

/// The same, which puts what is found behind these octets.
///
/// It borrows all: owned here, their drops would be proved on each way out.
fn tell_both<R: Print + AllocGlobal, P: Port>(
    rt: &R,
    one: &mut P,
    same: &mut P,
    out: &mut Vec<u8>,
) -> io::Result<()>
    requires { P.connection one.old ≡ 1 }
{
    let opened = one.submit(Item::Opened(1)).is_ok();
    let (first, second) = (same.next_out(0, out)?, same.next_out(0, out)?);
    println!(rt; "ports: opened {opened}, then {first:?} and {second:?}")?;
    let came = one.submit(Item::In(1, OPEN)).is_ok();
    let found = same.next_out(0, out)?;
    println!(rt;
        "came {came}, record {found:?} is {}",
        hex::encode(rt.alloc(), out.as_slice())?
    )?;
    let (later, earlier) = (same.next_out(3, out)?, same.next_out(1, out)?);
    println!(rt; "from record 3 {later:?}, from record 1 {earlier:?}")
}
