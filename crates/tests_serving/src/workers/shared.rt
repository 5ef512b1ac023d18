//! Two threads of one's own, each with an engine over its port of one exchange.

ghost use Rattle.std.specs.Prelude.{◌<◌, length};

use address_table::Rules;
use capture_form::Capture;
use conn_engine::{Delivered, Engine, Gate, Port, Taken};
use core_exchange::{Exchange, Seat};
use kit_gates::{Client, Part, two_clients};
use std::alloc::{AllocError, Global};
use std::sync::Wait;
use std::thread::{Threads, join};

/// As many turns as each has.
const TURNS: u64 = 100_000_000;

/// As many records as the core may have.
const LIMIT: u64 = 1000;

/// Lets two clients talk with one core, each in a thread of its own, and gives the capture; none where the ports' seats are
/// not what it has.
///
/// # Errors
///
/// Where memory is refused.
pub fn share_core<R: Threads + Wait + Sync>(
    rt: &R,
    alloc: Global,
    rules: &Rules,
    first: Part,
    second: Part,
) -> Result<Option<Capture>, AllocError> {
    let exchange = Exchange::new(rt, alloc, rules, LIMIT)?;
    let seats = talk(rt, alloc, &exchange, first, second)?;
    Ok(closed(exchange, seats))
}

/// Has each client play in a thread of its own, and gives the seats.
fn talk<W: Threads + Wait, R: Wait + Sync>(
    rt: &W,
    alloc: Global,
    exchange: &Exchange<R>,
    first: Part,
    second: Part,
) -> Result<Vec<Seat>, AllocError> {
    let (first, second) = two_clients(alloc, first, second)?;
    let (one, two) = join(
        rt,
        || play(alloc, exchange, 0, first),
        || play(alloc, exchange, 1, second),
    );
    both(alloc, one, two)
}

/// Both seats.
fn both(alloc: Global, one: Seat, two: Seat) -> Result<Vec<Seat>, AllocError> {
    let mut seats = Vec::new(alloc);
    seats.push(one)?;
    seats.push(two)?;
    Ok(seats)
}

/// The capture, if the seats are what it has.
fn closed<R: Wait + Drop>(exchange: Exchange<R>, seats: Vec<Seat>) -> Option<Capture> {
    match exchange.close(seats) {
        Ok((capture, _)) => Some(capture),
        Err(_) => None,
    }
}

/// Moves octets between a client and its engine until either is through, and gives the seat of its port.
fn play<R: Wait>(alloc: Global, exchange: &Exchange<R>, connection: u32, client: Client) -> Seat {
    let mut engine = Engine::new(alloc, connection, exchange.port(connection));
    let mut client = client;
    let mut buffer = [0u8; 64];
    for _ in 0..TURNS {
        if !turn(&mut engine, &mut client, &mut buffer) {
            break;
        }
    }
    let _ = engine.gone();
    engine.into_port().into_seat()
}

/// Moves octets once, and says whether there may be more.
fn turn<P: Port>(engine: &mut Engine<P>, client: &mut Client, buffer: &mut [u8]) -> bool
    requires { 0 < length buffer.old }
{
    if engine.refill().is_err() {
        return false;
    }
    if let Taken::Took(n) = client.write(engine.give()) {
        engine.gave(n);
    }
    if engine.is_over() {
        return !engine.give().is_empty();
    }
    match client.read(buffer) {
        Delivered::Octets(n) => {
            let _ = engine.feed(&buffer[..n]);
            true
        }
        Delivered::Nothing => true,
        Delivered::End | Delivered::Fault => false,
    }
}
