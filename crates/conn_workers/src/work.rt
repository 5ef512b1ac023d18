//! What one worker does.

ghost use Rattle.std.specs.Prelude.{◌≡◌, ◌<◌, ◌+◌, ◌∷◌, Some, length, drop, slice_get, IfOk, IfSome, OnOk, vec_len, All};
ghost use Rattle.std.specs.VecDeque.{deque_len};
ghost use Rattle.conn_engine.specs.declared.serving.Status.TheVariants.{Open, Ended};

use crate::alarm::Alarm;
use crate::done::Done;
use crate::line::{Line, Origin, Start};
use conn_engine::{Gate, Stop, Turn};
use core_exchange::{Exchange, ExchangePort};
use std::alloc::Global;
use std::collections::VecDeque;
use std::sync::Wait;

/// The most octets of one read: those of four of the largest frames, or of some hundreds of small messages. Its frames are handed to
/// the core under one lock, so that this bounds how long a connection keeps its worker, and the other workers from the core.
const BUFFER: usize = 65536;

/// Serves these gates to their ends, one after the other in each round. Where a round moves nothing, it waits a little at
/// one gate, the next in turn. It tells the other workers where it stops. Where one of these has, it is called off: it drops
/// its gates, and answers `None`.
///
/// # Errors
///
/// As `Stop` says, for a reason of its own; the gates are dropped then.
pub(crate) fn work<G: Gate + Drop, R: Wait, W: Wait, J: Origin<G>>(
    rt: &W,
    alloc: Global,
    exchange: &Exchange<R>,
    alarm: &Alarm,
    starts: Vec<Start<G, J>>,
) -> Result<Option<Vec<Done<G, J>>>, Stop>
    ensures { IfOk result (λ served. IfSome served (λ all. vec_len all ≡ vec_len starts)) }
{
    match serve_all(rt, alloc, exchange, alarm, starts) {
        Ok(served) => Ok(served),
        Err(stop) => {
            alarm.raise();
            Err(stop)
        }
    }
}

/// Serves these gates to their ends, or until another worker has stopped.
fn serve_all<G: Gate + Drop, R: Wait, W: Wait, J: Origin<G>>(
    rt: &W,
    alloc: Global,
    exchange: &Exchange<R>,
    alarm: &Alarm,
    starts: Vec<Start<G, J>>,
) -> Result<Option<Vec<Done<G, J>>>, Stop>
    ensures { IfOk result (λ served. IfSome served (λ all. vec_len all ≡ vec_len starts)) }
{
    let mut lines = open_lines(alloc, exchange, starts)?;
    let mut done = Vec::new(alloc);
    let mut buffer = [0u8; BUFFER];
    for _ in rt.forever() {
        if lines.is_empty() {
            return Ok(Some(done));
        }
        if alarm.is_raised() {
            return Ok(None);
        }
        if !serve_each(&mut lines, &mut done, &mut buffer)? {
            wait_for_next(&mut lines)?;
        }
    }
    unreachable!()
}

/// The lines of gates that are handed over in falling order of their numbers, in rising order.
#[tactic(auto, using(crate::proofs::Opens::open_front))]
fn open_lines<'a, G: Gate + Drop, R: Wait, J: Origin<G>>(
    alloc: Global,
    exchange: &'a Exchange<R>,
    starts: Vec<Start<G, J>>,
) -> Result<VecDeque<Line<G, ExchangePort<'a, R>, J>>, Stop>
    ensures open { IfOk result (λ lines. All (λ s. s ≡ Open) lines.items) }
    ensures len { IfOk result (λ lines. deque_len lines ≡ vec_len starts) }
{
    let mut lines = VecDeque::new(alloc);
    for start in starts {
        let port = exchange.port(start.conn());
        put_front(&mut lines, Line::new(alloc, start, port))?;
    }
    Ok(lines)
}

/// Puts a line in front of the others. It does so for any type, since the borrow checker does not cover the push of a line whose
/// port may hold a core.
fn put_front<T: Drop>(lines: &mut VecDeque<T>, line: T) -> Result<(), Stop>
    ensures items { OnOk result (lines.new.items ≡ line ∷ lines.old.items) }
    ensures len { OnOk result (deque_len lines.new ≡ deque_len lines.old + 1) }
{
    match lines.push_front(line) {
        Ok(()) => Ok(()),
        Err(_) => Err(Stop::Memory),
    }
}

/// Gives each line one turn, and says whether any moved octets or ended.
fn serve_each<'a, G: Gate + Drop, R: Wait, J: Origin<G>>(
    lines: &mut VecDeque<Line<G, ExchangePort<'a, R>, J>>,
    done: &mut Vec<Done<G, J>>,
    buffer: &mut [u8],
) -> Result<bool, Stop>
    requires open { All (λ s. s ≡ Open) lines.old.items }
    requires room { 0 < length buffer.old }
    ensures open { OnOk result (All (λ s. s ≡ Open) lines.new.items) }
    ensures len { OnOk result (deque_len lines.new + vec_len done.new ≡ deque_len lines.old + vec_len done.old) }
{
    let mut moved = false;
    for _ in 0..lines.len() {
        if serve_next(lines, done, buffer)? {
            moved = true;
        }
    }
    Ok(moved)
}

/// Gives the first line one turn in its place, and puts it behind the others, or among those that have ended.
#[tactic(auto, using(crate::proofs::Opens::open_turned, crate::proofs::Opens::open_behind))]
fn serve_next<'a, G: Gate + Drop, R: Wait, J: Origin<G>>(
    lines: &mut VecDeque<Line<G, ExchangePort<'a, R>, J>>,
    done: &mut Vec<Done<G, J>>,
    buffer: &mut [u8],
) -> Result<bool, Stop>
    requires open { All (λ s. s ≡ Open) lines.old.items }
    requires room { 0 < length buffer.old }
    ensures open { OnOk result (All (λ s. s ≡ Open) lines.new.items) }
    ensures len { OnOk result (deque_len lines.new + vec_len done.new ≡ deque_len lines.old + vec_len done.old) }
{
    let Some(line) = lines.front_mut() else {
        return Ok(false);
    };
    let turn = line.turn(buffer)?;
    if turn == Turn::Ended {
        end_first(lines, done)?;
        return Ok(true);
    }
    lines.rotate_left(1);
    Ok(turn == Turn::Moved)
}

/// Takes the first line, which has ended, from those that are open, and puts it among those that have ended.
fn end_first<'a, G: Gate + Drop, R: Wait, J: Origin<G>>(
    lines: &mut VecDeque<Line<G, ExchangePort<'a, R>, J>>,
    done: &mut Vec<Done<G, J>>,
) -> Result<(), Stop>
    requires ended { slice_get lines.old.items 0 ≡ Some Ended }
    requires open { All (λ s. s ≡ Open) (drop 1 lines.old.items) }
    ensures open { OnOk result (All (λ s. s ≡ Open) lines.new.items) }
    ensures len { OnOk result (deque_len lines.new + vec_len done.new ≡ deque_len lines.old + vec_len done.old) }
{
    match lines.pop_front() {
        Some(line) => match done.push(Done::new(line)) {
            Ok(()) => Ok(()),
            Err(_) => Err(Stop::Memory),
        },
        None => Ok(()),
    }
}

/// Waits at the first line in its place, and puts it behind the others.
#[tactic(auto, using(crate::proofs::Opens::open_turned))]
fn wait_for_next<'a, G: Gate + Drop, R: Wait, J: Origin<G>>(
    lines: &mut VecDeque<Line<G, ExchangePort<'a, R>, J>>,
) -> Result<(), Stop>
    requires open { All (λ s. s ≡ Open) lines.old.items }
    ensures open { OnOk result (All (λ s. s ≡ Open) lines.new.items) }
    ensures len { OnOk result (deque_len lines.new ≡ deque_len lines.old) }
{
    let Some(line) = lines.front_mut() else {
        return Ok(());
    };
    line.wait()?;
    lines.rotate_left(1);
    Ok(())
}
