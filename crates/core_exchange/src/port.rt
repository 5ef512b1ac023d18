//! A connection's way to a core that threads share.

ghost use Rattle.std.specs.Prelude.{◌≡◌, [], None, false};

use crate::exchange::{Exchange, frame_from};
use crate::seat::Seat;
use conn_engine::{Port, PortFault};
use route_core::Core;
use route_items::Item;
use std::alloc::{AllocError, Global};
use std::sync::{MutexGuard, Wait};

/// Hands the items of a connection to the core of an exchange, and gives the frames that the core wrote to it. It keeps
/// the items that the core took and the frames that were given, whose octets it owns together with the capture.
#[derive(Drop)]
pub struct ExchangePort<'a, R: Wait> {
    exchange: &'a Exchange<R>,
    // Whether more calls follow, and the core, if one of them took it.
    is_holding: bool,
    core: Option<MutexGuard<'a, Core>>,
    seat: Seat,
    // A record's number and a mark: while the mark stands, nothing was written in that record or a later one.
    unwritten: Option<(u64, u64)>,
}

impl<'a, R: Wait> ExchangePort<'a, R> {
    /// A port that has taken and given nothing.
    pub(crate) fn new(exchange: &'a Exchange<R>, alloc: Global, conn: u32) -> ExchangePort<'a, R>
        ensures conn { result.seat.conn ≡ conn }
        ensures items { result.seat.items.items ≡ [] }
        ensures frames { result.seat.frames.items ≡ [] }
    {
        ExchangePort {
            exchange,
            is_holding: false,
            core: None,
            seat: Seat {
                conn,
                items: Vec::new(alloc),
                frames: Vec::new(alloc),
            },
            unwritten: None,
        }
    }

    /// What it took and gave. It takes no memory.
    pub fn into_seat(self) -> Seat
        ensures { result ≡ self.entry.seat }
    {
        let ExchangePort {
            exchange: _,
            is_holding: _,
            core: _,
            seat,
            unwritten: _,
        } = self;
        seat
    }

    /// Gives the core back, unless more calls follow.
    fn let_go(&mut self)
        ensures core { self.new.is_holding ≡ false → self.new.core ≡ None }
        ensures holding { self.new.is_holding ≡ self.old.is_holding }
        ensures seat { self.new.seat ≡ self.old.seat }
    {
        if !self.is_holding {
            self.core = None;
        }
    }

    /// Whether nothing was written from a record on since this was found last, so that there is no need for the lock.
    fn has_seen_all(&self, from: u64, mark: u64) -> bool {
        self.unwritten
            .is_some_and(|(first, seen)| first <= from && seen == mark)
    }
}

impl<'a, R: Wait> Port for ExchangePort<'a, R> {
    ghost use Rattle.std.specs.Prelude.{true};

    ghost connection = { λ port. port.seat.conn };

    ghost items = { λ port. port.seat.items.items };

    ghost frames = { λ port. port.seat.frames.items };

    // What a core has under its lock is not known between two calls.
    ghost is_idle = { λ port. true };

    fn submit(&mut self, item: Item<'_>) -> Result<(), PortFault> {
        // All that may be refused stands in front of the step.
        let Ok(entry) = item.to_record(self.exchange.alloc()) else {
            return Err(PortFault::Memory);
        };
        let Ok(what) = entry.what.clone() else {
            return Err(PortFault::Memory);
        };
        let Ok(()) = self.seat.items.reserve(1) else {
            return Err(PortFault::Memory);
        };
        let exchange = self.exchange;
        let core = self.core.get_or_insert_with(|| exchange.taken());
        let answer = exchange.step(core, item, entry);
        self.let_go();
        match answer {
            Ok(()) => {
                self.seat.items.push_reserved(what);
                Ok(())
            }
            Err(fault) => Err(PortFault::Step(fault)),
        }
    }

    fn next_out(&mut self, from: u64, out: &mut Vec<u8>) -> Result<Option<u64>, AllocError> {
        // Read before the core is looked at: a frame that is written in between changes the mark, so that the next call looks.
        let mark = self.exchange.mark_of(self.seat.conn);
        if self.has_seen_all(from, mark) {
            return Ok(None);
        }
        let exchange = self.exchange;
        let core = self.core.get_or_insert_with(|| exchange.taken());
        let found = frame_from(core, self.seat.conn, from);
        self.let_go();
        let Some((number, frame)) = found? else {
            self.unwritten = Some((from, mark));
            return Ok(None);
        };
        self.seat.frames.reserve(1)?;
        out.extend_from_slice(frame.octets())?;
        self.seat.frames.push_reserved(frame);
        Ok(Some(number))
    }

    fn hold(&mut self) {
        self.is_holding = true;
    }

    fn rest(&mut self)
        ensures core { self.new.core ≡ None }
        ensures seat { self.new.seat ≡ self.old.seat }
    {
        self.is_holding = false;
        self.let_go();
    }
}
