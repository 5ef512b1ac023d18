//! A gate that is a socket.

ghost use Rattle.std.specs.Prelude.{◌≡◌};

use crate::worker_poll::{WorkerPoll, WorkerPolls};
use conn_engine::{Delivered, Gate, Ready, Taken};
use mio::net::{TcpListener, TcpStream};
use polled_sockets::{Connection, Moved, NoConnection, count_failure, moment, no_connection_of};
use std::alloc::Global;
use std::mem;
use std::sync::{Arc, Mutex, Wait};
use std::time::Clock;

/// Where a slot is.
#[derive(Drop)]
enum SlotState {
    /// It has had no connection.
    Vacant,
    Taken(Connection),
    /// Its connection could not be taken in.
    Unfit,
    /// Its connection is over.
    Shut,
}

/// A gate that takes one connection from a listener, which stands behind a lock. What a socket delivers and takes is the
/// system's affair, and no clause speaks of it.
#[derive(Drop)]
pub struct ConnectionSlot<R: Wait> {
    rt: R,
    alloc: Global,
    listener: Arc<Mutex<TcpListener>, Global>,
    polls: Arc<WorkerPolls, Global>,
    poll: Arc<WorkerPoll, Global>,
    state: SlotState,
    // The listener or the poll failed.
    is_broken: bool,
    ended: bool,
    failed: u64,
}

impl<R: Wait> ConnectionSlot<R> {
    /// A slot without a connection.
    pub(crate) fn new(
        rt: R,
        alloc: Global,
        listener: Arc<Mutex<TcpListener>, Global>,
        polls: Arc<WorkerPolls, Global>,
        poll: Arc<WorkerPoll, Global>,
    ) -> ConnectionSlot<R> {
        poll.add_slot();
        ConnectionSlot {
            rt,
            alloc,
            listener,
            polls,
            poll,
            state: SlotState::Vacant,
            is_broken: false,
            ended: false,
            failed: 0,
        }
    }

    /// Takes a connection, if one may wait and no other worker is at the listener.
    fn accept(&mut self)
        ensures ended { self.new.ended ≡ self.old.ended }
        ensures failed { self.new.failed ≡ self.old.failed }
    {
        if !self.poll.may_accept() {
            return;
        }
        let Some(listener) = self.listener.try_lock() else {
            return;
        };
        let accepted = listener.accept();
        drop(listener);
        match accepted {
            Ok((stream, _)) => self.take_in(stream),
            Err(error) => self.note_none(no_connection_of(&error)),
        }
    }

    /// Notes why no connection was accepted.
    fn note_none(&mut self, why: NoConnection)
        ensures ended { self.new.ended ≡ self.old.ended }
        ensures failed { self.new.failed ≡ self.old.failed }
    {
        match why {
            NoConnection::Client => {}
            NoConnection::NoneWaits | NoConnection::Means => self.poll.none_is_there(),
            NoConnection::Listener => self.is_broken = true,
        }
    }

    /// What a gate delivered is handed to the router before any gate of its worker is called again. So it is time now to
    /// tell the other workers, for whose connections frames may have come of it.
    fn pass_on(&self) {
        self.polls.pass_on(&self.poll);
    }

    /// Makes a stream the connection of the slot. That the poll does not take it, or memory is refused, is its own fault alone.
    fn take_in(&mut self, mut stream: TcpStream)
        ensures ended { self.new.ended ≡ self.old.ended }
        ensures failed { self.new.failed ≡ self.old.failed }
    {
        // Small frames are not to wait for one another.
        let _ = stream.set_nodelay(true);
        match self.poll.admit(&self.rt, self.alloc, &mut stream) {
            Ok((key, signs)) => self.state = SlotState::Taken(Connection::new(stream, key, signs)),
            Err(_) => self.state = SlotState::Unfit,
        }
    }
}

impl<R: Wait + Clock> Gate for ConnectionSlot<R> {
    ghost use Rattle.std.specs.Prelude.{⊤};

    ghost delivered = { λ slot octets. ⊤ };

    ghost took = { λ slot octets. ⊤ };

    ghost has_ended = { λ slot. slot.ended };

    ghost failed = { λ slot. slot.failed };

    ghost follows = { λ slot later. ⊤ };

    fn read(&mut self, buffer: &mut [u8]) -> Delivered {
        self.pass_on();
        if self.poll.look(&self.rt).is_err() {
            self.is_broken = true;
        }
        if matches!(self.state, SlotState::Vacant) {
            self.accept();
        }
        let moved = match &mut self.state {
            SlotState::Taken(connection) => connection.read(buffer),
            SlotState::Unfit => Moved::Fault,
            SlotState::Vacant | SlotState::Shut => Moved::Nothing,
        };
        match moved {
            Moved::Octets(n) => {
                self.poll.note_delivery();
                Delivered::Octets(n)
            }
            Moved::Nothing => Delivered::Nothing,
            Moved::End => {
                self.ended = true;
                Delivered::End
            }
            Moved::Fault => {
                self.ended = true;
                if count_failure(&mut self.failed) {
                    Delivered::Fault
                } else {
                    Delivered::End
                }
            }
        }
    }

    fn write(&mut self, octets: &[u8]) -> Taken {
        self.pass_on();
        let moved = match &mut self.state {
            SlotState::Taken(connection) => connection.write(octets),
            SlotState::Unfit => Moved::Fault,
            SlotState::Vacant | SlotState::Shut => Moved::Nothing,
        };
        match moved {
            Moved::Octets(n) => Taken::Took(n),
            Moved::Nothing | Moved::End => Taken::Nothing,
            Moved::Fault => {
                if !count_failure(&mut self.failed) {
                    return Taken::Nothing;
                }
                self.ended = true;
                Taken::Fault
            }
        }
    }

    fn ready(&mut self) -> Ready {
        self.pass_on();
        if !self.is_broken {
            match self.poll.wait(&self.rt) {
                Ok(true) => return Ready::Yes,
                Ok(false) => return Ready::No,
                Err(_) => self.is_broken = true,
            }
        }
        if count_failure(&mut self.failed) {
            Ready::Device
        } else {
            Ready::No
        }
    }

    fn shut(&mut self) {
        // The router was told of the loss before, which may bring about frames as well.
        self.poll.note_delivery();
        self.pass_on();
        match mem::replace(&mut self.state, SlotState::Shut) {
            SlotState::Taken(mut connection) => {
                connection.shut();
                self.poll.dismiss(&self.rt, connection.key());
                // Here its descriptor is let go.
                drop(connection);
                self.polls.one_may_be_there();
            }
            // That of one that could not be taken in was let go at once.
            SlotState::Unfit => self.polls.one_may_be_there(),
            SlotState::Vacant | SlotState::Shut => {}
        }
    }

    fn failures(&self) -> u64 {
        self.failed
    }

    fn now(&self) -> u64 {
        moment(&self.rt)
    }

    ghost follows_itself = { λ slot. tt };

    ghost follows_on = { λ first second third before then. tt };
}
