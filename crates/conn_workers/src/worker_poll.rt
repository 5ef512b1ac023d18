//! What the slots of one worker share, and what ends the waits of the others.

ghost use Rattle.std.specs.Prelude.{◌≡◌, ◌<◌, vec_len};

use crate::watch::Watch;
use mio::Waker;
use mio::net::{TcpListener, TcpStream};
use polled_sockets::Signs;
use std::alloc::Global;
use std::io;
use std::net::Net;
use std::sync::atomic::{AtomicBool, AtomicU64, Ordering};
use std::sync::{Arc, Mutex, Wait};
use std::time::Duration;

/// The longest wait for a sign, in milliseconds.
const PATIENCE: u64 = 10;

/// So many times a worker looks for signs before it waits for them, where there were some a moment ago. To be put to sleep and
/// woken takes longer than these looks, and what a client or another worker answers often comes while they last.
const LOOKS: u32 = 40;

/// So many deliveries a worker takes before it looks at the signs of its other sockets: often enough that they need not wait
/// long, and seldom enough that the looks cost little.
const DELIVERIES: u64 = 16;

/// The poll of a worker's sockets, and what ends its wait. The worker alone takes the lock; others only call.
#[derive(Drop)]
pub(crate) struct WorkerPoll {
    worker: usize,
    watch: Mutex<Watch>,
    waker: Waker,
    is_waiting: AtomicBool,
    // Since the last wait.
    was_called: AtomicBool,
    // The last wait ended by a sign, a call or a connection.
    was_busy: AtomicBool,
    // Octets were delivered, of which the other workers were not told yet.
    has_delivered: AtomicBool,
    // How many deliveries there were since the last look at the signs.
    deliveries: AtomicU64,
    may_accept: AtomicBool,
    // How many slots have no connection yet.
    vacant: AtomicU64,
}

impl WorkerPoll {
    /// The poll of this worker, without slots.
    ///
    /// # Errors
    ///
    /// Where the system refuses a poll or a waker, or memory is refused.
    pub(crate) fn new(
        net: &impl Net,
        alloc: Global,
        worker: usize,
        listener: &mut TcpListener,
    ) -> io::Result<WorkerPoll> {
        let (watch, waker) = Watch::new(net, alloc, listener)?;
        Ok(WorkerPoll {
            worker,
            watch: Mutex::new(watch),
            waker,
            is_waiting: AtomicBool::new(false),
            was_called: AtomicBool::new(false),
            was_busy: AtomicBool::new(false),
            has_delivered: AtomicBool::new(false),
            deliveries: AtomicU64::new(0),
            may_accept: AtomicBool::new(true),
            vacant: AtomicU64::new(0),
        })
    }

    /// One more slot that has no connection yet.
    pub(crate) fn add_slot(&self) {
        self.vacant.fetch_add(1, Ordering::SeqCst);
    }

    /// Whether there may be a connection to accept.
    pub(crate) fn may_accept(&self) -> bool {
        self.may_accept.load(Ordering::SeqCst)
    }

    /// There may be one that was not accepted before.
    pub(crate) fn one_may_be_there(&self) {
        self.may_accept.store(true, Ordering::SeqCst);
    }

    /// The listener had no connection.
    pub(crate) fn none_is_there(&self) {
        self.may_accept.store(false, Ordering::SeqCst);
    }

    /// Takes in the connection of a slot that had none, and gives its key and its signs.
    ///
    /// # Errors
    ///
    /// Where the system refuses it, or memory is refused.
    pub(crate) fn admit(
        &self,
        rt: &impl Wait,
        alloc: Global,
        stream: &mut TcpStream,
    ) -> io::Result<(usize, Arc<Signs, Global>)> {
        self.vacant.fetch_sub(1, Ordering::SeqCst);
        self.watch.lock(rt).admit(alloc, stream)
    }

    /// Lets a connection go.
    pub(crate) fn dismiss(&self, rt: &impl Wait, key: usize) {
        self.watch.lock(rt).dismiss(key);
    }

    /// A socket has delivered octets. What they bring about may be for connections of other workers.
    pub(crate) fn note_delivery(&self) {
        self.has_delivered.store(true, Ordering::SeqCst);
        self.deliveries.fetch_add(1, Ordering::SeqCst);
    }

    /// Whether octets were delivered since this was asked last.
    fn takes_delivery(&self) -> bool {
        let news = self.has_delivered.load(Ordering::SeqCst);
        if news {
            self.has_delivered.store(false, Ordering::SeqCst);
        }
        news
    }

    /// Ends the wait that is under way, or else the next one.
    fn end_wait(&self) {
        // A worker that is about to wait either sees the call or is seen to wait.
        self.was_called.store(true, Ordering::SeqCst);
        if self.is_waiting.load(Ordering::SeqCst) {
            // A wake that fails costs the rest of one wait.
            let _ = self.waker.wake();
        }
    }

    /// Waits a little for a sign of any socket, for a connection to accept or for a call. It does not wait where a call
    /// came since the last wait, or where a slot may accept. Answers whether there was anything.
    ///
    /// # Errors
    ///
    /// Where the poll fails.
    pub(crate) fn wait(&self, rt: &impl Wait) -> io::Result<bool> {
        if self.was_busy.load(Ordering::SeqCst) && self.look_often(rt)? {
            return Ok(true);
        }
        let any = self.wait_once(rt)?;
        self.was_busy.store(any, Ordering::SeqCst);
        Ok(any)
    }

    /// Looks for a sign, a call or a connection to accept a few times, without waiting. Answers whether there was any.
    ///
    /// # Errors
    ///
    /// Where the poll fails.
    fn look_often(&self, rt: &impl Wait) -> io::Result<bool> {
        for _ in 0..LOOKS {
            if self.is_pressed() || self.poll(rt, Duration::from_millis(0))? {
                return Ok(true);
            }
        }
        Ok(false)
    }

    /// Waits for a sign, for a connection to accept or for a call. Answers whether there was any.
    ///
    /// # Errors
    ///
    /// Where the poll fails.
    fn wait_once(&self, rt: &impl Wait) -> io::Result<bool> {
        self.is_waiting.store(true, Ordering::SeqCst);
        let pressed = self.is_pressed();
        let patience = if pressed { 0 } else { PATIENCE };
        let polled = self.poll(rt, Duration::from_millis(patience));
        self.is_waiting.store(false, Ordering::SeqCst);
        Ok(pressed || polled?)
    }

    /// Whether a call came since this was asked last, or a slot may take a connection.
    fn is_pressed(&self) -> bool {
        self.was_called.swap(false, Ordering::SeqCst) || self.may_take_connection()
    }

    /// Looks for signs without waiting, if there were many deliveries since the last look. A worker waits only where none of
    /// its sockets has anything, so that one that always has more would leave the others unheard.
    ///
    /// # Errors
    ///
    /// Where the poll fails.
    pub(crate) fn look(&self, rt: &impl Wait) -> io::Result<()> {
        if self.deliveries.load(Ordering::SeqCst) >= DELIVERIES {
            self.poll(rt, Duration::from_millis(0))?;
        }
        Ok(())
    }

    /// Answers whether the poll had a sign, within this time.
    fn poll(&self, rt: &impl Wait, patience: Duration) -> io::Result<bool> {
        self.deliveries.store(0, Ordering::SeqCst);
        let seen = self.watch.lock(rt).wait(patience)?;
        if seen.at_listener {
            self.one_may_be_there();
        }
        Ok(seen.any)
    }

    /// Whether a slot may take a connection.
    fn may_take_connection(&self) -> bool {
        self.may_accept() && self.vacant.load(Ordering::SeqCst) > 0
    }
}

/// The polls of all workers.
#[derive(Drop)]
pub(crate) struct WorkerPolls {
    polls: Vec<Arc<WorkerPoll, Global>>,
}

impl WorkerPolls {
    /// These, in the order of their workers.
    pub(crate) fn new(polls: Vec<Arc<WorkerPoll, Global>>) -> WorkerPolls
        ensures { result.polls ≡ polls }
    {
        WorkerPolls { polls }
    }

    /// The poll of this slot.
    pub(crate) fn poll_of(&self, slot: u32) -> &Arc<WorkerPoll, Global>
        requires { 0 < vec_len self.now.polls }
    {
        &self.polls[slot as usize % self.polls.len()]
    }

    /// A descriptor is free again, which may be what a connection waits for that no worker could accept.
    pub(crate) fn one_may_be_there(&self) {
        for poll in self.polls.iter() {
            poll.one_may_be_there();
            poll.end_wait();
        }
    }

    /// Ends the waits of all other workers, if octets were delivered to this one since the last time: behind a delivery
    /// they were handed to the router, which may have written frames for any connection. It costs a call of the system
    /// only for a worker that waits.
    pub(crate) fn pass_on(&self, poll: &WorkerPoll) {
        if !poll.takes_delivery() {
            return;
        }
        for other in self.polls.iter() {
            if other.worker != poll.worker {
                other.end_wait();
            }
        }
    }
}
