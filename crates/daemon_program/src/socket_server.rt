//! A router that one thread serves over sockets.

ghost use Rattle.std.specs.Prelude.{◌≡◌, ◌<◌, None, true, length};
ghost use Rattle.capture_journal.specs.Journals.{IsWhole};
ghost use Rattle.trace_events.specs.History.{history};
ghost use Rattle.trace_events.specs.Clauses.{first_broken};
ghost use Rattle.trace_duties.specs.Diligent.{is_diligent};
ghost use Rattle.trace_duties.specs.Turn.{is_ordered};

use crate::fault::Fault;
use crate::gate::SocketGate;
use crate::sockets::{Sockets, WaitSigns};
use daemon_server::{Dues, Halt, Server};
use mio::net::{TcpListener, TcpStream};
use polled_sockets::moment;
use std::alloc::Global;
use std::io;
use std::io::Write;
use std::net::{Net, SocketAddr};
use std::os::fd::RawFd;
use std::time::{Clock, Duration};

/// So many milliseconds a wait lasts at most, and all connections have a turn so often: a client that asks to hear something within
/// 250 milliseconds or more does, since an empty frame is due behind half of its time.
const BEAT: u64 = 100;

/// So many times a router looks for signs before it waits for them, where there were some a moment ago. To be put to sleep and
/// woken takes longer than these looks, and what a client answers often comes while they last.
const LOOKS: u32 = 20;

/// So many connections it takes in a round at most.
const ARRIVALS: usize = 256;

/// How many milliseconds it goes on to write at its end what was due then.
const LAST_WORDS: u64 = 1000;

/// How many of these it waits for a client that takes none of it.
const LAST_WAIT: u64 = 100;

/// So many rounds it has at its end at most. Each ends some thousand connections at least, but for those to which something is due, and
/// there are a million at most.
const LAST_ROUNDS: usize = 2_000;

/// How many connections there may be, and how much may wait for them.
#[derive(Clone, Copy, Debug, PartialEq, Eq)]
pub struct Limits {
    /// So many connections at a time. More wait at the listener.
    pub most: usize,
    /// So many connections in all: once they have ended the router is done.
    pub until: Option<u64>,
    /// So many octets may wait for all clients together. While more do, no client is heard, so that no more comes due.
    pub buffer: u64,
}

/// What a router has served so far.
#[derive(Clone, Copy, Debug, PartialEq, Eq)]
pub struct ServerCounts {
    /// Connections that came.
    pub connections: u64,
    /// How many of them have not ended.
    pub live: usize,
    /// The records that its capture's writer has.
    pub records: u64,
    /// Messages that came whole.
    pub messages: u64,
    /// How many of them are still to be sent or decided; a few may be among them that are over.
    pub kept: usize,
    /// Octets that were read from clients and written to them, counted in 64 bits.
    pub octets: u64,
    /// Octets that wait for clients to take them.
    pub waiting: u64,
}

/// A router that one thread serves over sockets: its server, their poll, and how far it is.
pub struct SocketServer<D: Dues, W: Write> {
    server: Server<D, W, SocketGate>,
    sockets: Sockets,
    limits: Limits,
    came: u64,
    records: u64,
    // When all connections had a turn last, in milliseconds.
    beaten: u64,
    // Whether a connection has a turn in the next round whatever the poll says.
    is_signed: bool,
    // How many looks there were since anything was seen.
    looks: u32,
    // Whether more waits for clients than may.
    is_full: bool,
}

// Written out, and not derived, so that where one is let go the prover need not go through all that it owns.
impl<D: Dues + Drop, W: Write + Drop> Drop for SocketServer<D, W> {
    fn drop(self) {
        let SocketServer {
            server: _,
            sockets: _,
            limits: _,
            came: _,
            records: _,
            beaten: _,
            is_signed: _,
            looks: _,
            is_full: _,
        } = self;
    }
}

impl<D: Dues + Drop, W: Write + Drop> SocketServer<D, W> {
    /// A router with this server, of which no connection came yet, at this listener.
    ///
    /// # Errors
    ///
    /// Where the system refuses a poll; or, as `OutOfMemory` without a number of the system's, where memory is refused.
    pub fn new(
        net: &impl Net,
        alloc: Global,
        listener: TcpListener,
        server: Server<D, W, SocketGate>,
        limits: Limits,
    ) -> io::Result<SocketServer<D, W>> {
        let sockets = Sockets::new(net, alloc, listener)?;
        Ok(SocketServer {
            server,
            sockets,
            limits,
            came: 0,
            records: 0,
            beaten: 0,
            is_signed: false,
            looks: 0,
            is_full: false,
        })
    }

    /// Where it listens.
    ///
    /// # Errors
    ///
    /// Where the system does not say.
    pub fn address(&self) -> io::Result<SocketAddr> {
        self.sockets.address()
    }

    /// What it has served so far.
    pub fn counts(&self) -> ServerCounts {
        ServerCounts {
            connections: self.came,
            live: self.server.open(),
            records: self.records,
            messages: self.server.messages(),
            kept: self.server.kept(),
            octets: self.sockets.notice().moved(),
            waiting: self.server.waiting(),
        }
    }

    /// The moment, in milliseconds from some start, as the last turn read it.
    pub fn now(&self) -> u64 {
        self.sockets.notice().moment()
    }

    /// Whether as many connections came as are to be served, and all of them have ended.
    pub fn is_done(&self) -> bool {
        self.have_all_come() && self.server.open() == 0
    }

    /// Ends a wait when this descriptor may be read, if the poll takes it; it takes no file. Says whether it does.
    pub fn watch(&mut self, descriptor: RawFd) -> bool {
        self.sockets.watch(descriptor)
    }

    /// The same again, behind a read of it.
    pub fn watch_again(&mut self, descriptor: RawFd) {
        self.sockets.watch_again(descriptor)
    }

    /// Waits for a sign of a socket, a tenth of a second at most and not at all where a connection has a turn already; takes the
    /// connections that have come; and serves a round, in which no client is heard where more waits for clients than may. Tells what
    /// the wait saw.
    ///
    /// # Errors
    ///
    /// As `Fault` says. Then nothing more is served.
    pub fn turn(&mut self, clock: &impl Clock, buffer: &mut [u8]) -> Result<WaitSigns, Fault>
        requires room { 0 < length buffer.old }
    {
        let patience = self.patience();
        let seen = self.look(clock, patience)?;
        self.take_all()?;
        self.hold_where_full()?;
        self.serve(buffer)?;
        Ok(seen)
    }

    /// Ends all connections. It takes no more of them and reads nothing any more; it writes what is due to them, as far as they take it
    /// within a second; and then each is told to the core as lost, so that the capture tells of its end.
    ///
    /// # Errors
    ///
    /// As `Fault` says.
    pub fn end(&mut self, clock: &impl Clock, buffer: &mut [u8]) -> Result<(), Fault>
        requires room { 0 < length buffer.old }
    {
        self.sockets.notice().hold(true);
        self.write_out(clock, buffer)?;
        self.sockets.notice().end();
        for _ in 0..LAST_ROUNDS {
            if self.server.open() == 0 {
                return Ok(());
            }
            self.server.sign_all()?;
            self.serve(buffer)?;
        }
        Ok(())
    }

    /// Gives the writer of the capture back, and lets all connections go.
    pub fn into_writer(self) -> W
        ensures held { W.contents result ≡ self.server.core.journal.held }
        // What the writer took begins the text of the capture.
        ensures whole { IsWhole self.server.core.journal }
        // No record of it breaks a clause of the law.
        ensures lawful { first_broken self.server.core.journal.rules (history self.server.core.journal.rules self.server.core.journal.records) ≡ None }
        // The router did all that it owes.
        ensures diligent { is_diligent self.server.core.journal.rules self.server.core.journal.records ≡ true }
        // The records of each step stand in order.
        ensures ordered { is_ordered self.server.core.journal.rules self.server.core.journal.records ≡ true }
    {
        let SocketServer {
            server,
            sockets: _,
            limits: _,
            came: _,
            records: _,
            beaten: _,
            is_signed: _,
            looks: _,
            is_full: _,
        } = self;
        server.into_writer()
    }

    /// Serves until all have ended, nothing moves for a tenth of a second, or a second has passed.
    fn write_out(&mut self, clock: &impl Clock, buffer: &mut [u8]) -> Result<(), Fault>
        requires room { 0 < length buffer.old }
    {
        let begun = moment(clock);
        for _ in 0..u32::MAX {
            if self.server.open() == 0 {
                return Ok(());
            }
            let patience = if self.is_signed { 0 } else { LAST_WAIT };
            let seen = self.look(clock, patience)?;
            self.serve(buffer)?;
            let is_late = self.now().saturating_sub(begun) >= LAST_WORDS;
            if is_late || (!seen.any && !self.is_signed) {
                return Ok(());
            }
        }
        Ok(())
    }

    /// How many milliseconds it may wait for a sign.
    fn patience(&self) -> u64 {
        if self.is_signed || self.may_take_one() || self.looks < LOOKS {
            return 0;
        }
        BEAT.saturating_sub(self.now().saturating_sub(self.beaten))
    }

    /// Whether as many connections came as are to be served.
    fn have_all_come(&self) -> bool {
        match self.limits.until {
            Some(until) => self.came >= until,
            None => false,
        }
    }

    /// Whether a connection may wait at the listener, and there is room for it.
    fn may_take_one(&self) -> bool {
        self.sockets.may_accept() && self.server.open() < self.limits.most && !self.have_all_come()
    }

    /// Waits so long for a sign, notes all that there are, and tells the gates the moment.
    fn look(&mut self, clock: &impl Clock, patience: u64) -> Result<WaitSigns, Fault> {
        let seen = self.sockets.wait(Duration::from_millis(patience))?;
        self.looks = if seen.any || self.is_signed {
            0
        } else {
            self.looks.saturating_add(1)
        };
        self.sockets.sign(&mut self.server)?;
        let now = moment(clock);
        self.sockets.notice().tell_moment(now);
        if now.saturating_sub(self.beaten) >= BEAT {
            self.beat(now)?;
        }
        Ok(seen)
    }

    /// All connections have a turn, and what is gone is let go.
    fn beat(&mut self, now: u64) -> Result<(), Halt> {
        self.beaten = now;
        self.sockets.sweep();
        self.sockets.one_may_be_there();
        self.server.sign_all()
    }

    /// Takes the connections that have come, as far as there is room for them.
    fn take_all(&mut self) -> Result<(), Fault> {
        for _ in 0..ARRIVALS {
            if !self.may_take_one() {
                return Ok(());
            }
            if let Some(stream) = self.sockets.accept()? {
                self.take(stream)?;
            }
        }
        Ok(())
    }

    /// Takes a connection. That the poll does not take it, or memory is refused for it, is its own fault alone.
    fn take(&mut self, stream: TcpStream) -> Result<(), Halt> {
        self.came = self.came.saturating_add(1);
        let Ok((key, gate)) = self.sockets.stand(stream) else {
            return Ok(());
        };
        match self.server.admit(gate)? {
            Some(number) => self.sockets.name(key, number),
            None => self.sockets.dismiss(key),
        }
        Ok(())
    }

    /// While more waits for clients than may, none is heard. Once it is less, all have a turn, since signs may have passed.
    fn hold_where_full(&mut self) -> Result<(), Halt> {
        let was_full = self.is_full;
        self.is_full = self.limits.buffer < self.server.waiting();
        self.sockets.notice().hold(self.is_full);
        if was_full && !self.is_full {
            self.server.sign_all()?;
        }
        Ok(())
    }

    /// Serves a round.
    fn serve(&mut self, buffer: &mut [u8]) -> Result<(), Halt>
        requires room { 0 < length buffer.old }
    {
        self.is_signed = self.server.round(buffer)?;
        self.records = self.server.count();
        Ok(())
    }
}
