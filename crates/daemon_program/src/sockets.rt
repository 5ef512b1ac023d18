//! The sockets of a router, in one poll.

use crate::gate::SocketGate;
use crate::notice::Notice;
use daemon_server::{Dues, Halt, Server};
use mio::event::Event;
use mio::net::{TcpListener, TcpStream};
use mio::unix::SourceFd;
use mio::{Events, Interest, Poll, Token};
use polled_sockets::{Connection, NoConnection, Signs, no_connection_of};
use slab::Slab;
use std::alloc::Global;
use std::io;
use std::io::Write;
use std::net::{Net, SocketAddr};
use std::os::fd::RawFd;
use std::sync::Arc;
use std::time::Duration;

/// How many sockets one poll reports at most.
const BATCH: usize = 1024;

/// The token of the listener. Sockets have the keys of a slab, which are smaller.
const LISTENER: Token = Token(usize::MAX);

/// The token of what is watched beside it.
const WATCHED: Token = Token(usize::MAX - 1);

/// What a wait saw.
#[derive(Clone, Copy, Debug, PartialEq, Eq)]
pub struct WaitSigns {
    /// Whether there was any sign.
    pub any: bool,
    /// Whether what is watched beside the sockets may be read.
    pub watched: bool,
}

/// A socket in the poll: the number of its connection, once it has one, and what is known of it since it was polled.
#[derive(Drop)]
struct PolledSocket {
    number: Option<u32>,
    signs: Arc<Signs, Global>,
}

/// A poll in which the sockets of connections stand by their keys, beside a listener.
#[derive(Drop)]
pub(crate) struct Sockets {
    alloc: Global,
    poll: Poll,
    events: Events,
    listener: TcpListener,
    sockets: Slab<PolledSocket>,
    notice: Arc<Notice, Global>,
    /// Whether a connection may wait at the listener.
    may_accept: bool,
}

impl Sockets {
    /// A poll in which the listener stands.
    ///
    /// # Errors
    ///
    /// Where the system refuses a poll, or memory is refused.
    pub(crate) fn new(
        net: &impl Net,
        alloc: Global,
        mut listener: TcpListener,
    ) -> io::Result<Sockets> {
        let poll = Poll::new(net)?;
        poll.registry()
            .register(&mut listener, LISTENER, Interest::READABLE)?;
        let events = Events::with_capacity(alloc, BATCH)?;
        let notice = Arc::new(alloc, Notice::new())?;
        Ok(Sockets {
            alloc,
            poll,
            events,
            listener,
            sockets: Slab::new(alloc),
            notice,
            may_accept: true,
        })
    }

    /// What all gates are told, lent.
    pub(crate) fn notice(&self) -> &Notice {
        &self.notice
    }

    /// Where it listens.
    ///
    /// # Errors
    ///
    /// Where the system does not say.
    pub(crate) fn address(&self) -> io::Result<SocketAddr> {
        self.listener.local_addr()
    }

    /// Whether a connection may wait at the listener.
    pub(crate) fn may_accept(&self) -> bool {
        self.may_accept
    }

    /// One may wait there, of which the poll does not tell: a descriptor may be free again.
    pub(crate) fn one_may_be_there(&mut self) {
        self.may_accept = true;
    }

    /// Has the poll tell when this may be read, and whether it can.
    pub(crate) fn watch(&self, descriptor: RawFd) -> bool {
        let mut source = SourceFd(&descriptor);
        self.poll
            .registry()
            .register(&mut source, WATCHED, Interest::READABLE)
            .is_ok()
    }

    /// Has it tell so again, where more is left to be read.
    pub(crate) fn watch_again(&self, descriptor: RawFd) {
        let mut source = SourceFd(&descriptor);
        // It stands in the poll.
        let _ = self
            .poll
            .registry()
            .reregister(&mut source, WATCHED, Interest::READABLE);
    }

    /// Waits until there is a sign of a socket, of the listener or of what is watched, or the time is up.
    ///
    /// # Errors
    ///
    /// Where the poll fails.
    pub(crate) fn wait(&mut self, patience: Duration) -> io::Result<WaitSigns> {
        self.poll.poll(&mut self.events, Some(patience))?;
        if self.events.iter().any(|event| event.token() == LISTENER) {
            self.may_accept = true;
        }
        Ok(WaitSigns {
            any: !self.events.is_empty(),
            watched: self.events.iter().any(|event| event.token() == WATCHED),
        })
    }

    /// Notes each sign of the last wait, and gives its connection a turn.
    ///
    /// # Errors
    ///
    /// As `Server::sign`.
    pub(crate) fn sign<D: Dues + Drop, W: Write + Drop>(
        &self,
        server: &mut Server<D, W, SocketGate>,
    ) -> Result<(), Halt> {
        for event in self.events.iter() {
            if let Some(number) = note(&self.sockets, event) {
                server.sign(number)?;
            }
        }
        Ok(())
    }

    /// The next connection that waits at the listener, if one does.
    ///
    /// # Errors
    ///
    /// Where the listener fails.
    pub(crate) fn accept(&mut self) -> io::Result<Option<TcpStream>> {
        let error = match self.listener.accept() {
            Ok((stream, _)) => return Ok(Some(stream)),
            Err(error) => error,
        };
        match no_connection_of(&error) {
            NoConnection::Client => Ok(None),
            NoConnection::NoneWaits | NoConnection::Means => {
                self.may_accept = false;
                Ok(None)
            }
            NoConnection::Listener => Err(error),
        }
    }

    /// Takes a socket into the poll: its key there, and a gate of it.
    ///
    /// # Errors
    ///
    /// Where the system refuses it, or memory is refused; the socket is let go then.
    pub(crate) fn stand(&mut self, mut stream: TcpStream) -> io::Result<(usize, SocketGate)> {
        // Small frames are not to wait for one another.
        let _ = stream.set_nodelay(true);
        let notice = Arc::try_clone(&self.notice)?;
        let signs = Arc::new(self.alloc, Signs::new())?;
        let key = self.sockets.insert(PolledSocket {
            number: None,
            signs: Arc::try_clone(&signs)?,
        })?;
        let both = Interest::READABLE | Interest::WRITABLE;
        match self.poll.registry().register(&mut stream, Token(key), both) {
            Ok(()) => {
                let connection = Connection::new(stream, key, signs);
                Ok((key, SocketGate::new(connection, notice)))
            }
            Err(error) => {
                self.dismiss(key);
                Err(error)
            }
        }
    }

    /// The socket of this key is that of the connection of this number.
    pub(crate) fn name(&mut self, key: usize, number: u32) {
        if let Some(socket) = self.sockets.get_mut(key) {
            socket.number = Some(number);
        }
    }

    /// Frees a key. The socket leaves the poll when it is closed.
    pub(crate) fn dismiss(&mut self, key: usize) {
        let _ = self.sockets.try_remove(key);
    }

    /// Frees the keys of sockets that are gone.
    pub(crate) fn sweep(&mut self) {
        self.sockets
            .retain(|_key, socket| Arc::strong_count(&socket.signs) > 1);
    }
}

/// Notes what a poll reports at the socket that it is of, and tells the number of its connection. One that is gone has none.
fn note(sockets: &Slab<PolledSocket>, event: &Event) -> Option<u32> {
    let socket = sockets.get(event.token().0)?;
    socket.signs.note(event);
    socket.number
}
