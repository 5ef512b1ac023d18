//! The poll of a worker's sockets.

use mio::event::Event;
use mio::net::{TcpListener, TcpStream};
use mio::{Events, Interest, Poll, Token, Waker};
use polled_sockets::Signs;
use slab::Slab;
use std::alloc::Global;
use std::io;
use std::net::Net;
use std::sync::Arc;
use std::time::Duration;

/// How many sockets one poll reports at most.
const BATCH: usize = 256;

/// The token of the listener. Sockets have the keys of a slab, which are smaller.
const LISTENER: Token = Token(usize::MAX - 1);

/// The token of the waker.
const WAKER: Token = Token(usize::MAX);

/// What a wait saw.
#[derive(Clone, Copy, Debug, PartialEq, Eq)]
pub(crate) struct PollSigns {
    /// Whether there was any sign.
    pub(crate) any: bool,
    /// Whether there may be a connection to accept.
    pub(crate) at_listener: bool,
}

/// A poll in which a worker's sockets stand by their keys, beside a listener and a waker.
#[derive(Drop)]
pub(crate) struct Watch {
    poll: Poll,
    events: Events,
    signs: Slab<Arc<Signs, Global>>,
}

impl Watch {
    /// A poll in which the listener stands, and its waker.
    ///
    /// # Errors
    ///
    /// Where the system refuses a poll or a waker, or memory is refused.
    pub(crate) fn new(
        net: &impl Net,
        alloc: Global,
        listener: &mut TcpListener,
    ) -> io::Result<(Watch, Waker)> {
        let poll = Poll::new(net)?;
        poll.registry()
            .register(listener, LISTENER, Interest::READABLE)?;
        let waker = Waker::new(poll.registry(), WAKER)?;
        let events = Events::with_capacity(alloc, BATCH)?;
        let watch = Watch {
            poll,
            events,
            signs: Slab::new(alloc),
        };
        Ok((watch, waker))
    }

    /// Takes a socket into the poll, and gives its key and its signs.
    ///
    /// # Errors
    ///
    /// Where the system refuses it, or memory is refused. The poll is then as it was.
    pub(crate) fn admit(
        &mut self,
        alloc: Global,
        stream: &mut TcpStream,
    ) -> io::Result<(usize, Arc<Signs, Global>)> {
        let signs = Arc::new(alloc, Signs::new())?;
        let key = self.signs.insert(Arc::try_clone(&signs)?)?;
        let both = Interest::READABLE | Interest::WRITABLE;
        match self.poll.registry().register(stream, Token(key), both) {
            Ok(()) => Ok((key, signs)),
            Err(error) => {
                self.dismiss(key);
                Err(error)
            }
        }
    }

    /// Frees a key. The socket leaves the poll when it is closed.
    pub(crate) fn dismiss(&mut self, key: usize) {
        let _ = self.signs.try_remove(key);
    }

    /// Waits until there is a sign of a socket, of the listener or of the waker, or the time is up. Notes each sign.
    ///
    /// # Errors
    ///
    /// Where the poll fails.
    pub(crate) fn wait(&mut self, timeout: Duration) -> io::Result<PollSigns> {
        self.poll.poll(&mut self.events, Some(timeout))?;
        for event in self.events.iter() {
            note(&self.signs, event);
        }
        Ok(PollSigns {
            any: !self.events.is_empty(),
            at_listener: self.events.iter().any(|event| event.token() == LISTENER),
        })
    }
}

/// Notes what a poll reports at the socket that it is of. One that was closed meanwhile has no signs.
fn note(signs: &Slab<Arc<Signs, Global>>, event: &Event) {
    if let Some(signs) = signs.get(event.token().0) {
        signs.note(event);
    }
}
