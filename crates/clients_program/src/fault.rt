//! Why an exchange was not finished.

use amqp_frames::FrameFault;
use amqp_perf::PerfFault;
use std::alloc::{AllocError, AllocFailed};
use std::error::Error;
use std::io::ErrorKind;
use std::net::SocketAddrV4;
use std::{fmt, io};

/// What a client was to hear of the router next.
#[derive(Clone, Copy, Debug, PartialEq, Eq)]
pub enum Wanted {
    Header,
    Open,
    Begin,
    Attach,
    /// A flow that lets the producer send all its messages.
    Credit,
    /// The message of this number, as it was sent.
    Greeting(u8),
    /// That the message of this number was decided, as the consumer did.
    Outcome(u8),
    Close,
}

/// Why an exchange was not finished.
#[derive(Clone, Copy, Debug, PartialEq, Eq)]
pub enum Fault {
    /// Nobody takes a connection at the address.
    NoRouter(SocketAddrV4),
    /// The connection ended, or failed.
    Broken,
    /// The router said nothing for too long.
    Silent,
    /// It closed the connection, and told an error.
    Closed,
    /// Its octets are no frame.
    NoFrame(FrameFault),
    /// Its frame is of no session that there is.
    Elsewhere,
    /// Its frame has no performative.
    NoPerformative(PerfFault),
    /// It said something else than this.
    Unheard(Wanted),
    /// Memory was refused.
    NoMemory,
    /// A line could not be written.
    NotWritten,
}

impl fmt::Display for Wanted {
    fn fmt<W: fmt::Write>(&self, f: &mut fmt::Formatter<W>) -> fmt::Result {
        match self {
            Wanted::Header => write!(f, "its header"),
            Wanted::Open => write!(f, "its open"),
            Wanted::Begin => write!(f, "its begin"),
            Wanted::Attach => write!(f, "its attach"),
            Wanted::Credit => write!(f, "credit for the producer"),
            Wanted::Greeting(number) => write!(f, "greeting {number}"),
            Wanted::Outcome(number) => write!(f, "the outcome of greeting {number}"),
            Wanted::Close => write!(f, "its close"),
        }
    }
}

/// The line that tells the fault, without its newline.
impl fmt::Display for Fault {
    fn fmt<W: fmt::Write>(&self, f: &mut fmt::Formatter<W>) -> fmt::Result {
        match self {
            Fault::NoRouter(address) => write!(f, "no router at {address}"),
            Fault::Broken => write!(f, "the connection to the router broke"),
            Fault::Silent => write!(f, "the router is silent"),
            Fault::Closed => write!(f, "the router closed the connection with an error"),
            Fault::NoFrame(fault) => write!(f, "the router wrote no frame: {fault}"),
            Fault::Elsewhere => write!(f, "the router wrote on a session that there is not"),
            Fault::NoPerformative(fault) => write!(f, "the router wrote no performative: {fault}"),
            Fault::Unheard(wanted) => write!(f, "the router said something else than {wanted}"),
            Fault::NoMemory => write!(f, "no memory"),
            Fault::NotWritten => write!(f, "a line was not written"),
        }
    }
}

impl Error for Fault {}

impl From<FrameFault> for Fault {
    fn from(fault: FrameFault) -> Fault {
        Fault::NoFrame(fault)
    }
}

impl From<PerfFault> for Fault {
    fn from(fault: PerfFault) -> Fault {
        Fault::NoPerformative(fault)
    }
}

impl From<AllocError> for Fault {
    fn from(_error: AllocError) -> Fault {
        Fault::NoMemory
    }
}

impl<T: Drop> From<AllocFailed<T>> for Fault {
    fn from(_error: AllocFailed<T>) -> Fault {
        Fault::NoMemory
    }
}

/// Of a connection.
impl From<io::Error> for Fault {
    fn from(error: io::Error) -> Fault {
        match error.kind() {
            // A read that waits for longer than it may ends so.
            ErrorKind::WouldBlock | ErrorKind::TimedOut => Fault::Silent,
            _ => Fault::Broken,
        }
    }
}
