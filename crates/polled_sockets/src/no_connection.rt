//! Why a listener gave no connection.

ghost use Rattle.std.specs.Prelude.{◌≡◌, ◌↔◌};
ghost use Rattle.std.specs.IoError.{error_kind};
ghost use Rattle.std.specs.declared.io.ErrorKind.TheVariants.{WouldBlock};
ghost use Rattle.polled_sockets.specs.declared.no_connection.NoConnection.TheVariants.{NoneWaits};

use std::io;
use std::io::ErrorKind;

/// Why a listener gave no connection.
#[derive(Clone, Copy, Debug, PartialEq, Eq)]
pub enum NoConnection {
    /// What befell a client that is gone already, or the network between: no fault of the listener.
    Client,
    /// None waits.
    NoneWaits,
    /// The system had no descriptor or no memory for one. It goes on waiting.
    Means,
    /// The listener failed.
    Listener,
}

/// Why a listener that answered so gave no connection.
pub fn no_connection_of(error: &io::Error) -> NoConnection
    ensures { (result ≡ NoneWaits) ↔ (error_kind error.now ≡ WouldBlock) }
{
    match error.kind() {
        ErrorKind::WouldBlock => NoConnection::NoneWaits,
        ErrorKind::ConnectionAborted
        | ErrorKind::ConnectionReset
        | ErrorKind::TimedOut
        | ErrorKind::Interrupted
        | ErrorKind::HostUnreachable
        | ErrorKind::NetworkUnreachable
        | ErrorKind::NetworkDown => NoConnection::Client,
        _ => no_connection_by(error.raw_os_error()),
    }
}

/// The system's numbers for no memory left, for no descriptors left, in all and in this process, and for no room for sockets.
const NO_MEMORY: i32 = 12;

const TOO_MANY_IN_ALL: i32 = 23;

const TOO_MANY_HERE: i32 = 24;

const NO_BUFFERS: i32 = 105;

/// Those for what else befalls a client: a rule of the system's does not allow it; its network is not there; its protocol failed, has
/// no such option, or does not support it; and its host is down.
const NOT_ALLOWED: i32 = 1;

const NO_NETWORK: i32 = 64;

const PROTOCOL_FAILED: i32 = 71;

const NO_SUCH_OPTION: i32 = 92;

const NOT_SUPPORTED: i32 = 95;

const HOST_DOWN: i32 = 112;

/// The same of any other error, by its number.
fn no_connection_by(number: Option<i32>) -> NoConnection
    ensures { (result ≡ NoneWaits) → ⊥ }
{
    match number {
        Some(NO_MEMORY | TOO_MANY_IN_ALL | TOO_MANY_HERE | NO_BUFFERS) => NoConnection::Means,
        Some(
            NOT_ALLOWED | NO_NETWORK | PROTOCOL_FAILED | NO_SUCH_OPTION | NOT_SUPPORTED | HOST_DOWN,
        ) => { NoConnection::Client }
        _ => NoConnection::Listener,
    }
}
