//! What the command line asks for.

ghost use Rattle.std.specs.Prelude.{◌<◌, ◌≤◌, IfSome};

use std::net::SocketAddrV4;

/// The most messages of an exchange: fewer than the 250 that a router takes from a producer before any is decided, and
/// than the transfers that it takes of a session without a further word.
pub const MOST_GREETINGS: u8 = 200;

/// How many seconds the clients try to connect, where no word says it.
pub const USUAL_WAIT: u16 = 5;

/// The line that tells how the words are to be.
pub const USAGE: &str =
    "usage: loopback_clients ADDRESS COUNT [SECONDS], as in loopback_clients 127.0.0.1:5672 10; COUNT is 1 to 200";

/// An exchange that words ask for.
#[derive(Clone, Copy, Debug, PartialEq, Eq)]
pub struct Task {
    /// Where the router is.
    pub address: SocketAddrV4,
    /// How many messages are to be sent.
    pub count: u8,
    /// How many seconds a router that does not listen yet is waited for.
    pub wait: u16,
}

impl Task {
    /// The exchange that the words ask for, if they do.
    pub fn from_words(words: &[String]) -> Option<Task>
        ensures { IfSome result (λ task. (0 < task.count) × (task.count ≤ MOST_GREETINGS)) }
    {
        let (address, count, wait) = match words {
            [address, count] => (address, count, USUAL_WAIT),
            [address, count, wait] => (address, count, wait.as_str().parse::<u16>().ok()?),
            _ => return None,
        };
        let address = address.as_str().parse::<SocketAddrV4>().ok()?;
        let count = count.as_str().parse::<u8>().ok()?;
        if count == 0 || count > MOST_GREETINGS {
            return None;
        }
        Some(Task {
            address,
            count,
            wait,
        })
    }
}
