//! A gate that is a socket.

ghost use Rattle.std.specs.Prelude.{◌≡◌};

use crate::notice::Notice;
use conn_engine::{Delivered, Gate, Ready, Taken};
use polled_sockets::{Connection, Moved, count_failure};
use std::alloc::Global;
use std::sync::Arc;

/// So many milliseconds a client may say less than a header and the head of a frame before it is taken to have ended.
const GREETING_TIME: u64 = 10_000;

/// So many octets a header and the head of a frame have.
const GREETING: usize = 16;

/// So many milliseconds octets may wait for a client that takes none of them before its socket is taken to have failed.
const DEAF_TIME: u64 = 60_000;

/// A gate that is the socket of a connection. What a socket delivers and takes is the system's affair, and no clause speaks of it.
#[derive(Drop)]
pub struct SocketGate {
    connection: Connection,
    notice: Arc<Notice, Global>,
    // When it came, in milliseconds.
    since: u64,
    // How many octets it has delivered.
    heard: usize,
    // Since when octets wait of which it takes none.
    deaf_since: Option<u64>,
    ended: bool,
    failed: u64,
}

impl SocketGate {
    /// The gate of a connection that has just come.
    pub(crate) fn new(connection: Connection, notice: Arc<Notice, Global>) -> SocketGate {
        let since = notice.moment();
        SocketGate {
            connection,
            notice,
            since,
            heard: 0,
            deaf_since: None,
            ended: false,
            failed: 0,
        }
    }

    /// Whether the client has said too little for too long.
    fn is_late(&self) -> bool {
        self.heard < GREETING && self.has_passed(self.since, GREETING_TIME)
    }

    /// Whether so many milliseconds have passed since then.
    fn has_passed(&self, since: u64, millis: u64) -> bool {
        self.notice.moment().saturating_sub(since) >= millis
    }

    /// Notes that none of these octets was taken. Says whether the client has taken none for too long, or has to take them now.
    fn note_untaken(&mut self, octets: &[u8]) -> bool
        ensures ended { self.new.ended ≡ self.old.ended }
        ensures failed { self.new.failed ≡ self.old.failed }
    {
        if octets.is_empty() {
            self.deaf_since = None;
            return false;
        }
        let since = self.deaf_since.unwrap_or(self.notice.moment());
        self.deaf_since = Some(since);
        self.notice.is_over() || self.has_passed(since, DEAF_TIME)
    }
}

impl Gate for SocketGate {
    ghost use Rattle.std.specs.Prelude.{⊤};

    ghost delivered = { λ gate octets. ⊤ };

    ghost took = { λ gate octets. ⊤ };

    ghost has_ended = { λ gate. gate.ended };

    ghost failed = { λ gate. gate.failed };

    ghost follows = { λ gate later. ⊤ };

    fn read(&mut self, buffer: &mut [u8]) -> Delivered {
        if self.notice.is_over() {
            self.ended = true;
            return Delivered::End;
        }
        if self.notice.is_held() {
            return Delivered::Nothing;
        }
        match self.connection.read(buffer) {
            Moved::Octets(n) => {
                self.heard = self.heard.saturating_add(n);
                self.notice.count_moved(n);
                Delivered::Octets(n)
            }
            Moved::Nothing => {
                if self.is_late() {
                    self.ended = true;
                    return Delivered::End;
                }
                Delivered::Nothing
            }
            Moved::End => {
                self.ended = true;
                Delivered::End
            }
            Moved::Fault => {
                self.ended = true;
                if count_failure(&mut self.failed) {
                    Delivered::Fault
                } else {
                    Delivered::End
                }
            }
        }
    }

    fn write(&mut self, octets: &[u8]) -> Taken {
        let has_failed = match self.connection.write(octets) {
            Moved::Octets(n) => {
                self.deaf_since = None;
                self.notice.count_moved(n);
                return Taken::Took(n);
            }
            Moved::Nothing | Moved::End => self.note_untaken(octets),
            Moved::Fault => true,
        };
        if !has_failed || !count_failure(&mut self.failed) {
            return Taken::Nothing;
        }
        self.ended = true;
        Taken::Fault
    }

    /// It does not wait: the owner of all gates does.
    fn ready(&mut self) -> Ready {
        Ready::No
    }

    fn shut(&mut self) {
        self.connection.shut();
    }

    fn failures(&self) -> u64 {
        self.failed
    }

    fn now(&self) -> u64 {
        self.notice.moment()
    }

    ghost follows_itself = { λ gate. tt };

    ghost follows_on = { λ first second third before then. tt };
}
