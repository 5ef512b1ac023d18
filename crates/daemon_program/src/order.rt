//! What standard input says.

ghost use Rattle.std.specs.Prelude.{◌≡◌};
ghost use Rattle.daemon_program.specs.Orders.{behind, has_quit};

use std::io::{ErrorKind, Read};

/// A line of standard input so far: as far as it is the word `quit`, or another.
#[derive(Clone, Copy, Debug, PartialEq, Eq)]
pub(crate) enum Order {
    Begun,
    Q,
    Qu,
    Qui,
    Quit,
    Other,
}

impl Order {
    /// Reads of standard input once. Says whether the router is to end: standard input has ended or failed, or a line of it is
    /// `quit`.
    pub(crate) fn hear<I: Read>(&mut self, input: &mut I) -> bool {
        let mut piece = [0u8; 256];
        match input.read(&mut piece) {
            Ok(0) => true,
            Ok(count) => self.take(&piece[..count]),
            Err(error) => !matches!(error.kind(), ErrorKind::Interrupted | ErrorKind::WouldBlock),
        }
    }

    /// Takes octets of standard input. Says whether a line that ends among them is `quit`.
    fn take(&mut self, octets: &[u8]) -> bool
        ensures { result ≡ has_quit self.old octets.now }
    {
        for octet in octets {
            if *octet == b'\n' && *self == Order::Quit {
                return true;
            }
            *self = self.behind(*octet);
        }
        false
    }

    /// The line behind one octet more.
    fn behind(self, octet: u8) -> Order
        ensures { result ≡ behind self octet }
    {
        match (self, octet) {
            (_, b'\n') => Order::Begun,
            (Order::Begun, b'q') => Order::Q,
            (Order::Q, b'u') => Order::Qu,
            (Order::Qu, b'i') => Order::Qui,
            (Order::Qui, b't') => Order::Quit,
            (Order::Quit, b'\r') => Order::Quit,
            _ => Order::Other,
        }
    }
}
