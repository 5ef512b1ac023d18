//! Octets that wait to be given.

ghost use Rattle.std.specs.Prelude.{◌≡◌, ◌≤◌, ◌++◌, [], true, length, drop, IfNone, IfOk, OnOk, OnErr};
ghost use Rattle.conn_engine.specs.Giving.{GivesNext};

use crate::port::Port;
use std::alloc::{AllocError, Global};
use std::marker::Model;

/// Octets in the order in which they were put, of which the first ones are given first.
///
/// Those that were given are let go once they are half of what is kept or more, so that this takes time by how many are
/// given, however few at once.
#[derive(Debug, Drop)]
pub struct Output {
    kept: Vec<u8>,
    given: usize,
}

impl Model for Output {
    ghost use Rattle.std.specs.Prelude.{ℕ, List, ◌≤◌, length, drop};

    ghost Value = { List ℕ };

    ghost view = { λ output. drop output.given output.kept.items };

    ghost invariant = { λ output. output.given ≤ length output.kept.items };
}

impl Output {
    /// Nothing waits.
    pub fn new(alloc: Global) -> Output
        ensures { result ≡ [] }
    {
        Output {
            kept: Vec::new(alloc),
            given: 0,
        }
    }

    /// Puts octets behind those that wait.
    ///
    /// # Errors
    ///
    /// Where the memory for them is refused; nothing has changed then.
    pub fn put(&mut self, octets: &[u8]) -> Result<(), AllocError>
        ensures ok { OnOk result (self.new ≡ self.old ++ octets.now) }
        ensures err { OnErr result (self.new ≡ self.old) }
    {
        self.kept.extend_from_slice(octets)
    }

    /// Takes the next frame of a port from a record's number on, and answers the number of its record.
    ///
    /// # Errors
    ///
    /// Where the memory for it is refused; nothing has changed then.
    pub fn take_from<P: Port>(&mut self, port: &mut P, from: u64) -> Result<Option<u64>, AllocError>
        ensures ok { IfOk result (GivesNext (P.frames port.old) (P.frames port.new) self.old self.new from) }
        ensures none { IfOk result (λ number. IfNone number (P.is_idle port.new ≡ true)) }
        ensures err { OnErr result ((P.frames port.new ≡ P.frames port.old) × (self.new ≡ self.old)) }
        ensures items { P.items port.new ≡ P.items port.old }
        ensures connection { P.connection port.new ≡ P.connection port.old }
    {
        port.next_out(from, &mut self.kept)
    }

    /// What waits, lent.
    pub fn waiting(&self) -> &[u8]
        ensures { result.now ≡ self.now }
    {
        &self.kept[self.given..]
    }

    /// The first `n` octets were given.
    pub fn gave(&mut self, n: usize)
        requires { n ≤ length self.old }
        ensures { self.new ≡ drop n self.old }
    {
        self.given += n;
        if self.kept.len() - self.given <= self.given {
            self.let_go();
        }
    }

    /// Lets go of the octets that were given.
    fn let_go(&mut self)
        ensures { self.new ≡ self.old }
    {
        if self.given == self.kept.len() {
            self.kept.clear();
            self.given = 0;
        } else if let Ok(rest) = self.kept.split_off(self.given) {
            self.kept = rest;
            self.given = 0;
        }
    }
}
