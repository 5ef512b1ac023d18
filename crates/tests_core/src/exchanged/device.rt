//! The device of a client: an engine over a core that is shared, and the octets that it gave.

ghost use Rattle.std.specs.Prelude.{◌<◌};

use crate::exchanged::port::CorePort;
use conn_engine::{Engine, EngineFault};
use route_core::Core;
use std::alloc::{AllocError, Global};
use std::cell::RefCell;

pub struct Device<'a> {
    pub engine: Engine<CorePort<'a>>,
    given: Vec<u8>,
}

// Written out, and not derived, so that where one is let go the prover need not go through all that it owns.
impl Drop for Device<'_> {
    fn drop(self) {
        let Device {
            engine: _,
            given: _,
        } = self;
    }
}

impl<'a> Device<'a> {
    /// A device of which no octet has come yet.
    pub fn new(alloc: Global, connection: u32, core: &'a RefCell<Core>) -> Device<'a> {
        Device {
            engine: Engine::new(alloc, connection, CorePort::new(alloc, connection, core)),
            given: Vec::new(alloc),
        }
    }

    /// Delivers octets in pieces of this length.
    ///
    /// # Errors
    ///
    /// What the engine answers first that is an error.
    pub fn feed_pieces(&mut self, octets: &[u8], most: usize) -> Result<(), EngineFault>
        requires { 0 < most }
    {
        for piece in octets.chunks(most) {
            self.engine.feed(piece)?;
        }
        Ok(())
    }

    /// Takes so many of the octets that wait, or all where these are fewer.
    ///
    /// # Errors
    ///
    /// Where memory is refused.
    pub fn take(&mut self, most: usize) -> Result<(), AllocError> {
        let len = most.min(self.engine.give().len());
        self.given.extend_from_slice(&self.engine.give()[..len])?;
        self.engine.gave(len);
        Ok(())
    }

    /// Takes all octets that wait, in pieces of this length.
    ///
    /// # Errors
    ///
    /// Where memory is refused.
    pub fn take_pieces(&mut self, most: usize) -> Result<(), AllocError>
        requires { 0 < most }
    {
        for _ in 0..self.engine.give().len().div_ceil(most) {
            self.take(most)?;
        }
        Ok(())
    }

    /// The octets that were taken.
    pub fn given(&self) -> &[u8] {
        &self.given
    }

    /// Whether the octets that were taken are just these texts, one behind the other.
    pub fn gave(&self, texts: &[&[u8]]) -> bool {
        let mut rest = self.given();
        for text in texts {
            match rest.strip_prefix(text) {
                Some(behind) => rest = behind,
                None => return false,
            }
        }
        rest.is_empty()
    }

    /// The port, and the octets that were taken.
    pub fn into_parts(self) -> (CorePort<'a>, Vec<u8>) {
        let Device { engine, given } = self;
        (engine.into_port(), given)
    }
}
