//! A client whose stream is fed to an engine, and what came of it.

use crate::exchanged::device::Device;
use conn_engine::EngineFault;
use kit_clients::Chance;
use kit_talks::{EngineReport, Served};
use route_core::Core;
use route_items::StepFault;
use std::alloc::{AllocError, Global};
use std::cell::RefCell;

/// How often the router's frames are taken in the end; each time all that wait are, or 65536 octets.
const DRAINS: usize = 16;

#[derive(Drop)]
pub struct Client<'a> {
    connection: u32,
    device: Device<'a>,
    stream: Vec<u8>,
    /// The most octets of a piece.
    most: usize,
    seen: EngineReport,
}

impl<'a> Client<'a> {
    pub fn new(
        alloc: Global,
        connection: u32,
        core: &'a RefCell<Core>,
        stream: Vec<u8>,
        most: usize,
    ) -> Client<'a> {
        Client {
            connection,
            device: Device::new(alloc, connection, core),
            stream,
            most,
            seen: EngineReport::NOTHING,
        }
    }

    /// Does something: most often it sends a piece, or takes some octets of those that wait.
    ///
    /// # Errors
    ///
    /// Where memory is refused.
    pub fn act(&mut self, chance: &mut Chance) -> Result<(), AllocError> {
        self.look();
        match chance.below(64) {
            0..=39 => {
                let len = chance.below(self.most.saturating_add(1).max(1));
                self.feed(len)
            }
            40..=51 => self.device.engine.refill(),
            52..=62 => self.device.take(chance.below(200)),
            _ if chance.once_in(4) => self.end(),
            _ => Ok(()),
        }
    }

    /// Sends the rest of its stream.
    ///
    /// # Errors
    ///
    /// Where memory is refused.
    pub fn send_all(&mut self) -> Result<(), AllocError> {
        self.look();
        self.feed(usize::MAX)
    }

    /// Takes all that the router has for it, and ends; nothing comes behind that.
    ///
    /// # Errors
    ///
    /// Where memory is refused.
    pub fn finish(&mut self) -> Result<(), AllocError> {
        self.drain()?;
        self.end()?;
        self.end()?;
        self.drain()?;
        self.feed(1)
    }

    /// What came of it.
    pub fn served(self) -> Served {
        let Client {
            connection,
            device,
            stream,
            seen,
            ..
        } = self;
        let (port, given) = device.into_parts();
        let (items, frames) = port.into_told();
        Served {
            connection,
            stream,
            seen,
            items,
            frames,
            given,
        }
    }

    /// Sends the next octets of its stream.
    fn feed(&mut self, len: usize) -> Result<(), AllocError> {
        let was_over = self.device.engine.is_over();
        let piece = next_piece(&self.stream, self.seen.fed, len);
        let count = piece.len();
        let answer = self.device.engine.feed(piece);
        self.seen.was_fed(was_over, count, answer);
        self.look();
        memory_refused(answer)
    }

    /// Takes all that the router has for it.
    fn drain(&mut self) -> Result<(), AllocError> {
        for _ in 0..DRAINS {
            self.device.engine.refill()?;
            self.device.take(usize::MAX)?;
            self.look();
        }
        Ok(())
    }

    /// Its device ends.
    fn end(&mut self) -> Result<(), AllocError> {
        let answer = self.device.engine.gone();
        self.seen.note_end(answer);
        self.look();
        memory_refused(answer)
    }

    /// Looks whether its engine is over.
    fn look(&mut self) {
        let is_over = self.device.engine.is_over();
        let given = self.device.given().len();
        self.seen.look(is_over, given);
    }
}

/// The octets behind so many fed ones, at most so many.
fn next_piece(stream: &[u8], fed: usize, len: usize) -> &[u8] {
    let rest = stream.get(fed..).unwrap_or(&[]);
    &rest[..len.min(rest.len())]
}

/// Whether an engine answers that memory was refused.
fn memory_refused(answer: Result<(), EngineFault>) -> Result<(), AllocError> {
    match answer {
        Err(EngineFault::Memory) | Err(EngineFault::Port(StepFault::Memory | StepFault::Failed)) =>
            Err(AllocError),
        _ => Ok(()),
    }
}
