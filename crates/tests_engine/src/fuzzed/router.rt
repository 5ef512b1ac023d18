//! A router's part.

ghost use Rattle.std.specs.Prelude.{ℕ};

use capture_form::What;
use conn_engine::{EMPTY_FRAME, Port, PortFault};
use route_items::Item;
use std::alloc::{AllocError, Global};

/// Takes all items, and gives a frame without a body for each.
#[derive(Drop)]
pub struct Router {
    alloc: Global,
    connection: u32,
    items: Vec<What>,
    given: usize,
}

impl Router {
    ghost use Rattle.std.specs.Prelude.{◌≡◌};

    /// The router's end of a connection.
    pub fn new(alloc: Global, connection: u32) -> Router
        ensures { result.connection ≡ connection }
    {
        Router {
            alloc,
            connection,
            items: Vec::new(alloc),
            given: 0,
        }
    }

    /// The items that it took.
    pub fn items(&self) -> &[What] {
        &self.items
    }

    /// How many frames it gave.
    pub fn given(&self) -> usize {
        self.given
    }
}

impl Port for Router {
    ghost use Rattle.std.specs.Prelude.{replicate, true};
    ghost use Rattle.conn_engine.specs.Silence.{empty_frame};

    ghost connection = { λ port. port.connection };

    ghost items = { λ port. port.items.items };

    ghost frames = { λ port. replicate port.given empty_frame };

    ghost is_idle = { λ port. true };

    fn submit(&mut self, item: Item<'_>) -> Result<(), PortFault> {
        let Ok(entry) = item.to_record(self.alloc) else {
            return Err(PortFault::Memory);
        };
        match self.items.push(entry.what) {
            Ok(()) => Ok(()),
            Err(_) => Err(PortFault::Memory),
        }
    }

    fn next_out(&mut self, from: u64, out: &mut Vec<u8>) -> Result<Option<u64>, AllocError> {
        if from != self.given as u64 || self.given >= self.items.len() {
            return Ok(None);
        }
        out.extend_from_slice(&EMPTY_FRAME)?;
        self.given += 1;
        Ok(Some(from))
    }
}
