//! A router's part, written out.

ghost use Rattle.std.specs.Prelude.{◌≡◌, ◌≤◌, length};

use capture_form::What;
use conn_engine::{Port, PortFault};
use route_items::Item;
use std::alloc::{AllocError, Global};

/// A frame that is given once so many items were taken.
#[derive(Drop)]
pub(crate) struct Cue {
    pub(crate) items: usize,
    pub(crate) frame: Vec<u8>,
}

/// Takes items until one is to be refused, and gives the frames of its cues, one after the other.
#[derive(Drop)]
pub(crate) struct Scripted {
    alloc: Global,
    connection: u32,
    items: Vec<What>,
    cues: Vec<Cue>,
    given: usize,
    /// Which item is refused, and why.
    refusal: Option<(usize, PortFault)>,
    ghost within: { given ≤ length cues.items },
}

impl Scripted {
    /// The end of a connection where nothing was taken or given.
    pub(crate) fn new(
        alloc: Global,
        connection: u32,
        cues: Vec<Cue>,
        refusal: Option<(usize, PortFault)>,
    ) -> Scripted
        ensures { result.connection ≡ connection }
    {
        Scripted {
            alloc,
            connection,
            items: Vec::new(alloc),
            cues,
            given: 0,
            refusal,
        }
    }

    /// The items that it took.
    pub(crate) fn items(&self) -> &[What] {
        &self.items
    }
}

impl Port for Scripted {
    ghost use Rattle.std.specs.Prelude.{map, take, true};

    ghost connection = { λ port. port.connection };

    ghost items = { λ port. port.items.items };

    ghost frames = { λ port. map (λ cue. cue.frame.items) (take port.given port.cues.items) };

    ghost is_idle = { λ port. true };

    fn submit(&mut self, item: Item<'_>) -> Result<(), PortFault> {
        if let Some((place, fault)) = self.refusal
            && place == self.items.len()
        {
            return Err(fault);
        }
        let Ok(entry) = item.to_record(self.alloc) else {
            return Err(PortFault::Memory);
        };
        match self.items.push(entry.what) {
            Ok(()) => Ok(()),
            Err(_) => Err(PortFault::Memory),
        }
    }

    fn next_out(&mut self, from: u64, out: &mut Vec<u8>) -> Result<Option<u64>, AllocError> {
        if from != self.given as u64 || self.given == self.cues.len() {
            return Ok(None);
        }
        let cue = &self.cues[self.given];
        if self.items.len() < cue.items {
            return Ok(None);
        }
        out.extend_from_slice(cue.frame.as_slice())?;
        self.given += 1;
        Ok(Some(from))
    }
}
