//! A connection's way to a core that several connections share on one thread.

ghost use Rattle.std.specs.Prelude.{◌≡◌, ℕ, ◌^◌, ◌-◌, ◌<◌, ◌≤◌, IfOk, IfSome};
ghost use Rattle.route_items.specs.Items.{IsShort};

use capture_form::What;
use conn_engine::{Port, PortFault};
use core_exchange::frame_from;
use route_core::Core;
use route_items::Item;
use std::alloc::{AllocError, Global};
use std::cell::RefCell;

/// Hands the items of a connection to a core, and gives the frames that the core wrote to it. It keeps what the core took and
/// what it gave.
#[derive(Drop)]
pub struct CorePort<'a> {
    alloc: Global,
    connection: u32,
    core: &'a RefCell<Core>,
    items: Vec<What>,
    frames: Vec<Vec<u8>>,
}

impl<'a> CorePort<'a> {
    ghost use Rattle.std.specs.Prelude.{◌≡◌};

    /// The way of a connection to a core.
    pub fn new(alloc: Global, connection: u32, core: &'a RefCell<Core>) -> CorePort<'a>
        ensures { result.connection ≡ connection }
    {
        CorePort {
            alloc,
            connection,
            core,
            items: Vec::new(alloc),
            frames: Vec::new(alloc),
        }
    }

    /// The items that the core took, and the frames that were given.
    pub fn into_told(self) -> (Vec<What>, Vec<Vec<u8>>) {
        let CorePort { items, frames, .. } = self;
        (items, frames)
    }
}

impl Port for CorePort<'_> {
    ghost use Rattle.std.specs.Prelude.{map, true};

    ghost connection = { λ port. port.connection };

    ghost items = { λ port. port.items.items };

    ghost frames = { λ port. map (λ frame. frame.items) port.frames.items };

    // What a cell holds is not known between two calls.
    ghost is_idle = { λ port. true };

    /// A core that is in use takes nothing, as where memory is refused. On one thread it never is: nothing that a core
    /// does calls a port.
    fn submit(&mut self, item: Item<'_>) -> Result<(), PortFault> {
        let Ok(entry) = item.to_record(self.alloc) else {
            return Err(PortFault::Memory);
        };
        let Ok(()) = self.items.reserve(1) else {
            return Err(PortFault::Memory);
        };
        match stepped(self.core, item) {
            Ok(()) => {
                self.items.push_reserved(entry.what);
                Ok(())
            }
            Err(fault) => Err(fault),
        }
    }

    fn next_out(&mut self, from: u64, out: &mut Vec<u8>) -> Result<Option<u64>, AllocError> {
        let Some((number, frame)) = found(self.alloc, self.core, self.connection, from)? else {
            return Ok(None);
        };
        self.frames.reserve(1)?;
        out.extend_from_slice(&frame)?;
        self.frames.push_reserved(frame);
        Ok(Some(number))
    }
}

/// Hands an item to a core that is shared. In a function that owns more, what gives the core back would be proved on each way out.
///
/// # Errors
///
/// Why it was not taken.
fn stepped(core: &RefCell<Core>, item: Item<'_>) -> Result<(), PortFault>
    requires { IsShort item }
{
    let Ok(mut core) = core.try_borrow_mut() else {
        return Err(PortFault::Memory);
    };
    match core.step(item) {
        Ok(()) => Ok(()),
        Err(fault) => Err(PortFault::Step(fault)),
    }
}

/// What `copied_from` gives of a core that is shared; nothing where it is in use.
///
/// # Errors
///
/// As those of `copied_from`.
fn found(
    alloc: Global,
    core: &RefCell<Core>,
    connection: u32,
    from: u64,
) -> Result<Option<(u64, Vec<u8>)>, AllocError>
    ensures { IfOk result (λ found. IfSome found (λ out. (from ≤ out.0) × (out.0 < 2 ^ 64 - 1))) }
{
    let Ok(core) = core.try_borrow() else {
        return Ok(None);
    };
    copied_from(alloc, &core, connection, from)
}

/// The first frame that a core wrote to a connection in a record of this number or a later one: the record's number, and a
/// copy of the frame.
///
/// # Errors
///
/// Where the memory for the copy is refused.
fn copied_from(
    alloc: Global,
    core: &Core,
    connection: u32,
    from: u64,
) -> Result<Option<(u64, Vec<u8>)>, AllocError>
    ensures { IfOk result (λ found. IfSome found (λ out. (from ≤ out.0) × (out.0 < 2 ^ 64 - 1))) }
{
    match frame_from(core, connection, from)? {
        Some((number, frame)) => Ok(Some((number, frame.octets().to_vec(alloc)?))),
        None => Ok(None),
    }
}
