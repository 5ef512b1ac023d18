//! The router's core: whatever its clients do, what it writes keeps the law, and it leaves nothing undone.
//!
//! `Core` is a kernel over all that is due, with the capture of all that it wrote, and the frames of each connection in it. The
//! kernel keeps no records: each step gives its own out. Each function is proved once, over any list of what is due. In reading
//! order:
//!
//! - `replies`: the direct answer to what a client did, as records;
//! - `entering`: one record more of a step, which breaks no clause of the law, and which the state follows: what a client did, what
//!   answers it, and what is due behind that;
//! - `group`: the records of a step;
//! - `kernel`: the kernel, item by item;
//! - `router`: the core, item by item.
#![tactic(auto)]

mod entering;
mod group;
mod kernel;
mod replies;
mod router;

pub use kernel::Kernel;
pub use route_items::{Item, StepFault};
pub use route_work::{Dues, Work};
pub use router::CoreOver;

/// The router's core, with all that is due.
pub type Core = CoreOver<Work>;
