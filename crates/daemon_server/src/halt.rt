//! Why a server stops.

use capture_form::WriteFault;
use conn_engine::Stop;
use route_items::StepFault;

/// Why a server stops. Nothing is done from then on that its capture does not tell.
#[derive(Clone, Copy, Debug, PartialEq, Eq)]
pub enum Halt {
    /// Memory was refused outside the core.
    Memory,
    /// A turn of a connection stopped so.
    Turn(Stop),
    /// The core did not take an item, as this says.
    Core(StepFault),
    /// The writer failed; it took so many octets of those that waited.
    NotWritten(WriteFault),
    /// It had stopped before.
    Stopped,
}
