//! Whether a fault of the system's is refused memory.

ghost use Rattle.std.specs.Prelude.{◌↔◌, IsTrue};
ghost use Rattle.program_ends.specs.Growth.{IsRefusedGrowth};

use std::io;
use std::io::ErrorKind;

/// Whether the program was refused memory itself. The system's own want of memory has a number of the system's, and is a
/// fault like any other of it.
pub fn is_refused_growth(error: &io::Error) -> bool
    ensures { IsTrue result ↔ IsRefusedGrowth error.now }
{
    error.kind() == ErrorKind::OutOfMemory && error.raw_os_error().is_none()
}
