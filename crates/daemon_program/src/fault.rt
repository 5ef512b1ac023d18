//! Why a router over sockets stops.

ghost use Rattle.std.specs.Prelude.{◌≡◌};
ghost use Rattle.daemon_program.specs.declared.fault.Fault.TheVariants as faults;

use daemon_server::Halt;
use std::io;

/// Why a router over sockets stops.
#[derive(Clone, Copy, Debug)]
pub enum Fault {
    /// The poll or the listener failed, as the system says.
    Device(io::Error),
    /// The server did.
    Server(Halt),
}

impl From<io::Error> for Fault {
    ghost from_gives = { λ error fault. fault ≡ faults.Device error };

    fn from(error: io::Error) -> Fault {
        Fault::Device(error)
    }
}

impl From<Halt> for Fault {
    ghost from_gives = { λ halt fault. fault ≡ faults.Server halt };

    fn from(halt: Halt) -> Fault {
        Fault::Server(halt)
    }
}
