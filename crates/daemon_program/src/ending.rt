//! How a run ended whose router stopped.

ghost use Rattle.std.specs.Prelude.{◌≡◌, ◌⊎◌, ◌↔◌};
ghost use Rattle.program_ends.specs.Growth.{IsRefusedGrowth};
ghost use Rattle.router_words.specs.declared.run_end.RunEnd.TheVariants.{NoMemory};
ghost use Rattle.daemon_program.specs.Endings.{outcome_after, outcome_of_halt};

use crate::Fault;
use conn_engine::Stop;
use daemon_server::Halt;
use program_ends::is_refused_growth;
use router_words::RunEnd;
use std::io;

/// How a run ended whose router stopped so, when its capture had so many records.
pub(crate) fn outcome_of(fault: &Fault, records: u64) -> RunEnd
    ensures { result ≡ outcome_after fault.now records }
{
    match fault {
        Fault::Device(_) => RunEnd::DeviceFault,
        Fault::Server(halt) => outcome_of_halt(*halt, records),
    }
}

/// How a run ended whose server stopped so.
pub(crate) fn outcome_of_halt(halt: Halt, records: u64) -> RunEnd
    ensures { result ≡ outcome_of_halt halt records }
{
    match halt {
        Halt::Memory | Halt::Turn(Stop::Memory) => RunEnd::NoMemory,
        Halt::Turn(Stop::Device) => RunEnd::DeviceFault,
        Halt::NotWritten(_) => RunEnd::NotWritten,
        Halt::Turn(Stop::Core) | Halt::Core(_) | Halt::Stopped => RunEnd::CoreFailed { records },
    }
}

/// This outcome, where the system refused something; or that memory was refused.
pub(crate) fn outcome_refused(error: &io::Error, outcome: RunEnd) -> RunEnd
    ensures memory { IsRefusedGrowth error.now → result ≡ NoMemory }
    ensures other { ¬ (IsRefusedGrowth error.now) → result ≡ outcome }
{
    if is_refused_growth(error) {
        RunEnd::NoMemory
    } else {
        outcome
    }
}
