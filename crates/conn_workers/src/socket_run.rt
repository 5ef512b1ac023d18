//! A run over sockets.

ghost use Rattle.std.specs.Prelude.{◌≡◌, ◌<◌, ◌≤◌, ◌↔◌, None, IfOk, IfErr};
ghost use Rattle.std.specs.IoError.{error_kind, raw_os_error};
ghost use Rattle.std.specs.declared.io.ErrorKind.TheVariants.{OutOfMemory};
ghost use Rattle.conn_workers.specs.declared.report.RunFault.TheVariants.{Memory};
ghost use Rattle.conn_workers.specs.Faults.{Brings};
ghost use Rattle.conn_workers.specs.ServedRuns.{IsServedRun};

use crate::{ConnectionSlot, RunFault, RunReport, open_slots, run_workers};
use address_table::Rules;
use std::alloc::Global;
use std::io;
use std::io::ErrorKind;
use std::net::{Net, SocketAddr};
use std::sync::Wait;
use std::thread::Threads;
use std::time::Clock;

#[tactic(auto, using(crate::proofs::Listing::served_run))]
/// Serves so many connections at an address to their ends, by so many workers, over one core of these rules that takes
/// items while it has fewer than `limit` records.
///
/// No clause says what a socket delivers or takes: what is reported of each connection is compared with the one capture.
///
/// # Errors
///
/// As `RunFault` says. `Device` too where the address can not be listened at, or the system refuses a poll.
pub fn serve<'a, R: Threads + Wait + Net + Clock + Sync>(
    rt: &'a R,
    alloc: Global,
    addr: SocketAddr,
    workers: usize,
    connections: u32,
    rules: &Rules,
    limit: u64,
) -> Result<RunReport<ConnectionSlot<&'a R>>, RunFault>
    requires { (0 < workers) × (workers ≤ 64) }
    ensures run { IfOk result (λ report. IsServedRun rules.now connections report.capture report.conns.items) }
    ensures fault { IfErr result Brings }
{
    match open_slots(rt, alloc, addr, workers, connections) {
        Ok(slots) => run_workers(rt, alloc, slots, workers, rules, limit),
        Err(error) => Err(fault_of(&error)),
    }
}

/// Why there are no slots: memory was refused, or a device.
fn fault_of(error: &io::Error) -> RunFault
    ensures brings { Brings result }
    ensures memory { (result ≡ Memory) ↔ ((error_kind error.now ≡ OutOfMemory) × (raw_os_error error.now ≡ None)) }
{
    // An error with a number of the system's is no refused growth, whatever its kind.
    if error.kind() == ErrorKind::OutOfMemory && error.raw_os_error().is_none() {
        RunFault::Memory
    } else {
        RunFault::Device
    }
}
