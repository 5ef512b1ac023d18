//! A whole run.

ghost use Rattle.std.specs.Prelude.{◌≡◌, ◌<◌, ◌≤◌, ◌+◌, ◌^◌, [], length, IfOk, IfErr, Err, MatchOption, OnOk, vec_len, All};
ghost use Rattle.conn_engine.specs.declared.serving.Stop.TheVariants as stops;
ghost use Rattle.conn_workers.specs.Faults.{Brings, first_stop};
ghost use Rattle.conn_workers.specs.Reports.{IsRun};

use crate::alarm::Alarm;
use crate::done::Done;
use crate::line::{Origin, Start};
use crate::report::{RunFault, RunReport};
use crate::work::work;
use address_table::Rules;
use conn_engine::{Gate, Stop};
use core_exchange::Exchange;
use std::alloc::{AllocError, Global};
use std::marker::Brand;
use std::sync::Wait;
use std::thread::{Threads, map_vec};

impl<G> Origin<G> for Brand {
    ghost gates = { [] };
}

mod parts;

use parts::{apart_all, together};

/// Serves the gates to their ends by so many threads, over one core of these rules that takes items while it has fewer than
/// `limit` records. Gate k is connection k, of worker k modulo `workers`. Where a worker stops, the others do too. Where the
/// system makes no thread, the gates of one worker are served only after those of another have ended, so that clients that
/// wait for each other may wait for good.
///
/// No gate was called before. Each worker owns its gates and engines, and takes the lock of the core once for all frames of a
/// read, and once for those that it is to write; it never holds it while it reads, writes or waits. A gate whose read or write
/// fails is no fault of the run: its connection is lost. One whose `ready` answers `Device` ends the run.
///
/// # Errors
///
/// As `RunFault` says.
pub fn run_workers<G: Gate + Drop + Send, R: Threads + Wait + Sync>(
    rt: &R,
    alloc: Global,
    gates: Vec<G>,
    workers: usize,
    rules: &Rules,
    limit: u64,
) -> Result<RunReport<G>, RunFault>
    requires workers { (0 < workers) × (workers ≤ 64) }
    requires gates { vec_len gates < 2 ^ 32 }
    requires fresh { All (λ gate. G.delivered gate [] × G.took gate []) gates.items }
    ensures run { IfOk result (λ report. IsRun gates.items G.follows G.delivered G.took G.has_ended rules.now report.capture report.conns.items) }
    ensures fault { IfErr result Brings }
{
    run_named::<G, R, Brand>(rt, alloc, gates, workers, rules, limit)
}

/// The same, where the gates are named, so that what a worker hands back can speak of them.
fn run_named<G: Gate + Drop + Send, R: Threads + Wait + Sync, J: Origin<G> + Send + Sync>(
    rt: &R,
    alloc: Global,
    gates: Vec<G>,
    workers: usize,
    rules: &Rules,
    limit: u64,
) -> Result<RunReport<G>, RunFault>
    requires named { gates.items ≡ J.gates }
    requires workers { (0 < workers) × (workers ≤ 64) }
    requires gates { vec_len gates < 2 ^ 32 }
    requires fresh { All (λ gate. G.delivered gate [] × G.took gate []) gates.items }
    ensures run { IfOk result (λ report. IsRun gates.items G.follows G.delivered G.took G.has_ended rules.now report.capture report.conns.items) }
    ensures fault { IfErr result Brings }
{
    let count = gates.len();
    let Ok(jobs) = deal::<G, J>(alloc, gates, workers) else {
        return Err(RunFault::Memory);
    };
    let Ok(exchange) = Exchange::new(rt, alloc, rules, limit) else {
        return Err(RunFault::Memory);
    };
    let alarm = Alarm::new();
    let Ok(results) = map_vec(
        rt,
        jobs,
        &|starts| { work(rt, alloc, &exchange, &alarm, starts) },
    ) else {
        return Err(RunFault::Memory);
    };
    match gather(alloc, results) {
        Ok(dones) => report(alloc, exchange, dones, count),
        Err(stop) => Err(fault_of(stop, exchange)),
    }
}

/// The gates of each worker, in falling order of their numbers.
fn deal<G: Gate + Drop, J: Origin<G>>(
    alloc: Global,
    mut gates: Vec<G>,
    workers: usize,
) -> Result<Vec<Vec<Start<G, J>>>, AllocError>
    requires named { gates.items ≡ J.gates }
    requires workers { 0 < workers }
    requires gates { vec_len gates < 2 ^ 32 }
    requires fresh { All (λ gate. G.delivered gate [] × G.took gate []) gates.items }
{
    let mut jobs = no_jobs(alloc, workers)?;
    while let Some(gate) = gates.pop() {
        let conn = gates.len() as u32;
        jobs[conn as usize % workers].push(Start::new(conn, gate))?;
    }
    Ok(jobs)
}

fn no_jobs<G: Gate + Drop, J: Origin<G>>(
    alloc: Global,
    workers: usize,
) -> Result<Vec<Vec<Start<G, J>>>, AllocError>
    ensures { IfOk result (λ jobs. vec_len jobs ≡ workers) }
{
    let mut jobs = Vec::new(alloc);
    for _ in 0..workers {
        jobs.push(Vec::new(alloc))?;
    }
    Ok(jobs)
}

/// All that the workers have done, in the order of the connections. One that was called off has done nothing.
///
/// # Errors
///
/// Why the first of the workers that stopped for a reason of their own did; or `Memory`, where none did.
fn gather<G: Gate + Drop, J: Origin<G>>(
    alloc: Global,
    results: Vec<Result<Option<Vec<Done<G, J>>>, Stop>>,
) -> Result<Vec<Done<G, J>>, Stop>
    ensures { MatchOption (first_stop results.items) (IfErr result (λ stop. stop ≡ stops.Memory)) (λ stop. result ≡ Err stop) }
{
    match first_stop(&results) {
        Some(stop) => Err(stop),
        None => in_order(alloc, results),
    }
}

/// All that the workers have done, of whom none stopped for a reason of its own, in the order of the connections.
///
/// # Errors
///
/// `Memory`.
fn in_order<G: Gate + Drop, J: Origin<G>>(
    alloc: Global,
    results: Vec<Result<Option<Vec<Done<G, J>>>, Stop>>,
) -> Result<Vec<Done<G, J>>, Stop>
    ensures { IfErr result (λ stop. stop ≡ stops.Memory) }
{
    let mut all = Vec::new(alloc);
    for served in results {
        let Ok(Some(mut some)) = served else {
            continue;
        };
        let Ok(()) = all.append(&mut some) else {
            return Err(Stop::Memory);
        };
    }
    match all.sort_by_key(|done| done.conn()) {
        Ok(()) => Ok(all),
        Err(_) => Err(Stop::Memory),
    }
}

/// Why the first worker that stopped for a reason of its own did, if one did.
fn first_stop<T>(results: &[Result<T, Stop>]) -> Option<Stop>
    ensures { result ≡ first_stop results.now }
{
    for result in results {
        if let Err(stop) = result {
            return Some(*stop);
        }
    }
    None
}

/// Compares what the ports took and gave with the capture, and reports on each connection.
fn report<G: Gate + Drop, R: Wait + Drop, J: Origin<G>>(
    alloc: Global,
    exchange: Exchange<R>,
    dones: Vec<Done<G, J>>,
    count: usize,
) -> Result<RunReport<G>, RunFault>
    requires { count ≡ length J.gates }
    ensures run { IfOk result (λ report. IsRun J.gates G.follows G.delivered G.took G.has_ended exchange report.capture report.conns.items) }
    ensures fault { IfErr result Brings }
{
    let Ok((parts, seats)) = apart_all(alloc, dones) else {
        return Err(RunFault::Memory);
    };
    if seats.len() != count {
        return Err(RunFault::Mismatch);
    }
    let Ok((capture, seats)) = exchange.close(seats) else {
        return Err(RunFault::Mismatch);
    };
    let Ok(conns) = together(alloc, &capture, parts, seats) else {
        return Err(RunFault::Memory);
    };
    Ok(RunReport { capture, conns })
}

/// What a worker's stop is to the run.
fn fault_of<R: Wait + Drop>(stop: Stop, exchange: Exchange<R>) -> RunFault
    ensures { Brings result }
{
    match stop {
        Stop::Memory => RunFault::Memory,
        Stop::Device => RunFault::Device,
        Stop::Core => RunFault::CoreFailed(exchange.into_capture()),
    }
}
