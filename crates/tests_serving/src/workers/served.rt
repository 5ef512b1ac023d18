//! Runs of workers over clients in memory.

ghost use Rattle.std.specs.Prelude.{◌<◌, ◌≤◌};

use address_table::Rules;
use audit_core::Verdict;
use capture_form::{Capture, What};
use conn_engine::Gate;
use conn_workers::{ConnReport, RunFault, RunReport, run_workers};
use kit_gates::{AMQP_HEADER, Client, Pair, Told, audited, rules, two_gates};
use std::alloc::{AllocError, Global};
use std::fmt;
use std::sync::Wait;
use std::thread::Threads;

/// What came of a run.
#[derive(Clone, Copy)]
pub enum Served {
    /// What the auditor says of the capture, whether both clients said and took all, and how often a device failed.
    Report(Verdict, bool, u64),
    /// A client was not shut once, or was called behind its end.
    NotAlone,
    /// A device failed, and its connection was opened and is not lost, or the client took something else than the first of
    /// the router's octets.
    NotLost,
    /// The report tells other octets than a client took.
    OtherOctets,
    /// The core refused a step, and the auditor says this of its capture.
    CoreFailed(Verdict),
    /// Another fault of this number.
    Fault(u8),
}

impl fmt::Display for Served {
    fn fmt<W: fmt::Write>(&self, f: &mut fmt::Formatter<W>) -> fmt::Result {
        match self {
            Served::Report(verdict, true, _) => write!(f, "both content, {}", Told(*verdict)),
            Served::Report(verdict, false, _) => write!(f, "not content, {}", Told(*verdict)),
            Served::NotAlone => f.write_str("called behind its end"),
            Served::NotLost => f.write_str("not lost, or other octets"),
            Served::OtherOctets => f.write_str("a report tells other octets"),
            Served::CoreFailed(Verdict::Accepted(_)) => f.write_str("core failed, accepted"),
            Served::CoreFailed(_) => f.write_str("core failed, not accepted"),
            Served::Fault(number) => write!(f, "fault {number}"),
        }
    }
}

/// Serves two clients by so many workers.
///
/// # Errors
///
/// Where memory is refused before the run or behind it.
pub fn serve_two<R: Threads + Wait + Sync>(
    rt: &R,
    alloc: Global,
    workers: usize,
    pair: &Pair,
) -> Result<Served, AllocError>
    requires some { 0 < workers }
    requires few { workers ≤ 64 }
{
    let rules = rules(alloc, pair.rules)?;
    serve_by(rt, alloc, workers, pair, &rules)
}

/// The same by these rules.
///
/// It borrows the rules, as the functions below borrow what came of the run: owned together, their drops would be proved on each way
/// out.
fn serve_by<R: Threads + Wait + Sync>(
    rt: &R,
    alloc: Global,
    workers: usize,
    pair: &Pair,
    rules: &Rules,
) -> Result<Served, AllocError>
    requires some { 0 < workers }
    requires few { workers ≤ 64 }
{
    let gates = two_gates(alloc, pair.first, pair.second)?;
    match run_workers(rt, alloc, gates, workers, rules, pair.limit) {
        Ok(report) => outcome_of(alloc, &report),
        Err(fault) => fault_of(alloc, &fault),
    }
}

/// What came of a run that came to no report.
fn fault_of(alloc: Global, fault: &RunFault) -> Result<Served, AllocError> {
    match fault {
        RunFault::CoreFailed(capture) => Ok(Served::CoreFailed(audited(alloc, capture)?)),
        fault => Ok(Served::Fault(fault.number())),
    }
}

/// What came of a run that came to a report.
fn outcome_of(alloc: Global, report: &RunReport<Client>) -> Result<Served, AllocError> {
    let (mut is_content, mut failures) = (true, 0u64);
    for conn in report.conns.iter() {
        if let Some(wrong) = wrong_of(alloc, &report.capture, conn)? {
            return Ok(wrong);
        }
        is_content &= conn.gate.is_content();
        failures = failures.saturating_add(conn.gate.failures());
    }
    let verdict = audited(alloc, &report.capture)?;
    Ok(Served::Report(verdict, is_content, failures))
}

/// What is wrong of a connection, if something is.
fn wrong_of(
    alloc: Global,
    capture: &Capture,
    conn: &ConnReport<Client>,
) -> Result<Option<Served>, AllocError> {
    if !conn.gate.is_left_alone() {
        return Ok(Some(Served::NotAlone));
    }
    let taken = conn.taken.octets(alloc)?;
    wrong_octets(alloc, capture, conn, taken.as_slice())
}

/// What is wrong of a connection whose client took these octets, as the report tells.
fn wrong_octets(
    alloc: Global,
    capture: &Capture,
    conn: &ConnReport<Client>,
    taken: &[u8],
) -> Result<Option<Served>, AllocError> {
    if !conn.gate.has_taken(taken) {
        return Ok(Some(Served::OtherOctets));
    }
    let has_failed = conn.gate.failures() > 0;
    if has_failed && !(is_lost(conn) && is_front(alloc, capture, conn.conn, taken)?) {
        return Ok(Some(Served::NotLost));
    }
    Ok(None)
}

/// Whether a connection that was opened is lost at last.
fn is_lost(conn: &ConnReport<Client>) -> bool {
    match conn.items.last() {
        None => true,
        Some(last) => matches!(last, What::Lost),
    }
}

/// Whether what the client of the connection took is the header of AMQP and then the frames that the capture tells to it, or
/// the first octets of these.
fn is_front(
    alloc: Global,
    capture: &Capture,
    connection: u32,
    taken: &[u8],
) -> Result<bool, AllocError> {
    let mut octets = Vec::from_slice(alloc, AMQP_HEADER)?;
    for record in capture.records() {
        if let What::Out(frame) = &record.what
            && record.connection == connection
        {
            octets.extend_from_slice(frame.octets())?;
        }
    }
    Ok(octets.as_slice().starts_with(taken))
}
