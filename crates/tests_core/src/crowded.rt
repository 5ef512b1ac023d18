//! Lets the core serve a crowd: many consumers of one balanced address.
//!
//! The auditor has to accept the capture, and a plain scan of its records has to find that each delivery which begins carries the
//! earliest one that waits, and goes to the consumer that is to get it. `README.md` says what the clients do.

use crate::cores::{LIMIT, core_of_rule, done};
use crate::{WORDS_FAULT, WRONG};
use audit_core::Verdict;
use capture_form::{Capture, Distribution};
use kit_gates::audited;
use kit_talks::{CROWDED, Crowd, Deed, scan_picks};
use route_core::Core;
use std::alloc::{AllocError, Global};
use std::io;
use std::io::ErrorKind;

/// Serves the crowd that numbers name: how many consumers there are, how many deliveries come, and the seed. Prints what the
/// clients did, what the auditor says, and what the scan found.
pub(crate) fn serve_crowd(rt: &HostRuntime, numbers: &[u32]) -> io::Result<u8> {
    let [size, deliveries, seed] = numbers else {
        return Ok(WORDS_FAULT);
    };
    if *size == 0 {
        return Ok(WORDS_FAULT);
    }
    let mut core = core_of_rule(rt.alloc(), Distribution::Balanced, CROWDED, LIMIT)?;
    let mut crowd = Crowd::new(rt.alloc(), u64::from(*seed), *size);
    tell_crowd(rt, &mut core, &mut crowd, *size, *deliveries)
}

/// Serves a crowd of this size by a core, and prints the same.
///
/// It borrows both: owned here, their drops would be proved on each way out.
fn tell_crowd(
    rt: &HostRuntime,
    core: &mut Core,
    crowd: &mut Crowd,
    size: u32,
    deliveries: u32,
) -> io::Result<u8> {
    serve(rt.alloc(), core, crowd, deliveries)?;
    println!(rt;
        "crowd of {size}: deliveries={deliveries} {}",
        crowd.counts()
    )?;
    judged(rt, core.capture(), deliveries)
}

/// Prints what is said of a capture, and gives the status.
fn judged(rt: &HostRuntime, capture: &Capture, deliveries: u32) -> io::Result<u8> {
    let verdict = audited(rt.alloc(), capture)?;
    let picks = scan_picks(rt.alloc(), capture)?;
    println!(rt; "the auditor: {verdict}")?;
    println!(rt; "the plain scan: {picks}")?;
    let is_accepted = matches!(&verdict, Verdict::Accepted(_));
    Ok(if is_accepted && picks.are_right(deliveries) {
        0
    } else {
        WRONG
    })
}

/// Lets the consumers come, so many deliveries be sent, and all that wait go.
fn serve(alloc: Global, core: &mut Core, crowd: &mut Crowd, deliveries: u32) -> io::Result<()> {
    let deeds = crowd.arrivals(alloc)?;
    take_all(core, crowd, deeds)?;
    for number in 0..deliveries {
        let deeds = crowd.round(alloc, number)?;
        take_all(core, crowd, deeds)?;
    }
    let deeds = crowd.last_credits(alloc, deliveries)?;
    take_all(core, crowd, deeds)
}

/// The core takes what the clients do, which is let go then.
///
/// It takes the deeds themselves: owned in `serve`, their drop would be proved on each way out of it.
fn take_all(core: &mut Core, crowd: &mut Crowd, deeds: Vec<Deed>) -> io::Result<()> {
    take(core, crowd, deeds.as_slice())
}

/// The core takes what the clients do, one after the other, and they learn from what it wrote.
fn take(core: &mut Core, crowd: &mut Crowd, deeds: &[Deed]) -> io::Result<()> {
    for deed in deeds {
        let from = core.capture().records().len();
        if done(core, deed).is_err() {
            return Err(io::Error::from(ErrorKind::InvalidInput));
        }
        learn(core, crowd, from)?;
    }
    Ok(())
}

/// The clients learn from the records from this one on.
fn learn(core: &Core, crowd: &mut Crowd, from: usize) -> Result<(), AllocError> {
    for entry in core.capture().records().iter().skip(from) {
        crowd.see(entry)?;
    }
    Ok(())
}
