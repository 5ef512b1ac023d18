//! Gates and seats, apart while the exchange is closed.

ghost use Rattle.std.specs.Prelude.{◌≡◌, IfOk, vec_len};
ghost use Rattle.core_exchange.specs.Seats.{SeatAgrees, SeatsAgree};
ghost use Rattle.conn_workers.specs.Reports.{AreReported, IsReported};

use crate::done::{Done, Part};
use crate::line::Origin;
use crate::report::{ConnReport, TakenOctets};
use capture_form::Capture;
use conn_engine::Gate;
use core_exchange::Seat;
use std::alloc::{AllocError, Global};

/// All gates with their scripts, and all seats, apart, in the same order.
///
/// # Errors
///
/// Memory was refused.
pub(super) fn apart_all<G: Gate + Drop, J: Origin<G>>(
    alloc: Global,
    dones: Vec<Done<G, J>>,
) -> Result<(Vec<Part<G, J>>, Vec<Seat>), AllocError>
    ensures { IfOk result (λ halves. halves.0.items ≡ halves.1.items) }
{
    let mut parts = Vec::new(alloc);
    let mut seats = Vec::new(alloc);
    for done in dones {
        let (part, seat) = done.apart();
        parts.push(part)?;
        seats.push(seat)?;
    }
    Ok((parts, seats))
}

/// The reports of gates and seats that agree with the capture.
pub(super) fn together<G: Gate + Drop, J: Origin<G>>(
    alloc: Global,
    capture: &Capture,
    mut parts: Vec<Part<G, J>>,
    mut seats: Vec<Seat>,
) -> Result<Vec<ConnReport<G>>, AllocError>
    requires same { parts.items ≡ seats.items }
    requires agree { SeatsAgree capture.now.records 0 seats.items }
    ensures each { IfOk result (λ conns. AreReported J.gates G.follows G.delivered G.took G.has_ended capture.now.records 0 conns.items) }
    ensures count { IfOk result (λ conns. vec_len conns ≡ vec_len seats) }
{
    let mut conns = Vec::new(alloc);
    while let Some(seat) = seats.pop() {
        let Some(part) = parts.pop() else {
            unreachable!()
        };
        conns.push(reported(capture, seats.len(), part, seat))?;
    }
    conns.reverse();
    Ok(conns)
}

/// The report of a gate and its seat. The capture and the number stand here for the contract alone.
fn reported<G: Gate + Drop, J: Origin<G>>(
    _capture: &Capture,
    _k: usize,
    part: Part<G, J>,
    seat: Seat,
) -> ConnReport<G>
    requires same { part ≡ seat }
    requires agrees { SeatAgrees _capture.now.records _k seat }
    ensures { IsReported J.gates G.follows G.delivered G.took G.has_ended _capture.now.records _k result }
{
    let (gate, script) = part.opened();
    let Seat {
        conn,
        items,
        frames,
    } = seat;
    ConnReport {
        conn,
        gate,
        items,
        taken: TakenOctets::new(script, frames),
    }
}
