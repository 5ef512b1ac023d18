//! Whether a capture that a core made is as it has to be.

use audit_core::Verdict;
use capture_form::{Capture, What};
use kit_gates::audited;
use kit_talks::{Known, Life, Link};
use route_core::Core;
use std::alloc::{AllocError, Global};
use trace_law::{credit_at, slow_check, tally_capture, waiting_at, window_at};

/// Whether the auditor accepts the text of a capture, and the plain checker so many of its first records. Where these are
/// all, both have to count the same.
pub(crate) fn is_lawful(alloc: Global, capture: &Capture, most: usize) -> Result<bool, AllocError> {
    let Verdict::Accepted(tally) = audited(alloc, capture)? else {
        return Ok(false);
    };
    if capture.records().len() <= most && tally != tally_capture(capture) {
        return Ok(false);
    }
    Ok(is_checked(capture, most))
}

/// Whether none of so many first records breaks a clause, asked of each by those below it.
fn is_checked(capture: &Capture, most: usize) -> bool {
    for number in 0..capture.records().len() {
        if number < most && slow_check(capture, number).is_err() {
            return false;
        }
    }
    true
}

/// Whether the core gives the frames that it wrote in the records from this one on, each on its connection and in order.
pub(crate) fn gives_its_frames(core: &Core, from: usize) -> bool {
    let records = core.capture().records();
    for number in from..records.len() {
        let Some(entry) = records.get(number) else {
            return false;
        };
        if let What::Out(frame) = &entry.what {
            let given = core.next_out(entry.connection, number as u64);
            if given != Some((number as u64, frame.octets())) {
                return false;
            }
        }
    }
    true
}

/// Whether nothing is left in a capture that could go: no part of a delivery in progress while there is window, and no
/// delivery that waits while a consumer of its address has credit and window. Captures of more than so many records are
/// not looked at.
pub(crate) fn is_diligent(capture: &Capture, known: &Known, most: usize) -> bool {
    if capture.records().len() > most {
        return true;
    }
    for link in known.links.iter() {
        if !has_done(capture, known, link) {
            return false;
        }
    }
    true
}

/// Whether nothing is left that could go to a link.
fn has_done(capture: &Capture, known: &Known, link: &Link) -> bool {
    let (end, place) = (capture.records().len(), link.place);
    if link.life != Life::Live || link.is_producer {
        return true;
    }
    let window = window_at(capture, end, place.connection, place.channel);
    if window == Some(0) {
        return true;
    }
    if link.is_in_progress {
        return false;
    }
    if credit_at(capture, end, place.connection, place.channel, link.handle) == Some(0) {
        return true;
    }
    let mut waiting = known
        .sent
        .iter()
        .filter(|sent| sent.address == link.address);
    !waiting.any(|sent| waiting_at(capture, end, sent.number))
}
