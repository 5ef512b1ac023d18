//! Drives the router's core by clients of whom some keep to nothing, and judges each capture that comes of it.
//!
//! The auditor has to accept each capture, and the plain checker, which asks about each record by all those below it, its
//! first records. In a capture of no more than these nothing may wait that could go.
//!
//! - `running`: a run
//! - `judging`: whether its capture is right

mod judging;
mod running;

use crate::{WORDS_FAULT, WRONG};
use capture_form::write_capture;
use judging::{is_diligent, is_lawful};
use kit_talks::FrameCounts;
use running::{Run, run_of_seed};
use std::alloc::{AllocError, Global};
use std::io;
use std::io::Write;

/// What came of runs, in numbers.
#[derive(Clone, Copy)]
struct Summary {
    runs: u64,
    taken: u64,
    refused: u64,
    counts: FrameCounts,
}

/// Makes runs, as the numbers say: how many, of at most how many items, from which seed on, and how many first records the
/// plain checker is asked about; and prints what came of them.
pub(crate) fn drive_all(rt: &HostRuntime, numbers: &[u32]) -> io::Result<u8> {
    let [runs, items, seed, most] = numbers else {
        return Ok(WORDS_FAULT);
    };
    let mut summary = Summary {
        runs: 0,
        taken: 0,
        refused: 0,
        counts: FrameCounts::NOTHING,
    };
    let mut wrong: u32 = 0;
    for run in 0..*runs {
        let seed = seed.wrapping_add(run);
        if !summary.is_right(rt.alloc(), seed, *items, *most as usize)? {
            wrong = wrong.wrapping_add(1);
            println!(rt; "seed {seed} is wrong")?;
        }
    }
    summary.tell(rt)?;
    println!(rt; "{wrong} wrong")?;
    Ok(if wrong == 0 { 0 } else { WRONG })
}

/// Writes the capture of the run of a seed, of at most so many items.
pub(crate) fn show(rt: &HostRuntime, numbers: &[u32]) -> io::Result<u8> {
    let [seed, items] = numbers else {
        return Ok(WORDS_FAULT);
    };
    match run_of_seed(rt.alloc(), u64::from(*seed), *items)? {
        Some(mut run) => write_run(rt, &mut run),
        None => Ok(WRONG),
    }
}

/// Makes a run, and writes its capture.
///
/// It borrows the run: owned here, its drop would be proved on each way out.
fn write_run(rt: &HostRuntime, run: &mut Run) -> io::Result<u8> {
    run.drive()?;
    let text = write_capture(rt.alloc(), run.capture())?;
    rt.stdout().write_all(text.as_slice())?;
    Ok(0)
}

impl Summary {
    /// Makes the run of a seed, counts what came of it, and answers whether it is right.
    fn is_right(
        &mut self,
        alloc: Global,
        seed: u32,
        items: u32,
        most: usize,
    ) -> Result<bool, AllocError> {
        match run_of_seed(alloc, u64::from(seed), items)? {
            Some(mut run) => self.judge(alloc, &mut run, most),
            None => Ok(false),
        }
    }

    /// The same of this run.
    ///
    /// It borrows the run: owned here, its drop would be proved on each way out.
    fn judge(&mut self, alloc: Global, run: &mut Run, most: usize) -> Result<bool, AllocError> {
        run.drive()?;
        self.runs = self.runs.wrapping_add(1);
        self.taken = self.taken.wrapping_add(run.taken);
        self.refused = self.refused.wrapping_add(run.refused);
        self.counts.count(run.capture());
        let is_lawful = is_lawful(alloc, run.capture(), most)?;
        Ok(is_lawful && run.is_right && is_diligent(run.capture(), run.known(), most))
    }

    /// Prints the numbers.
    fn tell(&self, rt: &HostRuntime) -> io::Result<()> {
        println!(rt;
            "runs={} items taken={} refused={}",
            self.runs, self.taken, self.refused
        )?;
        println!(rt; "{}", self.counts)
    }
}
