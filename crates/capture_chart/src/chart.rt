//! The arrows of a chart.

use crate::arrow::Arrow;
use capture_view::{LinkTold, RecordView};
use std::alloc::{AllocError, Global};

/// The most arrows of a chart. Own rule: more are not seen at once.
pub const MOST_ARROWS: usize = 2000;

/// Why a record has no arrow.
#[derive(Clone, Copy, Debug, PartialEq, Eq)]
pub enum ChartFault {
    /// The chart has as many as it may.
    Full,
    /// Memory was refused.
    Memory,
}

/// Arrows, each of a record.
#[derive(Debug, Drop)]
pub struct Chart {
    pub(crate) alloc: Global,
    pub(crate) arrows: Vec<Arrow>,
}

impl Chart {
    ghost use Rattle.std.specs.Prelude.{◌≡◌, ◌≤◌, ◌↔◌, ◌++◌, ◌∷◌, [], ℕ, List, Option, length, map, Err, OnOk, OnErr};
    ghost use Rattle.capture_view.specs.Viewed.{Viewed, viewed};
    ghost use Rattle.capture_chart.specs.Shown.{arrows_of, shown, shown_all, shown_of, worded, worded_of};

    /// No arrows.
    pub fn new(alloc: Global) -> Chart
        ensures { arrows_of result ≡ [] }
    {
        Chart {
            alloc,
            arrows: Vec::new(alloc),
        }
    }

    /// The arrows, in the order in which their records were taken.
    pub fn arrows(&self) -> &[Arrow]
        ensures shown { map shown result.now ≡ arrows_of self.now }
        ensures words { map worded result.now ≡ worded_of self.now }
    {
        self.arrows.as_slice()
    }

    /// Takes one record more, whose frame names this link, or stands on a session that has begun, and which tells the outcome of the
    /// delivery that begins in record `told`, if of one (`Outcomes` says of which). After an error the chart is as it was.
    ///
    /// # Errors
    ///
    /// `Full` where there are `MOST_ARROWS` already; `Memory` where it was refused.
    pub fn take(
        &mut self,
        view: &RecordView<'_>,
        link: Option<LinkTold<'_>>,
        has_session: bool,
        told: Option<u64>,
    ) -> Result<(), ChartFault>
        ensures taken { OnOk result (arrows_of self.new ≡ arrows_of self.old ++ shown_of (viewed view.now) told ∷ []) }
        // Where it had the arrows of these records, it has those of one more.
        ensures all { OnOk result ((before : List (Viewed × Option ℕ)) → arrows_of self.old ≡ shown_all before → arrows_of self.new ≡ shown_all (before ++ (viewed view.now, told) ∷ [])) }
        // Where it was not taken the arrows are those that were there.
        ensures same { OnErr result (arrows_of self.new ≡ arrows_of self.old) }
        // It is full where there are as many as there may be, and only there.
        ensures full { (result ≡ Err ChartFault.Full) ↔ (MOST_ARROWS ≤ length (arrows_of self.old)) }
    {
        if self.arrows.len() >= MOST_ARROWS {
            return Err(ChartFault::Full);
        }
        let Ok(arrow) = Arrow::new(self.alloc, view, link, has_session, told) else {
            return Err(ChartFault::Memory);
        };
        match self.arrows.push(arrow) {
            Ok(()) => Ok(()),
            Err(_) => Err(ChartFault::Memory),
        }
    }
}
