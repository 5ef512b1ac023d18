//! What the records of a capture come to.

use crate::links::Links;
use crate::row::Row;
use capture_view::{RecordView, Totals};
use std::alloc::{AllocError, Global};

/// Totals, connections, sessions and links of the records so far.
#[derive(Debug, Drop)]
pub struct Summary {
    totals: Totals,
    links: Links,
}

impl Summary {
    ghost use Rattle.std.specs.Prelude.{◌≡◌, []};
    ghost use Rattle.capture_view.specs.Viewed.{viewed};
    ghost use Rattle.capture_view.specs.Totals.{CountsOneMore, counted};
    ghost use Rattle.capture_words.specs.Summary.{totals_of};

    /// Of no records.
    pub fn new(alloc: Global) -> Summary
        ensures { totals_of result ≡ counted [] }
    {
        Summary {
            totals: Totals::new(),
            links: Links::new(alloc),
        }
    }

    /// The totals.
    pub fn totals(&self) -> Totals
        ensures { result ≡ totals_of self.now }
    {
        self.totals
    }

    /// How many connections a record names.
    pub fn connections(&self) -> usize {
        self.links.connections.len()
    }

    /// How many sessions the router has begun.
    pub fn sessions(&self) -> u64 {
        self.links.sessions
    }

    /// The links that the router has attached, with what came of their deliveries.
    pub fn rows(&self) -> &[Row] {
        self.links.rows.as_slice()
    }

    /// Takes one record more. After an error it counts in the totals, and what its frame says may not count elsewhere.
    pub fn take(&mut self, view: &RecordView<'_>) -> Result<(), AllocError>
        ensures { CountsOneMore (totals_of self.old) (totals_of self.new) (viewed view.now) }
    {
        self.totals.take(view);
        self.links.take(view)
    }
}
