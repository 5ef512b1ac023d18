//! Counters over the notes that tell why an outcome was told.

use pairing_cert::{Note, Why};

/// How many frames were written with a note that tells each row of the table of outcomes. Each number stops at
/// 18446744073709551615.
#[derive(Clone, Copy, Debug, PartialEq, Eq)]
pub struct TotalsByRow {
    /// C: the consumer decided.
    pub consumer: u64,
    /// Z: the consumer decided, and its outcome was shortened.
    pub shortened: u64,
    /// S: it was sent on a pre-settled link.
    pub sent: u64,
    /// L: the consumer's link is over.
    pub link_over: u64,
    /// N: there was no consumer.
    pub no_consumer: u64,
    /// M: its address is multicast.
    pub multicast: u64,
}

impl TotalsByRow {
    ghost use Rattle.std.specs.Prelude.{◌≡◌, []};
    ghost use Rattle.capture_view.specs.Rows.{counted_by_row, note_share, plus_by_row};

    /// Of no records.
    pub(crate) fn new() -> TotalsByRow
        ensures { result ≡ counted_by_row [] }
    {
        TotalsByRow {
            consumer: 0,
            shortened: 0,
            sent: 0,
            link_over: 0,
            no_consumer: 0,
            multicast: 0,
        }
    }

    /// Those of one frame that was written with this note.
    pub(crate) fn of(note: Note) -> TotalsByRow
        ensures { result ≡ note_share note }
    {
        let mut totals = TotalsByRow::new();
        let Note::Told(why) = note else {
            return totals;
        };
        match why {
            Why::C => totals.consumer = 1,
            Why::Z => totals.shortened = 1,
            Why::S => totals.sent = 1,
            Why::L => totals.link_over = 1,
            Why::N => totals.no_consumer = 1,
            Why::M => totals.multicast = 1,
        }
        totals
    }

    /// The sums, which stop at the largest number.
    pub(crate) fn plus(&self, other: TotalsByRow) -> TotalsByRow
        ensures { result ≡ plus_by_row self.now other }
    {
        TotalsByRow {
            consumer: self.consumer.saturating_add(other.consumer),
            shortened: self.shortened.saturating_add(other.shortened),
            sent: self.sent.saturating_add(other.sent),
            link_over: self.link_over.saturating_add(other.link_over),
            no_consumer: self.no_consumer.saturating_add(other.no_consumer),
            multicast: self.multicast.saturating_add(other.multicast),
        }
    }
}
