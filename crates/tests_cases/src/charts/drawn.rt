//! A capture, drawn as a chart.

use capture_chart::{Chart, Marks, Outcomes};
use capture_form::{Record, read_capture};
use capture_view::{Names, view_of};
use std::alloc::{AllocError, Global};

/// A chart, and what has to be known of the records so far to draw their arrows.
#[derive(Drop)]
struct Charting {
    chart: Chart,
    names: Names,
    outcomes: Outcomes,
}

/// The chart of all records of a capture, if the octets are one, and has few records: its second record is marked as one that
/// is refused, and its first as one that it is compared with.
pub fn chart_of(alloc: Global, title: &str, octets: &[u8]) -> Result<Option<String>, AllocError> {
    match read_capture(alloc, octets) {
        Ok(capture) => Charting::new(alloc).drawn(title, capture.records()),
        Err(_) => Ok(None),
    }
}

impl Charting {
    /// No records.
    fn new(alloc: Global) -> Charting {
        Charting {
            chart: Chart::new(alloc),
            names: Names::new(alloc),
            outcomes: Outcomes::new(alloc),
        }
    }

    /// Takes records and draws them, if they are few.
    ///
    /// It borrows the chart: owned here, its drop would be proved on each way out.
    fn drawn(&mut self, title: &str, records: &[Record]) -> Result<Option<String>, AllocError> {
        if !self.take_all(records)? {
            return Ok(None);
        }
        let marks = Marks {
            refused: Some(1),
            compared: &[0],
        };
        Ok(Some(self.chart.draw(title, marks)?))
    }

    /// Takes records, and says whether each has an arrow.
    fn take_all(&mut self, records: &[Record]) -> Result<bool, AllocError> {
        for (number, entry) in records.iter().enumerate() {
            if !self.take(number as u64, entry)? {
                return Ok(false);
            }
        }
        Ok(true)
    }

    /// Takes a record, and says whether it has an arrow.
    fn take(&mut self, number: u64, entry: &Record) -> Result<bool, AllocError> {
        let view = view_of(number, entry);
        self.names.take(&view)?;
        let told = self.outcomes.take(&view)?;
        let has_session = self.names.has_session_of(&view);
        let link = self.names.named_by(&view);
        Ok(self.chart.take(&view, link, has_session, told).is_ok())
    }
}
