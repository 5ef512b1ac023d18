//! The table of a summary.

use crate::Page;
use crate::row::Row;
use crate::summary::Summary;
use capture_view::{LinkRole, TotalsByRow};
use std::alloc::AllocError;

impl Summary {
    /// Appends the table to a page.
    pub fn put(&self, page: &mut Page) -> Result<(), AllocError> {
        let totals = self.totals();
        put_total(page, "records ", totals.records)?;
        put_total(page, " (opened ", totals.opened)?;
        put_total(page, ", in ", totals.inputs)?;
        put_total(page, ", out ", totals.outputs)?;
        put_total(page, ", lost ", totals.lost)?;
        put_total(page, ", broken ", totals.broken)?;
        put_total(page, ")\nconnections ", self.connections() as u64)?;
        put_total(page, "\nsessions ", self.sessions())?;
        put_total(page, "\nlinks ", self.rows().len() as u64)?;
        put_total(page, "\nin: transfers ", totals.transfers_in)?;
        put_total(page, ", octets of payload ", totals.octets_in)?;
        put_total(page, "\nout: transfers ", totals.transfers_out)?;
        put_total(page, ", octets of payload ", totals.octets_out)?;
        put_told(page, totals.told)?;
        if self.rows().is_empty() {
            return Ok(());
        }
        page.put(HEAD)?;
        for row in self.rows() {
            put_row(page, row)?;
        }
        Ok(())
    }
}

/// Appends how many outcomes were told by each row, by its letter.
fn put_told(page: &mut Page, told: TotalsByRow) -> Result<(), AllocError> {
    put_total(page, "\ntold: C ", told.consumer)?;
    put_total(page, ", Z ", told.shortened)?;
    put_total(page, ", S ", told.sent)?;
    put_total(page, ", L ", told.link_over)?;
    put_total(page, ", N ", told.no_consumer)?;
    put_total(page, ", M ", told.multicast)?;
    page.put("\n")
}

/// What stands over the rows of links: a link has its connection, channel and handle.
const HEAD: &str = "\
\n deliveries     octets   accepted   rejected   released   modified    settled    aborted    waiting  undecided  link\n";

fn put_total(page: &mut Page, name: &str, number: u64) -> Result<(), AllocError> {
    page.put(name)?;
    page.put_number(number)
}

/// Appends the row of a link.
fn put_row(page: &mut Page, row: &Row) -> Result<(), AllocError> {
    page.put_column(row.deliveries)?;
    page.put_column(row.octets)?;
    page.put_column(row.accepted)?;
    page.put_column(row.rejected)?;
    page.put_column(row.released)?;
    page.put_column(row.modified)?;
    page.put_column(row.settled)?;
    page.put_column(row.aborted)?;
    page.put_column(row.waiting)?;
    page.put_column(row.undecided())?;
    page.put("  ")?;
    put_total(page, "", u64::from(row.connection))?;
    put_total(page, "/", u64::from(row.channel))?;
    put_total(page, "/", u64::from(row.handle))?;
    page.put(" ")?;
    page.put_told(row.link.told())?;
    page.put("\n")
}
