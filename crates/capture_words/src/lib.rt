//! A capture in words: a line of text for each record, or one table of all of them.
//!
//! A `Page` is text that grows line by line. `put_record` appends the line of a record, with its link, and leaves the
//! page as it was where memory is refused. Texts and octets are cut at a width. What a page holds is printing, and no
//! contract says it: stored runs do.
//!
//! A `Summary` takes records one after the other, and keeps totals, the links with what came of their deliveries, and the
//! deliveries that are undecided, or still to be sent on; so its memory grows with connections, links and these deliveries,
//! and not with records. `put` writes the table onto a page. The totals are proved (`Totals`); the rows of links are
//! tested.
//!
//! `show_capture` reads a text record by record, hands its rules and each record to a `View`, which appends to a page what is to
//! be shown of them, and writes the page as it fills. It tells how the reading ended: whole, or where and why not. What is read is
//! proved to be the capture's text, up to its first fault; what a view makes of a record is its own affair.
//!
//! In reading order: `page` keeps the text; `item` are texts, octets and numbers; `fields` the fields of each
//! performative; `flaws` what is no performative; `line` the whole line. Of the table: `row`, `links`, `deliveries`, `waiting`,
//! `summary`, `table`. Of a reader's capture: `head`, `ending`, `stream`.
#![tactic(auto)]

mod deliveries;
mod ending;
mod fields;
mod flaws;
mod head;
mod item;
mod line;
mod links;
mod page;
mod row;
mod stream;
mod summary;
mod table;
mod waiting;

pub use ending::Ending;
pub use page::Page;
pub use row::Row;
pub use stream::{NotWritten, View, show_capture};
pub use summary::Summary;
