//! The records of a capture as a sequence chart: an SVG.
//!
//! A `Chart` takes records one after the other, those that are to be shown, and has an arrow for each of them, in order: its
//! number, its connection, whether the frame goes to the router or to the client, and which performative its octets are.
//! `Chart::draw` gives the document, well-formed by the grammar of XML (`svg_text`): one lane for the router, one for each
//! connection, and a group for each arrow with its title, the record's line in words, a short label, and the arrow; from a delivery that
//! comes in to each transfer that carries it goes a thin line, and to the outcome that its client is told, where both are shown.
//! Records may be marked: the one that is refused, and those that it is compared with.
//!
//! An outcome names its delivery by an id alone. `Outcomes` takes all records, and tells of which delivery it is.
//!
//! In reading order: `topic`, `marks`, `label`, `outcomes`, `arrow`, `chart`; `places` is where lanes and rows stand;
//! `arrows`, `head`, `lanes`, `draw`.
#![tactic(auto)]

mod arrow;
mod arrows;
mod chart;
mod draw;
mod head;
mod label;
mod lanes;
mod marks;
mod outcomes;
mod places;
mod topic;

pub use arrow::Arrow;
pub use chart::{Chart, ChartFault, MOST_ARROWS};
pub use marks::{Mark, Marks};
pub use outcomes::Outcomes;
pub use topic::{Course, Topic};
