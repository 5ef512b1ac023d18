//! What stood at each record of a capture, as curves: an SVG.
//!
//! A `Level` says what stood at a record of a consumer's link: its credit, its session's window, how many deliveries waited at its
//! address and how many were unsettled on it, and whether its client drained it. `Thinned` takes the levels of records, one for
//! each record that has one, and `draw_levels` draws them: a panel for each of these quantities, in which the records stand from
//! left to right. Where they are more than the columns of pixels, a column stands for several, and of these the lowest and the
//! highest value are kept and drawn, so that no extreme is lost. The document is well-formed by the grammar of XML (`svg_text`).
//!
//! In reading order: `level`; `thinning`, of a column; `scale`, where columns and values stand; `thinned`, all columns; `path`;
//! `panel`; `draw`.
#![tactic(auto)]

mod draw;
mod level;
mod panel;
mod path;
mod scale;
mod thinned;
mod thinning;

pub use draw::draw_levels;
pub use level::{Level, Quantity};
pub use thinned::Thinned;
pub use thinning::Column;
