//! What the program that shows captures in words does with its own words: it reads a capture from the file that they name,
//! or from standard input, and writes a line for each record; or one table, or why the capture is not accepted, or packets,
//! a chart or the credit of a link to a new file.
//!
//! The exit status tells whether the capture is whole (`Ending::status`), or the verdict. What was read in front of a fault is
//! shown, and then the line of the fault. A mistake in the words gives the parser's text on standard error alone, and status 64. The
//! modules, in reading order:
//!
//! - `words`: what the words of the command line ask for
//! - `asked`: which records are asked for
//! - `lines`, `table`: the two ways in which records are shown
//! - `telling`: what is told behind what was shown
//! - `packets`: a capture as packets in a file
//! - `charted`, `charts`: the records that are asked for as a chart, and in a file
//! - `credits`: the credit of a link as curves, in a file
//! - `why`: a capture, audited
//! - `marked`: a capture, audited, and as a chart with marks, in a file
//! - `run`: a run over any words, reader and writers
//!
//! Another way to show a capture is a variant of `Mode`, its word in `words`, and its arm in `run::show_input`.
#![tactic(auto)]

mod asked;
mod charted;
mod charts;
mod credits;
mod lines;
mod marked;
mod packets;
mod run;
mod table;
mod telling;
mod why;
mod words;

pub use charted::{Drawn, NoChart, draw_capture, draw_marked};
pub use marked::draw_explained;
pub use run::run_words;
