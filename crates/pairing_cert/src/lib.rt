//! What a router certifies beside a frame that it writes: which delivery a transfer stems from, or why an outcome
//! is told.
//!
//! A `Note` is written as an octet and an index. `Note::from_parts` gives exactly the notes, each from its own parts,
//! and else says why the parts are none; `Note::to_parts` gives the parts of a note.
#![tactic(auto)]

mod note;

pub use note::{Note, NoteFault, Why};
