//! What the auditor of captures does with its words: it reads a capture from the file that they name, or from standard
//! input, and writes its verdict as one line.
//!
//! The capture ends where no more of it is there, or, where it is followed, where no more comes: a router may still write it. The
//! exit status tells the verdict too (`Verdict::status`). A fault of the words gives the parser's text on standard error, nothing on
//! standard output, and status 64.
//!
//! `audit_growing` is the verdict on a capture that grows: that of all octets that come until no more will. It judges each record as
//! soon as its octets are there, ends at the first that breaks a clause, and keeps what an auditor keeps and the octets of some
//! records. `audit_growing_file` does so of a file, which is over where nothing came for a time. The modules, in reading order:
//!
//! - `growing`: what grows, and what comes of asking it for octets
//! - `followed`: the same as a reader, which ends where no more will come
//! - `growing_file`: a file that another program writes
//! - `following`: the verdicts on what grows
//! - `words`: what the words of the command line ask for
//! - `run`: a run over any words, reader and writers
#![tactic(auto)]

mod followed;
mod following;
mod growing;
mod growing_file;
mod run;
mod words;

pub use following::{audit_growing, audit_growing_file};
pub use growing::{Came, Growing};
pub use run::{run_words, tell};
