//! What the router does with its words: it serves so many connections at an address, by so many threads, and writes the
//! capture of what it did to a file.
//!
//! The line on standard output tells how the run ended, and the exit status tells it too (`router_words::RunEnd`). Words
//! that the parser does not take give its text on standard error, nothing on standard output, and status 64; those that it
//! takes and that are wrong have a line and status 64 too. The module `run` is a run over any words and writers.
#![tactic(auto)]

mod run;

pub use run::run_words;
