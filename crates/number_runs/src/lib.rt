//! Values under numbers, where many neighbours have the same value.
//!
//! In reading order: `value` says what a value is, `run` has a run of numbers with one value, `runs` all of them.
#![tactic(auto)]

mod run;
mod runs;
mod value;

pub use run::Run;
pub use runs::NumberRuns;
pub use value::RunValue;
