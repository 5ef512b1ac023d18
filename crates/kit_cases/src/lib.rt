//! Cases, a line each, done and told. Programs stand on it that do what each line of a file says, and tell what came of it.
//!
//! In reading order: `words` are the words of a line; `cases` are lines that have cases; `names` are the names of the files of a
//! folder.
#![tactic(auto)]

mod cases;
mod names;
mod words;

pub use cases::{Answer, Subject, done, said, tell_cases, told};
pub use names::names_in;
pub use words::{behind, count, number, parted, small, word};
