//! What the programs here do alike at their two ends: they take their words, and they tell how it ended.
//!
//! A program ends with one line on standard output and the exit status of that line. A mistake in its words is told by the
//! parser's text on standard error instead, with status 64. The modules, in reading order:
//!
//! - `words`: the words that the program was given
//! - `arguments`: the arguments that the parser is told of, as far as the programs have them alike
//! - `input_source`: where it reads from, by one of them
//! - `unread`: why the system did not give them
//! - `growth`: whether a fault of the system's is refused memory
//! - `telling`: the line and the exit status, and what is told in place of a run where the words do not ask for one
#![tactic(auto)]

mod arguments;
mod growth;
mod input_source;
mod telling;
mod unread;
mod words;

pub use arguments::{asking, file, flag};
pub use growth::is_refused_growth;
pub use input_source::InputSource;
pub use telling::{
    NO_MEMORY, NOT_WRITTEN, WORDS_FAULT, tell_line, tell_refused_words, tell_unread_words,
};
pub use words::words_of;
