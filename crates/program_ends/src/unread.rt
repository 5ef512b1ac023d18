//! Why the system did not give the words.

use crate::growth::is_refused_growth;
use std::io;
use thiserror::Error;

/// Why the words could not be read from the system.
#[derive(Clone, Copy, Debug, PartialEq, Eq, Error)]
pub(crate) enum UnreadWords {
    /// A growth was refused.
    #[error("no memory")]
    NoMemory,
    /// A word is no text.
    #[error("a word is not valid UTF-8")]
    NotText,
}

impl From<io::Error> for UnreadWords {
    ghost use Rattle.program_ends.specs.Unread.{IsCauseOf};

    ghost from_gives = { λ error cause. IsCauseOf error cause };

    fn from(error: io::Error) -> UnreadWords {
        if is_refused_growth(&error) {
            UnreadWords::NoMemory
        } else {
            UnreadWords::NotText
        }
    }
}
