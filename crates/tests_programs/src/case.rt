//! A line in its parts.

use std::alloc::{AllocError, Global};

/// What a line asks for: `KIND WORDS.. [< INPUT..] [> ROOM [ROOM]] [~ PIECE]`.
#[derive(Debug, Drop)]
pub struct Case<'a> {
    /// What is run.
    pub kind: &'a str,
    /// The words that it is given. `''` is the empty word.
    pub words: Vec<&'a str>,
    /// The file that is read, at how many octets it is cut, and how they come.
    pub input: Vec<&'a str>,
    /// How many octets standard output and standard error take.
    pub rooms: Vec<&'a str>,
    /// The one piece of each text that is to be shown.
    pub piece: &'a str,
}

impl<'a> Case<'a> {
    pub fn of(alloc: Global, line: &'a str) -> Result<Case<'a>, AllocError> {
        let (line, piece) = parted(line, " ~ ");
        let (line, rooms) = parted(line, " > ");
        let (line, input) = parted(line, " < ");
        let (kind, words) = parted(line, " ");
        Ok(Case {
            kind,
            words: words_of(alloc, words)?,
            input: words_of(alloc, input)?,
            rooms: words_of(alloc, rooms)?,
            piece,
        })
    }

    /// The word at this place, or the empty one.
    pub fn word(&self, place: usize) -> &'a str {
        word_at(self.words.as_slice(), place)
    }

    /// The words from this place on.
    pub fn words_from(&self, place: usize) -> &[&'a str] {
        let words = self.words.as_slice();
        &words[place.min(words.len())..]
    }
}

/// The word at this place, or the empty one.
pub fn word_at<'a>(words: &[&'a str], place: usize) -> &'a str {
    words.get(place).copied().unwrap_or("")
}

/// The number at this place, or this one.
pub fn number_at(words: &[&str], place: usize, otherwise: usize) -> usize {
    word_at(words, place).parse::<usize>().unwrap_or(otherwise)
}

/// What stands before the mark, and what behind.
fn parted<'a>(text: &'a str, mark: &str) -> (&'a str, &'a str) {
    text.split_once(mark).unwrap_or((text, ""))
}

/// The words of a text.
fn words_of(alloc: Global, text: &str) -> Result<Vec<&str>, AllocError> {
    text.split_whitespace()
        .map(|word| if word == "''" { "" } else { word })
        .collect(alloc)
}
