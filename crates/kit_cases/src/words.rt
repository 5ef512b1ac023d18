//! The words of a line.

/// The first word, which says what is done, and those behind it.
pub fn parted<'w, 'a>(words: &'w [&'a str]) -> (&'a str, &'w [&'a str]) {
    match words {
        [first, rest @ ..] => (*first, rest),
        [] => ("", words),
    }
}

/// The word at this place, an empty one where there are fewer.
pub fn word<'a>(words: &[&'a str], place: usize) -> &'a str {
    words.get(place).copied().unwrap_or("")
}

/// The words from this place on.
pub fn behind<'a>(words: &'a [&'a str], place: usize) -> &'a [&'a str] {
    words.get(place..).unwrap_or(&[])
}

/// A number, 0 where the word is none.
pub fn number(word: &str) -> u64 {
    word.parse::<u64>().unwrap_or(0)
}

/// A count, 0 where the word is none.
pub fn count(word: &str) -> usize {
    number(word) as usize
}

/// A number of 32 bits, 0 where the word is none.
pub fn small(word: &str) -> u32 {
    word.parse::<u32>().unwrap_or(0)
}
