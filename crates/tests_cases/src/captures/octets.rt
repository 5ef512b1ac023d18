//! Octets in words.

use kit_cases::count;
use std::alloc::{AllocError, Global};

/// The octets of these words, one behind the other: `"TEXT"` has those of its text, another word is hexadecimal, and
/// `WORD*COUNT` is so many times the word. None where a word has no octets.
pub fn octets_of(alloc: Global, words: &[&str]) -> Result<Option<Vec<u8>>, AllocError> {
    let mut octets = Vec::new(alloc);
    for word in words {
        let (part, times) = word.split_once('*').unwrap_or((*word, "1"));
        let Some(once) = octets_of_part(alloc, part)? else {
            return Ok(None);
        };
        octets.extend_from_slice(once.as_slice().repeat(alloc, count(times))?.as_slice())?;
    }
    Ok(Some(octets))
}

fn octets_of_part(alloc: Global, part: &str) -> Result<Option<Vec<u8>>, AllocError> {
    let quoted = part
        .strip_prefix('"')
        .and_then(|text| text.strip_suffix('"'));
    match quoted {
        Some(text) => Ok(Some(text.as_bytes().to_vec(alloc)?)),
        None => Ok(hex::decode(alloc, part).ok()),
    }
}
