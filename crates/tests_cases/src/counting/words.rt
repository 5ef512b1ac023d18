//! The words of a case.

use kit_cases::number;
use std::alloc::{AllocError, Global};

/// What happens, as a word tells it.
pub trait Event: Sized {
    /// What the parts of a word tell.
    fn of(parts: &[&str]) -> Option<Self>;
}

/// What these words tell; none where one of them tells nothing.
pub fn events<E: Event + Drop>(
    alloc: Global,
    words: &[&str],
) -> Result<Option<Vec<E>>, AllocError> {
    let mut events = Vec::new(alloc);
    let are_all = put_events(&mut events, words)?;
    Ok(if are_all { Some(events) } else { None })
}

/// Puts what these words tell, and answers whether each of them tells something.
///
/// It borrows the list: owned here, its drop would be proved on each way out.
fn put_events<E: Event + Drop>(events: &mut Vec<E>, words: &[&str]) -> Result<bool, AllocError> {
    for word in words {
        match event_of(*events.allocator(), word)? {
            Some(event) => events.push(event)?,
            None => return Ok(false),
        }
    }
    Ok(true)
}

/// What a word tells.
fn event_of<E: Event>(alloc: Global, word: &str) -> Result<Option<E>, AllocError> {
    let parts = parts(alloc, word)?;
    Ok(E::of(parts.as_slice()))
}

/// A number of 32 bits, none where the word is none.
pub fn optional(word: &str) -> Option<u32> {
    word.parse::<u32>().ok()
}

/// The parts of a word between its colons.
pub fn parts(alloc: Global, word: &str) -> Result<Vec<&str>, AllocError> {
    word.split(':').collect(alloc)
}

/// The text of these words, one behind the other; a word `TEXT*COUNT` is so many times the text.
pub fn joined(alloc: Global, words: &[&str]) -> Result<String, AllocError> {
    let mut text = String::new(alloc);
    for word in words {
        let (part, times) = word.split_once('*').unwrap_or((*word, "1"));
        text.push_str(part.repeat(alloc, number(times) as usize)?.as_str())?;
    }
    Ok(text)
}
