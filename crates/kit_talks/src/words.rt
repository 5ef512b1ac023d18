//! A line of a scenario, as words.

use std::alloc::{AllocError, Global};

/// The words of a line, in order. Some have a name: `handle=3`.
#[derive(Drop)]
pub struct Words<'a> {
    words: Vec<&'a str>,
}

impl<'a> Words<'a> {
    /// The words of a text.
    pub fn of(alloc: Global, text: &'a str) -> Result<Words<'a>, AllocError> {
        Ok(Words {
            words: text.split_whitespace().collect(alloc)?,
        })
    }

    /// All words.
    pub fn all(&self) -> &[&'a str] {
        self.words.as_slice()
    }

    /// The word at this place, counted from 0, or an empty one.
    pub fn at(&self, place: usize) -> &'a str {
        self.words.get(place).copied().unwrap_or("")
    }

    /// Whether the word stands there.
    pub fn has(&self, wanted: &str) -> bool {
        self.words.iter().any(|word| *word == wanted)
    }

    /// What stands behind the name, in the first word that has it.
    pub fn value(&self, name: &str) -> Option<&'a str> {
        for word in self.words.iter() {
            if let Some((before, behind)) = word.split_once('=') {
                if before == name {
                    return Some(behind);
                }
            }
        }
        None
    }

    /// The number that stands behind the name; none where something else stands there.
    pub fn number(&self, name: &str) -> Option<u32> {
        self.value(name)?.parse::<u32>().ok()
    }

    /// The number that stands behind the name; none where something else stands there, or more than 255.
    pub fn octet(&self, name: &str) -> Option<u8> {
        self.value(name)?.parse::<u8>().ok()
    }

    /// The number that stands behind the name, or this one where no word has the name.
    pub fn number_or(&self, name: &str, usual: u32) -> Option<u32> {
        match self.value(name) {
            Some(_) => self.number(name),
            None => Some(usual),
        }
    }

    /// How often the line happens.
    pub fn times(&self) -> u32 {
        self.number("times").unwrap_or(1)
    }

    /// The words from this place on, with a space before each.
    pub fn from(&self, alloc: Global, place: usize) -> Result<String, AllocError> {
        let mut text = String::new(alloc);
        self.put_from(&mut text, place)?;
        Ok(text)
    }

    /// Puts them.
    fn put_from(&self, text: &mut String, place: usize) -> Result<(), AllocError> {
        for word in self.words.iter().skip(place) {
            text.push_str(" ")?;
            text.push_str(word)?;
        }
        Ok(())
    }
}
