//! The notes of records.

use kit_cases::{Answer, Subject, number, told};
use pairing_cert::Note;
use std::alloc::Global;

/// Notes by their octets and indices.
#[derive(Drop)]
pub struct Notes {
    alloc: Global,
}

impl Notes {
    pub fn new(alloc: Global) -> Notes {
        Notes { alloc }
    }
}

impl Subject for Notes {
    fn answer(&mut self, words: &[&str]) -> Answer {
        let [octet, index] = words else {
            return Ok(None);
        };
        let octet = octet.parse::<u8>().unwrap_or(u8::MAX);
        match Note::from_parts(octet, number(index)) {
            Ok(note) => told(self.alloc, (note, note.to_parts())),
            Err(fault) => Ok(Some(format!(in self.alloc; ": {fault:?}, {fault}")?)),
        }
    }
}
