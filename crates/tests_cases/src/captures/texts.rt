//! One text of a capture, which is read and written.

use crate::captures::fakes::Pieces;
use crate::captures::octets::octets_of;
use crate::captures::packing::{faults_in_words, pack_read, packets_shown};
use crate::captures::reading::{
    read_cuts, read_failing, read_in_words, read_pieces, read_within, shown,
};
use crate::captures::writing::{Way, record_growing, written_again};
use kit_cases::{Answer, Subject, count, done, parted, said, small, word};
use std::alloc::Global;

/// The text of which the cases speak.
#[derive(Drop)]
pub struct Texts {
    alloc: Global,
    text: Vec<u8>,
}

impl Texts {
    pub fn new(alloc: Global) -> Texts {
        Texts {
            alloc,
            text: Vec::new(alloc),
        }
    }

    /// The octets of these words stand behind those of the text.
    fn put(&mut self, words: &[&str]) -> Answer {
        let Some(octets) = octets_of(self.alloc, words)? else {
            return Ok(None);
        };
        self.text.extend_from_slice(octets.as_slice())?;
        done(self.alloc)
    }

    /// What comes of reading the text.
    fn reading_answer(&self, verb: &str, rest: &[&str]) -> Answer {
        let (alloc, text) = (self.alloc, self.text.as_slice());
        match verb {
            "read" => said(alloc, read_in_words(alloc, text)?.as_str()),
            "show" => shown(alloc, text),
            "cuts" => read_cuts(alloc, text),
            "pieces" => read_pieces(alloc, text, text.len(), rest),
            "cuts-in-pieces" => read_pieces(alloc, text, 0, rest),
            "failing" => read_failing(alloc, text, count(word(rest, 0))),
            "within" => {
                let reader = match word(rest, 1) {
                    "interrupted" => Pieces::interrupted(text, 1, None),
                    _ => Pieces::steady(text, 4096, None),
                };
                let most = small(word(rest, 0));
                said(alloc, read_within(alloc, reader, most)?.as_str())
            }
            _ => Ok(None),
        }
    }

    /// What comes of writing the text.
    fn writing_answer(&self, words: &[&str]) -> Answer {
        let (alloc, text) = (self.alloc, self.text.as_slice());
        let (verb, rest) = parted(words);
        let number = count(word(rest, 0));
        match verb {
            "again" => written_again(alloc, text),
            "growing" => record_growing(alloc, text, number),
            "into-rooms" => match Way::of(rest) {
                Some(way) => way.into_rooms(alloc, text),
                None => Ok(None),
            },
            "packets" => packets_shown(alloc, text, number),
            "packet-faults" => faults_in_words(alloc),
            "packed" => {
                let (fails, flushes) = (word(rest, 1) == "failing", word(rest, 1) != "unflushed");
                pack_read(alloc, text, number, fails, flushes)
            }
            _ => Ok(None),
        }
    }
}

impl Subject for Texts {
    fn answer(&mut self, words: &[&str]) -> Answer {
        let (verb, rest) = parted(words);
        match verb {
            "text" => self.text.clear(),
            "more" => {}
            "first" => {
                self.text.truncate(count(word(rest, 0)));
                return done(self.alloc);
            }
            "write" => return self.writing_answer(rest),
            _ => return self.reading_answer(verb, rest),
        }
        self.put(rest)
    }
}
