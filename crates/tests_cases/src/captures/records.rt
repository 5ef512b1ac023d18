//! Records that are looked at: their lines, what they come to, and the ids of deliveries.

use crate::captures::octets::octets_of;
use capture_view::{Happened, Ids, RecordView, Scope, Sender, said_by};
use capture_words::{Page, Summary};
use kit_cases::{Answer, Subject, behind, count, done, number, parted, said, small, told, word};
use pairing_cert::Note;
use std::alloc::Global;

/// What the records so far come to, and ids that are in use on one channel.
#[derive(Drop)]
pub struct Records {
    alloc: Global,
    summary: Summary,
    ids: Ids<u64>,
}

/// The channel of the ids.
const SCOPE: Scope = Scope {
    connection: 1,
    channel: 0,
    sender: Sender::Router,
};

impl Records {
    pub fn new(alloc: Global) -> Records {
        Records {
            alloc,
            summary: Summary::new(alloc),
            ids: Ids::new(alloc),
        }
    }
}

impl Subject for Records {
    fn answer(&mut self, words: &[&str]) -> Answer {
        let (verb, rest) = parted(words);
        match verb {
            "new" => *self = Records::new(self.alloc),
            "ids" => return self.ids_answer(rest),
            "table" => return self.table(),
            "text" => return self.text(count(word(rest, 0)), behind(rest, 1)),
            "octets" => return self.octets(count(word(rest, 0)), behind(rest, 1)),
            _ => return self.record_answer(verb, rest),
        }
        done(self.alloc)
    }
}

impl Records {
    /// What comes of the record of these words.
    fn record_answer(&mut self, verb: &str, words: &[&str]) -> Answer {
        let Some(octets) = octets_of(self.alloc, behind(words, 4))? else {
            return Ok(None);
        };
        let Some(view) = view_of(words, octets.as_slice()) else {
            return Ok(None);
        };
        match verb {
            "line" => self.line(&view),
            "take" => self.take(&view),
            _ => Ok(None),
        }
    }

    /// The line of a record.
    fn line(&self, view: &RecordView<'_>) -> Answer {
        let mut page = Page::new(self.alloc, None);
        page.put_record(view, None, true)?;
        told(self.alloc, page.text())
    }

    /// A record is taken: how many deliveries wait on the first link then.
    fn take(&mut self, view: &RecordView<'_>) -> Answer {
        self.summary.take(view)?;
        let waiting = self.summary.rows().first().map(|row| row.waiting);
        told(self.alloc, waiting)
    }

    /// The table of the records that were taken.
    fn table(&self) -> Answer {
        let mut page = Page::new(self.alloc, None);
        self.summary.put(&mut page)?;
        Ok(Some(format!(in self.alloc; ":\n{}", page.text())?))
    }

    /// A text, as it stands in a line that cuts it at this width.
    fn text(&self, width: usize, words: &[&str]) -> Answer {
        let Some(octets) = octets_of(self.alloc, words)? else {
            return Ok(None);
        };
        let mut page = Page::new(self.alloc, Some(width));
        page.put_text(str::from_utf8(octets.as_slice()).unwrap_or("no text"))?;
        said(self.alloc, page.text())
    }

    /// Octets, as they stand in a line that cuts them at this width.
    fn octets(&self, width: usize, words: &[&str]) -> Answer {
        let Some(octets) = octets_of(self.alloc, words)? else {
            return Ok(None);
        };
        let mut page = Page::new(self.alloc, Some(width));
        page.put_octets(octets.as_slice())?;
        said(self.alloc, page.text())
    }

    /// What comes of words about the ids.
    fn ids_answer(&mut self, words: &[&str]) -> Answer {
        let (verb, rest) = parted(words);
        let (first, last) = (small(word(rest, 0)), small(word(rest, 1)));
        match verb {
            "insert" => self.ids.insert(SCOPE, first, number(word(rest, 1)))?,
            "clear" => self.ids.clear(SCOPE),
            "has" => return told(self.alloc, self.ids.has_covered(SCOPE, first, last)),
            "take" => return told(self.alloc, self.ids.take_covered(SCOPE, first, last)),
            _ => return Ok(None),
        }
        done(self.alloc)
    }
}

/// The record whose number, connection, note and kind are these words, with the octets of its frame.
fn view_of<'a>(words: &[&str], octets: &'a [u8]) -> Option<RecordView<'a>> {
    let happened = match word(words, 3) {
        "opened" => Happened::Opened,
        "in" => Happened::In(said_by(octets)),
        "out" => Happened::Out(said_by(octets)),
        "lost" => Happened::Lost,
        "broken" => Happened::Broken,
        _ => return None,
    };
    Some(RecordView {
        number: number(word(words, 0)),
        connection: small(word(words, 1)),
        happened,
        note: note_of(word(words, 2))?,
    })
}

/// The note of a word: `-`, `carries:RECORD`, or `told:` and the letter of a row.
fn note_of(word: &str) -> Option<Note> {
    match word.split_once(':') {
        None => Some(Note::None),
        Some(("carries", record)) => Some(Note::Pair(number(record))),
        Some((_, row)) => {
            let octet = u8::try_from("CZSLNM".find(row)?).ok()?.checked_add(2)?;
            Note::from_parts(octet, 0).ok()
        }
    }
}
