//! How far a scenario is played: what its lines do, and what they tell of the records that a core wrote.

use crate::deed::Deed;
use crate::frames::{octets_of, unknown_word};
use crate::records::{Names, is_told_by, told};
use crate::words::Words;
use capture_form::Record;
use flow_counts::MAX_FRAME_SIZE;
use route_items::StepFault;
use std::alloc::{AllocError, Global};

/// Where a core does otherwise than a scenario tells, or a line is none.
#[derive(Drop)]
pub struct Difference {
    /// The number of the line, from 1.
    pub line: usize,
    /// What differs.
    pub what: String,
}

/// How far a scenario is played.
#[derive(Drop)]
pub struct Stage {
    alloc: Global,
    /// The number of the line, from 1.
    line: usize,
    /// How many records are told.
    told: usize,
    names: Names,
    differences: Vec<Difference>,
}

impl Stage {
    /// The stage before the first line.
    pub fn new(alloc: Global) -> Stage {
        Stage {
            alloc,
            line: 0,
            told: 0,
            names: Names::new(alloc),
            differences: Vec::new(alloc),
        }
    }

    /// The next line begins.
    pub fn go_on(&mut self) {
        self.line = self.line.saturating_add(1);
    }

    /// How many records are told.
    pub fn told(&self) -> usize {
        self.told
    }

    /// The names of the deliveries.
    pub fn names(&self) -> &Names {
        &self.names
    }

    /// All differences, in order.
    pub fn into_differences(self) -> Vec<Difference> {
        self.differences
    }

    /// These words tell a difference.
    ///
    /// # Errors
    ///
    /// Where memory is refused, as in all that follow.
    pub fn differ(&mut self, what: &str) -> Result<(), AllocError> {
        let what = String::from_str(self.alloc, what)?;
        self.put(what)
    }

    /// This text tells a difference.
    fn put(&mut self, what: String) -> Result<(), AllocError> {
        let line = self.line;
        self.differences.push(Difference { line, what })?;
        Ok(())
    }

    /// Each of these records that isn't told by now differs.
    pub fn pass_untold(&mut self, records: &[Record]) -> Result<(), AllocError> {
        for entry in records.iter().skip(self.told) {
            self.pass(entry)?;
        }
        Ok(())
    }

    /// This record, which isn't told by now, differs.
    fn pass(&mut self, entry: &Record) -> Result<(), AllocError> {
        let wrote = told(self.alloc, entry, &self.names)?;
        self.put(format!(in self.alloc; "before it stands `{wrote}`")?)?;
        self.told = self.told.saturating_add(1);
        Ok(())
    }

    /// Compares the next of these records with what the line tells.
    pub fn compare(&mut self, records: &[Record], line: &Words<'_>) -> Result<(), AllocError> {
        let Some(entry) = records.get(self.told) else {
            return self.differ("nothing more was written");
        };
        self.told = self.told.saturating_add(1);
        let wrote = told(self.alloc, entry, &self.names)?;
        self.has_to_say("there stands", wrote.as_str(), line)
    }

    /// Compares what there is with what the line tells.
    pub fn has_to_say(
        &mut self,
        who: &str,
        said: &str,
        line: &Words<'_>,
    ) -> Result<(), AllocError> {
        if is_told_by(&Words::of(self.alloc, said)?, line) {
            return Ok(());
        }
        self.put(format!(in self.alloc; "{who} `{said}`")?)
    }

    /// What the line does to a core, the so-manyth time that it does; nothing where it says what nobody does, which differs.
    pub fn deed(
        &mut self,
        words: &Words<'_>,
        connection: u32,
        turn: u32,
    ) -> Result<Option<Deed>, AllocError> {
        match words.at(1) {
            "opened" => Ok(Some(Deed::Opened(connection))),
            "broken" => Ok(Some(Deed::Broken(connection))),
            "lost" => Ok(Some(Deed::Lost(connection))),
            ">" => self.frame(words, connection, turn),
            _ => {
                self.differ("the line says nothing")?;
                Ok(None)
            }
        }
    }

    /// The frame that a client's line sends.
    fn frame(
        &mut self,
        words: &Words<'_>,
        connection: u32,
        turn: u32,
    ) -> Result<Option<Deed>, AllocError> {
        if let Some(word) = unknown_word(words) {
            self.put(format!(in self.alloc; "no client says `{word}`")?)?;
            return Ok(None);
        }
        let octets = octets_of(self.alloc, words, turn)?;
        let Some(octets) = octets else {
            self.differ("there is no such frame")?;
            return Ok(None);
        };
        if octets.len() > MAX_FRAME_SIZE as usize {
            self.differ("the frame is too long")?;
            return Ok(None);
        }
        Ok(Some(Deed::In(connection, octets)))
    }

    /// A core took what the line does, or did not, as the line tells.
    pub fn took(
        &mut self,
        stepped: Result<(), StepFault>,
        words: &Words<'_>,
    ) -> Result<(), AllocError> {
        let Err(fault) = stepped else {
            if words.value("refused").is_some() {
                self.differ("the core takes the item")?;
            }
            return self.name(words);
        };
        if fault == StepFault::Memory {
            return Err(AllocError);
        }
        if words.value("refused") == Some(reason_of(fault)) {
            return Ok(());
        }
        self.differ("the core takes no such item")
    }

    /// The line tells the next record; one that begins a delivery gets its name.
    fn name(&mut self, words: &Words<'_>) -> Result<(), AllocError> {
        if let Some(name) = words.value("as") {
            self.names.give(self.told as u64, name)?;
        }
        self.told = self.told.saturating_add(1);
        Ok(())
    }
}

/// Why a core does not take an item, in the word of a line.
fn reason_of(fault: StepFault) -> &'static str {
    match fault {
        StepFault::Memory => "memory",
        StepFault::Full => "full",
        StepFault::UnknownConn => "unknown",
        StepFault::Failed => "failed",
    }
}
