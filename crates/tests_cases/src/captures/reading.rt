//! Texts of captures that are read whole, or record by record from a reader.

use crate::captures::fakes::Pieces;
use crate::captures::runs::Runs;
use capture_form::{
    Form, FormFault, Reader, Record, Rule, RuleSet, What, read_capture, read_whole_records,
};
use kit_cases::{Answer, count};
use std::alloc::{AllocError, Global};
use std::io::Read;

/// What was read of a text: its rules, the whole records before its first fault, and the fault.
#[derive(Drop)]
pub struct Found {
    pub rules: RuleSet,
    pub records: Vec<Record>,
    pub fault: Option<FormFault>,
    /// Whether the fault was answered once more.
    is_kept: bool,
}

impl Found {
    /// Nothing but a fault.
    fn fault(alloc: Global, fault: FormFault) -> Found {
        Found {
            rules: RuleSet::new(Form::One, Vec::new(alloc)),
            records: Vec::new(alloc),
            fault: Some(fault),
            is_kept: true,
        }
    }

    /// How many rules and records there are, and the fault.
    fn in_words(&self, alloc: Global) -> Result<String, AllocError> {
        if !self.is_kept {
            return "another answer behind the fault".to_string(alloc);
        }
        in_words(
            alloc,
            self.rules.list().len(),
            self.records.len(),
            self.fault,
        )
    }
}

/// How many rules and records were read, and the fault behind them.
fn in_words(
    alloc: Global,
    rules: usize,
    records: usize,
    fault: Option<FormFault>,
) -> Result<String, AllocError> {
    match fault {
        None => format!(in alloc; "whole, rules {rules}, records {records}"),
        Some(FormFault { offset, kind }) => {
            let number = kind.number();
            format!(in alloc; "{kind:?} ({number}) at {offset}, records {records}")
        }
    }
}

/// What is read of a text that is there whole, in both ways in which it can be read.
pub fn read_in_words(alloc: Global, octets: &[u8]) -> Result<String, AllocError> {
    let read = read_whole_records(alloc, octets);
    let fault = read_capture(alloc, octets).err();
    if fault != read.fault {
        return format!(in alloc; "{fault:?} and {:?}", read.fault);
    }
    let capture = &read.capture;
    in_words(
        alloc,
        capture.rules().list().len(),
        capture.records().len(),
        fault,
    )
}

/// What is read of the first octets of a text, for each number of octets.
pub fn read_cuts(alloc: Global, octets: &[u8]) -> Answer {
    let mut runs = Runs::new(alloc);
    let end = octets.len().saturating_add(1);
    for cut in 0..end {
        let front = octets.get(..cut).unwrap_or(octets);
        runs.add(cut, read_in_words(alloc, front)?)?;
    }
    runs.told(end)
}

/// Reads record by record, up to the first fault.
pub fn found_in<R: Read>(
    alloc: Global,
    started: Result<(RuleSet, Reader<R>), FormFault>,
) -> Result<Found, AllocError>
where
    R: Drop,
{
    let (rules, mut text) = match started {
        Ok(started) => started,
        Err(fault) => return Ok(Found::fault(alloc, fault)),
    };
    let mut found = Found {
        rules,
        records: Vec::new(alloc),
        fault: None,
        is_kept: true,
    };
    for _ in 0..1000 {
        match text.next_record() {
            Ok(Some(record)) => found.records.push(record)?,
            Ok(None) => return Ok(found),
            Err(fault) => {
                found.fault = Some(fault);
                found.is_kept = text.next_record().err() == found.fault;
                return Ok(found);
            }
        }
    }
    Ok(found)
}

/// How many texts were read in pieces, of these sizes each, as they are read whole: the first octets of a text, from so
/// many on; or one that was read otherwise.
pub fn read_pieces(alloc: Global, octets: &[u8], from: usize, sizes: &[&str]) -> Answer {
    let mut texts = 0u64;
    let end = octets.len().saturating_add(1);
    for cut in from..end {
        let front = octets.get(..cut).unwrap_or(octets);
        for size in sizes {
            if !is_read_as_whole(alloc, front, count(size))? {
                return Ok(Some(format!(in alloc; ": otherwise {cut} octets by {size}")?));
            }
            texts = texts.saturating_add(1);
        }
    }
    Ok(Some(format!(in alloc; ": {texts} as whole")?))
}

/// Whether a text is read in pieces of this size as it is read whole.
fn is_read_as_whole(alloc: Global, octets: &[u8], size: usize) -> Result<bool, AllocError> {
    let reader = Pieces::interrupted(octets, size, None);
    let found = found_in(alloc, Reader::start(alloc, reader))?;
    let whole = read_whole_records(alloc, octets);
    let (rules, records) = (whole.capture.rules(), whole.capture.records());
    Ok(
        found.is_kept
            && found.fault == whole.fault
            && are_same_rules(&found.rules, rules)
            && found.records.len() == records.len()
            && found
                .records
                .iter()
                .zip(records)
                .all(|(one, other)| is_same_record(one, other)),
    )
}

fn are_same_rules(these: &RuleSet, others: &RuleSet) -> bool {
    let (list, other_list) = (these.list(), others.list());
    these.form() == others.form()
        && list.len() == other_list.len()
        && list
            .iter()
            .zip(other_list)
            .all(|(one, other)| is_same_rule(one, other))
}

fn is_same_rule(one: &Rule, other: &Rule) -> bool {
    one.distribution == other.distribution && one.prefix.as_str() == other.prefix.as_str()
}

fn is_same_record(one: &Record, other: &Record) -> bool {
    let is_same = match (&one.what, &other.what) {
        (What::In(frame), What::In(read)) | (What::Out(frame), What::Out(read)) => {
            frame.octets() == read.octets()
        }
        (What::Opened, What::Opened) | (What::Lost, What::Lost) | (What::Broken, What::Broken) =>
            true,
        _ => false,
    };
    is_same && one.connection == other.connection && one.note == other.note
}

/// What is read in pieces of a text whose reader fails, for each number of octets behind which it does.
pub fn read_failing(alloc: Global, octets: &[u8], size: usize) -> Answer {
    let mut runs = Runs::new(alloc);
    let end = octets.len().saturating_add(1);
    for cut in 0..end {
        let reader = Pieces::interrupted(octets, size, Some(cut));
        let found = found_in(alloc, Reader::start(alloc, reader))?;
        runs.add(cut, found.in_words(alloc)?)?;
    }
    runs.told(end)
}

/// What is read from a reader with at most so many reads and octets.
pub fn read_within<R: Read>(alloc: Global, reader: R, most: u32) -> Result<String, AllocError>
where
    R: Drop,
{
    let started = Reader::start_within(alloc, reader, u64::from(most));
    found_in(alloc, started)?.in_words(alloc)
}

/// The mark, where the form has one, the rules and the records of a text, a line for each.
pub fn shown(alloc: Global, octets: &[u8]) -> Answer {
    let read = read_whole_records(alloc, octets);
    let mut lines = ":".to_string(alloc)?;
    let rules = read.capture.rules();
    if let Form::Two { anonymous } = rules.form() {
        write!(lines, "\n    anonymous {anonymous}")?;
    }
    for rule in rules.list() {
        write!(lines, "\n    {:?} {}", rule.distribution, rule.prefix)?;
    }
    for record in read.capture.records() {
        write!(lines, "\n    {}, {:?}, ", record.connection, record.note)?;
        lines.push_str(happened(alloc, &record.what)?.as_str())?;
    }
    Ok(Some(lines))
}

/// What happened, with the octets of a frame.
fn happened(alloc: Global, what: &What) -> Result<String, AllocError> {
    match what {
        What::Opened => "opened".to_string(alloc),
        What::In(frame) => format!(in alloc; "in {}", hex::encode(alloc, frame.octets())?),
        What::Out(frame) => format!(in alloc; "out {}", hex::encode(alloc, frame.octets())?),
        What::Lost => "lost".to_string(alloc),
        What::Broken => "broken".to_string(alloc),
    }
}
