//! What is asked of captures.
//!
//! A line asks one question: `worked: NAME`, or `WORD=NUMBER PART..: NAME` of a capture that is made piece by piece. A part is a
//! file, or `TIMES*FILE`; the answer is printed behind the name.
//!
//! | Word | What is asked |
//! |---|---|
//! | `worked` | all that is said of the capture of this name (`worked`) |
//! | `copies` | what the producers of its deliveries would be told by the verdicts of their copies (`seen`) |
//! | `cuts=10` | the verdicts of the text, cut to each length from this one on, where they change |
//! | `verdict` | the verdict of the text, which is made while it is read |
//! | `waits=15` | how many records the capture has, and whether the delivery that begins in this one waits in the end |
//! | `entries=21` | how many entries an auditor has behind so many records of the text, which is made while it is read |

use crate::examples::parts::{Part, PartsReader, octets_of};
use crate::examples::seen::tell_verdicts;
use crate::examples::taken::take;
use crate::examples::worked::{tell_other_verdicts, tell_verdict, tell_worked};
use audit_core::{Auditor, Verdict, audit_bytes, audit_stream};
use capture_form::{Reader, read_capture};
use std::alloc::Global;
use std::io;
use std::str::SplitWhitespace;
use trace_law::waiting_at;

/// Answers what a line asks.
pub fn answer(rt: &HostRuntime, line: &str) -> io::Result<()> {
    let (question, name) = line.split_once(": ").unwrap_or((line, line));
    let mut words = question.split_whitespace();
    let asked = words.next().unwrap_or("");
    let parts = parts_of(rt, words)?;
    answer_of(rt, line, asked, name, parts.as_slice())
}

/// The parts that words tell.
fn parts_of(rt: &HostRuntime, words: SplitWhitespace<'_>) -> io::Result<Vec<Part>> {
    let mut parts = Vec::new(rt.alloc());
    for word in words {
        parts.push(Part::of(rt, word)?)?;
    }
    Ok(parts)
}

/// Answers what a line asks of the capture of this name, or of these parts.
fn answer_of(
    rt: &HostRuntime,
    line: &str,
    asked: &str,
    name: &str,
    parts: &[Part],
) -> io::Result<()> {
    let (word, number) = asked.split_once('=').unwrap_or((asked, ""));
    let number = number.parse::<u32>().unwrap_or(0);
    match word {
        "worked" => tell_worked(rt, name),
        "copies" => tell_verdicts(rt, name),
        "cuts" => tell_cuts(rt, name, parts, number),
        "verdict" => tell_read(rt, name, parts),
        "waits" => tell_waiting(rt, name, parts, number),
        "entries" => tell_entries(rt, name, parts, number),
        _ => println!(rt; "no question: {line}"),
    }
}

/// Writes the verdicts of a text, cut to each length from this one on, where they change.
fn tell_cuts(rt: &HostRuntime, name: &str, parts: &[Part], first: u32) -> io::Result<()> {
    let octets = octets_of(rt.alloc(), parts)?;
    tell_cuts_of(rt, name, octets.as_slice(), first)
}

/// The same of octets.
fn tell_cuts_of(rt: &HostRuntime, name: &str, octets: &[u8], first: u32) -> io::Result<()> {
    let mut last = Verdict::NoMemory(0);
    for length in first as usize..=octets.len() {
        let cut = octets.get(..length).unwrap_or(&[]);
        let verdict = audit_bytes(rt.alloc(), cut);
        tell_other_verdicts(rt, cut, verdict)?;
        if verdict != last {
            tell_cut(rt, name, length, verdict)?;
        }
        last = verdict;
    }
    Ok(())
}

/// Writes the verdict of a text that is cut to a length.
fn tell_cut(rt: &HostRuntime, name: &str, length: usize, verdict: Verdict) -> io::Result<()> {
    let name = format!(in rt.alloc(); "{name} {length}")?;
    tell_verdict(rt, name.as_str(), verdict)
}

/// Writes the verdict of a text that is made while it is read.
fn tell_read(rt: &HostRuntime, name: &str, parts: &[Part]) -> io::Result<()> {
    let verdict = audit_stream(rt.alloc(), PartsReader::of(parts));
    println!(rt; "{name}: {verdict}")
}

/// Writes how many records a capture has, and whether the delivery that begins in one of them waits in the end.
fn tell_waiting(rt: &HostRuntime, name: &str, parts: &[Part], delivery: u32) -> io::Result<()> {
    let octets = octets_of(rt.alloc(), parts)?;
    tell_waiting_of(rt, name, octets.as_slice(), delivery)
}

/// The same of the capture that octets are, if they are one.
fn tell_waiting_of(rt: &HostRuntime, name: &str, octets: &[u8], delivery: u32) -> io::Result<()> {
    match read_capture(rt.alloc(), octets) {
        Ok(capture) => {
            let records = capture.records().len();
            let waits = waiting_at(&capture, records, u64::from(delivery));
            println!(rt; "{name}: {records} records, waits: {waits}")
        }
        Err(_) => println!(rt; "{name}: no capture"),
    }
}

/// Writes how many entries an auditor has behind so many records; none where one is refused, or there are fewer.
fn tell_entries(rt: &HostRuntime, name: &str, parts: &[Part], count: u32) -> io::Result<()> {
    let entries = entries_behind(rt.alloc(), parts, count);
    println!(rt; "{name}: {entries:?}")
}

/// How many entries an auditor has behind the first `count` records of a text; none where a record is refused, or the text
/// has fewer.
fn entries_behind(alloc: Global, parts: &[Part], count: u32) -> Option<usize> {
    match Reader::start(alloc, PartsReader::of(parts)) {
        Ok((rules, mut records)) => entries_of(
            &mut Auditor::new(alloc, rules),
            &mut records,
            count,
        ),
        Err(_) => None,
    }
}

/// How many entries an auditor has that takes so many next records.
///
/// It borrows the auditor: owned here, its drop would be proved on each way out.
fn entries_of(
    auditor: &mut Auditor,
    records: &mut Reader<PartsReader<'_>>,
    count: u32,
) -> Option<usize> {
    if takes(auditor, records, count) {
        Some(auditor.entries())
    } else {
        None
    }
}

/// Whether an auditor takes so many next records.
fn takes(auditor: &mut Auditor, records: &mut Reader<PartsReader<'_>>, count: u32) -> bool {
    for _ in 0..count {
        let Ok(Some(entry)) = records.next_record() else {
            return false;
        };
        if take(auditor, entry).is_err() {
            return false;
        }
    }
    true
}
