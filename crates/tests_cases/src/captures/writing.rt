//! Captures that are written, to writers with room for them or less.

use crate::captures::fakes::Room;
use crate::captures::runs::Runs;
use capture_form::{Capture, Reader, WriteFault, append, append_head, read_capture, write_capture};
use capture_journal::Journal;
use capture_packets::{PacketFault, PacketWriter};
use capture_recorder::Recorder;
use kit_cases::{Answer, count, parted, told, word};
use std::alloc::{AllocError, Global};
use std::io::ErrorKind;

/// What was written.
#[derive(Drop)]
pub struct Written {
    pub octets: Vec<u8>,
    pub answer: Result<u64, PacketFault>,
    /// Whether no octet more was taken behind a fault.
    is_kept: bool,
}

/// No octet was taken, since an earlier write failed.
const NONE_TAKEN: WriteFault = WriteFault { taken: 0 };

/// Writes by `append_head` and `append`. It answers how many octets the head has.
fn appended(capture: &Capture, room: Room) -> Written {
    let mut room = room;
    let answer = append_all(&mut room, capture);
    Written {
        octets: room.octets,
        answer: answer.map_err(PacketFault::Write),
        is_kept: true,
    }
}

fn append_all(room: &mut Room, capture: &Capture) -> Result<u64, WriteFault> {
    let head = append_head(room, capture.rules())?;
    for entry in capture.records() {
        append(room, entry)?;
    }
    Ok(head)
}

/// Writes by a recorder. It answers how many records there are.
fn recorded(capture: &Capture, room: Room) -> Written {
    let mut recorder = Recorder::new(room);
    let answer = record_all(&mut recorder, capture);
    let is_kept = answer.is_ok()
        || (recorder.write_from(capture, 0) == Err(NONE_TAKEN)
            && recorder.start(capture) == Err(NONE_TAKEN));
    Written {
        octets: recorder.into_writer().octets,
        answer: answer.map_err(PacketFault::Write),
        is_kept,
    }
}

fn record_all(recorder: &mut Recorder<Room>, capture: &Capture) -> Result<u64, WriteFault> {
    recorder.start(capture)?;
    recorder.write_from(capture, 0)
}

/// Writes by a journal: what stands in front of the records, and then all of these. It answers how many records there are.
fn journaled(alloc: Global, capture: &Capture, room: Room) -> Result<Written, AllocError> {
    let base = Capture::new(alloc, capture.rules().copied(alloc)?);
    let mut journal = Journal::new(alloc, base, room)?;
    let answer = hand_over_all(&mut journal, capture)?;
    let is_kept = match answer {
        Ok(_) => journal.waiting().is_empty(),
        Err(_) => journal.hand_over() == Err(NONE_TAKEN),
    };
    let passed_on = journal.flush();
    let waits = journal.waiting().len();
    let room = journal.into_writer();
    // What was taken and what waits is the whole text, and the writer is to pass it on just where all was taken.
    let is_whole = waits.saturating_add(room.octets.len()) == write_capture(alloc, capture)?.len();
    let is_flushed = passed_on.is_ok() == answer.is_ok() && room.is_flushed == answer.is_ok();
    Ok(Written {
        octets: room.octets,
        answer: answer.map_err(PacketFault::Write),
        is_kept: is_kept && is_whole && is_flushed,
    })
}

/// Hands over what stands in front of the records, and then, where that was taken, the records.
fn hand_over_all(
    journal: &mut Journal<Room>,
    capture: &Capture,
) -> Result<Result<u64, WriteFault>, AllocError> {
    let head = journal.hand_over();
    journal.note(capture.records())?;
    let written = match head {
        Ok(()) => journal.hand_over(),
        Err(fault) => Err(fault),
    };
    Ok(match written {
        Ok(()) => Ok(journal.count()),
        Err(fault) => Err(fault),
    })
}

/// Writes as packets. It answers how many records there are.
pub fn packed(alloc: Global, capture: &Capture, room: Room) -> Written {
    let mut packets = PacketWriter::new(alloc, room);
    let answer = pack_all(&mut packets, capture);
    let is_kept = answer.is_ok() || packets.start() == Err(NONE_TAKEN);
    Written {
        octets: packets.into_writer().octets,
        answer,
        is_kept,
    }
}

fn pack_all(packets: &mut PacketWriter<Room>, capture: &Capture) -> Result<u64, PacketFault> {
    packets.start().map_err(PacketFault::Write)?;
    for (number, entry) in capture.records().iter().enumerate() {
        packets.put(number as u64, entry)?;
    }
    Ok(capture.records().len() as u64)
}

impl Written {
    /// What came of a room of so many octets, where these are to be written: the answer, or where that begins which was cut.
    fn in_words(&self, alloc: Global, left: usize, whole: &[u8]) -> Result<String, AllocError> {
        if whole.get(..left) != Some(self.octets.as_slice()) {
            return "other octets".to_string(alloc);
        }
        if !self.is_kept {
            return "another answer behind the fault".to_string(alloc);
        }
        match self.answer {
            Ok(count) => format!(in alloc; "whole, {count}"),
            Err(PacketFault::Write(fault)) => {
                let start = (left as u64).saturating_sub(fault.taken);
                format!(in alloc; "cut behind {start}")
            }
            Err(fault) => format!(in alloc; "{fault}"),
        }
    }
}

/// By what a capture is written, and to what writer.
#[derive(Clone, Copy)]
pub struct Way {
    /// By `append`, by a recorder, by a journal, or as packets.
    by: By,
    /// The most octets of a call.
    most: usize,
    /// How a call fails that finds no room.
    fault: Option<ErrorKind>,
}

#[derive(Clone, Copy)]
enum By {
    Append,
    Record,
    Journal,
    Pack,
}

impl Way {
    /// The way of these words: by what, the most octets of a call, and how a call fails.
    pub fn of(words: &[&str]) -> Option<Way> {
        let (by, rest) = parted(words);
        let by = match by {
            "append" => By::Append,
            "record" => By::Record,
            "journal" => By::Journal,
            "pack" => By::Pack,
            _ => return None,
        };
        let fault = match word(rest, 1) {
            "full" => Some(ErrorKind::StorageFull),
            "interrupted" => Some(ErrorKind::Interrupted),
            _ => None,
        };
        Some(Way {
            by,
            most: count(word(rest, 0)),
            fault,
        })
    }

    fn write(self, alloc: Global, capture: &Capture, left: usize) -> Result<Written, AllocError> {
        let room = Room::new(alloc, self.most, left, self.fault);
        match self.by {
            By::Append => Ok(appended(capture, room)),
            By::Record => Ok(recorded(capture, room)),
            By::Journal => journaled(alloc, capture, room),
            By::Pack => Ok(packed(alloc, capture, room)),
        }
    }

    /// What is written of a capture's text.
    fn whole_of(self, alloc: Global, capture: &Capture) -> Result<Vec<u8>, AllocError> {
        match self.by {
            By::Append | By::Record | By::Journal => write_capture(alloc, capture),
            By::Pack => Ok(packed(alloc, capture, Room::new(alloc, 4096, 1000000, None)).octets),
        }
    }

    /// What comes of writing a capture to a writer with room for so many octets, for each number of them.
    pub fn into_rooms(self, alloc: Global, text: &[u8]) -> Answer {
        let Ok(capture) = read_capture(alloc, text) else {
            return Ok(None);
        };
        let whole = self.whole_of(alloc, &capture)?;
        let mut runs = Runs::new(alloc);
        let end = whole.len().saturating_add(1);
        for left in 0..end {
            let written = self.write(alloc, &capture, left)?;
            runs.add(left, written.in_words(alloc, left, whole.as_slice())?)?;
        }
        runs.told(end)
    }
}

/// Whether a text that is read stands so again when it is written, and one that grows record by record too.
pub fn written_again(alloc: Global, text: &[u8]) -> Answer {
    let (Ok(capture), Some(grown)) = (read_capture(alloc, text), grown(alloc, text)?) else {
        return Ok(None);
    };
    let written = write_capture(alloc, &capture)?;
    let written_grown = write_capture(alloc, &grown)?;
    told(
        alloc,
        (written.as_slice() == text, written_grown.as_slice() == text),
    )
}

/// The capture of a text, which grows record by record.
fn grown(alloc: Global, text: &[u8]) -> Result<Option<Capture>, AllocError> {
    let Ok((rules, mut text)) = Reader::start(alloc, text) else {
        return Ok(None);
    };
    let mut capture = Capture::new(alloc, rules);
    for _ in 0..1000 {
        let Ok(Some(record)) = text.next_record() else {
            return Ok(Some(capture));
        };
        let mut records = Vec::new(alloc);
        records.push(record)?;
        capture.extend(records)?;
    }
    Ok(Some(capture))
}

/// What a recorder answers of a capture that has come to its first octets, once more of it, and of all of it; and whether
/// its text stands then.
pub fn record_growing(alloc: Global, text: &[u8], cut: usize) -> Answer {
    let short = read_capture(alloc, text.get(..cut).unwrap_or(text));
    let (Ok(short), Ok(whole)) = (short, read_capture(alloc, text)) else {
        return Ok(None);
    };
    let mut recorder = Recorder::new(Room::new(alloc, 4096, text.len(), None));
    let started = recorder.start(&short);
    let first = write_on(&mut recorder, &short, 0);
    let again = write_on(&mut recorder, &short, first.unwrap_or(0));
    let last = write_on(&mut recorder, &whole, again.unwrap_or(0));
    let stands = recorder.into_writer().octets.as_slice() == text;
    told(alloc, (started, first, again, last, stands))
}

/// Writes the records behind so many, or behind all.
fn write_on(
    recorder: &mut Recorder<Room>,
    capture: &Capture,
    from: u64,
) -> Result<u64, WriteFault> {
    let from = from.min(capture.records().len() as u64);
    recorder.write_from(capture, from)
}
