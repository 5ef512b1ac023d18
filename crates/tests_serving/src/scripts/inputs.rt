//! Which inputs may come, and where the frames that were written stand.

use crate::scripts::step::ScriptLine;
use capture_form::{Frame, Record, What};
use pairing_cert::Note;
use route_items::{ConnectionStates, Item, WrittenFrames};
use std::alloc::{AllocError, AllocGlobal, Global};
use std::io;

/// Has the item of each step come, and prints whether an opening, a frame, octets that are none and a loss may come then on its
/// connection. A step `asked` has none come.
pub fn play_connection_states<R: Print + AllocGlobal>(rt: &R, steps: &[&str]) -> io::Result<()> {
    let mut states = ConnectionStates::new(rt.alloc());
    tell_connection_states(rt, &mut states, steps)
}

/// The same.
///
/// It borrows the states: owned here, their drop would be proved on each way out.
fn tell_connection_states<R: Print + AllocGlobal>(
    rt: &R,
    states: &mut ConnectionStates,
    steps: &[&str],
) -> io::Result<()> {
    for line in steps {
        let step = ScriptLine::of(line);
        come(rt.alloc(), states, &step)?;
        println!(rt; "{line}: {:?}", answers(states, step.number()))?;
    }
    Ok(())
}

/// Has the item of a step come, if it has one.
fn come(
    alloc: Global,
    states: &mut ConnectionStates,
    step: &ScriptLine<'_>,
) -> Result<(), AllocError> {
    let octets = step.octets(alloc);
    match item_of(step, octets.as_slice()) {
        Some(item) => states.come(item),
        None => Ok(()),
    }
}

/// The item of a step.
fn item_of<'a>(step: &ScriptLine<'_>, octets: &'a [u8]) -> Option<Item<'a>> {
    match step.verb {
        "opened" => Some(Item::Opened(step.number())),
        "in" => Some(Item::In(step.number(), octets)),
        "broken" => Some(Item::Broken(step.number())),
        "lost" => Some(Item::Lost(step.number())),
        _ => None,
    }
}

/// Whether an opening, a frame, octets that are none and a loss may come on the connection.
fn answers(states: &ConnectionStates, connection: u32) -> [bool; 4] {
    [
        states.may_come(Item::Opened(connection)),
        states.may_come(Item::In(connection, &[])),
        states.may_come(Item::Broken(connection)),
        states.may_come(Item::Lost(connection)),
    ]
}

/// Records come one by one; with a step `known` it is known where their frames stand, and with a step `there` they stand with the
/// others. Prints for each step `next CONNECTION NUMBER` the first frame of the connection from that record on.
pub fn play_written_frames<R: Print + AllocGlobal>(rt: &R, steps: &[&str]) -> io::Result<()> {
    let alloc = rt.alloc();
    let mut written = Written {
        frames: WrittenFrames::new(alloc),
        records: Vec::new(alloc),
        more: Vec::new(alloc),
    };
    written.play(rt, steps)
}

/// Records that stand there, more that came, and where the frames that are known stand.
#[derive(Drop)]
struct Written {
    frames: WrittenFrames,
    records: Vec<Record>,
    more: Vec<Record>,
}

impl Written {
    /// Plays the steps. It is lent: in a function that owns it its drop would be proved on each way out.
    fn play<R: Print + AllocGlobal>(&mut self, rt: &R, steps: &[&str]) -> io::Result<()> {
        for line in steps {
            let step = ScriptLine::of(line);
            match step.verb {
                "opened" | "out" => self.more.push(record_of(rt.alloc(), &step)?)?,
                "known" => self.frames.extend(self.records.len() as u64, &self.more)?,
                "there" => self.records.append(&mut self.more)?,
                _ => {
                    let from = u64::from(step.count());
                    let next = self.frames.next(&self.records, step.number(), from);
                    println!(rt; "{line}: {next:?}")?;
                }
            }
        }
        Ok(())
    }
}

/// The most octets of a frame here.
const LARGEST: usize = 64;

/// The record of a step: a frame of these octets, or, where there are none, an opening.
fn record_of(alloc: Global, step: &ScriptLine<'_>) -> Result<Record, AllocError> {
    let octets = step.octets(alloc);
    let what = if octets.is_empty() {
        What::Opened
    } else {
        let count = octets.len().min(LARGEST);
        What::Out(Frame::new(alloc, &octets[..count])?)
    };
    Ok(Record {
        connection: step.number(),
        what,
        note: Note::None,
    })
}
