//! What came of a client whose stream is fed to an engine, and whether that is as it has to be.

use capture_form::{Capture, What};
use conn_engine::EngineFault;
use kit_clients::Reading;
use route_items::StepFault;
use std::alloc::{AllocError, Global};

/// What was seen of an engine.
#[derive(Clone, Copy)]
pub struct EngineReport {
    /// How many octets of the stream were fed. A feed that is answered `Over` does not count.
    pub fed: usize,
    /// What the first feed was answered that was not taken, but for `Over`.
    pub fault: Option<EngineFault>,
    /// How many octets were given when it was last seen before it was over, and when it was first seen over.
    pub before_over: Option<usize>,
    pub over: Option<usize>,
    /// What was answered when the device had ended.
    pub loss: Option<Result<(), EngineFault>>,
    /// Whether each feed behind a fault, behind the end or where it was over was answered so.
    pub is_steady: bool,
}

/// What came of a client: its stream, what was seen, the items that the core took and the frames that the port gave, and
/// the octets that its device took.
#[derive(Drop)]
pub struct Served {
    pub connection: u32,
    pub stream: Vec<u8>,
    pub seen: EngineReport,
    pub items: Vec<What>,
    pub frames: Vec<Vec<u8>>,
    pub given: Vec<u8>,
}

impl EngineReport {
    /// Nothing was seen yet.
    pub const NOTHING: EngineReport = EngineReport {
        fed: 0,
        fault: None,
        before_over: None,
        over: None,
        loss: None,
        is_steady: true,
    };

    /// So many octets were fed to an engine that was over or not, and it answered this.
    pub fn was_fed(&mut self, was_over: bool, count: usize, answer: Result<(), EngineFault>) {
        if was_over {
            self.expect(answer == Err(EngineFault::Over));
            return;
        }
        self.fed = self.fed.saturating_add(count);
        match self.fault {
            // It is still to give the router's close.
            Some(fault) => {
                self.expect(fault == EngineFault::Frame && answer == Err(EngineFault::Frame));
            }
            None => self.fault = answer.err(),
        }
    }

    /// Notes that the device has ended, and that the engine answered this: what it answered first is kept, and each time after
    /// that it has to answer `Ok`.
    pub fn note_end(&mut self, answer: Result<(), EngineFault>) {
        match self.loss {
            Some(_) => self.expect(answer == Ok(())),
            None => self.loss = Some(answer),
        }
    }

    /// The engine is over or not, and so many octets were given. Once it is over, or its device has ended, it stays so.
    pub fn look(&mut self, is_over: bool, given: usize) {
        if self.loss.is_some() || self.over.is_some() {
            self.expect(is_over);
        } else if is_over {
            self.over = Some(given);
        } else {
            self.before_over = Some(given);
        }
    }

    /// This is to be so.
    fn expect(&mut self, holds: bool) {
        self.is_steady = self.is_steady && holds;
    }
}

/// What a core was told.
#[derive(Clone, Copy, PartialEq, Eq)]
enum Told<'a> {
    Opened,
    In(&'a [u8]),
    Broken,
    Lost,
}

/// What stands in a capture of one connection: what the core was told, and the frames that it wrote.
#[derive(Drop)]
struct Recorded<'a> {
    told: Vec<Told<'a>>,
    written: Vec<&'a [u8]>,
}

/// Whether each client of a core that may have so many records was served as its octets say, and the core's capture tells
/// of no others. Their connections are numbered in order.
///
/// # Errors
///
/// Where memory is refused.
pub fn are_served(
    alloc: Global,
    capture: &Capture,
    limit: u64,
    clients: &[Served],
) -> Result<bool, AllocError> {
    let count = clients.len() as u64;
    let mut connections = capture.records().iter().map(|entry| entry.connection);
    if !connections.all(|connection| u64::from(connection) < count) {
        return Ok(false);
    }
    let is_full = capture.records().len() as u64 >= limit;
    for served in clients {
        if !is_served(alloc, capture, is_full, served)? {
            return Ok(false);
        }
    }
    Ok(true)
}

/// Whether a client was served as its octets say.
fn is_served(
    alloc: Global,
    capture: &Capture,
    is_full: bool,
    served: &Served,
) -> Result<bool, AllocError> {
    let recorded = recorded_of(alloc, capture, served.connection)?;
    let fed = served.stream.get(..served.seen.fed).unwrap_or(&[]);
    let reading = kit_clients::read(alloc, fed)?;
    Ok(
        served.seen.is_steady
            && is_answered(&served.seen, &reading, is_full)
            && is_told_of(alloc, &served.seen, &reading, &recorded.told)?
            && is_recorded(served, &reading, &recorded)
            && is_given_by_port(alloc, &recorded.written, &served.frames)?,
    )
}

/// Whether what was recorded is what the port told, and what was given, in time.
fn is_recorded(served: &Served, reading: &Reading<'_>, recorded: &Recorded<'_>) -> bool {
    is_told_by_port(&recorded.told, &served.items)
        && is_given(&served.given, reading, &recorded.written)
        && is_over_in_time(&served.seen, reading, &recorded.written)
}

/// Whether the core was told what was read.
fn is_told_of(
    alloc: Global,
    seen: &EngineReport,
    reading: &Reading<'_>,
    told: &[Told<'_>],
) -> Result<bool, AllocError> {
    let read = told_of(alloc, reading)?;
    Ok(is_told(seen, &read, told))
}

/// Whether a port gives these frames.
fn is_given_by_port(
    alloc: Global,
    written: &[&[u8]],
    frames: &[Vec<u8>],
) -> Result<bool, AllocError> {
    Ok(written == slices_of(alloc, frames)?.as_slice())
}

/// What stands in a capture of a connection.
fn recorded_of<'a>(
    alloc: Global,
    capture: &'a Capture,
    connection: u32,
) -> Result<Recorded<'a>, AllocError> {
    let mut recorded = Recorded {
        told: Vec::new(alloc),
        written: Vec::new(alloc),
    };
    recorded.put_all(capture, connection)?;
    Ok(recorded)
}

impl<'a> Recorded<'a> {
    /// Puts what stands in a capture of a connection.
    fn put_all(&mut self, capture: &'a Capture, connection: u32) -> Result<(), AllocError> {
        for entry in capture.records() {
            if entry.connection == connection {
                self.put(&entry.what)?;
            }
        }
        Ok(())
    }

    /// Puts what a record tells.
    fn put(&mut self, what: &'a What) -> Result<(), AllocError> {
        match what {
            What::Out(frame) => self.written.push(frame.octets())?,
            what => self.told.push(told_in(what))?,
        }
        Ok(())
    }
}

/// What a record tells that is not of a frame that was written.
fn told_in(what: &What) -> Told<'_> {
    match what {
        What::Opened => Told::Opened,
        What::In(frame) | What::Out(frame) => Told::In(frame.octets()),
        What::Broken => Told::Broken,
        What::Lost => Told::Lost,
    }
}

/// What the core is to be told of octets.
fn told_of<'a>(alloc: Global, reading: &Reading<'a>) -> Result<Vec<Told<'a>>, AllocError> {
    let mut told = Vec::new(alloc);
    if reading.is_open {
        put_told(&mut told, reading)?;
    }
    Ok(told)
}

/// Puts it, where the octets come to frames.
fn put_told<'a>(told: &mut Vec<Told<'a>>, reading: &Reading<'a>) -> Result<(), AllocError> {
    told.push(Told::Opened)?;
    for frame in reading.frames.iter() {
        told.push(Told::In(frame))?;
    }
    if reading.fault.is_some() {
        told.push(Told::Broken)?;
    }
    Ok(())
}

/// Whether a client was answered as its octets say, or else because the core is full.
fn is_answered(seen: &EngineReport, reading: &Reading<'_>, is_full: bool) -> bool {
    let full = EngineFault::Port(StepFault::Full);
    let is_loss_answered = seen.loss == Some(Ok(())) || (is_full && seen.loss == Some(Err(full)));
    let is_feed_answered = seen.fault == reading.fault || (is_full && seen.fault == Some(full));
    is_loss_answered && is_feed_answered
}

/// Whether the core was told what was read, or where it was full the first of it, and then of the loss.
fn is_told(seen: &EngineReport, read: &[Told<'_>], told: &[Told<'_>]) -> bool {
    let told = match told {
        [told @ .., Told::Lost] => {
            if seen.loss != Some(Ok(())) || told.is_empty() {
                return false;
            }
            told
        }
        _ => {
            if seen.loss == Some(Ok(())) && !told.is_empty() {
                return false;
            }
            told
        }
    };
    if matches!(seen.fault, Some(EngineFault::Port(_))) {
        told.len() < read.len() && read.starts_with(told)
    } else {
        told == read
    }
}

/// Whether a port tells the same.
fn is_told_by_port(told: &[Told<'_>], items: &[What]) -> bool {
    told.len() == items.len()
        && told
            .iter()
            .zip(items)
            .all(|(told, item)| *told == told_in(item))
}

/// Whether these octets are the answers and then these frames.
fn is_given(given: &[u8], reading: &Reading<'_>, written: &[&[u8]]) -> bool {
    let Some(mut rest) = given.strip_prefix(reading.answers.as_slice()) else {
        return false;
    };
    for frame in written {
        match rest.strip_prefix(frame) {
            Some(behind) => rest = behind,
            None => return false,
        }
    }
    rest.is_empty()
}

/// The octets of each frame, lent.
fn slices_of<'a>(alloc: Global, frames: &'a [Vec<u8>]) -> Result<Vec<&'a [u8]>, AllocError> {
    frames.iter().map(|frame| frame.as_slice()).collect(alloc)
}

/// Whether an engine that goes on was over once a close was given and not before, and one that does not was over then.
fn is_over_in_time(seen: &EngineReport, reading: &Reading<'_>, written: &[&[u8]]) -> bool {
    let goes_on = match seen.fault {
        None => true,
        Some(EngineFault::Frame) => reading.is_open,
        Some(_) => false,
    };
    if !goes_on {
        return seen.over.is_some();
    }
    let Some(end) = end_of_close(reading.answers.len(), written) else {
        return seen.over.is_none();
    };
    let is_open_before = seen.before_over.is_none_or(|given| given < end);
    is_open_before && seen.over.is_none_or(|given| given >= end)
}

/// Behind how many octets given the first close among these frames ends.
fn end_of_close(answers: usize, written: &[&[u8]]) -> Option<usize> {
    let mut end = answers;
    for frame in written {
        end = end.saturating_add(frame.len());
        if frame
            .get(8..)
            .is_some_and(|body| body.starts_with(b"\x00\x53\x18"))
        {
            return Some(end);
        }
    }
    None
}
