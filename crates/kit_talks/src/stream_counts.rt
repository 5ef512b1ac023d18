//! What came of runs of clients with streams, in numbers.

use crate::served::Served;
use capture_form::{Capture, What};
use conn_engine::EngineFault;
use std::fmt;
use std::fmt::{Display, Formatter};

/// The numbers.
#[derive(Clone, Copy)]
pub struct StreamCounts {
    runs: u64,
    streams: u64,
    octets: u64,
    /// Items that the cores took.
    opened: u64,
    frames: u64,
    broken: u64,
    lost: u64,
    /// Frames that the cores wrote, and the transfers and dispositions among them.
    written: u64,
    transfers: u64,
    dispositions: u64,
    /// Why streams did not go on.
    headers: u64,
    no_frames: u64,
    mechanisms: u64,
    full: u64,
}

impl StreamCounts {
    /// Nothing so far.
    pub const NOTHING: StreamCounts = StreamCounts {
        runs: 0,
        streams: 0,
        octets: 0,
        opened: 0,
        frames: 0,
        broken: 0,
        lost: 0,
        written: 0,
        transfers: 0,
        dispositions: 0,
        headers: 0,
        no_frames: 0,
        mechanisms: 0,
        full: 0,
    };

    /// Counts what the core of a run recorded, and what came of its clients.
    pub fn count(&mut self, capture: &Capture, served: &[Served]) {
        one_more(&mut self.runs);
        for entry in capture.records() {
            self.count_record(&entry.what);
        }
        for served in served {
            self.count_stream(served);
        }
    }

    fn count_record(&mut self, what: &What) {
        match what {
            What::Opened => one_more(&mut self.opened),
            What::In(_) => one_more(&mut self.frames),
            What::Broken => one_more(&mut self.broken),
            What::Lost => one_more(&mut self.lost),
            What::Out(frame) => {
                one_more(&mut self.written);
                let body = frame.octets().get(8..).unwrap_or(&[]);
                if body.starts_with(b"\x00\x53\x14") {
                    one_more(&mut self.transfers);
                }
                if body.starts_with(b"\x00\x53\x15") {
                    one_more(&mut self.dispositions);
                }
            }
        }
    }

    fn count_stream(&mut self, served: &Served) {
        one_more(&mut self.streams);
        self.octets = self.octets.wrapping_add(served.seen.fed as u64);
        match served.seen.fault {
            None | Some(EngineFault::Over | EngineFault::Memory) => {}
            Some(EngineFault::HeaderRefused) => one_more(&mut self.headers),
            Some(EngineFault::Frame) => one_more(&mut self.no_frames),
            Some(EngineFault::SaslRefused) => one_more(&mut self.mechanisms),
            Some(EngineFault::Port(_)) => one_more(&mut self.full),
        }
    }
}

/// Counts one more.
fn one_more(count: &mut u64) {
    *count = count.wrapping_add(1);
}

impl Display for StreamCounts {
    fn fmt<W: fmt::Write>(&self, f: &mut Formatter<W>) -> fmt::Result {
        write!(
            f,
            "runs={} streams={} octets fed={}\nitems opened={} in={} broken={} lost={}\nframes written={} transfers={} dispositions={}\nrefused headers={} frames={} mechanisms={} by a full core={}",
            self.runs,
            self.streams,
            self.octets,
            self.opened,
            self.frames,
            self.broken,
            self.lost,
            self.written,
            self.transfers,
            self.dispositions,
            self.headers,
            self.no_frames,
            self.mechanisms,
            self.full
        )
    }
}
