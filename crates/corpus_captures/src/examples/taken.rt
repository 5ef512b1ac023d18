//! What the auditor says of the worked captures, asked in other ways: by a reader that gives an octet at a time, and by
//! records that are handed to it one after the other.

ghost use Rattle.capture_form.specs.Text.{IsRecord};

use audit_core::{Auditor, MOST_RECORDS, Refusal, Verdict, audit, audit_stream};
use capture_form::{Capture, Reader, Record, What};
use pairing_cert::Note;
use std::alloc::Global;
use std::io;
use std::io::Read;
use trace_law::tally_capture;

/// Gives an octet at a time.
#[derive(Drop)]
struct Dripping<'a> {
    octets: &'a [u8],
}

impl Read for Dripping<'_> {
    fn read(&mut self, buf: &mut [u8]) -> io::Result<usize> {
        let len = buf.len().min(1);
        self.octets.read(&mut buf[..len])
    }
}

/// Whether this is the verdict of a reader that gives the octets, at once or one at a time.
pub fn is_read(alloc: Global, octets: &[u8], verdict: Verdict) -> bool {
    audit_stream(alloc, octets) == verdict && audit_stream(alloc, Dripping { octets }) == verdict
}

/// Whether this is the verdict of the capture, with the tally of all its records.
pub fn is_audited(alloc: Global, capture: &Capture, verdict: Verdict) -> bool {
    match audit(alloc, capture) {
        Ok(tally) => verdict == Verdict::Accepted(tally) && tally == tally_capture(capture),
        Err(Refusal::Broken(i, clause)) => verdict == Verdict::Refused(i, clause),
        Err(Refusal::Memory) => false,
    }
}

/// Whether this is what an auditor comes to that is handed the records of the text, and whether it stays with its refusal.
pub fn is_taken(alloc: Global, octets: &[u8], verdict: Verdict) -> bool {
    match Reader::start(alloc, octets) {
        Ok((rules, mut records)) => {
            let mut auditor = Auditor::new(alloc, rules);
            comes_to(&mut auditor, &mut records, octets.len(), verdict)
        }
        Err(_) => matches!(verdict, Verdict::Malformed(..)),
    }
}

/// Whether an auditor comes to this verdict that takes the records, of which there are no more than this.
///
/// It borrows their reader: owned here, its drop would be proved on each way out of the loop.
fn comes_to(
    auditor: &mut Auditor,
    records: &mut Reader<&[u8]>,
    most: usize,
    verdict: Verdict,
) -> bool {
    for _ in 0..most {
        let Ok(Some(entry)) = records.next_record() else {
            break;
        };
        match take(auditor, entry) {
            Ok(()) => {}
            Err(refusal) => return is_refused(refusal, verdict) && stays(auditor, refusal),
        }
    }
    match verdict {
        Verdict::Accepted(tally) => auditor.tally() == tally,
        verdict => matches!(verdict, Verdict::Malformed(..)),
    }
}

/// Hands over the next record, if there is room for one more.
pub fn take(auditor: &mut Auditor, entry: Record) -> Result<(), Refusal>
    requires { IsRecord entry }
{
    if auditor.tally().records < MOST_RECORDS {
        auditor.take(entry)
    } else {
        Err(Refusal::Memory)
    }
}

/// Whether the verdict tells the refusal.
fn is_refused(refusal: Refusal, verdict: Verdict) -> bool {
    match refusal {
        Refusal::Broken(i, clause) => verdict == Verdict::Refused(i, clause),
        Refusal::Memory => false,
    }
}

/// Whether an auditor answers this refusal to a record that breaks no clause, twice.
fn stays(auditor: &mut Auditor, refusal: Refusal) -> bool {
    for _ in 0..2 {
        let entry = Record {
            connection: 9,
            what: What::Opened,
            note: Note::None,
        };
        if take(auditor, entry) != Err(refusal) {
            return false;
        }
    }
    true
}
