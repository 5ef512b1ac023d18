//! Judging a capture that is there whole, and a text that is.

ghost use Rattle.std.specs.Prelude.{◌≡◌, ◌^◌, ◌<◌, [], length, IfOk, IfErr, OnOk, false, if◌then◌else◌};
ghost use Rattle.capture_form.specs.Gives.{is_refusal};
ghost use Rattle.capture_form.specs.Text.{text};
ghost use Rattle.trace_events.specs.declared.tally.Tally.{Tally};
ghost use Rattle.audit_core.specs.declared.verdict.Verdict.{Verdict};
ghost use Rattle.audit_core.specs.declared.verdict.Verdict.TheVariants.{Accepted};
ghost use Rattle.audit_core.specs.Auditor.{Follows, forgets_by};
ghost use Rattle.audit_core.specs.Verdict.{Answers, AnswersCapture, IsKept, answer_of};
ghost use Rattle.audit_core.specs.Stops.{StopsAudit, stop_of, stops_within, refusal_on, verdict_on};

use crate::auditor::Auditor;
use crate::lengths::{offset_of_record, offset_of_rules};
use crate::verdict::{Refusal, Verdict};
use capture_form::{Capture, FormFault, FormKind, Reading, read_whole_records};
use std::alloc::Global;
use trace_events::{Clause, Tally};

/// Judges the records of a capture one after the other, and gives what the capture holds.
///
/// # Errors
///
/// The first record that breaks a clause, and the first clause that it breaks; or `Memory`, which says nothing of the
/// record for which it was refused.
pub fn audit(alloc: Global, capture: &Capture) -> Result<Tally, Refusal>
    ensures { AnswersCapture capture.now result }
{
    match audit_records(alloc, capture) {
        Ok(tally) => Ok(tally),
        Err(stop) => Err(stop.refusal()),
    }
}

/// The verdict of the octets, as the text of a capture. It reads them once, and then judges each whole record. What
/// `Accepted` is worth is said by `kept`.
pub fn audit_bytes(alloc: Global, octets: &[u8]) -> Verdict
    ensures answers { Answers octets.now result }
    ensures kept { (tally : Tally) → result ≡ Accepted tally → IsKept octets.now }
{
    let Reading { capture, fault } = read_whole_records(alloc, octets);
    match audit_records(alloc, &capture) {
        Err(stop) => stop.verdict(&capture),
        Ok(tally) => match fault {
            None => Verdict::Accepted(tally),
            Some(fault) => fault_verdict(fault),
        },
    }
}

/// Where and why an audit of a capture stops.
#[derive(Clone, Copy, Debug)]
enum Stop {
    /// The record of this number breaks this clause.
    Broken(u64, Clause),
    /// Memory was refused for the rules.
    AtRules,
    /// Memory was refused for the record of this number.
    AtRecord(usize),
}

impl Stop {
    /// Where a refusal of the record of this number stops an audit.
    fn of_refusal(number: usize, refusal: Refusal) -> Stop
        ensures { result ≡ stop_of number refusal }
    {
        match refusal {
            Refusal::Broken(number, clause) => Stop::Broken(number, clause),
            Refusal::Memory => Stop::AtRecord(number),
        }
    }

    /// Why the capture is not accepted.
    fn refusal(self) -> Refusal
        ensures { result ≡ refusal_on self }
    {
        match self {
            Stop::Broken(number, clause) => Refusal::Broken(number, clause),
            Stop::AtRules | Stop::AtRecord(_) => Refusal::Memory,
        }
    }

    /// The verdict of the text of this capture.
    fn verdict(self, capture: &Capture) -> Verdict
        requires within { stops_within self capture.now }
        requires short { length (text capture.now) < 2 ^ 64 }
        ensures { result ≡ verdict_on capture.now self }
    {
        match self {
            Stop::Broken(number, clause) => Verdict::Refused(number, clause),
            Stop::AtRules => Verdict::NoMemory(offset_of_rules(capture.rules().form())),
            Stop::AtRecord(number) => Verdict::NoMemory(offset_of_record(capture, number)),
        }
    }
}

/// Judges the records of a capture one after the other.
fn audit_records(alloc: Global, capture: &Capture) -> Result<Tally, Stop>
    ensures accepted { IfOk result (λ tally. answer_of capture.now ≡ Ok tally) }
    ensures stopped { IfErr result (StopsAudit capture.now) }
{
    let Ok(rules) = capture.rules().copied(alloc) else {
        return Err(Stop::AtRules);
    };
    let mut auditor = Auditor::new(alloc, rules);
    match follow_records(&mut auditor, capture) {
        Ok(()) => Ok(auditor.tally()),
        Err(stop) => Err(stop),
    }
}

/// The auditor, which took no record yet, takes those of the capture.
fn follow_records(auditor: &mut Auditor, capture: &Capture) -> Result<(), Stop>
    requires follows { Follows auditor.old capture.now.rules [] }
    requires keeps { forgets_by auditor.old ≡ false }
    ensures accepted { OnOk result (Follows auditor.new capture.now.rules capture.now.records) }
    ensures stopped { IfErr result (StopsAudit capture.now) }
{
    for (number, entry) in capture.records().iter().enumerate() {
        if let Err(refusal) = auditor.follow(entry) {
            return Err(Stop::of_refusal(number, refusal));
        }
    }
    Ok(())
}

/// The verdict of a text with this fault, where the records before it meet the clauses.
fn fault_verdict(fault: FormFault) -> Verdict
    ensures { result ≡ (if is_refusal fault.kind then Verdict.NoMemory fault.offset else Verdict.Malformed fault.offset fault.kind) }
{
    match fault.kind {
        FormKind::Memory => Verdict::NoMemory(fault.offset),
        kind => Verdict::Malformed(fault.offset, kind),
    }
}
