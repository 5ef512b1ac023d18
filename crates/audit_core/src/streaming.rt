//! Judging a text that a reader gives, record by record.

ghost use Rattle.std.specs.Prelude.{◌≡◌, ◌≢◌, ◌<◌, ◌++◌, ◌∷◌, ℕ, List, [], length, IfErr, IfSome, None, OnOk, false, true};
ghost use Rattle.capture_form.specs.declared.records.Record.{Record};
ghost use Rattle.capture_form.specs.Rules.{AreRules, RuleSet};
ghost use Rattle.capture_form.specs.Reader.{left_of, offset_of, fault_of, IsNew, IsUnreadable};
ghost use Rattle.trace_events.specs.declared.tally.Tally.{Tally};
ghost use Rattle.audit_core.specs.declared.verdict.Verdict.TheVariants.{Accepted, Unreadable};
ghost use Rattle.audit_core.specs.declared.verdict.Refusal.TheVariants.{Memory};
ghost use Rattle.audit_core.specs.declared.auditor.TheConstants.{MOST_RECORDS};
ghost use Rattle.audit_core.specs.Auditor.{Follows, IsBrokenBehind, IsRefusalBehind, forgets_by, rules_of, tally_by};
ghost use Rattle.audit_core.specs.Verdict.{AnswersRead, AreRefused, IsKept, is_sure, verdict_of_fault, verdict_of_refusal};
ghost use Rattle.capture_form.specs.Text.{head_text};
ghost use Rattle.audit_core.specs.Watching.{Watched};

use crate::auditor::Auditor;
use crate::lengths::len_of_head;
use crate::verdict::{Refusal, Verdict};
use crate::watching::{Unwatched, Watcher};
use capture_form::{FormFault, FormKind, MOST_READS, Reader, Record, RuleSet, len_of_record};
use std::alloc::{AllocError, Global};
use std::io::Read;

/// The verdict of the octets that the reader gives, as the text of a capture. It reads them once, record by record, and
/// hands each record to an auditor. What `Accepted` is worth is said by `kept`.
pub fn audit_stream<R: Read>(alloc: Global, reader: R) -> Verdict
where
    R: Drop,
    ensures answers { IfSome (R.remaining reader) (λ octets. AnswersRead octets result) }
    ensures kept { IfSome (R.remaining reader) (λ octets. (tally : Tally) → result ≡ Accepted tally → IsKept octets) }
{
    audit_watched(alloc, reader, &mut Unwatched)
}

/// The verdict of `audit_stream`. On its way a watcher is told of each record that is taken, and of the one that is refused.
/// Where the watcher lacks memory for a record, the audit ends there with `NoMemory`. Of a watcher that has seen records before,
/// `watched` says nothing.
pub fn audit_watched<R: Read, W: Watcher>(alloc: Global, reader: R, watcher: &mut W) -> Verdict
where
    R: Drop,
    ensures answers { IfSome (R.remaining reader) (λ octets. AnswersRead octets result) }
    ensures kept { IfSome (R.remaining reader) (λ octets. (tally : Tally) → result ≡ Accepted tally → IsKept octets) }
    // A watcher that had seen none saw, at `Accepted`, all records; at `Refused`, the refused one behind the others; at
    // `Malformed`, those in front of the fault.
    ensures watched { ((rules : RuleSet) → W.saw watcher.old watcher.old rules []) → IfSome (R.remaining reader) (λ octets. Watched (W.saw watcher.old) (W.saw_refused watcher.old) watcher.new octets result) }
{
    match Reader::within(alloc, reader, MOST_READS) {
        Ok(mut text) => audit_text(alloc, &mut text, watcher),
        Err(AllocError) => Verdict::NoMemory(0),
    }
}

/// The verdict of `audit_watched` on the octets of a reader of texts of which nothing was read yet. At `Unreadable` the reader
/// tells that a read failed, or that no more may be made.
pub fn audit_text<R: Read, W: Watcher>(
    alloc: Global,
    text: &mut Reader<R>,
    watcher: &mut W,
) -> Verdict
    requires { IsNew text.old }
    ensures answers { IfSome (left_of R.remaining text.old) (λ octets. AnswersRead octets result) }
    ensures kept { IfSome (left_of R.remaining text.old) (λ octets. (tally : Tally) → result ≡ Accepted tally → IsKept octets) }
    ensures watched { ((rules : RuleSet) → W.saw watcher.old watcher.old rules []) → IfSome (left_of R.remaining text.old) (λ octets. Watched (W.saw watcher.old) (W.saw_refused watcher.old) watcher.new octets result) }
    ensures unreadable { (offset : ℕ) → result ≡ Unreadable offset → IsUnreadable text.new }
{
    audit_as(alloc, text, watcher, false)
}

/// The verdict of `audit_stream`, by an auditor whose memory does not grow with the capture but with what its clients have open:
/// it lets go of deliveries of which no lawful record speaks any more. `None` where a record breaks a clause: which one,
/// `audit_stream` tells of the same octets, read once more from their start.
pub fn audit_forgetting<R: Read>(alloc: Global, reader: R) -> Option<Verdict>
where
    R: Drop,
    ensures answers { IfSome result (λ verdict. IfSome (R.remaining reader) (λ octets. AnswersRead octets verdict)) }
    ensures kept { IfSome result (λ verdict. IfSome (R.remaining reader) (λ octets. (tally : Tally) → verdict ≡ Accepted tally → IsKept octets)) }
    ensures refused { result ≡ None → IfSome (R.remaining reader) AreRefused }
{
    audit_watched_forgetting(alloc, reader, &mut Unwatched)
}

/// The same, of which a watcher is told of each record that is taken; and of none that is refused.
pub fn audit_watched_forgetting<R: Read, W: Watcher>(
    alloc: Global,
    reader: R,
    watcher: &mut W,
) -> Option<Verdict>
where
    R: Drop,
    ensures answers { IfSome result (λ verdict. IfSome (R.remaining reader) (λ octets. AnswersRead octets verdict)) }
    ensures kept { IfSome result (λ verdict. IfSome (R.remaining reader) (λ octets. (tally : Tally) → verdict ≡ Accepted tally → IsKept octets)) }
    ensures refused { result ≡ None → IfSome (R.remaining reader) AreRefused }
    ensures watched { IfSome result (λ verdict. ((rules : RuleSet) → W.saw watcher.old watcher.old rules []) →
        IfSome (R.remaining reader) (λ octets. Watched (W.saw watcher.old) (W.saw_refused watcher.old) watcher.new octets verdict)) }
{
    match Reader::within(alloc, reader, MOST_READS) {
        Ok(mut text) => surely(audit_as(alloc, &mut text, watcher, true)),
        Err(AllocError) => Some(Verdict::NoMemory(0)),
    }
}

/// The verdict, if an auditor that forgets is sure of it.
fn surely(verdict: Verdict) -> Option<Verdict>
    ensures sure { IfSome result (λ sure. (sure ≡ verdict) × (is_sure true verdict ≡ true)) }
    ensures none { result ≡ None → is_sure true verdict ≡ false }
{
    match verdict {
        Verdict::Refused(_, _) => None,
        Verdict::Accepted(_) => Some(verdict),
        Verdict::Malformed(_, _) => Some(verdict),
        Verdict::NoMemory(_) => Some(verdict),
        Verdict::Unreadable(_) => Some(verdict),
    }
}

/// The verdict of `audit_text`, by an auditor that forgets, or by one that keeps all.
fn audit_as<R: Read, W: Watcher>(
    alloc: Global,
    text: &mut Reader<R>,
    watcher: &mut W,
    forgets: bool,
) -> Verdict
    requires { IsNew text.old }
    ensures answers { is_sure forgets result ≡ true → IfSome (left_of R.remaining text.old) (λ octets. AnswersRead octets result) }
    ensures refused { is_sure forgets result ≡ false → IfSome (left_of R.remaining text.old) AreRefused }
    ensures watched { is_sure forgets result ≡ true → ((rules : RuleSet) → W.saw watcher.old watcher.old rules []) → IfSome (left_of R.remaining text.old) (λ octets. Watched (W.saw watcher.old) (W.saw_refused watcher.old) watcher.new octets result) }
    ensures unreadable { (offset : ℕ) → result ≡ Unreadable offset → IsUnreadable text.new }
{
    match text.read_head() {
        Ok(rules) => {
            let mut auditor = auditor_of(alloc, rules, forgets);
            audit_read(&mut auditor, text, watcher)
        }
        Err(fault) => verdict_of_fault(fault),
    }
}

/// An auditor of a capture with these rules, which forgets, or keeps all.
fn auditor_of(alloc: Global, rules: RuleSet, forgets: bool) -> Auditor
    requires { AreRules rules }
    ensures follows { Follows result rules [] }
    ensures kind { forgets_by result ≡ forgets }
{
    if forgets {
        Auditor::forgetting(alloc, rules)
    } else {
        Auditor::new(alloc, rules)
    }
}

/// The verdict of a text with the rules of an auditor that took no record yet, whose records are read.
fn audit_read<R: Read, W: Watcher>(
    auditor: &mut Auditor,
    records: &mut Reader<R>,
    watcher: &mut W,
) -> Verdict
    requires rules { AreRules (rules_of auditor.old) }
    requires follows { Follows auditor.old (rules_of auditor.old) [] }
    requires place { offset_of records.old ≡ length (head_text (rules_of auditor.old)) }
    requires runs { fault_of records.old ≡ None }
    ensures answers { is_sure (forgets_by auditor.old) result ≡ true → IfSome (left_of R.remaining records.old) (λ left. AnswersRead (head_text (rules_of auditor.old) ++ left) result) }
    ensures refused { is_sure (forgets_by auditor.old) result ≡ false → IfSome (left_of R.remaining records.old) (λ left. AreRefused (head_text (rules_of auditor.old) ++ left)) }
    ensures watched { is_sure (forgets_by auditor.old) result ≡ true → W.saw watcher.old watcher.old (rules_of auditor.old) [] → IfSome (left_of R.remaining records.old) (λ left. Watched (W.saw watcher.old) (W.saw_refused watcher.old) watcher.new (head_text (rules_of auditor.old) ++ left) result) }
    ensures unreadable { (offset : ℕ) → result ≡ Unreadable offset → IsUnreadable records.new }
{
    let offset = len_of_head(auditor.rules());
    follow_read(auditor, records, offset, watcher)
}

/// The verdict of a text whose head ends at this offset, by an auditor that has its rules and took no record yet. The records
/// are read, and the auditor takes them.
fn follow_read<R: Read, W: Watcher>(
    auditor: &mut Auditor,
    records: &mut Reader<R>,
    offset: u64,
    watcher: &mut W,
) -> Verdict
    requires rules { AreRules (rules_of auditor.old) }
    requires follows { Follows auditor.old (rules_of auditor.old) [] }
    requires head { offset ≡ length (head_text (rules_of auditor.old)) }
    requires place { offset_of records.old ≡ length (head_text (rules_of auditor.old)) }
    requires runs { fault_of records.old ≡ None }
    ensures answers { is_sure (forgets_by auditor.old) result ≡ true → IfSome (left_of R.remaining records.old) (λ left. AnswersRead (head_text (rules_of auditor.old) ++ left) result) }
    ensures refused { is_sure (forgets_by auditor.old) result ≡ false → IfSome (left_of R.remaining records.old) (λ left. AreRefused (head_text (rules_of auditor.old) ++ left)) }
    ensures watched { is_sure (forgets_by auditor.old) result ≡ true → W.saw watcher.old watcher.old (rules_of auditor.old) [] → IfSome (left_of R.remaining records.old) (λ left. Watched (W.saw watcher.old) (W.saw_refused watcher.old) watcher.new (head_text (rules_of auditor.old) ++ left) result) }
    ensures unreadable { (number : ℕ) → result ≡ Unreadable number → IsUnreadable records.new }
{
    let mut offset = offset;
    'records: loop {
        match records.next_record() {
            Ok(Some(entry)) => {
                let len = len_of_record(&entry);
                if let Err(refusal) = take_watched(auditor, entry, watcher) {
                    return verdict_of_refusal(refusal, offset);
                }
                offset += len;
            }
            Ok(None) => return Verdict::Accepted(auditor.tally()),
            Err(fault) => return verdict_of_fault(fault),
        }
    }
}

/// The auditor takes the record, and the watcher is told; of one that is refused by an auditor that keeps all.
///
/// # Errors
///
/// That of the auditor; or `Memory` where the watcher lacks it, and then no clause says what the auditor has come to.
fn take_watched<W: Watcher>(
    auditor: &mut Auditor,
    entry: Record,
    watcher: &mut W,
) -> Result<(), Refusal>
    requires few { (tally_by auditor.old).records < MOST_RECORDS }
    requires follows { (records : List Record) × Follows auditor.old (rules_of auditor.old) records }
    ensures taken { OnOk result ((rules : RuleSet) (records : List Record) → Follows auditor.old rules records → Follows auditor.new rules (records ++ entry ∷ [])) }
    ensures refused { IfErr result (λ refusal. forgets_by auditor.old ≡ false → (rules : RuleSet) (records : List Record) → Follows auditor.old rules records → IsRefusalBehind rules records entry refusal) }
    ensures broken { IfErr result (λ refusal. (rules : RuleSet) (records : List Record) → Follows auditor.old rules records → IsBrokenBehind rules records entry refusal) }
    ensures seen { OnOk result ((first : W) (rules : RuleSet) (records : List Record) → Follows auditor.old rules records → W.saw first watcher.old rules records → W.saw first watcher.new rules (records ++ entry ∷ [])) }
    ensures kind { forgets_by auditor.new ≡ forgets_by auditor.old }
    ensures explained { IfErr result (λ refusal. forgets_by auditor.old ≡ false → refusal ≢ Memory → (first : W) (rules : RuleSet) (records : List Record) → Follows auditor.old rules records → W.saw first watcher.old rules records → W.saw_refused first watcher.new rules records entry) }
{
    match auditor.follow(&entry) {
        Ok(()) => match watcher.taken(auditor.ledger(), auditor.rules(), &entry) {
            Ok(()) => Ok(()),
            Err(AllocError) => Err(Refusal::Memory),
        },
        Err(Refusal::Memory) => Err(Refusal::Memory),
        Err(Refusal::Broken(number, clause)) => {
            if auditor.forgets() {
                return Err(Refusal::Broken(number, clause));
            }
            match watcher.refused(auditor.ledger(), auditor.rules(), &entry) {
                Ok(()) => Err(Refusal::Broken(number, clause)),
                Err(AllocError) => Err(Refusal::Memory),
            }
        }
    }
}

/// The verdict where a record that stands at this offset is refused.
fn verdict_of_refusal(refusal: Refusal, offset: u64) -> Verdict
    ensures { result ≡ verdict_of_refusal offset refusal }
{
    match refusal {
        Refusal::Broken(number, clause) => Verdict::Refused(number, clause),
        Refusal::Memory => Verdict::NoMemory(offset),
    }
}

/// The verdict where this fault stops the reading, and the records before it meet the clauses.
fn verdict_of_fault(fault: FormFault) -> Verdict
    ensures { result ≡ verdict_of_fault fault.kind fault.offset }
{
    match fault.kind {
        FormKind::Memory => Verdict::NoMemory(fault.offset),
        FormKind::Read => Verdict::Unreadable(fault.offset),
        kind => Verdict::Malformed(fault.offset, kind),
    }
}
