//! A capture, audited and explained.

ghost use Rattle.std.specs.Prelude.{◌≡◌, IfOk, IfSome, OnOk};
ghost use Rattle.audit_core.specs.Verdict.{AnswersRead};
ghost use Rattle.refusal_showing.specs.Explained.{Tells, verdict_of};

use crate::explaining::Explaining;
use crate::recalling::Recalling;
use audit_core::{Verdict, audit_watched};
use capture_form::FormKind;
use capture_words::NotWritten;
use refusal_words::{Around, Compared, Malformed};
use std::alloc::{AllocError, Global};
use std::io;
use std::io::{Read, Write};

/// The most octets that are shown from a fault on.
const SHOWN: usize = 32;

/// A capture that was audited, and why it is not accepted.
#[derive(Debug, Drop)]
pub struct Explanation {
    verdict: Verdict,
    // What is said besides the verdict's line.
    text: String,
    // Where a record is refused, those that it is compared with.
    compared: Option<Compared>,
}

impl Explanation {
    ghost use Rattle.std.specs.Prelude.{◌≡◌, OnOk};
    ghost use Rattle.refusal_showing.specs.Explained.{Tells, compared_of, refused_by, verdict_of};

    /// The verdict.
    pub fn verdict(&self) -> Verdict
        ensures { result ≡ verdict_of self.now }
    {
        self.verdict
    }

    /// The number of the record that is refused, if one is.
    pub fn refused(&self) -> Option<u64>
        ensures { result ≡ refused_by (verdict_of self.now) }
    {
        match self.verdict {
            Verdict::Refused(number, _) => Some(number),
            _ => None,
        }
    }

    /// The numbers of the records that the refused one is compared with, in no order, by `Compared::numbers`.
    pub fn compared(&self) -> &[u64]
        ensures { result.now ≡ compared_of self.now }
    {
        match &self.compared {
            Some(compared) => compared.numbers(),
            None => &[],
        }
    }

    /// Writes the line of the verdict, and what is said besides behind it.
    ///
    /// # Errors
    ///
    /// `out` could not be written; nothing is said of what stands there.
    pub fn tell<O: Write>(&self, out: &mut O) -> Result<(), NotWritten>
        ensures { OnOk result (Tells (O.contents out.old) (O.contents out.new) (verdict_of self.now)) }
    {
        match write_told(self.verdict, self.text.as_str(), out) {
            Ok(()) => Ok(()),
            Err(_) => Err(NotWritten),
        }
    }
}

/// Audits the capture that is read, and writes the line of the verdict; behind it, where a record is refused, the line of the
/// record and why, and where the octets are malformed, what was expected and what stands there. It gives the verdict.
///
/// Where memory is refused for an explanation, the verdict is `NoMemory`.
///
/// # Errors
///
/// `out` could not be written; nothing is said of what stands there.
pub fn explain_capture<R: Read, O: Write>(
    alloc: Global,
    input: R,
    out: &mut O,
) -> Result<Verdict, NotWritten>
where
    R: Drop,
    // The verdict is that of the auditor, on all octets that the reader is known to give.
    ensures answers { IfOk result (λ verdict. IfSome (R.remaining input) (λ octets. AnswersRead octets verdict)) }
    // Its line was written, and something behind it.
    ensures told { IfOk result (λ verdict. Tells (O.contents out.old) (O.contents out.new) verdict) }
{
    let explanation = explain_read(alloc, input);
    explanation.tell(out)?;
    Ok(explanation.verdict())
}

/// Audits the capture that is read, and explains the verdict: what `explain_capture` writes, and which records it names.
///
/// Where memory is refused for an explanation, the verdict is `NoMemory`.
pub fn explain_read<R: Read>(alloc: Global, input: R) -> Explanation
where
    R: Drop,
    // The verdict is that of the auditor, on all octets that the reader is known to give.
    ensures answers { IfSome (R.remaining input) (λ octets. AnswersRead octets (verdict_of result)) }
{
    let mut recalling = Recalling::new(alloc, input);
    let mut explaining = Explaining::new(alloc);
    explain_by(alloc, &mut recalling, &mut explaining)
}

/// The same by a reader that recalls nothing yet, told to a watcher that has seen nothing.
///
/// It borrows both: owned here, their drop would be proved on each way out.
fn explain_by<R: Read>(
    alloc: Global,
    recalling: &mut Recalling<R>,
    explaining: &mut Explaining,
) -> Explanation
    ensures answers { IfSome (R.remaining recalling.old.reader) (λ octets. AnswersRead octets (verdict_of result)) }
{
    let verdict = audit_watched(alloc, &mut *recalling, explaining);
    match text_behind(alloc, verdict, explaining, recalling) {
        Ok(text) => Explanation {
            verdict,
            text,
            compared: explaining.compared(),
        },
        Err(AllocError) => Explanation {
            verdict: Verdict::NoMemory(0),
            text: String::new(alloc),
            compared: None,
        },
    }
}

/// What is said of the capture besides the verdict's line.
fn text_behind<R>(
    alloc: Global,
    verdict: Verdict,
    explaining: &Explaining,
    recalling: &Recalling<R>,
) -> Result<String, AllocError> {
    let mut text = String::new(alloc);
    put_behind(&mut text, verdict, explaining, recalling)?;
    Ok(text)
}

/// The same, put behind a text.
///
/// It borrows the text: owned here, its drop would be proved on each way out.
fn put_behind<R>(
    text: &mut String,
    verdict: Verdict,
    explaining: &Explaining,
    recalling: &Recalling<R>,
) -> Result<(), AllocError> {
    match verdict {
        Verdict::Refused(..) => {
            text.push_str(explaining.line())?;
            text.push_str(explaining.reason())
        }
        Verdict::Malformed(offset, kind) => {
            let octets = recalling.recalled(offset, SHOWN);
            writeln!(text, "{}", malformed(offset, kind, octets))
        }
        Verdict::Accepted(_) | Verdict::NoMemory(_) | Verdict::Unreadable(_) => Ok(()),
    }
}

/// The fault, with these octets, which stand at it.
fn malformed(offset: u64, kind: FormKind, octets: &[u8]) -> Malformed<'_> {
    let around = Around {
        first: offset,
        octets,
    };
    Malformed {
        offset,
        kind,
        around: (!octets.is_empty()).then_some(around),
    }
}

/// Writes the line of the verdict, and the text behind it.
fn write_told<O: Write>(verdict: Verdict, text: &str, out: &mut O) -> io::Result<()>
    ensures { OnOk result (Tells (O.contents out.old) (O.contents out.new) verdict) }
{
    writeln!(out, "{verdict}")?;
    out.write_all(text.as_bytes())
}
