//! The credit of a link as curves in a file.

ghost use Rattle.std.specs.Prelude.{◌≡◌, ◌≢◌, ◌≤◌, ◌⊎◌, IfOk, IfSome, Ok};
ghost use Rattle.std.specs.Io.KnownBytes.{Appends};
ghost use Rattle.audit_core.specs.Report.{status_of as status_of_verdict};
ghost use Rattle.audit_core.specs.Verdict.{AnswersRead};
ghost use Rattle.audit_core.specs.declared.verdict.Verdict.{Verdict};
ghost use Rattle.refusal_showing.specs.Explained.{Tells as Explains};
ghost use Rattle.show_program.specs.Run.{ExplainsInput, ExplainsSome, no_chart, no_link};

use crate::charts::{title_of, write_new};
use crate::telling::{NO_FILE, NO_LINK, TOO_MANY, tell_no_chart, tell_no_link, tell_verdict};
use crate::words::Words;
use capture_words::NotWritten;
use credit_levels::{Drawn, Pick, Verdict, draw_credit, draw_credit_forgetting};
use program_ends::NOT_WRITTEN;
use std::alloc::{AllocError, Global};
use std::io::{Read, Seek, Write};
use std::rt::Files;

/// Why curves stand in no file of a capture that is accepted, or of any.
#[derive(Clone, Copy, Debug, PartialEq, Eq)]
enum NoCurves {
    /// The capture is accepted, and no link opens in it of those that are asked for.
    NoLink,
    /// The file is there already, can not be made or can not be written.
    NotWritten,
}

/// Audits the capture that is read, writes the curves of the credit of the link that is asked for to a new file of this path, and
/// tells on `out` the verdict, or why there are no curves; nothing else. Of a capture that is not accepted the verdict is told, also
/// where no such link opened in front of what was not taken.
pub fn write_credit<F: Files, R: Read, O: Write>(
    files: &F,
    alloc: Global,
    words: Words<'_>,
    path: &str,
    input: R,
    out: &mut O,
) -> u8
where
    R: Drop,
    ensures explained { result ≢ NOT_WRITTEN → result ≢ NO_FILE → result ≢ NO_LINK → ExplainsInput (R.remaining input) (O.contents out.old) (O.contents out.new) result }
    ensures chart { result ≡ NO_FILE → Appends (O.contents out.old) (O.contents out.new) no_chart }
    ensures few { result ≢ TOO_MANY }
    ensures link { result ≡ NO_LINK → Appends (O.contents out.old) (O.contents out.new) no_link }
    ensures status { (result ≤ NO_LINK) ⊎ (result ≡ NOT_WRITTEN) }
{
    tell_credit(credit_file(files, alloc, words, path, input), out)
}

/// The same of a capture in a file, in memory that does not grow with a lawful capture; what cannot be read twice, as a pipe, is read
/// once, and all is kept.
pub fn write_credit_of_file<F: Files, I: Read + Seek, O: Write>(
    files: &F,
    alloc: Global,
    words: Words<'_>,
    path: &str,
    file: &mut I,
    out: &mut O,
) -> u8
    ensures explained { result ≢ NOT_WRITTEN → result ≢ NO_FILE → result ≢ NO_LINK → ExplainsSome (O.contents out.old) (O.contents out.new) result }
    ensures chart { result ≡ NO_FILE → Appends (O.contents out.old) (O.contents out.new) no_chart }
    ensures few { result ≢ TOO_MANY }
    ensures link { result ≡ NO_LINK → Appends (O.contents out.old) (O.contents out.new) no_link }
    ensures status { (result ≤ NO_LINK) ⊎ (result ≡ NOT_WRITTEN) }
{
    tell_credit(credit_of_file(files, alloc, words, path, file), out)
}

/// Tells the verdict, or why there are no curves.
fn tell_credit<O: Write>(drawn: Result<Verdict, NoCurves>, out: &mut O) -> u8
    ensures explained { result ≢ NOT_WRITTEN → result ≢ NO_FILE → result ≢ NO_LINK →
        (verdict : Verdict) × (drawn ≡ Ok verdict) × Explains (O.contents out.old) (O.contents out.new) verdict × (result ≡ status_of_verdict verdict) }
    ensures chart { result ≡ NO_FILE → Appends (O.contents out.old) (O.contents out.new) no_chart }
    ensures few { result ≢ TOO_MANY }
    ensures link { result ≡ NO_LINK → Appends (O.contents out.old) (O.contents out.new) no_link }
    ensures status { (result ≤ NO_LINK) ⊎ (result ≡ NOT_WRITTEN) }
{
    match drawn {
        Ok(verdict) => tell_verdict(&verdict, out),
        Err(NoCurves::NoLink) => tell_no_link(out),
        Err(NoCurves::NotWritten) => tell_no_chart(out),
    }
}

/// Writes the curves of a file as `credit_file` does: what was taken of it is drawn by an auditor that forgets, and where that refuses
/// a record, once more from its start by one that keeps all.
///
/// # Errors
///
/// Those of `credit_file`.
fn credit_of_file<F: Files, I: Read + Seek>(
    files: &F,
    alloc: Global,
    words: Words<'_>,
    path: &str,
    file: &mut I,
) -> Result<Verdict, NoCurves> {
    if file.rewind().is_err() {
        return credit_file(files, alloc, words, path, file);
    }
    match draw_credit_forgetting(alloc, title_of(words.source), pick_of(words), &mut *file) {
        Ok(Some(drawn)) => write_drawn(files, path, &drawn),
        Ok(None) => match file.rewind() {
            Ok(()) => credit_file(files, alloc, words, path, file),
            Err(_) => Ok(Verdict::Unreadable(0)),
        },
        Err(AllocError) => Ok(Verdict::NoMemory(0)),
    }
}

/// The link that is asked for.
fn pick_of<'w>(words: Words<'w>) -> Pick<'w> {
    Pick {
        connection: words.choice.connection,
        name: words.choice.link,
    }
}

/// Writes the curves to a new file of this path, which is made once they are drawn. Where memory is refused to draw them there is
/// no file.
///
/// # Errors
///
/// `NoLink`: there is no file. `NotWritten`: what was there stands; where a write failed the first octets of the curves do.
fn credit_file<F: Files, R: Read>(
    files: &F,
    alloc: Global,
    words: Words<'_>,
    path: &str,
    input: R,
) -> Result<Verdict, NoCurves>
where
    R: Drop,
    ensures answers { IfOk result (λ verdict. IfSome (R.remaining input) (λ octets. AnswersRead octets verdict)) }
{
    match draw_credit(alloc, title_of(words.source), pick_of(words), input) {
        Ok(drawn) => write_drawn(files, path, &drawn),
        Err(AllocError) => Ok(Verdict::NoMemory(0)),
    }
}

/// Writes the document, if there is one, to a new file of this path.
fn write_drawn<F: Files>(files: &F, path: &str, drawn: &Drawn) -> Result<Verdict, NoCurves>
    ensures { IfOk result (λ verdict. verdict ≡ drawn.now.verdict) }
{
    match (&drawn.text, drawn.verdict) {
        (Some(text), verdict) => match write_new(files, path, text.as_str()) {
            Ok(()) => Ok(verdict),
            Err(NotWritten) => Err(NoCurves::NotWritten),
        },
        (None, Verdict::Accepted(_)) => Err(NoCurves::NoLink),
        (None, verdict) => Ok(verdict),
    }
}
