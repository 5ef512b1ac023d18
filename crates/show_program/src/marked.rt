//! Why a capture is not accepted, told and drawn: a chart in a file, with the refused record and those that it is compared with
//! marked.

ghost use Rattle.std.specs.Prelude.{◌≡◌, ◌≢◌, ◌≤◌, ◌⊎◌, ℕ, List, Option, Some, IfOk, IfSome};
ghost use Rattle.std.specs.String.{string_bytes};
ghost use Rattle.std.specs.Io.KnownBytes.{Appends, Consumes};
ghost use Rattle.svg_text.specs.Drawn.{IsSvg};
ghost use Rattle.audit_core.specs.Report.{status_of as status_of_verdict};
ghost use Rattle.audit_core.specs.Verdict.{AnswersRead};
ghost use Rattle.refusal_showing.specs.Explained.{Tells as Explains, verdict_of};
ghost use Rattle.show_program.specs.Charts.{DrawsExplained, marks_of, near_by};
ghost use Rattle.show_program.specs.Run.{ExplainsInput, no_chart, too_many};

use crate::charted::{Drawn, NoChart, draw_marked};
use crate::charts::{title_of, write_new};
use crate::telling::{NO_FILE, TOO_MANY, tell_no_chart, tell_too_many, tell_verdict};
use crate::words::Words;
use audit_core::Verdict;
use capture_chart::Marks;
use capture_view::Choice;
use capture_words::NotWritten;
use program_ends::{NOT_WRITTEN, is_refused_growth};
use refusal_showing::{Explanation, explain_read};
use std::alloc::Global;
use std::io::{Read, Write};
use std::rt::Files;

/// So many records in front of the refused one are drawn where all are too many. Own choice.
pub const IN_FRONT: u64 = 100;

/// So many behind it.
pub const BEHIND: u64 = 20;

/// Why a chart stands in no file.
#[derive(Clone, Copy, Debug, PartialEq, Eq)]
enum NotMarked {
    /// More records are asked for than it may have.
    TooMany,
    /// The file is there already, can not be made or can not be written.
    NotWritten,
    /// Memory was refused to draw it.
    Memory,
}

/// Audits the capture that is read, writes the chart of the records that are asked for to a new file of this path, in which the
/// refused one and those that it is compared with are marked, and tells on `out` the verdict and why the capture is not accepted,
/// or why there is no chart; nothing else. All octets are kept on the way.
pub fn write_marked<F: Files, R: Read, O: Write>(
    files: &F,
    alloc: Global,
    words: Words<'_>,
    path: &str,
    input: R,
    out: &mut O,
) -> u8
where
    R: Drop,
    ensures explained { result ≢ NOT_WRITTEN → result ≢ NO_FILE → result ≢ TOO_MANY → ExplainsInput (R.remaining input) (O.contents out.old) (O.contents out.new) result }
    ensures chart { result ≡ NO_FILE → Appends (O.contents out.old) (O.contents out.new) no_chart }
    ensures many { result ≡ TOO_MANY → Appends (O.contents out.old) (O.contents out.new) too_many }
    ensures status { (result ≤ TOO_MANY) ⊎ (result ≡ NOT_WRITTEN) }
{
    let mut input = input;
    let (octets, has_room) = keep(alloc, &mut input);
    if !has_room {
        return tell_no_memory(out);
    }
    let explanation = explain_read(alloc, octets.as_slice().chain(input));
    write_explained(
        files,
        alloc,
        words,
        path,
        octets.as_slice(),
        &explanation,
        out,
    )
}

/// The same of a capture that was explained, whose octets these are.
///
/// It borrows the explanation: owned here, its drop would be proved on each way out.
fn write_explained<F: Files, O: Write>(
    files: &F,
    alloc: Global,
    words: Words<'_>,
    path: &str,
    octets: &[u8],
    explanation: &Explanation,
    out: &mut O,
) -> u8
    ensures explained { (held : Option (List ℕ)) → IfSome held (λ known. AnswersRead known (verdict_of explanation.now))
        → result ≢ NOT_WRITTEN → result ≢ NO_FILE → result ≢ TOO_MANY → ExplainsInput held (O.contents out.old) (O.contents out.new) result }
    ensures chart { result ≡ NO_FILE → Appends (O.contents out.old) (O.contents out.new) no_chart }
    ensures many { result ≡ TOO_MANY → Appends (O.contents out.old) (O.contents out.new) too_many }
    ensures status { (result ≤ TOO_MANY) ⊎ (result ≡ NOT_WRITTEN) }
{
    match marked_file(files, alloc, words, path, octets, explanation) {
        Ok(()) => tell_explanation(explanation, out),
        Err(NotMarked::TooMany) => tell_too_many(out),
        Err(NotMarked::NotWritten) => tell_no_chart(out),
        Err(NotMarked::Memory) => tell_no_memory(out),
    }
}

/// Writes the line of refused memory to `out`, and answers its status; or `NOT_WRITTEN` where `out` fails.
fn tell_no_memory<O: Write>(out: &mut O) -> u8
    // That says nothing of any input.
    ensures explained { (held : Option (List ℕ)) → result ≢ NOT_WRITTEN → ExplainsInput held (O.contents out.old) (O.contents out.new) result }
    ensures status { (result ≤ 4) ⊎ (result ≡ NOT_WRITTEN) }
{
    tell_verdict(&Verdict::NoMemory(0), out)
}

/// The octets that are read, up to the end or to a fault of the reader; and whether there was room for them.
fn keep<R: Read>(alloc: Global, input: &mut R) -> (Vec<u8>, bool)
    ensures { Consumes (R.remaining input.old) (R.remaining input.new) result.0.items }
{
    let mut octets = Vec::new(alloc);
    let has_room = match input.read_to_end(&mut octets) {
        Ok(_) => true,
        Err(error) => !is_refused_growth(&error),
    };
    (octets, has_room)
}

/// Writes the line of the verdict to `out`, and why the capture is not accepted, and answers the verdict's status; or
/// `NOT_WRITTEN` where `out` fails.
fn tell_explanation<O: Write>(explanation: &Explanation, out: &mut O) -> u8
    ensures told { result ≢ NOT_WRITTEN → Explains (O.contents out.old) (O.contents out.new) (verdict_of explanation.now) }
    ensures status { (result ≡ status_of_verdict (verdict_of explanation.now)) ⊎ (result ≡ NOT_WRITTEN) }
    ensures low { (result ≤ 4) ⊎ (result ≡ NOT_WRITTEN) }
{
    match explanation.tell(out) {
        Ok(()) => explanation.verdict().status(),
        Err(NotWritten) => NOT_WRITTEN,
    }
}

/// Writes the chart to a new file of this path, which is made once the chart is drawn.
///
/// # Errors
///
/// `TooMany`, `Memory`: there is no file. `NotWritten`: what was there stands; where a write failed the first octets of the chart
/// do.
fn marked_file<F: Files>(
    files: &F,
    alloc: Global,
    words: Words<'_>,
    path: &str,
    octets: &[u8],
    explanation: &Explanation,
) -> Result<(), NotMarked> {
    match draw_explained(
        alloc,
        title_of(words.source),
        words.choice,
        octets,
        explanation,
    ) {
        Ok(drawn) => write_document(files, path, drawn.text.as_str()),
        Err(NoChart::TooMany) => Err(NotMarked::TooMany),
        Err(NoChart::Memory) => Err(NotMarked::Memory),
    }
}

/// Writes the text of a chart to a new file of this path.
fn write_document<F: Files>(files: &F, path: &str, text: &str) -> Result<(), NotMarked> {
    match write_new(files, path, text) {
        Ok(()) => Ok(()),
        Err(NotWritten) => Err(NotMarked::NotWritten),
    }
}

/// The chart of the records that are asked for of a capture that was explained, under this title: the refused one and those that
/// it is compared with are marked in it. Where a chart may not have so many, and all records were asked for, it is that of the
/// refused one, those that it is compared with, and those around it.
///
/// # Errors
///
/// More records are asked for than a chart may have, or it could not be drawn.
pub fn draw_explained(
    alloc: Global,
    title: &str,
    choice: Choice<'_>,
    octets: &[u8],
    explanation: &Explanation,
) -> Result<Drawn, NoChart>
    // What is drawn is an SVG.
    ensures document { IfOk result (λ drawn. IsSvg (string_bytes drawn.text)) }
    // It has the arrows of the records that are asked for, or of those around the refused one, with these marks.
    ensures arrows { IfOk result (λ drawn. DrawsExplained title.now choice.entry (marks_of explanation.now) (Some octets.now) drawn.ending (string_bytes drawn.text)) }
{
    let marks = Marks {
        refused: explanation.refused(),
        compared: explanation.compared(),
    };
    match draw_marked(alloc, title, choice, &[], marks, octets) {
        Ok(drawn) => Ok(drawn),
        Err(NoChart::Memory) => Err(NoChart::Memory),
        Err(NoChart::TooMany) => match near(choice, marks.refused) {
            Some(near) => draw_marked(alloc, title, near, marks.compared, marks, octets),
            None => Err(NoChart::TooMany),
        },
    }
}

/// Those around the refused record, where one is refused and all are asked for.
fn near(choice: Choice<'_>, refused: Option<u64>) -> Option<Choice<'static>>
    ensures { result ≡ near_by choice.entry refused }
{
    let refused = refused?;
    match choice {
        Choice {
            from: None,
            to: None,
            connection: None,
            link: None,
            delivery: None,
        } => Some(Choice {
            from: Some(refused.saturating_sub(IN_FRONT)),
            to: Some(refused.saturating_add(BEHIND)),
            connection: None,
            link: None,
            delivery: None,
        }),
        _ => None,
    }
}
