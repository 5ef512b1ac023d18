//! Records from a reader, shown on a writer.

ghost use Rattle.std.specs.Prelude.{◌≡◌, false, IfOk, IfSome, None, OnOk};
ghost use Rattle.std.specs.Io.KnownBytes.{Appends};
ghost use Rattle.capture_form.specs.Reader.{fault_of, left_of, offset_of};
ghost use Rattle.capture_form.specs.Laws.{records_behind};
ghost use Rattle.capture_form.specs.Reading.{reading};
ghost use Rattle.capture_words.specs.Page.{text_of};
ghost use Rattle.capture_words.specs.Taken.{TakesAll};
ghost use Rattle.capture_words.specs.Shown.{AppendsSome, EndsRecords, EndsText};

use crate::Page;
use crate::ending::Ending;
use capture_form::{Reader, RuleSet};
use capture_view::{RecordView, view_of};
use std::alloc::{AllocError, Global};
use std::io::{Read, Write};

/// A way to show records, which are taken one after the other.
pub trait View {
    ghost use Rattle.std.specs.Prelude.{List, OnOk};
    ghost use Rattle.capture_view.specs.Viewed.{Viewed, viewed};
    ghost use Rattle.capture_words.specs.Taken.{TakesOneMore};

    /// What is known of it after these records, the newest first.
    ghost agrees: { Self → List Viewed → Type 0 };

    /// Appends to the page what is to be shown of the rules, in front of all records.
    fn begin(&self, rules: &RuleSet, page: &mut Page) -> Result<(), AllocError>;

    /// Takes one record more, and appends to the page what is to be shown of it.
    fn take(&mut self, view: &RecordView<'_>, page: &mut Page) -> Result<(), AllocError>
        ensures { OnOk result (TakesOneMore agrees self.old self.new (viewed view.now)) };

    /// Appends to the page what is to be shown behind the last record that could be read.
    fn end(&self, page: &mut Page) -> Result<(), AllocError>;
}

/// Standard output could not be written.
#[derive(Clone, Copy, Debug, PartialEq, Eq)]
pub struct NotWritten;

/// How many octets a page has before it is written.
const BLOCK: usize = 65536;

/// After how many records each a line of progress is written.
const STRIDE: u64 = 262144;

/// Shows the capture that is read, and tells how its reading ended; nothing is told of that on `out`. What was read in front of
/// a fault is shown. Where it is watched, a line on `err` tells now and then how many records were taken.
///
/// # Errors
///
/// `out` could not be written; nothing is said of what stands there.
pub fn show_capture<R: Read, V: View, O: Write, E: Write>(
    alloc: Global,
    input: R,
    view: &mut V,
    page: &mut Page,
    out: &mut O,
    is_watched: bool,
    err: &mut E,
) -> Result<Ending, NotWritten>
where
    R: Drop,
    // Text was written, and nothing of that was changed.
    ensures shown { OnOk result (AppendsSome (O.contents out.old) (O.contents out.new)) }
    // The ending is that of the octets, read as the text of a capture.
    ensures ending { IfOk result (λ ending. IfSome (R.remaining input) (λ octets. EndsText octets ending)) }
    // The view took all whole records in front of the first fault, in order and each once, unless the reading was given up.
    ensures taken { IfOk result (λ ending. IfSome (R.remaining input) (λ octets. TakesAll V.agrees (reading octets).records ending view.old view.new)) }
    ensures quiet { is_watched ≡ false → err.new ≡ err.old }
{
    match Reader::start(alloc, input) {
        Ok((rules, records)) => match begin(rules, view, page) {
            Ok(()) => show_records(records, view, page, out, is_watched, err),
            Err(AllocError) => Ok(Ending::NoMemory),
        },
        Err(fault) => Ok(Ending::from(fault)),
    }
}

/// Appends to the page what is to be shown of the rules, and lets them go.
fn begin<V: View>(rules: RuleSet, view: &V, page: &mut Page) -> Result<(), AllocError> {
    view.begin(&rules, page)
}

/// Shows the records that are read.
fn show_records<R: Read, V: View, O: Write, E: Write>(
    records: Reader<R>,
    view: &mut V,
    page: &mut Page,
    out: &mut O,
    is_watched: bool,
    err: &mut E,
) -> Result<Ending, NotWritten>
where
    R: Drop,
    requires { fault_of records ≡ None }
    ensures shown { OnOk result (AppendsSome (O.contents out.old) (O.contents out.new)) }
    ensures ending { IfOk result (λ ending. IfSome (left_of R.remaining records) (λ left. EndsRecords (offset_of records) left ending)) }
    ensures taken { IfOk result (λ ending. IfSome (left_of R.remaining records) (λ left. TakesAll V.agrees (records_behind (offset_of records) left).records ending view.old view.new)) }
    ensures quiet { is_watched ≡ false → err.new ≡ err.old }
{
    let ending = take_records(records, view, page, out, is_watched, err)?;
    let ended = view.end(page);
    write_page(page, out)?;
    match ended {
        Ok(()) => Ok(ending),
        Err(_) => Ok(Ending::NoMemory),
    }
}

/// Takes the records that are read, and writes the page whenever it is full.
fn take_records<R: Read, V: View, O: Write, E: Write>(
    records: Reader<R>,
    view: &mut V,
    page: &mut Page,
    out: &mut O,
    is_watched: bool,
    err: &mut E,
) -> Result<Ending, NotWritten>
where
    R: Drop,
    requires { fault_of records ≡ None }
    ensures shown { OnOk result (AppendsSome (O.contents out.old) (O.contents out.new)) }
    ensures ending { IfOk result (λ ending. IfSome (left_of R.remaining records) (λ left. EndsRecords (offset_of records) left ending)) }
    ensures taken { IfOk result (λ ending. IfSome (left_of R.remaining records) (λ left. TakesAll V.agrees (records_behind (offset_of records) left).records ending view.old view.new)) }
    ensures quiet { is_watched ≡ false → err.new ≡ err.old }
{
    let mut records = records;
    for number in 0..u64::MAX {
        match records.next_record() {
            Ok(Some(entry)) => {
                let Ok(()) = view.take(&view_of(number, &entry), page) else {
                    return Ok(Ending::NoMemory);
                };
            }
            Ok(None) => return Ok(Ending::Whole),
            Err(fault) => return Ok(Ending::from(fault)),
        }
        write_full(page, out)?;
        tell_progress(number, is_watched, err);
    }
    // A reader gives fewer records.
    Ok(Ending::Unreadable(0))
}

/// Writes the page where much stands on it.
fn write_full<O: Write>(page: &mut Page, out: &mut O) -> Result<(), NotWritten>
    ensures { OnOk result (AppendsSome (O.contents out.old) (O.contents out.new)) }
{
    if page.len() < BLOCK {
        return Ok(());
    }
    write_page(page, out)
}

/// Writes what stands on the page, and takes it off.
fn write_page<O: Write>(page: &mut Page, out: &mut O) -> Result<(), NotWritten>
    ensures { OnOk result (Appends (O.contents out.old) (O.contents out.new) (text_of page.old)) }
{
    let written = out.write_all(page.text().as_bytes());
    page.clear();
    match written {
        Ok(()) => Ok(()),
        Err(_) => Err(NotWritten),
    }
}

/// Tells how many records were taken, now and then.
fn tell_progress<E: Write>(number: u64, is_watched: bool, err: &mut E)
    ensures { is_watched ≡ false → err.new ≡ err.old }
{
    if is_watched && number % STRIDE == STRIDE - 1 {
        // It is for the eye alone.
        let _ = write!(err, "\r{number} records");
    }
}
