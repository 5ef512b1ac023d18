//! A chart of a capture in a file.

ghost use Rattle.std.specs.Prelude.{◌≡◌, ◌≢◌, ◌≤◌, ◌⊎◌, IfOk, IfSome};
ghost use Rattle.std.specs.Io.KnownBytes.{Appends};
ghost use Rattle.capture_words.specs.Shown.{EndsText};
ghost use Rattle.show_program.specs.Run.{ShowsInput, TellsAlone, no_chart, too_many};

use crate::charted::{Drawn, NoChart, draw_capture};
use crate::telling::{NO_FILE, TOO_MANY, tell, tell_no_chart, tell_too_many};
use crate::words::Words;
use capture_words::{Ending, NotWritten};
use program_ends::{InputSource, NOT_WRITTEN};
use std::alloc::Global;
use std::fs::File;
use std::io::{Read, Write};
use std::rt::Files;

/// Why a chart stands in no file.
#[derive(Clone, Copy, Debug, PartialEq, Eq)]
enum NotCharted {
    /// More records are asked for than it may have.
    TooMany,
    /// The file is there already, can not be made or can not be written.
    NotWritten,
}

/// Writes the chart of the records that are asked for, of the capture that is read, to a new file of this path, and tells on
/// `out` how the reading ended, or why there is no chart; nothing else.
pub fn write_chart<F: Files, R: Read, O: Write>(
    files: &F,
    alloc: Global,
    words: Words<'_>,
    path: &str,
    input: R,
    out: &mut O,
) -> u8
where
    R: Drop,
    ensures shown { result ≢ NOT_WRITTEN → result ≢ NO_FILE → result ≢ TOO_MANY → ShowsInput (R.remaining input) (O.contents out.old) (O.contents out.new) result }
    ensures alone { result ≢ NOT_WRITTEN → result ≢ NO_FILE → result ≢ TOO_MANY → TellsAlone (O.contents out.old) (O.contents out.new) result }
    ensures chart { result ≡ NO_FILE → Appends (O.contents out.old) (O.contents out.new) no_chart }
    ensures many { result ≡ TOO_MANY → Appends (O.contents out.old) (O.contents out.new) too_many }
    ensures status { (result ≤ TOO_MANY) ⊎ (result ≡ NOT_WRITTEN) }
{
    match chart_file(files, alloc, words, path, input) {
        Ok(ending) => tell(&ending, out),
        Err(NotCharted::TooMany) => tell_too_many(out),
        Err(NotCharted::NotWritten) => tell_no_chart(out),
    }
}

/// Writes the chart to a new file of this path, which is made once the chart is drawn. Where memory is refused to draw it
/// there is no file.
///
/// # Errors
///
/// `TooMany`: there is no file. `NotWritten`: what was there stands; where a write failed the first octets of the chart do.
fn chart_file<F: Files, R: Read>(
    files: &F,
    alloc: Global,
    words: Words<'_>,
    path: &str,
    input: R,
) -> Result<Ending, NotCharted>
where
    R: Drop,
    ensures ending { IfOk result (λ ending. IfSome (R.remaining input) (λ octets. EndsText octets ending)) }
{
    match draw_capture(alloc, title_of(words.source), words.choice, input) {
        Ok(drawn) => write_drawn(files, path, &drawn),
        Err(NoChart::TooMany) => Err(NotCharted::TooMany),
        Err(NoChart::Memory) => Ok(Ending::NoMemory),
    }
}

/// Writes the document to a new file of this path, and says how the reading ended.
fn write_drawn<F: Files>(files: &F, path: &str, drawn: &Drawn) -> Result<Ending, NotCharted>
    ensures { IfOk result (λ ending. ending ≡ drawn.now.ending) }
{
    match write_new(files, path, drawn.text.as_str()) {
        Ok(()) => Ok(drawn.ending),
        Err(NotWritten) => Err(NotCharted::NotWritten),
    }
}

/// Writes a text to a new file of this path.
pub fn write_new<F: Files>(files: &F, path: &str, text: &str) -> Result<(), NotWritten> {
    let Ok(mut file) = File::create_new(files, path) else {
        return Err(NotWritten);
    };
    match file.write_all(text.as_bytes()) {
        Ok(()) => Ok(()),
        Err(_) => Err(NotWritten),
    }
}

/// What the chart of a capture that is read from here is called.
pub fn title_of<'a>(source: InputSource<'a>) -> &'a str {
    match source {
        InputSource::StandardInput => "standard input",
        InputSource::File(path) => path,
    }
}
