//! A run over any words, reader and writers.

ghost use Rattle.std.specs.Prelude.{◌≡◌, ◌≢◌, ◌<◌, ◌≤◌, ◌⊎◌, ◌↔◌, ◌∷◌, [], codes, false, true, is_some, map, None};
ghost use Rattle.capture_words.specs.declared.ending.Ending.TheVariants.{NoMemory, Unreadable};
ghost use Rattle.std.specs.Io.KnownBytes.{Appends};
ghost use Rattle.program_ends.specs.Growth.{IsRefusedGrowth};
ghost use Rattle.show_program.specs.Run.{ExplainsInput, ExplainsSome, IsRunOn, IsStatus, ShowsInput, TellsNoFile, TellsSome, no_chart, no_link, no_packets, too_many};
ghost use Rattle.program_ends.specs.InputSource.{path_of};
ghost use Rattle.show_program.specs.Words.{chart_of, credit_of, is_why, packets_of};

use crate::charts::write_chart;
use crate::credits::{write_credit, write_credit_of_file};
use crate::lines::Lines;
use crate::marked::write_marked;
use crate::packets::write_packets;
use crate::table::Table;
use crate::telling::{NO_FILE, NO_LINK, TOO_MANY, tell};
use crate::why::{show_why, show_why_of_file};
use crate::words::{Mode, Words};
use capture_words::{Ending, NotWritten, Page, View, show_capture};
use program_ends::{InputSource, NOT_WRITTEN, WORDS_FAULT, is_refused_growth, tell_refused_words};
use std::alloc::Global;
use std::convert::AsStr;
use std::io::{Read, Seek, Write};
use std::rt::Files;
use std::{fs, io};

/// Shows the capture that `words`, those behind the program's name, ask for: the file that they name, or `input`. Writes
/// it to `out`, behind it the line of a fault, and answers the exit status. Where packets or a chart are asked for they go to
/// the file that is named, and the line of a fault alone to `out`; `NO_FILE` tells that it could not be written, and `TOO_MANY`
/// that more records are asked for than a chart may have. Where the credit of a link is asked for it goes to the file that is named,
/// and the line of the auditor's verdict to `out`; `NO_LINK` tells that there is no such link. Where it is asked why the capture is
/// not accepted, the line of the auditor's verdict goes to `out`, and behind it the explanation; and where a chart is asked for
/// beside it, the refused record and those that it is compared with are marked in that, and the statuses of a chart come with the
/// line of what is wrong with it alone.
///
/// A fault of the words is told on `err` alone, with `WORDS_FAULT`; the help goes to `out`, with status 0. Where `out`
/// fails the status is `NOT_WRITTEN`, and nothing is said of what stands there. Where it is watched, `err` has a line of
/// progress over a large capture.
pub fn run_words<F: Files, S: AsStr, R: Read, O: Write, E: Write>(
    files: &F,
    alloc: Global,
    words: &[S],
    is_watched: bool,
    input: &mut R,
    out: &mut O,
    err: &mut E,
) -> u8
    ensures run { IsRunOn (map S.text words.now) (R.remaining input.old) (O.contents out.old) (O.contents out.new) result }

    // The word --why alone has standard input audited.
    ensures explained { map S.text words.now ≡ codes "--why" ∷ [] → result ≢ NOT_WRITTEN
        → ExplainsInput (R.remaining input.old) (O.contents out.old) (O.contents out.new) result }

    // Statuses 1 to 4 come only with a line that has that status: of a fault, behind what was shown, or of a verdict, and then
    // the explanation stands behind it.
    ensures told { 0 < result → result ≤ 4 → TellsSome (O.contents out.old) (O.contents out.new) result ⊎ ExplainsSome (O.contents out.old) (O.contents out.new) result }

    // Status 5 comes only with a line that tells that the file could not be written, 6 with that of too many records for a chart,
    // and 7 with that of no such link.
    ensures unmade { result ≡ NO_FILE → TellsNoFile (O.contents out.old) (O.contents out.new) }
    ensures many { result ≡ TOO_MANY → Appends (O.contents out.old) (O.contents out.new) too_many }
    ensures link { result ≡ NO_LINK → Appends (O.contents out.old) (O.contents out.new) no_link }

    // A mistake in the words is told on standard error alone, and where nobody watches nothing else is told there.
    ensures mistake { result ≡ WORDS_FAULT → out.new ≡ out.old }
    ensures quiet { is_watched ≡ false → result ≢ WORDS_FAULT → err.new ≡ err.old }
    // There is no other status.
    ensures status { IsStatus result }
{
    match Words::read(alloc, words) {
        Ok(words) => match words.mode {
            Some(mode) => show_source(files, alloc, words, mode, is_watched, input, out, err),
            None => tell_modes(err),
        },
        Err(error) => tell_refused_words(&error, out, err),
    }
}

/// Tells that more than one mode is asked for.
fn tell_modes<E: Write>(err: &mut E) -> u8
    ensures { result ≡ WORDS_FAULT }
{
    // The status tells the fault, whether or not its text could be written.
    let _ = writeln!(
        err,
        "error: one of --pcapng, --chart, --credit, --why and --summary may be given, or --chart and --why"
    );
    WORDS_FAULT
}

/// Shows the capture that is asked for.
fn show_source<F: Files, R: Read, O: Write, E: Write>(
    files: &F,
    alloc: Global,
    words: Words<'_>,
    mode: Mode<'_>,
    is_watched: bool,
    input: &mut R,
    out: &mut O,
    err: &mut E,
) -> u8
    ensures input { path_of words.entry.source ≡ None → is_why mode.entry ≡ false → credit_of mode.entry ≡ None → result ≢ NOT_WRITTEN → result ≢ NO_FILE → result ≢ TOO_MANY
        → ShowsInput (R.remaining input.old) (O.contents out.old) (O.contents out.new) result }
    ensures explained { path_of words.entry.source ≡ None → is_why mode.entry ≡ true → chart_of mode.entry ≡ None → result ≢ NOT_WRITTEN
        → ExplainsInput (R.remaining input.old) (O.contents out.old) (O.contents out.new) result }
    ensures marked { path_of words.entry.source ≡ None → is_why mode.entry ≡ true → result ≢ NOT_WRITTEN → result ≢ NO_FILE → result ≢ TOO_MANY
        → ExplainsInput (R.remaining input.old) (O.contents out.old) (O.contents out.new) result }
    ensures credited { path_of words.entry.source ≡ None → is_some (credit_of mode.entry) ≡ true → result ≢ NOT_WRITTEN → result ≢ NO_FILE → result ≢ NO_LINK
        → ExplainsInput (R.remaining input.old) (O.contents out.old) (O.contents out.new) result }
    ensures told { is_why mode.entry ≡ false → credit_of mode.entry ≡ None → result ≢ NOT_WRITTEN → result ≢ NO_FILE → result ≢ TOO_MANY → TellsSome (O.contents out.old) (O.contents out.new) result }
    ensures either { result ≢ NOT_WRITTEN → result ≢ NO_FILE → result ≢ TOO_MANY → result ≢ NO_LINK
        → TellsSome (O.contents out.old) (O.contents out.new) result ⊎ ExplainsSome (O.contents out.old) (O.contents out.new) result }
    ensures unasked { packets_of mode.entry ≡ None → chart_of mode.entry ≡ None → credit_of mode.entry ≡ None → result ≢ NO_FILE }
    ensures packets { chart_of mode.entry ≡ None → credit_of mode.entry ≡ None → result ≡ NO_FILE → Appends (O.contents out.old) (O.contents out.new) no_packets }
    ensures chart { packets_of mode.entry ≡ None → result ≡ NO_FILE → Appends (O.contents out.old) (O.contents out.new) no_chart }
    ensures unmade { result ≡ NO_FILE → TellsNoFile (O.contents out.old) (O.contents out.new) }
    ensures few { chart_of mode.entry ≡ None → result ≢ TOO_MANY }
    ensures linked { credit_of mode.entry ≡ None → result ≢ NO_LINK }
    ensures many { result ≡ TOO_MANY → Appends (O.contents out.old) (O.contents out.new) too_many }
    ensures link { result ≡ NO_LINK → Appends (O.contents out.old) (O.contents out.new) no_link }
    ensures quiet { is_watched ≡ false → err.new ≡ err.old }
    ensures status { (result ≤ NO_LINK) ⊎ (result ≡ NOT_WRITTEN) }
{
    match words.source {
        InputSource::StandardInput => show_input(
            files, alloc, words, mode, is_watched, input, out, err,
        ),
        InputSource::File(path) => match fs::open(files, path) {
            Ok(file) => show_file(files, alloc, words, mode, is_watched, file, out, err),
            Err(error) => tell(&ending_unopened(&error), out),
        },
    }
}

/// How it ended where the file could not be opened.
fn ending_unopened(error: &io::Error) -> Ending
    ensures memory { (result ≡ NoMemory) ↔ IsRefusedGrowth error.now }
    ensures either { (result ≡ NoMemory) ⊎ (result ≡ Unreadable 0) }
{
    if is_refused_growth(error) {
        Ending::NoMemory
    } else {
        Ending::Unreadable(0)
    }
}

/// Shows a capture that is read from a file, as `show_input` does; curves, and why it is not accepted, in memory that does not grow
/// with a lawful capture.
fn show_file<F: Files, I: Read + Seek, O: Write, E: Write>(
    files: &F,
    alloc: Global,
    words: Words<'_>,
    mode: Mode<'_>,
    is_watched: bool,
    file: I,
    out: &mut O,
    err: &mut E,
) -> u8
where
    I: Drop,
    ensures told { is_why mode.entry ≡ false → credit_of mode.entry ≡ None → result ≢ NOT_WRITTEN → result ≢ NO_FILE → result ≢ TOO_MANY → TellsSome (O.contents out.old) (O.contents out.new) result }
    ensures either { result ≢ NOT_WRITTEN → result ≢ NO_FILE → result ≢ TOO_MANY → result ≢ NO_LINK
        → TellsSome (O.contents out.old) (O.contents out.new) result ⊎ ExplainsSome (O.contents out.old) (O.contents out.new) result }
    ensures unasked { packets_of mode.entry ≡ None → chart_of mode.entry ≡ None → credit_of mode.entry ≡ None → result ≢ NO_FILE }
    ensures packets { chart_of mode.entry ≡ None → credit_of mode.entry ≡ None → result ≡ NO_FILE → Appends (O.contents out.old) (O.contents out.new) no_packets }
    ensures chart { packets_of mode.entry ≡ None → result ≡ NO_FILE → Appends (O.contents out.old) (O.contents out.new) no_chart }
    ensures unmade { result ≡ NO_FILE → TellsNoFile (O.contents out.old) (O.contents out.new) }
    ensures few { chart_of mode.entry ≡ None → result ≢ TOO_MANY }
    ensures linked { credit_of mode.entry ≡ None → result ≢ NO_LINK }
    ensures many { result ≡ TOO_MANY → Appends (O.contents out.old) (O.contents out.new) too_many }
    ensures link { result ≡ NO_LINK → Appends (O.contents out.old) (O.contents out.new) no_link }
    ensures quiet { is_watched ≡ false → err.new ≡ err.old }
    ensures status { (result ≤ NO_LINK) ⊎ (result ≡ NOT_WRITTEN) }
{
    match mode {
        Mode::Credit(path) => {
            let mut file = file;
            write_credit_of_file(files, alloc, words, path, &mut file, out)
        }
        Mode::Why => {
            let mut file = file;
            show_why_of_file(alloc, &mut file, out)
        }
        _ => show_input(files, alloc, words, mode, is_watched, file, out, err),
    }
}

/// Shows the capture that is read in the mode that is asked for, and tells how its reading ended.
fn show_input<F: Files, R: Read, O: Write, E: Write>(
    files: &F,
    alloc: Global,
    words: Words<'_>,
    mode: Mode<'_>,
    is_watched: bool,
    input: R,
    out: &mut O,
    err: &mut E,
) -> u8
where
    R: Drop,
    ensures shown { is_why mode.entry ≡ false → credit_of mode.entry ≡ None → result ≢ NOT_WRITTEN → result ≢ NO_FILE → result ≢ TOO_MANY
        → ShowsInput (R.remaining input) (O.contents out.old) (O.contents out.new) result }
    ensures explained { is_why mode.entry ≡ true → chart_of mode.entry ≡ None → result ≢ NOT_WRITTEN
        → ExplainsInput (R.remaining input) (O.contents out.old) (O.contents out.new) result }
    ensures marked { is_why mode.entry ≡ true → result ≢ NOT_WRITTEN → result ≢ NO_FILE → result ≢ TOO_MANY
        → ExplainsInput (R.remaining input) (O.contents out.old) (O.contents out.new) result }
    ensures credited { is_some (credit_of mode.entry) ≡ true → result ≢ NOT_WRITTEN → result ≢ NO_FILE → result ≢ NO_LINK
        → ExplainsInput (R.remaining input) (O.contents out.old) (O.contents out.new) result }
    ensures unasked { packets_of mode.entry ≡ None → chart_of mode.entry ≡ None → credit_of mode.entry ≡ None → result ≢ NO_FILE }
    ensures packets { chart_of mode.entry ≡ None → credit_of mode.entry ≡ None → result ≡ NO_FILE → Appends (O.contents out.old) (O.contents out.new) no_packets }
    ensures chart { packets_of mode.entry ≡ None → result ≡ NO_FILE → Appends (O.contents out.old) (O.contents out.new) no_chart }
    ensures unmade { result ≡ NO_FILE → TellsNoFile (O.contents out.old) (O.contents out.new) }
    ensures few { chart_of mode.entry ≡ None → result ≢ TOO_MANY }
    ensures linked { credit_of mode.entry ≡ None → result ≢ NO_LINK }
    ensures many { result ≡ TOO_MANY → Appends (O.contents out.old) (O.contents out.new) too_many }
    ensures link { result ≡ NO_LINK → Appends (O.contents out.old) (O.contents out.new) no_link }
    ensures quiet { is_watched ≡ false → err.new ≡ err.old }
    ensures status { (result ≤ NO_LINK) ⊎ (result ≡ NOT_WRITTEN) }
{
    match mode {
        Mode::Lines => {
            let lines = Lines::new(alloc, words.choice);
            show_all(alloc, lines, words.width, is_watched, input, out, err)
        }
        Mode::Summary => {
            let table = Table::new(alloc);
            show_all(alloc, table, words.width, is_watched, input, out, err)
        }
        Mode::Why => show_why(alloc, input, out),
        Mode::Packets(path) => write_packets(files, alloc, path, input, out),
        Mode::Chart(path) => write_chart(files, alloc, words, path, input, out),
        Mode::Marked(path) => write_marked(files, alloc, words, path, input, out),
        Mode::Credit(path) => write_credit(files, alloc, words, path, input, out),
    }
}

/// Shows the capture that is read by a view, on a page of this width, and tells how its reading ended.
///
/// It takes the view itself, and owns the page: in `show_input` the drop of each would be proved for each mode.
fn show_all<V: View + Drop, R: Read, O: Write, E: Write>(
    alloc: Global,
    view: V,
    width: Option<usize>,
    is_watched: bool,
    input: R,
    out: &mut O,
    err: &mut E,
) -> u8
where
    R: Drop,
    ensures shown { result ≢ NOT_WRITTEN → ShowsInput (R.remaining input) (O.contents out.old) (O.contents out.new) result }
    ensures quiet { is_watched ≡ false → err.new ≡ err.old }
    ensures status { (result ≤ 4) ⊎ (result ≡ NOT_WRITTEN) }
{
    let mut view = view;
    let mut page = Page::new(alloc, width);
    show_by(alloc, &mut view, &mut page, is_watched, input, out, err)
}

/// The same with a view and a page that are lent.
fn show_by<V: View, R: Read, O: Write, E: Write>(
    alloc: Global,
    view: &mut V,
    page: &mut Page,
    is_watched: bool,
    input: R,
    out: &mut O,
    err: &mut E,
) -> u8
where
    R: Drop,
    ensures shown { result ≢ NOT_WRITTEN → ShowsInput (R.remaining input) (O.contents out.old) (O.contents out.new) result }
    ensures quiet { is_watched ≡ false → err.new ≡ err.old }
    ensures status { (result ≤ 4) ⊎ (result ≡ NOT_WRITTEN) }
{
    match show_capture(alloc, input, view, page, out, is_watched, err) {
        Ok(ending) => tell(&ending, out),
        Err(NotWritten) => NOT_WRITTEN,
    }
}
