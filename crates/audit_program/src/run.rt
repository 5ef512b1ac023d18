//! A run over any words, reader and writers.
ghost use Rattle.std.specs.Prelude.{◌≡◌, ◌≢◌, ◌<◌, ◌≤◌, ◌⊎◌, ◌↔◌, ◌∷◌, [], IfSome, None, codes, map};
ghost use Rattle.program_ends.specs.Growth.{IsRefusedGrowth};
ghost use Rattle.audit_core.specs.declared.verdict.Verdict.TheVariants.{NoMemory, Unreadable};
ghost use Rattle.audit_core.specs.Report.{status_of};
ghost use Rattle.audit_core.specs.Verdict.{AreRefused};
ghost use Rattle.audit_program.specs.Run.{IsRunOn, IsStatus, IsVerdictOnInput, Tells, TellsInput, TellsSome};
ghost use Rattle.program_ends.specs.InputSource.{path_of};

use crate::following::{audit_growing_file, audit_growing_forgetting};
use crate::words::{End, Words};
use audit_core::{Verdict, audit_forgetting, audit_stream};
use program_ends::{
    InputSource, NOT_WRITTEN, WORDS_FAULT, is_refused_growth, tell_line, tell_refused_words,
};
use std::alloc::Global;
use std::convert::AsStr;
use std::io::{Read, Seek, Write};
use std::rt::Files;
use std::time::Clock;
use std::{fs, io};

/// Audits the capture that `words`, those behind the program's name, ask for: the file that they name,
/// or `input`. Writes the line of its verdict to `out`, and answers the exit status. A capture that is followed is waited for by
/// `clock`, record by record.
///
/// A fault of the words is told on `err` alone, with `WORDS_FAULT`; the help goes to `out`, with status 0. Where `out` fails
/// the status is `NOT_WRITTEN`, and nothing is said of what stands there.
pub fn run_words<F: Files, C: Clock, S: AsStr, R: Read, O: Write, E: Write>(
    files: &F,
    clock: &C,
    alloc: Global,
    words: &[S],
    input: &mut R,
    out: &mut O,
    err: &mut E,
) -> u8
    ensures run { IsRunOn (map S.text words.now) (R.remaining input.old) (O.contents out.old) (O.contents out.new) result }

    // The word --follow alone has standard input followed, and the verdict is on all that it gives.
    ensures followed { map S.text words.now ≡ codes "--follow" ∷ [] → result ≢ NOT_WRITTEN
        → TellsInput (R.remaining input.old) (O.contents out.old) (O.contents out.new) result }

    // Statuses 1 to 4 come only with the line of a verdict, which has that status.
    ensures told { 0 < result → result ≤ 4 → TellsSome (O.contents out.old) (O.contents out.new) result }
    ensures mistake { result ≡ WORDS_FAULT → out.new ≡ out.old }
    ensures quiet { result ≢ WORDS_FAULT → err.new ≡ err.old }
    ensures status { IsStatus result }
{
    match Words::read(alloc, words) {
        Ok(words) => tell(&verdict_on(files, clock, alloc, words, input), out),
        Err(error) => tell_refused_words(&error, out, err),
    }
}

/// The verdict on what is read from the source that the words ask for, record by record.
fn verdict_on<F: Files, C: Clock, R: Read>(
    files: &F,
    clock: &C,
    alloc: Global,
    words: Words<'_>,
    input: &mut R,
) -> Verdict
    ensures { path_of words.entry.source ≡ None → IsVerdictOnInput (R.remaining input.old) result }
{
    match words.source {
        InputSource::StandardInput => verdict_up_to(clock, alloc, words.end, input),
        InputSource::File(path) => match fs::open(files, path) {
            Ok(mut file) => verdict_on_file(clock, alloc, words.end, &mut file),
            Err(error) => verdict_unopened(&error),
        },
    }
}

/// The verdict on a file up to this end, in memory that does not grow with a lawful capture: where a record is refused so, the file
/// is read once more from its start, and all is kept, to tell what the record breaks. What cannot be read twice, as a pipe, is
/// read once, and all is kept.
fn verdict_on_file<C: Clock, F: Read + Seek>(
    clock: &C,
    alloc: Global,
    end: End,
    file: &mut F,
) -> Verdict {
    if file.rewind().is_err() {
        return verdict_up_to(clock, alloc, end, file);
    }
    if let Some(verdict) = verdict_forgetting(clock, alloc, end, &mut *file) {
        return verdict;
    }
    match file.rewind() {
        // What was refused is there already, so nothing is waited for.
        Ok(()) => verdict_up_to(clock, alloc, End::First, file),
        Err(_) => Verdict::Unreadable(0),
    }
}

/// The verdict on what the reader gives up to this end, by an auditor that forgets; `None` where a record breaks a clause.
fn verdict_forgetting<C: Clock, R: Read>(
    clock: &C,
    alloc: Global,
    end: End,
    reader: R,
) -> Option<Verdict>
where
    R: Drop,
    ensures answers { IfSome result (IsVerdictOnInput (R.remaining reader)) }
    ensures refused { result ≡ None → IfSome (R.remaining reader) AreRefused }
{
    match end {
        End::First => audit_forgetting(alloc, reader),
        End::Idle(seconds) => audit_growing_forgetting(clock, alloc, reader, Some(seconds)),
        End::Never => audit_growing_forgetting(clock, alloc, reader, None),
    }
}

/// The verdict on what the reader gives up to this end.
fn verdict_up_to<C: Clock, R: Read>(clock: &C, alloc: Global, end: End, reader: R) -> Verdict
where
    R: Drop,
    ensures { IsVerdictOnInput (R.remaining reader) result }
{
    match end {
        End::First => audit_stream(alloc, reader),
        End::Idle(seconds) => audit_growing_file(clock, alloc, reader, Some(seconds)),
        End::Never => audit_growing_file(clock, alloc, reader, None),
    }
}

/// The verdict where the file could not be opened.
fn verdict_unopened(error: &io::Error) -> Verdict
    ensures memory { (result ≡ NoMemory 0) ↔ IsRefusedGrowth error.now }
    ensures either { (result ≡ NoMemory 0) ⊎ (result ≡ Unreadable 0) }
{
    if is_refused_growth(error) {
        Verdict::NoMemory(0)
    } else {
        Verdict::Unreadable(0)
    }
}

/// Writes the line of `verdict` to `out`, and answers its status; or `NOT_WRITTEN` where `out` fails, and then nothing is
/// said of what stands there.
pub fn tell<O: Write>(verdict: &Verdict, out: &mut O) -> u8
    ensures told { result ≢ NOT_WRITTEN → Tells (O.contents out.old) (O.contents out.new) result verdict.now }
    ensures status { (result ≡ status_of verdict.now) ⊎ (result ≡ NOT_WRITTEN) }
{
    tell_line(verdict, verdict.status(), out)
}
