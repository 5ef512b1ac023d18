//! The line and the exit status that tell how a program ended.

ghost use Rattle.std.specs.Prelude.{◌≡◌, ◌≢◌, ◌⊎◌, IfSome, false, true};
ghost use Rattle.clap.specs.Words.{kind_of};
ghost use Rattle.program_ends.specs.Growth.{IsRefusedGrowth};
ghost use Rattle.program_ends.specs.Telling.{TellsLine, TellsNoMemory, is_mistake};

use crate::unread::UnreadWords;
use clap::error::ErrorKind;
use std::fmt::Display;
use std::io;
use std::io::Write;

/// The exit status where the program was refused memory.
pub const NO_MEMORY: u8 = 3;

/// The exit status after a mistake in the words.
pub const WORDS_FAULT: u8 = 64;

/// The exit status where standard output could not be written.
pub const NOT_WRITTEN: u8 = 74;

/// Writes the line and a newline to `out`, and answers the line's status; or `NOT_WRITTEN` where `out` fails, and then
/// nothing is said of what stands there.
pub fn tell_line<D: Display, O: Write>(line: &D, status: u8, out: &mut O) -> u8
    ensures told { result ≢ NOT_WRITTEN → IfSome (D.output line.now)
        (λ text. TellsLine text status (O.contents out.old) (O.contents out.new) result) }
    ensures status { (result ≡ status) ⊎ (result ≡ NOT_WRITTEN) }
{
    match writeln!(out, "{line}") {
        Ok(()) => status,
        Err(_) => NOT_WRITTEN,
    }
}

/// Tells that memory was refused.
fn tell_no_memory<O: Write>(out: &mut O) -> u8
    ensures told { result ≢ NOT_WRITTEN → TellsNoMemory (O.contents out.old) (O.contents out.new) result }
    ensures status { (result ≡ NO_MEMORY) ⊎ (result ≡ NOT_WRITTEN) }
{
    tell_line(&"no memory", NO_MEMORY, out)
}

/// Tells why the system did not give the words: one is no text, on `err` with `WORDS_FAULT`; or memory was refused, by its
/// line on `out`.
pub fn tell_unread_words<O: Write, E: Write>(error: io::Error, out: &mut O, err: &mut E) -> u8
    ensures memory { IsRefusedGrowth error → result ≢ NOT_WRITTEN
        → TellsNoMemory (O.contents out.old) (O.contents out.new) result }
    ensures no_text { ¬ (IsRefusedGrowth error) → result ≡ WORDS_FAULT }
    ensures mistake { result ≡ WORDS_FAULT → out.new ≡ out.old }
    ensures quiet { result ≢ WORDS_FAULT → err.new ≡ err.old }
    ensures status { (result ≡ NO_MEMORY) ⊎ (result ≡ WORDS_FAULT) ⊎ (result ≡ NOT_WRITTEN) }
{
    match UnreadWords::from(error) {
        UnreadWords::NoMemory => tell_no_memory(out),
        fault => {
            // The status tells the fault, whether or not its text could be written.
            let _ = writeln!(err, "error: {fault}");
            WORDS_FAULT
        }
    }
}

/// Tells why the parser did not take the words: a mistake in them, on `err` with `WORDS_FAULT`; that they ask for help or
/// the version, which goes to `out` with status 0; or memory was refused, by its line on `out`.
pub fn tell_refused_words<O: Write, E: Write>(error: &clap::Error, out: &mut O, err: &mut E) -> u8
    ensures memory { kind_of error.now ≡ ErrorKind.OutOfMemory → result ≢ NOT_WRITTEN
        → TellsNoMemory (O.contents out.old) (O.contents out.new) result }
    ensures wrong { is_mistake (kind_of error.now) ≡ true → result ≡ WORDS_FAULT }
    ensures asked { (kind_of error.now ≡ ErrorKind.DisplayHelp) ⊎ (kind_of error.now ≡ ErrorKind.DisplayVersion)
        → (result ≡ 0) ⊎ (result ≡ NOT_WRITTEN) }

    // Status 3 comes only with its line.
    ensures told { result ≡ NO_MEMORY → TellsNoMemory (O.contents out.old) (O.contents out.new) result }
    ensures mistake { result ≡ WORDS_FAULT → out.new ≡ out.old }
    ensures quiet { result ≢ WORDS_FAULT → err.new ≡ err.old }
    ensures status { (result ≡ 0) ⊎ (result ≡ NO_MEMORY) ⊎ (result ≡ WORDS_FAULT) ⊎ (result ≡ NOT_WRITTEN) }
{
    if error.kind() == ErrorKind::OutOfMemory {
        return tell_no_memory(out);
    }
    if error.use_stderr() {
        let _ = write!(err, "{error}");
        return WORDS_FAULT;
    }
    match write!(out, "{error}") {
        Ok(()) => 0,
        Err(_) => NOT_WRITTEN,
    }
}
