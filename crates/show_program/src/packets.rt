//! A capture as packets in a file.

ghost use Rattle.std.specs.Prelude.{◌≡◌, ◌≢◌, ◌≤◌, ◌⊎◌, IfOk, IfSome};
ghost use Rattle.std.specs.Io.KnownBytes.{Appends};
ghost use Rattle.capture_words.specs.Shown.{EndsText};
ghost use Rattle.show_program.specs.Run.{ShowsInput, TellsAlone, no_packets};

use crate::telling::{NO_FILE, tell, tell_no_packets};
use capture_packets::{NotPacked, pack_capture};
use capture_words::Ending;
use program_ends::NOT_WRITTEN;
use std::alloc::Global;
use std::fs::File;
use std::io::{BufWriter, Read, Write};
use std::rt::Files;

/// Writes the packets of the capture that is read to a new file of this path, and tells on `out` how the reading ended, or
/// that the packets could not be written; nothing else.
pub fn write_packets<F: Files, R: Read, O: Write>(
    files: &F,
    alloc: Global,
    path: &str,
    input: R,
    out: &mut O,
) -> u8
where
    R: Drop,
    ensures shown { result ≢ NOT_WRITTEN → result ≢ NO_FILE → ShowsInput (R.remaining input) (O.contents out.old) (O.contents out.new) result }
    ensures alone { result ≢ NOT_WRITTEN → result ≢ NO_FILE → TellsAlone (O.contents out.old) (O.contents out.new) result }
    ensures packets { result ≡ NO_FILE → Appends (O.contents out.old) (O.contents out.new) no_packets }
    ensures status { (result ≤ NO_FILE) ⊎ (result ≡ NOT_WRITTEN) }
{
    match pack_file(files, alloc, path, input) {
        Ok(ending) => tell(&ending, out),
        Err(NotPacked) => tell_no_packets(out),
    }
}

/// Writes the packets of the capture that is read to a new file of this path.
///
/// # Errors
///
/// The file is there already, can not be made or can not be written. Then the first octets of the packets stand there.
fn pack_file<F: Files, R: Read>(
    files: &F,
    alloc: Global,
    path: &str,
    input: R,
) -> Result<Ending, NotPacked>
where
    R: Drop,
    ensures ending { IfOk result (λ ending. IfSome (R.remaining input) (λ octets. EndsText octets ending)) }
{
    let Ok(file) = File::create_new(files, path) else {
        return Err(NotPacked);
    };
    match BufWriter::new(alloc, file) {
        Ok(buffered) => {
            let (_, packed) = pack_capture(alloc, input, buffered);
            packed
        }
        Err(_) => Ok(Ending::NoMemory),
    }
}
