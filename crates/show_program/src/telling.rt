//! What is told behind what was shown, and the exit status.

ghost use Rattle.std.specs.Prelude.{◌≡◌, ◌≢◌, ◌≤◌, ◌⊎◌};
ghost use Rattle.capture_words.specs.Ending.{status_of};
ghost use Rattle.std.specs.Io.KnownBytes.{Appends};
ghost use Rattle.show_program.specs.Run.{Tells, TellsEnd, is_whole, no_chart, no_link, no_packets, too_many};
ghost use Rattle.audit_core.specs.Report.{status_of as status_of_verdict};
ghost use Rattle.refusal_showing.specs.Explained.{Tells as Explains};

use audit_core::Verdict;
use capture_words::Ending;
use program_ends::{NOT_WRITTEN, tell_line};
use std::io::Write;

/// The exit status where the file could not be written to which packets or a chart are to go.
pub const NO_FILE: u8 = 5;

/// The exit status where more records are asked for than a chart may have.
pub const TOO_MANY: u8 = 6;

/// The exit status where no link opens of those whose credit is asked for.
pub const NO_LINK: u8 = 7;

/// Writes the line of a fault to `out`, and answers the status; or `NOT_WRITTEN` where `out` fails, and then nothing is said
/// of what stands there. A whole capture has no line.
pub fn tell<O: Write>(ending: &Ending, out: &mut O) -> u8
    ensures told { result ≢ NOT_WRITTEN → Tells (O.contents out.old) (O.contents out.new) result ending.now }
    ensures alone { result ≢ NOT_WRITTEN → TellsEnd (O.contents out.old) (O.contents out.new) ending.now }
    ensures status { (result ≡ status_of ending.now) ⊎ (result ≡ NOT_WRITTEN) }
{
    tell_end(ending, out)
}

#[tactic(auto, using(crate::proofs::RunLemmas::nothing_told))]
fn tell_end<O: Write>(ending: &Ending, out: &mut O) -> u8
    ensures alone { result ≢ NOT_WRITTEN → TellsEnd (O.contents out.old) (O.contents out.new) ending.now }
    ensures status { (result ≡ status_of ending.now) ⊎ (result ≡ NOT_WRITTEN) }
{
    if is_whole(ending) {
        return ending.status();
    }
    tell_line(ending, ending.status(), out)
}

fn is_whole(ending: &Ending) -> bool
    ensures { result ≡ is_whole ending.now }
{
    matches!(ending, Ending::Whole)
}

/// Writes to `out` that packets could not be written, and answers `NO_FILE`; or `NOT_WRITTEN` where `out` fails.
pub fn tell_no_packets<O: Write>(out: &mut O) -> u8
    ensures told { result ≢ NOT_WRITTEN → Appends (O.contents out.old) (O.contents out.new) no_packets }
    ensures status { (result ≡ NO_FILE) ⊎ (result ≡ NOT_WRITTEN) }
{
    tell_line(&"packets not written", NO_FILE, out)
}

/// Writes to `out` that a chart could not be written, and answers `NO_FILE`; or `NOT_WRITTEN` where `out` fails.
pub fn tell_no_chart<O: Write>(out: &mut O) -> u8
    ensures told { result ≢ NOT_WRITTEN → Appends (O.contents out.old) (O.contents out.new) no_chart }
    ensures status { (result ≡ NO_FILE) ⊎ (result ≡ NOT_WRITTEN) }
{
    tell_line(&"chart not written", NO_FILE, out)
}

/// Writes to `out` that more records are asked for than a chart may have, and answers `TOO_MANY`; or `NOT_WRITTEN` where `out`
/// fails.
pub fn tell_too_many<O: Write>(out: &mut O) -> u8
    ensures told { result ≢ NOT_WRITTEN → Appends (O.contents out.old) (O.contents out.new) too_many }
    ensures status { (result ≡ TOO_MANY) ⊎ (result ≡ NOT_WRITTEN) }
{
    tell_line(
        &"more than 2000 records for a chart: --from, --to, --connection, --link, --delivery choose",
        TOO_MANY,
        out,
    )
}

/// Writes to `out` that there is no link of which curves could be drawn, and answers `NO_LINK`; or `NOT_WRITTEN` where `out` fails.
pub fn tell_no_link<O: Write>(out: &mut O) -> u8
    ensures told { result ≢ NOT_WRITTEN → Appends (O.contents out.old) (O.contents out.new) no_link }
    ensures status { (result ≡ NO_LINK) ⊎ (result ≡ NOT_WRITTEN) }
{
    tell_line(&"no such link of a consumer", NO_LINK, out)
}

/// Writes the line of a verdict to `out`, and answers its status; or `NOT_WRITTEN` where `out` fails.
pub fn tell_verdict<O: Write>(verdict: &Verdict, out: &mut O) -> u8
    ensures told { result ≢ NOT_WRITTEN → Explains (O.contents out.old) (O.contents out.new) verdict.now × (result ≡ status_of_verdict verdict.now) }
    ensures status { (result ≤ 4) ⊎ (result ≡ NOT_WRITTEN) }
{
    tell_line(verdict, verdict.status(), out)
}
