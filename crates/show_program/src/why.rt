//! Why a capture is not accepted.

ghost use Rattle.std.specs.Prelude.{◌≡◌, ◌≢◌, ◌≤◌, ◌⊎◌};
ghost use Rattle.show_program.specs.Run.{ExplainsInput, ExplainsSome};

use crate::telling::tell_verdict;
use audit_core::audit_forgetting;
use program_ends::NOT_WRITTEN;
use refusal_showing::{NotWritten, Verdict, explain_capture};
use std::alloc::Global;
use std::io::{Read, Seek, Write};

/// Audits the capture that is read, tells on `out` the verdict and why it is not accepted, and answers the verdict's status;
/// or `NOT_WRITTEN` where `out` fails.
pub fn show_why<R: Read, O: Write>(alloc: Global, input: R, out: &mut O) -> u8
where
    R: Drop,
    ensures explained { result ≢ NOT_WRITTEN → ExplainsInput (R.remaining input) (O.contents out.old) (O.contents out.new) result }
    ensures status { (result ≤ 4) ⊎ (result ≡ NOT_WRITTEN) }
{
    match explain_capture(alloc, input, out) {
        Ok(verdict) => verdict.status(),
        Err(NotWritten) => NOT_WRITTEN,
    }
}

/// The same of a capture in a file, in memory that does not grow with a capture that is accepted: that is read by an auditor that
/// forgets, and any other once more from its start, and all is kept. What cannot be read twice, as a pipe, is read once, and all is
/// kept.
pub fn show_why_of_file<I: Read + Seek, O: Write>(alloc: Global, file: &mut I, out: &mut O) -> u8
    ensures explained { result ≢ NOT_WRITTEN → ExplainsSome (O.contents out.old) (O.contents out.new) result }
    ensures status { (result ≤ 4) ⊎ (result ≡ NOT_WRITTEN) }
{
    match plain_verdict(alloc, &mut *file) {
        Some(verdict) => tell_verdict(&verdict, out),
        None => show_why(alloc, file, out),
    }
}

/// The verdict on a file, where nothing is to be explained: it is accepted, or cannot be read from its start any more. `None` where the
/// verdict is still to be found, by what the file gives from here on.
fn plain_verdict<I: Read + Seek>(alloc: Global, file: &mut I) -> Option<Verdict> {
    if file.rewind().is_err() {
        return None;
    }
    if let Some(Verdict::Accepted(tally)) = audit_forgetting(alloc, &mut *file) {
        return Some(Verdict::Accepted(tally));
    }
    match file.rewind() {
        Ok(()) => None,
        Err(_) => Some(Verdict::Unreadable(0)),
    }
}
