//! Telling how a run ended.

ghost use Rattle.std.specs.Prelude.{◌≡◌, ◌≢◌, ◌⊎◌};
ghost use Rattle.router_words.specs.RunEnd.{Tells, status_of};

use crate::run_end::RunEnd;
use program_ends::{NOT_WRITTEN, tell_line};
use std::io::Write;

/// Writes the line of the outcome, and answers its status.
pub fn tell<O: Write>(outcome: &RunEnd, out: &mut O) -> u8
    ensures told { result ≢ NOT_WRITTEN → Tells (O.contents out.old) (O.contents out.new) result outcome.now }
    ensures status { (result ≡ status_of outcome.now) ⊎ (result ≡ NOT_WRITTEN) }
{
    tell_line(outcome, outcome.status(), out)
}
