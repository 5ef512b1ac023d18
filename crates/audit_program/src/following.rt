//! The verdicts on what grows.

ghost use Rattle.std.specs.Prelude.{◌≡◌, IfSome, None};
ghost use Rattle.trace_events.specs.declared.tally.Tally.{Tally};
ghost use Rattle.audit_core.specs.declared.verdict.Verdict.TheVariants.{Accepted};
ghost use Rattle.audit_core.specs.Verdict.{AnswersRead, AreRefused, IsKept};

use crate::followed::Followed;
use crate::growing::Growing;
use crate::growing_file::GrowingFile;
use audit_core::{Verdict, audit_forgetting, audit_stream};
use std::alloc::Global;
use std::io::Read;
use std::time::Clock;

/// The verdict of the octets that come of what grows until no more will, as the text of a capture. It takes them once, and judges
/// each record as soon as its octets are there: at the first that breaks a clause, and where the octets stop being a capture's
/// text, it ends without waiting for more. What `Accepted` is worth is said by `kept`.
pub fn audit_growing<G: Growing>(alloc: Global, source: G) -> Verdict
where
    G: Drop,
    ensures answers { IfSome (G.coming source) (λ octets. AnswersRead octets result) }
    ensures kept { IfSome (G.coming source) (λ octets. (tally : Tally) → result ≡ Accepted tally → IsKept octets) }
{
    audit_stream(alloc, Followed::new(source))
}

/// The verdict of `audit_growing` on a file that another program writes. Where the end of it is met there is a pause of a tenth of
/// a second, and then it is read on. No more will come where nothing came for so many seconds of pauses; where there is no number
/// of them, more may always come, and a capture that is lawful and goes on is never over.
pub fn audit_growing_file<C: Clock, R: Read>(
    clock: &C,
    alloc: Global,
    file: R,
    patience: Option<u64>,
) -> Verdict
where
    R: Drop,
    ensures answers { IfSome (R.remaining file) (λ octets. AnswersRead octets result) }
    ensures kept { IfSome (R.remaining file) (λ octets. (tally : Tally) → result ≡ Accepted tally → IsKept octets) }
{
    audit_growing(alloc, GrowingFile::new(clock, file, patience))
}

/// The verdict of `audit_growing_file`, by an auditor that forgets; `None` where a record breaks a clause (`audit_forgetting`).
pub(crate) fn audit_growing_forgetting<C: Clock, R: Read>(
    clock: &C,
    alloc: Global,
    file: R,
    patience: Option<u64>,
) -> Option<Verdict>
where
    R: Drop,
    ensures answers { IfSome result (λ verdict. IfSome (R.remaining file) (λ octets. AnswersRead octets verdict)) }
    ensures kept { IfSome result (λ verdict. IfSome (R.remaining file) (λ octets. (tally : Tally) → verdict ≡ Accepted tally → IsKept octets)) }
    ensures refused { result ≡ None → IfSome (R.remaining file) AreRefused }
{
    audit_forgetting(
        alloc,
        Followed::new(GrowingFile::new(clock, file, patience)),
    )
}
