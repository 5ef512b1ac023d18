//! The auditor on the text of what a core holds.

ghost use Rattle.std.specs.Prelude.{IfOk};
ghost use Rattle.audit_core.specs.Verdict.{AcceptsUnlessRefused, tally_in};

use audit_core::{Verdict, audit_bytes, lawful_text};
use capture_form::write_capture;
use route_core::Core;
use std::alloc::{AllocError, Global};

/// Audits the text of what a core holds. The verdict is `Accepted`, with what the records come to, or `NoMemory`.
///
/// # Errors
///
/// Where memory for the text is refused.
pub fn audit_core_text(alloc: Global, core: &Core) -> Result<Verdict, AllocError>
    ensures { IfOk result (AcceptsUnlessRefused (tally_in (record { rules = core.now.rules; records = core.now.records }))) }
{
    let capture = core.capture();
    // What a capture keeps is known where its rules are looked at.
    let _ = capture.rules();
    let text = write_capture(alloc, capture)?;
    lawful_text();
    Ok(audit_bytes(alloc, text.as_slice()))
}
