//! What verdicts are worth.

ghost use Rattle.std.specs.Prelude.{◌≡◌, ℕ, List, None};
ghost use Rattle.capture_form.specs.Frame.{AreOctets};
ghost use Rattle.capture_form.specs.Text.{IsCapture, Trace, text};
ghost use Rattle.audit_core.specs.Verdict.{AcceptsUnlessRefused, Answers, Holds, broken_in, tally_in};
ghost use Rattle.audit_core.specs.declared.verdict.Verdict.{Verdict};

/// Of any octets exactly one verdict holds. The function does nothing: its contract is this law.
pub fn one_verdict()
    ensures some { (octets : List ℕ) → AreOctets octets → (verdict : Verdict) × Holds octets verdict }
    ensures no_other { (octets : List ℕ) (one other : Verdict) → Holds octets one → Holds octets other → one ≡ other }
{}

/// The text of a capture no record of which breaks a clause is accepted with what the capture holds, unless memory is refused.
/// The function does nothing: its contract is this law.
pub fn lawful_text()
    ensures { (trace : Trace) (verdict : Verdict) → IsCapture trace → broken_in trace ≡ None → Answers (text trace) verdict → AcceptsUnlessRefused (tally_in trace) verdict }
{}
