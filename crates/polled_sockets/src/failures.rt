//! How often a gate failed.

ghost use Rattle.std.specs.Prelude.{◌≡◌, ◌+◌, ◌-◌, ◌^◌, false};
ghost use Rattle.std.specs.Bool.{OnTrue};

/// Counts a failed call among those so far, unless there were as many as can be counted. Says whether it did.
pub fn count_failure(failed: &mut u64) -> bool
    ensures counted { OnTrue result (failed.new ≡ failed.old + 1) }
    ensures full { result ≡ false → (failed.old ≡ 2 ^ 64 - 1) × (failed.new ≡ failed.old) }
{
    if *failed == u64::MAX {
        return false;
    }
    *failed += 1;
    true
}
