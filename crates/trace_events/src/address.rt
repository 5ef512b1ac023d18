//! How the deliveries of an address are distributed.

ghost use Rattle.std.specs.Prelude.{◌≡◌};
ghost use Rattle.trace_events.specs.Address as law;

use capture_form::{Distribution, RuleSet, distribution_of};

/// Each delivery of the address goes to all its consumers, and not to one.
pub fn has_multicast(rules: &RuleSet, address: &[u8]) -> bool
    ensures { result ≡ law.has_multicast rules.now address.now }
{
    matches!(distribution_of(rules, address), Distribution::Multicast)
}
