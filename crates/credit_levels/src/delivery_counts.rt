//! What is asked of the past for a picture alone.

use capture_form::RuleSet;
use state_answers::LentTables;
use trace_events::Link;
use trace_judge::History;

/// How many deliveries wait, and how many are unsettled.
pub trait DeliveryCounts: History {
    ghost use Rattle.std.specs.Prelude.{◌≡◌};
    ghost use Rattle.capture_form.specs.Rules.{RuleSet};
    ghost use Rattle.trace_events.specs.View.{Events, link_view};
    ghost use Rattle.state_incoming.specs.WaitingCount as waiting;
    ghost use Rattle.state_outgoing.specs.UnsettledCount as unsettled;

    /// How many deliveries wait at the address.
    fn waiting_count(&self, rules: &RuleSet, address: &[u8]) -> usize
        ensures { (history : Events) → Self.stands_for self.now rules.now history → (result ≡ waiting.waiting_count rules.now address.now history) };

    /// How many deliveries are unsettled on a consumer's link.
    fn unsettled_count(&self, rules: &RuleSet, link: &Link) -> usize
        ensures { (history : Events) → Self.stands_for self.now rules.now history → (result ≡ unsettled.unsettled_count (link_view link.now) history) };
}

impl DeliveryCounts for LentTables<'_> {
    fn waiting_count(&self, _rules: &RuleSet, address: &[u8]) -> usize {
        self.deliveries.waiting_count(address)
    }

    fn unsettled_count(&self, _rules: &RuleSet, link: &Link) -> usize {
        self.sent.unsettled_count(link)
    }
}
