//! What a capture holds, counted record by record.

ghost use Rattle.std.specs.Prelude.{◌≡◌, ◌∷◌, ◌<◌, ◌^◌, length};
ghost use Rattle.trace_events.specs.Verdict.{tally_of};
ghost use Rattle.trace_events.specs.View.{Events, event_view};

use trace_events::{Event, Tally};

/// The tally of some events and this one more, from theirs, where they are fewer than 2^63; beyond that a count stays at the
/// greatest number of 64 bits.
pub fn counted(tally: Tally, event: &Event) -> Tally
    ensures { (past : Events) → tally ≡ tally_of past → length past < 2 ^ 63 → result ≡ tally_of (event_view event.now ∷ past) }
{
    Tally {
        records: tally.records.saturating_add(1),
        deliveries: tally
            .deliveries
            .saturating_add(u64::from(event.begins_outgoing())),
        outcomes: tally
            .outcomes
            .saturating_add(u64::from(event.tells_outcome())),
    }
}
