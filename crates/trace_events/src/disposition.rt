//! What a disposition covers and says (part 2 of the standard, section 2.7.6).

ghost use Rattle.std.specs.Prelude.{◌≡◌, option_map};
ghost use Rattle.amqp_perf.specs.NestedViews.{state_view};
ghost use Rattle.amqp_perf.specs.View.{disposition_fields};
ghost use Rattle.flow_counts.specs.Covers as ranges;
ghost use Rattle.trace_events.specs.Disposition as law;
ghost use Rattle.trace_events.specs.View.{decision_view};

use amqp_perf::{Disposition, Outcome, State};

/// What a consumer decided (part 3 of the standard, section 3.4).
#[derive(Clone, Copy)]
pub enum Decision<'a> {
    /// It settled, and told no outcome.
    Settled,
    /// A terminal state: its outcome, and its octets.
    Terminal(Outcome, &'a [u8]),
}

impl<'a> Decision<'a> {
    /// What a disposition that decides says.
    pub fn of_disposition(fields: &Disposition<'a>) -> Decision<'a>
        ensures { decision_view result ≡ law.terminal_state (disposition_fields fields.now) }
    {
        match fields.state {
            Some(state) => match state.outcome() {
                Some(outcome) => Decision::Terminal(outcome, state.raw()),
                None => Decision::Settled,
            },
            None => Decision::Settled,
        }
    }
}

/// The id stands from the first to the last, counted as serial numbers; a range of half of all ids or more covers
/// nothing.
fn covers(first: u32, last: u32, id: u32) -> bool
    ensures { result ≡ ranges.covers first last id }
{
    let span = last.wrapping_sub(first);
    span < 1 << 31 && id.wrapping_sub(first) <= span
}

/// The disposition covers a delivery of this id; one without id is covered by nothing.
pub(crate) fn covers_id(fields: &Disposition, id: Option<u32>) -> bool
    ensures { result ≡ law.covers_id (disposition_fields fields.now) id }
{
    match id {
        Some(id) => covers(fields.first, fields.last_id(), id),
        None => false,
    }
}

/// The outcome that it tells: a terminal state (part 3, section 3.4).
fn terminal_state<'a>(fields: &Disposition<'a>) -> Option<State<'a>>
    ensures { option_map state_view result ≡ law.terminal_state (disposition_fields fields.now) }
{
    match fields.state {
        Some(state) if state.outcome().is_some() => Some(state),
        _ => None,
    }
}

/// It decides the deliveries that it covers.
pub fn is_decisive(fields: &Disposition) -> bool
    ensures { result ≡ law.is_decisive (disposition_fields fields.now) }
{
    fields.is_settled() || terminal_state(fields).is_some()
}
