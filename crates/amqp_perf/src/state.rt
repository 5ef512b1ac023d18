//! The state of a delivery, as a disposition tells it (part 3, section 3.4).

use crate::descriptor::{Descriptor, Outcome, described_list};
use amqp_types::Value;

/// A described value that says how a delivery stands.
#[derive(Clone, Copy, Debug, PartialEq, Eq)]
pub struct State<'a> {
    pub(crate) raw: &'a [u8],
    pub(crate) outcome: Option<Outcome>,
}

impl<'a> State<'a> {
    ghost use Rattle.std.specs.Prelude.{◌≡◌, option_map, is_some};
    ghost use Rattle.amqp_types.specs.View.{view};
    ghost use Rattle.amqp_perf.specs.Nested.{state_in};
    ghost use Rattle.amqp_perf.specs.NestedViews.{state_view};

    /// The state that a value is, if it is described. A list that a number of one octet describes is not gone into.
    #[tactic(auto, using(crate::proofs::NumberedStates::state_numbered))]
    #[inline(always)]
    pub(crate) fn of_value(value: Value<'a>) -> Option<State<'a>>
        ensures { option_map state_view result ≡ state_in (view value.entry) }
    {
        match value.list_number() {
            Some(number) => Some(State {
                raw: value.raw(),
                outcome: Outcome::of_code(number),
            }),
            None => State::of_any(value),
        }
    }

    /// The state that a value is, if it is described.
    #[inline(never)]
    fn of_any(value: Value<'a>) -> Option<State<'a>>
        ensures { option_map state_view result ≡ state_in (view value.entry) }
    {
        let outcome = match described_list(value) {
            Some((Descriptor::Outcome(outcome), _)) => Some(outcome),
            Some(_) => None,
            None => {
                value.descriptor()?;
                None
            }
        };
        Some(State {
            raw: value.raw(),
            outcome,
        })
    }

    /// The octets of the state.
    pub fn raw(&self) -> &'a [u8]
        ensures { result.now ≡ (state_view self.now).octets }
    {
        self.raw
    }

    /// The outcome that the state is. Without one it isn't terminal.
    pub fn outcome(&self) -> Option<Outcome>
        ensures { result ≡ (state_view self.now).outcome }
    {
        self.outcome
    }
}
