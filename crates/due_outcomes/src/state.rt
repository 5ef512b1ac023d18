//! The state that an outcome tells, as it is written.

ghost use Rattle.std.specs.Prelude.{◌≡◌, Some, IfOk, IfSome, OnOk, option_map};
ghost use Rattle.amqp_perf.specs.Grammar.{IsPerformative};
ghost use Rattle.amqp_perf.specs.Meaning.{ADisposition, DispositionFields, state_told};
ghost use Rattle.amqp_perf.specs.NestedViews.{state_view};
ghost use Rattle.amqp_perf.specs.Router.{FitsFrame, bare_state, outcome_told};
ghost use Rattle.amqp_perf.specs.View.{view};
ghost use Rattle.amqp_perf.specs.Writing.{IfThere, IsWritableState, performative_octets};
ghost use Rattle.trace_judge.specs.Told.{told_view};
ghost use Rattle.route_dues.specs.Outcomes.{HasState, octets_in};

use crate::outcome::DueOutcome;
use amqp_perf::{Outcome, Performative, Slot, State, put_fields};
use std::alloc::AllocError;
use trace_judge::Told;

/// The code of a disposition (part 2 of the standard, section 2.7.6).
const DISPOSITION: u8 = 0x15;

impl<'t> DueOutcome<'t> {
    /// The state that is told, as it is written. A consumer's own that is more than an outcome is read again, from a
    /// disposition that is put into `scratch` in the place of what stands there.
    ///
    /// # Errors
    ///
    /// Memory was refused, for a consumer's own state.
    pub fn state<'s>(&self, scratch: &'s mut Vec<u8>) -> Result<Option<State<'s>>, AllocError>
        requires { IfSome (told_view self.now.told) HasState }
        ensures octets { IfOk result (λ state. octets_in (option_map state_view state) ≡ told_view self.now.told) }
        ensures writable { IfOk result (λ state. IfThere IsWritableState (option_map state_view state)) }
        ensures short { IfOk result (λ state. IfThere FitsFrame (option_map state_view state)) }
    {
        match self.told {
            Told::Nothing => Ok(None),
            Told::Bare(outcome) => Ok(Some(State::of_outcome(outcome))),
            Told::DeliveryFailed => Ok(Some(State::delivery_failed())),
            Told::Octets(octets) => own_state(scratch, octets),
        }
    }
}

/// The state of these octets, which a consumer wrote. Most have an outcome alone, in its shortest form.
///
/// # Errors
///
/// Memory was refused, for a state that is read again.
fn own_state<'s>(scratch: &'s mut Vec<u8>, octets: &[u8]) -> Result<Option<State<'s>>, AllocError>
    requires { HasState octets.now }
    ensures octets { IfOk result (λ state. octets_in (option_map state_view state) ≡ Some octets.now) }
    ensures writable { IfOk result (λ state. IfThere IsWritableState (option_map state_view state)) }
    ensures short { IfOk result (λ state. IfThere FitsFrame (option_map state_view state)) }
{
    match bare_outcome(octets) {
        Some(outcome) => Ok(Some(State::of_outcome(outcome))),
        None => read_again(scratch, octets),
    }
}

/// The outcome whose state without fields these octets are, in its shortest form.
fn bare_outcome(octets: &[u8]) -> Option<Outcome>
    ensures { IfSome result (λ outcome. (bare_state outcome).octets ≡ octets.now) }
{
    match octets {
        [0x00, 0x53, 0x24, 0x45] => Some(Outcome::Accepted),
        [0x00, 0x53, 0x25, 0x45] => Some(Outcome::Rejected),
        [0x00, 0x53, 0x26, 0x45] => Some(Outcome::Released),
        [0x00, 0x53, 0x27, 0x45] => Some(Outcome::Modified),
        _ => None,
    }
}

/// The state of these octets.
fn read_again<'s>(scratch: &'s mut Vec<u8>, octets: &[u8]) -> Result<Option<State<'s>>, AllocError>
    requires { HasState octets.now }
    ensures octets { IfOk result (λ state. octets_in (option_map state_view state) ≡ Some octets.now) }
    ensures writable { IfOk result (λ state. IfThere IsWritableState (option_map state_view state)) }
    ensures short { IfOk result (λ state. IfThere FitsFrame (option_map state_view state)) }
{
    put_disposition(scratch, octets)?;
    Ok(state_told(scratch))
}

/// A disposition with the state of these octets, in the place of what stands there.
fn put_disposition(scratch: &mut Vec<u8>, octets: &[u8]) -> Result<(), AllocError>
    requires { HasState octets.now }
    ensures { OnOk result ((has : HasState octets.now) → scratch.new.items ≡ performative_octets (ADisposition (outcome_told 0 (Some has.state)))) }
{
    scratch.clear();
    let slots = [
        Slot::Boolean(true),
        Slot::Uint(0),
        Slot::Absent,
        Slot::Boolean(true),
        Slot::Written(octets),
    ];
    put_fields(scratch, DISPOSITION, &slots)
}

/// The state that a disposition tells, which stands there alone.
fn state_told(octets: &[u8]) -> Option<State<'_>>
    ensures { (fields : DispositionFields) → IsPerformative octets.now (ADisposition fields) → option_map state_view result ≡ fields.state }
{
    match Performative::read(octets) {
        Ok(read) => state_in(read.0),
        Err(_) => None,
    }
}

/// The state that the performative tells, if it is a disposition.
fn state_in(performative: Performative<'_>) -> Option<State<'_>>
    ensures { option_map state_view result ≡ state_told (view performative.entry) }
{
    match performative {
        Performative::Disposition(disposition) => disposition.state,
        _ => None,
    }
}
