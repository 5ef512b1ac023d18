//! Dispositions that are due: outcomes and settlings (part 2 of the standard, section 2.7.6).

ghost use Rattle.std.specs.Prelude.{◌≡◌, ◌≤◌, length, option_map, unwrap_or};
ghost use Rattle.std.specs.Option.{option_copied};
ghost use Rattle.flow_counts.specs.declared.profile.TheConstants.{MAX_FRAME_SIZE};
ghost use Rattle.amqp_types.specs.Writing.{Puts};
ghost use Rattle.amqp_perf.specs.NestedViews.{state_view};
ghost use Rattle.amqp_perf.specs.Router.{FitsFrame};
ghost use Rattle.amqp_perf.specs.Writing.{IfThere, IsWritableState};
ghost use Rattle.trace_events.specs.Written.{spoken_octets, written_outcome, written_settling};
ghost use Rattle.trace_events.specs.View.{incoming_view};
ghost use Rattle.route_dues.specs.Outcomes.{octets_in, outcome_frame};
ghost use Rattle.route_dues.specs.Writing.{IsReadAgain};

use crate::frame::put_spoken;
use crate::short::{SHORT_STATE, octets_if, put_decided};
use amqp_perf::{Disposition, Performative, Role, State};
use std::alloc::AllocError;
use trace_events::{Incoming, Outgoing};

/// The octets of a state, if there is one.
fn raw_of<'a>(state: Option<State<'a>>) -> Option<&'a [u8]>
    ensures { option_copied result ≡ octets_in (option_map state_view state.entry) }
{
    match state {
        Some(state) => Some(state.raw()),
        None => None,
    }
}

/// Appends the outcome of a delivery, with this state; without one no outcome is told.
///
/// # Errors
///
/// Where memory is refused: then nothing was appended.
pub fn put_outcome(
    out: &mut Vec<u8>,
    delivery: &Incoming,
    state: Option<State<'_>>,
) -> Result<(), AllocError>
    requires writable { IfThere IsWritableState (option_map state_view state) }
    requires short { IfThere FitsFrame (option_map state_view state) }
    ensures appended { Puts out.old.items out.new.items result (spoken_octets (outcome_frame (incoming_view delivery.now) (option_map state_view state.entry))) }
    ensures octets { spoken_octets (outcome_frame (incoming_view delivery.now) (option_map state_view state.entry))
        ≡ spoken_octets (written_outcome delivery.now.link.session.channel (unwrap_or delivery.now.id 0) (octets_in (option_map state_view state.entry))) }
    ensures again { length (spoken_octets (outcome_frame (incoming_view delivery.now) (option_map state_view state.entry))) ≤ MAX_FRAME_SIZE
        → IsReadAgain (outcome_frame (incoming_view delivery.now) (option_map state_view state.entry)) }
{
    let id = delivery.id.unwrap_or(0);
    let channel = delivery.link.session.channel;
    let octets = raw_of(state);
    if octets_if(octets).len() <= SHORT_STATE {
        return put_decided(out, channel, Role::Receiver, id, octets);
    }
    let outcome = Performative::Disposition(Disposition::outcome(id, state));
    put_spoken(out, channel, &outcome, &[])
}

/// Appends the settling of a delivery.
///
/// # Errors
///
/// Where memory is refused: then nothing was appended.
pub fn put_settling(out: &mut Vec<u8>, delivery: &Outgoing) -> Result<(), AllocError>
    ensures appended { Puts out.old.items out.new.items result (spoken_octets (written_settling delivery.now.link.session.channel (unwrap_or delivery.now.id 0))) }
    ensures again { IsReadAgain (written_settling delivery.now.link.session.channel (unwrap_or delivery.now.id 0)) }
{
    let id = delivery.id.unwrap_or(0);
    put_decided(out, delivery.link.session.channel, Role::Sender, id, None)
}
