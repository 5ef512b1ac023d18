//! Transfers that are due: each carries as much of the rest of its delivery as its frame may (part 2 of the standard,
//! section 2.7.5).

ghost use Rattle.std.specs.Prelude.{◌≡◌, ◌≤◌, ◌-◌, true, List, [], OnOk, length, drop};
ghost use Rattle.amqp_types.specs.Writing.{Puts, uint_octets};
ghost use Rattle.capture_form.specs.Rules.{RuleSet};
ghost use Rattle.trace_events.specs.Event as law;
ghost use Rattle.trace_events.specs.Incoming as received;
ghost use Rattle.trace_events.specs.Outgoing as sent;
ghost use Rattle.trace_events.specs.Link.{IsLiveLink};
ghost use Rattle.trace_events.specs.Written.{spoken_octets, written_transfer, first_part, next_part};
ghost use Rattle.trace_events.specs.View.{incoming_view, link_view, Events};
ghost use Rattle.route_dues.specs.Writing.{IsReadAgain};
ghost use Rattle.route_dues.specs.Transfers.{first_frame, next_frame};

use crate::frame::put_spoken;
use crate::short::put_first_part;
use amqp_perf::{Performative, Transfer};
use std::alloc::AllocError;
use trace_events::{Incoming, Link};
use trace_judge::{Counts, Outcomes};

/// How many octets the frame of a first part has beside its payload and three numbers: header, descriptor and list, tag and two
/// flags.
const FIRST_OCTETS: usize = 22;

/// How many octets that of a later part has beside its payload and its handle.
const LATER_OCTETS: usize = 19;

/// How many octets a uint takes where it is written.
fn uint_size(value: u32) -> usize
    ensures size { result ≡ length (uint_octets value) }
    ensures small { result ≤ 5 }
{
    if value == 0 {
        1
    } else if value < 256 {
        2
    } else {
        5
    }
}

/// How many octets of payload the first part of a delivery has room for, with this id and message-format: what its frame leaves
/// of the limit without any.
fn first_room(limit: u32, link: &Link, id: u32, format: u32) -> usize
    ensures { result ≡ limit - length (spoken_octets (written_transfer (link_view link.now) (first_part (link_view link.now) id format true) [])) }
{
    let numbers = uint_size(link.handle) + uint_size(id) + uint_size(format);
    (limit as usize).saturating_sub(FIRST_OCTETS + numbers)
}

/// How many octets of payload a later part has room for.
fn later_room(limit: u32, link: &Link) -> usize
    ensures { result ≡ limit - length (spoken_octets (written_transfer (link_view link.now) (next_part (link_view link.now) true) [])) }
{
    (limit as usize).saturating_sub(LATER_OCTETS + uint_size(link.handle))
}

/// Appends the next part of a delivery in progress on a consumer's live link, by the rest of its payload.
///
/// # Errors
///
/// Where memory is refused: then nothing was appended.
pub fn put_next<'a, P: Outcomes<'a>>(
    out: &mut Vec<u8>,
    past: &P,
    link: &Link,
    rest: &[u8],
) -> Result<(), AllocError>
    ensures appended { (rules : RuleSet) (history : Events) (d : law.Incoming) (j : law.Outgoing) → P.stands_for past.now rules history
        → rest.now ≡ drop (length (sent.payload j history)) (received.payload d history) → Puts out.old.items out.new.items result (spoken_octets (next_frame history (link_view link.now) d j)) }
    ensures again { (rules : RuleSet) (history : Events) (d : law.Incoming) (j : law.Outgoing) → P.stands_for past.now rules history
        → rest.now ≡ drop (length (sent.payload j history)) (received.payload d history) → OnOk result (IsReadAgain (next_frame history (link_view link.now) d j)) }
{
    let limit = past.frame_limit(link.session.connection);
    let room = later_room(limit, link);
    let more = room < rest.len();
    let transfer = Performative::Transfer(Transfer::later(link.handle, more));
    let part = &rest[..room.min(rest.len())];
    put_spoken(out, link.session.channel, &transfer, part)
}

/// Appends the first part of a delivery that begins on a consumer's live link, by its payload.
///
/// # Errors
///
/// Where memory is refused: then nothing was appended.
pub fn put_first<'a, P: Counts + Outcomes<'a>>(
    out: &mut Vec<u8>,
    past: &P,
    link: &Link,
    delivery: &Incoming,
    payload: &[u8],
) -> Result<(), AllocError>
    ensures appended { (rules : RuleSet) (history : Events) → P.stands_for past.now rules history → IsLiveLink (link_view link.now) history
        → payload.now ≡ received.payload (incoming_view delivery.now) history
        → Puts out.old.items out.new.items result (spoken_octets (first_frame history (link_view link.now) (incoming_view delivery.now))) }
    ensures again { (rules : RuleSet) (history : Events) → P.stands_for past.now rules history → IsLiveLink (link_view link.now) history
        → payload.now ≡ received.payload (incoming_view delivery.now) history → OnOk result (IsReadAgain (first_frame history (link_view link.now) (incoming_view delivery.now))) }
{
    let id = past.next_delivery_id(link.session);
    let limit = past.frame_limit(link.session.connection);
    let room = first_room(limit, link, id, delivery.format);
    let more = room < payload.len();
    let part = &payload[..room.min(payload.len())];
    put_first_part(out, link, id, delivery.format, more, part)
}
