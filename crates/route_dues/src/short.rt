//! Frames whose performative is a short list, written straight behind what is there: the first part of a delivery, and that a
//! delivery is settled. Each field is in its shortest form (part 1 of the standard, section 1.6), and the size and the count of
//! the list take one octet each, as `amqp_frames` writes them too, but without memory of their own.

ghost use Rattle.std.specs.Prelude.{◌≡◌, ◌≤◌, ◌<◌, ◌^◌, ◌∷◌, [], ℕ, suc, Option, Some, length, take, unwrap_or};
ghost use Rattle.std.specs.Int.{w32, to_be_bytes};
ghost use Rattle.std.specs.Option.{option_copied};
ghost use Rattle.flow_counts.specs.declared.profile.TheConstants.{MAX_FRAME_SIZE};
ghost use Rattle.amqp_types.specs.declared.code.Text.TheVariants as Text;
ghost use Rattle.amqp_types.specs.Writing.{Puts, boolean_octets, uint_octets, text_octets};
ghost use Rattle.amqp_perf.specs.Slots.{uint_value, CanStand};
ghost use Rattle.amqp_perf.specs.Meaning.{ADisposition};
ghost use Rattle.amqp_perf.specs.Nested.{StateFields};
ghost use Rattle.amqp_perf.specs.Writing.{role_value, IsWritable};
ghost use Rattle.trace_events.specs.Written.{spoken_octets, written_transfer, first_part, state_of, says};
ghost use Rattle.trace_events.specs.View.{link_view};
ghost use Rattle.route_dues.specs.Writing.{IsReadAgain};
ghost use Rattle.route_dues.specs.declared.short.TheConstants.{SHORT_STATE};
ghost use Rattle.route_dues.specs.Short.{front_octets, count_with, decided};

use amqp_perf::Role;
use amqp_types::put_parts;
use std::alloc::AllocError;
use trace_events::Link;

/// How many octets stand in front of the fields: the frame's header, the descriptor, and the list's code, size and count.
const FRONT_OCTETS: usize = 14;

/// How many octets a state has at most that is written beside the other fields in a short list.
pub(crate) const SHORT_STATE: usize = 200;

/// A uint as it is written (part 1, 1.6.5): the first of these octets, and how many they are.
#[tactic(auto, unfolding(amqp_types::specs::Writing::uint_octets), using(amqp_perf::proofs::SlotValues::uint_can))]
fn uint_in(value: u32) -> ([u8; 5], usize)
    ensures octets { take result.1 result.0 ≡ uint_octets value }
    ensures size { result.1 ≡ length (uint_octets value) }
    ensures small { result.1 ≤ 5 }
    ensures can { (levels : ℕ) → CanStand (suc levels) (Some (uint_value value)) }
{
    if value == 0 {
        return ([0x43, 0, 0, 0, 0], 1);
    }
    if value < 256 {
        return ([0x52, value as u8, 0, 0, 0], 2);
    }
    let [a, b, c, d] = value.to_be_bytes();
    ([0x70, a, b, c, d], 5)
}

/// A flag as it is written (part 1, 1.6.2).
#[tactic(auto, unfolding(amqp_types::specs::Writing::boolean_octets))]
fn flag(value: bool) -> u8
    ensures { result ∷ [] ≡ boolean_octets value }
{
    if value { 0x41 } else { 0x42 }
}

/// The tag of a delivery as it is written: a binary of its id in four octets (part 1, 1.6.19).
#[tactic(auto, unfolding(amqp_types::specs::Writing::text_octets))]
fn tag_in(id: u32) -> [u8; 6]
    ensures { result ≡ text_octets Text.Binary (to_be_bytes w32 id) }
{
    let [a, b, c, d] = id.to_be_bytes();
    [0xA0, 4, a, b, c, d]
}

/// The octets in front of so many fields, which have so many octets together, in a frame of this size.
fn front(size: u32, channel: u16, code: u8, fields: u8, count: u8) -> [u8; FRONT_OCTETS]
    requires { fields < 255 }
    ensures octets { result ≡ front_octets size channel code fields count }
    ensures fits { channel < 2 ^ 16 }
{
    let [a, b, c, d] = size.to_be_bytes();
    let [high, low] = channel.to_be_bytes();
    [
        a,
        b,
        c,
        d,
        2,
        0,
        high,
        low,
        0x00,
        0x53,
        code,
        0xC0,
        fields + 1,
        count,
    ]
}

/// Appends the frame of a first part with this id, message-format and payload.
///
/// # Errors
///
/// Where memory is refused: then nothing was appended.
pub(crate) fn put_first_part(
    out: &mut Vec<u8>,
    link: &Link,
    id: u32,
    format: u32,
    more: bool,
    payload: &[u8],
) -> Result<(), AllocError>
    requires fits { length (spoken_octets (written_transfer (link_view link.now) (first_part (link_view link.now) id format more) payload.now)) < 2 ^ 32 }
    ensures appended { Puts out.old.items out.new.items result (spoken_octets (written_transfer (link_view link.now) (first_part (link_view link.now) id format more) payload.now)) }
    // It is read again, where frames may be so long.
    ensures again { length (spoken_octets (written_transfer (link_view link.now) (first_part (link_view link.now) id format more) payload.now)) ≤ MAX_FRAME_SIZE
        → IsReadAgain (written_transfer (link_view link.now) (first_part (link_view link.now) id format more) payload.now) }
{
    let (handle_octets, handle_size) = uint_in(link.handle);
    let (id_octets, id_size) = uint_in(id);
    let (format_octets, format_size) = uint_in(format);
    // With the tag, and two flags.
    let fields = handle_size + id_size + format_size + 8;
    let size = FRONT_OCTETS + fields + payload.len();
    let front = front(size as u32, link.session.channel, 0x14, fields as u8, 6);
    out.reserve(size)?;
    put_parts(
        out,
        &[
            &front,
            &handle_octets[..handle_size],
            &id_octets[..id_size],
            &tag_in(id),
            &format_octets[..format_size],
            &[flag(link.is_pre_settled), flag(more)],
            payload,
        ],
    )
}

/// How many fields a disposition has beside this state, if any.
fn count_with(state: Option<&[u8]>) -> u8
    ensures { result ≡ count_with (option_copied state.entry) }
{
    match state {
        Some(_) => 5,
        None => 4,
    }
}

/// The octets of a state, none without one.
pub(crate) fn octets_if<'a>(state: Option<&'a [u8]>) -> &'a [u8]
    ensures { result.now ≡ unwrap_or (option_copied state.entry) [] }
{
    match state {
        Some(octets) => octets,
        None => &[],
    }
}

/// A role as it is written.
#[tactic(auto, unfolding(amqp_types::specs::Writing::boolean_octets))]
fn role_octet(role: Role) -> u8
    ensures { result ∷ [] ≡ (role_value role).octets }
{
    match role {
        Role::Sender => 0x42,
        Role::Receiver => 0x41,
    }
}

/// Appends the frame in which this end of a link tells that the delivery of this id is settled, with the state of these octets, if
/// any.
///
/// # Errors
///
/// Where memory is refused: then nothing was appended.
pub(crate) fn put_decided(
    out: &mut Vec<u8>,
    channel: u16,
    role: Role,
    id: u32,
    state: Option<&[u8]>,
) -> Result<(), AllocError>
    requires short { length (unwrap_or (option_copied state) []) ≤ SHORT_STATE }
    ensures appended { Puts out.old.items out.new.items result (spoken_octets (says channel (ADisposition (decided role id (state_of (option_copied state.entry)))))) }
    // With any state that can be written such a frame is read again, where frames may be so long.
    ensures again { (state : Option StateFields) → IsWritable (ADisposition (decided role id state)) → length (spoken_octets (says channel (ADisposition (decided role id state)))) ≤ MAX_FRAME_SIZE
        → IsReadAgain (says channel (ADisposition (decided role id state))) }
{
    let octets = octets_if(state);
    // Behind the id, no last one is said, and that the delivery is settled.
    let (id_octets, id_size) = uint_in(id);
    let fields = id_size + 3 + octets.len();
    let size = FRONT_OCTETS + fields;
    let front = front(size as u32, channel, 0x15, fields as u8, count_with(state));
    out.reserve(size)?;
    put_parts(
        out,
        &[
            &front,
            &[role_octet(role)],
            &id_octets[..id_size],
            &[0x40, 0x41],
            octets,
        ],
    )
}
