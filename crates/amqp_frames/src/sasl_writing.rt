//! Writing the frames of a SASL exchange.

ghost use Rattle.std.specs.Prelude.{◌≡◌, ◌≤◌, ℕ, Some, option_map, IsAscii};
ghost use Rattle.std.specs.Option.{option_copied};
ghost use Rattle.amqp_types.specs.declared.code.Text.TheVariants as texts;
ghost use Rattle.amqp_types.specs.Writing.{Puts, levels_in_described};
ghost use Rattle.amqp_perf.specs.Slots.{text_value, IsShort, AreShort, CanStand};
ghost use Rattle.amqp_perf.specs.SlotViews.{slot_view};
ghost use Rattle.amqp_perf.specs.Writing.{IfThere};
ghost use Rattle.amqp_frames.specs.declared.frame.FrameKind.TheVariants as kinds;
ghost use Rattle.amqp_frames.specs.Reading.{whole_frame};
ghost use Rattle.amqp_frames.specs.Sasl.{AMechanisms, AnInit, AnOutcome, init_with};
ghost use Rattle.amqp_frames.specs.SaslGrammar.{IsSasl};
ghost use Rattle.amqp_frames.specs.SaslView.{sasl_view};
ghost use Rattle.amqp_frames.specs.SaslWriting.{mechanisms_octets, mechanisms_slots, init_slots, outcome_slots, sasl_octets, HasWritableTexts, IsWritableSasl};
ghost use Rattle.amqp_frames.specs.Writing.{frame_size, frame_octets, frame_with};

use crate::frame::FrameKind;
use crate::sasl::SaslFrame;
use crate::writing::put_around;
use amqp_perf::{Slot, put_fields};
use std::alloc::AllocError;

/// An array of the symbol ANONYMOUS alone.
const ANONYMOUS_ALONE: &[u8] = b"\xE0\x0C\x01\xA3\x09ANONYMOUS";

/// An array without elements.
const NO_MECHANISM: &[u8] = &[0xE0, 0x01, 0x00];

/// Appends a whole SASL frame, on channel 0. Of the mechanisms it names ANONYMOUS alone, or none.
///
/// # Errors
///
/// Where memory is refused: then nothing was appended.
#[tactic(auto, using(crate::proofs::FrameWritten::frame_again))]
pub fn sasl_write(frame: SaslFrame<'_>, out: &mut Vec<u8>) -> Result<(), AllocError>
    requires { IsWritableSasl (sasl_view frame) }
    ensures appended { Puts out.old.items out.new.items result (frame_octets kinds.Sasl 0 (sasl_octets (sasl_view frame.entry))) }
    // What is written is a whole frame of this body, where frames may have so many octets.
    ensures framed { (limit : ℕ) → frame_size (sasl_octets (sasl_view frame.entry)) ≤ limit
        → whole_frame limit (frame_octets kinds.Sasl 0 (sasl_octets (sasl_view frame.entry))) ≡ Some (frame_with kinds.Sasl 0 (sasl_octets (sasl_view frame.entry))) }
    // The body says this again.
    ensures again { IsSasl (sasl_octets (sasl_view frame.entry)) (sasl_view frame.entry) }
{
    let mut body = Vec::new(*out.allocator());
    frame.put_body(&mut body)?;
    put_around(out, FrameKind::Sasl, 0, &body, &[])
}

impl<'a> SaslFrame<'a> {
    /// Appends the body of the frame.
    fn put_body(self, out: &mut Vec<u8>) -> Result<(), AllocError>
        requires { IsWritableSasl (sasl_view self) }
        ensures appended { Puts out.old.items out.new.items result (sasl_octets (sasl_view self.entry)) }
        ensures again { IsSasl (sasl_octets (sasl_view self.entry)) (sasl_view self.entry) }
    {
        match self {
            SaslFrame::Mechanisms { anonymous } => put_mechanisms(out, anonymous),
            SaslFrame::Init {
                mechanism,
                initial_response,
                hostname,
            } => put_init(out, mechanism, initial_response, hostname),
            SaslFrame::Outcome { code } => put_outcome(out, code),
        }
    }
}

/// Appends what mechanisms say.
#[tactic(auto, using(crate::proofs::SaslWritten::mechanisms_can, crate::proofs::SaslWritten::mechanisms_again))]
fn put_mechanisms(out: &mut Vec<u8>, anonymous: bool) -> Result<(), AllocError>
    requires { AreShort (mechanisms_slots anonymous) }
    ensures appended { Puts out.old.items out.new.items result (sasl_octets (AMechanisms anonymous)) }
    ensures again { IsSasl (sasl_octets (AMechanisms anonymous)) (AMechanisms anonymous) }
{
    put_fields(out, 0x40, &[Slot::Written(mechanisms(anonymous))])
}

/// The octets of an array of the mechanisms.
fn mechanisms(anonymous: bool) -> &'static [u8]
    ensures { result.now ≡ mechanisms_octets anonymous }
{
    if anonymous {
        ANONYMOUS_ALONE
    } else {
        NO_MECHANISM
    }
}

/// Appends what an init says.
#[tactic(auto, using(crate::proofs::SaslWritten::init_again))]
fn put_init(
    out: &mut Vec<u8>,
    mechanism: &str,
    initial_response: Option<&[u8]>,
    hostname: Option<&str>,
) -> Result<(), AllocError>
    requires texts { HasWritableTexts (AnInit (init_with mechanism.now (option_copied initial_response) (option_copied hostname))) }
    requires few { AreShort (init_slots (init_with mechanism.now (option_copied initial_response) (option_copied hostname))) }
    ensures appended { Puts out.old.items out.new.items result (sasl_octets (AnInit (init_with mechanism.now (option_copied initial_response.entry) (option_copied hostname.entry)))) }
    ensures again { IsSasl (sasl_octets (AnInit (init_with mechanism.now (option_copied initial_response.entry) (option_copied hostname.entry))))
        (AnInit (init_with mechanism.now (option_copied initial_response.entry) (option_copied hostname.entry))) }
{
    let fields = [
        symbol(mechanism),
        Slot::binary(initial_response),
        text(hostname),
    ];
    put_fields(out, 0x41, &fields)
}

/// Appends what an outcome says.
#[tactic(auto, using(crate::proofs::SaslWritten::outcome_can, crate::proofs::SaslWritten::outcome_again))]
fn put_outcome(out: &mut Vec<u8>, code: u8) -> Result<(), AllocError>
    requires { AreShort (outcome_slots code) }
    ensures appended { Puts out.old.items out.new.items result (sasl_octets (AnOutcome code)) }
    ensures again { IsSasl (sasl_octets (AnOutcome code)) (AnOutcome code) }
{
    put_fields(out, 0x44, &[Slot::Ubyte(code)])
}

/// A symbol as a field.
#[tactic(auto, using(crate::proofs::SaslWritten::symbol_can))]
fn symbol(symbol: &str) -> Slot<'_>
    requires ascii { IsAscii symbol.now }
    requires short { IsShort symbol.now }
    ensures value { slot_view result ≡ Some (text_value texts.Symbol symbol.now) }
    ensures can { CanStand levels_in_described (Some (text_value texts.Symbol symbol.now)) }
{
    Slot::Symbol(symbol)
}

/// A string as a field, where there is one.
fn text(text: Option<&str>) -> Slot<'_>
    requires { IfThere IsShort (option_copied text) }
    ensures value { slot_view result ≡ option_map (text_value texts.Str) (option_copied text.entry) }
    ensures can { CanStand levels_in_described (option_map (text_value texts.Str) (option_copied text.entry)) }
{
    match text {
        Some(text) => Slot::text(text),
        None => Slot::Absent,
    }
}
