//! The fields of a described list as they are written.

ghost use Rattle.std.specs.Prelude.{◌≡◌, ◌<◌, ℕ, suc, Option, Some, None, List, length, option_map, is_some};
ghost use Rattle.std.specs.Option.{option_copied};
ghost use Rattle.amqp_types.specs.declared.code.Text.TheVariants as texts;
ghost use Rattle.amqp_types.specs.Writing.{Puts, levels_in_described};
ghost use Rattle.amqp_perf.specs.Slots.{boolean_value, ubyte_value, ushort_value, uint_value, ulong_value, text_value, or_null, fields_octets, IsShort, AreShort, CanStand, AllCanStand};
ghost use Rattle.amqp_perf.specs.NestedViews.{state_view, address_view};
ghost use Rattle.amqp_perf.specs.SlotViews.{slot_view, slots_view, nested_view};
ghost use Rattle.amqp_perf.specs.Writing.{role_value, sender_mode_value, receiver_mode_value, state_value, address_value, IfThere, IsWritableState, IsWritableAddress};

use crate::attach::{ReceiverSettleMode, Role, SenderSettleMode};
use crate::state::State;
use crate::terminus::Address;
use amqp_types::{
    put_binary, put_bool, put_described_list, put_null, put_str, put_symbol, put_ubyte, put_uint,
    put_ulong, put_ushort,
};
use std::alloc::AllocError;

/// A field as it is written.
#[derive(Clone, Copy, Debug, PartialEq, Eq)]
pub enum Slot<'a> {
    Absent,
    Boolean(bool),
    Ubyte(u8),
    Ushort(u16),
    Uint(u32),
    Ulong(u64),
    Binary(&'a [u8]),
    Str(&'a str),
    Symbol(&'a str),
    /// A value that was written elsewhere, by its octets.
    Written(&'a [u8]),
}

impl<'a> Slot<'a> {
    /// A number that is always there.
    #[tactic(auto, using(crate::proofs::SlotValues::uint_can))]
    pub(crate) fn number(value: u32) -> Slot<'a>
        ensures value { slot_view result ≡ Some (uint_value value) }
        ensures can { (levels : ℕ) → CanStand (suc levels) (Some (uint_value value)) }
    {
        Slot::Uint(value)
    }

    pub(crate) fn uint(value: Option<u32>) -> Slot<'a>
        ensures value { slot_view result ≡ option_map uint_value value }
        ensures can { (levels : ℕ) → CanStand (suc levels) (option_map uint_value value) }
    {
        match value {
            Some(value) => Slot::number(value),
            None => Slot::Absent,
        }
    }

    #[tactic(auto, using(crate::proofs::SlotValues::ushort_can))]
    fn short(value: u16) -> Slot<'a>
        ensures value { slot_view result ≡ Some (ushort_value value) }
        ensures can { (levels : ℕ) → CanStand (suc levels) (Some (ushort_value value)) }
    {
        Slot::Ushort(value)
    }

    pub(crate) fn ushort(value: Option<u16>) -> Slot<'a>
        ensures value { slot_view result ≡ option_map ushort_value value }
        ensures can { (levels : ℕ) → CanStand (suc levels) (option_map ushort_value value) }
    {
        match value {
            Some(value) => Slot::short(value),
            None => Slot::Absent,
        }
    }

    #[tactic(auto, using(crate::proofs::SlotValues::ulong_can))]
    fn long(value: u64) -> Slot<'a>
        ensures value { slot_view result ≡ Some (ulong_value value) }
        ensures can { (levels : ℕ) → CanStand (suc levels) (Some (ulong_value value)) }
    {
        Slot::Ulong(value)
    }

    pub(crate) fn ulong(value: Option<u64>) -> Slot<'a>
        ensures value { slot_view result ≡ option_map ulong_value value }
        ensures can { (levels : ℕ) → CanStand (suc levels) (option_map ulong_value value) }
    {
        match value {
            Some(value) => Slot::long(value),
            None => Slot::Absent,
        }
    }

    #[tactic(auto, using(crate::proofs::SlotValues::flag_can))]
    pub(crate) fn flag(value: Option<bool>) -> Slot<'a>
        ensures value { slot_view result ≡ option_map boolean_value value }
        ensures can { (levels : ℕ) → CanStand (suc levels) (option_map boolean_value value) }
    {
        match value {
            Some(value) => Slot::Boolean(value),
            None => Slot::Absent,
        }
    }

    #[tactic(auto, using(crate::proofs::SlotValues::role_can))]
    pub(crate) fn role(role: Role) -> Slot<'a>
        ensures value { slot_view result ≡ Some (role_value role) }
        ensures can { (levels : ℕ) → CanStand (suc levels) (Some (role_value role)) }
    {
        match role {
            Role::Sender => Slot::Boolean(false),
            Role::Receiver => Slot::Boolean(true),
        }
    }

    #[tactic(auto, using(crate::proofs::SlotValues::sender_mode_can))]
    pub(crate) fn sender_mode(mode: Option<SenderSettleMode>) -> Slot<'a>
        ensures value { slot_view result ≡ option_map sender_mode_value mode }
        ensures can { (levels : ℕ) → CanStand (suc levels) (option_map sender_mode_value mode) }
    {
        match mode {
            Some(SenderSettleMode::Unsettled) => Slot::Ubyte(0),
            Some(SenderSettleMode::Settled) => Slot::Ubyte(1),
            Some(SenderSettleMode::Mixed) => Slot::Ubyte(2),
            None => Slot::Absent,
        }
    }

    #[tactic(auto, using(crate::proofs::SlotValues::receiver_mode_can))]
    pub(crate) fn receiver_mode(mode: Option<ReceiverSettleMode>) -> Slot<'a>
        ensures value { slot_view result ≡ option_map receiver_mode_value mode }
        ensures can { (levels : ℕ) → CanStand (suc levels) (option_map receiver_mode_value mode) }
    {
        match mode {
            Some(ReceiverSettleMode::First) => Slot::Ubyte(0),
            Some(ReceiverSettleMode::Second) => Slot::Ubyte(1),
            None => Slot::Absent,
        }
    }

    #[tactic(auto, using(crate::proofs::SlotValues::binary_can))]
    pub fn binary(octets: Option<&'a [u8]>) -> Slot<'a>
        requires { IfThere IsShort (option_copied octets) }
        ensures value { slot_view result ≡ option_map (text_value texts.Binary) (option_copied octets.entry) }
        ensures can { (levels : ℕ) → CanStand (suc levels) (option_map (text_value texts.Binary) (option_copied octets.entry)) }
    {
        match octets {
            Some(octets) => Slot::Binary(octets),
            None => Slot::Absent,
        }
    }

    #[tactic(auto, using(crate::proofs::SlotValues::text_can))]
    pub fn text(text: &'a str) -> Slot<'a>
        requires { IsShort text.now }
        ensures value { slot_view result ≡ Some (text_value texts.Str text.now) }
        ensures can { (levels : ℕ) → CanStand (suc levels) (Some (text_value texts.Str text.now)) }
    {
        Slot::Str(text)
    }

    #[tactic(auto, using(crate::proofs::NestedAgain::state_can))]
    pub(crate) fn state(state: Option<State<'a>>) -> Slot<'a>
        requires { IfThere IsWritableState (option_map state_view state) }
        ensures value { slot_view result ≡ option_map state_value (option_map state_view state.entry) }
        ensures can { CanStand levels_in_described (option_map state_value (option_map state_view state.entry)) }
    {
        match state {
            Some(state) => Slot::Written(state.raw()),
            None => Slot::Absent,
        }
    }

    pub(crate) fn address(address: Option<Address<'a>>) -> Slot<'a>
        requires { IfThere IsWritableAddress (option_map address_view address) }
        ensures { slot_view result ≡ option_map address_value (option_map address_view address.entry) }
    {
        match address {
            Some(Address::Text(text)) => Slot::Str(text),
            Some(Address::Other(octets)) => Slot::Written(octets),
            None => Slot::Absent,
        }
    }

    /// A value that was written elsewhere: absent where there are no octets.
    pub(crate) fn nested(octets: &'a [u8]) -> Slot<'a>
        ensures value { slot_view result ≡ nested_view octets.now }
    {
        if octets.is_empty() {
            Slot::Absent
        } else {
            Slot::Written(octets)
        }
    }

    fn is_there(self) -> bool
        ensures { result ≡ is_some (slot_view self.entry) }
    {
        !matches!(self, Slot::Absent)
    }

    /// Appends the field: null where it is absent.
    ///
    /// # Errors
    ///
    /// Where memory is refused: then nothing was appended.
    fn put(self, out: &mut Vec<u8>) -> Result<(), AllocError>
        requires { CanStand levels_in_described (slot_view self) }
        ensures { Puts out.old.items out.new.items result (or_null (slot_view self.entry)).octets }
    {
        match self {
            Slot::Absent => put_null(out),
            Slot::Boolean(value) => put_bool(out, value),
            Slot::Ubyte(value) => put_ubyte(out, value),
            Slot::Ushort(value) => put_ushort(out, value),
            Slot::Uint(value) => put_uint(out, value),
            Slot::Ulong(value) => put_ulong(out, value),
            Slot::Binary(octets) => put_binary(out, octets),
            Slot::Str(text) => put_str(out, text),
            Slot::Symbol(symbol) => put_symbol(out, symbol),
            Slot::Written(octets) => out.extend_from_slice(octets),
        }
    }
}

/// Room for the fields of all but few performatives, so that none of these has to move while it is written, in octets.
const USUAL_OCTETS: usize = 96;

/// Appends a list that this code describes, with these fields up to the last that is there.
///
/// # Errors
///
/// Where memory is refused: then nothing was appended.
pub fn put_fields(out: &mut Vec<u8>, code: u8, slots: &[Slot<'_>]) -> Result<(), AllocError>
    requires fields { AllCanStand levels_in_described (slots_view slots.now) }
    requires few { AreShort (slots_view slots.now) }
    requires count { length slots.now < 256 }
    ensures appended { Puts out.old.items out.new.items result (fields_octets code (slots_view slots.now)) }
{
    let mut fields = Vec::with_capacity(*out.allocator(), USUAL_OCTETS)?;
    let mut count = 0;
    let mut len = 0;
    for (i, slot) in slots.iter().enumerate() {
        slot.put(&mut fields)?;
        if slot.is_there() {
            count = i + 1;
            len = fields.len();
        }
    }
    fields.truncate(len);
    put_described_list(out, code, count as u32, &fields)
}
