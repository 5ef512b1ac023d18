//! The items of a list as fields that are taken and checked in one go, so that each is read once. It tells only whether
//! all fit: where they do not, `fields` goes over them again to name the fault.

use crate::attach::{ReceiverSettleMode, Role, SenderSettleMode};
use crate::descriptor::{Descriptor, described_list};
use crate::fields::Fields;
use crate::state::State;
use crate::table::{ANY, BINARY, Field, MANDATORY_STR, RECEIVER_MODE, SENDER_MODE};
use crate::terminus::{Target, Terminus};
use amqp_types::{Items, Simple, Value};

/// The fields of a described list that are left, in order, and whether those that were taken fit their places.
/// Behind the last one all others count as null.
#[derive(Drop)]
pub(crate) struct CheckedFields<'a> {
    items: Items<'a>,
    fit: bool,
}

impl<'a> CheckedFields<'a> {
    ghost use Rattle.std.specs.Prelude.{◌≡◌, [], true, false, ◌&&◌, unwrap_or, option_map};
    ghost use Rattle.std.specs.Option.{option_copied};
    ghost use Rattle.amqp_types.specs.Simple.{simple_in};
    ghost use Rattle.amqp_types.specs.Typed.{boolean_in, ushort_in, uint_in, ulong_in, binary_in, str_in};
    ghost use Rattle.amqp_perf.specs.declared.table.FieldType.TheVariants as types;
    ghost use Rattle.amqp_perf.specs.FieldPlaces.{first, others};
    ghost use Rattle.amqp_perf.specs.FieldsLeft.{fields_left};
    ghost use Rattle.amqp_perf.specs.Fields.{fits_field};
    ghost use Rattle.amqp_perf.specs.Tables.{mandatory, optional};
    ghost use Rattle.amqp_perf.specs.Nested.{role_of, sender_mode_in, receiver_mode_in, state_in, source_in, target_in, condition_in};
    ghost use Rattle.amqp_perf.specs.NestedViews.{state_view, terminus_view, target_view};
    ghost use Rattle.amqp_perf.specs.View.{seen_or_missing};

    /// The items of a list as its fields, of which none was taken.
    pub(crate) fn new(items: Items<'a>) -> CheckedFields<'a>
        ensures items { fields_left result.items ≡ fields_left items.entry }
        ensures fit { result.fit ≡ true }
    {
        CheckedFields { items, fit: true }
    }

    /// Whether each field that was taken fits its place.
    pub(crate) fn fit(&self) -> bool
        ensures { result ≡ self.now.fit }
    {
        self.fit
    }

    /// The next field's value; none where it is missing.
    #[inline(always)]
    fn take(&mut self, field: Field) -> Option<Value<'a>>
        ensures value { seen_or_missing result ≡ first (fields_left self.old.items) }
        ensures left { fields_left self.new.items ≡ others (fields_left self.old.items) }
        ensures fit { self.new.fit ≡ (self.old.fit && fits_field field (first (fields_left self.old.items))) }
    {
        let value = self.items.next();
        if !field.fits(value) {
            self.fit = false;
        }
        value
    }

    /// Takes the next field and gives what it says, where it is null, a boolean or a number without a sign: null where
    /// it is missing.
    #[inline(always)]
    fn simple(&mut self) -> Option<Simple>
        ensures value { result ≡ simple_in (first (fields_left self.old.items)).part }
        ensures left { fields_left self.new.items ≡ others (fields_left self.old.items) }
        ensures fit { self.new.fit ≡ self.old.fit }
    {
        if self.items.len() == 0 {
            return Some(Simple::Null);
        }
        let simple = self.items.next_simple();
        if simple.is_none() {
            self.skip();
        }
        simple
    }

    /// Takes the next field, whatever it is. The fields that a performative is made of are hardly ever taken so.
    #[inline(never)]
    fn skip(&mut self)
        ensures left { fields_left self.new.items ≡ others (fields_left self.old.items) }
        ensures fit { self.new.fit ≡ self.old.fit }
    {
        self.items.next();
    }

    /// Takes the next field, which doesn't fit its place.
    #[inline(never)]
    fn skip_wrong(&mut self)
        ensures left { fields_left self.new.items ≡ others (fields_left self.old.items) }
        ensures fit { self.new.fit ≡ false }
    {
        self.skip();
        self.fit = false;
    }

    /// Takes a field that may hold anything.
    #[inline(never)]
    pub(crate) fn pass_over(&mut self)
        ensures left { fields_left self.new.items ≡ others (fields_left self.old.items) }
        ensures fit { self.new.fit ≡ (self.old.fit && fits_field (optional types.Any) (first (fields_left self.old.items))) }
    {
        if self.items.len() != 0
            && self.items.next_bool().is_none()
            && self.items.next_uint().is_none()
        {
            self.skip();
        }
    }

    #[inline(never)]
    pub(crate) fn boolean(&mut self) -> Option<bool>
        ensures value { result ≡ boolean_in (first (fields_left self.old.items)).part }
        ensures left { fields_left self.new.items ≡ others (fields_left self.old.items) }
        ensures fit { self.new.fit ≡ (self.old.fit && fits_field (optional types.Boolean) (first (fields_left self.old.items))) }
    {
        if self.items.len() == 0 {
            return None;
        }
        match self.items.next_bool() {
            Some(value) => value,
            None => {
                self.skip_wrong();
                None
            }
        }
    }

    #[inline(never)]
    pub(crate) fn uint(&mut self) -> Option<u32>
        ensures value { result ≡ uint_in (first (fields_left self.old.items)).part }
        ensures left { fields_left self.new.items ≡ others (fields_left self.old.items) }
        ensures fit { self.new.fit ≡ (self.old.fit && fits_field (optional types.Uint) (first (fields_left self.old.items))) }
    {
        if self.items.len() == 0 {
            return None;
        }
        match self.items.next_uint() {
            Some(number) => number,
            None => {
                self.skip_wrong();
                None
            }
        }
    }

    #[inline(never)]
    pub(crate) fn ushort(&mut self) -> Option<u16>
        ensures value { result ≡ ushort_in (first (fields_left self.old.items)).part }
        ensures left { fields_left self.new.items ≡ others (fields_left self.old.items) }
        ensures fit { self.new.fit ≡ (self.old.fit && fits_field (optional types.Ushort) (first (fields_left self.old.items))) }
    {
        match self.simple() {
            Some(Simple::Ushort(number)) => Some(number),
            Some(Simple::Null) => None,
            _ => {
                self.fit = false;
                None
            }
        }
    }

    /// An ushort of a field that may hold anything.
    #[inline(never)]
    pub(crate) fn any_ushort(&mut self) -> Option<u16>
        ensures value { result ≡ ushort_in (first (fields_left self.old.items)).part }
        ensures left { fields_left self.new.items ≡ others (fields_left self.old.items) }
        ensures fit { self.new.fit ≡ (self.old.fit && fits_field (optional types.Any) (first (fields_left self.old.items))) }
    {
        match self.simple() {
            Some(Simple::Ushort(number)) => Some(number),
            _ => None,
        }
    }

    /// An uint of a field that may hold anything.
    #[inline(never)]
    pub(crate) fn any_uint(&mut self) -> Option<u32>
        ensures value { result ≡ uint_in (first (fields_left self.old.items)).part }
        ensures left { fields_left self.new.items ≡ others (fields_left self.old.items) }
        ensures fit { self.new.fit ≡ (self.old.fit && fits_field (optional types.Any) (first (fields_left self.old.items))) }
    {
        match self.simple() {
            Some(Simple::Uint(number)) => Some(number),
            _ => None,
        }
    }

    /// An ulong of a field that may hold anything.
    #[inline(never)]
    pub(crate) fn any_ulong(&mut self) -> Option<u64>
        ensures value { result ≡ ulong_in (first (fields_left self.old.items)).part }
        ensures left { fields_left self.new.items ≡ others (fields_left self.old.items) }
        ensures fit { self.new.fit ≡ (self.old.fit && fits_field (optional types.Any) (first (fields_left self.old.items))) }
    {
        match self.simple() {
            Some(Simple::Ulong(number)) => Some(number),
            _ => None,
        }
    }

    pub(crate) fn binary(&mut self) -> Option<&'a [u8]>
        ensures value { option_copied result ≡ binary_in (first (fields_left self.old.items)).part }
        ensures left { fields_left self.new.items ≡ others (fields_left self.old.items) }
        ensures fit { self.new.fit ≡ (self.old.fit && fits_field (optional types.Binary) (first (fields_left self.old.items))) }
    {
        self.take(BINARY)?.as_binary()
    }

    /// A mandatory uint: 0 where the field is none.
    #[inline(never)]
    pub(crate) fn number(&mut self) -> u32
        ensures value { result ≡ unwrap_or (uint_in (first (fields_left self.old.items)).part) 0 }
        ensures left { fields_left self.new.items ≡ others (fields_left self.old.items) }
        ensures fit { self.new.fit ≡ (self.old.fit && fits_field (mandatory types.Uint) (first (fields_left self.old.items))) }
    {
        match self.items.next_uint() {
            Some(Some(number)) => number,
            Some(None) => {
                self.fit = false;
                0
            }
            None => {
                self.skip_wrong();
                0
            }
        }
    }

    /// A mandatory text: empty where the field is none.
    pub(crate) fn mandatory_text(&mut self) -> &'a str
        ensures value { result.now ≡ unwrap_or (str_in (first (fields_left self.old.items)).part) [] }
        ensures left { fields_left self.new.items ≡ others (fields_left self.old.items) }
        ensures fit { self.new.fit ≡ (self.old.fit && fits_field (mandatory types.Str) (first (fields_left self.old.items))) }
    {
        match self.take(MANDATORY_STR) {
            Some(value) => value.as_str().unwrap_or(""),
            None => "",
        }
    }

    /// A mandatory role: that of a sender where the field is none.
    #[inline(never)]
    pub(crate) fn role(&mut self) -> Role
        ensures value { result ≡ role_of (unwrap_or (boolean_in (first (fields_left self.old.items)).part) false) }
        ensures left { fields_left self.new.items ≡ others (fields_left self.old.items) }
        ensures fit { self.new.fit ≡ (self.old.fit && fits_field (mandatory types.Boolean) (first (fields_left self.old.items))) }
    {
        match self.items.next_bool() {
            Some(Some(is_receiver)) => Role::of(is_receiver),
            Some(None) => {
                self.fit = false;
                Role::Sender
            }
            None => {
                self.skip_wrong();
                Role::Sender
            }
        }
    }

    pub(crate) fn sender_mode(&mut self) -> Option<SenderSettleMode>
        ensures value { result ≡ sender_mode_in (first (fields_left self.old.items)).part }
        ensures left { fields_left self.new.items ≡ others (fields_left self.old.items) }
        ensures fit { self.new.fit ≡ (self.old.fit && fits_field (optional types.SenderMode) (first (fields_left self.old.items))) }
    {
        SenderSettleMode::of(self.take(SENDER_MODE)?.as_ubyte()?)
    }

    pub(crate) fn receiver_mode(&mut self) -> Option<ReceiverSettleMode>
        ensures value { result ≡ receiver_mode_in (first (fields_left self.old.items)).part }
        ensures left { fields_left self.new.items ≡ others (fields_left self.old.items) }
        ensures fit { self.new.fit ≡ (self.old.fit && fits_field (optional types.ReceiverMode) (first (fields_left self.old.items))) }
    {
        ReceiverSettleMode::of(self.take(RECEIVER_MODE)?.as_ubyte()?)
    }

    pub(crate) fn state(&mut self) -> Option<State<'a>>
        ensures value { option_map state_view result ≡ state_in (first (fields_left self.old.items)) }
        ensures left { fields_left self.new.items ≡ others (fields_left self.old.items) }
        ensures fit { self.new.fit ≡ (self.old.fit && fits_field (optional types.State) (first (fields_left self.old.items))) }
    {
        let value = self.take(ANY)?;
        let state = State::of_value(value);
        if state.is_none() && !value.is_null() {
            self.fit = false;
        }
        state
    }

    pub(crate) fn source(&mut self) -> Option<Terminus<'a>>
        ensures value { option_map terminus_view result ≡ source_in (first (fields_left self.old.items)) }
        ensures left { fields_left self.new.items ≡ others (fields_left self.old.items) }
        ensures fit { self.new.fit ≡ (self.old.fit && fits_field (optional types.Source) (first (fields_left self.old.items))) }
    {
        let value = self.take(ANY)?;
        let source = Terminus::source(value);
        if source.is_none() && !value.is_null() {
            self.fit = false;
        }
        source
    }

    pub(crate) fn target(&mut self) -> Option<Target<'a>>
        ensures value { option_map target_view result ≡ target_in (first (fields_left self.old.items)) }
        ensures left { fields_left self.new.items ≡ others (fields_left self.old.items) }
        ensures fit { self.new.fit ≡ (self.old.fit && fits_field (optional types.Target) (first (fields_left self.old.items))) }
    {
        let value = self.take(ANY)?;
        let target = Target::of_value(value);
        if target.is_none() && !value.is_null() {
            self.fit = false;
        }
        target
    }

    /// The condition of an error, where the field is one; it may hold anything.
    pub(crate) fn condition(&mut self) -> Option<&'a str>
        ensures value { option_copied result ≡ condition_in (first (fields_left self.old.items)) }
        ensures left { fields_left self.new.items ≡ others (fields_left self.old.items) }
        ensures fit { self.new.fit ≡ (self.old.fit && fits_field (optional types.Any) (first (fields_left self.old.items))) }
    {
        match described_list(self.take(ANY)?) {
            Some((Descriptor::Error, items)) => Fields::new(items).next()?.as_symbol(),
            _ => None,
        }
    }
}
