//! A value that was read, and what it says.

use crate::code::{Kind, Opaque};
use crate::described::{Described, Tagged};
use crate::fault::ValueFault;
use crate::known::{number_of_list, whole, whole_element};
use crate::reading::read_value;
use crate::sequence::{Array, Items, Sequence};
use flow_counts::MAX_DEPTH;

/// A value that was read from octets, on which it stays.
#[derive(Clone, Copy, Debug)]
pub struct Value<'a> {
    pub(crate) raw: &'a [u8],
    pub(crate) content: Content<'a>,
}

/// What a value says.
#[derive(Clone, Copy, Debug)]
pub(crate) enum Content<'a> {
    Null,
    Boolean(bool),
    Ubyte(u8),
    Ushort(u16),
    Uint(u32),
    Ulong(u64),
    Byte(i8),
    Short(i16),
    Int(i32),
    Long(i64),
    Opaque(Opaque, &'a [u8]),
    Binary(&'a [u8]),
    Str(&'a str),
    Symbol(&'a str),
    Nested(Kind, Sequence<'a>),
    Array(Array<'a>),
    Described(Described<'a>),
    Tagged(Tagged<'a>),
}

impl<'a> Value<'a> {
    ghost use Rattle.std.specs.Prelude.{◌≡◌, option_map, ◌<◌, ◌^◌, List, ℕ, length, IfOk, IfSome, Ok};
    ghost use Rattle.std.specs.Option.{option_copied};
    ghost use Rattle.amqp_types.specs.Part.{Seen};
    ghost use Rattle.flow_counts.specs.Words.{Gives};
    ghost use Rattle.amqp_types.specs.Reading.{seen_at};
    ghost use Rattle.amqp_types.specs.Grammar.{IsFront, IsValueOf, IsDescribedOf, AreItemsOf};
    ghost use Rattle.amqp_types.specs.Items.{items_of, descriptor_of, described_of, descriptor_octets};
    ghost use Rattle.amqp_types.specs.Listed.{IsNumbered, listed_in};
    ghost use Rattle.amqp_types.specs.Typed.{says_null, boolean_in, ubyte_in, ushort_in, uint_in, ulong_in, byte_in, short_in, int_in, long_in, opaque_in, binary_in, str_in, symbol_in, list_in, map_in, array_in};
    ghost use Rattle.amqp_types.specs.View.{view, view_of, items_left};

    /// Reads the value at the front of the octets, and gives the octets behind it too.
    ///
    /// # Errors
    ///
    /// Where no front of the octets is a value: the first fault from left to right.
    pub fn read(bytes: &'a [u8]) -> Result<(Value<'a>, &'a [u8]), ValueFault>
        // What is read is a value at the front of the input.
        ensures found { IfOk result (λ x. IsFront MAX_DEPTH bytes.now (view x.0) x.1.now) }
        // A value at the front of the input is read, whatever is behind it.
        ensures only { (value : Seen) (rest : List ℕ) → IsFront MAX_DEPTH bytes.now value rest
            → Gives {Y = Seen × List ℕ} (λ x. (view x.0, x.1.now)) result (Ok (value, rest)) }
        // Which fault it is.
        ensures exact { Gives (λ x. (view x.0, x.1.now)) result (seen_at MAX_DEPTH 0 bytes.now) }
    {
        read_value(MAX_DEPTH, 0, bytes)
    }

    /// The octets of the value, its constructor among them. An element of an array has its data
    /// alone.
    pub fn raw(&self) -> &'a [u8]
        ensures { result.now ≡ (view self.now).octets }
    {
        self.raw
    }

    /// Whether the value is null.
    pub fn is_null(&self) -> bool
        ensures { result ≡ says_null (view self.now).part }
    {
        matches!(self.content, Content::Null)
    }

    /// The boolean, if the value is one.
    pub fn as_bool(&self) -> Option<bool>
        ensures { result ≡ boolean_in (view self.now).part }
    {
        match self.content {
            Content::Boolean(value) => Some(value),
            _ => None,
        }
    }

    /// The number, if the value is an ubyte.
    pub fn as_ubyte(&self) -> Option<u8>
        ensures { result ≡ ubyte_in (view self.now).part }
    {
        match self.content {
            Content::Ubyte(value) => Some(value),
            _ => None,
        }
    }

    /// The number, if the value is an ushort.
    pub fn as_ushort(&self) -> Option<u16>
        ensures { result ≡ ushort_in (view self.now).part }
    {
        match self.content {
            Content::Ushort(value) => Some(value),
            _ => None,
        }
    }

    /// The number, if the value is an uint.
    pub fn as_uint(&self) -> Option<u32>
        ensures { result ≡ uint_in (view self.now).part }
    {
        match self.content {
            Content::Uint(value) => Some(value),
            _ => None,
        }
    }

    /// The number, if the value is an ulong.
    pub fn as_ulong(&self) -> Option<u64>
        ensures { result ≡ ulong_in (view self.now).part }
    {
        match self.content {
            Content::Ulong(value) => Some(value),
            _ => None,
        }
    }

    /// The number, if the value is a byte, which has a sign.
    pub fn as_byte(&self) -> Option<i8>
        ensures { result ≡ byte_in (view self.now).part }
    {
        match self.content {
            Content::Byte(value) => Some(value),
            _ => None,
        }
    }

    /// The number, if the value is a short.
    pub fn as_short(&self) -> Option<i16>
        ensures { result ≡ short_in (view self.now).part }
    {
        match self.content {
            Content::Short(value) => Some(value),
            _ => None,
        }
    }

    /// The number, if the value is an int.
    pub fn as_int(&self) -> Option<i32>
        ensures { result ≡ int_in (view self.now).part }
    {
        match self.content {
            Content::Int(value) => Some(value),
            _ => None,
        }
    }

    /// The number, if the value is a long.
    pub fn as_long(&self) -> Option<i64>
        ensures { result ≡ long_in (view self.now).part }
    {
        match self.content {
            Content::Long(value) => Some(value),
            _ => None,
        }
    }

    /// The type and the data, if the value is a float, a double, a decimal, a char, a timestamp or
    /// a uuid. The data is kept as it came, the highest octet first.
    pub fn as_opaque(&self) -> Option<(Opaque, &'a [u8])>
        ensures { option_map (λ x. (x.0, x.1.now)) result ≡ opaque_in (view self.now).part }
    {
        match self.content {
            Content::Opaque(opaque, octets) => Some((opaque, octets)),
            _ => None,
        }
    }

    /// The octets, if the value is a binary.
    pub fn as_binary(&self) -> Option<&'a [u8]>
        ensures { option_copied result ≡ binary_in (view self.now).part }
    {
        match self.content {
            Content::Binary(octets) => Some(octets),
            _ => None,
        }
    }

    /// The text, if the value is a string.
    pub fn as_str(&self) -> Option<&'a str>
        ensures { option_copied result ≡ str_in (view self.now).part }
    {
        match self.content {
            Content::Str(text) => Some(text),
            _ => None,
        }
    }

    /// The text, if the value is a symbol.
    pub fn as_symbol(&self) -> Option<&'a str>
        ensures { option_copied result ≡ symbol_in (view self.now).part }
    {
        match self.content {
            Content::Symbol(text) => Some(text),
            _ => None,
        }
    }

    /// The items, if the value is a list.
    pub fn as_list(&self) -> Option<Items<'a>>
        ensures { option_map items_left result ≡ list_in (view self.now).part }
    {
        match self.content {
            Content::Nested(Kind::List, sequence) => Some(sequence.items()),
            _ => None,
        }
    }

    /// The keys and values in turn, if the value is a map.
    pub fn as_map(&self) -> Option<Items<'a>>
        ensures { option_map items_left result ≡ map_in (view self.now).part }
    {
        match self.content {
            Content::Nested(Kind::Map, sequence) => Some(sequence.items()),
            _ => None,
        }
    }

    /// The elements, if the value is an array.
    pub fn as_array(&self) -> Option<Items<'a>>
        ensures { option_map items_left result ≡ array_in (view self.now).part }
    {
        match self.content {
            Content::Array(array) => Some(array.items()),
            _ => None,
        }
    }

    /// The items, if the value is a list, a map or an array. Another value has none.
    #[tactic(auto, unfolding(crate::specs::Items::items_in))]
    pub fn items(&self) -> Items<'a>
        ensures same { items_left result ≡ items_of (view self.now).part }
        ensures few { length (items_left result) < 2 ^ 32 }
        // They are values, and their octets make up those of the list, the map or the array.
        ensures whole { AreItemsOf (view self.now).part (items_left result) }
    {
        match self.content {
            Content::Nested(_, sequence) => sequence.items(),
            Content::Array(array) => array.items(),
            _ => Sequence::empty().items(),
        }
    }

    /// The descriptor, if the value is a described one.
    #[inline(always)]
    pub fn descriptor(&self) -> Option<Value<'a>>
        ensures same { view_of result ≡ descriptor_of (view self.now).part }
        ensures whole { IsValueOf (descriptor_octets (view self.now).part) (view_of result) }
    {
        match self.content {
            Content::Described(pair) => Some(whole(pair.descriptor)),
            Content::Tagged(element) => Some(whole(element.descriptor)),
            _ => None,
        }
    }

    /// The value that the descriptor describes, if the value is a described one.
    #[inline(always)]
    pub fn described(&self) -> Option<Value<'a>>
        ensures same { view_of result ≡ described_of (view self.now).part }
        ensures whole { IsDescribedOf (view self.now).part (view_of result) }
    {
        match self.content {
            Content::Described(pair) => Some(whole(pair.value)),
            Content::Tagged(element) => Some(whole_element(element.constructor, element.data)),
            _ => None,
        }
    }

    /// The number of the value's descriptor, where that is an ulong of one octet (`53`) and describes a list: a look at the
    /// first octets alone. `None` says nothing of the value, whose `descriptor` is to be asked then.
    #[inline(always)]
    pub fn list_number(&self) -> Option<u64>
        ensures { IfSome result (IsNumbered (view self.now).part) }
    {
        match self.content {
            Content::Described(pair) => number_of_list(pair.descriptor, pair.value),
            _ => None,
        }
    }

    /// The descriptor and the items, if the value is a described list.
    #[inline(always)]
    pub fn as_described_list(&self) -> Option<(Value<'a>, Items<'a>)>
        ensures { option_map (λ x. (view x.0, items_left x.1)) result ≡ listed_in (view self.now).part }
    {
        let descriptor = self.descriptor()?;
        let items = self.described()?.as_list()?;
        Some((descriptor, items))
    }
}
