//! How the octets of a value lie behind its first one.

ghost use Rattle.std.specs.Prelude.{◌≡◌};
ghost use Rattle.amqp_types.specs.Codes.{size_len};
ghost use Rattle.amqp_types.specs.Reading.{is_odd};
ghost use Rattle.amqp_cuts.specs.Layout.{layout_of};

use amqp_types::{Kind, SizeWidth, Text};

/// What is behind the first octet of a value (part 1, 1.2 and 1.6).
#[derive(Clone, Copy, Debug, PartialEq, Eq)]
pub(crate) enum Layout {
    /// So many octets, whatever they are.
    Fixed(usize),
    /// An octet that is 0 or 1.
    Boolean,
    /// An ulong of one octet.
    UlongOctet,
    /// An ulong of eight octets.
    Ulong,
    /// A size, and a binary, a string or a symbol.
    Sized(Text, SizeWidth),
    /// A size, a count, and the items of a list or a map.
    Nested(Kind, SizeWidth),
    /// A size, a count, a constructor and elements.
    Array(SizeWidth),
    /// A descriptor and a value.
    Described,
}

/// How the elements of an array lie, each behind its descriptors (part 1, 1.2.4).
#[derive(Clone, Copy, Debug)]
pub(crate) struct ElementForm {
    /// How many descriptors the constructor has.
    pub(crate) tags: usize,
    /// What is behind them.
    pub(crate) layout: Layout,
}

impl Layout {
    /// By the first octet, if it is one of a value.
    #[tactic(auto, unfolding(amqp_types::specs::Codes::code_of, amqp_types::specs::Codes::scalar_of_code))]
    pub(crate) fn of(octet: u8) -> Option<Layout>
        ensures { result ≡ layout_of octet }
    {
        let layout = match octet {
            0x40 | 0x41 | 0x42 | 0x43 | 0x44 | 0x45 => Layout::Fixed(0),
            0x50 | 0x51 | 0x52 | 0x54 | 0x55 => Layout::Fixed(1),
            0x53 => Layout::UlongOctet,
            0x56 => Layout::Boolean,
            0x60 | 0x61 => Layout::Fixed(2),
            0x70 | 0x71 | 0x72 | 0x73 | 0x74 => Layout::Fixed(4),
            0x80 => Layout::Ulong,
            0x81 | 0x82 | 0x83 | 0x84 => Layout::Fixed(8),
            0x94 | 0x98 => Layout::Fixed(16),
            0xA0 => Layout::Sized(Text::Binary, SizeWidth::One),
            0xA1 => Layout::Sized(Text::Str, SizeWidth::One),
            0xA3 => Layout::Sized(Text::Symbol, SizeWidth::One),
            0xB0 => Layout::Sized(Text::Binary, SizeWidth::Four),
            0xB1 => Layout::Sized(Text::Str, SizeWidth::Four),
            0xB3 => Layout::Sized(Text::Symbol, SizeWidth::Four),
            0xC0 => Layout::Nested(Kind::List, SizeWidth::One),
            0xC1 => Layout::Nested(Kind::Map, SizeWidth::One),
            0xD0 => Layout::Nested(Kind::List, SizeWidth::Four),
            0xD1 => Layout::Nested(Kind::Map, SizeWidth::Four),
            0xE0 => Layout::Array(SizeWidth::One),
            0xF0 => Layout::Array(SizeWidth::Four),
            0x00 => Layout::Described,
            _ => return None,
        };
        Some(layout)
    }
}

/// How many octets a size or a count has.
pub(crate) fn size_octets(width: SizeWidth) -> usize
    ensures { result ≡ size_len width }
{
    match width {
        SizeWidth::One => 1,
        SizeWidth::Four => 4,
    }
}

/// Whether so many items leave a key without a value.
pub(crate) fn is_odd(kind: Kind, count: u32) -> bool
    ensures { result ≡ is_odd kind count }
{
    match kind {
        Kind::List => false,
        Kind::Map => count % 2 == 1,
    }
}
