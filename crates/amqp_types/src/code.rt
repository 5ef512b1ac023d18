//! The format codes: what each first octet of a value says of the octets behind it.

ghost use Rattle.std.specs.Prelude.{◌≡◌};
ghost use Rattle.amqp_types.specs.Codes.{code_of, scalar_of_code, width_of, opaque_width, size_len, is_described, takes_any};
ghost use Rattle.amqp_types.specs.Reading.{is_odd};

/// A type whose data has the same length in each value: part 1, 1.2.1.
#[derive(Clone, Copy, Debug, PartialEq, Eq)]
pub enum Scalar {
    Null,
    True,
    False,
    /// A boolean with an octet of its own.
    Boolean,
    Ubyte,
    Ushort,
    UintZero,
    UintOctet,
    Uint,
    UlongZero,
    UlongOctet,
    Ulong,
    Byte,
    Short,
    IntOctet,
    Int,
    LongOctet,
    Long,
    Opaque(Opaque),
}

/// A type of fixed width whose data is kept as it is: part 1, 1.6.11 to 1.6.18.
#[derive(Clone, Copy, Debug, PartialEq, Eq)]
pub enum Opaque {
    Float,
    Double,
    Decimal32,
    Decimal64,
    Decimal128,
    Char,
    Timestamp,
    Uuid,
}

/// A type whose data is octets behind their number.
#[derive(Clone, Copy, Debug, PartialEq, Eq)]
pub enum Text {
    /// Any octets.
    Binary,
    /// UTF-8.
    Str,
    /// ASCII.
    Symbol,
}

/// A type whose data is other values, one after the other.
#[derive(Clone, Copy, Debug, PartialEq, Eq)]
pub enum Kind {
    List,
    /// Keys and values in turn.
    Map,
}

/// How many octets a size has, and the count behind it.
#[derive(Clone, Copy, Debug, PartialEq, Eq)]
pub enum SizeWidth {
    One,
    Four,
}

/// What the first octet of a value says of the octets behind it.
#[derive(Clone, Copy, Debug, PartialEq, Eq)]
pub enum Code {
    Fixed(Scalar),
    Sized(Text, SizeWidth),
    /// A list without items, which has no data.
    EmptyList,
    Nested(Kind, SizeWidth),
    Array(SizeWidth),
    /// A descriptor and a value.
    Described,
}

impl Code {
    /// The code of an octet, if it is one.
    #[tactic(auto, unfolding(crate::specs::Codes::code_of))]
    #[inline(always)]
    pub(crate) fn of(octet: u8) -> Option<Code>
        ensures { result ≡ code_of octet }
    {
        let code = match octet {
            0x00 => Code::Described,
            0x45 => Code::EmptyList,
            0xA0 => Code::Sized(Text::Binary, SizeWidth::One),
            0xA1 => Code::Sized(Text::Str, SizeWidth::One),
            0xA3 => Code::Sized(Text::Symbol, SizeWidth::One),
            0xB0 => Code::Sized(Text::Binary, SizeWidth::Four),
            0xB1 => Code::Sized(Text::Str, SizeWidth::Four),
            0xB3 => Code::Sized(Text::Symbol, SizeWidth::Four),
            0xC0 => Code::Nested(Kind::List, SizeWidth::One),
            0xC1 => Code::Nested(Kind::Map, SizeWidth::One),
            0xD0 => Code::Nested(Kind::List, SizeWidth::Four),
            0xD1 => Code::Nested(Kind::Map, SizeWidth::Four),
            0xE0 => Code::Array(SizeWidth::One),
            0xF0 => Code::Array(SizeWidth::Four),
            _ => Code::Fixed(Scalar::of(octet)?),
        };
        Some(code)
    }

    /// Whether a descriptor follows.
    pub(crate) fn is_described(self) -> bool
        ensures { result ≡ is_described self }
    {
        matches!(self, Code::Described)
    }
}

impl Opaque {
    /// How many octets of data the type has.
    #[inline(always)]
    pub(crate) fn width(self) -> usize
        ensures { result ≡ opaque_width self }
    {
        match self {
            Opaque::Float | Opaque::Decimal32 | Opaque::Char => 4,
            Opaque::Double | Opaque::Decimal64 | Opaque::Timestamp => 8,
            Opaque::Decimal128 | Opaque::Uuid => 16,
        }
    }
}

impl Kind {
    /// Whether so many items leave a key without a value.
    pub(crate) fn is_odd(self, count: u32) -> bool
        ensures { result ≡ is_odd self count }
    {
        match self {
            Kind::List => false,
            Kind::Map => count % 2 == 1,
        }
    }
}

impl Scalar {
    /// The type of fixed width that an octet is the code of, if it is one.
    #[tactic(auto, unfolding(crate::specs::Codes::scalar_of_code))]
    #[inline(always)]
    fn of(octet: u8) -> Option<Scalar>
        ensures { result ≡ scalar_of_code octet }
    {
        let scalar = match octet {
            0x40 => Scalar::Null,
            0x41 => Scalar::True,
            0x42 => Scalar::False,
            0x43 => Scalar::UintZero,
            0x44 => Scalar::UlongZero,
            0x50 => Scalar::Ubyte,
            0x51 => Scalar::Byte,
            0x52 => Scalar::UintOctet,
            0x53 => Scalar::UlongOctet,
            0x54 => Scalar::IntOctet,
            0x55 => Scalar::LongOctet,
            0x56 => Scalar::Boolean,
            0x60 => Scalar::Ushort,
            0x61 => Scalar::Short,
            0x70 => Scalar::Uint,
            0x71 => Scalar::Int,
            0x72 => Scalar::Opaque(Opaque::Float),
            0x73 => Scalar::Opaque(Opaque::Char),
            0x74 => Scalar::Opaque(Opaque::Decimal32),
            0x80 => Scalar::Ulong,
            0x81 => Scalar::Long,
            0x82 => Scalar::Opaque(Opaque::Double),
            0x83 => Scalar::Opaque(Opaque::Timestamp),
            0x84 => Scalar::Opaque(Opaque::Decimal64),
            0x94 => Scalar::Opaque(Opaque::Decimal128),
            0x98 => Scalar::Opaque(Opaque::Uuid),
            _ => return None,
        };
        Some(scalar)
    }

    /// Whether any octets may be the data.
    #[inline(always)]
    pub(crate) fn takes_any(self) -> bool
        ensures { result ≡ takes_any self }
    {
        !matches!(self, Scalar::Boolean)
    }

    /// How many octets of data the type has.
    #[inline(always)]
    pub(crate) fn width(self) -> usize
        ensures { result ≡ width_of self }
    {
        match self {
            Scalar::Null | Scalar::True | Scalar::False => 0,
            Scalar::UintZero | Scalar::UlongZero => 0,
            Scalar::Boolean | Scalar::Ubyte | Scalar::UintOctet | Scalar::UlongOctet => 1,
            Scalar::Byte | Scalar::IntOctet | Scalar::LongOctet => 1,
            Scalar::Ushort | Scalar::Short => 2,
            Scalar::Uint | Scalar::Int => 4,
            Scalar::Ulong | Scalar::Long => 8,
            Scalar::Opaque(opaque) => opaque.width(),
        }
    }
}

impl SizeWidth {
    /// The number of octets.
    pub(crate) fn octets(self) -> usize
        ensures { result ≡ size_len self }
    {
        match self {
            SizeWidth::One => 1,
            SizeWidth::Four => 4,
        }
    }
}
