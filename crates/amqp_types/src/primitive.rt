//! The data of values that hold no others, and sizes and counts.
//!
//! A reader is given the octets from its place to the end of the input or of the container that it
//! reads in, and `at`, the offset of the value that they belong to; it answers what it read and the
//! octets behind it.

ghost use Rattle.std.specs.Prelude.{◌≡◌, ◌≤◌, length};
ghost use Rattle.byteorder.specs.Endian.{big_number};
ghost use Rattle.amqp_types.specs.Codes.{size_len, width_of};
ghost use Rattle.flow_counts.specs.Words.{Gives};
ghost use Rattle.amqp_types.specs.Reading.{octets_at, sized_at, fixed_at, text_at, counted_at, scalar_of};
ghost use Rattle.amqp_types.specs.View.{part_of, Says, IsTextOf};

use crate::code::{Scalar, SizeWidth, Text};
use crate::fault::{ValueFault, ValueFaultKind};
use crate::value::Content;
use byteorder::{BigEndian, ByteOrder};

/// What was read, and the octets behind it.
pub(crate) type Read<'a, T> = Result<(T, &'a [u8]), ValueFault>;

/// The next octets, so many of them.
#[tactic(auto, unfolding(crate::specs::Reading::octets_at))]
#[inline(always)]
fn read_octets(count: usize, at: usize, bytes: &[u8]) -> Read<'_, &[u8]>
    ensures { Gives (λ x. (x.0.now, x.1.now)) result (octets_at count at bytes.now) }
{
    if bytes.len() < count {
        return Err(ValueFaultKind::Short.of(at));
    }
    Ok(bytes.split_at(count))
}

/// The number in a size or a count.
#[inline(always)]
fn size_in(width: SizeWidth, octets: &[u8]) -> u32
    requires { size_len width ≤ length octets.now }
    ensures { result ≡ big_number (size_len width) octets.now }
{
    match width {
        SizeWidth::One => u32::from(octets[0]),
        SizeWidth::Four => BigEndian::read_u32(octets),
    }
}

/// A size, and then that many octets.
#[tactic(auto, unfolding(crate::specs::Reading::sized_at))]
#[inline(always)]
fn read_sized(width: SizeWidth, at: usize, bytes: &[u8]) -> Read<'_, &[u8]>
    ensures { Gives (λ x. (x.0.now, x.1.now)) result (sized_at width at bytes.now) }
{
    let (size, rest) = read_octets(width.octets(), at, bytes)?;
    read_octets(size_in(width, size) as usize, at, rest)
}

/// What the data of a type of fixed width says.
#[tactic(auto, unfolding(crate::specs::Reading::scalar_of))]
#[inline(always)]
fn scalar_in(scalar: Scalar, octets: &[u8]) -> Result<Content<'_>, ValueFaultKind>
    requires { length octets.now ≡ width_of scalar }
    ensures { Says result (scalar_of scalar octets.now) }
{
    let content = match scalar {
        Scalar::Null => Content::Null,
        Scalar::True => Content::Boolean(true),
        Scalar::False => Content::Boolean(false),
        Scalar::Boolean => match octets[0] {
            0 => Content::Boolean(false),
            1 => Content::Boolean(true),
            _ => return Err(ValueFaultKind::BadBoolean),
        },
        Scalar::Ubyte => Content::Ubyte(octets[0]),
        Scalar::Ushort => Content::Ushort(BigEndian::read_u16(octets)),
        Scalar::UintZero => Content::Uint(0),
        Scalar::UintOctet => Content::Uint(u32::from(octets[0])),
        Scalar::Uint => Content::Uint(BigEndian::read_u32(octets)),
        Scalar::UlongZero => Content::Ulong(0),
        Scalar::UlongOctet => Content::Ulong(u64::from(octets[0])),
        Scalar::Ulong => Content::Ulong(BigEndian::read_u64(octets)),
        Scalar::Byte => Content::Byte(octets[0].cast_signed()),
        Scalar::Short => Content::Short(BigEndian::read_i16(octets)),
        Scalar::IntOctet => Content::Int(i32::from(octets[0].cast_signed())),
        Scalar::Int => Content::Int(BigEndian::read_i32(octets)),
        Scalar::LongOctet => Content::Long(i64::from(octets[0].cast_signed())),
        Scalar::Long => Content::Long(BigEndian::read_i64(octets)),
        Scalar::Opaque(opaque) => Content::Opaque(opaque, octets),
    };
    Ok(content)
}

/// The data of a type of fixed width.
#[tactic(auto, unfolding(crate::specs::Reading::fixed_at))]
#[inline(always)]
pub(crate) fn read_fixed(scalar: Scalar, at: usize, bytes: &[u8]) -> Read<'_, Content<'_>>
    ensures { Gives (λ x. (part_of x.0, x.1.now)) result (fixed_at scalar at bytes.now) }
{
    let (octets, rest) = read_octets(scalar.width(), at, bytes)?;
    match scalar_in(scalar, octets) {
        Ok(content) => Ok((content, rest)),
        Err(kind) => Err(kind.of(at)),
    }
}

/// The octets as a binary, a string or a symbol, if they may stand in one.
#[tactic(auto, unfolding(crate::specs::Reading::is_text))]
#[inline(always)]
fn text_in(text: Text, octets: &[u8]) -> Option<Content<'_>>
    ensures { IsTextOf result text octets.now }
{
    match text {
        Text::Binary => Some(Content::Binary(octets)),
        Text::Str => match str::from_utf8(octets) {
            Ok(text) => Some(Content::Str(text)),
            Err(_) => None,
        },
        Text::Symbol if octets.is_ascii() => match str::from_utf8(octets) {
            Ok(text) => Some(Content::Symbol(text)),
            Err(_) => None,
        },
        Text::Symbol => None,
    }
}

/// The data of a binary, a string or a symbol.
#[tactic(auto, unfolding(crate::specs::Reading::text_at))]
#[inline(always)]
pub(crate) fn read_text(
    text: Text,
    width: SizeWidth,
    at: usize,
    bytes: &[u8],
) -> Read<'_, Content<'_>>
    ensures { Gives (λ x. (part_of x.0, x.1.now)) result (text_at text width at bytes.now) }
{
    let (octets, rest) = read_sized(width, at, bytes)?;
    match text_in(text, octets) {
        Some(content) => Ok((content, rest)),
        None => Err(ValueFaultKind::BadText.of(at)),
    }
}

/// How many items there are, and the octets in which they lie.
#[tactic(auto, unfolding(crate::specs::Reading::counted_at))]
#[inline(always)]
pub(crate) fn read_counted(width: SizeWidth, at: usize, bytes: &[u8]) -> Read<'_, (u32, &[u8])>
    ensures { Gives (λ x. ((x.0.0, x.0.1.now), x.1.now)) result (counted_at width at bytes.now) }
{
    let (whole, rest) = read_sized(width, at, bytes)?;
    if whole.len() < width.octets() {
        return Err(ValueFaultKind::BadSize.of(at));
    }
    let count = size_in(width, whole);
    if whole.len() < count as usize {
        return Err(ValueFaultKind::BadSize.of(at));
    }
    Ok(((count, &whole[width.octets()..]), rest))
}
