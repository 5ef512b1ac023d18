//! Writing values, each in its shortest form; a descriptor in the form that fits any code of one octet.
//!
//! A writer appends the octets of its value to those that are there: all of them, or none where
//! memory is refused. It is refused only where the room that was there is too small.

ghost use Rattle.std.specs.Prelude.{◌≡◌, ◌+◌, ◌<◌, ◌≤◌, ◌^◌, ◌∷◌, ◌++◌, [], ℕ, length, IsAscii, OnErr, vec_len, vec_capacity};
ghost use Rattle.std.specs.List.{flat_map};
ghost use Rattle.amqp_types.specs.Part.{Null, Boolean, Ubyte, Ushort, Uint, Ulong, Sized, Nested, Described};
ghost use Rattle.amqp_types.specs.Grammar.{IsValue, IsText, AreItems};
ghost use Rattle.amqp_types.specs.Writing.{Puts, IsWritten, IsReadAs, IsShortest, IsListOf, IsDescribedListOf, levels_in_list, levels_in_described, null_octets, boolean_octets, ubyte_octets, ushort_octets, uint_octets, ulong_octets, text_code, text_octets, list_octets, descriptor_octets, described_list_octets};

use crate::code::{Kind, SizeWidth, Text};
use std::alloc::AllocError;

/// Appends the octets of the parts, first to last.
///
/// # Errors
///
/// Where memory is refused: then nothing was appended.
pub fn put_parts(out: &mut Vec<u8>, parts: &[&[u8]]) -> Result<(), AllocError>
    ensures appended { Puts out.old.items out.new.items result (flat_map (λ part. part.now) parts.now) }
    ensures full { OnErr result (vec_capacity out.old < vec_len out.old + length (flat_map (λ part. part.now) parts.now)) }
{
    let len = out.len();
    for part in parts {
        if let Err(refused) = out.extend_from_slice(part) {
            out.truncate(len);
            return Err(refused);
        }
    }
    Ok(())
}

/// Appends null.
///
/// # Errors
///
/// Where memory is refused: then nothing was appended.
#[tactic(auto, using(crate::proofs::Written::null_written), unfolding(crate::specs::Writing::null_octets))]
pub fn put_null(out: &mut Vec<u8>) -> Result<(), AllocError>
    ensures appended { Puts out.old.items out.new.items result null_octets }
    ensures full { OnErr result (vec_capacity out.old < vec_len out.old + length null_octets) }
    ensures written { IsWritten null_octets Null }
{
    put_parts(out, &[&[0x40]])
}

/// Appends a boolean.
///
/// # Errors
///
/// Where memory is refused: then nothing was appended.
#[tactic(auto, unfolding(crate::specs::Writing::boolean_octets))]
pub fn put_bool(out: &mut Vec<u8>, value: bool) -> Result<(), AllocError>
    ensures appended { Puts out.old.items out.new.items result (boolean_octets value) }
    ensures full { OnErr result (vec_capacity out.old < vec_len out.old + length (boolean_octets value)) }
    ensures written { IsWritten (boolean_octets value) (Boolean value) }
{
    put_parts(out, &[&[if value { 0x41 } else { 0x42 }]])
}

/// Appends an ubyte.
///
/// # Errors
///
/// Where memory is refused: then nothing was appended.
#[tactic(auto, unfolding(crate::specs::Writing::ubyte_octets))]
pub fn put_ubyte(out: &mut Vec<u8>, value: u8) -> Result<(), AllocError>
    ensures appended { Puts out.old.items out.new.items result (ubyte_octets value) }
    ensures full { OnErr result (vec_capacity out.old < vec_len out.old + length (ubyte_octets value)) }
    ensures written { IsWritten (ubyte_octets value) (Ubyte value) }
{
    put_parts(out, &[&[0x50, value]])
}

/// Appends an ushort.
///
/// # Errors
///
/// Where memory is refused: then nothing was appended.
#[tactic(auto, unfolding(crate::specs::Writing::ushort_octets))]
pub fn put_ushort(out: &mut Vec<u8>, value: u16) -> Result<(), AllocError>
    ensures appended { Puts out.old.items out.new.items result (ushort_octets value) }
    ensures full { OnErr result (vec_capacity out.old < vec_len out.old + length (ushort_octets value)) }
    ensures written { IsWritten (ushort_octets value) (Ushort value) }
{
    put_parts(out, &[&[0x60], &value.to_be_bytes()])
}

/// Appends an uint.
///
/// # Errors
///
/// Where memory is refused: then nothing was appended.
#[tactic(auto, unfolding(crate::specs::Writing::uint_octets))]
pub fn put_uint(out: &mut Vec<u8>, value: u32) -> Result<(), AllocError>
    ensures appended { Puts out.old.items out.new.items result (uint_octets value) }
    ensures full { OnErr result (vec_capacity out.old < vec_len out.old + length (uint_octets value)) }
    ensures written { IsWritten (uint_octets value) (Uint value) }
{
    if value == 0 {
        return put_parts(out, &[&[0x43]]);
    }
    match u8::try_from(value) {
        Ok(octet) => put_parts(out, &[&[0x52, octet]]),
        Err(_) => put_parts(out, &[&[0x70], &value.to_be_bytes()]),
    }
}

/// Appends an ulong.
///
/// # Errors
///
/// Where memory is refused: then nothing was appended.
#[tactic(auto, unfolding(crate::specs::Writing::ulong_octets))]
pub fn put_ulong(out: &mut Vec<u8>, value: u64) -> Result<(), AllocError>
    ensures appended { Puts out.old.items out.new.items result (ulong_octets value) }
    ensures full { OnErr result (vec_capacity out.old < vec_len out.old + length (ulong_octets value)) }
    ensures written { IsWritten (ulong_octets value) (Ulong value) }
{
    if value == 0 {
        return put_parts(out, &[&[0x44]]);
    }
    match u8::try_from(value) {
        Ok(octet) => put_parts(out, &[&[0x53, octet]]),
        Err(_) => put_parts(out, &[&[0x80], &value.to_be_bytes()]),
    }
}

/// The format code of a binary, a string or a symbol, whose size has so many octets.
fn code_of_text(text: Text, width: SizeWidth) -> u8
    ensures { result ≡ text_code text width }
{
    match (text, width) {
        (Text::Binary, SizeWidth::One) => 0xA0,
        (Text::Str, SizeWidth::One) => 0xA1,
        (Text::Symbol, SizeWidth::One) => 0xA3,
        (Text::Binary, SizeWidth::Four) => 0xB0,
        (Text::Str, SizeWidth::Four) => 0xB1,
        (Text::Symbol, SizeWidth::Four) => 0xB3,
    }
}

/// Appends a binary, a string or a symbol.
#[tactic(auto, using(crate::proofs::Written::text_written), unfolding(crate::specs::Writing::text_octets))]
fn put_text(out: &mut Vec<u8>, text: Text, octets: &[u8]) -> Result<(), AllocError>
    requires few { length octets.now < 2 ^ 32 }
    requires text { IsText text octets.now }
    ensures appended { Puts out.old.items out.new.items result (text_octets text octets.now) }
    ensures full { OnErr result (vec_capacity out.old < vec_len out.old + length (text_octets text octets.now)) }
    ensures written { IsWritten (text_octets text octets.now) (Sized text octets.now) }
{
    if let Ok(size) = u8::try_from(octets.len()) {
        let code = code_of_text(text, SizeWidth::One);
        return put_parts(out, &[&[code, size], octets]);
    }
    let code = code_of_text(text, SizeWidth::Four);
    let size = octets.len() as u32;
    put_parts(out, &[&[code], &size.to_be_bytes(), octets])
}

/// Appends a binary of at most 4294967295 octets.
///
/// # Errors
///
/// Where memory is refused: then nothing was appended.
pub fn put_binary(out: &mut Vec<u8>, octets: &[u8]) -> Result<(), AllocError>
    requires { length octets.now < 2 ^ 32 }
    ensures appended { Puts out.old.items out.new.items result (text_octets Text.Binary octets.now) }
    ensures full { OnErr result (vec_capacity out.old < vec_len out.old + length (text_octets Text.Binary octets.now)) }
    ensures written { IsWritten (text_octets Text.Binary octets.now) (Sized Text.Binary octets.now) }
{
    put_text(out, Text::Binary, octets)
}

/// Appends a string of at most 4294967295 octets.
///
/// # Errors
///
/// Where memory is refused: then nothing was appended.
pub fn put_str(out: &mut Vec<u8>, text: &str) -> Result<(), AllocError>
    requires { length text.now < 2 ^ 32 }
    ensures appended { Puts out.old.items out.new.items result (text_octets Text.Str text.now) }
    ensures full { OnErr result (vec_capacity out.old < vec_len out.old + length (text_octets Text.Str text.now)) }
    ensures written { IsWritten (text_octets Text.Str text.now) (Sized Text.Str text.now) }
{
    put_text(out, Text::Str, text.as_bytes())
}

/// Appends a symbol, which is ASCII, of at most 4294967295 octets.
///
/// # Errors
///
/// Where memory is refused: then nothing was appended.
pub fn put_symbol(out: &mut Vec<u8>, symbol: &str) -> Result<(), AllocError>
    requires few { length symbol.now < 2 ^ 32 }
    requires ascii { IsAscii symbol.now }
    ensures appended { Puts out.old.items out.new.items result (text_octets Text.Symbol symbol.now) }
    ensures full { OnErr result (vec_capacity out.old < vec_len out.old + length (text_octets Text.Symbol symbol.now)) }
    ensures written { IsWritten (text_octets Text.Symbol symbol.now) (Sized Text.Symbol symbol.now) }
{
    put_text(out, Text::Symbol, symbol.as_bytes())
}

/// Appends the octets in front, and then a list of so many items.
#[tactic(auto, unfolding(crate::specs::Writing::list_octets))]
fn put_list_behind(
    out: &mut Vec<u8>,
    front: &[u8],
    count: u32,
    items: &[u8],
) -> Result<(), AllocError>
    requires { length items.now + 4 < 2 ^ 32 }
    ensures appended { Puts out.old.items out.new.items result (front.now ++ list_octets count items.now) }
    ensures full { OnErr result (vec_capacity out.old < vec_len out.old + length (front.now ++ list_octets count items.now)) }
{
    if count == 0 {
        return put_parts(out, &[front, &[0x45]]);
    }
    if let (Ok(size), Ok(count)) = (u8::try_from(items.len() + 1), u8::try_from(count)) {
        return put_parts(out, &[front, &[0xC0, size, count], items]);
    }
    let size = (items.len() as u32 + 4).to_be_bytes();
    put_parts(out, &[front, &[0xD0], &size, &count.to_be_bytes(), items])
}

/// Appends a list of so many items, which were written one after the other. They are nested at most
/// 31 deep, and have at most 4294967291 octets, so that the size fits its four octets.
///
/// # Errors
///
/// Where memory is refused: then nothing was appended.
#[tactic(auto, using(crate::proofs::Written::list_nested, crate::proofs::Written::list_read, crate::proofs::Shortest::list_shortest))]
pub fn put_list(out: &mut Vec<u8>, count: u32, items: &[u8]) -> Result<(), AllocError>
    requires items { AreItems (IsValue levels_in_list) count items.now }
    requires few { length items.now + 4 < 2 ^ 32 }
    ensures appended { Puts out.old.items out.new.items result (list_octets count items.now) }
    ensures full { OnErr result (vec_capacity out.old < vec_len out.old + length (list_octets count items.now)) }
    ensures nested { IsListOf count items.now }
    ensures again { IsReadAs (list_octets count items.now) (Nested Kind.List count items.now) }
    ensures shortest { IsShortest (list_octets count items.now) (Nested Kind.List count items.now) }
{
    put_list_behind(out, &[], count, items)
}

/// Appends a list that a descriptor describes, an ulong of this code: a performative, a terminus, a
/// state or an error. The list has so many fields, which were written one after the other. They are
/// nested at most 30 deep, and have at most 4294967291 octets.
///
/// # Errors
///
/// Where memory is refused: then nothing was appended.
#[tactic(auto, using(crate::proofs::Written::described_nested, crate::proofs::Written::described_read))]
pub fn put_described_list(
    out: &mut Vec<u8>,
    code: u8,
    count: u32,
    fields: &[u8],
) -> Result<(), AllocError>
    requires fields { AreItems (IsValue levels_in_described) count fields.now }
    requires few { length fields.now + 4 < 2 ^ 32 }
    ensures appended { Puts out.old.items out.new.items result (described_list_octets code count fields.now) }
    ensures full { OnErr result (vec_capacity out.old < vec_len out.old + length (described_list_octets code count fields.now)) }
    ensures nested { IsDescribedListOf code count fields.now }
    ensures again { IsReadAs (described_list_octets code count fields.now) (Described (descriptor_octets code) (list_octets count fields.now)) }
{
    put_list_behind(out, &[0x00, 0x53, code], count, fields)
}
