//! Values that are written.

ghost use Rattle.std.specs.Prelude.{◌≡◌, IfOk, length};
ghost use Rattle.amqp_types.specs.Grammar.{IsValue, AreItems};
ghost use Rattle.amqp_types.specs.Writing.{levels_in_list, levels_in_described};

use crate::words::{NoAnswer, between_commas, hexed, lent, number, octets, octets_of_each};
use amqp_types::{
    put_binary, put_bool, put_described_list, put_list, put_null, put_parts, put_str, put_symbol,
    put_ubyte, put_uint, put_ulong, put_ushort,
};
use kit_cases::{parted, word};
use std::alloc::{AllocError, Global};

/// The most octets of a text.
const LONGEST: usize = 1000;

/// The octets of values, which are written one behind the other; a comma stands between them.
pub(crate) fn answer(alloc: Global, words: &[&str]) -> Result<String, NoAnswer> {
    let mut out = Vec::new(alloc);
    for value in &between_commas(alloc, words)? {
        put(&mut out, *value)?;
    }
    Ok(hexed(alloc, &out)?)
}

fn put(out: &mut Vec<u8>, value: &[&str]) -> Result<(), NoAnswer> {
    let (kind, rest) = parted(value);
    let first = word(rest, 0);
    match kind {
        "null" => put_null(out)?,
        "parts" => put_pieces(out, rest)?,
        "list" => put_truths(out, None, number(first)?)?,
        "described" => put_truths(out, Some(number(first)?), number(word(rest, 1))?)?,
        _ => put_one(out, kind, first)?,
    }
    Ok(())
}

/// A value of this type.
fn put_one(out: &mut Vec<u8>, kind: &str, word: &str) -> Result<(), NoAnswer> {
    match kind {
        "boolean" => put_bool(out, number(word)?)?,
        "ubyte" => put_ubyte(out, number(word)?)?,
        "ushort" => put_ushort(out, number(word)?)?,
        "uint" => put_uint(out, number(word)?)?,
        "ulong" => put_ulong(out, number(word)?)?,
        "binary" => put_octets(out, word)?,
        _ => put_text(out, kind, word)?,
    }
    Ok(())
}

fn put_octets(out: &mut Vec<u8>, word: &str) -> Result<(), NoAnswer> {
    let octets = octets(*out.allocator(), word)?;
    if octets.len() > LONGEST {
        return Err(NoAnswer::NoCase);
    }
    put_binary(out, &octets)?;
    Ok(())
}

fn put_text(out: &mut Vec<u8>, kind: &str, word: &str) -> Result<(), NoAnswer> {
    if word.len() > LONGEST {
        return Err(NoAnswer::NoCase);
    }
    match kind {
        "string" => put_str(out, word)?,
        "symbol" if word.is_ascii() => put_symbol(out, word)?,
        _ => return Err(NoAnswer::NoCase),
    }
    Ok(())
}

/// Parts of octets, all at once.
fn put_pieces(out: &mut Vec<u8>, words: &[&str]) -> Result<(), NoAnswer> {
    let alloc = *out.allocator();
    let parts = octets_of_each(alloc, words)?;
    put_parts(out, &lent(alloc, &parts)?)?;
    Ok(())
}

/// A list of so many times true, described by a code or by nothing.
fn put_truths(out: &mut Vec<u8>, code: Option<u8>, count: u8) -> Result<(), AllocError> {
    let items = truths(*out.allocator(), count)?;
    match code {
        Some(code) => put_described_list(out, code, u32::from(count), items.as_slice()),
        None => put_list(out, u32::from(count), items.as_slice()),
    }
}

/// So many times true, each of one octet.
fn truths(alloc: Global, count: u8) -> Result<Vec<u8>, AllocError>
    ensures items { IfOk result (λ octets. AreItems (IsValue levels_in_list) count octets.items) }
    ensures fields { IfOk result (λ octets. AreItems (IsValue levels_in_described) count octets.items) }
    ensures few { IfOk result (λ octets. length octets.items ≡ count) }
{
    let mut octets = Vec::new(alloc);
    for _ in 0..count {
        put_bool(&mut octets, true)?;
    }
    Ok(octets)
}
