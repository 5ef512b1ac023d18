//! Values that are read.

use crate::puts;
use crate::words::{Hex, NoAnswer, hex_if, octets, tell, tell_if};
use amqp_types::{Items, Value, ValueFault, read_described_list};
use kit_cases::{behind, parted, word};
use std::alloc::{AllocError, Global};

/// How many octets are printed in hex; of more only their number.
const FEW: usize = 16;

/// How many values are gone over.
const MOST: u32 = 1000;

/// What comes of a case about values.
pub(crate) fn answer(alloc: Global, words: &[&str]) -> Result<String, NoAnswer> {
    let (verb, rest) = parted(words);
    if verb == "put" {
        return puts::answer(alloc, rest);
    }
    let octets = octets(alloc, word(rest, 0))?;
    told_of(alloc, verb, &octets, behind(rest, 1))
}

/// What comes of octets.
///
/// It borrows them: owned here, their drop would be proved on each way out.
fn told_of(alloc: Global, verb: &str, octets: &[u8], steps: &[&str]) -> Result<String, NoAnswer> {
    match verb {
        "read" => Ok(read(alloc, octets)?),
        "why" => why(alloc, octets),
        "take" => take(alloc, octets, steps),
        "listed" => Ok(listed(alloc, octets)?),
        _ => Err(NoAnswer::NoCase),
    }
}

fn fault_told(alloc: Global, fault: ValueFault) -> Result<String, AllocError> {
    format!(in alloc;
        "fault {} {:?} at {}",
        fault.kind.number(),
        fault.kind,
        fault.at
    )
}

/// The value at the front of the octets, with all that it holds, and the octets behind it.
fn read(alloc: Global, octets: &[u8]) -> Result<String, AllocError> {
    match Value::read(octets) {
        Ok((value, rest)) => {
            let mut out = String::new(alloc);
            tell_all(&mut out, value)?;
            if !rest.is_empty() {
                write!(out, "\n  behind it {:?}", Hex(rest))?;
            }
            Ok(out)
        }
        Err(fault) => fault_told(alloc, fault),
    }
}

/// A value and all that it holds, each on a line, the further in the deeper it lies.
fn tell_all(out: &mut String, value: Value<'_>) -> Result<(), AllocError> {
    let mut waiting = Vec::new(*out.allocator());
    waiting.push((0usize, value))?;
    for _ in 0..MOST {
        let Some((indent, value)) = waiting.pop() else {
            break;
        };
        if indent > 0 {
            write!(out, "\n{:indent$}", "")?;
        }
        tell_value(out, &value)?;
        put_parts(&mut waiting, indent.saturating_add(2), &value)?;
    }
    Ok(())
}

/// Puts what a value holds in front of what waits: its descriptor and what that describes, or its items.
fn put_parts<'a>(
    waiting: &mut Vec<(usize, Value<'a>)>,
    indent: usize,
    value: &Value<'a>,
) -> Result<(), AllocError> {
    let items: Vec<Value<'a>> = value.items().collect(*waiting.allocator())?;
    for item in items.iter().rev() {
        waiting.push((indent, *item))?;
    }
    if let Some(described) = value.described() {
        waiting.push((indent, described))?;
    }
    if let Some(descriptor) = value.descriptor() {
        waiting.push((indent, descriptor))?;
    }
    Ok(())
}

/// A value's octets, and what it says, by each question that it answers.
fn tell_value(out: &mut String, value: &Value<'_>) -> Result<(), AllocError> {
    tell_raw(out, value.raw())?;
    if value.is_null() {
        out.push_str(" null")?;
    }
    tell_if(out, "boolean", value.as_bool())?;
    tell_numbers(out, value)?;
    tell_texts(out, value)?;
    tell_parts(out, value)
}

/// Octets in hex, or of many how many they are.
fn tell_raw(out: &mut String, raw: &[u8]) -> Result<(), AllocError> {
    if raw.len() <= FEW {
        write!(out, "{:?}", Hex(raw))
    } else {
        write!(out, "{} octets", raw.len())
    }
}

fn tell_numbers(out: &mut String, value: &Value<'_>) -> Result<(), AllocError> {
    tell_if(out, "ubyte", value.as_ubyte())?;
    tell_if(out, "ushort", value.as_ushort())?;
    tell_if(out, "uint", value.as_uint())?;
    tell_if(out, "ulong", value.as_ulong())?;
    tell_if(out, "byte", value.as_byte())?;
    tell_if(out, "short", value.as_short())?;
    tell_if(out, "int", value.as_int())?;
    tell_if(out, "long", value.as_long())
}

fn tell_texts(out: &mut String, value: &Value<'_>) -> Result<(), AllocError> {
    if let Some((kind, octets)) = value.as_opaque() {
        tell(out, "opaque", (kind, Hex(octets)))?;
    }
    tell_if(out, "binary", hex_if(value.as_binary()))?;
    tell_if(out, "string", value.as_str())?;
    tell_if(out, "symbol", value.as_symbol())
}

fn tell_parts(out: &mut String, value: &Value<'_>) -> Result<(), AllocError> {
    tell_if(out, "list of", count(value.as_list()))?;
    tell_if(out, "map of", count(value.as_map()))?;
    tell_if(out, "array of", count(value.as_array()))?;
    if value.descriptor().is_some() {
        out.push_str(" described")?;
    }
    Ok(())
}

fn count(items: Option<Items<'_>>) -> Option<usize> {
    Some(items?.len())
}

/// Why the octets are no value, in words.
fn why(alloc: Global, octets: &[u8]) -> Result<String, NoAnswer> {
    match Value::read(octets) {
        Ok(_) => Err(NoAnswer::NoCase),
        Err(fault) => Ok(format!(in alloc; "{fault}")?),
    }
}

/// What each step gives that takes an item of a value.
fn take(alloc: Global, octets: &[u8], steps: &[&str]) -> Result<String, NoAnswer> {
    let Ok((value, [])) = Value::read(octets) else {
        return Err(NoAnswer::NoCase);
    };
    let mut out = String::new(alloc);
    take_each(&mut out, &mut value.items(), steps)?;
    Ok(out)
}

/// Tells what each step gives.
fn take_each(out: &mut String, items: &mut Items<'_>, steps: &[&str]) -> Result<(), NoAnswer> {
    for step in steps {
        if !out.is_empty() {
            out.push_str(", ")?;
        }
        take_one(out, items, step)?;
    }
    Ok(())
}

/// What a step gives, behind its name, and the value that the step `next` gives.
fn take_one(out: &mut String, items: &mut Items<'_>, step: &str) -> Result<(), NoAnswer> {
    match step {
        "simple" => write!(out, "simple {:?}", items.next_simple())?,
        "uint" => write!(out, "uint {:?}", items.next_uint())?,
        "bool" => write!(out, "bool {:?}", items.next_bool())?,
        "next" => tell_next(out, items)?,
        _ => return Err(NoAnswer::NoCase),
    }
    Ok(())
}

fn tell_next(out: &mut String, items: &mut Items<'_>) -> Result<(), AllocError> {
    match items.next() {
        Some(value) => tell_value(out, &value),
        None => out.push_str("none left"),
    }
}

/// What is read as a described list: the descriptor's number, how many items there are, and how many octets are behind.
fn listed(alloc: Global, octets: &[u8]) -> Result<String, AllocError> {
    match read_described_list(octets) {
        Ok((Some((descriptor, items)), rest)) => {
            let number = descriptor.as_ulong();
            format!(in alloc;
                "{number:?}, {} items, {} octets behind",
                items.len(),
                rest.len()
            )
        }
        Ok((None, _)) => "no described list".to_string(alloc),
        Err(fault) => fault_told(alloc, fault),
    }
}
