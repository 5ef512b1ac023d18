//! Tags with their attributes.

ghost use Rattle.std.specs.Prelude.{◌≡◌, ◌++◌, decimal, OnOk};
ghost use Rattle.std.specs.Str.{encode_utf8_all};
ghost use Rattle.std.specs.String.{string_bytes};
ghost use Rattle.svg_text.specs.Grammar.{attribute_text};
ghost use Rattle.svg_text.specs.Drawn.{attribute_of, end_line, tag_front, text_octets, value_text};

use crate::attribute::{Attribute, Value};
use crate::escaping::put_text;
use itoa::Buffer;
use std::alloc::AllocError;

/// Appends a tag up to what ends it.
pub(crate) fn put_tag(
    out: &mut String,
    name: &str,
    attributes: &[Attribute<'_>],
) -> Result<(), AllocError>
    ensures { OnOk result (string_bytes out.new ≡ string_bytes out.old ++ tag_front name.now attributes.now) }
{
    out.push_str("<")?;
    out.push_str(name)?;
    for attribute in attributes {
        put_attribute(out, attribute)?;
    }
    Ok(())
}

/// Appends an end tag, and the end of the line.
pub(crate) fn put_end(out: &mut String, name: &str) -> Result<(), AllocError>
    ensures { OnOk result (string_bytes out.new ≡ string_bytes out.old ++ end_line name.now) }
{
    out.push_str("</")?;
    out.push_str(name)?;
    out.push_str(">\n")
}

fn put_attribute(out: &mut String, attribute: &Attribute<'_>) -> Result<(), AllocError>
    ensures { OnOk result (string_bytes out.new ≡ string_bytes out.old ++ encode_utf8_all (attribute_text (attribute_of attribute.now))) }
{
    out.push_str(" ")?;
    out.push_str(attribute.name.text())?;
    out.push_str("=\"")?;
    put_value(out, attribute.value)?;
    out.push_str("\"")
}

fn put_value(out: &mut String, value: Value<'_>) -> Result<(), AllocError>
    ensures { OnOk result (string_bytes out.new ≡ string_bytes out.old ++ text_octets (value_text value.entry)) }
{
    match value {
        Value::Text(text) => put_text(out, text),
        Value::Number(number) => put_number(out, number),
        Value::Area(width, height) => {
            put_text(out, "0 0 ")?;
            put_number(out, width)?;
            put_text(out, " ")?;
            put_number(out, height)
        }
    }
}

fn put_number(out: &mut String, number: u32) -> Result<(), AllocError>
    ensures { OnOk result (string_bytes out.new ≡ string_bytes out.old ++ text_octets (decimal number)) }
{
    let mut digits = Buffer::new();
    put_text(out, digits.format(number))
}
