//! Texts that are no names.

use std::alloc::{AllocError, Global};
use std::io;
use svg_text::{Attribute, Drawing, Element, Name, Value};

/// What a client may call a link, and more.
const TEXTS: [&str; 9] = [
    "</title><script>alert(1)</script>",
    "\" onload=\"alert(1)",
    "'; &amp; & &#60; <",
    "]]> -->",
    "a\u{0}b\u{8}c\u{b}d\u{1b}e\u{7f}f",
    "tab\tline\nreturn\rend",
    "\u{fffe}\u{ffff}\u{d7ff}\u{e000}",
    "é → \u{202e}\u{1f600}",
    "",
];

/// Draws each text in the places where one may stand, and one of 255 octets.
pub fn tell_texts(rt: &HostRuntime) -> io::Result<()> {
    for text in TEXTS {
        println!(rt; "== text")?;
        tell_document(rt, text)?;
    }
    let long = long_text(rt.alloc())?;
    println!(rt; "== {} octets", long.len())?;
    tell_document(rt, long.as_str())
}

/// The text of 255 octets.
fn long_text(alloc: Global) -> Result<String, AllocError> {
    let mut long = String::new(alloc);
    for _ in 0..51 {
        long.push_str("<\">&'")?;
    }
    Ok(long)
}

/// Draws a text.
fn tell_document(rt: &HostRuntime, text: &str) -> io::Result<()> {
    rt.print(document_of(rt.alloc(), text)?.as_str())
}

/// A document with a text in a title and in an attribute.
fn document_of(alloc: Global, text: &str) -> Result<String, AllocError> {
    let drawing = Drawing::new(alloc, 10, 20)?;
    let titled = drawing.start(Element::Title, &[])?.text(text)?.end()?;
    let classed = titled.empty(
        Element::Path,
        &[Attribute {
            name: Name::Class,
            value: Value::Text(text),
        }],
    )?;
    classed.finish()
}
