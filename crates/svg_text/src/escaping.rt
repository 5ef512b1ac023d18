//! Any text as text of a document.

ghost use Rattle.std.specs.Prelude.{◌≡◌, ◌++◌, OnOk};
ghost use Rattle.std.specs.Str.{chars, encode_utf8_all};
ghost use Rattle.std.specs.String.{string_bytes};
ghost use Rattle.svg_text.specs.Grammar as grammar;
ghost use Rattle.svg_text.specs.Grammar.{piece_text};
ghost use Rattle.svg_text.specs.Escaping.{piece_of};
ghost use Rattle.svg_text.specs.Drawn.{text_octets};

use std::alloc::AllocError;

/// Appends a text, escaped.
pub(crate) fn put_text(out: &mut String, text: &str) -> Result<(), AllocError>
    ensures { OnOk result (string_bytes out.new ≡ string_bytes out.old ++ text_octets (chars text.now)) }
{
    for character in text.chars() {
        put_character(out, character)?;
    }
    Ok(())
}

/// Appends what stands for a character.
fn put_character(out: &mut String, character: char) -> Result<(), AllocError>
    ensures { OnOk result (string_bytes out.new ≡ string_bytes out.old ++ encode_utf8_all (piece_text (piece_of character))) }
{
    match character {
        '&' => out.push_str("&amp;"),
        '<' => out.push_str("&lt;"),
        '>' => out.push_str("&gt;"),
        '"' => out.push_str("&quot;"),
        '\'' => out.push_str("&apos;"),
        '\t' => out.push_str("&#9;"),
        '\n' => out.push_str("&#10;"),
        '\r' => out.push_str("&#13;"),
        _ if is_char(character) => out.push(character),
        _ => out.push('\u{FFFD}'),
    }
}

/// Whether a document may have the character.
fn is_char(character: char) -> bool
    ensures { result ≡ grammar.is_char character }
{
    matches!(
        character,
        '\t' | '\n'
            | '\r'
            | '\u{20}'..='\u{D7FF}'
            | '\u{E000}'..='\u{FFFD}'
            | '\u{10000}'..='\u{10FFFF}'
    )
}
