//! A drawing, written element by element.

use crate::attribute::{Attribute, Name, Value};
use crate::element::Element;
use crate::escaping::put_text;
use crate::tags::{put_end, put_tag};
use std::alloc::{AllocError, Global};
use std::marker::Model;

/// A document that is an SVG, up to where something may be written next: its text so far, and the elements that are open in
/// its root. Each call takes it and gives it back; where memory is refused it is gone.
#[derive(Debug, Drop)]
pub struct Drawing {
    text: String,
    unclosed: Vec<Element>,
}

impl Model for Drawing {
    ghost use Rattle.std.specs.String.{string_bytes};
    ghost use Rattle.svg_text.specs.Drawn.{Drawn, IsFront};

    ghost Value = { Drawn };

    ghost view = { λ drawing. record { octets = string_bytes drawing.text; unclosed = drawing.unclosed.items } };

    ghost invariant = { λ drawing. IsFront (string_bytes drawing.text) drawing.unclosed.items };
}

impl Drawing {
    ghost use Rattle.svg_text.specs.declared.element.Element.{Element};
    ghost use Rattle.std.specs.Prelude.{◌≡◌, ◌≢◌, List, ◌∷◌, [], ◌++◌, IfOk, map, true};
    ghost use Rattle.svg_text.specs.Grammar.{is_char, pieces_text};
    ghost use Rattle.std.specs.List.{list_all};
    ghost use Rattle.svg_text.specs.Escaping.{pieces_of, read, shown};
    ghost use Rattle.std.specs.Str.{chars};
    ghost use Rattle.std.specs.String.{string_bytes};
    ghost use Rattle.svg_text.specs.Drawn.{AreDistinct, IsSvg, empty_octets, end_octets, root_end, root_octets, start_octets, text_octets};

    /// A drawing of this size, with nothing in it: places in it count right and down from the left upper
    /// corner, in pixels (SVG 1.1, 7.10).
    ///
    /// # Errors
    ///
    /// Where memory is refused.
    pub fn new(alloc: Global, width: u32, height: u32) -> Result<Drawing, AllocError>
        ensures { IfOk result (λ drawing. drawing ≡ record { octets = root_octets width height; unclosed = [] }) }
    {
        let mut text = String::new(alloc);
        let attributes = [
            attribute(Name::Namespace, Value::Text("http://www.w3.org/2000/svg")),
            attribute(Name::Version, Value::Text("1.1")),
            attribute(Name::Width, Value::Number(width)),
            attribute(Name::Height, Value::Number(height)),
            attribute(Name::ViewBox, Value::Area(width, height)),
        ];
        put_tag(&mut text, "svg", &attributes)?;
        text.push_str(">")?;
        let unclosed = Vec::new(alloc);
        Ok(Drawing { text, unclosed })
    }

    /// Opens an element. What is written next stands in it, until `end` closes it. No two attributes have one name.
    ///
    /// # Errors
    ///
    /// Where memory is refused. The drawing is gone.
    pub fn start(
        self,
        element: Element,
        attributes: &[Attribute<'_>],
    ) -> Result<Drawing, AllocError>
        requires { AreDistinct attributes.now }
        ensures { IfOk result (λ drawing. drawing ≡ record { octets = self.octets ++ start_octets element attributes.now; unclosed = self.unclosed ++ element ∷ [] }) }
    {
        let Drawing {
            mut text,
            mut unclosed,
        } = self;
        put_tag(&mut text, element.name(), attributes)?;
        text.push_str(">")?;
        unclosed.push(element)?;
        Ok(Drawing { text, unclosed })
    }

    /// Writes an element that has no content, and ends the line. No two attributes have one name.
    ///
    /// # Errors
    ///
    /// Where memory is refused. The drawing is gone.
    pub fn empty(
        self,
        element: Element,
        attributes: &[Attribute<'_>],
    ) -> Result<Drawing, AllocError>
        requires { AreDistinct attributes.now }
        ensures { IfOk result (λ drawing. drawing ≡ record { octets = self.octets ++ empty_octets element attributes.now; unclosed = self.unclosed }) }
    {
        let Drawing { mut text, unclosed } = self;
        put_tag(&mut text, element.name(), attributes)?;
        text.push_str("/>\n")?;
        Ok(Drawing { text, unclosed })
    }

    /// Writes a text. What stands for markup in it is escaped, and U+FFFD stands for a character that no document may have.
    ///
    /// # Errors
    ///
    /// Where memory is refused. The drawing is gone.
    pub fn text(self, text: &str) -> Result<Drawing, AllocError>
        ensures written { IfOk result (λ drawing. drawing ≡ record { octets = self.octets ++ text_octets (chars text.now); unclosed = self.unclosed }) }
        // A reader finds each character there, or what stands for one that no document may have.
        ensures found { read (pieces_text (pieces_of (chars text.now))) ≡ map shown (chars text.now) }
        // Where a document may have each of them it is read as it was handed in.
        ensures same { list_all is_char (chars text.now) ≡ true → read (pieces_text (pieces_of (chars text.now))) ≡ chars text.now }
    {
        let Drawing {
            text: mut before,
            unclosed,
        } = self;
        put_text(&mut before, text)?;
        Ok(Drawing {
            text: before,
            unclosed,
        })
    }

    /// Closes the element that was opened last, and ends the line. There must be one: the root is closed by `finish`.
    ///
    /// # Errors
    ///
    /// Where memory is refused. The drawing is gone.
    pub fn end(self) -> Result<Drawing, AllocError>
        requires { self.unclosed ≢ [] }
        ensures { (before : List Element) (element : Element) → self.unclosed ≡ before ++ element ∷ []
            → IfOk result (λ drawing. drawing ≡ record { octets = self.octets ++ end_octets element; unclosed = before }) }
    {
        let Drawing {
            mut text,
            mut unclosed,
        } = self;
        let Some(element) = unclosed.pop() else {
            return Ok(Drawing { text, unclosed });
        };
        put_end(&mut text, element.name())?;
        Ok(Drawing { text, unclosed })
    }

    /// The document, whole. The root is closed; no other element may be open.
    ///
    /// # Errors
    ///
    /// Where memory is refused. The drawing is gone.
    pub fn finish(self) -> Result<String, AllocError>
        requires { self.unclosed ≡ [] }
        ensures text { IfOk result (λ text. string_bytes text ≡ self.octets ++ root_end) }
        // It is well-formed, and an SVG.
        ensures document { IfOk result (λ text. IsSvg (string_bytes text)) }
    {
        let Drawing {
            mut text,
            unclosed: _,
        } = self;
        put_end(&mut text, "svg")?;
        Ok(text)
    }
}

ghost use Rattle.std.specs.Prelude.{◌≡◌};

/// An attribute of the root.
fn attribute(name: Name, value: Value<'_>) -> Attribute<'_>
    ensures { result ≡ record { name = name; value = value.entry } }
{
    Attribute { name, value }
}
