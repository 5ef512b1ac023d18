//! Elements of several calls. Where memory is refused the drawing is gone.

ghost use Rattle.std.specs.Prelude.{◌≡◌, IfOk};
ghost use Rattle.svg_text.specs.Parts.{Draws, element_octets, label_octets, line_octets, path_octets};

use crate::attribute::{Attribute, Name, Value};
use crate::drawing::Drawing;
use crate::element::Element;
use std::alloc::AllocError;

/// An element with a text in it, and no attributes. The text is escaped.
///
/// # Errors
///
/// Where memory is refused. The drawing is gone.
pub fn draw_words(drawing: Drawing, element: Element, words: &str) -> Result<Drawing, AllocError>
    ensures { IfOk result (λ after. Draws drawing after (element_octets element words.now)) }
{
    drawing.start(element, &[])?.text(words)?.end()
}

/// A line of this class, `from` one place `to` another: each is how far right and how far down, in units of the drawing.
///
/// # Errors
///
/// Where memory is refused. The drawing is gone.
pub fn draw_line(
    drawing: Drawing,
    class: &str,
    from: (u32, u32),
    to: (u32, u32),
) -> Result<Drawing, AllocError>
    ensures { IfOk result (λ after. Draws drawing after (line_octets class.now from to)) }
{
    drawing.empty(
        Element::Line,
        &[
            Attribute {
                name: Name::Class,
                value: Value::Text(class),
            },
            Attribute {
                name: Name::X1,
                value: Value::Number(from.0),
            },
            Attribute {
                name: Name::Y1,
                value: Value::Number(from.1),
            },
            Attribute {
                name: Name::X2,
                value: Value::Number(to.0),
            },
            Attribute {
                name: Name::Y2,
                value: Value::Number(to.1),
            },
        ],
    )
}

/// A path of this class, along this data (SVG 1.1, 8.3). Whether it is path data is not looked at.
///
/// # Errors
///
/// Where memory is refused. The drawing is gone.
pub fn draw_path(drawing: Drawing, class: &str, along: &str) -> Result<Drawing, AllocError>
    ensures { IfOk result (λ after. Draws drawing after (path_octets class.now along.now)) }
{
    drawing.empty(
        Element::Path,
        &[
            Attribute {
                name: Name::Class,
                value: Value::Text(class),
            },
            Attribute {
                name: Name::Data,
                value: Value::Text(along),
            },
        ],
    )
}

/// Words at a place, the x and y of a text (SVG 1.1, 10.4): how far right and how far down, in units of the drawing. The words
/// are escaped.
///
/// # Errors
///
/// Where memory is refused. The drawing is gone.
pub fn draw_label(drawing: Drawing, at: (u32, u32), words: &str) -> Result<Drawing, AllocError>
    ensures { IfOk result (λ after. Draws drawing after (label_octets at words.now)) }
{
    let attributes = [
        Attribute {
            name: Name::X,
            value: Value::Number(at.0),
        },
        Attribute {
            name: Name::Y,
            value: Value::Number(at.1),
        },
    ];
    drawing
        .start(Element::Text, &attributes)?
        .text(words)?
        .end()
}
