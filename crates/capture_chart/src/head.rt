//! What stands between the title and the lanes.

ghost use Rattle.std.specs.Prelude.{◌≡◌, IfOk};
ghost use Rattle.svg_text.specs.Parts.{DrawsSome};

use std::alloc::AllocError;
use svg_text::{Attribute, Drawing, Element, Name, Value, draw_words};

/// How it looks, in light and dark.
const STYLE: &str = "svg { color: #1a1a1a; background: #ffffff; font: 11px monospace } \
.refused { color: #b3001b } .compared { color: #0047b3 } \
@media (prefers-color-scheme: dark) { svg { color: #e8e8e8; background: #16181c } \
.refused { color: #ff8182 } .compared { color: #79b8ff } } \
text, path { fill: currentColor } line { stroke: currentColor } \
.lane { stroke-opacity: 0.3 } .shaft { marker-end: url(#head) } \
.carries { stroke-opacity: 0.5; stroke-dasharray: 2 3 } \
.tells { stroke-opacity: 0.6; stroke-width: 0.7; stroke-dasharray: 7 4 }";

/// Draws the style, and the head of an arrow.
pub(crate) fn draw_head(drawing: Drawing) -> Result<Drawing, AllocError>
    ensures { IfOk result (λ after. DrawsSome drawing after) }
{
    let styled = draw_words(drawing, Element::Style, STYLE)?;
    let defined = styled.start(Element::Definitions, &[])?;
    let marked = draw_marker(defined)?;
    marked.end()
}

fn draw_marker(drawing: Drawing) -> Result<Drawing, AllocError>
    ensures { IfOk result (λ after. DrawsSome drawing after) }
{
    let attributes = [
        Attribute {
            name: Name::Identity,
            value: Value::Text("head"),
        },
        Attribute {
            name: Name::MarkerWidth,
            value: Value::Number(8),
        },
        Attribute {
            name: Name::MarkerHeight,
            value: Value::Number(8),
        },
        Attribute {
            name: Name::RefX,
            value: Value::Number(8),
        },
        Attribute {
            name: Name::RefY,
            value: Value::Number(4),
        },
        Attribute {
            name: Name::Orient,
            value: Value::Text("auto"),
        },
    ];
    let marked = drawing.start(Element::Marker, &attributes)?;
    let path = [Attribute {
        name: Name::Data,
        value: Value::Text("M0 0 L8 4 L0 8 Z"),
    }];
    marked.empty(Element::Path, &path)?.end()
}
