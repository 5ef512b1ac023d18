//! The panel of a quantity.

ghost use Rattle.std.specs.Prelude.{◌≡◌, ◌<◌, IfOk, List, Option, length};
ghost use Rattle.std.specs.String.{string_bytes};
ghost use Rattle.svg_text.specs.Parts.{Draws, DrawsSome};
ghost use Rattle.credit_chart.specs.declared.level.Level.{Level};
ghost use Rattle.credit_chart.specs.Places.{scale_of};
ghost use Rattle.credit_chart.specs.Thinned.{AreThinned};
ghost use Rattle.credit_chart.specs.Curves.{heading, panel_octets};

use crate::level::Quantity;
use crate::path::path_of;
use crate::scale::{LEFT, RIGHT, Scale, bottom_of, height_of};
use crate::thinned::Thinned;
use itoa::Buffer;
use std::alloc::{AllocError, Global};
use svg_text::{
    Attribute, Drawing, Element, Name, Value, draw_label, draw_line, draw_path, draw_words,
};

/// Draws the curve of a quantity over these columns, under its name, with the line on which the value 0 stands.
pub(crate) fn draw_panel(
    alloc: Global,
    drawing: Drawing,
    thinned: &Thinned,
    scale: Scale,
    quantity: Quantity,
) -> Result<Drawing, AllocError>
    ensures some { IfOk result (λ after. DrawsSome drawing after) }
    ensures curve { IfOk result (λ after. (levels : List (Option Level)) → AreThinned levels thinned.now → scale ≡ scale_of (length levels) →
        Draws drawing after (panel_octets levels quantity)) }
{
    let top = thinned.top(quantity);
    let words = heading_of(alloc, quantity, top)?;
    let along = path_of(alloc, quantity, thinned, scale, top)?;
    let bottom = bottom_of(quantity);
    let attributes = [Attribute {
        name: Name::Class,
        value: Value::Text(quantity.class()),
    }];
    let opened = drawing.start(Element::Group, &attributes)?;
    let titled = draw_words(opened, Element::Title, quantity.name())?;
    let at = (LEFT, bottom.saturating_sub(height_of(quantity) + 8));
    let headed = draw_label(titled, at, words.as_str())?;
    let ruled = draw_line(headed, "axis", (LEFT, bottom), (RIGHT, bottom))?;
    let drawn = draw_path(ruled, "curve", along.as_str())?;
    drawn.end()
}

/// What stands above a panel: the quantity, and from where to where its values go.
fn heading_of(alloc: Global, quantity: Quantity, top: u32) -> Result<String, AllocError>
    ensures { IfOk result (λ words. string_bytes words ≡ heading quantity top) }
{
    let mut digits = Buffer::new();
    let mut words = String::from_str(alloc, quantity.name())?;
    words.push_str(", from 0 to ")?;
    words.push_str(digits.format(top))?;
    Ok(words)
}
