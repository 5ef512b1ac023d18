//! Levels, drawn.

ghost use Rattle.std.specs.Prelude.{◌≡◌, IfOk, List, Option, length};
ghost use Rattle.std.specs.String.{string_bytes};
ghost use Rattle.svg_text.specs.Drawn.{IsSvg};
ghost use Rattle.svg_text.specs.Parts.{Draws, DrawsSome};
ghost use Rattle.credit_chart.specs.declared.level.Level.{Level};
ghost use Rattle.credit_chart.specs.Places.{scale_of};
ghost use Rattle.credit_chart.specs.Curves.{HasCurves, panels_octets, records_words};
ghost use Rattle.credit_chart.specs.Thinned.{AreThinned};

use crate::level::Quantity;
use crate::panel::draw_panel;
use crate::scale::{ABOVE, BELOW, HEIGHT, LEFT, Scale, WIDTH, scale_of};
use crate::thinned::Thinned;
use itoa::Buffer;
use std::alloc::{AllocError, Global};
use svg_text::{Drawing, Element, draw_label, draw_words};

/// How it looks, in light and dark.
const STYLE: &str = "svg { color: #1a1a1a; background: #ffffff; font: 11px monospace } \
.credit { color: #0047b3 } .window { color: #1b7f3a } .waiting { color: #8a5a00 } \
.unsettled { color: #6b2fb3 } .draining { color: #b3001b } \
@media (prefers-color-scheme: dark) { svg { color: #e8e8e8; background: #16181c } \
.credit { color: #79b8ff } .window { color: #7ee2a8 } .waiting { color: #e0b060 } \
.unsettled { color: #c8a6ff } .draining { color: #ff8182 } } \
text { fill: currentColor } path { fill: none; stroke: currentColor } \
line { stroke: currentColor; stroke-opacity: 0.3 }";

/// The levels of records, one for each record that has one, as the text of an SVG under this title: a panel with a curve for
/// each quantity. Where memory is refused nothing is made.
pub fn draw_levels(alloc: Global, title: &str, thinned: &Thinned) -> Result<String, AllocError>
    // It is well-formed, and an SVG.
    ensures document { IfOk result (λ text. IsSvg (string_bytes text)) }
    // It begins with this title, which stands above the curve of each quantity: in each column the lowest and the highest value of the
    // records for which it stands.
    ensures curves { IfOk result (λ text. (levels : List (Option Level)) → AreThinned levels thinned.now → HasCurves title.now levels (string_bytes text)) }
{
    let scale = scale_of(thinned.records(), thinned.span());
    let words = records_words(alloc, thinned.records())?;
    let started = Drawing::new(alloc, WIDTH, HEIGHT)?;
    let titled = draw_words(started, Element::Title, title)?;
    let styled = draw_words(titled, Element::Style, STYLE)?;
    let headed = draw_label(styled, (LEFT, ABOVE), title)?;
    let drawn = draw_panels(alloc, headed, thinned, scale)?;
    let labelled = draw_label(drawn, (LEFT, BELOW), words.as_str())?;
    labelled.finish()
}

/// Draws the panel of each quantity.
fn draw_panels(
    alloc: Global,
    drawing: Drawing,
    thinned: &Thinned,
    scale: Scale,
) -> Result<Drawing, AllocError>
    ensures some { IfOk result (λ after. DrawsSome drawing after) }
    ensures curves { IfOk result (λ after. (levels : List (Option Level)) → AreThinned levels thinned.now → scale ≡ scale_of (length levels) →
        Draws drawing after (panels_octets levels)) }
{
    let credit = draw_panel(alloc, drawing, thinned, scale, Quantity::Credit)?;
    let window = draw_panel(alloc, credit, thinned, scale, Quantity::Window)?;
    let waiting = draw_panel(alloc, window, thinned, scale, Quantity::Waiting)?;
    let unsettled = draw_panel(alloc, waiting, thinned, scale, Quantity::Unsettled)?;
    draw_panel(alloc, unsettled, thinned, scale, Quantity::Draining)
}

/// How many records stand from left to right.
fn records_words(alloc: Global, records: usize) -> Result<String, AllocError>
    ensures { IfOk result (λ words. string_bytes words ≡ records_words records) }
{
    let mut digits = Buffer::new();
    let mut words = String::from_str(alloc, digits.format(records))?;
    words.push_str(" records, the first on the left")?;
    Ok(words)
}
