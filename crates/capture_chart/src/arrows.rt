//! Arrows, drawn.

ghost use Rattle.std.specs.Prelude.{◌≡◌, IfOk, map};
ghost use Rattle.capture_chart.specs.Marks.{marking};
ghost use Rattle.capture_chart.specs.Shown.{shown, worded};
ghost use Rattle.svg_text.specs.Parts.{Draws};
ghost use Rattle.capture_chart.specs.Drawn.{arrow_octets, arrows_octets, outcome_octets, shaft_octets, tie_octets, told_octets};

use crate::arrow::Arrow;
use crate::marks::Marks;
use crate::places::{ArrowPlace, ROUTER, between, place_at};
use crate::topic::Course;
use std::alloc::{AllocError, Global};
use svg_text::{Attribute, Drawing, Element, Name, Value, draw_label, draw_line, draw_words};

/// Draws each arrow, in order.
pub(crate) fn draw_arrows(
    alloc: Global,
    drawing: Drawing,
    arrows: &[Arrow],
    lanes: &[u32],
    marks: Marks<'_>,
) -> Result<Drawing, AllocError>
    ensures { IfOk result (λ after. Draws drawing after (arrows_octets (marking marks.entry) lanes.now (map shown arrows.now) 0 (map worded arrows.now))) }
{
    let mut drawing = drawing;
    for (row, arrow) in arrows.iter().enumerate() {
        let place = place_at(marks, lanes, arrows, row, arrow);
        drawing = draw_arrow(alloc, drawing, arrow, place)?;
    }
    Ok(drawing)
}

/// Draws an arrow with its title and its description.
fn draw_arrow(
    alloc: Global,
    drawing: Drawing,
    arrow: &Arrow,
    place: ArrowPlace,
) -> Result<Drawing, AllocError>
    ensures { IfOk result (λ after. Draws drawing after (arrow_octets place (worded arrow.now))) }
{
    let title = arrow.title(alloc, place.mark)?;
    let attributes = [Attribute {
        name: Name::Class,
        value: Value::Text(place.mark.class()),
    }];
    let opened = drawing.start(Element::Group, &attributes)?;
    let titled = draw_words(opened, Element::Title, title.as_str())?;
    let described = draw_words(titled, Element::Description, arrow.words.as_str())?;
    let tied = draw_tie(described, place)?;
    let told = draw_told(alloc, tied, arrow, place)?;
    let shot = draw_shaft(told, arrow.course, place)?;
    let at = (ROUTER + 8, place.row.saturating_sub(4));
    let labelled = draw_label(shot, at, arrow.label.as_str())?;
    labelled.end()
}

/// Draws a line from the delivery that is carried, if it is shown.
fn draw_tie(drawing: Drawing, place: ArrowPlace) -> Result<Drawing, AllocError>
    ensures { IfOk result (λ after. Draws drawing after (tie_octets place)) }
{
    match place.carried {
        Some((lane, row)) => draw_line(
            drawing,
            "carries",
            (between(ROUTER, lane), row),
            (between(ROUTER, place.lane), place.row),
        ),
        None => Ok(drawing),
    }
}

/// Draws a line from the delivery whose outcome is told, if it is shown.
fn draw_told(
    alloc: Global,
    drawing: Drawing,
    arrow: &Arrow,
    place: ArrowPlace,
) -> Result<Drawing, AllocError>
    ensures { IfOk result (λ after. Draws drawing after (told_octets place (shown arrow.now))) }
{
    match (place.told, arrow.told) {
        (Some(delivery), Some(number)) => {
            let title = arrow.told_title(alloc, number)?;
            draw_outcome(drawing, place, delivery, title.as_str())
        }
        _ => Ok(drawing),
    }
}

/// Draws a line from where a delivery comes in to where its outcome ends, with this title.
fn draw_outcome(
    drawing: Drawing,
    place: ArrowPlace,
    delivery: (u32, u32),
    title: &str,
) -> Result<Drawing, AllocError>
    ensures { IfOk result (λ after. Draws drawing after (outcome_octets place delivery title.now)) }
{
    let attributes = [Attribute {
        name: Name::Class,
        value: Value::Text("outcome"),
    }];
    let (lane, row) = delivery;
    let opened = drawing.start(Element::Group, &attributes)?;
    let titled = draw_words(opened, Element::Title, title)?;
    let lined = draw_line(
        titled,
        "tells",
        (between(ROUTER, lane), row),
        (place.lane, place.row),
    )?;
    lined.end()
}

/// Draws a line from the side that wrote a frame to the other.
fn draw_shaft(drawing: Drawing, course: Course, place: ArrowPlace) -> Result<Drawing, AllocError>
    ensures { IfOk result (λ after. Draws drawing after (shaft_octets course place)) }
{
    let client = (place.lane, place.row);
    let router = (ROUTER, place.row);
    match course {
        Course::ToRouter => draw_line(drawing, "shaft", client, router),
        Course::ToClient => draw_line(drawing, "shaft", router, client),
        Course::Beside => Ok(drawing),
    }
}
