//! Lanes, drawn.

ghost use Rattle.std.specs.Prelude.{◌≡◌, IfOk};
ghost use Rattle.std.specs.String.{string_bytes};
ghost use Rattle.svg_text.specs.Parts.{Draws};
ghost use Rattle.capture_chart.specs.Drawn.{all_lanes, connection_words, lane_octets};

use crate::places::{ROUTER, lane_place};
use itoa::Buffer;
use std::alloc::{AllocError, Global};
use svg_text::{Drawing, draw_label, draw_line};

/// Draws the lane of the router and that of each connection, down to this place.
pub(crate) fn draw_lanes(
    alloc: Global,
    drawing: Drawing,
    lanes: &[u32],
    bottom: u32,
) -> Result<Drawing, AllocError>
    ensures { IfOk result (λ after. Draws drawing after (all_lanes bottom lanes.now)) }
{
    let mut drawing = draw_lane(drawing, ROUTER, "router", bottom)?;
    for (lane, connection) in lanes.iter().enumerate() {
        let words = lane_words(alloc, *connection)?;
        drawing = draw_lane(drawing, lane_place(lane), words.as_str(), bottom)?;
    }
    Ok(drawing)
}

fn draw_lane(drawing: Drawing, at: u32, words: &str, bottom: u32) -> Result<Drawing, AllocError>
    ensures { IfOk result (λ after. Draws drawing after (lane_octets bottom at words.now)) }
{
    let lined = draw_line(drawing, "lane", (at, 30), (at, bottom))?;
    draw_label(lined, (at, 20), words)
}

fn lane_words(alloc: Global, connection: u32) -> Result<String, AllocError>
    ensures { IfOk result (λ words. string_bytes words ≡ connection_words connection) }
{
    let mut digits = Buffer::new();
    let mut words = String::from_str(alloc, "connection ")?;
    words.push_str(digits.format(connection))?;
    Ok(words)
}
