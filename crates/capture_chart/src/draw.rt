//! A chart, drawn.

use crate::arrows::draw_arrows;
use crate::chart::Chart;
use crate::head::draw_head;
use crate::lanes::draw_lanes;
use crate::marks::Marks;
use crate::places::{lane_place, lanes_of, row_place};
use std::alloc::AllocError;
use svg_text::{Drawing, Element, draw_words};

impl Chart {
    ghost use Rattle.std.specs.Prelude.{◌≡◌, IfOk};
    ghost use Rattle.std.specs.String.{string_bytes};
    ghost use Rattle.svg_text.specs.Drawn.{IsSvg};
    ghost use Rattle.capture_chart.specs.Marks.{marking};
    ghost use Rattle.capture_chart.specs.Shown.{worded_of};
    ghost use Rattle.capture_chart.specs.Drawn.{HasArrows};

    /// The chart as the text of an SVG under this title, with these records marked. Where memory is refused nothing is
    /// made.
    pub fn draw(&self, title: &str, marks: Marks<'_>) -> Result<String, AllocError>
        // It is well-formed, and an SVG.
        ensures document { IfOk result (λ text. IsSvg (string_bytes text)) }
        // It begins with this title, and is large enough for what it has: the lanes of the arrows' connections and that of the
        // router, and each arrow, in order and once, with its title, its words as they were given, its label, where it runs,
        // its mark, and from which delivery.
        ensures arrows { IfOk result (λ text. HasArrows title.now (marking marks.entry) (worded_of self.now) (string_bytes text)) }
    {
        let arrows = self.arrows.as_slice();
        let lanes = lanes_of(self.alloc, arrows)?;
        let width = lane_place(lanes.len());
        let height = row_place(arrows.len());
        let started = Drawing::new(self.alloc, width, height)?;
        let titled = draw_words(started, Element::Title, title)?;
        let headed = draw_head(titled)?;
        let ruled = draw_lanes(self.alloc, headed, lanes.as_slice(), height)?;
        let drawn = draw_arrows(self.alloc, ruled, arrows, lanes.as_slice(), marks)?;
        drawn.finish()
    }
}
