//! The elements that a chart has.

/// An element of SVG 1.1, other than the root. A variant that is not spelled so, but for its capital, has its spelling beside it.
#[derive(Clone, Copy, Debug, PartialEq, Eq)]
pub enum Element {
    Title,
    /// `desc`.
    Description,
    Style,
    /// `defs`.
    Definitions,
    Marker,
    Path,
    /// `g`.
    Group,
    Line,
    /// `rect`.
    Rectangle,
    Text,
}

impl Element {
    ghost use Rattle.std.specs.Prelude.{◌≡◌};
    ghost use Rattle.svg_text.specs.Names.{element_name};

    /// How it is spelled.
    pub(crate) fn name(self) -> &'static str
        ensures { result.now ≡ element_name self }
    {
        match self {
            Element::Title => "title",
            Element::Description => "desc",
            Element::Style => "style",
            Element::Definitions => "defs",
            Element::Marker => "marker",
            Element::Path => "path",
            Element::Group => "g",
            Element::Line => "line",
            Element::Rectangle => "rect",
            Element::Text => "text",
        }
    }
}
