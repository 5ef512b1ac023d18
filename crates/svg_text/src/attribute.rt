//! The attributes that a chart has.

/// The name of an attribute of SVG 1.1. A variant that is not spelled so, but for its capital, has its spelling beside it.
#[derive(Clone, Copy, Debug, PartialEq, Eq)]
pub enum Name {
    /// `xmlns`.
    Namespace,
    Version,
    Width,
    Height,
    ViewBox,
    /// `id`.
    Identity,
    Class,
    X,
    Y,
    X1,
    Y1,
    X2,
    Y2,
    /// `d`: what a path goes along.
    Data,
    RefX,
    RefY,
    MarkerWidth,
    MarkerHeight,
    Orient,
}

/// The value of an attribute, as it is written between quotes.
#[derive(Clone, Copy, Debug)]
pub enum Value<'a> {
    /// Any text. It is escaped, as that of an element is.
    Text(&'a str),
    /// A number, in decimal digits.
    Number(u32),
    /// From 0 0 on, of this width and height: `0 0 width height`.
    Area(u32, u32),
}

/// An attribute of an element.
#[derive(Clone, Copy, Debug)]
pub struct Attribute<'a> {
    pub name: Name,
    pub value: Value<'a>,
}

impl Name {
    ghost use Rattle.std.specs.Prelude.{◌≡◌};
    ghost use Rattle.svg_text.specs.Names.{attribute_name};

    /// How it is spelled.
    pub(crate) fn text(self) -> &'static str
        ensures { result.now ≡ attribute_name self }
    {
        match self {
            Name::Namespace => "xmlns",
            Name::Version => "version",
            Name::Width => "width",
            Name::Height => "height",
            Name::ViewBox => "viewBox",
            Name::Identity => "id",
            Name::Class => "class",
            Name::X => "x",
            Name::Y => "y",
            Name::X1 => "x1",
            Name::Y1 => "y1",
            Name::X2 => "x2",
            Name::Y2 => "y2",
            Name::Data => "d",
            Name::RefX => "refX",
            Name::RefY => "refY",
            Name::MarkerWidth => "markerWidth",
            Name::MarkerHeight => "markerHeight",
            Name::Orient => "orient",
        }
    }
}
