//! An SVG 1.1 document as text (XML 1.0), written element by element.
//!
//! A `Drawing` begins with its root; `start` and `end` open and close an element in it, `empty` writes one without content,
//! `text` any text, and `finish` gives the document, of which it is proved that it is well-formed: each tag is closed, in order, and
//! no text can break out of its place. What stands for markup is escaped; a character that no document may have, as
//! most control characters, becomes U+FFFD. A reader finds each other character as it was handed in.
//!
//! `draw_words`, `draw_line`, `draw_path` and `draw_label` write what charts have in common: elements of several calls, each with
//! the octets that it adds.
//!
//! Where memory is refused the drawing is gone. In reading order: `element`, `attribute`, `escaping`, `tags`, `drawing`, `parts`.
//!
//! In `specs/`, `Parts` has the octets of such elements, and what it is that a drawing has something more, and `Numbers` where a
//! number of 32 bits stops, as places in a chart do; `proofs/Drawings` is about drawings that go on one behind the other, for the
//! proofs of charts.
#![tactic(auto)]

mod attribute;
mod drawing;
mod element;
mod escaping;
mod parts;
mod tags;

pub use attribute::{Attribute, Name, Value};
pub use drawing::Drawing;
pub use element::Element;
pub use parts::{draw_label, draw_line, draw_path, draw_words};
