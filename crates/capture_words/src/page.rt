//! Text that grows line by line.

use std::alloc::Global;

/// Text, and how much of a text or of octets is shown in it.
#[derive(Debug, Drop)]
pub struct Page {
    pub(crate) text: String,
    // How many characters of a text are shown, and how many digits of octets; all where there is none.
    pub(crate) width: Option<usize>,
}

impl Page {
    ghost use Rattle.std.specs.Prelude.{◌≡◌, ◌↔◌, [], length, IsTrue};
    ghost use Rattle.capture_words.specs.Page.{text_of};

    /// An empty page. Texts and octets are cut at so many characters, where a width is given.
    pub fn new(alloc: Global, width: Option<usize>) -> Page
        ensures { text_of result ≡ [] }
    {
        Page {
            text: String::new(alloc),
            width,
        }
    }

    /// The text.
    pub fn text(&self) -> &str
        ensures { result.now ≡ text_of self.now }
    {
        self.text.as_str()
    }

    /// Whether nothing is on the page.
    pub fn is_empty(&self) -> bool
        ensures { IsTrue result ↔ (text_of self.now ≡ []) }
    {
        self.text.is_empty()
    }

    /// How many octets the text has.
    pub fn len(&self) -> usize
        ensures { result ≡ length (text_of self.now) }
    {
        self.text.len()
    }

    /// Takes all text off, and keeps its room.
    pub fn clear(&mut self)
        ensures { text_of self.new ≡ [] }
    {
        self.text.clear();
    }
}
