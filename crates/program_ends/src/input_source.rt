//! Where a program reads from.

/// Where a program reads from.
#[derive(Clone, Copy, Debug, PartialEq, Eq)]
pub enum InputSource<'a> {
    StandardInput,
    /// The file of this path.
    File(&'a str),
}

impl<'a> InputSource<'a> {
    ghost use Rattle.std.specs.Prelude.{◌≡◌, option_map};
    ghost use Rattle.program_ends.specs.InputSource.{path_asked, path_of};

    /// The source that a word names, or that there is without one. A hyphen alone names standard input.
    pub fn of_word(word: Option<&'a str>) -> InputSource<'a>
        ensures { path_of result ≡ path_asked (option_map (λ w. w.now) word.entry) }
    {
        match word {
            Some(path) if path != "-" => InputSource::File(path),
            _ => InputSource::StandardInput,
        }
    }
}
