//! What a record is to the reason of a refusal.

/// What a record is to the reason of a refusal.
#[derive(Clone, Copy, Debug, PartialEq, Eq)]
pub enum Mark {
    /// Nothing.
    Plain,
    /// It is the one that is refused.
    Refused,
    /// The refused one is compared with it.
    Compared,
}

/// Which records are marked, by their numbers.
#[derive(Clone, Copy, Debug)]
pub struct Marks<'a> {
    /// The one that is refused, if one is.
    pub refused: Option<u64>,
    /// Those that it is compared with.
    pub compared: &'a [u64],
}

impl Marks<'_> {
    ghost use Rattle.std.specs.Prelude.{◌≡◌};
    ghost use Rattle.capture_chart.specs.Marks as spec;

    /// The mark of a record.
    pub(crate) fn mark_of(self, number: u64) -> Mark
        ensures { result ≡ spec.mark_of (spec.marking self.entry) number }
    {
        match self.refused {
            Some(refused) if refused == number => Mark::Refused,
            _ if self.compared.contains(&number) => Mark::Compared,
            _ => Mark::Plain,
        }
    }
}

impl Mark {
    ghost use Rattle.std.specs.Prelude.{◌≡◌};
    ghost use Rattle.capture_chart.specs.Marks.{class_of, mark_words};

    pub(crate) fn class(self) -> &'static str
        ensures { result.now ≡ class_of self }
    {
        match self {
            Mark::Plain => "arrow",
            Mark::Refused => "arrow refused",
            Mark::Compared => "arrow compared",
        }
    }

    pub(crate) fn words(self) -> &'static str
        ensures { result.now ≡ mark_words self }
    {
        match self {
            Mark::Plain => "",
            Mark::Refused => ", refused",
            Mark::Compared => ", compared",
        }
    }
}
