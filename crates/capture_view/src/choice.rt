//! The tests of a record.

/// What is known of a record that a choice may ask for.
#[derive(Clone, Copy, Debug)]
pub struct Traits<'a> {
    /// The number of the record.
    pub number: u64,
    pub connection: u32,
    /// The name of the link that its frame names, where that is known.
    pub link: Option<&'a str>,
    /// Whether the record is about the delivery that is asked for.
    pub is_of_delivery: bool,
}

/// Which records are asked for; a test that is not there holds of all.
#[derive(Clone, Copy, Debug)]
pub struct Choice<'a> {
    /// Those from this number on.
    pub from: Option<u64>,
    /// Those up to this number.
    pub to: Option<u64>,
    /// Those of this connection.
    pub connection: Option<u32>,
    /// Those whose frame names a link of this name.
    pub link: Option<&'a str>,
    /// Those that are about the delivery from a client that begins in this record.
    pub delivery: Option<u64>,
}

impl Choice<'_> {
    ghost use Rattle.std.specs.Prelude.{◌≡◌, ◌↔◌, IsTrue};
    ghost use Rattle.capture_view.specs.Choice.{IsAskedFor};

    /// Whether a record with these traits is asked for.
    pub fn shows(&self, traits: &Traits<'_>) -> bool
        ensures { IsTrue result ↔ IsAskedFor self.now traits.now }
    {
        self.is_in_range(traits.number)
            && self.is_on_connection(traits.connection)
            && self.names_link(traits.link)
            && (self.delivery.is_none() || traits.is_of_delivery)
    }

    ghost use Rattle.capture_view.specs.Choice.{IsInRange, IsOnConnection, NamesLink};

    fn is_in_range(&self, number: u64) -> bool
        ensures { IsTrue result ↔ IsInRange self.now number }
    {
        let is_behind = match self.from {
            Some(from) => from <= number,
            None => true,
        };
        let is_before = match self.to {
            Some(to) => number <= to,
            None => true,
        };
        is_behind && is_before
    }

    fn is_on_connection(&self, connection: u32) -> bool
        ensures { IsTrue result ↔ IsOnConnection self.now connection }
    {
        match self.connection {
            Some(asked) => asked == connection,
            None => true,
        }
    }

    fn names_link(&self, link: Option<&str>) -> bool
        ensures { IsTrue result ↔ NamesLink self.now link.entry }
    {
        match (self.link, link) {
            (Some(asked), Some(name)) => asked == name,
            (Some(_), None) => false,
            (None, _) => true,
        }
    }
}
