//! The ids of which a consumer's disposition speaks, on its session (part 2 of the standard, section 2.7.6).

ghost use Rattle.std.specs.Prelude.{◌≡◌};
ghost use Rattle.flow_counts.specs.Serial.{serial_add};
ghost use Rattle.state_outgoing.specs.IdRanges.{span};

use number_groups::IdOn;

/// The ids of a session from the first to the last, once round.
#[doc(hidden)]
#[derive(Clone, Copy)]
pub struct IdRange {
    /// The number of the session.
    pub(crate) session: u64,
    pub(crate) first: u32,
    pub(crate) last: u32,
}

impl IdRange {
    /// How many places the last id stands behind the first.
    pub(crate) fn span(self) -> u32
        ensures { result ≡ span self }
    {
        self.last.wrapping_sub(self.first)
    }

    /// The id so many places behind the first.
    pub(crate) fn id_at(self, place: u32) -> IdOn
        ensures { result ≡ record { session = self.session; id = serial_add self.first place } }
    {
        IdOn {
            session: self.session,
            id: self.first.wrapping_add(place),
        }
    }

    /// The last of them.
    pub(crate) fn last_id(self) -> IdOn
        ensures { result ≡ record { session = self.session; id = self.last } }
    {
        IdOn {
            session: self.session,
            id: self.last,
        }
    }
}
