//! Some octets in a room that never grows.

ghost use Rattle.std.specs.Prelude.{◌≡◌, ◌≤◌, length};

use std::marker::Model;

/// How many octets the room has.
pub(crate) const ROOM: usize = 40;

/// The first octets of a room.
#[doc(hidden)]
#[derive(Drop)]
pub struct InPlace {
    room: [u8; ROOM],
    count: usize,
}

impl Model for InPlace {
    ghost use Rattle.std.specs.Prelude.{ℕ, List, ◌≤◌, take};

    ghost Value = { List ℕ };

    ghost view = { λ own. take own.count own.room };

    ghost invariant = { λ own. own.count ≤ 40 };
}

impl InPlace {
    /// A copy of these octets, for which there is room.
    pub(crate) fn of(octets: &[u8]) -> InPlace
        requires { length octets.now ≤ 40 }
        ensures { result ≡ octets.now }
    {
        let mut room = [0; ROOM];
        room[..octets.len()].copy_from_slice(octets);
        InPlace {
            room,
            count: octets.len(),
        }
    }

    /// The octets, lent.
    pub(crate) fn octets(&self) -> &[u8]
        ensures { result.now ≡ self.now }
    {
        &self.room[..self.count]
    }
}
