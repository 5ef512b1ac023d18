//! Octets of an entry's own.

ghost use Rattle.std.specs.Prelude.{◌≡◌, IfOk};
ghost use Rattle.state_tables.specs.OwnOctets.{octets_in};

use crate::in_place::{InPlace, ROOM};
use std::alloc::{AllocError, Global};

/// Octets that an entry owns. Few stand in the entry itself, and take no memory besides: most addresses are short.
#[doc(hidden)]
#[derive(Drop)]
pub enum OwnOctets {
    /// Up to 40.
    Few(InPlace),
    /// Any number.
    Many(Vec<u8>),
}

impl OwnOctets {
    /// A copy of these octets.
    ///
    /// # Errors
    ///
    /// Memory was refused, for more than 40.
    pub(crate) fn of(alloc: Global, octets: &[u8]) -> Result<OwnOctets, AllocError>
        ensures { IfOk result (λ own. octets_in own ≡ octets.now) }
    {
        if octets.len() <= ROOM {
            Ok(OwnOctets::Few(InPlace::of(octets)))
        } else {
            Ok(OwnOctets::Many(octets.to_vec(alloc)?))
        }
    }

    /// The octets, lent.
    pub(crate) fn octets(&self) -> &[u8]
        ensures { result.now ≡ octets_in self.now }
    {
        match self {
            OwnOctets::Few(own) => own.octets(),
            OwnOctets::Many(own) => own,
        }
    }
}
