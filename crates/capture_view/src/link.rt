//! What an attach told of its link, kept.

use crate::told::{AddressTold, LinkRole, LinkTold};
use std::alloc::{AllocError, Global};

/// The address of a link, kept.
#[derive(Debug, Drop)]
pub enum LinkAddress {
    Absent,
    Text(String),
    Other(Vec<u8>),
    Dynamic,
    Coordinator,
}

/// A link, by what its last attach told.
#[derive(Debug, Drop)]
pub struct Link {
    pub name: String,
    pub role: LinkRole,
    pub address: LinkAddress,
}

impl Link {
    ghost use Rattle.std.specs.Prelude.{◌≡◌, IfOk};
    ghost use Rattle.capture_view.specs.Told.{told_text};
    ghost use Rattle.capture_view.specs.Named.{link_text};

    /// A copy of what an attach told.
    pub fn new(alloc: Global, told: &LinkTold<'_>) -> Result<Link, AllocError>
        ensures { IfOk result (λ link. link_text link ≡ told_text told.now) }
    {
        Ok(Link {
            name: String::from_str(alloc, told.name)?,
            role: told.role,
            address: LinkAddress::new(alloc, told.address)?,
        })
    }

    /// What it was told, lent.
    pub fn told(&self) -> LinkTold<'_>
        ensures { told_text result ≡ link_text self.now }
    {
        LinkTold {
            name: self.name.as_str(),
            role: self.role,
            address: self.address.told(),
        }
    }
}

impl LinkAddress {
    ghost use Rattle.std.specs.Prelude.{◌≡◌, IfOk};
    ghost use Rattle.capture_view.specs.Told.{address_text};
    ghost use Rattle.capture_view.specs.Named.{kept_address};

    fn new(alloc: Global, told: AddressTold<'_>) -> Result<LinkAddress, AllocError>
        ensures { IfOk result (λ address. kept_address address ≡ address_text told.entry) }
    {
        Ok(match told {
            AddressTold::Absent => LinkAddress::Absent,
            AddressTold::Text(text) => LinkAddress::Text(String::from_str(alloc, text)?),
            AddressTold::Other(octets) => LinkAddress::Other(Vec::from_slice(alloc, octets)?),
            AddressTold::Dynamic => LinkAddress::Dynamic,
            AddressTold::Coordinator => LinkAddress::Coordinator,
        })
    }

    fn told(&self) -> AddressTold<'_>
        ensures { address_text result ≡ kept_address self.now }
    {
        match self {
            LinkAddress::Absent => AddressTold::Absent,
            LinkAddress::Text(text) => AddressTold::Text(text.as_str()),
            LinkAddress::Other(octets) => AddressTold::Other(octets.as_slice()),
            LinkAddress::Dynamic => AddressTold::Dynamic,
            LinkAddress::Coordinator => AddressTold::Coordinator,
        }
    }
}
