//! The link of a delivery that is kept, with an address of its own.

ghost use Rattle.std.specs.Prelude.{◌≡◌, IfOk};
ghost use Rattle.state_tables.specs.HeldViews.{held_link_view};
ghost use Rattle.trace_events.specs.View.{link_view};

use crate::own_octets::OwnOctets;
use amqp_perf::Role;
use std::alloc::{AllocError, Global};
use trace_events::{Link, Session};

/// A link with an address of its own.
#[doc(hidden)]
#[derive(Drop)]
pub struct HeldLink {
    number: u64,
    session: Session,
    address: OwnOctets,
    handle: u32,
    our_first_count: u32,
    their_first_count: u32,
    role: Role,
    is_pre_settled: bool,
}

impl HeldLink {
    /// A copy of it.
    ///
    /// # Errors
    ///
    /// Memory was refused, for a long address.
    pub fn new(alloc: Global, link: &Link) -> Result<HeldLink, AllocError>
        ensures { IfOk result (λ own. held_link_view own ≡ link_view link.now) }
    {
        let address = OwnOctets::of(alloc, link.address)?;
        Ok(HeldLink {
            number: link.number,
            session: link.session,
            handle: link.handle,
            role: link.role,
            address,
            is_pre_settled: link.is_pre_settled,
            our_first_count: link.our_first_count,
            their_first_count: link.their_first_count,
        })
    }

    /// The link, with the address lent.
    pub fn link(&self) -> Link<'_>
        ensures { link_view result ≡ held_link_view self.now }
    {
        Link {
            number: self.number,
            session: self.session,
            handle: self.handle,
            role: self.role,
            address: self.address.octets(),
            is_pre_settled: self.is_pre_settled,
            our_first_count: self.our_first_count,
            their_first_count: self.their_first_count,
        }
    }
}
