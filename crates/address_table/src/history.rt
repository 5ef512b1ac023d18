//! What happens to the links of consumers, and what they come to by it.

ghost use Rattle.std.specs.Prelude.{◌<◌, ◌-◌, ◌^◌, ℕ, IfOk, OnOk};
ghost use Rattle.flow_counts.specs.Picks.{Decided};
ghost use Rattle.address_table.specs.Links.{undecided_on, IsCount, CountsOneMore};
ghost use Rattle.address_table.specs.History.{address_event, events_of};

use crate::table::Table;
use capture_form::Distribution;
use std::alloc::{AllocError, Global};

/// What happens to the links of consumers.
#[derive(Clone, Copy, Debug, PartialEq, Eq)]
pub enum AddressEvent<'a> {
    /// A link is attached to an address.
    Attached {
        address: &'a str,
        link: u64,
        pre_settled: bool,
    },
    /// A link is detached.
    Detached {
        link: u64,
    },
    /// A delivery begins on a link, with the transfer of this record.
    Begun {
        link: u64,
        number: u64,
    },
    /// A delivery of a link is decided.
    Decided {
        link: u64,
    },
}

impl Table {
    /// One event more.
    fn count(&mut self, event: AddressEvent<'_>) -> Result<(), AllocError>
        requires { (link : ℕ) → undecided_on self.old link < 2 ^ 64 - 1 }
        ensures { OnOk result (CountsOneMore self.old self.new (address_event event.entry)) }
    {
        match event {
            AddressEvent::Attached {
                address,
                link,
                pre_settled,
            } => self.attach(address, link, pre_settled, Distribution::Balanced)?,
            AddressEvent::Detached { link } => self.detach(link),
            AddressEvent::Begun { link, number } => self.begun(link, number),
            AddressEvent::Decided { link } => self.decide(link),
        }
        Ok(())
    }

    /// A delivery of the link is decided, if one is not yet.
    #[tactic(auto, using(crate::proofs::Histories::nothing_to_decide))]
    fn decide(&mut self, link: u64)
        ensures { CountsOneMore self.old self.new (Decided link) }
    {
        if self.undecided(link) > 0 {
            self.decided(link);
        }
    }
}

/// What the links of consumers come to, to which this happened, the oldest first.
///
/// # Errors
///
/// Where memory is refused.
pub fn table_after(alloc: Global, events: &[AddressEvent<'_>]) -> Result<Table, AllocError>
    ensures { IfOk result (λ table. IsCount table (events_of events.now)) }
{
    let mut table = Table::new(alloc);
    for event in events {
        table.count(*event)?;
    }
    Ok(table)
}
