//! A consumer's link, as picks see it.

ghost use Rattle.std.specs.Prelude.{◌≡◌, ◌-◌, ◌<◌, ◌^◌, Some, IfOk};
ghost use Rattle.flow_counts.specs.Picks as picks;
ghost use Rattle.flow_counts.specs.Picks.{attached};
ghost use Rattle.address_table.specs.Picking.{rank_of};

use capture_form::Distribution;
use std::alloc::{AllocError, Global};
use std::marker::Model;

/// A consumer's link: its address, whether it is pre-settled, the record number of the transfer that began its last
/// delivery, and how many of its deliveries are not decided (of a pre-settled link none).
#[doc(hidden)]
#[derive(Drop)]
pub struct Consumer {
    address: String,
    pre_settled: bool,
    last_begun: Option<u64>,
    undecided: u64,
}

impl Model for Consumer {
    ghost use Rattle.std.specs.String.{string_bytes};
    ghost use Rattle.flow_counts.specs.Picks.{Consumer as ConsumerValue};

    ghost Value = { ConsumerValue };

    ghost view = { λ c. record {
      address = string_bytes c.address;
      is_pre_settled = c.pre_settled;
      last_begun = c.last_begun;
      undecided = c.undecided;
    } };
}

impl Consumer {
    /// A link as it is attached.
    pub(crate) fn new(
        alloc: Global,
        address: &str,
        pre_settled: bool,
    ) -> Result<Consumer, AllocError>
        ensures { IfOk result (λ consumer. consumer ≡ attached address.now pre_settled) }
    {
        Ok(Consumer {
            address: String::from_str(alloc, address)?,
            pre_settled,
            last_begun: None,
            undecided: 0,
        })
    }

    /// A delivery begins with the transfer of this record number.
    pub(crate) fn begun(&mut self, number: u64)
        requires { self.old.undecided < 2 ^ 64 - 1 }
        ensures { self.new ≡ picks.begun number self.old }
    {
        self.last_begun = Some(number);
        if !self.pre_settled {
            self.undecided += 1;
        }
    }

    /// One of its deliveries is decided.
    pub(crate) fn decided(&mut self)
        ensures { self.new ≡ picks.decided self.old }
    {
        self.undecided = self.undecided.saturating_sub(1);
    }

    /// Its address.
    pub(crate) fn address(&self) -> &str
        ensures { result.now ≡ self.now.address }
    {
        self.address.as_str()
    }

    /// How many of its deliveries are not decided.
    pub(crate) fn undecided(&self) -> u64
        ensures { result ≡ self.now.undecided }
    {
        self.undecided
    }

    /// How late the link comes: that of the least rank is picked. For closest it is one above a record number, so that a
    /// link on which none began is before all; hence the `u128`.
    pub(crate) fn rank(&self, distribution: Distribution) -> u128
        ensures { result ≡ rank_of distribution (Some self.now) }
    {
        match distribution {
            Distribution::Closest => self.last_begun.map_or(0, |number| u128::from(number) + 1),
            Distribution::Balanced => u128::from(self.undecided),
            Distribution::Multicast => 0,
        }
    }
}
