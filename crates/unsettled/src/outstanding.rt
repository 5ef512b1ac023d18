//! The deliveries that were sent to a client and of which its dispositions may still speak.

ghost use Rattle.std.specs.Prelude.{◌≡◌, [], OnOk, OnErr};
ghost use Rattle.flow_counts.specs.Covers as counts;
ghost use Rattle.flow_counts.specs.Covers.{outstanding};
ghost use Rattle.flow_counts.specs.declared.events.SentEvent.TheVariants.{Added, Removed};
ghost use Rattle.unsettled.specs.Sent.{CountsOneMore};

use std::alloc::{AllocError, Global};
use std::collections::BTreeMap;
use std::collections::btree_map::Iter;
use std::marker::Model;

/// The deliveries of one session, by the record numbers of their first transfers, each with its delivery-id.
#[derive(Drop)]
pub struct Outstanding {
    ids: BTreeMap<u64, u32>,
}

impl Model for Outstanding {
    ghost use Rattle.std.specs.Prelude.{ℕ, List};

    ghost Value = { List (ℕ × ℕ) };

    ghost view = { λ o. o.ids.entries };
}

impl Outstanding {
    /// No deliveries. It takes no memory.
    pub fn new(alloc: Global) -> Outstanding
        ensures { result ≡ outstanding [] }
    {
        Outstanding {
            ids: BTreeMap::new(alloc),
        }
    }

    /// A delivery begins with the transfer of this record number, and has this delivery-id. Where memory is refused,
    /// nothing changes.
    pub fn add(&mut self, number: u64, id: u32) -> Result<(), AllocError>
        ensures counted { OnOk result (CountsOneMore self.old self.new (Added number id)) }
        ensures unchanged { OnErr result (self.new ≡ self.old) }
    {
        self.ids.insert(number, id)?;
        Ok(())
    }

    /// The delivery is over: no disposition speaks of it any more.
    pub fn remove(&mut self, number: u64)
        ensures { CountsOneMore self.old self.new (Removed number) }
    {
        self.ids.remove(&number);
    }

    /// The record numbers and delivery-ids of the deliveries of which a disposition from `first` to `last` speaks, in the
    /// order of the record numbers. Both ids are included, and count as serial numbers: a last one that stands before the
    /// first covers none. To go over them takes time linear in the deliveries that are kept, and no memory.
    pub fn cover(&self, first: u32, last: u32) -> Covered<'_>
        ensures { result ≡ counts.covered first last self.now }
    {
        Covered {
            entries: self.ids.iter(),
            first,
            last,
        }
    }
}

/// Those of the deliveries that are left to go over of which a disposition speaks.
#[derive(Drop)]
pub struct Covered<'a> {
    entries: Iter<'a, u64, u32>,
    first: u32,
    last: u32,
}

impl<'a> Model for Covered<'a> {
    ghost use Rattle.std.specs.Prelude.{ℕ, List};
    ghost use Rattle.flow_counts.specs.Covers.{covered};

    ghost Value = { List (ℕ × ℕ) };

    ghost view = { λ c. covered c.first c.last c.entries };
}

impl<'a> Iterator for Covered<'a> {
    ghost use Rattle.std.specs.Iterator.{YieldsFirst, item_count};

    type Item = (u64, u32);

    ghost next_gives = { YieldsFirst (λ left. left) };

    ghost remaining = { item_count (λ left. left) };

    fn next(&mut self) -> Option<(u64, u32)> {
        while let Some((number, id)) = self.entries.next() {
            if is_covered(self.first, self.last, *id) {
                return Some((*number, *id));
            }
        }
        None
    }
}

/// Whether the delivery-id stands from the first up to the last, once round.
fn is_covered(first: u32, last: u32, id: u32) -> bool
    ensures { result ≡ counts.covers first last id }
{
    let span = last.wrapping_sub(first);
    span < 1 << 31 && id.wrapping_sub(first) <= span
}
