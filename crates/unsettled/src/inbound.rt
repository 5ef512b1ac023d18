//! The deliveries that come in from a client.

ghost use Rattle.std.specs.Prelude.{◌≡◌, ◌↔◌, [], length, IsTrue, IsSome, IfSome, None, IfErr, OnOk, OnErr};
ghost use Rattle.std.specs.Result.{result_err};
ghost use Rattle.flow_counts.specs.Parts.{Part, Aborted, Completed, Freed};
ghost use Rattle.unsettled.specs.Cuts.{octets_of, AreFilled};
ghost use Rattle.unsettled.specs.Refusals.{admission, part_fault, IsAnswer};

use crate::fault::PartFault;
use crate::partial::Partial;
use bytes::Bytes;
use indexmap::{IndexMap, IndexSet};
use std::alloc::Global;

/// The deliveries of one session that are in progress, by their links, and the delivery-ids of the session that are in
/// use: an id is in use from the first part of its delivery until it is freed, or the delivery is aborted. A link is
/// named by any number that no other link of the session has.
#[derive(Drop)]
pub struct Inbound {
    alloc: Global,
    deliveries: IndexMap<u64, Partial>,
    ids: IndexSet<u32>,
}

impl Inbound {
    ghost use Rattle.unsettled.specs.Deliveries.{partial_on, is_taken, IsCount, CountsOneMore, IsSame, Begins};

    /// A session without deliveries. It takes no memory.
    pub fn new(alloc: Global) -> Inbound
        ensures { IsCount result [] }
    {
        Inbound {
            alloc,
            deliveries: IndexMap::new(alloc),
            ids: IndexSet::new(alloc),
        }
    }

    /// Whether a delivery is in progress on the link.
    pub fn is_in_progress(&self, link: u64) -> bool
        ensures { IsTrue result ↔ IsSome (partial_on self.now link) }
    {
        self.deliveries.contains_key(&link)
    }

    /// Whether a transfer on the link may have this delivery-id: `NoId` where it begins a delivery without one,
    /// `IdInUse` where it begins one with an id in use, `IdChanged` where it goes on with a delivery of another id. It
    /// takes no memory.
    pub fn admits(&self, link: u64, id: Option<u32>) -> Result<(), PartFault>
        ensures { result_err result ≡ admission (partial_on self.now link) (is_taken self.now) id }
    {
        match (self.deliveries.get(&link), id) {
            (None, None) => Err(PartFault::NoId),
            (None, Some(id)) if self.ids.contains(&id) => Err(PartFault::IdInUse),
            (Some(delivery), Some(id)) if !delivery.has_id(id) => Err(PartFault::IdChanged),
            _ => Ok(()),
        }
    }

    /// A transfer on the link begins a delivery, whose record number is given, or goes on with the one in progress, for
    /// which the number does not count. The payload is kept as it is, without a copy, and with it the memory of which it
    /// is a cut; one without octets is not kept. The faults are tested in the order of `admits`, then `TooLarge`, then
    /// `Memory`. After a fault nothing has changed, and the payload is given up.
    pub fn part(
        &mut self,
        link: u64,
        number: u64,
        id: Option<u32>,
        payload: Bytes,
    ) -> Result<(), PartFault>
        ensures answer { IsAnswer (part_fault (partial_on self.old link) (is_taken self.old) id payload) result }
        ensures counted { OnOk result (CountsOneMore self.old self.new (Part link number id payload)) }
        ensures unchanged { OnErr result (IsSame self.old self.new) }
    {
        self.admits(link, id)?;
        match (self.deliveries.get_mut(&link), id) {
            (Some(delivery), _) => delivery.join(payload),
            (None, Some(id)) => self.begin(link, Partial::begin(self.alloc, number, id, payload)?),
            (None, None) => Err(PartFault::NoId),
        }
    }

    /// A delivery begins on the link, on which none is in progress, with an id that is not in use.
    fn begin(&mut self, link: u64, delivery: Partial) -> Result<(), PartFault>
        requires none { partial_on self.old link ≡ None }
        ensures refused { IfErr result (λ fault. fault ≡ PartFault.Memory) }
        ensures begun { OnOk result (Begins self.old self.new link delivery) }
        ensures unchanged { OnErr result (IsSame self.old self.new) }
    {
        self.deliveries.reserve(1)?;
        self.ids.insert(delivery.id())?;
        // The room is reserved.
        let _ = self.deliveries.insert(link, delivery).unwrap();
        Ok(())
    }

    /// The delivery in progress on the link is aborted, and its delivery-id is free. Without one nothing changes.
    pub fn abort(&mut self, link: u64)
        ensures { CountsOneMore self.old self.new (Aborted link) }
    {
        if let Some(delivery) = self.deliveries.swap_remove(&link) {
            self.ids.swap_remove(&delivery.id());
        }
    }

    /// The last part of the delivery in progress on the link has come: its record number, and its payload as the cuts in
    /// which it came, the oldest first, neither joined nor copied. Its delivery-id stays in use.
    pub fn complete(&mut self, link: u64) -> (u64, Vec<Bytes>)
        // `is_in_progress` tells.
        requires { IsSome (partial_on self.old link) }
        ensures number { IfSome (partial_on self.old link) (λ partial. result.0 ≡ partial.number) }
        ensures counted { CountsOneMore self.old self.new (Completed link) }
        // The cuts, joined in their order, are the delivery's payload.
        ensures payload { IfSome (partial_on self.old link) (λ partial. octets_of result.1.items ≡ partial.payload) }
        // No cut is empty, however many parts without octets came.
        ensures filled { AreFilled result.1.items }
    {
        self.deliveries.swap_remove(&link).unwrap().into_parts()
    }

    /// The delivery of this id is decided, so another one may have the id.
    pub fn freed(&mut self, id: u32)
        ensures { CountsOneMore self.old self.new (Freed id) }
    {
        self.ids.swap_remove(&id);
    }
}
