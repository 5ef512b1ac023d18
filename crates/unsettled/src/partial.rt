//! A delivery that is being put together.

ghost use Rattle.std.specs.Prelude.{◌≡◌, ℕ, Some, None, OnOk, OnErr, IfOk};
ghost use Rattle.flow_counts.specs.Parts.{joined, is_id};
ghost use Rattle.unsettled.specs.Cuts.{octets_of, AreFilled};
ghost use Rattle.unsettled.specs.Refusals.{IsAnswer, size_fault};

use crate::fault::PartFault;
use bytes::Bytes;
use flow_counts::MAX_MESSAGE_SIZE;
use std::alloc::Global;
use std::marker::Model;

/// A delivery in progress: the record number and the delivery-id of its first transfer, and its payload so far, as the
/// cuts in which it came, without those that are empty, and how many octets these have.
#[doc(hidden)]
#[derive(Drop)]
pub struct Partial {
    number: u64,
    id: u32,
    cuts: Vec<Bytes>,
    octets: u64,
}

impl Model for Partial {
    ghost use Rattle.flow_counts.specs.Parts.{Partial as Part};
    ghost use Rattle.std.specs.Prelude.{◌≡◌, Some, length};
    ghost use Rattle.unsettled.specs.Cuts.{octets_of, AreFilled};

    ghost Value = { Part };

    ghost view = { λ p. record { number = p.number; id = Some p.id; payload = octets_of p.cuts.items } };

    ghost invariant = { λ p. (p.octets ≡ length (octets_of p.cuts.items)) × AreFilled p.cuts.items };
}

impl Partial {
    /// A delivery that begins with this part.
    pub(crate) fn begin(
        alloc: Global,
        number: u64,
        id: u32,
        payload: Bytes,
    ) -> Result<Partial, PartFault>
        ensures begun { IfOk result (λ partial. partial ≡ joined None number (Some id) payload) }
        ensures answer { IsAnswer (size_fault None payload) result }
    {
        let mut partial = Partial {
            number,
            id,
            cuts: Vec::new(alloc),
            octets: 0,
        };
        partial.join(payload)?;
        Ok(partial)
    }

    /// One part more. After a fault the delivery is as before.
    pub(crate) fn join(&mut self, payload: Bytes) -> Result<(), PartFault>
        ensures joined { OnOk result ((number : ℕ) → self.new ≡ joined (Some self.old) number None payload) }
        ensures answer { IsAnswer (size_fault (Some self.old) payload) result }
        ensures unchanged { OnErr result (self.new ≡ self.old) }
    {
        let octets = self.octets.saturating_add(payload.len() as u64);
        if octets > MAX_MESSAGE_SIZE {
            return Err(PartFault::TooLarge);
        }
        if payload.is_empty() {
            return Ok(());
        }
        self.cuts.push(payload)?;
        self.octets = octets;
        Ok(())
    }

    /// Whether its delivery-id is this one.
    pub(crate) fn has_id(&self, id: u32) -> bool
        ensures { result ≡ is_id id self.now.id }
    {
        self.id == id
    }

    /// Its delivery-id.
    pub(crate) fn id(&self) -> u32
        ensures { self.now.id ≡ Some result }
    {
        self.id
    }

    /// The record number of its first transfer, and the cuts of its payload.
    pub(crate) fn into_parts(self) -> (u64, Vec<Bytes>)
        ensures number { result.0 ≡ self.number }
        ensures payload { octets_of result.1.items ≡ self.payload }
        ensures filled { AreFilled result.1.items }
    {
        (self.number, self.cuts)
    }
}
