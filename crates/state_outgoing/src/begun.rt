//! Which deliveries to clients began last on each link, and which carry the same delivery from a client.

ghost use Rattle.std.specs.Prelude.{◌≡◌, ℕ, ◌&&◌, [], ◌∷◌, None, OnOk, nat_eq, slice_get, ◌==◌, if◌then◌else◌};
ghost use Rattle.indexmap.specs.IndexMap.{get};
ghost use Rattle.state_outgoing.specs.Carriers.{listed, carriers_in};
ghost use Rattle.state_outgoing.specs.LastBegun.{on_link_next, carriers_next};
ghost use Rattle.state_outgoing.specs.SentTables.{AreBegun};
ghost use Rattle.trace_events.specs.Words.{is_number};
ghost use Rattle.trace_events.specs.View.{event_view};

use crate::carriers::Carriers;
use number_map::NumberMap;
use pairing_cert::Note;
use std::alloc::{AllocError, Global};
use trace_events::Event;

/// The numbers of the deliveries that began last, by the number of their link; and of all that began, by the number of the
/// delivery from a client that their note names. Of what carries a delivery that was let go there is neither.
#[doc(hidden)]
#[derive(Drop)]
pub struct LastNumbers {
    alloc: Global,
    pub(crate) on_link: NumberMap<u64, u64>,
    pub(crate) carriers: NumberMap<u64, Carriers>,
}

impl LastNumbers {
    /// No records.
    pub(crate) fn new(alloc: Global) -> LastNumbers
        ensures { AreBegun [] result [] }
    {
        LastNumbers {
            alloc,
            on_link: NumberMap::new(alloc),
            carriers: NumberMap::new(alloc),
        }
    }

    /// The event follows those so far.
    ///
    /// # Errors
    ///
    /// Memory was refused, for a delivery that the event begins; then it may stand under its link alone.
    pub(crate) fn take(&mut self, event: &Event) -> Result<(), AllocError>
        ensures on_link { OnOk result ((n : ℕ) → get nat_eq self.new.on_link n ≡ on_link_next (event_view event.now) n (get nat_eq self.old.on_link n)) }
        ensures carriers { OnOk result ((n : ℕ) → carriers_in self.new n ≡ carriers_next (event_view event.now) n (carriers_in self.old n)) }
    {
        let Some(delivery) = event.outgoing_begun() else {
            return Ok(());
        };
        self.on_link.insert(delivery.link.number, event.number)?;
        if let Note::Pair(carried) = delivery.note {
            self.carry(carried, event.number)?;
        }
        Ok(())
    }

    /// The delivery to a client of the second number carries the one from a client of the first, and began last.
    ///
    /// # Errors
    ///
    /// Memory was refused; then it is not among those that carry it.
    fn carry(&mut self, carried: u64, number: u64) -> Result<(), AllocError>
        ensures carriers { OnOk result ((n : ℕ) → carriers_in self.new n ≡ (if carried == n then number ∷ carriers_in self.old n else carriers_in self.old n)) }
        ensures on_link { self.new.on_link ≡ self.old.on_link }
    {
        let Some(carriers) = self.carriers.get_mut(&carried) else {
            return self.carry_first(carried, number);
        };
        carriers.push(number)
    }

    /// The same, where it alone carries it.
    ///
    /// # Errors
    ///
    /// Memory was refused; then it is not among those that carry it.
    fn carry_first(&mut self, carried: u64, number: u64) -> Result<(), AllocError>
        ensures carriers { OnOk result ((n : ℕ) → carriers_in self.new n ≡ (if carried == n then number ∷ [] else carriers_in self.old n)) }
        ensures on_link { self.new.on_link ≡ self.old.on_link }
    {
        self.carriers
            .insert(carried, Carriers::new(self.alloc, number))?;
        Ok(())
    }

    /// The delivery of this number is the last on the link.
    pub(crate) fn is_last(&self, link: u64, number: u64) -> bool
        ensures { result ≡ is_number (get nat_eq self.now.on_link link) number }
    {
        match self.on_link.get(&link) {
            Some(last) => *last == number,
            None => false,
        }
    }

    /// The delivery of this number is the last on the link no more, if it was.
    pub(crate) fn leave_link(&mut self, link: u64, number: u64)
        ensures on_link { (n : ℕ) → get nat_eq self.new.on_link n
            ≡ (if (link == n) && is_number (get nat_eq self.old.on_link n) number then None else get nat_eq self.old.on_link n) }
        ensures carriers { self.new.carriers ≡ self.old.carriers }
    {
        if self.is_last(link, number) {
            self.on_link.swap_remove(&link);
        }
    }

    /// The number of the last one that carries the delivery from a client of this number.
    pub(crate) fn carrier_of(&self, number: u64) -> Option<u64>
        ensures { result ≡ slice_get (carriers_in self.now number) 0 }
    {
        match self.carriers.get(&number) {
            Some(carriers) => Some(carriers.last),
            None => None,
        }
    }

    /// The delivery from a client of this number is let go. It gives those that carry it, which stand here no more.
    pub(crate) fn let_go(&mut self, number: u64) -> Option<Carriers>
        ensures given { listed result ≡ carriers_in self.old number }
        ensures carriers { (n : ℕ) → carriers_in self.new n ≡ (if number == n then [] else carriers_in self.old n) }
        ensures on_link { self.new.on_link ≡ self.old.on_link }
    {
        self.carriers.swap_remove(&number)
    }
}
