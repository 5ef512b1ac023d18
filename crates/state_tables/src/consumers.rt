//! The live links of each address's consumers.

ghost use Rattle.std.specs.Prelude.{◌≡◌, ◌||◌, ◌&&◌, ◌==◌, ℕ, List, [], ◌∷◌, OnOk, OnErr, length, not, slice_get, true};
ghost use Rattle.capture_form.specs.Rules.{RuleSet};
ghost use Rattle.capture_form.specs.declared.records.Record.{Record};
ghost use Rattle.trace_events.specs.Address as law;
ghost use Rattle.trace_events.specs.History.{history, judge};
ghost use Rattle.state_tables.specs.EndedLinks.{AreEnded, views};
ghost use Rattle.state_tables.specs.Consumers.{AreConsumers, AreSame, has_link_of, is_served, numbers_at, opens_consumer, opens_for, stands};
ghost use Rattle.trace_events.specs.View.{event_view};

use crate::addresses::Addresses;
use number_groups::OctetGroups;
use std::alloc::{AllocError, Global};
use trace_events::{Event, Link};

/// By address the numbers of the live links of its consumers.
pub struct Consumers {
    groups: OctetGroups,
}

// Written out, and not derived, so that where one is let go the prover need not go through all that it owns.
impl Drop for Consumers {
    fn drop(self) {
        let Consumers { groups: _ } = self;
    }
}

impl Consumers {
    /// No records.
    pub fn new(alloc: Global) -> Consumers
        ensures { AreConsumers result [] }
    {
        Consumers {
            groups: OctetGroups::new(alloc),
        }
    }

    /// The event follows those so far, and ends these links.
    ///
    /// # Errors
    ///
    /// Memory was refused, for an attach that opens a consumer's link; then all stays as it was.
    pub fn take(&mut self, event: &Event, ended: &[Link]) -> Result<(), AllocError>
        ensures kept { OnOk result ((rules : RuleSet) (records : List Record) (r : Record) → event_view event.now ≡ judge rules (history rules records) r →
            AreEnded (event_view event.now) (history rules records) (views ended.now) → AreConsumers self.old (history rules records) →
            AreConsumers self.new (event_view event.now ∷ history rules records)) }
        ensures unchanged { OnErr result (AreSame self.old self.new) }
        ensures refused { OnErr result (opens_consumer (event_view event.now) ≡ true) }
    {
        self.open(event)?;
        self.end(ended);
        Ok(())
    }

    /// The link that the event opens stands at its address, where it is a consumer's.
    fn open(&mut self, event: &Event) -> Result<(), AllocError>
        ensures opened { OnOk result ((address : List ℕ) (n : ℕ) → stands self.new address n ≡ (opens_for address n (event_view event.now) || stands self.old address n)) }
        ensures unchanged { OnErr result (AreSame self.old self.new) }
        ensures refused { OnErr result (opens_consumer (event_view event.now) ≡ true) }
    {
        if let Some(link) = event.opened_consumer() {
            self.groups.insert(link.address, link.number)?;
        }
        Ok(())
    }

    /// The links stand nowhere any more.
    fn end(&mut self, ended: &[Link])
        ensures { (address : List ℕ) (n : ℕ) → stands self.new address n ≡ (stands self.old address n && not (has_link_of (views ended.now) address n)) }
    {
        for link in ended {
            self.groups.remove(link.address, link.number);
        }
    }

    /// The address has a consumer: a live link.
    pub fn has_consumer(&self, address: &[u8]) -> bool
        ensures stored { result ≡ is_served self.now address.now }
        ensures known { (rules : RuleSet) (records : List Record) → AreConsumers self.now (history rules records) →
            result ≡ law.has_consumer address.now (history rules records) }
    {
        !self.groups.is_empty(address)
    }

    /// How many consumers' links live at the address.
    pub fn count(&self, address: &[u8]) -> usize
        ensures stored { result ≡ length (numbers_at self.now address.now) }
        ensures known { (rules : RuleSet) (records : List Record) → AreConsumers self.now (history rules records) →
            result ≡ length (law.consumers address.now (history rules records)) }
    {
        self.groups.count(address)
    }

    /// The number at the index of those of the address, in an order that stays until one of them ends. `None` from their count
    /// on.
    pub fn get(&self, address: &[u8], index: usize) -> Option<u64>
        ensures { result ≡ slice_get (numbers_at self.now address.now) index }
    {
        self.groups.get(address, index)
    }
}

impl Addresses for Consumers {
    ghost use Rattle.state_tables.specs.Consumers.{is_served};

    ghost has_one = { λ consumers address. is_served consumers address };

    fn has_consumer(&self, address: &[u8]) -> bool {
        self.has_consumer(address)
    }
}
