//! The deliveries from clients that are kept, by the record that began each, and in groups.

ghost use Rattle.std.specs.Prelude.{◌≡◌, ◌∷◌, ◌++◌, ℕ, List, [], None, Some, IfSome, OnOk, OnErr, is_some, true, map, nat_eq, option_and_then, option_map};
ghost use Rattle.number_groups.specs.Numbers.{is_among};
ghost use Rattle.std.specs.Option.{option_copied};
ghost use Rattle.capture_form.specs.Rules.{RuleSet};
ghost use Rattle.capture_form.specs.declared.records.Record.{Record};
ghost use Rattle.trace_events.specs.Address.{has_consumer};
ghost use Rattle.trace_events.specs.History.{history};
ghost use Rattle.trace_events.specs.Incoming.{incoming_begun};
ghost use Rattle.trace_events.specs.Words.{is_some_and, or_else, where_passes};
ghost use Rattle.trace_events.specs.Clauses.{first_broken};
ghost use Rattle.state_tables.specs.Connections.{IsLawfulNext};
ghost use Rattle.state_incoming.specs.Grouped.{AreGrouped};
ghost use Rattle.state_tables.specs.Addressed.{IsAddressed};
ghost use Rattle.state_incoming.specs.Held.{address_behind, held_begun, held_next, is_begun_served};
ghost use Rattle.state_incoming.specs.HeldTables.{AreMovedBy, BeginsOrTouches, IsTable, MovesAt, count_of, held_in, number_at};
ghost use Rattle.state_incoming.specs.HeldTouched.{EndWith};
ghost use Rattle.state_incoming.specs.HeldViews.{held_view};
ghost use Rattle.state_incoming.specs.LetGo.{IsOver, is_spent};
ghost use Rattle.trace_events.specs.View.{event_view, link_view};

use crate::groups::{GroupMarks, HeldGroups};
use crate::held::{HeldDelivery, first_address};
use capture_form::RuleSet;
use http_server::Log;
use number_groups::NumberSet;
use number_map::NumberMap;
use state_tables::Addresses;
use std::alloc::{AllocError, Global};
use trace_events::{Event, Link};

/// The deliveries from clients that are kept. Of those that were let go only proofs know.
pub struct Deliveries {
    alloc: Global,
    entries: NumberMap<u64, HeldDelivery>,
    pub(crate) groups: HeldGroups,
    /// The numbers of those that were let go. They take no memory.
    let_go: Log<u64, ()>,
}

// Written out, and not derived, so that where one is let go the prover need not go through all that it owns.
impl Drop for Deliveries {
    fn drop(self) {
        let Deliveries {
            alloc: _,
            entries: _,
            groups: _,
            let_go: _,
        } = self;
    }
}

impl Deliveries {
    /// No records.
    pub fn new(alloc: Global) -> Deliveries
        ensures table { (rules : RuleSet) → IsTable rules result [] }
        ensures gone { result.let_go.items ≡ [] }
    {
        Deliveries {
            alloc,
            entries: NumberMap::new(alloc),
            groups: HeldGroups::new(alloc),
            let_go: Log::new(),
        }
    }

    /// The delivery that began in this record, if it is kept.
    pub fn get(&self, number: u64) -> Option<&HeldDelivery>
        ensures { option_map held_view (option_copied result) ≡ held_in self.now number }
    {
        self.entries.get(&number)
    }

    /// How many are kept.
    pub fn count(&self) -> usize
        ensures { result ≡ count_of self.now }
    {
        self.entries.len()
    }

    /// The number of the delivery at this place, if it is spent: of anycast, it went to a consumer, and of multicast it is
    /// complete; and nothing more is to be told of it. Places count those that are kept from 0, in any order; where one goes,
    /// the last takes its place. How long it takes doesn't depend on how many are kept.
    pub fn spent_at(&self, place: usize) -> Option<u64>
        ensures spent { IfSome result (λ n. is_some_and (held_in self.now n) is_spent ≡ true) }
        // Whoever is at the place is told, where it is spent.
        ensures stored { result ≡ where_passes (λ n. is_some_and (held_in self.now n) is_spent) (number_at self.now place) }
    {
        let found = self.entries.values().as_slice().get(place)?;
        self.spent(found.number())
    }

    /// The number, if the delivery that began in its record is kept, and spent.
    fn spent(&self, number: u64) -> Option<u64>
        ensures spent { IfSome result (λ n. is_some_and (held_in self.now n) is_spent ≡ true) }
        ensures stored { result ≡ where_passes (λ n. is_some_and (held_in self.now n) is_spent) (Some number) }
    {
        if self.get(number)?.is_spent() {
            Some(number)
        } else {
            None
        }
    }

    /// The delivery of this number is let go, since nothing can come of it any more. It takes no memory.
    pub fn let_go(&mut self, number: u64)
        ensures gone { self.new.let_go.items ≡ self.old.let_go.items ++ (number, tt) ∷ [] }
        ensures stands { (rules : RuleSet) (records : List Record) → first_broken rules (history rules records) ≡ None →
            IsTable rules self.old (history rules records) → IsOver rules number (history rules records) →
            IsTable rules self.new (history rules records) }
    {
        let _ = self.entries.swap_remove(&number);
        self.let_go = self.let_go.and(&number, &());
    }

    /// The event follows those so far. What it completes is for this address, these links live before it and end with it, and
    /// the addresses are those behind it.
    ///
    /// # Errors
    ///
    /// Memory was refused, for an event that begins a delivery or may touch one that is kept; then the table may agree with
    /// no records any more.
    pub fn take<A: Addresses>(
        &mut self,
        rules: &RuleSet,
        event: &Event,
        address: &[u8],
        ended: &[Link],
        addresses: &A,
    ) -> Result<(), AllocError>
        ensures kept { OnOk result ((records : List Record) (r : Record) → IsLawfulNext rules.now records r (event_view event.now) →
            IsTable rules.now self.old (history rules.now records) →
            IsAddressed (event_view event.now) (history rules.now records) address.now →
            ((address : List ℕ) → A.has_one addresses.now address ≡ has_consumer address (event_view event.now ∷ history rules.now records)) →
            EndWith (history rules.now records) (event_view event.now) (map link_view ended.now) →
            IsTable rules.now self.new (event_view event.now ∷ history rules.now records)) }
        ensures refused { OnErr result (BeginsOrTouches self.old (A.has_one addresses.now) (map link_view ended.now) (event_view event.now)) }
        // The event lets none go.
        ensures gone { self.new.let_go.items ≡ self.old.let_go.items }
    {
        let touched = self.groups.touched(self.alloc, addresses, ended, event)?;
        self.touch_all(touched, rules, event, address, addresses)?;
        let has_consumer = begins_served(event, address, addresses);
        self.begin(rules, event, address, has_consumer)?;
        Ok(())
    }

    /// The event begins a delivery, or none. What it completes is for this address, and `has_consumer` says whether that of
    /// the delivery has one behind the event.
    ///
    /// # Errors
    ///
    /// Memory was refused; then the groups may not fit the deliveries any more.
    fn begin(
        &mut self,
        rules: &RuleSet,
        event: &Event,
        address: &[u8],
        has_consumer: bool,
    ) -> Result<(), AllocError>
        ensures begun { OnOk result (MovesAt (event_view event.now).number
            (or_else (held_begun rules.now (event_view event.now) address.now has_consumer)) self.old self.new) }
        ensures grouped { OnOk result (AreGrouped self.old.groups (held_in self.old) → held_in self.old (event_view event.now).number ≡ None →
            AreGrouped self.new.groups (held_in self.new)) }
        ensures refused { OnErr result (is_some (incoming_begun (event_view event.now)) ≡ true) }
        ensures gone { self.new.let_go.items ≡ self.old.let_go.items }
    {
        if let Some(held) = HeldDelivery::begin(self.alloc, rules, event, address, has_consumer)? {
            let marks = GroupMarks::of(&held, true);
            self.groups.put(&held.delivery(), held.address(), GroupMarks::none(), marks)?;
            self.entries.insert(event.number, held)?;
        }
        Ok(())
    }

    /// The event touches the delivery of this number, if it is kept. What it completes is for this address, and
    /// `has_consumer` says whether that of the delivery has one behind the event.
    ///
    /// # Errors
    ///
    /// Memory was refused; then the groups may not fit the deliveries any more.
    fn touch(
        &mut self,
        number: u64,
        rules: &RuleSet,
        event: &Event,
        address: &[u8],
        has_consumer: bool,
    ) -> Result<(), AllocError>
        ensures touched { OnOk result (MovesAt number
            (option_and_then (held_next rules.now (event_view event.now) address.now has_consumer)) self.old self.new) }
        ensures grouped { OnOk result (AreGrouped self.old.groups (held_in self.old) → AreGrouped self.new.groups (held_in self.new)) }
        ensures gone { self.new.let_go.items ≡ self.old.let_go.items }
    {
        let Some(held) = self.entries.get_mut(&number) else {
            return Ok(());
        };
        let before = GroupMarks::of(held, true);
        let stays = held.take(rules, event, address, has_consumer)?;
        let marks = GroupMarks::of(held, stays);
        self.groups
            .put(&held.delivery(), held.address(), before, marks)?;
        if !stays {
            self.entries.swap_remove(&number);
        }
        Ok(())
    }

    /// The event touches each of these; what it completes is for this address.
    fn touch_all<A: Addresses>(
        &mut self,
        mut touched: NumberSet,
        rules: &RuleSet,
        event: &Event,
        address: &[u8],
        addresses: &A,
    ) -> Result<(), AllocError>
        ensures touched { OnOk result (AreMovedBy (is_among touched) rules.now (event_view event.now) address.now (A.has_one addresses.now) self.old self.new) }
        ensures grouped { OnOk result (AreGrouped self.old.groups (held_in self.old) → AreGrouped self.new.groups (held_in self.new)) }
        ensures refused { OnErr result ((n : ℕ) × (is_among touched n ≡ true)) }
        ensures gone { self.new.let_go.items ≡ self.old.let_go.items }
    {
        while let Some(number) = touched.pop() {
            let has_consumer = self.is_served(number, event, address, addresses);
            self.touch(number, rules, event, address, has_consumer)?;
        }
        Ok(())
    }

    /// The address that the delivery is for behind the event has a consumer; what that completes is for this one.
    fn is_served<A: Addresses>(
        &self,
        number: u64,
        event: &Event,
        address: &[u8],
        addresses: &A,
    ) -> bool
        ensures { result ≡ is_some_and (held_in self.now number)
            (λ x. A.has_one addresses.now (address_behind (event_view event.now) address.now x)) }
    {
        match self.entries.get(&number) {
            Some(held) => addresses.has_consumer(held.address_behind(event, address)),
            None => false,
        }
    }
}

/// The address of the delivery that the event begins has a consumer; what that completes is for this one.
fn begins_served<A: Addresses>(event: &Event, address: &[u8], addresses: &A) -> bool
    ensures { result ≡ is_begun_served (event_view event.now) address.now (A.has_one addresses.now) }
{
    match event.incoming_begun() {
        Some(delivery) => addresses.has_consumer(first_address(event, &delivery, address)),
        None => false,
    }
}
