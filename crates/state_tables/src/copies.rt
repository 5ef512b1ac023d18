//! The copies of multicast deliveries that are still to be sent, by the link.

ghost use Rattle.std.specs.Prelude.{◌≡◌, ◌≤◌, ◌-◌, ◌||◌, ◌&&◌, ◌==◌, ℕ, List, [], ◌∷◌, Some, true, false, IfOk, IfSome, OnOk, OnErr, is_some, length, map, nat_eq, nat_lt, not, option_map};
ghost use Rattle.std.specs.List.{IsDistinct, list_any};
ghost use Rattle.capture_form.specs.Rules.{RuleSet};
ghost use Rattle.capture_form.specs.declared.records.Record.{Record};
ghost use Rattle.number_groups.specs.Groups.{numbers};
ghost use Rattle.number_groups.specs.Numbers.{is_among};
ghost use Rattle.trace_events.specs.Due as due;
ghost use Rattle.trace_events.specs.History.{history};
ghost use Rattle.trace_events.specs.Incoming as received;
ghost use Rattle.trace_events.specs.Incoming.{incoming_at};
ghost use Rattle.trace_events.specs.Link.{IsLiveLink};
ghost use Rattle.trace_events.specs.Words.{is_some_and};
ghost use Rattle.trace_events.specs.View.{event_view, incoming_view, link_view};
ghost use Rattle.state_tables.specs.Connections.{IsLawfulNext};
ghost use Rattle.state_tables.specs.EndedLinks.{AreEnded, views};
ghost use Rattle.state_tables.specs.Addressed.{IsAddressed};
ghost use Rattle.state_tables.specs.ConsumerLinks.{has_link};
ghost use Rattle.state_tables.specs.Copies.{AreCopies, AreCounted, AreDue, AreReceivers, comes_to, copied_by, has_room, names_at, stands};

use capture_form::RuleSet;
use number_groups::Groups;
use pairing_cert::Note;
use std::alloc::{AllocError, Global};
use trace_events::{Event, Incoming, Link, has_multicast};

/// A live link of a consumer of the address, with its credit.
#[derive(Clone, Copy)]
pub struct Receiver {
    /// The link's number.
    pub link: u64,
    /// How many deliveries may still begin on it.
    pub credit: u32,
}

/// The copies of multicast deliveries that are still to be sent, by the link.
pub struct Copies {
    /// By the number of the link the numbers of the deliveries.
    unsent: Groups<u64>,
}

// Written out, and not derived, so that where one is let go the prover need not go through all that it owns.
impl Drop for Copies {
    fn drop(self) {
        let Copies { unsent: _ } = self;
    }
}

/// The delivery that the event completes, where the address that it is for is of multicast.
pub(crate) fn copied<'a>(
    rules: &RuleSet,
    event: &Event<'a, '_, '_>,
    address: &[u8],
) -> Option<Incoming<'a>>
    ensures { option_map incoming_view result ≡ copied_by rules.now address.now (event_view event.now) }
{
    match event.completed_by() {
        Some(delivery) if has_multicast(rules, address) => Some(delivery),
        _ => None,
    }
}

/// The link on which a transfer to a client names a delivery, and that delivery, by their numbers. `None` of any other event.
pub fn named_on_link(event: &Event) -> Option<(u64, u64)>
    ensures names { (link n : ℕ) → is_some_and result (λ x. x.0 == link && (x.1 == n)) ≡ names_at link n (event_view event.now) }
    ensures on { IfSome result (λ x. is_some_and (event_view event.now).link (λ l. l.number == x.0) ≡ true) }
{
    let Note::Pair(number) = event.note else {
        return None;
    };
    match event.link {
        Some(link) if event.out_transfer().is_some() => Some((link.number, number)),
        _ => None,
    }
}

impl Copies {
    /// No records.
    pub fn new(alloc: Global) -> Copies
        ensures { (rules : RuleSet) → AreCopies rules result [] }
    {
        Copies {
            unsent: Groups::new(alloc),
        }
    }

    /// The event follows those so far. These links live before it and end with it; what it completes is for this address, of
    /// which these are the live links of consumers, with their credit before it.
    ///
    /// # Errors
    ///
    /// Memory was refused, for an event that completes a delivery of multicast; then the table may agree with no records any
    /// more.
    pub fn take(
        &mut self,
        rules: &RuleSet,
        event: &Event,
        address: &[u8],
        ended: &[Link],
        receivers: &[Receiver],
    ) -> Result<(), AllocError>
        ensures kept { OnOk result ((records : List Record) (r : Record) → IsLawfulNext rules.now records r (event_view event.now) →
            AreCopies rules.now self.old (history rules.now records) →
            AreEnded (event_view event.now) (history rules.now records) (views ended.now) →
            IsAddressed (event_view event.now) (history rules.now records) address.now →
            AreReceivers rules.now address.now (event_view event.now) (history rules.now records) receivers.now →
            AreCopies rules.now self.new (event_view event.now ∷ history rules.now records)) }
        ensures refused { OnErr result (is_some (copied_by rules.now address.now (event_view event.now)) ≡ true) }
    {
        self.come(rules, event, address, receivers)?;
        self.send(event);
        self.end(ended);
        Ok(())
    }

    /// The links to which a copy of what the event completes comes due, by their numbers: of the receivers, which are those
    /// that the event is taken with, the ones that have room. The table has the records before the event.
    ///
    /// # Errors
    ///
    /// Memory was refused, for an event that completes a delivery of multicast.
    pub fn due_to(
        &self,
        alloc: Global,
        rules: &RuleSet,
        event: &Event,
        address: &[u8],
        receivers: &[Receiver],
    ) -> Result<Vec<u64>, AllocError>
        ensures known { IfOk result (λ due. (records : List Record) (r : Record) → IsLawfulNext rules.now records r (event_view event.now) →
            AreCopies rules.now self.now (history rules.now records) →
            IsAddressed (event_view event.now) (history rules.now records) address.now →
            AreReceivers rules.now address.now (event_view event.now) (history rules.now records) receivers.now →
            AreDue rules.now (event_view event.now) (history rules.now records) due.items) }
        ensures refused { OnErr result (is_some (copied_by rules.now address.now (event_view event.now)) ≡ true) }
    {
        match copied(rules, event, address) {
            Some(_) => self.with_room(alloc, receivers),
            None => Ok(Vec::new(alloc)),
        }
    }

    /// The links of those receivers that have more credit than copies that are to be sent.
    fn with_room(&self, alloc: Global, receivers: &[Receiver]) -> Result<Vec<u64>, AllocError>
        ensures { IfOk result (λ due. (counts : ℕ → ℕ) → AreCounted self.now counts → (link : ℕ) →
            list_any (λ m. m == link) due.items ≡ has_room receivers.now link (counts link)) }
    {
        let mut due = Vec::with_capacity(alloc, receivers.len())?;
        for receiver in receivers {
            if self.has_room(receiver) {
                due.push(receiver.link)?;
            }
        }
        Ok(due)
    }

    /// Copies of what the event completes come due to these receivers.
    fn come(
        &mut self,
        rules: &RuleSet,
        event: &Event,
        address: &[u8],
        receivers: &[Receiver],
    ) -> Result<(), AllocError>
        ensures came { OnOk result ((counts : ℕ → ℕ) → AreCounted self.old counts → (link n : ℕ) →
            stands self.new link n ≡ (comes_to rules.now address.now (event_view event.now) receivers.now (counts link) link n || stands self.old link n)) }
        ensures refused { OnErr result (is_some (copied_by rules.now address.now (event_view event.now)) ≡ true) }
    {
        if let Some(delivery) = copied(rules, event, address) {
            self.add(delivery.number, receivers)?;
        }
        Ok(())
    }

    /// A copy of the delivery of this number is due to each receiver with more credit than copies that are to be sent.
    fn add(&mut self, number: u64, receivers: &[Receiver]) -> Result<(), AllocError>
        ensures { OnOk result ((counts : ℕ → ℕ) → AreCounted self.old counts → (link n : ℕ) →
            stands self.new link n ≡ (n == number && has_room receivers.now link (counts link) || stands self.old link n)) }
    {
        for receiver in receivers {
            if self.has_room(receiver) {
                self.unsent.insert(receiver.link, number)?;
            }
        }
        Ok(())
    }

    /// The receiver has more credit than copies that are to be sent.
    fn has_room(&self, receiver: &Receiver) -> bool
        ensures { (count : ℕ) → ((ns : List ℕ) → IsDistinct nat_eq ns → ((n : ℕ) → is_among ns n ≡ stands self.now receiver.now.link n) → length ns ≡ count) →
            result ≡ nat_lt count receiver.now.credit }
    {
        self.unsent.count(&receiver.link) < receiver.credit as usize
    }

    /// What the event names on its link is sent.
    fn send(&mut self, event: &Event)
        ensures { (link n : ℕ) → stands self.new link n ≡ (stands self.old link n && not (names_at link n (event_view event.now))) }
    {
        if let Some((link, number)) = named_on_link(event) {
            self.unsent.remove(&link, number);
        }
    }

    /// Nothing is to be sent on these links any more.
    fn end(&mut self, ended: &[Link])
        ensures { (link n : ℕ) → stands self.new link n ≡ (stands self.old link n && not (has_link (views ended.now) link)) }
    {
        for link in ended {
            self.clear(link.number);
        }
    }

    /// Nothing is to be sent on the link of this number any more.
    fn clear(&mut self, link: u64)
        ensures { (at n : ℕ) → stands self.new at n ≡ (stands self.old at n && not (link == at)) }
    {
        let mut left = self.unsent.count(&link);
        while left > 0 {
            left = self.drop_one(link);
        }
    }

    /// Of the copies that are to be sent on the link one goes, if there is one; how many are left.
    fn drop_one(&mut self, link: u64) -> usize
        ensures others { (at n : ℕ) → (link == at) ≡ false → stands self.new at n ≡ stands self.old at n }
        ensures left { result ≡ length (numbers nat_eq self.new.unsent link) }
        ensures fewer { result ≤ length (numbers nat_eq self.old.unsent link) - 1 }
    {
        if let Some(number) = self.unsent.first(&link) {
            self.unsent.remove(&link, number);
        }
        self.unsent.count(&link)
    }

    /// A copy of a multicast delivery is due to the live link, and not sent.
    pub fn has_unsent(&self, link: &Link) -> bool
        ensures { (rules : RuleSet) (records : List Record) → AreCopies rules self.now (history rules records) →
            IsLiveLink (link_view link.now) (history rules records) →
            result ≡ due.has_unsent rules (link_view link.now) (history rules records) }
    {
        !self.unsent.is_empty(&link.number)
    }

    /// A copy of the delivery, which is one of the capture, is due to the live link, and not sent.
    pub fn is_unsent(&self, delivery: &Incoming, link: &Link) -> bool
        ensures { (rules : RuleSet) (records : List Record) → AreCopies rules self.now (history rules records) →
            IsLiveLink (link_view link.now) (history rules records) →
            incoming_at (incoming_view delivery.now).number (history rules records) ≡ Some (incoming_view delivery.now) →
            result ≡ due.is_unsent rules (incoming_view delivery.now) (link_view link.now) (history rules records) }
    {
        self.unsent.has(&link.number, delivery.number)
    }
}
