//! The deliveries that wait at each address, in the order in which they were completed.

ghost use Rattle.std.specs.Prelude.{◌≡◌, ◌∷◌, ◌++◌, List, [], None, Some, true, IfSome, OnOk, bytes_eq, not, option_map, slice_get, if◌then◌else◌};
ghost use Rattle.indexmap.specs.IndexMap.{get_by};
ghost use Rattle.capture_form.specs.Rules.{RuleSet};
ghost use Rattle.capture_form.specs.declared.records.Record.{Record};
ghost use Rattle.trace_events.specs.Words.{where_passes};
ghost use Rattle.trace_events.specs.Incoming as received;
ghost use Rattle.trace_events.specs.Incoming.{completed_by};
ghost use Rattle.trace_events.specs.Queue.{waiting_queue};
ghost use Rattle.trace_events.specs.Address as addresses;
ghost use Rattle.trace_events.specs.History.{history};
ghost use Rattle.trace_duties.specs.Diligent.{is_next_waiting};
ghost use Rattle.trace_events.specs.View.{event_view, incoming_view};
ghost use Rattle.state_tables.specs.Addressed.{IsAddressed};
ghost use Rattle.state_tables.specs.Connections.{IsLawfulNext};
ghost use Rattle.state_answers.specs.Tables.{TellsOf};
ghost use Rattle.due_lists.specs.Queues.{HaveQueues, IsPushed, IsShorter, queued, waits_in};

use capture_form::RuleSet;
use indexmap::IndexMap;
use state_answers::LentTables;
use state_incoming::Deliveries;
use std::alloc::{AllocError, Global};
use std::collections::VecDeque;
use trace_events::{Event, Incoming, has_multicast};

/// The numbers of the deliveries that wait at each address, the first completed first. One that waits no more stays until it
/// comes to the front and is asked for; an address goes with its last number.
#[derive(Drop)]
pub struct Queues {
    alloc: Global,
    entries: IndexMap<Vec<u8>, VecDeque<u64>>,
}

/// The delivery that the event completes, which is for this address, if it goes to one consumer.
fn completed<'a>(rules: &RuleSet, event: &Event<'a, '_, '_>, address: &[u8]) -> Option<Incoming<'a>>
    ensures { option_map incoming_view result ≡ where_passes (λ d. not (addresses.has_multicast rules.now address.now)) (completed_by (event_view event.now)) }
{
    match event.completed_by() {
        Some(delivery) if !has_multicast(rules, address) => Some(delivery),
        _ => None,
    }
}

/// The table says that the delivery of the number waits.
fn waits(deliveries: &Deliveries, number: u64) -> bool
    ensures { result ≡ waits_in deliveries.now number }
{
    match deliveries.get(number) {
        Some(own) => own.is_waiting(),
        None => false,
    }
}

/// The first number of the queue whose delivery waits; those in front of it go.
fn first_waiting(queue: &mut VecDeque<u64>, deliveries: &Deliveries) -> Option<u64>
    ensures shorter { IsShorter (waits_in deliveries.now) queue.old.items queue.new.items }
    ensures first { IfSome result (λ number. (waits_in deliveries.now number ≡ true) × (slice_get queue.new.items 0 ≡ Some number)) }
    ensures none { result ≡ None → queue.new.items ≡ [] }
{
    while let Some(&number) = queue.front() {
        if waits(deliveries, number) {
            return Some(number);
        }
        queue.pop_front();
    }
    None
}

impl Queues {
    /// No records.
    pub fn new(alloc: Global) -> Queues
        ensures { (rules : RuleSet) → HaveQueues rules result [] }
    {
        Queues {
            alloc,
            entries: IndexMap::new(alloc),
        }
    }

    /// The event follows those so far. What it completes is for this address.
    ///
    /// # Errors
    ///
    /// Memory was refused; then the queues may agree with no records any more.
    pub fn follow(
        &mut self,
        rules: &RuleSet,
        event: &Event,
        address: &[u8],
    ) -> Result<(), AllocError>
        ensures { OnOk result ((records : List Record) (r : Record) → IsLawfulNext rules.now records r (event_view event.now) →
            IsAddressed (event_view event.now) (history rules.now records) address.now →
            HaveQueues rules.now self.old (history rules.now records) →
            HaveQueues rules.now self.new (event_view event.now ∷ history rules.now records)) }
    {
        let Some(delivery) = completed(rules, event, address) else {
            return Ok(());
        };
        self.push(address, delivery.number)?;
        Ok(())
    }

    /// The number comes last at the address.
    fn push(&mut self, address: &[u8], number: u64) -> Result<(), AllocError>
        ensures { OnOk result (IsPushed address.now number self.old self.new) }
    {
        let Some(queue) = self.entries.get_mut(address) else {
            return self.push_first(address, number);
        };
        queue.push_back(number)?;
        Ok(())
    }

    /// The number is the first of the address.
    fn push_first(&mut self, address: &[u8], number: u64) -> Result<(), AllocError>
        requires new { get_by (λ kept. bytes_eq address.now kept.items) self.old.entries ≡ None }
        ensures pushed { OnOk result (IsPushed address.now number self.old self.new) }
    {
        let mut queue = VecDeque::new(self.alloc);
        queue.push_back(number)?;
        let key = address.to_vec(self.alloc)?;
        self.entries.insert(key, queue)?;
        Ok(())
    }

    /// The delivery that was completed first of those that wait at the address. Those in front of it, which wait no more, go, and
    /// the address where none is left.
    pub fn first<'t>(&mut self, address: &[u8], tables: &LentTables<'t>) -> Option<Incoming<'t>>
        ensures kept { (rules : RuleSet) (records : List Record) → TellsOf rules tables.now (history rules records) →
            HaveQueues rules self.old (history rules records) → HaveQueues rules self.new (history rules records) }
        ensures first { (rules : RuleSet) (records : List Record) → TellsOf rules tables.now (history rules records) →
            HaveQueues rules self.old (history rules records) → IfSome (option_map incoming_view result) (λ d. (received.address_of d (history rules records) ≡ address.now)
            × (received.incoming_at d.number (history rules records) ≡ Some d) × (is_next_waiting rules (history rules records) d ≡ true)) }
        ensures none { (rules : RuleSet) (records : List Record) → TellsOf rules tables.now (history rules records) →
            HaveQueues rules self.old (history rules records) → result ≡ None → waiting_queue rules address.now (history rules records) ≡ [] }
    {
        let Some(queue) = self.entries.get_mut(address) else {
            return None;
        };
        let Some(number) = first_waiting(queue, tables.deliveries) else {
            let _ = self.entries.swap_remove(address);
            return None;
        };
        tables.deliveries.kept(Some(number))
    }
}
