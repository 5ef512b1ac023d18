//! The anycast deliveries that wait and may begin, as work (own rules, after the message routing of the Qpid Dispatch Router).

ghost use Rattle.std.specs.Prelude.{◌≡◌, ◌+◌, ◌<◌, ◌⊎◌, ◌∷◌, ◌||◌, ℕ, List, [], Some, None, IfSome, OnOk, bytes_eq, is_none, option_map, true, if◌then◌else◌};
ghost use Rattle.capture_form.specs.Rules.{RuleSet};
ghost use Rattle.capture_form.specs.declared.records.Record.{Record};
ghost use Rattle.trace_events.specs.History.{history};
ghost use Rattle.trace_events.specs.Incoming.{address_of};
ghost use Rattle.trace_duties.specs.Quiet.{none_waits_in_vain};
ghost use Rattle.trace_events.specs.View.{Events, event_view, incoming_view};
ghost use Rattle.state_tables.specs.Addressed.{IsAddressed};
ghost use Rattle.state_tables.specs.Connections.{IsLawfulNext};
ghost use Rattle.state_incoming.specs.EntryAnswers.{Knows};
ghost use Rattle.state_answers.specs.Tables.{TellsOf};
ghost use Rattle.state_answers.specs.Effects.{AreEffects};
ghost use Rattle.due_lists.specs.Picks.{ArePicks};
ghost use Rattle.due_lists.specs.Queues.{HaveQueues};
ghost use Rattle.due_lists.specs.AddressesToTry.{count_of, is_among_first};
ghost use Rattle.due_lists.specs.Waiting.{HasWaiting, IsDueWaiting, IsEarliest, NoneBegins, earlier_of};

use crate::DueBegin;
use crate::addresses_to_try::AddressesToTry;
use crate::by_session::BySession;
use crate::picks::Picks;
use crate::queues::Queues;
use capture_form::RuleSet;
use state_answers::{EventEffects, LentTables};
use std::alloc::{AllocError, Global};
use trace_events::{Event, Incoming, Link};

/// The anycast deliveries that wait.
#[derive(Drop)]
pub struct Waiting {
    /// The link that each would go to.
    picks: Picks,
    /// Those of each address, in the order in which they were completed.
    queues: Queues,
    /// The live links of consumers.
    links: BySession,
    /// The addresses at which one may begin, and others.
    to_try: AddressesToTry,
}

impl Waiting {
    /// No records.
    pub fn new(alloc: Global) -> Waiting
        ensures { (rules : RuleSet) → HasWaiting rules result [] }
    {
        Waiting {
            picks: Picks::new(alloc),
            queues: Queues::new(alloc),
            links: BySession::new(alloc),
            to_try: AddressesToTry::new(alloc),
        }
    }

    /// The event follows, with these effects; what it completes is for this address, and `before` are the tables without it.
    ///
    /// # Errors
    ///
    /// Memory was refused; then a delivery that may begin may not be found, or another link be picked for it.
    pub fn follow(
        &mut self,
        rules: &RuleSet,
        event: &Event,
        address: &[u8],
        before: &LentTables<'_>,
        effects: &EventEffects<'_>,
    ) -> Result<(), AllocError>
        ensures { OnOk result ((records : List Record) (r : Record) → IsLawfulNext rules.now records r (event_view event.now) →
            IsAddressed (event_view event.now) (history rules.now records) address.now →
            TellsOf rules.now before.now (history rules.now records) → AreEffects (event_view event.now) (history rules.now records) effects.now →
            HasWaiting rules.now self.old (history rules.now records) →
            HasWaiting rules.now self.new (event_view event.now ∷ history rules.now records)) }
    {
        self.picks.follow(rules, event, before, effects)?;
        self.queues.follow(rules, event, address)?;
        let ended = effects.ended();
        self.to_try
            .wake(event, address, &self.links, before, ended)?;
        self.links.end(ended);
        self.links.open(event)?;
        Ok(())
    }

    /// Of the deliveries that may begin the one that was completed first. It takes time linear in the addresses to look at,
    /// and in the links of each of them; those at which none may begin go.
    pub fn first_due<'t>(
        &mut self,
        rules: &RuleSet,
        tables: &LentTables<'t>,
    ) -> Option<DueBegin<'t>>
        ensures due { IfSome result (λ due. (records : List Record) → TellsOf rules.now tables.now (history rules.now records) →
            HasWaiting rules.now self.old (history rules.now records) → IsDueWaiting rules.now due (history rules.now records)) }
        ensures earliest { IfSome result (λ due. (records : List Record) → TellsOf rules.now tables.now (history rules.now records) →
            HasWaiting rules.now self.old (history rules.now records) → IsEarliest rules.now due (history rules.now records)) }
        ensures kept { (records : List Record) → TellsOf rules.now tables.now (history rules.now records) →
            HasWaiting rules.now self.old (history rules.now records) → HasWaiting rules.now self.new (history rules.now records) }
        ensures quiet { (records : List Record) → TellsOf rules.now tables.now (history rules.now records) →
            HasWaiting rules.now self.old (history rules.now records) → result ≡ None → none_waits_in_vain rules.now (history rules.now records) ≡ true }
    {
        let mut first = None;
        let mut index = 0;
        while index < self.to_try.count() {
            if let Some(due) = self.look(index, rules, tables) {
                first = Some(earlier(first, due, tables));
                index += 1;
            }
        }
        first
    }

    /// What is due at the address of this index. Where nothing is, it goes, and the last one takes its place.
    #[inline(never)]
    fn look<'t>(
        &mut self,
        index: usize,
        rules: &RuleSet,
        tables: &LentTables<'t>,
    ) -> Option<DueBegin<'t>>
        requires within { index < count_of self.old.to_try }
        ensures due { IfSome result (λ due. (records : List Record) → TellsOf rules.now tables.now (history rules.now records) →
            HasWaiting rules.now self.old (history rules.now records) → IsDueWaiting rules.now due (history rules.now records)) }
        ensures kept { (records : List Record) → TellsOf rules.now tables.now (history rules.now records) →
            HasWaiting rules.now self.old (history rules.now records) → HasWaiting rules.now self.new (history rules.now records) }
        ensures before { (at : List ℕ) → is_among_first self.new.to_try index at ≡ is_among_first self.old.to_try index at }
        ensures here { IfSome result (λ due. (records : List Record) → TellsOf rules.now tables.now (history rules.now records) →
            HasWaiting rules.now self.old (history rules.now records) → (at : List ℕ) → is_among_first self.new.to_try (index + 1) at
            ≡ (is_among_first self.old.to_try index at || bytes_eq at (address_of (incoming_view due.delivery) (history rules.now records)))) }
        ensures count { count_of self.new.to_try + (if is_none result then 1 else 0) ≡ count_of self.old.to_try }
    {
        let address = self.to_try.get(index)?;
        if let Some(due) = due_at(address, &self.picks, &mut self.queues, rules, tables) {
            return Some(due);
        }
        self.to_try.remove(index);
        None
    }
}

/// What is due at the address: its first delivery, on the link that is picked.
fn due_at<'t>(
    address: &[u8],
    picks: &Picks,
    queues: &mut Queues,
    rules: &RuleSet,
    tables: &LentTables<'t>,
) -> Option<DueBegin<'t>>
    ensures due { IfSome result (λ due. (records : List Record) → TellsOf rules.now tables.now (history rules.now records) →
        ArePicks picks.now (history rules.now records) → HaveQueues rules.now queues.old (history rules.now records) →
        IsDueWaiting rules.now due (history rules.now records)) }
    ensures here { IfSome result (λ due. (records : List Record) → TellsOf rules.now tables.now (history rules.now records) →
        HaveQueues rules.now queues.old (history rules.now records) → address_of (incoming_view due.delivery) (history rules.now records) ≡ address.now) }
    ensures kept { (records : List Record) → TellsOf rules.now tables.now (history rules.now records) →
        HaveQueues rules.now queues.old (history rules.now records) → HaveQueues rules.now queues.new (history rules.now records) }
    ensures none { (records : List Record) → TellsOf rules.now tables.now (history rules.now records) →
        ArePicks picks.now (history rules.now records) → HaveQueues rules.now queues.old (history rules.now records) → result ≡ None →
        NoneBegins rules.now (history rules.now records) address.now }
{
    let delivery = queues.first(address, tables)?;
    let link = picks.pick(address, rules, tables)?;
    let payload = tables.deliveries.payload(&delivery);
    Some(DueBegin {
        link,
        delivery,
        payload,
    })
}

/// Of two that are due the one whose delivery was completed first.
fn earlier<'t>(
    first: Option<DueBegin<'t>>,
    other: DueBegin<'t>,
    tables: &LentTables<'t>,
) -> DueBegin<'t>
    ensures one { (first.entry ≡ Some result) ⊎ (other.entry ≡ result) }
    ensures order { (rules : RuleSet) (past : Events) → TellsOf rules tables.now past →
        IfSome first.entry (λ due. Knows tables.now.deliveries.now (incoming_view due.delivery)) →
        Knows tables.now.deliveries.now (incoming_view other.entry.delivery) → result ≡ earlier_of past first.entry other.entry }
{
    match first {
        Some(due) => {
            if tables
                .deliveries
                .completed_before(&other.delivery, &due.delivery)
            {
                other
            } else {
                due
            }
        }
        None => other,
    }
}
