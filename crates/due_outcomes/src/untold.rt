//! The outcomes to tell (part 3 of the standard, section 3.4).

ghost use Rattle.std.specs.Prelude.{◌≡◌, ◌<◌, ◌∷◌, ◌||◌, ◌&&◌, ◌==◌, ℕ, not, List, [], true, false, None, IfSome, OnOk, option_map};
ghost use Rattle.std.specs.List.{list_any};
ghost use Rattle.number_groups.specs.OctetGroups as octets;
ghost use Rattle.capture_form.specs.Rules.{RuleSet};
ghost use Rattle.capture_form.specs.declared.records.Record.{Record};
ghost use Rattle.trace_duties.specs.Quiet.{none_is_untold};
ghost use Rattle.trace_events.specs.Address.{has_multicast};
ghost use Rattle.trace_events.specs.Event as events;
ghost use Rattle.trace_events.specs.History.{history};
ghost use Rattle.trace_events.specs.Incoming.{completed_by};
ghost use Rattle.trace_events.specs.Outgoing.{names, outgoing_begun};
ghost use Rattle.trace_events.specs.Words.{is_number, is_some_and};
ghost use Rattle.trace_judge.specs.Told.{told_view};
ghost use Rattle.trace_events.specs.View.{event_view, incoming_view, link_view, outgoing_view};
ghost use Rattle.state_incoming.specs.EntryAnswers.{is_shut};
ghost use Rattle.state_incoming.specs.HeldTables.{held_in};
ghost use Rattle.state_outgoing.specs.SentAnswers.{carried};
ghost use Rattle.state_outgoing.specs.SentTables.{sent_in};
ghost use Rattle.state_tables.specs.Connections.{IsLawfulNext};
ghost use Rattle.number_groups.specs.Ascending.{count_of, has};
ghost use Rattle.state_answers.specs.Tables.{TellsOf};
ghost use Rattle.state_answers.specs.Effects.{AreEffects};
ghost use Rattle.due_outcomes.specs.DueOutcomes.{IsDueOutcome};
ghost use Rattle.due_outcomes.specs.Untold.{HasUntold, IsOn, KeepsOn, has_lasting_consumer, is_lasting, is_left};

use crate::outcome::{DueOutcome, outcome_of};
use capture_form::RuleSet;
use number_groups::{Ascending, Groups, OctetGroups};
use pairing_cert::Note;
use state_answers::{EventEffects, LentTables, add, add_octet_group, add_of_links};
use state_incoming::HeldDelivery;
use state_outgoing::SentDeliveries;
use std::alloc::{AllocError, Global};
use trace_events::{Event, Link, Outgoing, has_multicast};
use trace_judge::Outcomes;

/// The outcomes to tell.
#[derive(Drop)]
pub struct Untold {
    candidates: Ascending,
    /// Those of anycast that went to a consumer, by the number of the link that they went over.
    carried: Groups<u64>,
}

/// The link of this number is a consumer's of the address, and lives on behind the event.
fn is_lasting(before: &LentTables<'_>, event: &Event, address: &[u8], number: Option<u64>) -> bool
    ensures { result ≡ is_lasting before.now.consumer_links.now (event_view event.now) address.now number }
{
    let Some(number) = number else {
        return false;
    };
    match before.consumer_links.get(number) {
        Some(link) => link.address == address && !event.ends_link(&link),
        None => false,
    }
}

/// The address keeps a consumer: one of its first two lives on behind the event. Where it ends both, others may stay.
fn has_lasting_consumer(before: &LentTables<'_>, event: &Event, address: &[u8]) -> bool
    ensures { result ≡ has_lasting_consumer before.now.consumers.now before.now.consumer_links.now (event_view event.now) address.now }
{
    is_lasting(before, event, address, before.consumers.get(address, 0))
        || is_lasting(before, event, address, before.consumers.get(address, 1))
}

/// What waits at the address of a consumer's link becomes a candidate, unless it keeps a consumer.
fn add_left(
    candidates: &mut Ascending,
    groups: &OctetGroups,
    before: &LentTables<'_>,
    event: &Event,
    link: &Link,
) -> Result<(), AllocError>
    ensures { OnOk result ((n : ℕ) → has candidates.new n
        ≡ (has candidates.old n || is_left before.now.consumers.now before.now.consumer_links.now (event_view event.now) (link_view link.now)
        && octets.is_member groups.now (link_view link.now).address n)) }
{
    if link.is_consumer() && !has_lasting_consumer(before, event, link.address) {
        add_octet_group(candidates, groups, link.address)?;
    }
    Ok(())
}

/// What waits at the addresses of these links becomes a candidate, where it may have no consumer any more.
fn add_waiting(
    candidates: &mut Ascending,
    groups: &OctetGroups,
    before: &LentTables<'_>,
    event: &Event,
    ended: &[Link],
) -> Result<(), AllocError>
    ensures { OnOk result ((n : ℕ) → has candidates.new n
        ≡ (has candidates.old n || list_any (λ l. is_left before.now.consumers.now before.now.consumer_links.now (event_view event.now) (link_view l)
        && octets.is_member groups.now (link_view l).address n) ended.now)) }
{
    for link in ended {
        add_left(candidates, groups, before, event, link)?;
    }
    Ok(())
}

/// What the deliveries of these numbers carry becomes a candidate.
fn add_carried(
    candidates: &mut Ascending,
    sent: &SentDeliveries,
    numbers: &[u64],
) -> Result<(), AllocError>
    ensures { OnOk result ((n : ℕ) → has candidates.new n
        ≡ (has candidates.old n || list_any (λ m. is_number (carried (sent_in sent.now m)) n) numbers.now)) }
{
    for number in numbers {
        add(candidates, sent.carried_by(Some(*number)))?;
    }
    Ok(())
}

/// The number of the delivery from a client that the event completes.
fn completed_number(event: &Event) -> Option<u64>
    ensures { (n : ℕ) → is_number result n ≡ is_some_and (completed_by (event_view event.now)) (λ d. d.number == n) }
{
    match event.completed_by() {
        Some(delivery) => Some(delivery.number),
        None => None,
    }
}

/// The number stands under the link of the delivery that carries it.
fn put_under(carried: &mut Groups<u64>, carrier: &Outgoing, number: u64) -> Result<(), AllocError>
    ensures under { OnOk result (IsOn carried.new (outgoing_view carrier.now) number) }
    ensures kept { OnOk result (KeepsOn carried.old carried.new) }
{
    carried.insert(carrier.link.number, number)?;
    Ok(())
}

/// It stands there no more.
fn remove_under(carried: &mut Groups<u64>, carrier: &Outgoing, number: u64)
    ensures { (j : events.Outgoing) (n : ℕ) → (number == n) ≡ false → IsOn carried.old j n → IsOn carried.new j n }
{
    carried.remove(&carrier.link.number, number);
}

impl Untold {
    /// No records.
    pub fn new(alloc: Global) -> Untold
        ensures { (rules : RuleSet) → HasUntold rules result [] }
    {
        Untold {
            candidates: Ascending::new(alloc),
            carried: Groups::new(alloc),
        }
    }

    /// The event follows, with these effects; `before` are the tables without it. It takes the time of the deliveries of which a
    /// consumer speaks with it, of those that went over the links that it ends or have a copy due there, and of those that wait at
    /// the addresses of these, where it ends both the first two of its consumers or there are no more.
    ///
    /// # Errors
    ///
    /// Memory was refused; then the list may agree with no records any more.
    pub fn follow(
        &mut self,
        rules: &RuleSet,
        event: &Event,
        before: &LentTables<'_>,
        effects: &EventEffects<'_>,
    ) -> Result<(), AllocError>
        ensures { OnOk result ((records : List Record) (r : Record) → IsLawfulNext rules.now records r (event_view event.now) →
            TellsOf rules.now before.now (history rules.now records) → AreEffects (event_view event.now) (history rules.now records) effects.now →
            HasUntold rules.now self.old (history rules.now records) → HasUntold rules.now self.new (event_view event.now ∷ history rules.now records)) }
    {
        add(&mut self.candidates, completed_number(event))?;
        self.pair(rules, event)?;
        add(&mut self.candidates, event.carried_number())?;
        add_carried(&mut self.candidates, before.sent, effects.spoken())?;
        let ended = effects.ended();
        add_of_links(&mut self.candidates, &self.carried, ended)?;
        add_of_links(&mut self.candidates, before.verdicts.on_link(), ended)?;
        add_waiting(
            &mut self.candidates,
            before.deliveries.waiting(),
            before,
            event,
            ended,
        )?;
        Ok(())
    }

    /// The outcome that is to be told next: of the delivery with the lowest number, by the first reason that applies. Those of
    /// which none is to be told are forgotten; the one that is answered stays a candidate.
    pub fn first_due<'t>(
        &mut self,
        rules: &RuleSet,
        tables: &LentTables<'t>,
    ) -> Option<DueOutcome<'t>>
        ensures due { IfSome result (λ due. (records : List Record) → TellsOf rules.now tables.now (history rules.now records) →
            IsDueOutcome rules.now (history rules.now records) (incoming_view due.delivery) due.why (told_view due.told)) }
        ensures kept { (records : List Record) → TellsOf rules.now tables.now (history rules.now records) →
            HasUntold rules.now self.old (history rules.now records) → HasUntold rules.now self.new (history rules.now records) }
        ensures quiet { result ≡ None → (records : List Record) → TellsOf rules.now tables.now (history rules.now records) →
            HasUntold rules.now self.old (history rules.now records) → none_is_untold rules.now (history rules.now records) ≡ true }
    {
        while let Some(number) = self.candidates.first() {
            if let Some(due) = outcome_of(rules, tables, number) {
                return Some(due);
            }
            self.forget(tables, number);
        }
        None
    }

    /// What goes to a consumer with the event is found by the link that it goes over, if it is of anycast.
    fn pair(&mut self, rules: &RuleSet, event: &Event) -> Result<(), AllocError>
        ensures begun { OnOk result (IfSome (outgoing_begun (event_view event.now)) (λ j. (n : ℕ) → names n j.note ≡ true →
            has_multicast rules.now j.link.address ≡ false → IsOn self.new.carried j n)) }
        ensures kept { OnOk result (KeepsOn self.old.carried self.new.carried) }
        ensures same { self.new.candidates ≡ self.old.candidates }
    {
        let Some(delivery) = event.outgoing_begun() else {
            return Ok(());
        };
        let Note::Pair(number) = delivery.note else {
            return Ok(());
        };
        if !has_multicast(rules, delivery.link.address) {
            put_under(&mut self.carried, &delivery, number)?;
        }
        Ok(())
    }

    /// The delivery is no candidate, and not found any more by what is over of it.
    #[inline(never)]
    fn forget(&mut self, tables: &LentTables<'_>, number: u64)
        ensures left { (n : ℕ) → has self.new.candidates n ≡ (has self.old.candidates n && not (number == n)) }
        ensures shorter { has self.old.candidates number ≡ true → count_of self.new.candidates < count_of self.old.candidates }
        ensures carried { (j : events.Outgoing) (n : ℕ) → (number == n) ≡ false → IsOn self.old.carried j n → IsOn self.new.carried j n }
        ensures opens { is_shut (held_in tables.now.deliveries.now number) ≡ false → self.new.carried ≡ self.old.carried }
    {
        self.candidates.remove(number);
        if let Some(held) = tables.deliveries.get(number) {
            self.stop_carrying(tables, held, number);
        }
    }

    /// It is not found by what carries it, if nothing more is to be told of it.
    fn stop_carrying(&mut self, tables: &LentTables<'_>, held: &HeldDelivery, number: u64)
        ensures carried { (j : events.Outgoing) (n : ℕ) → (number == n) ≡ false → IsOn self.old.carried j n → IsOn self.new.carried j n }
        ensures opens { held.now.is_closed ≡ false → self.new.carried ≡ self.old.carried }
        ensures candidates { self.new.candidates ≡ self.old.candidates }
    {
        if !held.is_closed() {
            return;
        }
        if let Some(carrier) = tables.pairing(&held.delivery()) {
            remove_under(&mut self.carried, &carrier, number);
        }
    }
}
