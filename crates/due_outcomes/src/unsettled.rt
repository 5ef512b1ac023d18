//! The deliveries to settle with their consumers (part 2 of the standard, section 2.6.12).

ghost use Rattle.std.specs.Prelude.{◌≡◌, ◌∷◌, ◌==◌, ◌⊎◌, ℕ, List, [], true, false, None, Some, IfSome, OnOk, is_some, option_map};
ghost use Rattle.std.specs.List.{list_any};
ghost use Rattle.std.specs.Option.{option_copied};
ghost use Rattle.capture_form.specs.Rules.{RuleSet};
ghost use Rattle.capture_form.specs.declared.records.Record.{Record};
ghost use Rattle.trace_events.specs.History.{history};
ghost use Rattle.trace_events.specs.Link.{is_producer};
ghost use Rattle.trace_events.specs.Words.{is_number, is_some_and};
ghost use Rattle.amqp_perf.specs.View.{disposition_fields};
ghost use Rattle.trace_duties.specs.Quiet.{none_is_unsettled};
ghost use Rattle.trace_events.specs.View.{event_view, outgoing_view};
ghost use Rattle.state_outgoing.specs.SentAnswers as sent;
ghost use Rattle.state_outgoing.specs.SentTables.{sent_in};
ghost use Rattle.state_outgoing.specs.SentViews.{sent_view};
ghost use Rattle.state_incoming.specs.EntryAnswers.{is_shut};
ghost use Rattle.state_incoming.specs.HeldTables.{held_in};
ghost use Rattle.state_tables.specs.Connections.{IsLawfulNext};
ghost use Rattle.state_tables.specs.EndedLinks.{views};
ghost use Rattle.number_groups.specs.Ascending.{has};
ghost use Rattle.state_answers.specs.Tables.{TellsOf};
ghost use Rattle.state_answers.specs.Effects.{AreEffects};
ghost use Rattle.due_outcomes.specs.Candidates.{Grows};
ghost use Rattle.due_outcomes.specs.Closings as law;
ghost use Rattle.due_outcomes.specs.Parked.{IsLeft, is_parked};
ghost use Rattle.due_outcomes.specs.Settlings.{IsDueSettling, due_in, waits_in};
ghost use Rattle.due_outcomes.specs.Unsettled.{HasUnsettled, IsParked};

use crate::parked::Parked;
use amqp_perf::{Disposition, Role};
use number_groups::{Ascending, NumberTest};
use pairing_cert::Note;
use state_answers::{EventEffects, LentTables, add_all};
use state_outgoing::SentDelivery;
use std::alloc::{AllocError, Global};
use trace_events::{Event, Link, Outgoing};

/// The deliveries to settle with their consumers, among those that are decided and still unsettled.
#[derive(Drop)]
pub struct Unsettled {
    candidates: Ascending,
    /// Those that wait until nothing more is to be told of what they carry.
    parked: Parked,
}

impl Unsettled {
    /// No records.
    pub fn new(alloc: Global) -> Unsettled
        ensures { HasUnsettled result [] }
    {
        Unsettled {
            candidates: Ascending::new(alloc),
            parked: Parked::new(alloc),
        }
    }

    /// The event follows, with these effects. It takes the time of the unsettled deliveries of which their consumer speaks with
    /// it, of the links that it ends, and of the deliveries that carry what it tells; where a producer settles ids or its link
    /// ends, of all that are parked.
    ///
    /// # Errors
    ///
    /// Memory was refused; then the list may agree with no records any more.
    pub fn follow(&mut self, event: &Event, effects: &EventEffects<'_>) -> Result<(), AllocError>
        ensures { OnOk result ((rules : RuleSet) (records : List Record) (r : Record) → IsLawfulNext rules records r (event_view event.now) →
            AreEffects (event_view event.now) (history rules records) effects.now →
            HasUnsettled self.old (history rules records) → HasUnsettled self.new (event_view event.now ∷ history rules records)) }
    {
        add_all(&mut self.candidates, effects.spoken())?;
        self.release(event, effects.ended())?;
        Ok(())
    }

    /// The delivery that is to be settled next, the lowest number first; those that are settled are forgotten. The one that is
    /// answered stays a candidate. Decided deliveries that carry one of which more is to be told are parked, each once; where
    /// memory is refused for that, it passes over them.
    pub fn first_due<'t>(&mut self, tables: &LentTables<'t>) -> Option<Outgoing<'t>>
        ensures due { IfSome result (λ j. (rules : RuleSet) (records : List Record) → TellsOf rules tables.now (history rules records) →
            IsDueSettling (history rules records) (outgoing_view j)) }
        ensures kept { (rules : RuleSet) (records : List Record) → TellsOf rules tables.now (history rules records) →
            HasUnsettled self.old (history rules records) → HasUnsettled self.new (history rules records) }
        ensures quiet { result ≡ None → (rules : RuleSet) (records : List Record) → TellsOf rules tables.now (history rules records) →
            HasUnsettled self.old (history rules records) → none_is_unsettled (history rules records) ≡ true }
    {
        self.sort_lowest(tables);
        let number = self.candidates.first_passing(&IsToSettle { tables })?;
        settling_of(tables, number)
    }

    /// What carries a delivery of which nothing more is to be told with the event becomes a candidate.
    fn release(&mut self, event: &Event, ended: &[Link]) -> Result<(), AllocError>
        ensures grown { OnOk result (Grows self.old.candidates self.new.candidates) }
        ensures released { OnOk result ((n m : ℕ) → law.may_close (event_view event.now) (views ended.now) n ≡ true → is_parked self.old.parked n m ≡ true →
            has self.new.candidates m ≡ true) }
        ensures left { OnOk result (IsLeft self.new.candidates self.old.parked self.new.parked) }
    {
        if settles_ids(event) || has_producer(ended) {
            return self.parked.release_all(&mut self.candidates);
        }
        self.release_of(event.told)?;
        self.release_of(part_number(event))
    }

    /// What carries the delivery of the number becomes a candidate, if there is one.
    fn release_of(&mut self, carried: Option<u64>) -> Result<(), AllocError>
        ensures grown { OnOk result (Grows self.old.candidates self.new.candidates) }
        ensures released { OnOk result ((n m : ℕ) → is_number carried n ≡ true → is_parked self.old.parked n m ≡ true → has self.new.candidates m ≡ true) }
        ensures left { OnOk result (IsLeft self.new.candidates self.old.parked self.new.parked) }
    {
        match carried {
            Some(number) => self.parked.release(&mut self.candidates, number),
            None => Ok(()),
        }
    }

    /// The lowest are forgotten or parked, up to one that is to be settled.
    fn sort_lowest(&mut self, tables: &LentTables<'_>)
        ensures { (rules : RuleSet) (records : List Record) → TellsOf rules tables.now (history rules records) →
            HasUnsettled self.old (history rules records) → HasUnsettled self.new (history rules records) }
    {
        while let Some(number) = self.candidates.first() {
            if self.stays(tables, number, tables.sent.get(number)) {
                return;
            }
            self.candidates.remove(number);
        }
    }

    /// The delivery of the number stays a candidate: it is decided and unsettled, and cannot be parked.
    fn stays(&mut self, tables: &LentTables<'_>, number: u64, entry: Option<&SentDelivery>) -> bool
        ensures goes { result ≡ false → (waits_in (option_map sent_view (option_copied entry.entry)) ≡ false)
            ⊎ IsParked self.new.parked tables.now.deliveries.now number (option_map sent_view (option_copied entry.entry)) }
        ensures kept { (n m : ℕ) → is_parked self.old.parked n m ≡ true → is_parked self.new.parked n m ≡ true }
        ensures candidates { self.new.candidates ≡ self.old.candidates }
    {
        waits(entry) && !self.park(tables, number, entry)
    }

    /// The delivery of the number is parked, and this is said, if more is to be told of what it carries and memory is not
    /// refused.
    fn park(&mut self, tables: &LentTables<'_>, number: u64, entry: Option<&SentDelivery>) -> bool
        ensures parked { result ≡ true → IsParked self.new.parked tables.now.deliveries.now number (option_map sent_view (option_copied entry.entry)) }
        ensures kept { (n m : ℕ) → is_parked self.old.parked n m ≡ true → is_parked self.new.parked n m ≡ true }
        ensures candidates { self.new.candidates ≡ self.old.candidates }
    {
        match carried_open(tables, entry) {
            Some(carried) => self.parked.put(carried, number).is_ok(),
            None => false,
        }
    }
}

/// It is decided, and still unsettled.
fn waits(entry: Option<&SentDelivery>) -> bool
    ensures { result ≡ waits_in (option_map sent_view (option_copied entry.entry)) }
{
    match entry {
        Some(own) => own.is_unsettled() && own.decision().is_some(),
        None => false,
    }
}

/// The number of what it carries, if more is to be told of that.
fn carried_open(tables: &LentTables<'_>, entry: Option<&SentDelivery>) -> Option<u64>
    ensures { IfSome result (λ n. (sent.carried (option_map sent_view (option_copied entry.entry)) ≡ Some n)
        × (is_shut (held_in tables.now.deliveries.now n) ≡ false)) }
{
    match entry?.delivery().note {
        Note::Pair(number) if !tables.deliveries.is_shut(number) => Some(number),
        _ => None,
    }
}

/// The number of the delivery from a client that the event is a part of.
fn part_number(event: &Event) -> Option<u64>
    ensures { (n : ℕ) → is_number result n ≡ is_some_and (event_view event.now).incoming (λ d. d.number == n) }
{
    match &event.incoming {
        Some(delivery) => Some(delivery.number),
        None => None,
    }
}

/// A producer settles deliveries by their ids.
fn settles_ids(event: &Event) -> bool
    ensures { result ≡ law.settles_ids (event_view event.now) }
{
    match event.in_disposition() {
        Some(fields) => settles_sent(&fields),
        None => false,
    }
}

/// A disposition is of a producer, and settles.
fn settles_sent(fields: &Disposition) -> bool
    ensures { result ≡ law.settles_sent (disposition_fields fields.now) }
{
    match fields.role {
        Role::Sender => fields.is_settled(),
        Role::Receiver => false,
    }
}

/// Some link is a producer's.
fn has_producer(links: &[Link]) -> bool
    ensures { result ≡ list_any is_producer (views links.now) }
{
    let mut has = false;
    for link in links {
        has = has || link.is_producer();
    }
    has
}

/// Nothing more is to be told of the delivery that the note names.
fn closes(tables: &LentTables<'_>, note: Note) -> bool
    ensures { result ≡ sent.closes (λ n. is_shut (held_in tables.now.deliveries.now n)) note }
{
    match note {
        Note::Pair(number) => tables.deliveries.is_shut(number),
        Note::None | Note::Told(_) => false,
    }
}

/// The delivery of the number, if it is to be settled.
fn settling_of<'t>(tables: &LentTables<'t>, number: u64) -> Option<Outgoing<'t>>
    ensures { option_map outgoing_view result ≡ due_in tables.now.sent.now tables.now.deliveries.now number }
{
    let own = tables.sent.get(number)?;
    let delivery = own.delivery();
    if own.is_to_settle(closes(tables, delivery.note)) {
        Some(delivery)
    } else {
        None
    }
}

/// The deliveries that are to be settled.
#[derive(Drop)]
struct IsToSettle<'l, 't> {
    tables: &'l LentTables<'t>,
}

impl<'l, 't> NumberTest for IsToSettle<'l, 't> {
    ghost does_pass = { λ s number. is_some (due_in s.tables.now.sent.now s.tables.now.deliveries.now number) };

    fn passes(&self, number: u64) -> bool {
        settling_of(self.tables, number).is_some()
    }
}
