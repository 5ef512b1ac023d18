//! The copies of multicast deliveries that are still to be sent, as work (own rules).

ghost use Rattle.std.specs.Prelude.{◌≡◌, ◌∷◌, List, [], None, IfSome, OnOk, true, false, is_some, option_map};
ghost use Rattle.capture_form.specs.Rules.{RuleSet};
ghost use Rattle.capture_form.specs.declared.records.Record.{Record};
ghost use Rattle.trace_events.specs.Event as law;
ghost use Rattle.trace_events.specs.History.{history};
ghost use Rattle.trace_events.specs.Due.{has_unsent};
ghost use Rattle.trace_events.specs.Link.{IsLiveLink};
ghost use Rattle.trace_duties.specs.Quiet.{copies_are_sent, has_earlier_unsent};
ghost use Rattle.trace_events.specs.View.{Events, event_view, incoming_view, link_view};
ghost use Rattle.state_tables.specs.Connections.{IsLawfulNext};
ghost use Rattle.state_tables.specs.Addressed.{IsAddressed};
ghost use Rattle.state_answers.specs.Tables.{TellsOf};
ghost use Rattle.state_answers.specs.Effects.{AreEffects};
ghost use Rattle.due_lists.specs.Copies.{HasUnsent, IsDueCopy, IsKnownCopy, IsReady, IsUnsentOn};

use crate::DueBegin;
use crate::unsent_numbers::UnsentNumbers;
use capture_form::RuleSet;
use pairing_cert::Note;
use state_answers::{EventEffects, LentTables};
use state_tables::{Copies, receivers_of};
use std::alloc::{AllocError, Global};
use trace_events::{Event, Incoming, Link};
use trace_judge::{Carriage, may_take};

/// The copies that are still to be sent.
#[derive(Drop)]
pub struct UnsentCopies {
    alloc: Global,
    /// Which they are.
    copies: Copies,
    /// Their numbers.
    unsent: UnsentNumbers,
}

impl UnsentCopies {
    /// No records.
    pub fn new(alloc: Global) -> UnsentCopies
        ensures { (rules : RuleSet) → HasUnsent rules result [] }
    {
        let copies = Copies::new(alloc);
        let unsent = UnsentNumbers::new(alloc);
        UnsentCopies {
            alloc,
            copies,
            unsent,
        }
    }

    /// The event follows, with these effects; what it completes is for this address, and `before` are the tables without it.
    ///
    /// # Errors
    ///
    /// Memory was refused; then a copy that is due may not be found.
    pub fn follow(
        &mut self,
        rules: &RuleSet,
        event: &Event,
        address: &[u8],
        before: &LentTables<'_>,
        effects: &EventEffects<'_>,
    ) -> Result<(), AllocError>
        ensures { OnOk result ((records : List Record) (r : Record) → IsLawfulNext rules.now records r (event_view event.now) →
            IsAddressed (event_view event.now) (history rules.now records) address.now →
            TellsOf rules.now before.now (history rules.now records) → AreEffects (event_view event.now) (history rules.now records) effects.now →
            HasUnsent rules.now self.old (history rules.now records) →
            HasUnsent rules.now self.new (event_view event.now ∷ history rules.now records)) }
    {
        let ended = effects.ended();
        let receivers = receivers_of(
            self.alloc,
            rules,
            event,
            address,
            before.consumers,
            before.consumer_links,
            before.links,
        )?;
        self.copies.take(rules, event, address, ended, &receivers)?;
        self.unsent.end(ended);
        self.unsent.send(event);
        self.unsent
            .come(event, &receivers, before.consumer_links, &self.copies)?;
        self.unsent.touch(event)?;
        self.unsent.wake(event, before)?;
        Ok(())
    }

    /// Of the copies that may be sent the one whose delivery was completed first, and of one delivery that to the link with
    /// the lowest number. Links before it are candidates no more.
    pub fn first_due<'t>(
        &mut self,
        rules: &RuleSet,
        tables: &LentTables<'t>,
    ) -> Option<DueBegin<'t>>
        ensures due { IfSome result (λ copy. (past : Events) → TellsOf rules.now tables.now past → HasUnsent rules.now self.old past →
            IsDueCopy rules.now copy past) }
        ensures kept { (past : Events) → TellsOf rules.now tables.now past → HasUnsent rules.now self.old past → HasUnsent rules.now self.new past }
        ensures quiet { (past : Events) → TellsOf rules.now tables.now past → HasUnsent rules.now self.old past → result ≡ None →
            copies_are_sent rules.now past ≡ true }
    {
        while let Some((completion, link)) = self.unsent.links.first() {
            if let Some(copy) = self.copy_due(link, rules, tables) {
                return Some(copy);
            }
            self.unsent.links.remove(completion, link);
        }
        None
    }

    /// The earliest unsent copy of the link of this number, if it may be sent a delivery.
    #[inline(never)]
    fn copy_due<'t>(
        &mut self,
        number: u64,
        rules: &RuleSet,
        tables: &LentTables<'t>,
    ) -> Option<DueBegin<'t>>
        ensures due { IfSome result (λ copy. (past : Events) → TellsOf rules.now tables.now past → HasUnsent rules.now self.old past →
            IsDueCopy rules.now copy past) }
        ensures found { (past : Events) → TellsOf rules.now tables.now past → HasUnsent rules.now self.old past → (l : law.Link) → l.number ≡ number →
            IsReady rules.now l past → is_some result ≡ true }
        ensures kept { (past : Events) → TellsOf rules.now tables.now past → HasUnsent rules.now self.old past → HasUnsent rules.now self.new past }
        ensures links { self.new.unsent.links ≡ self.old.unsent.links }
    {
        let link = tables.consumer_links.get(number)?;
        if !may_take(tables, &link) {
            return None;
        }
        let delivery = self.earliest(&link, rules, tables)?;
        let payload = tables.deliveries.payload(&delivery);
        Some(DueBegin {
            link,
            delivery,
            payload,
        })
    }

    /// Of the live link's unsent copies the one that was completed first. What was sent before it is listed no more.
    fn earliest<'t>(
        &mut self,
        link: &Link,
        rules: &RuleSet,
        tables: &LentTables<'t>,
    ) -> Option<Incoming<'t>>
        ensures copy { (past : Events) → TellsOf rules.now tables.now past → IsLiveLink (link_view link.now) past →
            IfSome (option_map incoming_view result) (IsKnownCopy rules.now tables.now.deliveries.now (link_view link.now) past) }
        ensures first { (past : Events) → TellsOf rules.now tables.now past → HasUnsent rules.now self.old past → IsLiveLink (link_view link.now) past →
            IfSome (option_map incoming_view result) (λ f. has_earlier_unsent rules.now past (link_view link.now) f ≡ false) }
        ensures none { (past : Events) → TellsOf rules.now tables.now past → HasUnsent rules.now self.old past → IsLiveLink (link_view link.now) past →
            result ≡ None → has_unsent rules.now (link_view link.now) past ≡ false }
        ensures kept { (past : Events) → TellsOf rules.now tables.now past → HasUnsent rules.now self.old past → IsLiveLink (link_view link.now) past →
            HasUnsent rules.now self.new past }
        ensures links { self.new.unsent.links ≡ self.old.unsent.links }
    {
        while let Some((completion, number)) = self.unsent.copies.first(link.number) {
            if let Some(delivery) = unsent_copy(number, link, rules, tables) {
                return Some(delivery);
            }
            self.unsent.copies.remove(link.number, completion);
        }
        None
    }
}

/// The delivery of this number, where a copy of it is unsent on the live link.
fn unsent_copy<'t>(
    number: u64,
    link: &Link,
    rules: &RuleSet,
    tables: &LentTables<'t>,
) -> Option<Incoming<'t>>
    ensures copy { (past : Events) → TellsOf rules.now tables.now past → IsLiveLink (link_view link.now) past →
        IfSome (option_map incoming_view result) (λ d. IsKnownCopy rules.now tables.now.deliveries.now (link_view link.now) past d × (d.number ≡ number)) }
    ensures found { (past : Events) → TellsOf rules.now tables.now past → (d : law.Incoming) → d.number ≡ number →
        IsUnsentOn rules.now (link_view link.now) d past → option_map incoming_view result ≡ Some d }
{
    let delivery = tables.deliveries.to_carry(Note::Pair(number))?;
    if tables.is_unsent(rules, &delivery, link) {
        Some(delivery)
    } else {
        None
    }
}
