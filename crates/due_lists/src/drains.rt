//! The links of consumers whose drain may be answered (part 2 of the standard, section 2.6.7).

ghost use Rattle.std.specs.Prelude.{◌≡◌, ◌∷◌, ℕ, List, [], Some, None, IfSome, OnOk, false, is_some, option_map, true};
ghost use Rattle.capture_form.specs.Rules.{RuleSet};
ghost use Rattle.capture_form.specs.declared.records.Record.{Record};
ghost use Rattle.trace_events.specs.Event as law;
ghost use Rattle.trace_events.specs.History.{history};
ghost use Rattle.trace_duties.specs.Quiet.{none_is_undrained};
ghost use Rattle.state_tables.specs.Connections.{IsLawfulNext};
ghost use Rattle.state_tables.specs.EndedLinks.{views};
ghost use Rattle.state_tables.specs.ConsumerLinks.{has_link};
ghost use Rattle.state_answers.specs.Tables.{TellsOf};
ghost use Rattle.state_answers.specs.Effects.{AreEffects};
ghost use Rattle.due_lists.specs.Draining.{IsDrainable, asks_drain, writes_part};
ghost use Rattle.due_lists.specs.Drains.{HasDrains, stands, waits};
ghost use Rattle.trace_events.specs.View.{Events, event_view, link_view};

use amqp_perf::Performative;
use capture_form::RuleSet;
use number_groups::{Ascending, OctetGroups};
use state_answers::{EventEffects, LentTables, add_octet_group};
use std::alloc::{AllocError, Global};
use trace_events::{Event, Link};
use trace_judge::may_be_drained;

/// The links of consumers that drain.
#[derive(Drop)]
pub struct Drains {
    /// All that do, by their addresses.
    of_address: OctetGroups,
    /// Those whose drain may be answered.
    links: Ascending,
}

impl Drains {
    /// No records.
    pub fn new(alloc: Global) -> Drains
        ensures { (rules : RuleSet) → HasDrains rules result [] }
    {
        Drains {
            of_address: OctetGroups::new(alloc),
            links: Ascending::new(alloc),
        }
    }

    /// The event follows, with these effects.
    ///
    /// # Errors
    ///
    /// Memory was refused; then a drain that may be answered may not be found.
    pub fn follow(&mut self, event: &Event, effects: &EventEffects<'_>) -> Result<(), AllocError>
        ensures { OnOk result ((rules : RuleSet) (records : List Record) (r : Record) → IsLawfulNext rules records r (event_view event.now) →
            AreEffects (event_view event.now) (history rules records) effects.now → HasDrains rules self.old (history rules records) →
            HasDrains rules self.new (event_view event.now ∷ history rules records)) }
    {
        self.end(effects.ended());
        self.ask(event)?;
        self.wake(event)?;
        Ok(())
    }

    /// These links drain no more.
    fn end(&mut self, ended: &[Link])
        ensures stood { (address : List ℕ) (n : ℕ) → has_link (views ended.now) n ≡ false → stands self.old address n ≡ true → stands self.new address n ≡ true }
        ensures waiting { (n : ℕ) → waits self.new n ≡ waits self.old n }
    {
        for link in ended {
            self.of_address.remove(link.address, link.number);
        }
    }

    /// Where the event asks to drain its link, the drain may be answered.
    fn ask(&mut self, event: &Event) -> Result<(), AllocError>
        ensures asked { OnOk result ((l : law.Link) → (event_view event.now).link ≡ Some l → asks_drain (event_view event.now) ≡ true →
            (stands self.new l.address l.number ≡ true) × (waits self.new l.number ≡ true)) }
        ensures stood { OnOk result ((address : List ℕ) (n : ℕ) → stands self.old address n ≡ true → stands self.new address n ≡ true) }
        ensures waiting { OnOk result ((n : ℕ) → waits self.old n ≡ true → waits self.new n ≡ true) }
    {
        if asks_drain(event)
            && let Some(link) = event.link
        {
            self.of_address.insert(link.address, link.number)?;
            self.links.insert(link.number)?;
        }
        Ok(())
    }

    /// Where the event is a part that is written, all drains at the address of its link may be answered.
    fn wake(&mut self, event: &Event) -> Result<(), AllocError>
        ensures stood { OnOk result ((address : List ℕ) (n : ℕ) → stands self.new address n ≡ stands self.old address n) }
        ensures waiting { OnOk result ((n : ℕ) → waits self.old n ≡ true → waits self.new n ≡ true) }
        ensures woken { OnOk result ((l : law.Link) → (event_view event.now).link ≡ Some l → writes_part (event_view event.now) ≡ true →
            (n : ℕ) → stands self.old l.address n ≡ true → waits self.new n ≡ true) }
    {
        if event.out_transfer().is_some()
            && let Some(link) = event.link
        {
            add_octet_group(&mut self.links, &self.of_address, link.address)?;
        }
        Ok(())
    }

    /// The live link with the lowest number whose drain may be answered. Links below it are candidates no more.
    pub fn first_due<'t>(&mut self, rules: &RuleSet, tables: &LentTables<'t>) -> Option<Link<'t>>
        ensures due { IfSome result (λ link. (past : Events) → TellsOf rules.now tables.now past → IsDrainable rules.now (link_view link) past) }
        ensures kept { (past : Events) → TellsOf rules.now tables.now past → HasDrains rules.now self.old past → HasDrains rules.now self.new past }
        ensures quiet { (past : Events) → TellsOf rules.now tables.now past → HasDrains rules.now self.old past → result ≡ None →
            none_is_undrained rules.now past ≡ true }
    {
        while let Some(number) = self.links.first() {
            if let Some(link) = drain_due(number, rules, tables) {
                return Some(link);
            }
            self.links.remove(number);
        }
        None
    }
}

/// The event is a flow of the client that asks to drain.
fn asks_drain(event: &Event) -> bool
    ensures { result ≡ asks_drain (event_view event.now) }
{
    match event.in_spoken() {
        Some(spoken) => match spoken.performative {
            Performative::Flow(flow) => flow.drains(),
            _ => false,
        },
        None => false,
    }
}

/// The link of this number, where its drain may be answered.
#[inline(never)]
fn drain_due<'t>(number: u64, rules: &RuleSet, tables: &LentTables<'t>) -> Option<Link<'t>>
    ensures due { IfSome result (λ link. (past : Events) → TellsOf rules.now tables.now past → IsDrainable rules.now (link_view link) past) }
    ensures found { (past : Events) → TellsOf rules.now tables.now past → (l : law.Link) → l.number ≡ number → IsDrainable rules.now l past →
        is_some result ≡ true }
{
    let link = tables.consumer_links.get(number)?;
    if may_be_drained(tables, rules, &link) {
        Some(link)
    } else {
        None
    }
}
