//! The live links of consumers, by their numbers.

ghost use Rattle.std.specs.Prelude.{◌≡◌, ◌∷◌, ℕ, List, [], OnOk, OnErr, option_map, true};
ghost use Rattle.capture_form.specs.Rules.{RuleSet};
ghost use Rattle.capture_form.specs.declared.records.Record.{Record};
ghost use Rattle.trace_events.specs.History.{history, judge};
ghost use Rattle.state_tables.specs.EndedLinks.{AreEnded, views};
ghost use Rattle.state_tables.specs.ConsumerLinks.{AreConsumerLinks, AreSameLinks, link_in, with_opened, without};
ghost use Rattle.state_tables.specs.Consumers.{opens_consumer};
ghost use Rattle.trace_events.specs.View.{event_view, link_view};

use crate::HeldLink;
use number_map::NumberMap;
use std::alloc::{AllocError, Global};
use trace_events::{Event, Link};

/// The live links of consumers, by their numbers, each with an address of its own.
pub struct ConsumerLinks {
    alloc: Global,
    entries: NumberMap<u64, HeldLink>,
}

// Written out, and not derived, so that where one is let go the prover need not go through all that it owns.
impl Drop for ConsumerLinks {
    fn drop(self) {
        let ConsumerLinks {
            alloc: _,
            entries: _,
        } = self;
    }
}

impl ConsumerLinks {
    /// No records.
    pub fn new(alloc: Global) -> ConsumerLinks
        ensures { AreConsumerLinks result [] }
    {
        ConsumerLinks {
            alloc,
            entries: NumberMap::new(alloc),
        }
    }

    /// The event follows those so far, and ends these links.
    ///
    /// # Errors
    ///
    /// Memory was refused, for an attach that opens a consumer's link; then all stays as it was.
    pub fn take(&mut self, event: &Event, ended: &[Link]) -> Result<(), AllocError>
        ensures kept { OnOk result ((rules : RuleSet) (records : List Record) (r : Record) → event_view event.now ≡ judge rules (history rules records) r →
            AreEnded (event_view event.now) (history rules records) (views ended.now) → AreConsumerLinks self.old (history rules records) →
            AreConsumerLinks self.new (event_view event.now ∷ history rules records)) }
        ensures unchanged { OnErr result (AreSameLinks self.old self.new) }
        ensures refused { OnErr result (opens_consumer (event_view event.now) ≡ true) }
    {
        self.open(event)?;
        self.end(ended);
        Ok(())
    }

    /// The link that the event opens stands under its number, where it is a consumer's.
    fn open(&mut self, event: &Event) -> Result<(), AllocError>
        ensures opened { OnOk result ((n : ℕ) → link_in self.new n ≡ with_opened n (event_view event.now) (link_in self.old n)) }
        ensures unchanged { OnErr result (AreSameLinks self.old self.new) }
        ensures refused { OnErr result (opens_consumer (event_view event.now) ≡ true) }
    {
        if let Some(link) = event.opened_consumer() {
            let own = HeldLink::new(self.alloc, &link)?;
            self.entries.insert(link.number, own)?;
        }
        Ok(())
    }

    /// Nothing stands under the numbers of these links any more.
    fn end(&mut self, ended: &[Link])
        ensures { (n : ℕ) → link_in self.new n ≡ without (views ended.now) n (link_in self.old n) }
    {
        for link in ended {
            self.entries.swap_remove(&link.number);
        }
    }

    /// The link of this number, where it is a consumer's and lives.
    pub fn get(&self, number: u64) -> Option<Link<'_>>
        ensures { option_map link_view result ≡ link_in self.now number }
    {
        match self.entries.get(&number) {
            Some(own) => Some(own.link()),
            None => None,
        }
    }
}
