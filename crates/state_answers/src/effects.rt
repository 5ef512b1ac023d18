//! What an event does, asked of the tables before they take it.

ghost use Rattle.std.specs.Prelude.{◌≡◌, List, IfOk};
ghost use Rattle.capture_form.specs.Rules.{RuleSet};
ghost use Rattle.capture_form.specs.declared.records.Record.{Record};
ghost use Rattle.trace_events.specs.History.{history};
ghost use Rattle.trace_events.specs.View.{event_view};
ghost use Rattle.state_tables.specs.Connections.{IsLawfulNext};
ghost use Rattle.state_answers.specs.Tables.{TellsOf};
ghost use Rattle.state_answers.specs.Effects.{AreEffects};

use crate::LentTables;
use crate::listed::listed;
use std::alloc::{AllocError, Global};
use trace_events::{Event, Link};

/// What an event does to links and deliveries.
#[derive(Drop)]
pub struct EventEffects<'t> {
    ended: Vec<Link<'t>>,
    spoken: Vec<u64>,
}

impl<'t> EventEffects<'t> {
    /// What this event does, which follows those of which the tables tell. It takes time and memory by what ends with it, and
    /// by the unsettled deliveries of which a consumer speaks with it.
    ///
    /// # Errors
    ///
    /// Memory was refused.
    #[inline(always)]
    pub fn of(
        alloc: Global,
        event: &Event,
        before: &LentTables<'t>,
    ) -> Result<EventEffects<'t>, AllocError>
        ensures { IfOk result (λ effects. (rules : RuleSet) (records : List Record) (r : Record) → IsLawfulNext rules records r (event_view event.now) →
            TellsOf rules before.now (history rules records) → AreEffects (event_view event.now) (history rules records) effects) }
    {
        let ended = before.links.ended(alloc, event)?;
        let found = before.sent.spoken_of(alloc, event)?;
        let spoken = listed(alloc, found)?;
        Ok(EventEffects { ended, spoken })
    }

    /// The links that live before the event and end with it.
    pub fn ended(&self) -> &[Link<'t>]
        ensures { result.now ≡ self.now.ended.items }
    {
        &self.ended
    }

    /// Numbers of deliveries to clients, each once, among which are all that are unsettled and of which the event's consumer
    /// speaks. There may be others: where it names more ids than are unsettled on its session, these are all of that.
    pub fn spoken(&self) -> &[u64]
        ensures { result.now ≡ self.now.spoken.items }
    {
        &self.spoken
    }
}
