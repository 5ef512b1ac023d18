//! The levels of the records so far.

use crate::asking::{level_of, placed};
use crate::delivery_counts::DeliveryCounts;
use crate::pick::{Pick, PickedLink};
use capture_form::{Record, RuleSet};
use credit_chart::Thinned;
use std::alloc::{AllocError, Global};
use trace_judge::{Counts, Inputs};

/// What stood behind each record so far, of the link that is picked.
#[derive(Drop)]
pub struct Levels<'p> {
    pick: Pick<'p>,
    place: Option<PickedLink>,
    levels: Thinned,
}

impl<'p> Levels<'p> {
    ghost use Rattle.capture_form.specs.Rules.{RuleSet};
    ghost use Rattle.std.specs.Prelude.{List, ◌≡◌, ◌∷◌, [], OnErr, OnOk, length};
    ghost use Rattle.trace_events.specs.History.{judge};
    ghost use Rattle.trace_events.specs.View.{Events};
    ghost use Rattle.credit_levels.specs.declared.pick.Pick.{Pick};
    ghost use Rattle.credit_chart.specs.Thinned.{AreThinned};
    ghost use Rattle.credit_levels.specs.Levels.{AreOf, chosen, levels_of};

    /// No records yet.
    pub fn new(alloc: Global, pick: Pick<'p>) -> Levels<'p>
        ensures { (rules : RuleSet) → AreOf pick.entry rules result [] }
    {
        Levels {
            pick,
            place: None,
            levels: Thinned::new(alloc),
        }
    }

    /// Where the link stands that is picked, if one has opened.
    pub fn place(&self) -> Option<PickedLink>
        ensures { (pick : Pick) (rules : RuleSet) (history : Events) → AreOf pick rules self.now history → result ≡ chosen pick history }
    {
        self.place
    }

    /// What stood behind each record, where that link lived.
    pub fn levels(&self) -> &Thinned
        ensures { (pick : Pick) (rules : RuleSet) (history : Events) → AreOf pick rules self.now history → AreThinned (levels_of pick rules history) result.now }
    {
        &self.levels
    }

    /// Takes what stands behind one record more, of this number.
    ///
    /// # Errors
    ///
    /// Memory was refused; then all stays as it was.
    pub fn take<'a, P: Inputs<'a> + Counts + DeliveryCounts>(
        &mut self,
        past: &P,
        rules: &RuleSet,
        number: u64,
        entry: &Record,
    ) -> Result<(), AllocError>
        ensures taken { OnOk result ((pick : Pick) (history : Events) → number ≡ length history → P.stands_for past.now rules.now (judge rules.now history entry.now ∷ history) →
            AreOf pick rules.now self.old history → AreOf pick rules.now self.new (judge rules.now history entry.now ∷ history)) }
        ensures unchanged { OnErr result ((pick : Pick) (rules : RuleSet) (history : Events) → AreOf pick rules self.old history → AreOf pick rules self.new history) }
    {
        let place = placed(self.place, past, &self.pick, number, entry);
        let level = level_of(past, rules, place);
        self.levels.push(level)?;
        self.place = place;
        Ok(())
    }
}
