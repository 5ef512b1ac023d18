//! The levels of the records that an audit takes.

use crate::levels::Levels;
use crate::pick::Pick;
use audit_core::{Ledger, Watcher};
use capture_form::{Record, RuleSet};
use std::alloc::{AllocError, Global};

/// Keeps what stands behind each record that is taken, of the link that is picked.
#[derive(Drop)]
pub(crate) struct Watching<'p> {
    levels: Levels<'p>,
}

impl<'p> Watching<'p> {
    ghost use Rattle.std.specs.Prelude.{◌≡◌, List, []};
    ghost use Rattle.capture_form.specs.Rules.{RuleSet};
    ghost use Rattle.credit_levels.specs.Levels.{AreOf};

    /// No record was taken yet. It takes no memory.
    pub(crate) fn new(alloc: Global, pick: Pick<'p>) -> Watching<'p>
        ensures { (rules : RuleSet) → AreOf pick.entry rules result.levels [] }
    {
        Watching {
            levels: Levels::new(alloc, pick),
        }
    }

    /// What stands behind the records that were taken.
    pub(crate) fn levels(&self) -> &Levels<'p>
        ensures { result.now ≡ self.now.levels }
    {
        &self.levels
    }
}

impl Watcher for Watching<'_> {
    ghost use Rattle.credit_levels.specs.Taken.{HasTaken};

    ghost saw = { HasTaken };

    ghost saw_refused = { λ first watching rules records entry. HasTaken first watching rules records };

    fn taken(
        &mut self,
        ledger: &Ledger,
        rules: &RuleSet,
        entry: &Record,
    ) -> Result<(), AllocError> {
        let number = ledger.tally().records.saturating_sub(1);
        self.levels.take(&ledger.lent(), rules, number, entry)
    }

    fn refused(
        &mut self,
        _ledger: &Ledger,
        _rules: &RuleSet,
        _entry: &Record,
    ) -> Result<(), AllocError> {
        Ok(())
    }
}
