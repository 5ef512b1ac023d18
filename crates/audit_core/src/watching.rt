//! Those that are told of an audit on its way.

ghost use Rattle.std.specs.Prelude.{◌++◌, ◌∷◌, [], List, OnOk};
ghost use Rattle.capture_form.specs.declared.records.Record.{Record};
ghost use Rattle.capture_form.specs.Rules.{RuleSet};
ghost use Rattle.state_ledger.specs.Ledger.{Stands, StandsWhole};
ghost use Rattle.audit_core.specs.Watching.{RefusesOneMore, TakesOneMore};

use capture_form::{Record, RuleSet};
use state_ledger::Ledger;
use std::alloc::AllocError;

/// Is told of each record that an auditor takes, and of the one that it refuses.
pub trait Watcher {
    /// What is known of it, by what it was at first, once these records were taken, judged by these rules.
    ghost saw: { Self → Self → RuleSet → List Record → Type 0 };

    /// What is known of it, by what it was at first, once a record was refused, judged by these rules, behind those records.
    ghost saw_refused: { Self → Self → RuleSet → List Record → Record → Type 0 };

    /// The record was taken: judged by these rules, it meets the law behind those before, and it is the last of the ledger's.
    ///
    /// # Errors
    ///
    /// Memory was refused.
    fn taken(&mut self, ledger: &Ledger, rules: &RuleSet, entry: &Record) -> Result<(), AllocError>
        requires { (records : List Record) × Stands rules.now ledger.now (records ++ entry.now ∷ []) }
        ensures { OnOk result (TakesOneMore saw rules.now ledger.now self.old self.new entry.now) };

    /// The record was not taken: judged by these rules, it breaks a clause behind those before, which are the ledger's.
    ///
    /// # Errors
    ///
    /// Memory was refused.
    fn refused(
        &mut self,
        ledger: &Ledger,
        rules: &RuleSet,
        entry: &Record,
    ) -> Result<(), AllocError>
        requires { (records : List Record) × StandsWhole rules.now ledger.now records }
        ensures { OnOk result (RefusesOneMore saw saw_refused rules.now ledger.now self.old self.new entry.now) };
}

/// Nobody is told.
#[derive(Clone, Copy, Debug)]
pub(crate) struct Unwatched;

impl Watcher for Unwatched {
    ghost use Rattle.std.specs.Prelude.{⊤};

    ghost saw = { λ _ _ _ _. ⊤ };

    ghost saw_refused = { λ _ _ _ _ _. ⊤ };

    fn taken(
        &mut self,
        _ledger: &Ledger,
        _rules: &RuleSet,
        _entry: &Record,
    ) -> Result<(), AllocError> {
        Ok(())
    }

    fn refused(
        &mut self,
        _ledger: &Ledger,
        _rules: &RuleSet,
        _entry: &Record,
    ) -> Result<(), AllocError> {
        Ok(())
    }
}
