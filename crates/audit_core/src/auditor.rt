//! The auditor: it takes the records of a capture one after the other, and refuses the first that does not meet the law.

ghost use Rattle.std.specs.Prelude.{◌≡◌, ◌≢◌, ◌<◌, ◌∷◌, [], ◌++◌, List, None, IfErr, IfSome, OnOk, false, true};
ghost use Rattle.capture_form.specs.declared.records.Record.{Record};
ghost use Rattle.capture_form.specs.Rules.{RuleSet, AreRules};
ghost use Rattle.capture_form.specs.Text.{IsRecord};
ghost use Rattle.state_ledger.specs.Ledger.{Stands, broken_behind};
ghost use Rattle.audit_core.specs.declared.auditor.TheConstants.{MOST_RECORDS};
ghost use Rattle.audit_core.specs.declared.verdict.Refusal.TheVariants.{Memory};
ghost use Rattle.audit_core.specs.Auditor.{Agrees, Follows, IsBrokenBehind, IsRefusalBehind, StandsFor, Stopped, entries_by, forgets_by, refusal_at, refusal_of, rules_of, tally_by};

use crate::verdict::Refusal;
use capture_form::{Record, RuleSet};
use state_ledger::{Ledger, NotEntered};
use std::alloc::Global;
use trace_events::Tally;

/// The most records that an auditor takes.
pub const MOST_RECORDS: u64 = 9223372036854775807;

/// An auditor of one capture: what the records that it took have come to. It keeps none of them.
pub struct Auditor {
    rules: RuleSet,
    ledger: Ledger,
    // Why it stopped.
    refusal: Option<Refusal>,
}

// Written out, and not derived, so that where one is let go the prover need not go through all that it owns.
impl Drop for Auditor {
    fn drop(self) {
        let Auditor {
            rules: _,
            ledger: _,
            refusal: _,
        } = self;
    }
}

impl Auditor {
    /// An auditor of a capture with these rules, which has taken no record yet. It takes no memory.
    pub fn new(alloc: Global, rules: RuleSet) -> Auditor
        requires { AreRules rules }
        ensures { Agrees result rules [] }
    {
        Auditor::over(rules, Ledger::new(alloc))
    }

    /// The same, which lets go of what a lawful record cannot name any more, so that its memory does not grow with the capture. Of
    /// a record that it refuses it cannot say which clause it breaks first.
    pub(crate) fn forgetting(alloc: Global, rules: RuleSet) -> Auditor
        requires { AreRules rules }
        ensures follows { Follows result rules [] }
        ensures forgets { forgets_by result ≡ true }
    {
        Auditor::over(rules, Ledger::forgetting(alloc))
    }

    /// An auditor over this ledger, which has no records.
    fn over(rules: RuleSet, ledger: Ledger) -> Auditor
        requires { (of : RuleSet) → Stands of ledger [] }
        ensures follows { Follows result rules [] }
        ensures kind { forgets_by result ≡ ledger.forgets }
    {
        Auditor {
            rules,
            ledger,
            refusal: None,
        }
    }

    /// Takes the next record, if it meets the law.
    ///
    /// # Errors
    ///
    /// `Broken` with the record's number and the first clause that it breaks, or `Memory` where a growth was refused.
    /// The auditor then answers this refusal for good, and takes no record any more.
    pub fn take(&mut self, entry: Record) -> Result<(), Refusal>
        requires bounds { IsRecord entry }
        requires few { (tally_by self.old).records < MOST_RECORDS }
        // Behind the capture with which it agrees, the record meets the law, and it agrees with the longer one.
        ensures met { OnOk result ((rules : RuleSet) (records : List Record) → Agrees self.old rules records → broken_behind rules records entry ≡ None) }
        ensures taken { OnOk result ((rules : RuleSet) (records : List Record) → Agrees self.old rules records → Agrees self.new rules (records ++ entry ∷ [])) }
        // Or it breaks this clause first, unless memory was refused.
        ensures refused { IfErr result (λ refusal. (rules : RuleSet) (records : List Record) → Agrees self.old rules records → IsRefusalBehind rules records entry refusal) }
        // The refusal is answered for good, and then nothing changes.
        ensures stopped { IfErr result (Stopped self.new) }
        ensures again { IfSome (refusal_of self.old) (λ refusal. (result ≡ Err refusal) × (self.new ≡ self.old)) }
    {
        self.follow(&entry)
    }

    /// What the records that it took hold, while it has not stopped; once it refused one, no clause says of which records
    /// this is the tally.
    pub fn tally(&self) -> Tally
        ensures { result ≡ tally_by self.now }
    {
        self.ledger.tally()
    }

    /// How many entries it has: connections of which more may come, and runs of others that came to the same; sessions that are
    /// live or await their end; links that are live or await their detach; begins, attaches, detaches and ends of clients that are still to be answered; and the
    /// deliveries from clients that are kept. A delivery to a client is no entry, though one that keeps all keeps it to the end, so
    /// this does not bound the memory. The greatest number where there are more.
    pub fn entries(&self) -> usize
        ensures { result ≡ entries_by self.now }
    {
        self.ledger.entries()
    }

    /// It lets go of what a lawful record cannot name any more.
    pub(crate) fn forgets(&self) -> bool
        ensures { result ≡ forgets_by self.now }
    {
        self.ledger.forgets()
    }

    /// What the records that it took have come to.
    pub(crate) fn ledger(&self) -> &Ledger
        ensures { result.now ≡ self.now.ledger }
    {
        &self.ledger
    }

    /// The rules by which it judges.
    pub(crate) fn rules(&self) -> &RuleSet
        ensures { result.now ≡ rules_of self.now }
    {
        &self.rules
    }

    /// Takes a record that is lent. What it keeps of those before stands as it stood where a clause refuses this one.
    pub(crate) fn follow(&mut self, entry: &Record) -> Result<(), Refusal>
        requires { (tally_by self.old).records < MOST_RECORDS }
        ensures met { OnOk result ((rules : RuleSet) (records : List Record) → Follows self.old rules records → broken_behind rules records entry.now ≡ None) }
        ensures taken { OnOk result ((rules : RuleSet) (records : List Record) → Follows self.old rules records → Follows self.new rules (records ++ entry.now ∷ [])) }
        ensures refused { IfErr result (λ refusal. forgets_by self.old ≡ false → (rules : RuleSet) (records : List Record) → Follows self.old rules records → IsRefusalBehind rules records entry.now refusal) }
        ensures broken { IfErr result (λ refusal. (rules : RuleSet) (records : List Record) → Follows self.old rules records → IsBrokenBehind rules records entry.now refusal) }
        ensures kind { forgets_by self.new ≡ forgets_by self.old }
        ensures stopped { IfErr result (Stopped self.new) }
        ensures again { IfSome (refusal_of self.old) (λ refusal. (result ≡ Err refusal) × (self.new ≡ self.old)) }
        ensures stands { IfErr result (λ refusal. refusal ≢ Memory → (rules : RuleSet) (records : List Record) → StandsFor self.old rules records → StandsFor self.new rules records) }
    {
        if let Some(refusal) = self.refusal {
            return Err(refusal);
        }
        let result = self.judge(entry);
        self.refusal = result.err();
        result
    }

    /// Enters the record behind those that it took, if it meets the law.
    fn judge(&mut self, entry: &Record) -> Result<(), Refusal>
        requires { (tally_by self.old).records < MOST_RECORDS }
        ensures met { OnOk result ((rules : RuleSet) (records : List Record) → Follows self.old rules records → broken_behind rules records entry.now ≡ None) }
        ensures taken { OnOk result ((rules : RuleSet) (records : List Record) → Follows self.old rules records → Follows self.new rules (records ++ entry.now ∷ [])) }
        ensures refused { IfErr result (λ refusal. forgets_by self.old ≡ false → (rules : RuleSet) (records : List Record) → Follows self.old rules records → IsRefusalBehind rules records entry.now refusal) }
        ensures broken { IfErr result (λ refusal. (rules : RuleSet) (records : List Record) → Follows self.old rules records → IsBrokenBehind rules records entry.now refusal) }
        ensures kind { forgets_by self.new ≡ forgets_by self.old }
        ensures same { IfErr result (λ refusal. refusal ≢ Memory → self.new ≡ self.old) }
    {
        let number = self.tally().records;
        match self.ledger.enter(&self.rules, entry) {
            Ok(()) => Ok(()),
            Err(why) => Err(refusal_at(number, why)),
        }
    }
}

/// Why the record of this number is not taken.
fn refusal_at(number: u64, why: NotEntered) -> Refusal
    ensures { result ≡ refusal_at number why }
{
    match why {
        NotEntered::Broken(clause) => Refusal::Broken(number, clause),
        NotEntered::Memory => Refusal::Memory,
    }
}
