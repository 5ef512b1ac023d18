//! The reason of a record that a ledger did not take.

ghost use Rattle.capture_form.specs.declared.records.Record.{Record};
ghost use Rattle.std.specs.Prelude.{List, ◌≡◌, IfSome, option_map};
ghost use Rattle.state_ledger.specs.Ledger.{StandsWhole, broken_behind};
ghost use Rattle.refusal_showing.specs.Refused.{IsReasonBehind};

use crate::contents::Contents;
use capture_form::RuleSet;
use refusal_facts::{Reason, explain};
use state_ledger::Ledger;
use trace_events::ReadRecord;
use trace_judge::judge_unopened;

/// The reason why the ledger does not take the record, judged by these rules, if it breaks a clause.
pub fn explain_refused<'a>(
    ledger: &'a Ledger,
    rules: &RuleSet,
    entry: &ReadRecord<'a>,
) -> Option<Reason<'a>>
    // There is a reason just where the record breaks a clause behind those of the ledger, and it names the first one.
    ensures clause { (records : List Record) → StandsWhole rules.now ledger.now records → option_map (λ reason. reason.clause) result ≡ broken_behind rules.now records entry.now }
    // It has what this clause compares, and each number is the law's at this record.
    ensures facts { (records : List Record) → StandsWhole rules.now ledger.now records → IfSome result (IsReasonBehind rules.now records entry.now) }
{
    let lent = ledger.lent();
    let number = ledger.tally().records;
    let event = judge_unopened(&lent, rules, number, entry);
    let contents = Contents {
        deliveries: lent.deliveries,
        sent: lent.sent,
    };
    explain(&lent, &contents, rules, &event)
}
