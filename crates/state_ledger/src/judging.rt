//! The next record of a capture, judged by whoever can tell of those before it.

ghost use Rattle.std.specs.Prelude.{OnOk, ◌≡◌, ◌≢◌, None, IfErr, IfSome, is_some, length, true};
ghost use Rattle.trace_events.specs.Clauses as law;
ghost use Rattle.trace_events.specs.TransferClause.{to_carry};
ghost use Rattle.trace_events.specs.History.{moment_of};
ghost use Rattle.trace_events.specs.Said.{out_transfer};
ghost use Rattle.state_ledger.specs.HeldEvents.{held_event_view};
ghost use Rattle.state_ledger.specs.NextEvents.{IsHeldAnswer, unopened};
ghost use Rattle.state_ledger.specs.declared.not_entered.NotEntered.TheVariants.{Memory};
ghost use Rattle.trace_events.specs.Known.{CarriesKnown, OpensKnown};
ghost use Rattle.trace_events.specs.View.{Events};

use crate::{HeldEvent, NotEntered};
use capture_form::RuleSet;
use std::alloc::Global;
use trace_events::ReadRecord;
use trace_judge::{Questions, broken_clause, judge_unopened, open};

/// The event of the next record, which has this number, is held, but for its moment. The past must be able to tell of what the
/// event carries and, where it breaks no clause, of what it opens.
///
/// # Errors
///
/// The first clause that the record breaks; then what is held stays. Or memory was refused; then what is held may be of no record.
pub fn hold_next<'a, 'm: 'a, P: Questions<'a>>(
    held: &mut HeldEvent,
    alloc: Global,
    past: &P,
    rules: &RuleSet,
    number: u64,
    entry: &ReadRecord<'m>,
) -> Result<(), NotEntered>
    requires few { P.is_short past.now }
    ensures answer { (history : Events) → P.stands_for past.now rules.now history → P.is_whole past.now → number ≡ length history →
        CarriesKnown (λ n. P.knows_number past.now n history) (λ j. P.knows_outgoing past.now j history) (unopened rules.now history entry.now) →
        (law.broken_clause rules.now (unopened rules.now history entry.now) history ≡ None →
        OpensKnown (λ c channel. P.knows_begin past.now c channel history) (λ s handle. P.knows_attach past.now s handle history) (unopened rules.now history entry.now)) →
        IsHeldAnswer rules.now history entry.now (held_event_view held.new (moment_of entry.now.what)) result }
    // Where what links carried last is kept, what is held is lawful, whatever was let go.
    ensures last { OnOk result ((history : Events) → P.stands_for past.now rules.now history → P.keeps_last past.now history → number ≡ length history →
        CarriesKnown (λ n. P.knows_number past.now n history) (λ j. P.knows_outgoing past.now j history) (unopened rules.now history entry.now) →
        (law.broken_clause rules.now (unopened rules.now history entry.now) history ≡ None →
        OpensKnown (λ c channel. P.knows_begin past.now c channel history) (λ s handle. P.knows_attach past.now s handle history) (unopened rules.now history entry.now)) →
        IsHeldAnswer rules.now history entry.now (held_event_view held.new (moment_of entry.now.what)) result) }
    // Where it can tell of what a lawful transfer carries too, a record that is refused breaks a clause.
    ensures broken { IfErr result (λ why. why ≢ Memory → (history : Events) → P.stands_for past.now rules.now history → P.keeps_last past.now history → number ≡ length history →
        CarriesKnown (λ n. P.knows_number past.now n history) (λ j. P.knows_outgoing past.now j history) (unopened rules.now history entry.now) →
        (law.broken_clause rules.now (unopened rules.now history entry.now) history ≡ None →
        IfSome (out_transfer (unopened rules.now history entry.now)) (λ fields. IfSome (to_carry rules.now (unopened rules.now history entry.now).note history) (λ d. P.knows_incoming past.now d history))) →
        is_some (law.broken_clause rules.now (unopened rules.now history entry.now) history) ≡ true) }
    ensures same { IfErr result (λ why. why ≢ Memory → held.new ≡ held.old) }
{
    let mut event = judge_unopened(past, rules, number, entry);
    match broken_clause(past, rules, &event) {
        Some(clause) => Err(NotEntered::Broken(clause)),
        None => {
            open(past, &mut event);
            held.keep(alloc, &event)?;
            Ok(())
        }
    }
}
