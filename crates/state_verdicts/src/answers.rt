//! What the table answers of a delivery.

ghost use Rattle.std.specs.Prelude.{◌≡◌, ◌↔◌, ℕ, IsTrue, List, Some, None, if◌then◌else◌, true, false, nat_eq};
ghost use Rattle.capture_form.specs.Rules.{RuleSet};
ghost use Rattle.capture_form.specs.declared.records.Record.{Record};
ghost use Rattle.number_groups.specs.Groups.{is_member};
ghost use Rattle.trace_events.specs.Clauses.{first_broken};
ghost use Rattle.trace_events.specs.Due.{is_unsent};
ghost use Rattle.trace_events.specs.Event as law;
ghost use Rattle.trace_events.specs.History.{history};
ghost use Rattle.trace_events.specs.Incoming.{incoming_at};
ghost use Rattle.trace_events.specs.Link.{IsLiveLink};
ghost use Rattle.trace_events.specs.View.{incoming_view};
ghost use Rattle.trace_events.specs.BestVerdict.{best_verdict, has_all_verdicts, whole_verdict};
ghost use Rattle.state_tables.specs.LetGo.{is_let_go};
ghost use Rattle.state_verdicts.specs.Verdicts.{AreVerdicts, best_of, had_in};

use crate::verdicts::Verdicts;
use amqp_perf::Outcome;
use trace_events::Incoming;

impl Verdicts {
    /// Every copy of the delivery, which is one of the capture, has its verdict; so too where none is due.
    pub fn has_all(&self, delivery: &Incoming) -> bool
        ensures { (rules : RuleSet) (records : List Record) → AreVerdicts rules self.now (history rules records) →
            incoming_at (incoming_view delivery.now).number (history rules records) ≡ Some (incoming_view delivery.now) →
            result ≡ has_all_verdicts rules (incoming_view delivery.now) (history rules records) }
    {
        self.has_all_of(delivery.number)
    }

    /// No copy of the delivery of this number awaits its verdict. Of one that is complete no copy is to begin any more then, on
    /// any link that lives.
    pub fn has_all_of(&self, number: u64) -> bool
        ensures none { IsTrue result ↔ ((link : ℕ) → is_member nat_eq self.now.of_delivery number link ≡ false) }
        ensures copied { (rules : RuleSet) (records : List Record) (d : law.Incoming) → AreVerdicts rules self.now (history rules records) →
            first_broken rules (history rules records) ≡ None → incoming_at number (history rules records) ≡ Some d → result ≡ true →
            (l : law.Link) → IsLiveLink l (history rules records) → is_unsent rules d l (history rules records) ≡ false }
    {
        self.of_delivery.is_empty(&number)
    }

    /// The best of the verdicts that the copies of the delivery have, once all have theirs; accepted where none is due. Those of
    /// the delivery were not let go.
    pub fn best(&self, delivery: &Incoming) -> Outcome
        ensures { (rules : RuleSet) (records : List Record) → AreVerdicts rules self.now (history rules records) →
            is_let_go self.now.let_go.items (incoming_view delivery.now).number ≡ false →
            incoming_at (incoming_view delivery.now).number (history rules records) ≡ Some (incoming_view delivery.now) →
            has_all_verdicts rules (incoming_view delivery.now) (history rules records) ≡ true →
            result ≡ best_verdict rules (incoming_view delivery.now) (history rules records) }
    {
        self.best_of(delivery.number)
    }

    /// The verdict of the whole delivery, which is one of the capture, and whose verdicts were not let go: the best one of its
    /// copies, once all have theirs, and `None` before.
    pub fn whole_verdict(&self, delivery: &Incoming) -> Option<Outcome>
        ensures { (rules : RuleSet) (records : List Record) → AreVerdicts rules self.now (history rules records) →
            is_let_go self.now.let_go.items (incoming_view delivery.now).number ≡ false →
            incoming_at (incoming_view delivery.now).number (history rules records) ≡ Some (incoming_view delivery.now) →
            result ≡ whole_verdict rules (incoming_view delivery.now) (history rules records) }
    {
        if self.has_all(delivery) {
            Some(self.best(delivery))
        } else {
            None
        }
    }

    /// The best of the verdicts that there are.
    fn best_of(&self, number: u64) -> Outcome
        ensures { result ≡ best_of (had_in self.now number) }
    {
        match self.had.get(&number) {
            Some(had) => had.best(),
            None => Outcome::Accepted,
        }
    }
}
