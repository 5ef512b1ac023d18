//! What each answer keeps.

ghost use Rattle.std.specs.Prelude.{◌≡◌, ◌∷◌, [], ℕ, List, None, true, false, IsTrue, is_some};
ghost use Rattle.pairing_cert.specs.declared.note.Note.TheVariants as notes;
ghost use Rattle.capture_form.specs.Rules.{RuleSet};
ghost use Rattle.trace_events.specs.Event.{Event, Moment, is_out};
ghost use Rattle.trace_events.specs.Said.{out_open};
ghost use Rattle.trace_events.specs.History.{judge_moment};
ghost use Rattle.trace_events.specs.Clauses.{first_broken};
ghost use Rattle.route_answers.specs.Answering.{IsReady, IsAnswerInOrder, AreOpensAnswered, may_happen};

/// The law of answers. The function does nothing: its contract is the law.
pub fn laws_of_answers()
    // Whatever a client may do where no record breaks a clause and opens are answered, each frame of the answer, written
    // in its place, breaks no clause, is due and fits the client's limit; behind the last one what the client did is
    // answered, no record breaks a clause, and opens are answered.
    ensures in_order { (rules : RuleSet) (past : List Event) (c : ℕ) (m : Moment) → IsReady rules past → IsTrue (may_happen c m past)
        → IsAnswerInOrder rules (judge_moment rules past c m notes.None) past }
    // At the start opens are answered.
    ensures start { AreOpensAnswered [] }
    // They stay so behind whatever else is written and breaks no clause.
    ensures stay { (rules : RuleSet) (e : Event) (past : List Event) → first_broken rules (e ∷ past) ≡ None → is_out e.moment ≡ true → is_some (out_open e) ≡ false
        → AreOpensAnswered past → AreOpensAnswered (e ∷ past) }
{}
