//! What each part of a step keeps.

ghost use Rattle.std.specs.Prelude.{◌≡◌, ◌≤◌, ◌<◌, ◌^◌, ◌∷◌, [], ℕ, List, None, true, IsTrue, length};
ghost use Rattle.flow_counts.specs.declared.profile.TheConstants.{MAX_FRAME_SIZE};
ghost use Rattle.pairing_cert.specs.declared.note.Note.{Note};
ghost use Rattle.pairing_cert.specs.declared.note.Note.TheVariants as notes;
ghost use Rattle.capture_form.specs.Rules.{RuleSet};
ghost use Rattle.capture_form.specs.declared.records.Record.{Record};
ghost use Rattle.trace_events.specs.Frame.{Spoken};
ghost use Rattle.trace_events.specs.Event.{Event, Out};
ghost use Rattle.trace_events.specs.History.{judge, history, moment_of};
ghost use Rattle.trace_events.specs.Clauses.{first_broken, broken_clause};
ghost use Rattle.trace_events.specs.Written.{spoken_octets};
ghost use Rattle.trace_duties.specs.Answer.{answer};
ghost use Rattle.trace_duties.specs.Diligent.{is_diligent};
ghost use Rattle.trace_duties.specs.Quiet.{is_quiet};
ghost use Rattle.trace_duties.specs.Turn.{stands_in_turn, is_ordered};
ghost use Rattle.route_answers.specs.Answering.{may_happen};
ghost use Rattle.route_answers.specs.Writing.{frame_of};
ghost use Rattle.route_dues.specs.Writing.{writing, IsReadAgain, MayFollow};
ghost use Rattle.route_dues.specs.Steps.{IsAnswering, IsAtRest, IsUnderWay};

/// The law of a step. The function does nothing: its contract is the law.
pub fn laws_of_steps()
    // Before the first step all is at rest.
    ensures start { (rules : RuleSet) → IsAtRest rules [] }
    // What a client may do there breaks no clause, and its answer may be written, frame by frame.
    ensures input { (rules : RuleSet) (past : List Event) (r : Record) → IsAtRest rules past → length past < 2 ^ 64 → IsTrue (may_happen r.connection (moment_of r.what) past) → r.note ≡ notes.None
        → (broken_clause rules (judge rules past r) past ≡ None) × IsAnswering rules r.connection (judge rules past r ∷ past) (answer rules (judge rules past r) (judge rules past r ∷ past)) }
    // Each frame of it breaks no clause and is no longer than frames may be.
    ensures fits { (rules : RuleSet) (past : List Event) (c : ℕ) (s : Spoken) (left : List Spoken) → IsAnswering rules c past (s ∷ left)
        → (broken_clause rules (writing rules past c notes.None s) past ≡ None) × (length (spoken_octets s) ≤ MAX_FRAME_SIZE) }
    // Behind one that is read again the others may be written.
    ensures reply { (rules : RuleSet) (past : List Event) (c : ℕ) (s : Spoken) (left : List Spoken) → IsAnswering rules c past (s ∷ left) → IsReadAgain s
        → IsAnswering rules c (writing rules past c notes.None s ∷ past) left }
    // Behind the last one the step is under way.
    ensures answered { (rules : RuleSet) (past : List Event) (c : ℕ) → IsAnswering rules c past [] → IsUnderWay rules past }
    // It stays so behind a frame that may follow, stands in turn and is read again.
    ensures due { (rules : RuleSet) (past : List Event) (c : ℕ) (note : Note) (s : Spoken) → IsUnderWay rules past → MayFollow rules past c note s
        → stands_in_turn rules (writing rules past c note s) past (Out (frame_of s)) ≡ true → IsReadAgain s → IsUnderWay rules (writing rules past c note s ∷ past) }
    // Where nothing is left, all is at rest.
    ensures rest { (rules : RuleSet) (past : List Event) → IsUnderWay rules past → is_quiet rules past ≡ true → IsAtRest rules past }
    // Records that are at rest break no clause.
    ensures lawful { (rules : RuleSet) (records : List Record) → IsAtRest rules (history rules records) → first_broken rules (history rules records) ≡ None }
    // A router that wrote them did all that it owes.
    ensures diligent { (rules : RuleSet) (records : List Record) → IsAtRest rules (history rules records) → is_diligent rules records ≡ true }
    // The records of each step stand in order.
    ensures ordered { (rules : RuleSet) (records : List Record) → IsAtRest rules (history rules records) → is_ordered rules records ≡ true }
{}
