//! What each frame takes from what is left to be written.

ghost use Rattle.std.specs.Prelude.{◌≡◌, ◌<◌, ◌∷◌, [], ◌++◌, ℕ, List};
ghost use Rattle.pairing_cert.specs.declared.note.Note.{Note};
ghost use Rattle.capture_form.specs.Rules.{RuleSet};
ghost use Rattle.capture_form.specs.declared.records.Record.{Record};
ghost use Rattle.capture_form.specs.declared.records.What.TheVariants as whats;
ghost use Rattle.trace_events.specs.Frame.{Spoken};
ghost use Rattle.trace_events.specs.Event.{Event};
ghost use Rattle.trace_events.specs.History.{history};
ghost use Rattle.trace_events.specs.Written.{spoken_octets};
ghost use Rattle.route_dues.specs.Writing.{writing, IsReadAgain, MayFollow};
ghost use Rattle.route_dues.specs.Steps.{IsUnderWay};
ghost use Rattle.route_dues.specs.Work.{work_left};

/// The law of what is left. The function does nothing: its contract is the law.
pub fn laws_of_measures()
    // While a step is under way, each frame that may follow leaves less than there was.
    ensures lessens { (rules : RuleSet) (past : List Event) (c : ℕ) (note : Note) (s : Spoken) → IsUnderWay rules past → MayFollow rules past c note s
        → work_left (writing rules past c note s ∷ past) < work_left past }
    // So does each record of a step, behind those of a capture.
    ensures written { (rules : RuleSet) (records group : List Record) (r : Record) (s : Spoken) → IsUnderWay rules (history rules (records ++ group))
        → r.what ≡ whats.Out (spoken_octets s) → MayFollow rules (history rules (records ++ group)) r.connection r.note s → IsReadAgain s
        → work_left (history rules (records ++ (group ++ r ∷ []))) < work_left (history rules (records ++ group)) }
{}
