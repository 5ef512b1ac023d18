//! What each lawful capture keeps.

ghost use Rattle.std.specs.Prelude.{◌≡◌, ℕ, List, ◌∷◌, ◌++◌, ◌==◌, true, false, IsTrue, ◌&&◌, Some, is_some, option_map};
ghost use Rattle.capture_form.specs.declared.records.Record.{Record};
ghost use Rattle.capture_form.specs.Rules.{RuleSet};
ghost use Rattle.trace_events.specs.declared.clause.Clause.{Clause};
ghost use Rattle.flow_counts.specs.Parts as counted;
ghost use Rattle.trace_events.specs.Event.{Event, Link, Incoming};
ghost use Rattle.trace_events.specs.declared.session.Session.{Session};
ghost use Rattle.trace_events.specs.Session.{live_session, session_at};
ghost use Rattle.trace_events.specs.Link.{session_link, link_at};
ghost use Rattle.trace_events.specs.History.{history};
ghost use Rattle.trace_events.specs.Clauses.{first_broken, is_lawful};
ghost use Rattle.trace_events.specs.Incoming.{incoming_at, in_progress, is_complete, is_told, payload};
ghost use Rattle.trace_events.specs.Waiting.{is_undecided, is_undecided_of, is_waiting, is_gone};
ghost use Rattle.trace_events.specs.Fault.{is_id_in_use};
ghost use Rattle.trace_events.specs.Parts.{part_events, partial_of};
ghost use Rattle.trace_events.specs.Laws.{IsWithinWindow, IsWithinCredit};
ghost use Rattle.trace_events.specs.Kept.{AtEach, StoodWithin, WentToAddress, HasCarried, IsOfRow, ReachesOne, ToldOnce};

/// The laws of lawful captures. The function does nothing: its contract is the laws.
pub fn laws_of_captures()
    // Each transfer that was written stood within its session's window and its link's credit.
    ensures within { (rules : RuleSet) (records : List Record) → IsTrue (is_lawful rules records) → AtEach StoodWithin (history rules records) }
    // At every moment the transfers sent on a session since its client's last flow, or its begin, are no more than that granted, less what was under way.
    ensures windows { (rules : RuleSet) (records : List Record) → IsTrue (is_lawful rules records) → (n : ℕ) → IsWithinWindow (history rules records) (session_at n (history rules records)) }
    // At every moment the deliveries begun on a consumer's link since its client last gave credit are no more than that credit, less what was under way.
    ensures credits { (rules : RuleSet) (records : List Record) → IsTrue (is_lawful rules records) → (n : ℕ) → IsWithinCredit (history rules records) (link_at n (history rules records)) }
    // Each transfer went to a link of the address of the delivery that its note names.
    ensures addressed { (rules : RuleSet) (records : List Record) → IsTrue (is_lawful rules records) → AtEach WentToAddress (history rules records) }
    // Each delivery to a client carries the octets of the delivery that its note names.
    ensures carried { (rules : RuleSet) (records : List Record) → IsTrue (is_lawful rules records) → AtEach HasCarried (history rules records) }
    // The payload of a complete delivery changes no more, whatever is recorded later.
    ensures whole { (rules : RuleSet) (records more : List Record) (delivery : Incoming) → IsTrue (is_complete delivery (history rules records)) → payload delivery (history rules (records ++ more)) ≡ payload delivery (history rules records) }
    // Each anycast delivery reached at most one consumer.
    ensures one { (rules : RuleSet) (records : List Record) → IsTrue (is_lawful rules records) → ReachesOne rules (history rules records) }
    // Each outcome that was told is the consumer's or that of the table, by the row of its note.
    ensures outcomes { (rules : RuleSet) (records : List Record) → IsTrue (is_lawful rules records) → AtEach (IsOfRow rules) (history rules records) }
    // Of each delivery at most one outcome was told.
    ensures once { (rules : RuleSet) (records : List Record) → IsTrue (is_lawful rules records) → ToldOnce (history rules records) }
    // A delivery that was told is not undecided.
    ensures decided { (rules : RuleSet) (records : List Record) → IsTrue (is_lawful rules records) → (n : ℕ) (delivery : Incoming)
        → incoming_at n (history rules records) ≡ Some delivery → is_told delivery (history rules records) ≡ true → is_undecided rules delivery (history rules records) ≡ false }
    // Each delivery from a client has an id, also in a capture that is not lawful; so it is with the four laws that follow.
    ensures identified { (rules : RuleSet) (records : List Record) (n : ℕ) (delivery : Incoming) → incoming_at n (history rules records) ≡ Some delivery → is_some delivery.id ≡ true }
    // Two deliveries of one session that are undecided have different ids.
    ensures distinct { (rules : RuleSet) (records : List Record) (s : Session) (id m n : ℕ) (one other : Incoming) → incoming_at m (history rules records) ≡ Some one → incoming_at n (history rules records) ≡ Some other
        → is_undecided_of rules s id (history rules records) one ≡ true → is_undecided_of rules s id (history rules records) other ≡ true → one ≡ other }
    // A delivery that is decided stays so, whatever is recorded later.
    ensures for_good { (rules : RuleSet) (records more : List Record) (n : ℕ) (delivery : Incoming) → incoming_at n (history rules records) ≡ Some delivery
        → is_undecided rules delivery (history rules records) ≡ false → is_undecided rules delivery (history rules (records ++ more)) ≡ false }
    // The delivery in progress on a link is the one that is counted over the parts of its session.
    ensures parts { (rules : RuleSet) (records : List Record) (s : Session) (l : Link) → link_at l.number (history rules records) ≡ Some l → l.session.number ≡ s.number
        → counted.in_progress l.number (part_events rules s (history rules records)) ≡ option_map (partial_of (history rules records)) (in_progress l (history rules records)) }
    // The ids that are in use on a session are those counted over its parts.
    ensures in_use { (rules : RuleSet) (records : List Record) (s : Session) (id : ℕ) → counted.is_in_use id (part_events rules s (history rules records)) ≡ is_id_in_use rules s id (history rules records) }
    // The first records of a lawful capture are lawful.
    ensures before { (rules : RuleSet) (records more : List Record) → IsTrue (is_lawful rules (records ++ more)) → IsTrue (is_lawful rules records) }
    // What is broken first stays so, whatever is recorded later.
    ensures stays { (rules : RuleSet) (records more : List Record) (x : ℕ × Clause) → first_broken rules (history rules records) ≡ Some x → first_broken rules (history rules (records ++ more)) ≡ Some x }
    // No delivery both waits for a consumer and is gone.
    ensures apart { (rules : RuleSet) (delivery : Incoming) (past : List Event) → (is_waiting rules delivery past && is_gone rules delivery past) ≡ false }
    // One that is gone never waits again.
    ensures gone { (rules : RuleSet) (records more : List Record) (delivery : Incoming) → IsTrue (is_gone rules delivery (history rules records)) → is_waiting rules delivery (history rules (records ++ more)) ≡ false }
    // What happens on another connection leaves the sessions and the links of a connection as they were.
    ensures sessions { (c channel : ℕ) (e : Event) (past : List Event) → (e.connection == c) ≡ false → live_session c channel (e ∷ past) ≡ live_session c channel past }
    ensures links { (c handle : ℕ) (s : Session) (e : Event) (past : List Event) → (e.connection == c) ≡ false → s.connection ≡ c → session_link s handle (e ∷ past) ≡ session_link s handle past }
{}
