//! What the frames that are due keep.

ghost use Rattle.std.specs.Prelude.{◌≡◌, ◌≤◌, ℕ, true, false, List, ◌∷◌, Option, Some, Contains, length, unwrap_or};
ghost use Rattle.flow_counts.specs.declared.profile.TheConstants.{MAX_FRAME_SIZE};
ghost use Rattle.amqp_perf.specs.Nested.{StateFields};
ghost use Rattle.pairing_cert.specs.declared.note.Note.{Note};
ghost use Rattle.pairing_cert.specs.declared.note.Note.TheVariants as notes;
ghost use Rattle.pairing_cert.specs.declared.note.Why.{Why};
ghost use Rattle.capture_form.specs.Rules.{RuleSet};
ghost use Rattle.trace_events.specs.Frame.{Spoken};
ghost use Rattle.trace_events.specs.Event.{Event, Link, Incoming, Outgoing};
ghost use Rattle.trace_events.specs.declared.session.Session.{Session};
ghost use Rattle.trace_events.specs.Session.{IsLiveOn};
ghost use Rattle.trace_events.specs.Link.{IsLiveLink, is_producer, is_consumer, link_at};
ghost use Rattle.trace_events.specs.Incoming.{incoming_at};
ghost use Rattle.trace_events.specs.Outgoing.{in_progress, noted, outgoing_deliveries};
ghost use Rattle.trace_events.specs.Settling.{is_to_settle};
ghost use Rattle.trace_events.specs.Due.{is_unsent};
ghost use Rattle.trace_events.specs.FlowClause.{may_be_topped_up, full_credit, may_be_drained, drained_count};
ghost use Rattle.trace_events.specs.Outcome.{may_be_told, row};
ghost use Rattle.trace_events.specs.Written.{spoken_octets, written_settling, written_session_flow, written_credit, written_count};
ghost use Rattle.trace_events.specs.TransferClause.{may_take};
ghost use Rattle.trace_duties.specs.Quiet.{lacks_window, stands_still, has_earlier_unsent};
ghost use Rattle.trace_duties.specs.Diligent.{is_next_waiting, is_picked_link, all_keep};
ghost use Rattle.trace_duties.specs.Order.{CopiesInOrder};
ghost use Rattle.route_dues.specs.Writing.{writing, IsReadAgain, IsLawful, IsInOrder, MayFollow};
ghost use Rattle.route_dues.specs.Outcomes.{octets_in, outcome_frame, HasState};
ghost use Rattle.route_dues.specs.Transfers.{first_frame, next_frame};

/// The laws of what is due. The function does nothing: its contract is the laws.
pub fn laws_of_dues()
    // Where a row applies to a delivery that may be told, its producer may be told a state in the octets of the row.
    ensures outcome { (rules : RuleSet) (past : List Event) (d : Incoming) (why : Why) (state : Option StateFields) → IsLawful rules past → incoming_at d.number past ≡ Some d
        → may_be_told d past ≡ true → row rules d past why ≡ Some (octets_in state)
        → MayFollow rules past d.link.session.connection (notes.Told why) (outcome_frame d state) }
    // The state that a row tells can be written.
    ensures states { (rules : RuleSet) (past : List Event) (d : Incoming) (why : Why) (octets : List ℕ) → IsLawful rules past → row rules d past why ≡ Some (Some octets) → HasState octets }
    // A delivery that is to be settled may be settled with its consumer, by its id.
    ensures settling { (rules : RuleSet) (past : List Event) (j : Outgoing) → IsLawful rules past → Contains (outgoing_deliveries past) j → is_to_settle past j ≡ true
        → MayFollow rules past j.link.session.connection notes.None (written_settling j.link.session.channel (unwrap_or j.id 0)) }
    // On a consumer's live link that stands still, the delivery in progress may go on.
    ensures part { (rules : RuleSet) (past : List Event) (l : Link) (d : Incoming) (j : Outgoing) → IsLawful rules past → IsLiveLink l past → stands_still past l ≡ true
        → in_progress l past ≡ Some j → noted j.note past ≡ Some d → MayFollow rules past l.session.connection j.note (next_frame past l d j) }
    // Where the duties were kept so far, the next delivery that waits may begin on the link that is picked.
    ensures waiting { (rules : RuleSet) (past : List Event) (l : Link) (d : Incoming) → IsLawful rules past → all_keep rules past ≡ true → link_at l.number past ≡ Some l
        → incoming_at d.number past ≡ Some d → is_next_waiting rules past d ≡ true → is_picked_link rules past d l ≡ true
        → MayFollow rules past l.session.connection (notes.Pair d.number) (first_frame past l d) }
    // Where copies are in order, the earliest unsent one of a consumer's live link may begin there, if the link may be sent a delivery.
    ensures copy { (rules : RuleSet) (past : List Event) (l : Link) (d : Incoming) → IsLawful rules past → IsLiveLink l past → is_consumer l ≡ true
        → incoming_at d.number past ≡ Some d → may_take past l ≡ true → CopiesInOrder rules past → is_unsent rules d l past ≡ true
        → has_earlier_unsent rules past l d ≡ false
        → MayFollow rules past l.session.connection (notes.Pair d.number) (first_frame past l d) }
    // A live session that lacks window may be given it anew.
    ensures window { (rules : RuleSet) (past : List Event) (s : Session) → IsLawful rules past → IsLiveOn s past → lacks_window past s ≡ true
        → MayFollow rules past s.connection notes.None (written_session_flow s past) }
    // A producer's live link that may be topped up may be given the credit that fills it.
    ensures credit { (rules : RuleSet) (past : List Event) (l : Link) → IsLawful rules past → IsLiveLink l past → is_producer l ≡ true → may_be_topped_up rules past l ≡ true
        → MayFollow rules past l.session.connection notes.None (written_credit l (full_credit rules past l) past) }
    // The drain of a consumer's live link that may be drained may be answered.
    ensures drain { (rules : RuleSet) (past : List Event) (l : Link) → IsLawful rules past → IsLiveLink l past → is_consumer l ≡ true → may_be_drained rules past l ≡ true
        → MayFollow rules past l.session.connection notes.None (written_count l (drained_count past l) 0 past) }
    // What may follow is no longer than frames may be.
    ensures fits { (rules : RuleSet) (past : List Event) (c : ℕ) (note : Note) (spoken : Spoken) → IsLawful rules past → MayFollow rules past c note spoken → length (spoken_octets spoken) ≤ MAX_FRAME_SIZE }
    // Behind what may follow, and is read again, a router's records are in order as they were before.
    ensures behind { (rules : RuleSet) (past : List Event) (c : ℕ) (note : Note) (spoken : Spoken) → IsInOrder rules past → MayFollow rules past c note spoken → IsReadAgain spoken
        → IsInOrder rules (writing rules past c note spoken ∷ past) }
{}
