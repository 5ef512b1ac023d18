//! What is asked of the past when an outcome is told or a delivery is settled.

use crate::questions::History;
use amqp_perf::Outcome;
use capture_form::RuleSet;
use trace_events::{Decision, Incoming, Link, Outgoing, Session};

/// What is asked of the past when an outcome is told or a delivery is settled.
///
/// What takes a session is asked of a live one alone, and what takes a delivery of one that is known.
pub trait Outcomes<'a>: History {
    ghost use Rattle.capture_form.specs.Rules.{RuleSet};
    ghost use Rattle.std.specs.Prelude.{List, ◌≡◌, IfSome, option_map};
    ghost use Rattle.trace_events.specs.Connection as connections;
    ghost use Rattle.trace_events.specs.Incoming as received;
    ghost use Rattle.trace_events.specs.Link as links;
    ghost use Rattle.trace_events.specs.Outgoing as sent;
    ghost use Rattle.trace_events.specs.Settling as settling;
    ghost use Rattle.trace_events.specs.Waiting as waiting;
    ghost use Rattle.trace_events.specs.BestVerdict as verdicts;
    ghost use Rattle.trace_events.specs.Disposition.{terminal_state};
    ghost use Rattle.trace_events.specs.Session.{IsLiveOn};
    ghost use Rattle.trace_events.specs.View.{Events, decision_view, incoming_view, link_view, outgoing_view};

    /// The undecided delivery of the id on the session, whose outcome may be told.
    fn to_tell(&self, rules: &RuleSet, session: Session, id: u32) -> Option<Incoming<'a>>
        ensures { (history : Events) → Self.stands_for self.now rules.now history → IsLiveOn session history →
            (option_map incoming_view result ≡ settling.to_tell rules.now session id history) };

    /// The earliest delivery of the id on the session that the router is to settle.
    fn to_settle(&self, session: Session, id: u32) -> Option<Outgoing<'a>>
        ensures { (rules : RuleSet) (history : Events) → Self.stands_for self.now rules history → IsLiveOn session history →
            (option_map outgoing_view result ≡ settling.to_settle session id history) };

    /// The delivery of a client that begins in the record of this number.
    fn incoming_at(&self, number: u64) -> Option<Incoming<'a>>
        ensures value { (rules : RuleSet) (history : Events) → Self.stands_for self.now rules history → Self.knows_number self.now number history →
            (option_map incoming_view result ≡ received.incoming_at number history) }
        ensures known { (rules : RuleSet) (history : Events) → Self.stands_for self.now rules history → Self.knows_number self.now number history →
            IfSome (option_map incoming_view result) (λ d. Self.knows_incoming self.now d history) };

    /// Its last part has come.
    fn is_complete(&self, delivery: &Incoming) -> bool
        ensures { (rules : RuleSet) (history : Events) → Self.stands_for self.now rules history → Self.knows_incoming self.now (incoming_view delivery.now) history →
            (result ≡ received.is_complete (incoming_view delivery.now) history) };

    /// Its address is of multicast: it goes to all consumers of that, and not to one.
    fn is_of_multicast(&self, rules: &RuleSet, delivery: &Incoming) -> bool
        ensures { (history : Events) → Self.stands_for self.now rules.now history → Self.knows_incoming self.now (incoming_view delivery.now) history →
            (result ≡ waiting.is_of_multicast rules.now (incoming_view delivery.now) history) };

    /// Nothing more is to be told of it: it is told, settled by its producer, or of a link that is over.
    fn is_closed(&self, delivery: &Incoming) -> bool
        ensures { (rules : RuleSet) (history : Events) → Self.stands_for self.now rules history → Self.knows_incoming self.now (incoming_view delivery.now) history →
            (result ≡ settling.is_closed history (incoming_view delivery.now)) };

    /// It found no consumer, or lost the last one, and goes to none any more.
    fn is_gone(&self, rules: &RuleSet, delivery: &Incoming) -> bool
        ensures { (history : Events) → Self.stands_for self.now rules.now history → Self.knows_incoming self.now (incoming_view delivery.now) history →
            (result ≡ waiting.is_gone rules.now (incoming_view delivery.now) history) };

    /// The link lives.
    fn is_live(&self, link: &Link) -> bool
        ensures { (rules : RuleSet) (history : Events) → Self.stands_for self.now rules history → (result ≡ links.is_live history (link_view link.now)) };

    /// The last outgoing delivery that carries it.
    fn pairing(&self, delivery: &Incoming) -> Option<Outgoing<'a>>
        ensures value { (rules : RuleSet) (history : Events) → Self.stands_for self.now rules history → Self.knows_incoming self.now (incoming_view delivery.now) history →
            (option_map outgoing_view result ≡ sent.pairing (incoming_view delivery.now) history) }
        ensures known { (rules : RuleSet) (history : Events) → Self.stands_for self.now rules history → Self.knows_incoming self.now (incoming_view delivery.now) history →
            IfSome (option_map outgoing_view result) (λ j. Self.knows_outgoing self.now j history) };

    /// The consumer's decision, by the terminal state that it tells; on a pre-settled link there is none.
    fn decision(&self, delivery: &Outgoing) -> Option<Decision<'a>>
        ensures { (rules : RuleSet) (history : Events) → Self.stands_for self.now rules history → Self.knows_outgoing self.now (outgoing_view delivery.now) history →
            (option_map decision_view result ≡ option_map terminal_state (sent.decision (outgoing_view delivery.now) history)) };

    /// Its last part is written.
    fn is_sent(&self, delivery: &Outgoing) -> bool
        ensures { (rules : RuleSet) (history : Events) → Self.stands_for self.now rules history → Self.knows_outgoing self.now (outgoing_view delivery.now) history →
            (result ≡ sent.is_sent (outgoing_view delivery.now) history) };

    /// The verdict of a multicast delivery: the best one of its copies, where each that is due has its own.
    fn whole_verdict(&self, rules: &RuleSet, delivery: &Incoming) -> Option<Outcome>
        requires few { Self.is_short self.now }
        ensures { (history : Events) → Self.stands_for self.now rules.now history → Self.knows_incoming self.now (incoming_view delivery.now) history →
            (result ≡ verdicts.whole_verdict rules.now (incoming_view delivery.now) history) };

    /// The longest frame that may be written on the connection, in octets.
    fn frame_limit(&self, connection: u32) -> u32
        ensures { (rules : RuleSet) (history : Events) → Self.stands_for self.now rules history → (result ≡ connections.frame_limit connection history) };
}
