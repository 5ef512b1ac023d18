//! The answers of the plain checker: each by a scan of the events on the stack.

use crate::past::Past;
use amqp_perf::{Begin, Outcome};
use capture_form::{Record, RuleSet};
use pairing_cert::Note;
use trace_events::{
    Asking, Clause, Decision, Event, Incoming, Link, Outgoing, ReadRecord, Session,
    their_first_count,
};
use trace_judge::{
    Carriage, Counts, History, Inputs, Openings, Outcomes, Questions, broken_clause, judge,
    judge_unopened,
};

impl<'p, 'a> History for Past<'p, 'a> {
    ghost use Rattle.std.specs.Prelude.{◌≡◌, ◌<◌, ◌^◌, length};
    ghost use Rattle.trace_law.specs.OnStack.{events};

    ghost stands_for = { λ past rules history. events past ≡ history };

    ghost knows_number = { λ past number history. Unit {0} };

    ghost knows_incoming = { λ past delivery history. Unit {0} };

    ghost knows_outgoing = { λ past delivery history. Unit {0} };

    ghost knows_begin = { λ past connection channel history. Unit {0} };

    ghost knows_attach = { λ past session handle history. Unit {0} };

    ghost is_short = { λ past. length (events past) < 2 ^ 64 };

    ghost is_whole = { λ past. Unit {0} };

    ghost keeps_last = { λ past history. Unit {0} };
}

impl<'p, 'a> Questions<'a> for Past<'p, 'a> {}

impl<'p, 'a> Inputs<'a> for Past<'p, 'a> {
    fn is_over(&self, connection: u32) -> bool {
        self.is_over(connection)
    }

    fn has_in_open(&self, connection: u32) -> bool {
        self.has_in_open(connection)
    }

    fn live_session(&self, connection: u32, channel: u16) -> Option<Session> {
        self.live_session(connection, channel)
    }

    fn awaits_end(&self, connection: u32, channel: u16) -> bool {
        self.awaits_end(connection, channel)
    }

    fn session_link(&self, session: Session, handle: u32) -> Option<Link<'a>> {
        self.session_link(session, handle)
    }

    fn awaits_detach(&self, session: Session, handle: u32) -> bool {
        self.awaits_detach(session, handle)
    }

    fn given_window(&self, session: Session) -> u32 {
        self.given_window(session)
    }

    fn given_credit(&self, link: &Link) -> u32 {
        self.given_credit(link)
    }

    fn incoming_in_progress(&self, link: &Link) -> Option<Incoming<'a>> {
        self.incoming_in_progress(link)
    }

    fn is_longer(&self, limit: u64, delivery: &Incoming, octets: &[u8]) -> bool {
        self.is_longer(limit, delivery, octets)
    }

    fn is_id_in_use(&self, rules: &RuleSet, session: Session, id: u32) -> bool {
        self.is_id_in_use(rules, session, id)
    }
}

impl<'p, 'a> Outcomes<'a> for Past<'p, 'a> {
    fn to_tell(&self, rules: &RuleSet, session: Session, id: u32) -> Option<Incoming<'a>> {
        self.to_tell(rules, session, id)
    }

    fn to_settle(&self, session: Session, id: u32) -> Option<Outgoing<'a>> {
        self.to_settle(session, id)
    }

    fn incoming_at(&self, number: u64) -> Option<Incoming<'a>> {
        self.incoming_at(number)
    }

    fn is_complete(&self, delivery: &Incoming) -> bool {
        self.is_complete(delivery)
    }

    fn is_closed(&self, delivery: &Incoming) -> bool {
        self.is_closed(delivery)
    }

    fn is_of_multicast(&self, rules: &RuleSet, delivery: &Incoming) -> bool {
        self.is_of_multicast(rules, delivery)
    }

    fn is_gone(&self, rules: &RuleSet, delivery: &Incoming) -> bool {
        self.is_gone(rules, delivery)
    }

    fn is_live(&self, link: &Link) -> bool {
        self.is_live(link)
    }

    fn pairing(&self, delivery: &Incoming) -> Option<Outgoing<'a>> {
        self.pairing(delivery)
    }

    fn decision(&self, delivery: &Outgoing) -> Option<Decision<'a>> {
        self.decided(delivery)
    }

    fn is_sent(&self, delivery: &Outgoing) -> bool {
        self.is_sent(delivery)
    }

    fn whole_verdict(&self, rules: &RuleSet, delivery: &Incoming) -> Option<Outcome> {
        self.whole_verdict(rules, delivery)
    }

    fn frame_limit(&self, connection: u32) -> u32 {
        self.frame_limit(connection)
    }
}

impl<'p, 'a> Openings<'a> for Past<'p, 'a> {
    fn was_opened(&self, connection: u32) -> bool {
        self.was_opened(connection)
    }

    fn was_finished(&self, connection: u32) -> bool {
        self.was_finished(connection)
    }

    fn was_stopped(&self, connection: u32) -> bool {
        self.was_stopped(connection)
    }

    fn has_out_frame(&self, connection: u32) -> bool {
        self.has_out_frame(connection)
    }

    fn has_unanswered_begin(&self, connection: u32, channel: u16) -> bool {
        self.has_unanswered_begin(connection, channel)
    }

    fn last_in_begin(&self, connection: u32, channel: u16) -> Option<Begin> {
        self.last_in_begin(connection, channel)
    }

    fn owes_end(&self, connection: u32, channel: u16) -> bool {
        self.owes_end(connection, channel)
    }

    fn last_first_count(&self, session: Session, handle: u32) -> u32 {
        their_first_count(self.last_in_attach(session, handle))
    }

    fn asking(&self, session: Session, handle: u32) -> Option<Asking<'a>> {
        self.asking(session, handle)
    }

    fn owes_detach(&self, session: Session, handle: u32) -> bool {
        self.owes_detach(session, handle)
    }
}

impl<'p, 'a> Counts for Past<'p, 'a> {
    fn session_window(&self, session: Session) -> u32 {
        self.session_window(session)
    }

    fn next_outgoing_id(&self, session: Session) -> u32 {
        self.next_outgoing_id(session)
    }

    fn next_incoming_id(&self, session: Session) -> u32 {
        self.next_incoming_id(session)
    }

    fn next_delivery_id(&self, session: Session) -> u32 {
        self.next_delivery_id(session)
    }

    fn link_credit(&self, link: &Link) -> u32 {
        self.link_credit(link)
    }

    fn delivery_count(&self, link: &Link) -> u32 {
        self.delivery_count(link)
    }

    fn is_draining(&self, link: &Link) -> bool {
        self.is_draining(link)
    }

    fn received_count(&self, link: &Link) -> u32 {
        self.received_count(link)
    }

    fn undecided_count(&self, rules: &RuleSet, link: &Link) -> u64 {
        self.undecided_count(rules, link)
    }

    fn has_consumer(&self, address: &[u8]) -> bool {
        self.has_consumer(address)
    }

    fn has_waiting(&self, rules: &RuleSet, address: &[u8]) -> bool {
        self.has_waiting(rules, address)
    }

    fn has_unsent(&self, rules: &RuleSet, link: &Link) -> bool {
        self.has_unsent(rules, link)
    }
}

impl<'p, 'a> Carriage<'a> for Past<'p, 'a> {
    fn outgoing_in_progress(&self, link: &Link) -> Option<Outgoing<'a>> {
        self.outgoing_in_progress(link)
    }

    fn to_carry(&self, rules: &RuleSet, note: Note) -> Option<Incoming<'a>> {
        self.to_carry(rules, note)
    }

    fn is_for(&self, delivery: &Incoming, address: &[u8]) -> bool {
        self.is_for(delivery, address)
    }

    fn carried_before(&self, link: &Link) -> Option<Incoming<'a>> {
        self.carried_before(link)
    }

    fn completed_before(&self, a: &Incoming, b: &Incoming) -> bool {
        self.completed_before(a, b)
    }

    fn is_payload_so_far(
        &self,
        more: bool,
        delivery: &Incoming,
        outgoing: &Outgoing,
        octets: &'a [u8],
    ) -> bool {
        self.is_payload_so_far(more, delivery, outgoing, octets)
    }

    fn is_paired(&self, delivery: &Incoming) -> bool {
        self.is_paired(delivery)
    }

    fn is_unsent(&self, rules: &RuleSet, delivery: &Incoming, link: &Link) -> bool {
        self.is_unsent(rules, delivery, link)
    }
}

/// A record, judged by the events on the stack.
impl<'p, 'a> Past<'p, 'a> {
    ghost use Rattle.std.specs.Prelude.{◌≡◌, length};
    ghost use Rattle.trace_events.specs.Clauses.{broken_clause};
    ghost use Rattle.trace_events.specs.History.{judge};
    ghost use Rattle.trace_law.specs.OnStack.{events};
    ghost use Rattle.trace_events.specs.View.{event_view};

    /// The record of this number in its place.
    #[tactic(auto, using(crate::proofs::KnownAll::opens_all))]
    pub(crate) fn judge<'r>(
        &self,
        rules: &RuleSet,
        number: u64,
        entry: &'r ReadRecord<'a>,
    ) -> Event<'a, 'r, 'a>
        requires numbered { number ≡ length (events self.now) }
        ensures { event_view result ≡ judge rules.now (events self.now) entry.now }
    {
        judge(self, rules, number, entry)
    }

    /// The first clause that the record of this number breaks.
    pub(crate) fn broken_by(
        &self,
        rules: &RuleSet,
        number: u64,
        entry: &'a Record,
    ) -> Option<Clause>
        requires numbered { number ≡ length (events self.now) }
        ensures { result ≡ broken_clause rules.now (judge rules.now (events self.now) entry.now) (events self.now) }
    {
        let entry = ReadRecord::of(entry);
        let event = judge_unopened(self, rules, number, &entry);
        broken_clause(self, rules, &event)
    }
}
