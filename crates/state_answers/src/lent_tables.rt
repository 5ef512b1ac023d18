//! The tables, lent to whoever asks them the questions of `trace_judge`.

mod carriage;
mod outcomes;

use amqp_perf::Begin;
use capture_form::RuleSet;
use state_incoming::Deliveries;
use state_outgoing::SentDeliveries;
use state_tables::{Connections, ConsumerLinks, Consumers, Copies, Links};
use state_verdicts::Verdicts;
use trace_events::{Asking, Incoming, Link, Session};
use trace_judge::{Counts, History, Inputs, Openings, Questions};

/// The tables, lent. `consumers` has the live links of consumers by address, and `consumer_links` the same links by number;
/// `deliveries` are those from clients, `sent` those to clients; `copies` has what of multicast is to be sent, and `verdicts`
/// what came of it.
#[derive(Clone, Copy)]
pub struct LentTables<'t> {
    pub connections: &'t Connections,
    pub links: &'t Links,
    pub consumers: &'t Consumers,
    pub deliveries: &'t Deliveries,
    pub consumer_links: &'t ConsumerLinks,
    pub copies: &'t Copies,
    pub sent: &'t SentDeliveries,
    pub verdicts: &'t Verdicts,
}

impl<'t> History for LentTables<'t> {
    ghost use Rattle.std.specs.Prelude.{◌≡◌, is_some, true};
    ghost use Rattle.trace_events.specs.LinkClause.{asking};
    ghost use Rattle.trace_events.specs.Session.{has_unanswered_begin};
    ghost use Rattle.state_answers.specs.Tables.{IsWhole, KeepsLast, StandFor};
    ghost use Rattle.state_incoming.specs.EntryAnswers.{Knows, has_entry};
    ghost use Rattle.state_outgoing.specs.SentAnswers.{KnowsOrBegins};

    ghost stands_for = { λ tables rules history.
        StandFor rules tables.connections.now tables.links.now tables.consumers.now tables.deliveries.now
        tables.consumer_links.now tables.copies.now tables.sent.now tables.verdicts.now history };

    ghost knows_number = { λ tables number history. has_entry tables.deliveries.now number ≡ true };

    ghost knows_incoming = { λ tables delivery history. Knows tables.deliveries.now delivery };

    ghost knows_outgoing = { λ tables delivery history. KnowsOrBegins tables.sent.now history delivery };

    ghost knows_begin = { λ tables connection channel history. has_unanswered_begin connection channel history ≡ true };

    ghost knows_attach = { λ tables session handle history. is_some (asking session handle history) ≡ true };

    ghost is_short = { λ tables. Unit {0} };

    ghost is_whole = { λ tables. IsWhole tables.deliveries.now };

    ghost keeps_last = { λ tables history. KeepsLast tables.deliveries.now.let_go.items history };
}

impl<'t> Inputs<'t> for LentTables<'t> {
    fn is_over(&self, connection: u32) -> bool {
        self.connections.is_over(connection)
    }

    fn has_in_open(&self, connection: u32) -> bool {
        self.connections.has_in_open(connection)
    }

    fn live_session(&self, connection: u32, channel: u16) -> Option<Session> {
        self.connections.live_session(connection, channel)
    }

    fn awaits_end(&self, connection: u32, channel: u16) -> bool {
        self.connections.awaits_end(connection, channel)
    }

    fn session_link(&self, session: Session, handle: u32) -> Option<Link<'t>> {
        self.links.session_link(session, handle)
    }

    fn awaits_detach(&self, session: Session, handle: u32) -> bool {
        self.links.awaits_detach(session, handle)
    }

    fn given_window(&self, session: Session) -> u32 {
        self.connections.given_window(session)
    }

    fn given_credit(&self, link: &Link) -> u32 {
        self.links.given_credit(link)
    }

    fn incoming_in_progress(&self, link: &Link) -> Option<Incoming<'t>> {
        self.deliveries.incoming_in_progress(link)
    }

    fn is_longer(&self, limit: u64, delivery: &Incoming, octets: &[u8]) -> bool {
        self.deliveries.is_longer(limit, delivery, octets)
    }

    fn is_id_in_use(&self, _rules: &RuleSet, session: Session, id: u32) -> bool {
        self.deliveries.is_id_in_use(session, id)
    }
}

impl<'t> Openings<'t> for LentTables<'t> {
    fn was_opened(&self, connection: u32) -> bool {
        self.connections.seen(connection).was_opened
    }

    fn was_finished(&self, connection: u32) -> bool {
        self.connections.seen(connection).was_finished
    }

    fn was_stopped(&self, connection: u32) -> bool {
        self.connections.seen(connection).was_stopped
    }

    fn has_out_frame(&self, connection: u32) -> bool {
        self.connections.seen(connection).has_out_frame
    }

    fn has_unanswered_begin(&self, connection: u32, channel: u16) -> bool {
        self.connections.has_unanswered_begin(connection, channel)
    }

    fn last_in_begin(&self, connection: u32, channel: u16) -> Option<Begin> {
        self.connections.last_in_begin(connection, channel)
    }

    fn owes_end(&self, connection: u32, channel: u16) -> bool {
        self.connections.owes_end(connection, channel)
    }

    fn last_first_count(&self, session: Session, handle: u32) -> u32 {
        self.links.last_first_count(session, handle)
    }

    fn asking(&self, session: Session, handle: u32) -> Option<Asking<'t>> {
        self.links.asking(session, handle)
    }

    fn owes_detach(&self, session: Session, handle: u32) -> bool {
        self.links.owes_detach(session, handle)
    }
}

impl<'t> Counts for LentTables<'t> {
    fn session_window(&self, session: Session) -> u32 {
        self.connections.session_window(session)
    }

    fn next_outgoing_id(&self, session: Session) -> u32 {
        self.connections.next_outgoing_id(session)
    }

    fn next_incoming_id(&self, session: Session) -> u32 {
        self.connections.next_incoming_id(session)
    }

    fn next_delivery_id(&self, session: Session) -> u32 {
        self.connections.next_delivery_id(session)
    }

    fn link_credit(&self, link: &Link) -> u32 {
        self.links.link_credit(link)
    }

    fn delivery_count(&self, link: &Link) -> u32 {
        self.links.delivery_count(link)
    }

    fn is_draining(&self, link: &Link) -> bool {
        self.links.is_draining(link)
    }

    fn received_count(&self, link: &Link) -> u32 {
        self.links.received_count(link)
    }

    fn undecided_count(&self, _rules: &RuleSet, link: &Link) -> u64 {
        self.deliveries.undecided_count(link)
    }

    fn has_consumer(&self, address: &[u8]) -> bool {
        self.consumers.has_consumer(address)
    }

    fn has_waiting(&self, _rules: &RuleSet, address: &[u8]) -> bool {
        self.deliveries.has_waiting(address)
    }

    fn has_unsent(&self, _rules: &RuleSet, link: &Link) -> bool {
        self.copies.has_unsent(link)
    }
}

impl<'t> Questions<'t> for LentTables<'t> {}
