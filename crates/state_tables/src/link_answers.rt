//! Answers to questions about the past, as far as links and handles go: each as the questions of `trace_judge` ask it.

ghost use Rattle.std.specs.Prelude.{◌≡◌, Some, is_some, option_map, true};
ghost use Rattle.trace_events.specs.LinkClause as attaches;
ghost use Rattle.trace_events.specs.Credit as credits;
ghost use Rattle.trace_events.specs.Link as links;
ghost use Rattle.trace_events.specs.Link.{IsLiveLink};
ghost use Rattle.trace_events.specs.Session.{IsLiveOn};
ghost use Rattle.state_tables.specs.LinkTables.{AreLinked};
ghost use Rattle.state_counts.specs.LinkCounts.{link_counts};
ghost use Rattle.trace_events.specs.Answering.{their_first_count};
ghost use Rattle.trace_events.specs.View.{Events, asking_view, link_view};

use crate::links::Links;
use state_counts::LinkCounts;
use trace_events::{Asking, Link, Session};

impl Links {
    /// The link that lives on the handle of a live session. `None` where none does.
    #[tactic(auto, using(crate::proofs::LiveHandles::standing_live, crate::proofs::LiveHandles::linked))]
    pub fn session_link(&self, session: Session, handle: u32) -> Option<Link<'_>>
        ensures { (history : Events) → AreLinked self.now history → IsLiveOn session history →
            option_map link_view result ≡ links.session_link session handle history }
    {
        self.handle(session.connection, session.channel, handle)?
            .link()
    }

    /// The link lives.
    #[tactic(auto, using(crate::proofs::LiveHandles::live_linked))]
    pub fn is_live(&self, link: &Link) -> bool
        ensures { (history : Events) → AreLinked self.now history → result ≡ links.is_live history (link_view link.now) }
    {
        let session = link.session;
        match self.handle(session.connection, session.channel, link.handle) {
            Some(handle) => match handle.link() {
                Some(live) => live.number == link.number,
                None => false,
            },
            None => false,
        }
    }

    /// Since the router's last attach of the handle of a live session, a refusal included, the router has detached it, and
    /// the client hasn't.
    #[tactic(auto, using(crate::proofs::LiveHandles::standing_live))]
    pub fn awaits_detach(&self, session: Session, handle: u32) -> bool
        ensures { (history : Events) → AreLinked self.now history → IsLiveOn session history →
            result ≡ links.awaits_detach session handle history }
    {
        match self.handle(session.connection, session.channel, handle) {
            Some(handle) => handle.awaits_detach(),
            None => false,
        }
    }

    /// A detach of the client's, or an attach of its that was refused, is still to be answered on a live session.
    #[tactic(auto, using(crate::proofs::LiveHandles::standing_live))]
    pub fn owes_detach(&self, session: Session, handle: u32) -> bool
        ensures { (history : Events) → AreLinked self.now history → IsLiveOn session history →
            result ≡ links.owes_detach session handle history }
    {
        match self.handle(session.connection, session.channel, handle) {
            Some(handle) => handle.owes_detach(),
            None => false,
        }
    }

    /// What an attach of the client's on a live session asks for that is still to be answered. `None` where there is none.
    #[tactic(auto, using(crate::proofs::LiveHandles::standing_live, crate::proofs::LiveHandles::asked))]
    pub fn asking(&self, session: Session, handle: u32) -> Option<Asking<'_>>
        ensures { (history : Events) → AreLinked self.now history → IsLiveOn session history →
            option_map asking_view result ≡ attaches.asking session handle history }
    {
        self.handle(session.connection, session.channel, handle)?
            .asking()
    }

    /// The initial-delivery-count of the client's last attach of the handle, where that is still to be answered.
    #[tactic(auto, using(crate::proofs::LiveHandles::standing_live, crate::proofs::LiveHandles::first_asked))]
    pub fn last_first_count(&self, session: Session, handle: u32) -> u32
        ensures { (history : Events) → AreLinked self.now history → IsLiveOn session history →
            is_some (attaches.asking session handle history) ≡ true →
            result ≡ their_first_count (links.last_in_attach session handle history) }
    {
        match self.handle(session.connection, session.channel, handle) {
            Some(handle) => handle.first_count(),
            None => 0,
        }
    }

    /// The counts of a live link.
    #[tactic(auto, using(crate::proofs::LiveHandles::standing_live, crate::proofs::LiveHandles::counted_live))]
    fn counts(&self, link: &Link) -> Option<LinkCounts>
        ensures { (history : Events) → AreLinked self.now history → IsLiveLink (link_view link.now) history →
            result ≡ Some (link_counts (link_view link.now) history) }
    {
        let session = link.session;
        self.handle(session.connection, session.channel, link.handle)?
            .counts()
    }

    /// How many deliveries may still begin on a consumer's live link.
    pub fn link_credit(&self, link: &Link) -> u32
        ensures { (history : Events) → AreLinked self.now history → IsLiveLink (link_view link.now) history →
            result ≡ credits.link_credit (link_view link.now) history }
    {
        match self.counts(link) {
            Some(counts) => counts.link_credit,
            None => 0,
        }
    }

    /// A consumer's live link's delivery-count.
    pub fn delivery_count(&self, link: &Link) -> u32
        ensures { (history : Events) → AreLinked self.now history → IsLiveLink (link_view link.now) history →
            result ≡ credits.delivery_count (link_view link.now) history }
    {
        match self.counts(link) {
            Some(counts) => counts.delivery_count,
            None => 0,
        }
    }

    /// The client's last flow with a link-credit asks to drain.
    pub fn is_draining(&self, link: &Link) -> bool
        ensures { (history : Events) → AreLinked self.now history → IsLiveLink (link_view link.now) history →
            result ≡ credits.is_draining (link_view link.now) history }
    {
        match self.counts(link) {
            Some(counts) => counts.is_draining,
            None => false,
        }
    }

    /// How many deliveries may still begin on a producer's live link.
    pub fn given_credit(&self, link: &Link) -> u32
        ensures { (history : Events) → AreLinked self.now history → IsLiveLink (link_view link.now) history →
            result ≡ credits.given_credit (link_view link.now) history }
    {
        match self.counts(link) {
            Some(counts) => counts.given_credit,
            None => 0,
        }
    }

    /// A producer's live link's delivery-count.
    pub fn received_count(&self, link: &Link) -> u32
        ensures { (history : Events) → AreLinked self.now history → IsLiveLink (link_view link.now) history →
            result ≡ credits.received_count (link_view link.now) history }
    {
        match self.counts(link) {
            Some(counts) => counts.received_count,
            None => 0,
        }
    }
}
