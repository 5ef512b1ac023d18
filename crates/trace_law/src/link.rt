//! The link of a handle (part 2 of the standard, section 2.6).

mod address;
mod credit;

use crate::past::Past;
use trace_events::{Asking, Event, Link, Session, opens_link, their_first_count};

impl<'p, 'a> Past<'p, 'a> {
    ghost use Rattle.std.specs.Prelude.{◌≡◌, option_map};
    ghost use Rattle.trace_events.specs.Link as law;
    ghost use Rattle.trace_events.specs.LinkClause.{asking};
    ghost use Rattle.trace_events.specs.Link.{unanswered_attach, owes_detach};
    ghost use Rattle.trace_law.specs.OnStack.{events};
    ghost use Rattle.trace_events.specs.View.{asking_view, link_view, event_view};

    /// The client's last attach of the handle on the session that was heard.
    pub(crate) fn last_in_attach(&self, session: Session, handle: u32) -> Option<Event<'a, 'p, 'a>>
        ensures { option_map event_view result ≡ law.last_in_attach session handle (events self.now) }
    {
        let mut rest = self;
        while let Past::After(event, earlier) = rest {
            if event.attaches_in(session, handle) && event.is_heard {
                return Some(*event);
            }
            rest = *earlier;
        }
        None
    }

    /// The link of the last Out attach of the handle on the session that opens one, if no detach in either direction of
    /// the handle stands since.
    pub(crate) fn session_link(&self, session: Session, handle: u32) -> Option<Link<'a>>
        ensures { option_map link_view result ≡ law.session_link session handle (events self.now) }
    {
        let mut rest = self;
        while let Past::After(event, earlier) = rest {
            if event.detaches_in(session, handle) || event.detaches_out(session, handle) {
                return None;
            }
            if event.attaches_out(session, handle) {
                let ours = event.out_attach()?;
                if opens_link(&ours) {
                    let theirs = their_first_count(earlier.last_in_attach(session, handle));
                    return Some(Link::new(event.number, session, &ours, theirs));
                }
            }
            rest = *earlier;
        }
        None
    }

    /// The live link of a handle: that one on the channel's live session.
    pub(crate) fn live_link(&self, connection: u32, channel: u16, handle: u32) -> Option<Link<'a>>
        ensures { option_map link_view result ≡ law.live_link connection channel handle (events self.now) }
    {
        let session = self.live_session(connection, channel)?;
        self.session_link(session, handle)
    }

    pub(crate) fn is_live(&self, link: &Link) -> bool
        ensures { result ≡ law.is_live (events self.now) (link_view link.now) }
    {
        let session = link.session;
        match self.live_link(session.connection, session.channel, link.handle) {
            Some(live) => live.number == link.number,
            None => false,
        }
    }

    /// The client hasn't detached the handle since the last Out attach of it.
    fn is_undetached(&self, session: Session, handle: u32) -> bool
        ensures { result ≡ law.is_undetached session handle (events self.now) }
    {
        let mut rest = self;
        while let Past::After(event, earlier) = rest {
            if event.attaches_out(session, handle) {
                return true;
            }
            if event.detaches_in(session, handle) {
                return false;
            }
            rest = *earlier;
        }
        false
    }

    /// Since the last Out attach of the handle the router has detached it, and the client hasn't: its detach is awaited.
    pub(crate) fn awaits_detach(&self, session: Session, handle: u32) -> bool
        ensures { result ≡ law.awaits_detach session handle (events self.now) }
    {
        let mut rest = self;
        while let Past::After(event, earlier) = rest {
            if event.attaches_out(session, handle) || event.detaches_in(session, handle) {
                return false;
            }
            if event.detaches_out(session, handle) {
                return earlier.is_undetached(session, handle);
            }
            rest = *earlier;
        }
        false
    }

    /// The client's last heard attach of the handle, if no Out attach of it stands since.
    pub(crate) fn unanswered_attach(
        &self,
        session: Session,
        handle: u32,
    ) -> Option<Event<'a, 'p, 'a>>
        ensures { option_map event_view result ≡ unanswered_attach session handle (events self.now) }
    {
        let mut rest = self;
        while let Past::After(event, earlier) = rest {
            if event.attaches_out(session, handle) {
                return None;
            }
            if event.attaches_in(session, handle) && event.is_heard {
                return Some(*event);
            }
            rest = *earlier;
        }
        None
    }

    /// What an attach of the client's asks for that is still to be answered.
    pub(crate) fn asking(&self, session: Session, handle: u32) -> Option<Asking<'a>>
        ensures { option_map asking_view result ≡ asking session handle (events self.now) }
    {
        let event = self.unanswered_attach(session, handle)?;
        Some(Asking::of(&event, &event.in_attach()?))
    }

    /// Since the last Out detach of the handle the client has detached a link that was live, or an attach was refused.
    pub(crate) fn owes_detach(&self, session: Session, handle: u32) -> bool
        ensures { result ≡ owes_detach session handle (events self.now) }
    {
        let mut rest = self;
        while let Past::After(event, earlier) = rest {
            if event.detaches_out(session, handle) {
                return false;
            }
            if event.detaches_in(session, handle) && event.link.is_some() {
                return true;
            }
            if event.attaches_out(session, handle) && event.link.is_none() {
                return true;
            }
            rest = *earlier;
        }
        false
    }
}
