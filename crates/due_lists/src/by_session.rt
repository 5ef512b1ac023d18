//! The live links of consumers, by their sessions.

ghost use Rattle.std.specs.Prelude.{◌≡◌, ℕ, Some, OnOk, false, length, nat_eq, slice_get, true};
ghost use Rattle.trace_events.specs.Link.{opened_consumer};
ghost use Rattle.number_groups.specs.Groups.{numbers};
ghost use Rattle.trace_events.specs.Event as law;
ghost use Rattle.trace_events.specs.View.{event_view};
ghost use Rattle.state_tables.specs.EndedLinks.{views};
ghost use Rattle.state_tables.specs.ConsumerLinks.{has_link};
ghost use Rattle.due_lists.specs.BySession.{HasNone, stands};

use number_groups::Groups;
use std::alloc::{AllocError, Global};
use trace_events::{Event, Link};

/// The numbers of the live links of consumers, by those of their sessions.
#[derive(Drop)]
pub struct BySession {
    numbers: Groups<u64>,
}

impl BySession {
    /// No links.
    pub fn new(alloc: Global) -> BySession
        ensures { HasNone result }
    {
        BySession {
            numbers: Groups::new(alloc),
        }
    }

    /// These links are over.
    pub fn end(&mut self, ended: &[Link])
        ensures { (session n : ℕ) → has_link (views ended.now) n ≡ false → stands self.old session n ≡ true → stands self.new session n ≡ true }
    {
        for link in ended {
            self.numbers.remove(&link.session.number, link.number);
        }
    }

    /// The link of a consumer that the event opens comes in.
    ///
    /// # Errors
    ///
    /// Memory was refused; then all stays as it was.
    pub fn open(&mut self, event: &Event) -> Result<(), AllocError>
        ensures opened { OnOk result ((l : law.Link) → opened_consumer (event_view event.now) ≡ Some l →
            stands self.new l.session.number l.number ≡ true) }
        ensures stood { OnOk result ((session n : ℕ) → stands self.old session n ≡ true → stands self.new session n ≡ true) }
    {
        let Some(link) = event.opened_consumer() else {
            return Ok(());
        };
        self.numbers.insert(link.session.number, link.number)?;
        Ok(())
    }

    /// How many there are of the session.
    pub fn count(&self, session: u64) -> usize
        ensures { result ≡ length (numbers nat_eq self.now.numbers session) }
    {
        self.numbers.count(&session)
    }

    /// The number at the index among those of the session.
    pub fn get(&self, session: u64, index: usize) -> Option<u64>
        ensures { result ≡ slice_get (numbers nat_eq self.now.numbers session) index }
    {
        self.numbers.get(&session, index)
    }
}
