//! The numbers of the copies that may be unsent, and of the links on which they are.

ghost use Rattle.std.specs.Prelude.{◌≡◌, ◌&&◌, ℕ, List, Some, None, IfSome, OnOk, true, false, option_map, ◌==◌, nat_eq, slice_get};
ghost use Rattle.capture_form.specs.Rules.{RuleSet};
ghost use Rattle.capture_form.specs.declared.records.Record.{Record};
ghost use Rattle.number_groups.specs.Groups.{numbers};
ghost use Rattle.trace_events.specs.Words.{is_some_and};
ghost use Rattle.trace_events.specs.Event as law;
ghost use Rattle.trace_events.specs.declared.session.Session.{Session};
ghost use Rattle.trace_events.specs.Due as due;
ghost use Rattle.trace_events.specs.History.{history};
ghost use Rattle.trace_events.specs.Incoming.{completes, incoming_at};
ghost use Rattle.trace_events.specs.Link.{IsLiveLink};
ghost use Rattle.trace_events.specs.Session.{IsLiveOn};
ghost use Rattle.trace_events.specs.View.{Events, event_view, incoming_view};
ghost use Rattle.state_answers.specs.Tables.{TellsOf};
ghost use Rattle.state_tables.specs.EndedLinks.{views};
ghost use Rattle.state_tables.specs.ConsumerLinks.{has_link, link_in};
ghost use Rattle.state_tables.specs.Copies.{AreCopies, names_at};
ghost use Rattle.due_lists.specs.Standing.{grants_window, has_window};
ghost use Rattle.due_lists.specs.UnsentNumbers.{AreWith, IsIn, IsKept, IsKeptBut, IsOfBoth, Stays, Waits, copy_on, receives, stands, waits};

use crate::addresses_to_try::granted;
use crate::by_link::ByLink;
use crate::copy_candidates::CopyCandidates;
use number_groups::Groups;
use state_answers::LentTables;
use state_tables::{ConsumerLinks, Copies, Receiver, named_on_link};
use std::alloc::{AllocError, Global};
use trace_events::{Event, Incoming, Link};

/// The numbers of the copies that may be unsent, and of the links on which they are.
#[derive(Drop)]
pub struct UnsentNumbers {
    /// The deliveries, by the numbers of the links.
    pub copies: ByLink,
    /// The links, by their sessions.
    of_session: Groups<u64>,
    /// Those that may be sent a delivery.
    pub links: CopyCandidates,
}

impl UnsentNumbers {
    /// No copies.
    pub fn new(alloc: Global) -> UnsentNumbers
        ensures { (link completion : ℕ) → copy_on result link completion ≡ None }
    {
        UnsentNumbers {
            copies: ByLink::new(alloc),
            of_session: Groups::new(alloc),
            links: CopyCandidates::new(alloc),
        }
    }

    /// Nothing is to be sent on these links any more.
    pub fn end(&mut self, ended: &[Link])
        ensures listed { (link c : ℕ) → has_link (views ended.now) link ≡ false → copy_on self.new link c ≡ copy_on self.old link c }
        ensures only { (link c n : ℕ) → copy_on self.new link c ≡ Some n → copy_on self.old link c ≡ Some n }
        ensures stood { (session n : ℕ) → has_link (views ended.now) n ≡ false → stands self.old session n ≡ true → stands self.new session n ≡ true }
        ensures waited { (c n : ℕ) → waits self.new c n ≡ waits self.old c n }
    {
        for link in ended {
            self.of_session.remove(&link.session.number, link.number);
            self.copies.clear(link.number);
        }
    }

    /// What the event names on its link is sent, which is the first there.
    pub fn send(&mut self, event: &Event)
        ensures listed { (link c n : ℕ) → names_at link n (event_view event.now) ≡ false → copy_on self.old link c ≡ Some n → copy_on self.new link c ≡ Some n }
        ensures only { (link c n : ℕ) → copy_on self.new link c ≡ Some n → copy_on self.old link c ≡ Some n }
        ensures stood { (session n : ℕ) → stands self.new session n ≡ stands self.old session n }
        ensures waited { (c n : ℕ) → is_some_and (event_view event.now).link (λ l. l.number == n) ≡ false → waits self.old c n ≡ true → waits self.new c n ≡ true }
    {
        if let Some((link, number)) = named_on_link(event) {
            self.send_first(link, number);
        }
    }

    /// The link's first delivery goes, if it has this number.
    fn send_first(&mut self, link: u64, number: u64)
        ensures listed { (at c n : ℕ) → (link == at && (number == n)) ≡ false → copy_on self.old at c ≡ Some n → copy_on self.new at c ≡ Some n }
        ensures only { (at c n : ℕ) → copy_on self.new at c ≡ Some n → copy_on self.old at c ≡ Some n }
        ensures stood { (session n : ℕ) → stands self.new session n ≡ stands self.old session n }
        ensures waited { (c n : ℕ) → (link == n) ≡ false → waits self.old c n ≡ true → waits self.new c n ≡ true }
    {
        let Some((completion, first)) = self.copies.first(link) else {
            return;
        };
        if first == number {
            self.copies.remove(link, completion);
            self.links.remove(completion, link);
        }
    }

    /// Where the event completes its delivery, copies of it may have come due to these receivers, whose links are in the
    /// table; the copies are those behind the event.
    ///
    /// # Errors
    ///
    /// Memory was refused; then some may not be listed.
    pub fn come(
        &mut self,
        event: &Event,
        receivers: &[Receiver],
        links: &ConsumerLinks,
        copies: &Copies,
    ) -> Result<(), AllocError>
        ensures came { OnOk result ((rules : RuleSet) (records : List Record) → AreCopies rules copies.now (history rules records) → (l : law.Link) (d : law.Incoming) →
            (event_view event.now).incoming ≡ Some d → completes d (event_view event.now) ≡ true → receives receivers.now l.number ≡ true →
            link_in links.now l.number ≡ Some l → IsLiveLink l (history rules records) →
            incoming_at d.number (history rules records) ≡ Some d → due.is_unsent rules d l (history rules records) ≡ true →
            IsIn self.new l.session.number l.number (event_view event.now).number d.number) }
        ensures only { OnOk result (IsOfBoth (event_view event.now) self.old self.new) }
        ensures kept { OnOk result (IsKeptBut (event_view event.now).number self.old self.new) }
    {
        let Some(delivery) = completed(event) else {
            return Ok(());
        };
        for receiver in receivers {
            self.offer(event.number, &delivery, receiver.link, links, copies)?;
        }
        Ok(())
    }

    /// A copy of the delivery, which this record completed, may have come due to the link of this number.
    fn offer(
        &mut self,
        completion: u64,
        delivery: &Incoming,
        number: u64,
        links: &ConsumerLinks,
        copies: &Copies,
    ) -> Result<(), AllocError>
        ensures came { OnOk result ((rules : RuleSet) (records : List Record) → AreCopies rules copies.now (history rules records) → (l : law.Link) →
            link_in links.now number ≡ Some l → IsLiveLink l (history rules records) →
            incoming_at (incoming_view delivery.now).number (history rules records) ≡ Some (incoming_view delivery.now) →
            due.is_unsent rules (incoming_view delivery.now) l (history rules records) ≡ true →
            IsIn self.new l.session.number l.number completion (incoming_view delivery.now).number) }
        ensures only { OnOk result (AreWith completion (incoming_view delivery.now).number self.old self.new) }
        ensures stays { OnOk result (Stays completion (incoming_view delivery.now).number self.old self.new) }
        ensures kept { OnOk result (IsKeptBut completion self.old self.new) }
    {
        let Some(link) = links.get(number) else {
            return Ok(());
        };
        if copies.is_unsent(delivery, &link) {
            self.add(&link, completion, delivery.number)?;
        }
        Ok(())
    }

    /// A copy of the delivery of this number, which that record completed, is to be sent on the link.
    fn add(&mut self, link: &Link, completion: u64, number: u64) -> Result<(), AllocError>
        ensures added { OnOk result (IsIn self.new link.now.session.number link.now.number completion number) }
        ensures only { OnOk result (AreWith completion number self.old self.new) }
        ensures stays { OnOk result (Stays completion number self.old self.new) }
        ensures kept { OnOk result (IsKeptBut completion self.old self.new) }
    {
        self.copies.insert(link.number, completion, number)?;
        self.of_session.insert(link.session.number, link.number)?;
        self.touch_link(link.number)?;
        Ok(())
    }

    /// The event's link, and that of its delivery to a client, may be sent a delivery, where copies may be unsent there.
    ///
    /// # Errors
    ///
    /// Memory was refused; then a link may be missing.
    pub fn touch(&mut self, event: &Event) -> Result<(), AllocError>
        ensures own { OnOk result ((link c n : ℕ) → is_some_and (event_view event.now).link (λ l. l.number == link) ≡ true →
            copy_on self.new link c ≡ Some n → Waits self.new link) }
        ensures carrying { OnOk result ((link c n : ℕ) → is_some_and (event_view event.now).outgoing (λ j. j.link.number == link) ≡ true →
            copy_on self.new link c ≡ Some n → Waits self.new link) }
        ensures kept { OnOk result (IsKept self.old self.new) }
    {
        if let Some(link) = event.link {
            self.touch_link(link.number)?;
        }
        if let Some(delivery) = event.outgoing {
            self.touch_link(delivery.link.number)?;
        }
        Ok(())
    }

    /// The link of this number may be sent its first delivery, if it has one.
    fn touch_link(&mut self, link: u64) -> Result<(), AllocError>
        ensures touched { OnOk result ((c n : ℕ) → copy_on self.new link c ≡ Some n → Waits self.new link) }
        ensures sessions { self.new.of_session ≡ self.old.of_session }
        ensures kept { OnOk result (IsKept self.old self.new) }
    {
        if let Some((completion, _number)) = self.copies.first(link) {
            self.links.insert(completion, link)?;
        }
        Ok(())
    }

    /// Where the event gives window to its session, which had none, all links there on which copies may be unsent may be sent a
    /// delivery; `before` are the tables without the event.
    ///
    /// # Errors
    ///
    /// Memory was refused; then a link may be missing.
    pub fn wake(&mut self, event: &Event, before: &LentTables<'_>) -> Result<(), AllocError>
        ensures woken { OnOk result ((rules : RuleSet) (past : Events) → TellsOf rules before.now past →
            (s : Session) → (event_view event.now).session ≡ Some s → grants_window (event_view event.now) ≡ true → IsLiveOn s past → has_window s past ≡ false →
            (link c n : ℕ) → stands self.old s.number link ≡ true → copy_on self.new link c ≡ Some n → Waits self.new link) }
        ensures kept { OnOk result (IsKept self.old self.new) }
    {
        match granted(event, before) {
            Some(session) => self.touch_session(session),
            None => Ok(()),
        }
    }

    /// The links of the session may be sent a delivery each.
    fn touch_session(&mut self, session: u64) -> Result<(), AllocError>
        ensures touched { OnOk result ((link c n : ℕ) → stands self.old session link ≡ true → copy_on self.new link c ≡ Some n → Waits self.new link) }
        ensures kept { OnOk result (IsKept self.old self.new) }
    {
        for index in 0..self.of_session.count(&session) {
            let link = self.link_of(session, index);
            self.touch_one(link)?;
        }
        Ok(())
    }

    /// The link of the session at this place.
    fn link_of(&self, session: u64, index: usize) -> Option<u64>
        ensures { result ≡ slice_get (numbers nat_eq self.now.of_session session) index }
    {
        self.of_session.get(&session, index)
    }

    /// The link may be sent a delivery, if there is one.
    fn touch_one(&mut self, link: Option<u64>) -> Result<(), AllocError>
        ensures touched { OnOk result (IfSome link (λ number. (c n : ℕ) → copy_on self.new number c ≡ Some n → Waits self.new number)) }
        ensures sessions { self.new.of_session ≡ self.old.of_session }
        ensures kept { OnOk result (IsKept self.old self.new) }
    {
        match link {
            Some(link) => self.touch_link(link),
            None => Ok(()),
        }
    }
}

/// The delivery that the event completes.
fn completed<'a>(event: &Event<'a, '_, '_>) -> Option<Incoming<'a>>
    ensures completes { IfSome (option_map incoming_view result) (λ d. completes d (event_view event.now) ≡ true) }
    ensures found { (d : law.Incoming) → (event_view event.now).incoming ≡ Some d → completes d (event_view event.now) ≡ true → option_map incoming_view result ≡ Some d }
{
    match event.incoming {
        Some(delivery) if event.completes(&delivery) => Some(delivery),
        _ => None,
    }
}
