//! The links of live sessions that an event ends, asked before the tables take it.

ghost use Rattle.std.specs.Prelude.{◌≡◌, ◌++◌, ◌↔◌, ◌⊎◌, ℕ, List, [], ◌∷◌, IfOk, OnOk, Some, is_some, nat_eq, option_map, true, false};
ghost use Rattle.std.specs.List.{Contains};
ghost use Rattle.indexmap.specs.IndexMap.{IsUnique, values};
ghost use Rattle.capture_form.specs.Rules.{RuleSet};
ghost use Rattle.capture_form.specs.declared.records.Record.{Record};
ghost use Rattle.trace_events.specs.Event as law;
ghost use Rattle.trace_events.specs.History.{history, judge};
ghost use Rattle.state_tables.specs.EndedLinks.{AreEnded, IsEndedOf, IsEndedOn, ends_channel, ends_named, link_named, may_end, links_of, links_on, views};
ghost use Rattle.state_tables.specs.declared.handles.Handles as declared;
ghost use Rattle.state_tables.specs.LinkTables.{AreLinked};
ghost use Rattle.trace_events.specs.View.{event_view, link_view};

use crate::channels::Channels;
use crate::handles::{Handles, handle_of};
use crate::links::Links;
use amqp_perf::Performative;
use std::alloc::{AllocError, Global};
use trace_events::{Body, Event, Link, Moment};

/// A session of the event's channel ends with it, or another begins there.
#[inline(always)]
pub(crate) fn ends_channel(event: &Event) -> bool
    ensures { result ≡ ends_channel (event_view event.now) }
{
    event.is_in_end() || event.is_out_end() || event.out_begin().is_some()
}

/// The event ends the link of the handle that it names: by a detach, or by an attach of the router's that opens another.
fn ends_named(event: &Event) -> bool
    ensures { result ≡ ends_named (event_view event.now) }
{
    event.in_detach().is_some()
        || event.out_detach().is_some()
        || event.out_attach().is_some() && event.link.is_some()
}

/// The event's frame is a transfer, a disposition or a flow, as most are. These end nothing.
#[inline(always)]
fn ends_nothing(event: &Event) -> bool
    ensures { result ≡ true → may_end (event_view event.now) ≡ false }
{
    let (Moment::In(frame) | Moment::Out(frame)) = event.moment else {
        return false;
    };
    match &frame.body {
        Body::Says(spoken) => matches!(
            spoken.performative,
            Performative::Transfer(_) | Performative::Disposition(_) | Performative::Flow(_)
        ),
        _ => false,
    }
}

/// The event may end links, as far as its kind tells. Few do.
fn may_end(event: &Event) -> bool
    ensures { result ≡ may_end (event_view event.now) }
{
    event.moment.is_final() || ends_channel(event) || ends_named(event)
}

impl Links {
    /// The links that the event ends, asked before it is taken: those of its connection, where that ends; those of its
    /// channel, where a session ends or another begins there; or that of the handle that it detaches or attaches anew. It
    /// takes time and memory by what ends alone.
    ///
    /// # Errors
    ///
    /// Memory was refused.
    #[inline(always)]
    pub fn ended(&self, alloc: Global, event: &Event) -> Result<Vec<Link<'_>>, AllocError>
        ensures { IfOk result (λ links. (rules : RuleSet) (records : List Record) (r : Record) → event_view event.now ≡ judge rules (history rules records) r →
            AreLinked self.now (history rules records) → AreEnded (event_view event.now) (history rules records) (views links.items)) }
    {
        if ends_nothing(event) {
            return Ok(Vec::new(alloc));
        }
        self.ended_by(alloc, event)
    }

    /// The same of an event of any kind.
    ///
    /// # Errors
    ///
    /// Memory was refused.
    #[inline(never)]
    fn ended_by(&self, alloc: Global, event: &Event) -> Result<Vec<Link<'_>>, AllocError>
        ensures { IfOk result (λ links. (rules : RuleSet) (records : List Record) (r : Record) → event_view event.now ≡ judge rules (history rules records) r →
            AreLinked self.now (history rules records) → AreEnded (event_view event.now) (history rules records) (views links.items)) }
    {
        if !may_end(event) {
            return Ok(Vec::new(alloc));
        }
        match self.entries.get(&event.connection) {
            Some(connection) => connection.ended(alloc, event),
            None => Ok(Vec::new(alloc)),
        }
    }
}

impl Channels {
    /// The links of the connection that an event of it ends.
    fn ended(&self, alloc: Global, event: &Event) -> Result<Vec<Link<'_>>, AllocError>
        ensures { IfOk result (λ links. (l : law.Link) → Contains (views links.items) l ↔ IsEndedOf (event_view event.now) self.now l) }
    {
        if event.moment.is_final() {
            return self.links(alloc);
        }
        let Some(channel) = event.moment.channel() else {
            return Ok(Vec::new(alloc));
        };
        match self.entries.get(&channel) {
            Some(session) => session.ended(alloc, event),
            None => Ok(Vec::new(alloc)),
        }
    }

    /// All links of the connection.
    fn links(&self, alloc: Global) -> Result<Vec<Link<'_>>, AllocError>
        ensures listed { IfOk result (λ links. views links.items ≡ links_of self.now) }
        ensures distinct { IsUnique nat_eq self.now.entries }
        ensures distinct_handles { OnOk result ((session : declared.Handles) → Contains (values self.now.entries) session → IsUnique nat_eq session.entries) }
    {
        let mut links = Vec::with_capacity(alloc, self.entries.len())?;
        for session in self.entries.values().as_slice() {
            session.put_links(&mut links)?;
        }
        Ok(links)
    }
}

impl Handles {
    /// The links of the session that an event of its channel ends.
    fn ended(&self, alloc: Global, event: &Event) -> Result<Vec<Link<'_>>, AllocError>
        ensures { IfOk result (λ links. (l : law.Link) → Contains (views links.items) l ↔ IsEndedOn (event_view event.now) self.now l) }
    {
        let mut links = Vec::new(alloc);
        if ends_channel(event) {
            self.put_links(&mut links)?;
            return Ok(links);
        }
        let Some(link) = self.named_link(event) else {
            return Ok(links);
        };
        links.push(link)?;
        Ok(links)
    }

    /// The link of the handle that an event of the session names, if the event ends it.
    fn named_link(&self, event: &Event) -> Option<Link<'_>>
        ensures { option_map link_view result ≡ link_named (event_view event.now) self.now }
    {
        event.session?;
        let handle = handle_of(event)?;
        if !ends_named(event) {
            return None;
        }
        self.entries.get(&handle)?.link()
    }

    /// All links of the session come last.
    fn put_links<'t>(&'t self, links: &mut Vec<Link<'t>>) -> Result<(), AllocError>
        ensures appended { OnOk result (views links.new.items ≡ views links.old.items ++ links_on self.now) }
        ensures distinct { IsUnique nat_eq self.now.entries }
    {
        links.reserve(self.entries.len())?;
        for handle in self.entries.values().as_slice() {
            if let Some(link) = handle.link() {
                links.push(link)?;
            }
        }
        Ok(())
    }
}
