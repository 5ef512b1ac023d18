//! A live link with the counts of its credit.

ghost use Rattle.std.specs.Prelude.{◌≡◌, IfOk};
ghost use Rattle.state_tables.specs.Links.{begun, counted_next};
ghost use Rattle.trace_events.specs.View.{event_view, link_view};

use crate::held_link::HeldLink;
use state_counts::LinkCounts;
use std::alloc::{AllocError, Global};
use std::marker::Model;
use trace_events::{Event, Link};

/// A live link with its counts.
#[doc(hidden)]
#[derive(Drop)]
pub struct CountedLink {
    link: HeldLink,
    counts: LinkCounts,
}

impl Model for CountedLink {
    ghost use Rattle.state_tables.specs.HeldViews.{held_link_view};
    ghost use Rattle.state_tables.specs.Links.{Counted};

    ghost Value = { Counted };

    ghost view = { λ x. record { link = held_link_view x.link; counts = x.counts } };
}

impl CountedLink {
    /// The link, before its first event.
    ///
    /// # Errors
    ///
    /// Memory was refused for its address.
    pub(crate) fn new(alloc: Global, link: &Link) -> Result<CountedLink, AllocError>
        ensures { IfOk result (λ x. x ≡ begun (link_view link.now)) }
    {
        Ok(CountedLink {
            link: HeldLink::new(alloc, link)?,
            counts: LinkCounts::new(link),
        })
    }

    /// The link, lent.
    pub(crate) fn link(&self) -> Link<'_>
        ensures { link_view result ≡ self.now.link }
    {
        self.link.link()
    }

    /// Its counts.
    pub(crate) fn counts(&self) -> LinkCounts
        ensures { result ≡ self.now.counts }
    {
        self.counts
    }

    /// An event names it.
    pub(crate) fn count(&mut self, event: &Event)
        ensures { self.new ≡ counted_next (event_view event.now) self.old }
    {
        let our_first_count = self.link().our_first_count;
        self.counts = self.counts.after(our_first_count, event);
    }
}
