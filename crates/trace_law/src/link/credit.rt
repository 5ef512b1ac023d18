//! The credit of a link (part 2 of the standard, section 2.6.7).

use crate::past::Past;
use trace_events::{Link, LinkEvent, is_drain_answer};

impl<'p, 'a> Past<'p, 'a> {
    ghost use Rattle.std.specs.Prelude.{◌≡◌, ◌<◌, ◌^◌, length};
    ghost use Rattle.flow_counts.specs.Credit.{granted_credit};
    ghost use Rattle.flow_counts.specs.GivenCredit.{last_given};
    ghost use Rattle.trace_events.specs.Credit as law;
    ghost use Rattle.trace_law.specs.OnStack.{events};
    ghost use Rattle.trace_events.specs.View.{link_view};

    /// How many deliveries to the client have begun, as a serial number: the count that it was last told, and those
    /// that began since.
    #[tactic(auto, using(crate::proofs::Counted::serial_step))]
    pub(crate) fn delivery_count(&self, link: &Link) -> u32
        ensures { result ≡ law.delivery_count (link_view link.now) (events self.now) }
    {
        let mut begun: u32 = 0;
        let mut rest = self;
        while let Past::After(event, earlier) = rest {
            match event.event_of(link) {
                Some(LinkEvent::Begun) => begun = begun.wrapping_add(1),
                Some(LinkEvent::OurFlow(flow)) => {
                    if let Some(count) = flow.delivery_count {
                        return count.wrapping_add(begun);
                    }
                }
                _ => {}
            }
            rest = *earlier;
        }
        link.our_first_count.wrapping_add(begun)
    }

    /// What the client's last flow with a link-credit left of it: the deliveries that it did not know of are taken off.
    /// Nothing without such a flow, nor behind a drain answer.
    fn granted_credit(&self, link: &Link) -> u32
        ensures { result ≡ granted_credit (link_view link.now).our_first_count (law.link_events (link_view link.now) (events self.now)) }
    {
        let mut rest = self;
        while let Past::After(event, earlier) = rest {
            match event.event_of(link) {
                Some(LinkEvent::TheirFlow(flow)) => {
                    if let Some(credit) = flow.link_credit {
                        let known = flow.delivery_count.unwrap_or(link.our_first_count);
                        let unknown = earlier.delivery_count(link).wrapping_sub(known);
                        return credit.saturating_sub(unknown);
                    }
                }
                Some(LinkEvent::OurFlow(flow)) if is_drain_answer(&flow) => return 0,
                _ => {}
            }
            rest = *earlier;
        }
        0
    }

    /// How many deliveries to the client may still begin.
    pub(crate) fn link_credit(&self, link: &Link) -> u32
        ensures { result ≡ law.link_credit (link_view link.now) (events self.now) }
    {
        let mut left = self.granted_credit(link);
        let mut rest = self;
        while let Past::After(event, earlier) = rest {
            match event.event_of(link) {
                Some(LinkEvent::Begun) => left = left.saturating_sub(1),
                Some(LinkEvent::TheirFlow(flow)) if flow.link_credit.is_some() => return left,
                Some(LinkEvent::OurFlow(flow)) if is_drain_answer(&flow) => return left,
                _ => {}
            }
            rest = *earlier;
        }
        left
    }

    /// The client asks that its credit be used up.
    pub(crate) fn is_draining(&self, link: &Link) -> bool
        ensures { result ≡ law.is_draining (link_view link.now) (events self.now) }
    {
        let mut rest = self;
        while let Past::After(event, earlier) = rest {
            match event.event_of(link) {
                Some(LinkEvent::TheirFlow(flow)) if flow.link_credit.is_some() => {
                    return flow.drains();
                }
                _ => {}
            }
            rest = *earlier;
        }
        false
    }

    /// The link-credit of the last flow to the client that has one; nothing before the first.
    fn last_given(&self, link: &Link) -> u32
        ensures { result ≡ last_given (law.link_events (link_view link.now) (events self.now)) }
    {
        let mut rest = self;
        while let Past::After(event, earlier) = rest {
            if let Some(LinkEvent::OurFlow(flow)) = event.event_of(link) {
                if let Some(credit) = flow.link_credit {
                    return credit;
                }
            }
            rest = *earlier;
        }
        0
    }

    /// How many deliveries the client may still begin.
    pub(crate) fn given_credit(&self, link: &Link) -> u32
        ensures { result ≡ law.given_credit (link_view link.now) (events self.now) }
    {
        let mut left = self.last_given(link);
        let mut rest = self;
        while let Past::After(event, earlier) = rest {
            match event.event_of(link) {
                Some(LinkEvent::Begun) => left = left.saturating_sub(1),
                Some(LinkEvent::OurFlow(flow)) if flow.link_credit.is_some() => return left,
                _ => {}
            }
            rest = *earlier;
        }
        left
    }

    /// How many deliveries from the client have begun, as a serial number behind that of its attach.
    #[tactic(auto, using(crate::proofs::Counted::serial_step))]
    pub(crate) fn received_count(&self, link: &Link) -> u32
        ensures { result ≡ law.received_count (link_view link.now) (events self.now) }
    {
        let mut count = link.their_first_count;
        let mut rest = self;
        while let Past::After(event, earlier) = rest {
            if let Some(LinkEvent::Begun) = event.event_of(link) {
                count = count.wrapping_add(1);
            }
            rest = *earlier;
        }
        count
    }

    /// How many deliveries have begun.
    pub(crate) fn begun_count(&self, link: &Link) -> u64
        requires few { length (events self.now) < 2 ^ 64 }
        ensures { result ≡ law.begun_count (link_view link.now) (events self.now) }
    {
        let mut count: u64 = 0;
        let mut rest = self;
        while let Past::After(event, earlier) = rest {
            if let Some(LinkEvent::Begun) = event.event_of(link) {
                count += 1;
            }
            rest = *earlier;
        }
        count
    }
}
