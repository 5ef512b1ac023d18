//! The consumers of an address.

use crate::past::Past;
use trace_events::Link;

impl<'p, 'a> Past<'p, 'a> {
    ghost use Rattle.std.specs.Prelude.{◌≡◌};
    ghost use Rattle.trace_events.specs.Address as law;
    ghost use Rattle.trace_law.specs.OnStack.{events};
    ghost use Rattle.trace_events.specs.View.{link_view};

    /// The link is a live one of a consumer of the address.
    pub(crate) fn is_consumer_of(&self, address: &[u8], link: &Link) -> bool
        ensures { result ≡ law.is_consumer_of address.now (events self.now) (link_view link.now) }
    {
        link.is_consumer() && link.address == address && self.is_live(link)
    }

    /// The address has a live link of a consumer.
    pub(crate) fn has_consumer(&self, address: &[u8]) -> bool
        ensures { result ≡ law.has_consumer address.now (events self.now) }
    {
        let mut rest = self;
        while let Past::After(event, earlier) = rest {
            if let Some(link) = event.link {
                if link.number == event.number && self.is_consumer_of(address, &link) {
                    return true;
                }
            }
            rest = *earlier;
        }
        false
    }
}
