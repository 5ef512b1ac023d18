//! What the groups of the table answer, of all the deliveries so far.

ghost use Rattle.std.specs.Prelude.{◌≡◌, List, Some, true, IfSome, option_and_then, option_map};
ghost use Rattle.number_groups.specs.OctetGroups as octets;
ghost use Rattle.capture_form.specs.Rules.{RuleSet};
ghost use Rattle.trace_events.specs.Event as law;
ghost use Rattle.trace_events.specs.Fault as faults;
ghost use Rattle.trace_events.specs.Incoming as received;
ghost use Rattle.trace_events.specs.Link.{IsLiveLink};
ghost use Rattle.trace_events.specs.History.{IsHistory};
ghost use Rattle.trace_events.specs.Settling as settling;
ghost use Rattle.trace_events.specs.Waiting as waiting;
ghost use Rattle.trace_events.specs.View.{Events, incoming_view, link_view};
ghost use Rattle.state_incoming.specs.EntryAnswers.{Knows};
ghost use Rattle.state_incoming.specs.HeldTables.{AreHeld, IsTable, held_in};
ghost use Rattle.state_incoming.specs.WaitingCount as counts;

use crate::deliveries::Deliveries;
use number_groups::{IdOn, OctetGroups};
use trace_events::{Incoming, Link, Session};

impl Deliveries {
    /// A delivery waits at the address.
    pub fn has_waiting(&self, address: &[u8]) -> bool
        ensures { (rules : RuleSet) (history : Events) → IsHistory rules history → IsTable rules self.now history →
            result ≡ waiting.has_waiting rules address.now history }
    {
        !self.groups.waiting.is_empty(address)
    }

    /// Numbers of deliveries by address, among which all that wait are found. That no others are among them is the code's doing,
    /// and no clause says it.
    pub fn waiting(&self) -> &OctetGroups
        ensures { (rules : RuleSet) (history : Events) → IsHistory rules history → IsTable rules self.now history →
            (d : law.Incoming) → received.incoming_at d.number history ≡ Some d → waiting.is_waiting rules d history ≡ true →
            octets.is_member result.now (received.address_of d history) d.number ≡ true }
    {
        &self.groups.waiting
    }

    /// How many deliveries wait at the address.
    pub fn waiting_count(&self, address: &[u8]) -> usize
        ensures { (rules : RuleSet) (history : Events) → IsHistory rules history → IsTable rules self.now history →
            result ≡ counts.waiting_count rules address.now history }
    {
        self.groups.waiting.count(address)
    }

    /// A delivery of this id on the session is not decided yet.
    pub fn is_id_in_use(&self, session: Session, id: u32) -> bool
        ensures { (rules : RuleSet) (history : Events) → IsHistory rules history → IsTable rules self.now history →
            result ≡ faults.is_id_in_use rules session id history }
    {
        let at = IdOn {
            session: session.number,
            id,
        };
        !self.groups.in_use.is_empty(&at)
    }

    /// How many deliveries of a link are not decided.
    pub fn undecided_count(&self, link: &Link) -> u64
        ensures { (rules : RuleSet) (history : Events) → IsHistory rules history → IsTable rules self.now history →
            result ≡ waiting.undecided_count rules (link_view link.now) history }
    {
        self.groups.undecided.count(&link.number) as u64
    }

    /// The undecided delivery of the id on the session, whose outcome may be told. `None` where there is none.
    pub fn to_tell(&self, session: Session, id: u32) -> Option<Incoming<'_>>
        ensures value { (rules : RuleSet) (history : Events) → IsHistory rules history → IsTable rules self.now history →
            option_map incoming_view result ≡ settling.to_tell rules session id history }
        ensures known { (rules : RuleSet) (history : Events) → AreHeld rules self.now history → IfSome (option_map incoming_view result) (Knows self.now) }
    {
        let at = IdOn {
            session: session.number,
            id,
        };
        self.kept(self.groups.in_use.first(&at))
    }

    /// The delivery of a producer's live link whose last part hasn't come yet. `None` where there is none.
    pub fn incoming_in_progress(&self, link: &Link) -> Option<Incoming<'_>>
        ensures value { (rules : RuleSet) (history : Events) → IsHistory rules history → IsTable rules self.now history → IsLiveLink (link_view link.now) history →
            option_map incoming_view result ≡ received.in_progress (link_view link.now) history }
        ensures known { (rules : RuleSet) (history : Events) → AreHeld rules self.now history → IfSome (option_map incoming_view result) (Knows self.now) }
    {
        self.kept(self.groups.arriving.first(&link.number))
    }

    /// The delivery that began in the record of the number, if there is a number and it is kept.
    pub fn kept(&self, number: Option<u64>) -> Option<Incoming<'_>>
        ensures { option_map incoming_view result ≡ option_and_then (λ n. option_map (λ x. x.delivery) (held_in self.now n)) number }
    {
        match self.get(number?) {
            Some(held) => Some(held.delivery()),
            None => None,
        }
    }
}
