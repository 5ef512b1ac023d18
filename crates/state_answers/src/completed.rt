//! The address of the delivery that an event completes: its link's, or on a link without one that in its message, read from
//! all its parts, without memory.

ghost use Rattle.std.specs.Prelude.{◌≡◌, ◌++◌, [], List, option_map, unwrap_or};
ghost use Rattle.amqp_perf.specs.Message.{to_of};
ghost use Rattle.capture_form.specs.Rules.{RuleSet};
ghost use Rattle.capture_form.specs.declared.records.Record.{Record};
ghost use Rattle.trace_events.specs.History.{history};
ghost use Rattle.trace_events.specs.View.{event_view};
ghost use Rattle.state_tables.specs.Connections.{IsLawfulNext};
ghost use Rattle.state_tables.specs.Addressed.{IsAddressed};
ghost use Rattle.state_answers.specs.Completed.{octets_of};
ghost use Rattle.state_incoming.specs.HeldTables.{IsTable};

use amqp_cuts::{Address, Parts};
use state_incoming::{Deliveries, payload_of};
use trace_events::Event;

/// The address of the delivery that an event completes; that of any other event is empty.
#[derive(Clone, Copy, Debug)]
pub enum CompletedAddress<'e> {
    /// Its link's, lent from the event.
    Lent(&'e [u8]),
    /// That in its message.
    Copied(Address),
}

impl CompletedAddress<'_> {
    /// Its octets.
    pub fn octets(&self) -> &[u8]
        ensures { result.now ≡ octets_of self.now }
    {
        match self {
            CompletedAddress::Lent(octets) => octets,
            CompletedAddress::Copied(address) => address.octets(),
        }
    }
}

/// The address in a message in two parts; empty where there is none.
fn cut_address<'e>(before: &[u8], last: &[u8]) -> CompletedAddress<'e>
    ensures { octets_of result ≡ unwrap_or (to_of (before.now ++ last.now)) [] }
{
    let parts = [before, last];
    let address = match Parts::new(&parts) {
        Some(payload) => amqp_cuts::message_to(&payload),
        None => None,
    };
    match address {
        Some(address) => CompletedAddress::Copied(address),
        None => CompletedAddress::Lent(&[]),
    }
}

/// The address of the delivery that the event completes, which follows those of the table. What an event completes is for
/// its link's address, or on a link without one for that in its message, of which the table keeps the earlier parts.
pub fn completed_for<'e>(deliveries: &Deliveries, event: &Event<'e, '_, '_>) -> CompletedAddress<'e>
    ensures addressed { (rules : RuleSet) (records : List Record) (r : Record) → IsLawfulNext rules records r (event_view event.now) →
        IsTable rules deliveries.now (history rules records) → IsAddressed (event_view event.now) (history rules records) (octets_of result) }
{
    match event.completed_by() {
        Some(delivery) if delivery.link.is_anonymous() => {
            cut_address(deliveries.octets(delivery.number), payload_of(event))
        }
        Some(delivery) => CompletedAddress::Lent(delivery.link.address),
        None => CompletedAddress::Lent(&[]),
    }
}
