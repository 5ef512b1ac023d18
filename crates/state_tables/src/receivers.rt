//! To whose links a delivery of multicast is to be copied, as the tables know them.

ghost use Rattle.std.specs.Prelude.{◌≡◌, List, [], None, IfOk, OnErr, filter_map, is_some, option_and_then, slice_get, true};
ghost use Rattle.capture_form.specs.Rules.{RuleSet};
ghost use Rattle.capture_form.specs.declared.records.Record.{Record};
ghost use Rattle.trace_events.specs.History.{history};
ghost use Rattle.trace_events.specs.View.{event_view};
ghost use Rattle.state_tables.specs.LinkTables.{AreLinked};
ghost use Rattle.state_tables.specs.ConsumerLinks.{AreConsumerLinks};
ghost use Rattle.state_tables.specs.Consumers.{AreConsumers, numbers_at};
ghost use Rattle.state_tables.specs.Copies.{AreReceivers, copied_by};
ghost use Rattle.state_tables.specs.Receivers.{receiver_at};

use crate::copies::{Receiver, copied};
use crate::{ConsumerLinks, Consumers, Links};
use capture_form::RuleSet;
use std::alloc::{AllocError, Global};
use trace_events::Event;

/// The live links of the address's consumers, with their credit, where the event completes a delivery that is for it, and it is
/// of multicast; the tables have the records before the event. Of any other event none.
///
/// # Errors
///
/// Memory was refused, for an event that completes a delivery of multicast.
pub fn receivers_of(
    alloc: Global,
    rules: &RuleSet,
    event: &Event,
    address: &[u8],
    consumers: &Consumers,
    consumer_links: &ConsumerLinks,
    links: &Links,
) -> Result<Vec<Receiver>, AllocError>
    ensures known { IfOk result (λ receivers. (records : List Record) → AreConsumers consumers.now (history rules.now records) →
        AreConsumerLinks consumer_links.now (history rules.now records) → AreLinked links.now (history rules.now records) →
        AreReceivers rules.now address.now (event_view event.now) (history rules.now records) receivers.items) }
    ensures none { copied_by rules.now address.now (event_view event.now) ≡ None → IfOk result (λ receivers. receivers.items ≡ []) }
    ensures refused { OnErr result (is_some (copied_by rules.now address.now (event_view event.now)) ≡ true) }
{
    match copied(rules, event, address) {
        Some(_) => address_receivers(alloc, address, consumers, consumer_links, links),
        None => Ok(Vec::new(alloc)),
    }
}

/// The live links of the address's consumers, with their credit.
fn address_receivers(
    alloc: Global,
    address: &[u8],
    consumers: &Consumers,
    consumer_links: &ConsumerLinks,
    links: &Links,
) -> Result<Vec<Receiver>, AllocError>
    ensures { IfOk result (λ receivers. (rules : RuleSet) (records : List Record) →
        AreConsumerLinks consumer_links.now (history rules records) → AreLinked links.now (history rules records) →
        receivers.items ≡ filter_map (λ n. receiver_at n (history rules records)) (numbers_at consumers.now address.now)) }
{
    let count = consumers.count(address);
    let mut receivers = Vec::with_capacity(alloc, count)?;
    for index in 0..count {
        let number = consumers.get(address, index);
        if let Some(receiver) = numbered_receiver(number, consumer_links, links) {
            receivers.push(receiver)?;
        }
    }
    Ok(receivers)
}

/// The live link of a consumer that has this number, with its credit.
fn numbered_receiver(
    number: Option<u64>,
    consumer_links: &ConsumerLinks,
    links: &Links,
) -> Option<Receiver>
    ensures { (rules : RuleSet) (records : List Record) → AreConsumerLinks consumer_links.now (history rules records) →
        AreLinked links.now (history rules records) →
        result ≡ option_and_then (λ n. receiver_at n (history rules records)) number }
{
    let link = consumer_links.get(number?)?;
    Some(Receiver {
        link: link.number,
        credit: links.link_credit(&link),
    })
}
