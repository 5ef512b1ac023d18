//! The deliveries that an event may touch.

ghost use Rattle.std.specs.Prelude.{◌≡◌, ℕ, ◌||◌, IfOk, OnOk, OnErr, true, map, nat_eq};
ghost use Rattle.std.specs.List.{list_any};
ghost use Rattle.number_groups.specs.Numbers.{is_among};
ghost use Rattle.number_groups.specs.Groups.{is_member};
ghost use Rattle.number_groups.specs.OctetGroups as octets;
ghost use Rattle.trace_events.specs.Words.{is_some_and};
ghost use Rattle.state_incoming.specs.Touched as law;
ghost use Rattle.trace_events.specs.View.{event_view, link_view};

use crate::groups::HeldGroups;
use amqp_perf::Role;
use number_groups::{NumberSet, OctetGroups};
use state_tables::{Addresses, add_group, add_number};
use std::alloc::{AllocError, Global};
use trace_events::{Event, Link};

/// All numbers of the group of an address come in.
fn add_waiting(
    touched: &mut NumberSet,
    groups: &OctetGroups,
    address: &[u8],
) -> Result<(), AllocError>
    ensures added { OnOk result ((n : ℕ) → is_among touched.new n ≡ (is_among touched.old n || octets.is_member groups.now address.now n)) }
    ensures refused { OnErr result ((n : ℕ) × (octets.is_member groups.now address.now n ≡ true)) }
{
    for index in 0..groups.count(address) {
        add_number(touched, groups.get(address, index))?;
    }
    Ok(())
}

/// The delivery that the event is a part of.
fn part_number(event: &Event) -> Option<u64>
    ensures { result ≡ law.part_number (event_view event.now) }
{
    match &event.incoming {
        Some(delivery) => Some(delivery.number),
        None => None,
    }
}

/// The session on which a disposition of a producer stands.
fn settled_session(event: &Event) -> Option<u64>
    ensures { result ≡ law.settled_session (event_view event.now) }
{
    match event.in_disposition()?.role {
        Role::Sender => Some(event.session?.number),
        Role::Receiver => None,
    }
}

impl HeldGroups {
    /// What a link that ended leaves comes in.
    fn add_left<A: Addresses>(
        &self,
        touched: &mut NumberSet,
        addresses: &A,
        link: &Link,
    ) -> Result<(), AllocError>
        ensures added { OnOk result ((n : ℕ) → is_among touched.new n
            ≡ (is_among touched.old n || law.is_left self.now (A.has_one addresses.now) n (link_view link.now))) }
        ensures refused { OnErr result ((n : ℕ) × (law.is_left self.now (A.has_one addresses.now) n (link_view link.now) ≡ true)) }
    {
        add_group(touched, &self.undecided, link.number)?;
        if !addresses.has_consumer(link.address) {
            add_waiting(touched, &self.waiting, link.address)?;
        }
        Ok(())
    }

    /// What the producer of a session may settle comes in.
    fn add_settled(&self, touched: &mut NumberSet, event: &Event) -> Result<(), AllocError>
        ensures added { OnOk result ((n : ℕ) → is_among touched.new n
            ≡ (is_among touched.old n || is_some_and (law.settled_session (event_view event.now)) (λ session. is_member nat_eq self.now.of_session session n))) }
        ensures refused { OnErr result ((n : ℕ)
            × (is_some_and (law.settled_session (event_view event.now)) (λ session. is_member nat_eq self.now.of_session session n) ≡ true)) }
    {
        match settled_session(event) {
            Some(session) => add_group(touched, &self.of_session, session),
            None => Ok(()),
        }
    }

    /// What the links that ended leave comes in.
    fn add_all_left<A: Addresses>(
        &self,
        touched: &mut NumberSet,
        addresses: &A,
        ended: &[Link],
    ) -> Result<(), AllocError>
        ensures added { OnOk result ((n : ℕ) → is_among touched.new n
            ≡ (is_among touched.old n || list_any (λ l. law.is_left self.now (A.has_one addresses.now) n (link_view l)) ended.now)) }
        ensures refused { OnErr result ((n : ℕ) × (list_any (λ l. law.is_left self.now (A.has_one addresses.now) n (link_view l)) ended.now ≡ true)) }
    {
        for link in ended {
            self.add_left(touched, addresses, link)?;
        }
        Ok(())
    }

    /// The deliveries that the event may touch, with which these links end; the addresses are those behind it.
    ///
    /// # Errors
    ///
    /// Memory was refused, for an event that may touch a delivery.
    pub(crate) fn touched<A: Addresses>(
        &self,
        alloc: Global,
        addresses: &A,
        ended: &[Link],
        event: &Event,
    ) -> Result<NumberSet, AllocError>
        ensures found { IfOk result (λ touched. (n : ℕ) → is_among touched n
            ≡ law.may_touch self.now (A.has_one addresses.now) (map link_view ended.now) (event_view event.now) n) }
        ensures refused { OnErr result ((n : ℕ)
            × (law.may_touch self.now (A.has_one addresses.now) (map link_view ended.now) (event_view event.now) n ≡ true)) }
    {
        let mut touched = NumberSet::new(alloc);
        add_number(&mut touched, part_number(event))?;
        add_number(&mut touched, event.told)?;
        add_number(&mut touched, event.carried_number())?;
        self.add_settled(&mut touched, event)?;
        self.add_all_left(&mut touched, addresses, ended)?;
        Ok(touched)
    }
}
