//! The addresses to look at.

ghost use Rattle.std.specs.List.{list_any};
ghost use Rattle.std.specs.Prelude.{◌≡◌, ◌+◌, ◌<◌, ◌&&◌, ◌||◌, ◌↔◌, ℕ, List, Some, IfSome, IsSome, OnOk, bytes_eq, false, is_some, not, option_and_then, option_map, true};
ghost use Rattle.capture_form.specs.Rules.{RuleSet};
ghost use Rattle.trace_events.specs.Event as law;
ghost use Rattle.trace_events.specs.Incoming.{completed_by};
ghost use Rattle.trace_events.specs.Link.{IsLiveLink, is_consumer};
ghost use Rattle.trace_events.specs.Session.{IsLiveOn};
ghost use Rattle.trace_events.specs.declared.session.Session.{Session};
ghost use Rattle.trace_events.specs.Words.{is_some_and};
ghost use Rattle.trace_events.specs.View.{Events, event_view};
ghost use Rattle.trace_events.specs.Waiting.{has_waiting};
ghost use Rattle.state_tables.specs.ConsumerLinks.{consumer_at, link_in};
ghost use Rattle.state_answers.specs.Tables.{TellsOf};
ghost use Rattle.due_lists.specs.Standing.{goes_on, grants_window, has_window};
ghost use Rattle.due_lists.specs.BySession.{stands};
ghost use Rattle.due_lists.specs.AddressesToTry.{IsKept, address_at, count_of, is_among_first, is_consumer_to, is_to_try};
ghost use Rattle.due_lists.specs.Waking.{IsGranted};

use crate::by_session::BySession;
use flow_counts::WindowEvent;
use indexmap::IndexSet;
use state_answers::LentTables;
use state_tables::ConsumerLinks;
use std::alloc::{AllocError, Global};
use trace_events::{Event, Link};
use trace_judge::Counts;

/// Addresses, each once.
#[derive(Drop)]
pub struct AddressesToTry {
    alloc: Global,
    addresses: IndexSet<Vec<u8>>,
}

impl AddressesToTry {
    /// None.
    pub fn new(alloc: Global) -> AddressesToTry
        ensures { (address : List ℕ) → is_to_try result address ≡ false }
    {
        AddressesToTry {
            alloc,
            addresses: IndexSet::new(alloc),
        }
    }

    /// The address comes in, if it was not yet there.
    fn insert(&mut self, address: &[u8]) -> Result<(), AllocError>
        ensures { OnOk result ((at : List ℕ) → is_to_try self.new at ≡ (bytes_eq address.now at || is_to_try self.old at)) }
    {
        if self.addresses.contains(address) {
            return Ok(());
        }
        let own = address.to_vec(self.alloc)?;
        self.addresses.insert(own)?;
        Ok(())
    }

    /// The address comes in, if there is one.
    fn add(&mut self, address: Option<&[u8]>) -> Result<(), AllocError>
        ensures { OnOk result ((at : List ℕ) → is_to_try self.new at ≡ (is_some_and address.entry (λ octets. bytes_eq octets.now at) || is_to_try self.old at)) }
    {
        match address {
            Some(octets) => self.insert(octets),
            None => Ok(()),
        }
    }

    /// Those come in at which a delivery may begin by what the event does: it completes one there where none waited, gives a
    /// link of a consumer credit, ends the delivery on it, or gives window to its session, which had none; and those of the
    /// consumers' links that it ends, where what waited may be over. What it completes is for this address: where one waits
    /// there already, the link that could take the new one could take that, and the address is among them. `links` are the live
    /// links of consumers, `before` the tables without the event.
    ///
    /// # Errors
    ///
    /// Memory was refused; then an address may be missing.
    pub fn wake(
        &mut self,
        event: &Event,
        address: &[u8],
        links: &BySession,
        before: &LentTables<'_>,
        ended: &[Link],
    ) -> Result<(), AllocError>
        ensures completed { OnOk result ((rules : RuleSet) (past : Events) → TellsOf rules before.now past → (d : law.Incoming) →
            completed_by (event_view event.now) ≡ Some d → has_waiting rules address.now past ≡ false → is_to_try self.new address.now ≡ true) }
        ensures credited { OnOk result ((l : law.Link) → (event_view event.now).link ≡ Some l → is_consumer l ≡ true →
            grants_window (event_view event.now) ≡ true → is_to_try self.new l.address ≡ true) }
        ensures freed { OnOk result ((j : law.Outgoing) → (event_view event.now).outgoing ≡ Some j → goes_on (event_view event.now) ≡ false →
            is_to_try self.new j.link.address ≡ true) }
        ensures granted { OnOk result ((rules : RuleSet) (past : Events) → TellsOf rules before.now past → (l : law.Link) →
            IsGranted (event_view event.now) past l → stands links.now l.session.number l.number ≡ true → consumer_at l.number past ≡ Some l →
            is_to_try self.new l.address ≡ true) }
        ensures ended { OnOk result ((at : List ℕ) → list_any (is_consumer_to at) ended.now ≡ true → is_to_try self.new at ≡ true) }
        ensures kept { OnOk result (IsKept self.old self.new) }
    {
        self.add_ended(ended)?;
        self.add(completed(event, address, before))?;
        self.add(credited(event))?;
        self.add(freed(event))?;
        self.wake_session(granted(event, before), links, before.consumer_links)?;
        Ok(())
    }

    /// The addresses of the consumers' links among these come in.
    fn add_ended(&mut self, ended: &[Link]) -> Result<(), AllocError>
        ensures ended { OnOk result ((at : List ℕ) → is_to_try self.new at ≡ (is_to_try self.old at || list_any (is_consumer_to at) ended.now)) }
        ensures kept { OnOk result (IsKept self.old self.new) }
    {
        for link in ended {
            self.add(served(link))?;
        }
        Ok(())
    }

    /// The addresses of the session's links come in, of those that the table has.
    fn wake_session(
        &mut self,
        session: Option<u64>,
        links: &BySession,
        consumer_links: &ConsumerLinks,
    ) -> Result<(), AllocError>
        ensures woken { OnOk result ((l : law.Link) → session ≡ Some l.session.number → stands links.now l.session.number l.number ≡ true →
            link_in consumer_links.now l.number ≡ Some l → is_to_try self.new l.address ≡ true) }
        ensures kept { OnOk result (IsKept self.old self.new) }
    {
        let Some(session) = session else {
            return Ok(());
        };
        for index in 0..links.count(session) {
            self.add(address_at(links.get(session, index), consumer_links))?;
        }
        Ok(())
    }

    /// How many there are.
    pub fn count(&self) -> usize
        ensures { result ≡ count_of self.now }
    {
        self.addresses.len()
    }

    /// The one at the index.
    pub fn get(&self, index: usize) -> Option<&[u8]>
        ensures value { option_map (λ octets. octets.now) result ≡ address_at self.now index }
        ensures found { IsSome result ↔ (index < count_of self.now) }
        ensures more { IfSome result (λ octets. (at : List ℕ) →
            is_among_first self.now (index + 1) at ≡ (is_among_first self.now index at || bytes_eq at octets.now)) }
    {
        match self.addresses.get_index(index) {
            Some(address) => Some(address),
            None => None,
        }
    }

    /// The one at the index goes; the last one takes its place.
    pub fn remove(&mut self, index: usize)
        ensures removed { IfSome (address_at self.old index) (λ gone. (at : List ℕ) → is_to_try self.new at ≡ (is_to_try self.old at && not (bytes_eq gone at))) }
        ensures before { (at : List ℕ) → is_among_first self.new index at ≡ is_among_first self.old index at }
        ensures fewer { index < count_of self.old → count_of self.new + 1 ≡ count_of self.old }
    {
        self.addresses.swap_remove_index(index);
    }
}

/// The address of the link, if it is a consumer's.
fn served<'a>(link: &Link<'a>) -> Option<&'a [u8]>
    ensures { (at : List ℕ) → is_some_and result (λ octets. bytes_eq octets.now at) ≡ is_consumer_to at link.now }
{
    if link.is_consumer() {
        Some(link.address)
    } else {
        None
    }
}

/// This address, where the event completes a delivery and none waits there already.
fn completed<'a>(event: &Event, address: &'a [u8], before: &LentTables<'_>) -> Option<&'a [u8]>
    ensures { (rules : RuleSet) (past : Events) → TellsOf rules before.now past → (d : law.Incoming) →
        completed_by (event_view event.now) ≡ Some d → has_waiting rules address.now past ≡ false →
        option_map (λ octets. octets.now) result ≡ Some address.now }
{
    match event.completed_by() {
        Some(_) if !before.deliveries.has_waiting(address) => Some(address),
        _ => None,
    }
}

/// The event is a flow of the client.
fn is_flow(event: &Event) -> bool
    ensures { result ≡ grants_window (event_view event.now) }
{
    matches!(
        event.moment.window_event(),
        Some(WindowEvent::TheirFlow { .. })
    )
}

/// The address of the consumer's link that a flow of the client names.
fn credited<'a>(event: &Event<'a, '_, '_>) -> Option<&'a [u8]>
    ensures { (l : law.Link) → (event_view event.now).link ≡ Some l → is_consumer l ≡ true → grants_window (event_view event.now) ≡ true →
        option_map (λ octets. octets.now) result ≡ Some l.address }
{
    let link = event.link?;
    if link.is_consumer() && is_flow(event) {
        Some(link.address)
    } else {
        None
    }
}

/// The event is a part of a delivery to a client, with more to come.
fn goes_on(event: &Event) -> bool
    ensures { result ≡ goes_on (event_view event.now) }
{
    match event.out_transfer() {
        Some(transfer) => transfer.more == Some(true),
        None => false,
    }
}

/// The address of the link on which the event ends a delivery.
fn freed<'a>(event: &Event<'a, '_, '_>) -> Option<&'a [u8]>
    ensures { (j : law.Outgoing) → (event_view event.now).outgoing ≡ Some j → goes_on (event_view event.now) ≡ false →
        option_map (λ octets. octets.now) result ≡ Some j.link.address }
{
    let delivery = event.outgoing?;
    if goes_on(event) {
        None
    } else {
        Some(delivery.link.address)
    }
}

/// The session to which a flow of the client may give window, where it had none.
pub(crate) fn granted(event: &Event, before: &LentTables<'_>) -> Option<u64>
    ensures { (rules : RuleSet) (past : Events) → TellsOf rules before.now past → (s : Session) → (event_view event.now).session ≡ Some s →
        grants_window (event_view event.now) ≡ true → IsLiveOn s past → has_window s past ≡ false → result ≡ Some s.number }
{
    let session = event.session?;
    if is_flow(event) && before.session_window(session) == 0 {
        Some(session.number)
    } else {
        None
    }
}

/// The address of the link of this number, where the table has it.
fn address_at(number: Option<u64>, consumer_links: &ConsumerLinks) -> Option<&[u8]>
    ensures { option_map (λ octets. octets.now) result ≡ option_map (λ (l : law.Link). l.address) (option_and_then (link_in consumer_links.now) number) }
{
    let link = consumer_links.get(number?)?;
    Some(link.address)
}
