//! The links of producers that may be given more credit (part 2 of the standard, section 2.6.7).

ghost use Rattle.std.specs.Prelude.{◌≡◌, ◌∷◌, ◌&&◌, ℕ, List, [], Some, None, IfSome, OnOk, false, is_some, nat_eq, option_map, true};
ghost use Rattle.capture_form.specs.Rules.{RuleSet};
ghost use Rattle.capture_form.specs.declared.records.Record.{Record};
ghost use Rattle.number_groups.specs.Groups.{is_member};
ghost use Rattle.number_groups.specs.OctetGroups as octets;
ghost use Rattle.trace_events.specs.Address as addresses;
ghost use Rattle.trace_events.specs.Event as law;
ghost use Rattle.trace_events.specs.History.{history};
ghost use Rattle.trace_events.specs.Link.{is_consumer, is_producer, own_link, opened_consumer};
ghost use Rattle.trace_events.specs.Waiting.{has_waiting};
ghost use Rattle.trace_events.specs.Words.{is_some_and, where_passes};
ghost use Rattle.trace_duties.specs.Quiet.{none_lacks_credit};
ghost use Rattle.state_incoming.specs.EntryAnswers.{Knows};
ghost use Rattle.state_tables.specs.Connections.{IsLawfulNext};
ghost use Rattle.state_tables.specs.EndedLinks.{views};
ghost use Rattle.state_tables.specs.ConsumerLinks.{has_link};
ghost use Rattle.state_answers.specs.Tables.{TellsOf};
ghost use Rattle.state_answers.specs.Effects.{AreEffects};
ghost use Rattle.due_lists.specs.Topping.{IsToppable, settles};
ghost use Rattle.due_lists.specs.Credits.{HasCredits, AreEndedIn, AreFreedIn, AreOpenedIn, AreTouchedIn, AreWokenIn, has_waited, key_of};
ghost use Rattle.trace_events.specs.View.{Events, event_view, link_view};

use crate::candidates::Candidates;
use amqp_perf::Role;
use capture_form::RuleSet;
use number_groups::{Ascending, Groups, OctetGroups};
use state_answers::{EventEffects, LentTables, add, add_group, add_octet_group};
use std::alloc::{AllocError, Global};
use trace_events::{Event, Link};
use trace_judge::{Counts, Inputs, may_be_topped_up};

/// Where a link is found.
#[derive(Clone, Copy, Debug)]
pub struct LinkKey {
    connection: u32,
    channel: u16,
    handle: u32,
}

/// The links of producers.
#[derive(Drop)]
pub struct Credits {
    /// Where each is found, by its number.
    places: Candidates<LinkKey>,
    /// All of them, by their sessions and by their addresses.
    of_session: Groups<u64>,
    of_address: OctetGroups,
    /// Those that may be given more credit.
    links: Ascending,
}

impl Credits {
    /// No records.
    pub fn new(alloc: Global) -> Credits
        ensures { (rules : RuleSet) → HasCredits rules result [] }
    {
        Credits {
            places: Candidates::new(alloc),
            of_session: Groups::new(alloc),
            of_address: OctetGroups::new(alloc),
            links: Ascending::new(alloc),
        }
    }

    /// The event follows, with these effects; `before` are the tables without it.
    ///
    /// # Errors
    ///
    /// Memory was refused; then a link that may be given more credit may not be found.
    pub fn follow(
        &mut self,
        event: &Event,
        before: &LentTables<'_>,
        effects: &EventEffects<'_>,
    ) -> Result<(), AllocError>
        ensures { OnOk result ((rules : RuleSet) (records : List Record) (r : Record) → IsLawfulNext rules records r (event_view event.now) →
            TellsOf rules before.now (history rules records) → AreEffects (event_view event.now) (history rules records) effects.now → HasCredits rules self.old (history rules records) →
            HasCredits rules self.new (event_view event.now ∷ history rules records)) }
    {
        self.end(effects.ended());
        self.open(event)?;
        self.touch(event, before)?;
        self.wake(event, before)?;
        self.free(effects.ended(), before)?;
        Ok(())
    }

    /// These links are over.
    fn end(&mut self, ended: &[Link])
        ensures { AreEndedIn (views ended.now) self.old self.new }
    {
        for link in ended {
            self.places.remove(link.number);
            self.of_session.remove(&link.session.number, link.number);
            self.of_address.remove(link.address, link.number);
        }
    }

    /// The producer's link that the event opens comes in.
    fn open(&mut self, event: &Event) -> Result<(), AllocError>
        ensures { OnOk result (AreOpenedIn (event_view event.now) self.old self.new) }
    {
        let Some(link) = producer_opened(event) else {
            return Ok(());
        };
        self.places.insert(link.number, key_of(&link))?;
        self.of_session.insert(link.session.number, link.number)?;
        self.of_address.insert(link.address, link.number)?;
        Ok(())
    }

    /// The link that the event names, and those of the deliveries that it tells and carries, may be given more credit.
    fn touch(&mut self, event: &Event, before: &LentTables<'_>) -> Result<(), AllocError>
        ensures { OnOk result (AreTouchedIn (event_view event.now) before.now self.old self.new) }
    {
        add(&mut self.links, producer_named(event))?;
        add(&mut self.links, producer_of(event.told, before))?;
        add(&mut self.links, producer_of(event.carried_number(), before))?;
        Ok(())
    }

    /// So may those of the session on which a producer's disposition stands, and those of the address that has its first
    /// consumer.
    fn wake(&mut self, event: &Event, before: &LentTables<'_>) -> Result<(), AllocError>
        ensures { OnOk result (AreWokenIn (event_view event.now) before.now self.old self.new) }
    {
        if let Some(session) = settled_session(event) {
            add_group(&mut self.links, &self.of_session, session)?;
        }
        if let Some(address) = served(event, before) {
            add_octet_group(&mut self.links, &self.of_address, address)?;
        }
        Ok(())
    }

    /// So may those without address where a consumer's link ends at whose address deliveries wait: these may be of such a link,
    /// wait no more without a consumer, and are decided by that where their producer has settled them.
    fn free(&mut self, ended: &[Link], before: &LentTables<'_>) -> Result<(), AllocError>
        ensures { OnOk result (AreFreedIn (views ended.now) before.now self.old self.new) }
    {
        if has_waited(ended, before) {
            add_octet_group(&mut self.links, &self.of_address, &[])?;
        }
        Ok(())
    }

    /// The live link with the lowest number that may be given more credit. Links below it are candidates no more.
    pub fn first_due<'t>(&mut self, rules: &RuleSet, tables: &LentTables<'t>) -> Option<Link<'t>>
        ensures due { IfSome result (λ link. (past : Events) → TellsOf rules.now tables.now past → IsToppable rules.now (link_view link) past) }
        ensures kept { (past : Events) → TellsOf rules.now tables.now past → HasCredits rules.now self.old past → HasCredits rules.now self.new past }
        ensures quiet { (past : Events) → TellsOf rules.now tables.now past → HasCredits rules.now self.old past → result ≡ None →
            none_lacks_credit rules.now past ≡ true }
    {
        while let Some(number) = self.links.first() {
            if let Some(link) = credit_due(number, self.places.get(number), rules, tables) {
                return Some(link);
            }
            self.links.remove(number);
        }
        None
    }
}

fn key_of(link: &Link) -> LinkKey
    ensures { result ≡ key_of (link_view link.now) }
{
    LinkKey {
        connection: link.session.connection,
        channel: link.session.channel,
        handle: link.handle,
    }
}

/// The producer's link that the event opens.
fn producer_opened<'a>(event: &Event<'a, '_, '_>) -> Option<Link<'a>>
    ensures { option_map link_view result ≡ where_passes is_producer (own_link (event_view event.now)) }
{
    match event.link {
        Some(link) if link.number == event.number && link.role == Role::Receiver => Some(link),
        _ => None,
    }
}

/// The number of the producer's link that the event names.
fn producer_named(event: &Event) -> Option<u64>
    ensures { result ≡ option_map (λ (l : law.Link). l.number) (where_passes is_producer (event_view event.now).link) }
{
    match event.link {
        Some(link) if link.role == Role::Receiver => Some(link.number),
        _ => None,
    }
}

/// The number of the link of the delivery of this number, where the tables have it.
fn producer_of(number: Option<u64>, before: &LentTables<'_>) -> Option<u64>
    ensures { (rules : RuleSet) (past : Events) → TellsOf rules before.now past → (d : law.Incoming) → number ≡ Some d.number →
        Knows before.now.deliveries.now d → result ≡ Some d.link.number }
{
    Some(before.deliveries.incoming_at(number?)?.link.number)
}

/// The session on which a producer's disposition stands.
fn settled_session(event: &Event) -> Option<u64>
    ensures { (s : ℕ) → settles (event_view event.now) ≡ true → option_map (λ s. s.number) (event_view event.now).session ≡ Some s → result ≡ Some s }
{
    match event.in_disposition()?.role {
        Role::Sender => Some(event.session?.number),
        Role::Receiver => None,
    }
}

/// The address of the consumer's link that the event opens, where it has none yet.
fn served<'a>(event: &Event<'a, '_, '_>, before: &LentTables<'_>) -> Option<&'a [u8]>
    ensures { (rules : RuleSet) (past : Events) → TellsOf rules before.now past → (l : law.Link) → opened_consumer (event_view event.now) ≡ Some l →
        addresses.has_consumer l.address past ≡ false → option_map (λ octets. octets.now) result ≡ Some l.address }
{
    match event.link {
        Some(link) if link.number == event.number && link.role == Role::Sender => {
            if before.has_consumer(link.address) {
                None
            } else {
                Some(link.address)
            }
        }
        _ => None,
    }
}

/// The link is a consumer's at whose address deliveries wait.
fn is_waited(link: &Link, before: &LentTables<'_>) -> bool
    ensures { (rules : RuleSet) (past : Events) → TellsOf rules before.now past →
        result ≡ (is_consumer (link_view link.now) && has_waiting rules (link_view link.now).address past) }
{
    link.is_consumer() && before.deliveries.has_waiting(link.address)
}

/// One of these links is such a one.
fn has_waited(ended: &[Link], before: &LentTables<'_>) -> bool
    ensures { (rules : RuleSet) (past : Events) → TellsOf rules before.now past → result ≡ has_waited rules past (views ended.now) }
{
    let mut has = false;
    for link in ended {
        has = has || is_waited(link, before);
    }
    has
}

/// The link of this number, at its place, where it may be given more credit.
#[inline(never)]
fn credit_due<'t>(
    number: u64,
    place: Option<LinkKey>,
    rules: &RuleSet,
    tables: &LentTables<'t>,
) -> Option<Link<'t>>
    ensures due { IfSome result (λ link. (past : Events) → TellsOf rules.now tables.now past → IsToppable rules.now (link_view link) past) }
    ensures found { (past : Events) → TellsOf rules.now tables.now past → (l : law.Link) → l.number ≡ number → place ≡ Some (key_of l) →
        IsToppable rules.now l past → is_some result ≡ true }
{
    let place = place?;
    let session = tables.live_session(place.connection, place.channel)?;
    let link = tables.session_link(session, place.handle)?;
    if link.number == number && link.is_producer() && may_be_topped_up(tables, rules, &link) {
        Some(link)
    } else {
        None
    }
}
