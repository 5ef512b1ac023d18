//! The consumer's link that a delivery of an address goes to.

ghost use Rattle.std.specs.Prelude.{◌≡◌, ◌<◌, ◌^◌, ◌&&◌, ◌==◌, ◌∷◌, ◌++◌, ℕ, List, [], false, Some, IfSome, MatchOption, OnOk, option_map};
ghost use Rattle.std.specs.Str.{is_utf8};
ghost use Rattle.flow_counts.specs.Picks.{AddressEvent};
ghost use Rattle.capture_form.specs.Rules.{RuleSet};
ghost use Rattle.capture_form.specs.declared.records.Record.{Record};
ghost use Rattle.address_table.specs.Links.{IsCount};
ghost use Rattle.trace_events.specs.Words.{is_some_and};
ghost use Rattle.trace_events.specs.Link.{link_at, own_link};
ghost use Rattle.trace_events.specs.Outgoing as outgoing;
ghost use Rattle.trace_events.specs.History.{history};
ghost use Rattle.trace_duties.specs.Consumers.{attached_as, begun_by};
ghost use Rattle.trace_events.specs.TransferClause.{may_take};
ghost use Rattle.trace_duties.specs.Pick.{pick};
ghost use Rattle.trace_events.specs.View.{Events, event_view, link_view};
ghost use Rattle.state_tables.specs.Connections.{IsLawfulNext};
ghost use Rattle.state_tables.specs.EndedLinks.{views};
ghost use Rattle.state_tables.specs.LinkTables.{AreLinked};
ghost use Rattle.state_tables.specs.ConsumerLinks.{consumer_at};
ghost use Rattle.state_outgoing.specs.SentTables.{sent_in};
ghost use Rattle.state_outgoing.specs.SentViews.{sent_view};
ghost use Rattle.state_answers.specs.Tables.{TellsOf};
ghost use Rattle.state_answers.specs.Effects.{AreEffects};
ghost use Rattle.due_lists.specs.AddressCounts.{AreFew, CountsMore, DetachesAll, HasNamedSource, decided_on, detached_all, named_source};
ghost use Rattle.due_lists.specs.Picks.{ArePicks, decided_among, decided_link, decides};

use address_table::Table;
use amqp_perf::Address;
use capture_form::{RuleSet, distribution_of};
use state_answers::{EventEffects, LentTables};
use state_outgoing::SentDelivery;
use state_tables::Links;
use std::alloc::{AllocError, Global};
use std::str::from_utf8;
use trace_events::{Event, Link, is_decisive};
use trace_judge::may_take;

/// The links of consumers, as picks see them, moved forward by one event after the other.
#[derive(Drop)]
pub struct Picks {
    table: Table,
}

/// The address that an attach of the router names for a link on which it sends; an address that is no text is empty.
fn named_source<'a>(event: &Event<'_, '_, 'a>) -> &'a str
    ensures { result.now ≡ named_source (event_view event.now) }
{
    let Some(attach) = event.out_attach() else {
        return "";
    };
    match attach.source {
        Some(source) => match source.address {
            Some(Address::Text(text)) => text,
            _ => "",
        },
        None => "",
    }
}

/// The consumer decides the delivery with the event.
fn decides(event: &Event, delivery: &SentDelivery, links: &Links) -> bool
    ensures { (history : Events) → AreLinked links.now history → result ≡ decides (event_view event.now) history (sent_view delivery.now) }
{
    let own = delivery.delivery();
    if own.link.is_pre_settled || delivery.decision().is_some() || !links.is_live(&own.link) {
        return false;
    }
    match event.answering(&own) {
        Some(fields) => is_decisive(&fields),
        None => false,
    }
}

/// The octets as a text, if they are one.
#[tactic(auto, using(crate::proofs::Texts::utf8_tests))]
fn text_of(octets: &[u8]) -> Option<&str>
    ensures { MatchOption result (is_utf8 octets.now ≡ false) (λ text. text.now ≡ octets.now) }
{
    from_utf8(octets).ok()
}

/// The consumer's live link of this number may be sent a delivery: it has credit, its session has window, and nothing is in
/// progress.
fn consumer_may_take(tables: &LentTables<'_>, number: u64) -> bool
    ensures { (rules : RuleSet) (records : List Record) → TellsOf rules tables.now (history rules records) →
        result ≡ is_some_and (consumer_at number (history rules records)) (may_take (history rules records)) }
{
    match tables.consumer_links.get(number) {
        Some(link) => may_take(tables, &link),
        None => false,
    }
}

impl Picks {
    /// No records.
    pub fn new(alloc: Global) -> Picks
        ensures { ArePicks result [] }
    {
        Picks {
            table: Table::new(alloc),
        }
    }

    /// The event follows those so far, with these effects; `before` are the tables without it. The rules say only at which
    /// addresses picks are to be fast. It takes the time of the links that the event ends and of the unsettled deliveries of
    /// which a consumer speaks with it; where one of these is of a balanced address, or begins there, also that of the links of
    /// the address.
    ///
    /// # Errors
    ///
    /// Memory was refused; then the picks may agree with no records any more.
    pub fn follow(
        &mut self,
        rules: &RuleSet,
        event: &Event,
        before: &LentTables<'_>,
        effects: &EventEffects<'_>,
    ) -> Result<(), AllocError>
        ensures { OnOk result ((rules : RuleSet) (records : List Record) (r : Record) → IsLawfulNext rules records r (event_view event.now) →
            TellsOf rules before.now (history rules records) → AreEffects (event_view event.now) (history rules records) effects.now →
            ArePicks self.old (history rules records) → ArePicks self.new (event_view event.now ∷ history rules records)) }
    {
        self.attach(rules, event)?;
        self.begin(event);
        self.decide(event, before, effects.spoken());
        self.detach(effects.ended());
        Ok(())
    }

    /// The consumer's link that a delivery of the address goes to, of those that may be sent one: for a closest address the
    /// one whose last delivery began first, where one without a delivery comes before all; for a balanced address the one
    /// with the fewest deliveries that are not decided; of equal ones the one that was attached first. `None` where none
    /// may be sent one, and for a multicast address. It takes no memory, and time linear in the links of the address at most,
    /// of a balanced one in those up to the first that may be sent one.
    pub fn pick<'t>(
        &self,
        address: &[u8],
        rules: &RuleSet,
        tables: &LentTables<'t>,
    ) -> Option<Link<'t>>
        ensures picked { (records : List Record) → TellsOf rules.now tables.now (history rules.now records) → ArePicks self.now (history rules.now records) →
            option_map (λ l. (link_view l).number) result ≡ pick rules.now address.now (history rules.now records) }
        ensures known { (records : List Record) → TellsOf rules.now tables.now (history rules.now records) → ArePicks self.now (history rules.now records) →
            IfSome (option_map link_view result) (λ l. link_at l.number (history rules.now records) ≡ Some l) }
    {
        let text = text_of(address)?;
        let distribution = distribution_of(rules, address);
        let number = self.table.pick(
            text,
            distribution,
            |number: u64| -> bool
                ensures { (rules : RuleSet) (records : List Record) → TellsOf rules tables.entry.now (history rules records) →
                    result ≡ is_some_and (consumer_at number (history rules records)) (may_take (history rules records)) }
            { consumer_may_take(tables, number) },
        )?;
        tables.consumer_links.get(number)
    }

    /// The link of a consumer that the event opens is attached to its address.
    fn attach(&mut self, rules: &RuleSet, event: &Event) -> Result<(), AllocError>
        ensures { OnOk result (HasNamedSource (event_view event.now) → CountsMore (attached_as (own_link (event_view event.now))) self.old.table self.new.table) }
    {
        let Some(link) = event.opened_consumer() else {
            return Ok(());
        };
        let address = named_source(event);
        let distribution = distribution_of(rules, address.as_bytes());
        self.table
            .attach(address, link.number, link.is_pre_settled, distribution)?;
        Ok(())
    }

    /// A delivery begins on its link with the event. Their count always has room for it.
    fn begin(&mut self, event: &Event)
        ensures counted { (past : List AddressEvent) → AreFew past (outgoing.outgoing_begun (event_view event.now)) → IsCount self.old.table past →
            IsCount self.new.table (begun_by (event_view event.now) ++ past) }
        ensures number { event.now.number < 2 ^ 64 }
    {
        let number = event.number;
        let Some(delivery) = event.outgoing_begun() else {
            return;
        };
        if self.table.undecided(delivery.link.number) < u64::MAX {
            self.table.begun(delivery.link.number, number);
        }
    }

    /// Those of these deliveries that the event decides are decided.
    fn decide(&mut self, event: &Event, before: &LentTables<'_>, spoken: &[u64])
        ensures { (history : Events) → AreLinked before.now.links.now history →
            CountsMore (decided_among (event_view event.now) history (sent_in before.now.sent.now) spoken.now) self.old.table self.new.table }
    {
        let mut left = spoken;
        while let Some((number, others)) = left.split_last() {
            self.decide_one(*number, event, before);
            left = others;
        }
    }

    /// The delivery of this number is decided, if the event decides it.
    fn decide_one(&mut self, number: u64, event: &Event, before: &LentTables<'_>)
        ensures { (history : Events) → AreLinked before.now.links.now history →
            CountsMore (decided_on (decided_link (event_view event.now) history (sent_in before.now.sent.now number))) self.old.table self.new.table }
    {
        let Some(own) = before.sent.get(number) else {
            return;
        };
        if !decides(event, own, before.links) {
            return;
        }
        let delivery = own.delivery();
        if self.table.undecided(delivery.link.number) > 0 {
            self.table.decided(delivery.link.number);
        }
    }

    /// The links of consumers that end are detached.
    fn detach(&mut self, ended: &[Link])
        ensures { DetachesAll (views ended.now) self.old.table self.new.table }
    {
        for link in ended {
            self.detach_one(link);
        }
    }

    /// The link is detached, if it is a consumer's.
    fn detach_one(&mut self, link: &Link)
        ensures { CountsMore (detached_all (link_view link.now ∷ [])) self.old.table self.new.table }
    {
        if link.is_consumer() {
            self.table.detach(link.number);
        }
    }
}
