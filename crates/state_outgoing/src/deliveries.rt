//! The deliveries to clients, by the record that began each, and in groups.

ghost use Rattle.std.specs.Prelude.{◌≡◌, ◌∷◌, ◌++◌, ◌<◌, ◌^◌, ℕ, List, [], Contains, None, IfOk, IfSome, OnOk, is_some, map, nat_eq, option_map, reverse, slice_get, false, true, ◌==◌, if◌then◌else◌};
ghost use Rattle.std.specs.List.{list_all, list_any};
ghost use Rattle.std.specs.Option.{option_copied};
ghost use Rattle.indexmap.specs.IndexMap.{get};
ghost use Rattle.amqp_perf.specs.declared.descriptor.Outcome.{Outcome};
ghost use Rattle.number_groups.specs.Numbers.{is_among};
ghost use Rattle.capture_form.specs.Rules.{RuleSet};
ghost use Rattle.capture_form.specs.declared.records.Record.{Record};
ghost use Rattle.trace_events.specs.Words.{is_some_and, or_else};
ghost use Rattle.trace_events.specs.Event.{Incoming, Outgoing};
ghost use Rattle.trace_events.specs.Incoming as received;
ghost use Rattle.trace_events.specs.Outgoing as law;
ghost use Rattle.trace_events.specs.History.{judge, history};
ghost use Rattle.trace_events.specs.Clauses.{first_broken};
ghost use Rattle.trace_events.specs.TransferClause.{is_payload_so_far};
ghost use Rattle.state_tables.specs.Connections.{IsLawfulNext};
ghost use Rattle.state_tables.specs.ConsumerLinks.{link_in};
ghost use Rattle.state_tables.specs.EndedLinks.{AreEnded};
ghost use Rattle.state_tables.specs.LetGo.{is_let_go, names_let_go};
ghost use Rattle.state_outgoing.specs.Carriers.{carriers_in, listed};
ghost use Rattle.state_outgoing.specs.Given.{gives, says};
ghost use Rattle.state_verdicts.specs.Verdicts.{AreGiven};
ghost use Rattle.state_outgoing.specs.LastBegun.{last_number, carrier_number, is_last_carrying};
ghost use Rattle.state_outgoing.specs.LetGo.{is_finished};
ghost use Rattle.state_outgoing.specs.Sent as kept;
ghost use Rattle.state_outgoing.specs.Sent.{sent_begun, sent_next};
ghost use Rattle.state_outgoing.specs.SentAnswers.{KnowsOrBegins};
ghost use Rattle.state_outgoing.specs.SentGrouped.{AreGrouped};
ghost use Rattle.state_outgoing.specs.SentTables.{AreMovedBy, AreSent, IsTable, MovesAt, is_done_in, is_last_in, last_without, sent_in, sent_count_in};
ghost use Rattle.state_outgoing.specs.IdRanges.{IsCounted};
ghost use Rattle.state_outgoing.specs.SentTouched.{is_spoken_of, spoken_ids};
ghost use Rattle.state_outgoing.specs.SentViews.{sent_view};
ghost use Rattle.trace_events.specs.Known.{IsCarriedBy};
ghost use Rattle.trace_events.specs.View.{Events, event_view, link_view};

use crate::begun::LastNumbers;
use crate::carriers::Carriers;
use crate::groups::SentGroups;
use crate::listed::push_some;
use crate::payload::goes_on_with;
use crate::sent::SentDelivery;
use http_server::Log;
use number_groups::{Groups, IdOn, NumberSet};
use number_map::NumberMap;
use state_tables::ConsumerLinks;
use state_verdicts::CopyVerdict;
use std::alloc::{AllocError, Global};
use trace_events::{Event, Link};

/// The deliveries to clients.
pub struct SentDeliveries {
    alloc: Global,
    entries: NumberMap<u64, SentDelivery>,
    groups: SentGroups,
    begun: LastNumbers,
    /// The numbers of the deliveries from clients that were let go. Only proofs read them, and they take no memory.
    let_go: Log<u64, ()>,
}

// Written out, and not derived, so that where one is let go the prover need not go through all that it owns.
impl Drop for SentDeliveries {
    fn drop(self) {
        let SentDeliveries {
            alloc: _,
            entries: _,
            groups: _,
            begun: _,
            let_go: _,
        } = self;
    }
}

/// The entry of the number goes, if there is one.
fn remove(entries: &mut NumberMap<u64, SentDelivery>, number: u64)
    ensures { (n : ℕ) → get nat_eq entries.new n ≡ (if number == n then None else get nat_eq entries.old n) }
{
    entries.swap_remove(&number);
}

/// The entries of these numbers go, where there are any.
fn remove_all(entries: &mut NumberMap<u64, SentDelivery>, numbers: &[u64])
    ensures { (n : ℕ) → get nat_eq entries.new n ≡ (if is_among numbers.now n then None else get nat_eq entries.old n) }
{
    for number in numbers {
        remove(entries, *number);
    }
}

/// Where the delivery of this number is the last that began on its link, the link has none.
fn leave_link(begun: &mut LastNumbers, entries: &NumberMap<u64, SentDelivery>, number: u64)
    ensures on_link { (n : ℕ) → get nat_eq begun.new.on_link n
        ≡ last_without (λ m. option_map sent_view (get nat_eq entries.now m)) (λ m. m == number) n (get nat_eq begun.old.on_link n) }
    ensures carriers { begun.new.carriers ≡ begun.old.carriers }
{
    if let Some(own) = entries.get(&number) {
        begun.leave_link(own.delivery().link.number, number);
    }
}

/// So with each of these.
fn leave_links(begun: &mut LastNumbers, entries: &NumberMap<u64, SentDelivery>, numbers: &[u64])
    ensures on_link { (n : ℕ) → get nat_eq begun.new.on_link n
        ≡ last_without (λ m. option_map sent_view (get nat_eq entries.now m)) (is_among numbers.now) n (get nat_eq begun.old.on_link n) }
    ensures carriers { begun.new.carriers ≡ begun.old.carriers }
{
    for number in numbers {
        leave_link(begun, entries, *number);
    }
}

/// So with those that carry the same delivery.
fn leave_all(
    begun: &mut LastNumbers,
    entries: &NumberMap<u64, SentDelivery>,
    carriers: &Option<Carriers>,
)
    ensures on_link { (n : ℕ) → get nat_eq begun.new.on_link n
        ≡ last_without (λ m. option_map sent_view (get nat_eq entries.now m)) (is_among (listed carriers.now)) n (get nat_eq begun.old.on_link n) }
    ensures carriers { begun.new.carriers ≡ begun.old.carriers }
{
    if let Some(carriers) = carriers {
        leave_link(begun, entries, carriers.last);
        leave_links(begun, entries, &carriers.earlier);
    }
}

/// The entries of those that carry the same delivery go, where there are any.
fn remove_carriers(entries: &mut NumberMap<u64, SentDelivery>, carriers: Option<Carriers>)
    ensures { (n : ℕ) → get nat_eq entries.new n ≡ (if is_among (listed carriers) n then None else get nat_eq entries.old n) }
{
    if let Some(carriers) = carriers {
        remove(entries, carriers.last);
        remove_all(entries, &carriers.earlier);
    }
}

impl SentDeliveries {
    /// No records.
    pub fn new(alloc: Global) -> SentDeliveries
        ensures table { IsTable result [] }
        ensures gone { result.let_go.items ≡ [] }
    {
        SentDeliveries {
            alloc,
            entries: NumberMap::new(alloc),
            groups: SentGroups::new(alloc),
            begun: LastNumbers::new(alloc),
            let_go: Log::new(),
        }
    }

    /// The delivery that began in this record. `None` where the table has none.
    pub fn get(&self, number: u64) -> Option<&SentDelivery>
        ensures { option_map sent_view (option_copied result) ≡ sent_in self.now number }
    {
        self.entries.get(&number)
    }

    /// These octets are the next ones of this payload behind as many as were sent of the delivery, and where no more follows
    /// its last ones. What was sent is not compared again: in a lawful capture it is the front of what the delivery carries.
    pub fn is_payload_so_far(&self, number: u64, more: bool, payload: &[u8], octets: &[u8]) -> bool
        ensures stored { result ≡ kept.goes_on_with more payload.now (sent_count_in self.now number) octets.now }
        ensures known { (rules : RuleSet) (records : List Record) (j : Outgoing) (d : Incoming) → AreSent self.now (history rules records) →
            first_broken rules (history rules records) ≡ None → number ≡ j.number → KnowsOrBegins self.now (history rules records) j → IsCarriedBy d (history rules records) j →
            payload.now ≡ received.payload d (history rules records) →
            result ≡ is_payload_so_far more (received.payload d (history rules records)) (law.payload j (history rules records) ++ octets.now) }
    {
        goes_on_with(more, payload, self.sent_count(number), octets)
    }

    /// How many octets of the delivery of this number were sent, counted in 64 bits; 0 of one that is not in the table.
    pub fn sent_count(&self, number: u64) -> u64
        ensures { result ≡ sent_count_in self.now number }
    {
        match self.get(number) {
            Some(own) => own.sent_count(),
            None => 0,
        }
    }

    /// The number of the last delivery that began on the link of this number, unless what it carries was let go. `None` also where
    /// none began there.
    pub fn last_begun_on(&self, link: u64) -> Option<u64>
        ensures { (history : Events) → IsTable self.now history → result ≡ last_number self.now.let_go.items link history }
    {
        self.begun.on_link.get(&link).copied()
    }

    /// That of the last delivery whose note names the delivery from a client of this number, unless this one was let go. `None`
    /// also where none does.
    pub fn carrier_of(&self, number: u64) -> Option<u64>
        ensures stored { result ≡ slice_get (carriers_in self.now.begun number) 0 }
        ensures known { (history : Events) → IsTable self.now history →
            result ≡ (if is_let_go self.now.let_go.items number then None else carrier_number number history) }
    {
        self.begun.carrier_of(number)
    }

    /// All deliveries that carry the one from a client of this number are finished; so too where none does.
    pub fn has_finished(&self, number: u64) -> bool
        ensures stored { result ≡ list_all (is_done_in self.now) (carriers_in self.now.begun number) }
        ensures known { (rules : RuleSet) (records : List Record) → IsTable self.now (history rules records) → is_let_go self.now.let_go.items number ≡ false →
            result ≡ true → (j : Outgoing) → Contains (law.outgoing_deliveries (history rules records)) j → law.names number j.note ≡ true →
            is_finished (history rules records) j ≡ true }
        ensures all { (rules : RuleSet) (records : List Record) → IsTable self.now (history rules records) → is_let_go self.now.let_go.items number ≡ false →
            ((j : Outgoing) → Contains (law.outgoing_deliveries (history rules records)) j → law.names number j.note ≡ true →
            is_finished (history rules records) j ≡ true) → result ≡ true }
    {
        self.says_finished(number)
    }

    fn says_finished(&self, number: u64) -> bool
        ensures { result ≡ list_all (is_done_in self.now) (carriers_in self.now.begun number) }
    {
        match self.begun.carriers.get(&number) {
            Some(carriers) => self.is_done(carriers.last) && self.are_done(&carriers.earlier),
            None => true,
        }
    }

    /// There are entries of all these numbers, and their deliveries are finished. The last number is asked first, since the
    /// delivery that began last is likely to be finished last.
    fn are_done(&self, numbers: &[u64]) -> bool
        ensures { result ≡ list_all (is_done_in self.now) (reverse numbers.now) }
    {
        numbers.iter().rev().all(|number| self.is_done(*number))
    }

    /// There is an entry of this number, and its delivery is finished.
    fn is_done(&self, number: u64) -> bool
        ensures { result ≡ is_done_in self.now number }
    {
        match self.get(number) {
            Some(own) => own.is_done(),
            None => false,
        }
    }

    /// Of those that carry the delivery from a client of this number, one is the last that began on its link, and the link is
    /// among these. It takes the time of those that carry it.
    pub fn is_carried_last(&self, number: u64, links: &ConsumerLinks) -> bool
        ensures stored { result ≡ list_any (is_last_in self.now links.now) (carriers_in self.now.begun number) }
        ensures known { (rules : RuleSet) (records : List Record) → IsTable self.now (history rules records) → is_let_go self.now.let_go.items number ≡ false →
            result ≡ false → (link : ℕ) → is_some (link_in links.now link) ≡ true → is_last_carrying number link (history rules records) ≡ false }
    {
        self.says_carried_last(number, links)
    }

    fn says_carried_last(&self, number: u64, links: &ConsumerLinks) -> bool
        ensures { result ≡ list_any (is_last_in self.now links.now) (carriers_in self.now.begun number) }
    {
        match self.begun.carriers.get(&number) {
            Some(carriers) => {
                self.is_last(carriers.last, links) || self.has_last(&carriers.earlier, links)
            }
            None => false,
        }
    }

    /// One of these is the last that began on its link, and the link is among these.
    fn has_last(&self, numbers: &[u64], links: &ConsumerLinks) -> bool
        ensures { result ≡ list_any (is_last_in self.now links.now) (reverse numbers.now) }
    {
        numbers
            .iter()
            .rev()
            .any(|number| self.is_last(*number, links))
    }

    /// There is an entry of this number, whose delivery began last on its link, and the link is among these.
    fn is_last(&self, number: u64, links: &ConsumerLinks) -> bool
        ensures { result ≡ is_last_in self.now links.now number }
    {
        match self.get(number) {
            Some(own) => {
                let link = own.delivery().link.number;
                links.get(link).is_some() && self.begun.is_last(link, number)
            }
            None => false,
        }
    }

    /// The delivery from a client of this number is let go, and with it all that carry it. It takes the time of those, and no
    /// memory. The table agrees with the records still, where those are finished.
    pub fn let_go(&mut self, number: u64)
        ensures gone { self.new.let_go.items ≡ self.old.let_go.items ++ (number, tt) ∷ [] }
        ensures stands { (rules : RuleSet) (records : List Record) → IsTable self.old (history rules records) →
            ((j : Outgoing) → Contains (law.outgoing_deliveries (history rules records)) j → law.names number j.note ≡ true → is_finished (history rules records) j ≡ true) →
            IsTable self.new (history rules records) }
    {
        let carriers = self.begun.let_go(number);
        leave_all(&mut self.begun, &self.entries, &carriers);
        remove_carriers(&mut self.entries, carriers);
        self.let_go = self.let_go.and(&number, &());
    }

    /// The unsettled deliveries by their id on their session.
    pub(crate) fn of_id(&self) -> &Groups<IdOn>
        ensures { result.now ≡ self.now.groups.of_id }
    {
        &self.groups.of_id
    }

    /// The unsettled deliveries by the number of their link.
    pub(crate) fn of_link(&self) -> &Groups<u64>
        ensures { result.now ≡ self.now.groups.of_link }
    {
        &self.groups.of_link
    }

    /// The numbers of the unsettled deliveries of which the event's consumer speaks, each once. It takes the time of the ids that
    /// it names, or of what is unsettled on its session where that is less; and hardly any where it is no client's disposition.
    ///
    /// # Errors
    ///
    /// Memory was refused.
    #[inline(always)]
    pub fn spoken_of(&self, alloc: Global, event: &Event) -> Result<NumberSet, AllocError>
        ensures stored { IfOk result (λ spoken. (n : ℕ) → is_among spoken n ≡ is_spoken_of self.now.groups (event_view event.now) n) }
        ensures counted { OnOk result (IfSome (spoken_ids (event_view event.now)) IsCounted) }
        ensures known { IfOk result (λ spoken. (rules : RuleSet) (records : List Record) → IsTable self.now (history rules records) →
            (j : Outgoing) → Contains (law.outgoing_deliveries (history rules records)) j → kept.is_left_unsettled (history rules records) j ≡ true →
            is_some (law.answering j (event_view event.now)) ≡ true → is_among spoken j.number ≡ true) }
    {
        match event.in_disposition() {
            Some(_) => self.spoken_by(alloc, event),
            None => Ok(NumberSet::new(alloc)),
        }
    }

    /// The same of an event of any kind.
    ///
    /// # Errors
    ///
    /// Memory was refused.
    #[inline(never)]
    fn spoken_by(&self, alloc: Global, event: &Event) -> Result<NumberSet, AllocError>
        ensures stored { IfOk result (λ spoken. (n : ℕ) → is_among spoken n ≡ is_spoken_of self.now.groups (event_view event.now) n) }
        ensures counted { OnOk result (IfSome (spoken_ids (event_view event.now)) IsCounted) }
        ensures known { IfOk result (λ spoken. (rules : RuleSet) (records : List Record) → IsTable self.now (history rules records) →
            (j : Outgoing) → Contains (law.outgoing_deliveries (history rules records)) j → kept.is_left_unsettled (history rules records) j ≡ true →
            is_some (law.answering j (event_view event.now)) ≡ true → is_among spoken j.number ≡ true) }
    {
        let spoken = self.groups.spoken_of(alloc, event)?;
        Ok(spoken)
    }

    /// The event follows those so far. These links live before it and end with it. It gives what stands behind the event, of
    /// the deliveries that it touches or begins, of each that carries one from a client: what its consumer decided, and
    /// accepted where it went out settled. So of each copy of a multicast delivery that awaited its verdict.
    ///
    /// # Errors
    ///
    /// Memory was refused; then the table may agree with no records any more.
    pub fn take(&mut self, event: &Event, ended: &[Link]) -> Result<Vec<CopyVerdict>, AllocError>
        ensures kept { OnOk result ((rules : RuleSet) (records : List Record) (r : Record) → event_view event.now ≡ judge rules (history rules records) r →
            IsTable self.old (history rules records) → AreEnded (event_view event.now) (history rules records) (map link_view ended.now) →
            is_some_and (law.outgoing_begun (event_view event.now)) (λ j. names_let_go self.old.let_go.items j.note) ≡ false →
            IsTable self.new (event_view event.now ∷ history rules records)) }
        ensures given { IfOk result (λ given. (rules : RuleSet) (records : List Record) (r : Record) → IsLawfulNext rules records r (event_view event.now) →
            IsTable self.old (history rules records) → AreEnded (event_view event.now) (history rules records) (map link_view ended.now) →
            AreGiven rules (event_view event.now) (history rules records) given.items) }
        ensures gone { self.new.let_go.items ≡ self.old.let_go.items }
    {
        let touched = self.groups.touched(self.alloc, ended, event)?;
        let mut given = self.touch_all(touched, event)?;
        push_some(&mut given, self.begin(event)?)?;
        self.begun.take(event)?;
        Ok(given)
    }

    /// The event begins a delivery, or none. What came of it stands with the event, or not yet.
    ///
    /// # Errors
    ///
    /// Memory was refused, for a delivery that the event begins; then the groups may not fit the deliveries any more.
    fn begin(&mut self, event: &Event) -> Result<Option<CopyVerdict>, AllocError>
        ensures begun { OnOk result (MovesAt (event_view event.now).number (or_else (sent_begun (event_view event.now))) self.old self.new) }
        ensures grouped { OnOk result (AreGrouped self.old.groups (sent_in self.old) → sent_in self.old (event_view event.now).number ≡ None →
            AreGrouped self.new.groups (sent_in self.new)) }
        ensures same { OnOk result (self.new.begun ≡ self.old.begun) }
        ensures gone { self.new.let_go.items ≡ self.old.let_go.items }
        ensures given { IfOk result (λ given. (link n : ℕ) (outcome : Outcome) →
            is_some_and given (says link n outcome) ≡ gives link n outcome (sent_begun (event_view event.now))) }
    {
        let Some(own) = SentDelivery::begin(self.alloc, event)? else {
            return Ok(None);
        };
        let given = own.copy_verdict();
        self.groups.put(&own.delivery(), own.is_unsettled())?;
        self.entries.insert(event.number, own)?;
        Ok(given)
    }

    /// The event touches the delivery of this number. What came of it stands behind the event, or not yet.
    ///
    /// # Errors
    ///
    /// Memory was refused; then the groups may not fit the deliveries any more.
    fn touch(&mut self, number: u64, event: &Event) -> Result<Option<CopyVerdict>, AllocError>
        ensures touched { OnOk result (MovesAt number (option_map (sent_next (event_view event.now))) self.old self.new) }
        ensures grouped { OnOk result (AreGrouped self.old.groups (sent_in self.old) → AreGrouped self.new.groups (sent_in self.new)) }
        ensures same { OnOk result (self.new.begun ≡ self.old.begun) }
        ensures gone { self.new.let_go.items ≡ self.old.let_go.items }
        ensures given { IfOk result (λ given. (link n : ℕ) (outcome : Outcome) →
            is_some_and given (says link n outcome) ≡ gives link n outcome (option_map (sent_next (event_view event.now)) (sent_in self.old number))) }
    {
        let Some(own) = self.entries.get_mut(&number) else {
            return Ok(None);
        };
        own.take(event)?;
        self.groups.put(&own.delivery(), own.is_unsettled())?;
        Ok(own.copy_verdict())
    }

    /// The event touches each of these. What came of them stands behind the event.
    fn touch_all(
        &mut self,
        mut touched: NumberSet,
        event: &Event,
    ) -> Result<Vec<CopyVerdict>, AllocError>
        ensures touched { OnOk result (AreMovedBy (is_among touched) (event_view event.now) self.old self.new) }
        ensures grouped { OnOk result (AreGrouped self.old.groups (sent_in self.old) → AreGrouped self.new.groups (sent_in self.new)) }
        ensures same { OnOk result (self.new.begun ≡ self.old.begun) }
        ensures gone { self.new.let_go.items ≡ self.old.let_go.items }
        ensures given { IfOk result (λ given. (link n : ℕ) (outcome : Outcome) → list_any (says link n outcome) given.items
            ≡ list_any (λ m. gives link n outcome (option_map (sent_next (event_view event.now)) (sent_in self.old m))) touched) }
    {
        let mut given = Vec::new(self.alloc);
        while let Some(number) = touched.pop() {
            push_some(&mut given, self.touch(number, event)?)?;
        }
        Ok(given)
    }
}
