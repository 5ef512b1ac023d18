//! A delivery from a client, from its first part on for as long as something may still come of it: the address that it is for,
//! its payload, what has become of it, and what is still to be told (part 2 of the standard, sections 2.6.12 and 2.6.14).

ghost use Rattle.std.specs.Prelude.{◌≡◌, false, not, ◌&&◌, ℕ, List, [], Some, None, OnOk, OnErr, IfOk, is_some, true, option_map, if◌then◌else◌};
ghost use Rattle.capture_form.specs.Rules.{RuleSet};
ghost use Rattle.trace_events.specs.Incoming as law;
ghost use Rattle.trace_events.specs.Link.{is_anonymous};
ghost use Rattle.trace_events.specs.Said.{in_spoken};
ghost use Rattle.trace_events.specs.Outgoing as sent;
ghost use Rattle.trace_events.specs.Waiting as fates;
ghost use Rattle.trace_events.specs.Settling.{is_closed};
ghost use Rattle.trace_events.specs.History.{history};
ghost use Rattle.trace_events.specs.Clauses.{first_broken};
ghost use Rattle.trace_events.specs.Outcome.{may_be_told};
ghost use Rattle.trace_events.specs.TransferClause.{to_carry};
ghost use Rattle.pairing_cert.specs.declared.note.Note.TheVariants as notes;
ghost use Rattle.capture_form.specs.declared.records.Record.{Record};
ghost use Rattle.state_incoming.specs.Held as kept;
ghost use Rattle.state_incoming.specs.Held.{IsEntry, HeldFollows, HeldBegins};
ghost use Rattle.state_incoming.specs.HeldViews.{held_view};
ghost use Rattle.state_incoming.specs.LetGo.{is_spent};
ghost use Rattle.trace_events.specs.View.{Events, incoming_view, event_view};

use capture_form::RuleSet;
use state_tables::HeldLink;
use std::alloc::{AllocError, Global};
use trace_events::{Event, Incoming, has_multicast};

/// What has become of it.
#[derive(Clone, Copy, Debug, PartialEq, Eq)]
pub enum Fate {
    /// It is not complete.
    Arriving,
    /// Of anycast, it waits for a consumer.
    Waiting,
    /// Of anycast, it found no consumer, or lost the last one.
    Gone,
    /// Of anycast, it went to a consumer.
    Paired,
    /// Of multicast, it is complete.
    Copied,
}

impl Fate {
    fn is_arriving(self) -> bool
        ensures { result ≡ kept.says_arriving self }
    {
        matches!(self, Fate::Arriving)
    }

    fn is_waiting(self) -> bool
        ensures { result ≡ kept.says_waiting self }
    {
        matches!(self, Fate::Waiting)
    }

    fn is_gone(self) -> bool
        ensures { result ≡ kept.says_gone self }
    {
        matches!(self, Fate::Gone)
    }

    fn is_paired(self) -> bool
        ensures { result ≡ kept.says_paired self }
    {
        matches!(self, Fate::Paired)
    }

    fn is_copied(self) -> bool
        ensures { result ≡ kept.says_copied self }
    {
        matches!(self, Fate::Copied)
    }
}

/// A delivery from a client that is kept.
#[doc(hidden)]
#[derive(Drop)]
pub struct HeldDelivery {
    number: u64,
    link: HeldLink,
    payload: Vec<u8>,
    /// The address in its message, from its completion on, where its link has none.
    to: Vec<u8>,
    /// The record that completed it.
    completion: Option<u64>,
    fate: Fate,
    id: Option<u32>,
    format: u32,
    /// It is told, settled, or of a link that is over.
    is_closed: bool,
    is_undecided: bool,
}

impl HeldDelivery {
    /// Before its first part.
    fn unbegun(alloc: Global, delivery: &Incoming) -> Result<HeldDelivery, AllocError>
        ensures { IfOk result (λ held. held_view held ≡ kept.unbegun (incoming_view delivery.now)) }
    {
        Ok(HeldDelivery {
            number: delivery.number,
            link: HeldLink::new(alloc, &delivery.link)?,
            id: delivery.id,
            format: delivery.format,
            payload: Vec::new(alloc),
            to: Vec::new(alloc),
            completion: None,
            is_closed: false,
            is_undecided: true,
            fate: Fate::Arriving,
        })
    }

    /// The delivery that the event begins, unless nothing is left of it at once; `None` also where it begins none. What the event
    /// completes is for this address, and `has_consumer` says whether the delivery's own has one behind the event.
    ///
    /// # Errors
    ///
    /// Memory was refused, for a delivery that the event begins.
    pub fn begin(
        alloc: Global,
        rules: &RuleSet,
        event: &Event,
        address: &[u8],
        has_consumer: bool,
    ) -> Result<Option<HeldDelivery>, AllocError>
        ensures begun { IfOk result (λ held. option_map held_view held ≡ kept.held_begun rules.now (event_view event.now) address.now has_consumer) }
        ensures known { IfOk result (λ held. HeldBegins rules.now (event_view event.now) address.now has_consumer (option_map held_view held)) }
        ensures first { OnErr result (is_some (law.incoming_begun (event_view event.now)) ≡ true) }
    {
        let held = HeldDelivery::first(alloc, rules, event, address, has_consumer)?;
        Ok(held)
    }

    /// The same, by what the event makes of it.
    fn first(
        alloc: Global,
        rules: &RuleSet,
        event: &Event,
        address: &[u8],
        has_consumer: bool,
    ) -> Result<Option<HeldDelivery>, AllocError>
        ensures begun { IfOk result (λ held. option_map held_view held ≡ kept.held_begun rules.now (event_view event.now) address.now has_consumer) }
        ensures first { OnErr result (is_some (law.incoming_begun (event_view event.now)) ≡ true) }
    {
        let Some(delivery) = event.incoming_begun() else {
            return Ok(None);
        };
        let mut held = HeldDelivery::unbegun(alloc, &delivery)?;
        if held.move_on(rules, event, address, has_consumer)? {
            Ok(Some(held))
        } else {
            Ok(None)
        }
    }

    /// The delivery itself.
    pub fn delivery(&self) -> Incoming<'_>
        ensures { incoming_view result ≡ (held_view self.now).delivery }
    {
        Incoming {
            number: self.number,
            link: self.link.link(),
            id: self.id,
            format: self.format,
        }
    }

    /// The address that it is for: its link's, or on a link without one its message's, from its completion on.
    #[tactic(auto, using(crate::proofs::HeldKnown::entry_address))]
    pub fn address(&self) -> &[u8]
        ensures stored { result.now ≡ (held_view self.now).address }
        ensures known { (rules : RuleSet) (history : Events) → IsEntry rules history (held_view self.now) →
            result.now ≡ law.address_of (held_view self.now).delivery history }
    {
        self.own_address()
    }

    fn own_address(&self) -> &[u8]
        ensures { result.now ≡ (held_view self.now).address }
    {
        let link = self.link.link();
        if link.is_anonymous() {
            &self.to
        } else {
            link.address
        }
    }

    /// Its address behind the event, where what that completes is for this one.
    pub(crate) fn address_behind<'a>(&'a self, event: &Event, address: &'a [u8]) -> &'a [u8]
        ensures { result.now ≡ kept.address_behind (event_view event.now) address.now (held_view self.now) }
    {
        if self.is_addressed_by(event) {
            address
        } else {
            self.own_address()
        }
    }

    /// The event tells its address: it arrives, on a link without one, and the event completes it.
    fn is_addressed_by(&self, event: &Event) -> bool
        ensures { result ≡ (is_anonymous (held_view self.now).delivery.link
            && (kept.says_arriving (held_view self.now).fate && law.completes (held_view self.now).delivery (event_view event.now))) }
    {
        let delivery = self.delivery();
        delivery.link.is_anonymous() && (self.fate.is_arriving() && event.completes(&delivery))
    }

    /// What has come of its payload.
    #[tactic(auto, using(crate::proofs::HeldKnown::entry_payload))]
    pub fn payload(&self) -> &[u8]
        ensures stored { result.now ≡ (held_view self.now).payload }
        ensures known { (rules : RuleSet) (history : Events) → IsEntry rules history (held_view self.now) →
            result.now ≡ law.payload (held_view self.now).delivery history }
    {
        &self.payload
    }

    /// The record that completed it. `None` until one has.
    #[tactic(auto, using(crate::proofs::HeldKnown::entry_completion))]
    pub fn completion(&self) -> Option<u64>
        ensures stored { result ≡ self.now.completion }
        ensures known { (rules : RuleSet) (history : Events) → IsEntry rules history (held_view self.now) →
            result ≡ law.completion (held_view self.now).delivery history }
    {
        self.completion
    }

    /// The record that it began in.
    pub(crate) fn number(&self) -> u64
        ensures { result ≡ self.now.number }
    {
        self.number
    }

    /// Its last part has come.
    pub fn is_complete(&self) -> bool
        ensures stored { result ≡ not (kept.says_arriving self.now.fate) }
        ensures known { (rules : RuleSet) (history : Events) → IsEntry rules history (held_view self.now) →
            result ≡ law.is_complete (held_view self.now).delivery history }
    {
        !self.fate.is_arriving()
    }

    /// Nothing more is to be told of it: it is told, settled by its producer, or of a link that is over.
    #[tactic(auto, using(crate::proofs::HeldKnown::entry_closed))]
    pub fn is_closed(&self) -> bool
        ensures stored { result ≡ self.now.is_closed }
        ensures known { (rules : RuleSet) (history : Events) → IsEntry rules history (held_view self.now) →
            result ≡ is_closed history (held_view self.now).delivery }
    {
        self.is_closed
    }

    /// It is undecided: of a live link, and incomplete, waiting, or neither settled nor told.
    #[tactic(auto, using(crate::proofs::HeldKnown::entry_undecided))]
    pub fn is_undecided(&self) -> bool
        ensures stored { result ≡ self.now.is_undecided }
        ensures known { (rules : RuleSet) (history : Events) → IsEntry rules history (held_view self.now) →
            result ≡ fates.is_undecided rules (held_view self.now).delivery history }
    {
        self.is_undecided
    }

    /// It waits for a consumer that may be sent it.
    pub fn is_waiting(&self) -> bool
        ensures stored { result ≡ kept.says_waiting self.now.fate }
        ensures known { (rules : RuleSet) (history : Events) → IsEntry rules history (held_view self.now) →
            result ≡ fates.is_waiting rules (held_view self.now).delivery history }
    {
        self.fate.is_waiting()
    }

    /// It found no consumer, or lost the last one, and goes to none any more.
    pub fn is_gone(&self) -> bool
        ensures stored { result ≡ kept.says_gone self.now.fate }
        ensures known { (rules : RuleSet) (history : Events) → IsEntry rules history (held_view self.now) →
            result ≡ fates.is_gone rules (held_view self.now).delivery history }
    {
        self.fate.is_gone()
    }

    /// Of anycast, it went to a consumer, or began to.
    pub fn is_paired(&self) -> bool
        ensures stored { result ≡ kept.says_paired self.now.fate }
        ensures known { (rules : RuleSet) (records : List Record) → IsEntry rules (history rules records) (held_view self.now) →
            first_broken rules (history rules records) ≡ None → fates.is_of_multicast rules (held_view self.now).delivery (history rules records) ≡ false →
            result ≡ sent.is_paired (held_view self.now).delivery (history rules records) }
    {
        self.fate.is_paired()
    }

    /// Of anycast, it went to a consumer, or began to, and of multicast it is complete; and nothing more is to be told of it.
    pub fn is_spent(&self) -> bool
        ensures { result ≡ is_spent (held_view self.now) }
    {
        (self.fate.is_paired() || self.fate.is_copied()) && self.is_closed
    }

    /// It may go to consumers: it is complete, and not gone.
    pub fn may_go(&self) -> bool
        ensures stored { result ≡ kept.may_go (held_view self.now) }
        ensures known { (rules : RuleSet) (history : Events) → IsEntry rules history (held_view self.now) →
            (if result then Some (held_view self.now).delivery else None) ≡ to_carry rules (notes.Pair (held_view self.now).delivery.number) history }
    {
        self.goes()
    }

    fn goes(&self) -> bool
        ensures { result ≡ kept.may_go (held_view self.now) }
    {
        self.is_complete() && !self.is_gone()
    }

    /// An outcome may be told of it: it is complete, of a live link, neither settled nor told.
    pub fn may_be_told(&self) -> bool
        ensures stored { result ≡ kept.may_tell (held_view self.now) }
        ensures known { (rules : RuleSet) (history : Events) → IsEntry rules history (held_view self.now) →
            result ≡ may_be_told (held_view self.now).delivery history }
    {
        self.may_tell()
    }

    fn may_tell(&self) -> bool
        ensures { result ≡ kept.may_tell (held_view self.now) }
    {
        !self.fate.is_arriving() && !self.is_closed
    }

    /// It was completed before the other.
    pub fn is_completed_before(&self, other: &HeldDelivery) -> bool
        ensures stored { result ≡ kept.comes_before (held_view self.now) (held_view other.now) }
        ensures known { (rules : RuleSet) (history : Events) → IsEntry rules history (held_view self.now) →
            IsEntry rules history (held_view other.now) →
            result ≡ law.completed_before (held_view self.now).delivery (held_view other.now).delivery history }
    {
        self.comes_before(other)
    }

    fn comes_before(&self, other: &HeldDelivery) -> bool
        ensures { result ≡ kept.comes_before (held_view self.now) (held_view other.now) }
    {
        match (self.completion, other.completion) {
            (Some(first), Some(second)) => first < second,
            _ => false,
        }
    }

    /// The event follows those of the delivery so far. What it completes is for this address, and `has_consumer` says whether
    /// the delivery's own has one behind it. It is kept on where the result is true, and else nothing is left of it.
    ///
    /// # Errors
    ///
    /// Memory was refused, for the payload of a part of it, or for the address in its message; then all stays as it was.
    pub fn take(
        &mut self,
        rules: &RuleSet,
        event: &Event,
        address: &[u8],
        has_consumer: bool,
    ) -> Result<bool, AllocError>
        ensures next { IfOk result (λ stays. (if stays then Some (held_view self.new) else None)
            ≡ kept.held_next rules.now (event_view event.now) address.now has_consumer (held_view self.old)) }
        ensures known { IfOk result (λ stays. HeldFollows rules.now (event_view event.now) address.now has_consumer (held_view self.old)
            (if stays then Some (held_view self.new) else None)) }
        ensures unchanged { OnErr result (held_view self.new ≡ held_view self.old) }
        ensures same { (held_view self.new).delivery ≡ (held_view self.old).delivery }
        ensures part { OnErr result (law.is_part (held_view self.old).delivery (event_view event.now) ≡ true) }
        // One that waits stays at its address.
        ensures stands { kept.says_waiting (held_view self.old).fate ≡ true → (held_view self.new).address ≡ (held_view self.old).address }
    {
        let stays = self.move_on(rules, event, address, has_consumer)?;
        Ok(stays)
    }

    /// With the event, and whether anything is left.
    fn move_on(
        &mut self,
        rules: &RuleSet,
        event: &Event,
        address: &[u8],
        has_consumer: bool,
    ) -> Result<bool, AllocError>
        ensures next { IfOk result (λ stays. (if stays then Some (held_view self.new) else None)
            ≡ kept.held_next rules.now (event_view event.now) address.now has_consumer (held_view self.old)) }
        ensures unchanged { OnErr result (held_view self.new ≡ held_view self.old) }
        ensures same { (held_view self.new).delivery ≡ (held_view self.old).delivery }
        ensures part { OnErr result (law.is_part (held_view self.old).delivery (event_view event.now) ≡ true) }
        ensures stands { kept.says_waiting (held_view self.old).fate ≡ true → (held_view self.new).address ≡ (held_view self.old).address }
    {
        let fate = self.fate_after(
            rules,
            event,
            self.address_behind(event, address),
            has_consumer,
        );
        let completion = self.completion_after(event);
        let is_closed = self.is_closed_after(event);
        let is_undecided = self.is_undecided_after(event, fate, is_closed);
        self.join(event, address)?;
        self.fate = fate;
        self.completion = completion;
        self.is_closed = is_closed;
        self.is_undecided = is_undecided;
        Ok(self.stays(event))
    }

    /// The address that the event tells is its own, and the octets that it adds stand behind those so far.
    fn join(&mut self, event: &Event, address: &[u8]) -> Result<(), AllocError>
        ensures joined { OnOk result (held_view self.new ≡ kept.joined (event_view event.now) address.now (held_view self.old)) }
        ensures unchanged { OnErr result (held_view self.new ≡ held_view self.old) }
        ensures part { OnErr result (law.is_part (held_view self.old).delivery (event_view event.now) ≡ true) }
    {
        if self.is_addressed_by(event) {
            let to = address.to_vec(*self.payload.allocator())?;
            self.join_part(event)?;
            self.to = to;
            Ok(())
        } else {
            self.join_part(event)
        }
    }

    /// The octets that the event adds stand behind those so far.
    fn join_part(&mut self, event: &Event) -> Result<(), AllocError>
        ensures others { self.new ≡ record self.old { payload = self.new.payload } }
        ensures joined { OnOk result (self.new.payload.items ≡ kept.payload_next (event_view event.now) (held_view self.old).delivery self.old.payload.items) }
        ensures unchanged { OnErr result (self.new.payload.items ≡ self.old.payload.items) }
        ensures part { OnErr result (law.is_part (held_view self.old).delivery (event_view event.now) ≡ true) }
    {
        if event.is_incoming_part(&self.delivery()) {
            self.payload.extend_from_slice(payload_of(event))?;
        }
        Ok(())
    }

    /// The address is its own behind the event.
    fn fate_after(&self, rules: &RuleSet, event: &Event, address: &[u8], has_consumer: bool) -> Fate
        ensures { result ≡ kept.fate_next rules.now (event_view event.now) address.now has_consumer (held_view self.now).delivery self.now.fate }
    {
        match self.fate {
            Fate::Arriving if event.completes(&self.delivery()) => fate_completed(
                rules,
                address,
                has_consumer,
            ),
            Fate::Waiting if event.pairs(&self.delivery()) => Fate::Paired,
            Fate::Waiting if !has_consumer => Fate::Gone,
            fate => fate,
        }
    }

    fn completion_after(&self, event: &Event) -> Option<u64>
        ensures { result ≡ kept.completion_next (event_view event.now) (held_view self.now).delivery self.now.completion }
    {
        if event.completes(&self.delivery()) {
            Some(event.number)
        } else {
            self.completion
        }
    }

    fn is_closed_after(&self, event: &Event) -> bool
        ensures { result ≡ kept.closed_next (event_view event.now) (held_view self.now).delivery self.now.is_closed }
    {
        let delivery = self.delivery();
        self.is_closed
            || (event.told == Some(self.number)
                || (event.settles_part(&delivery) || event.settles_id(&delivery))
                || event.ends_link(&delivery.link))
    }

    /// The fate, and whether nothing more is to be told, are those behind the event.
    fn is_undecided_after(&self, event: &Event, fate: Fate, is_closed: bool) -> bool
        ensures { result ≡ kept.undecided_next (event_view event.now) (held_view self.now).delivery fate is_closed self.now.is_undecided }
    {
        let delivery = self.delivery();
        let goes_on = !event.ends_link(&delivery.link) && !event.aborts(&delivery);
        let is_open = fate.is_arriving() || fate.is_waiting() || !is_closed;
        goes_on && self.is_undecided && is_open
    }

    /// It is kept behind the event, which it has taken.
    fn stays(&self, event: &Event) -> bool
        ensures { result ≡ kept.stays (event_view event.now) (held_view self.now) }
    {
        let delivery = self.delivery();
        match self.fate {
            Fate::Arriving => !event.aborts(&delivery) && !event.ends_link(&delivery.link),
            Fate::Gone => !self.is_closed,
            Fate::Waiting | Fate::Paired | Fate::Copied => true,
        }
    }
}

/// What becomes of one that is completed, for this address.
fn fate_completed(rules: &RuleSet, address: &[u8], has_consumer: bool) -> Fate
    ensures { result ≡ kept.fate_completed rules.now address.now has_consumer }
{
    if has_multicast(rules, address) {
        Fate::Copied
    } else if has_consumer {
        Fate::Waiting
    } else {
        Fate::Gone
    }
}

/// The address behind the event of the delivery that it begins, where what it completes is for this one.
pub(crate) fn first_address<'a>(
    event: &Event,
    delivery: &Incoming<'a>,
    address: &'a [u8],
) -> &'a [u8]
    ensures { result.now ≡ kept.address_behind (event_view event.now) address.now (kept.unbegun (incoming_view delivery.now)) }
{
    if !delivery.link.is_anonymous() {
        delivery.link.address
    } else if event.completes(delivery) {
        address
    } else {
        &[]
    }
}

/// What stands behind the transfer that the event is.
pub fn payload_of<'a>(event: &Event<'_, '_, 'a>) -> &'a [u8]
    ensures { result.now ≡ law.part_payload (in_spoken (event_view event.now)) }
{
    match event.in_spoken() {
        Some(spoken) => spoken.payload,
        None => &[],
    }
}
