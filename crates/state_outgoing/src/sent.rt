//! A delivery to a client from its first part on: how far it is sent, how its consumer decided, and whether it is still
//! unsettled (part 2 of the standard, sections 2.6.12 and 2.6.14).

ghost use Rattle.std.specs.Prelude.{◌≡◌, ◌++◌, ℕ, List, Some, None, OnOk, OnErr, IfOk, is_some, option_map, true};
ghost use Rattle.amqp_perf.specs.Meaning.{flag};
ghost use Rattle.amqp_perf.specs.declared.descriptor.Outcome.{Outcome};
ghost use Rattle.capture_form.specs.Rules.{RuleSet};
ghost use Rattle.capture_form.specs.declared.records.Record.{Record};
ghost use Rattle.trace_events.specs.Said.{out_spoken};
ghost use Rattle.trace_events.specs.Words.{is_some_and};
ghost use Rattle.trace_events.specs.Event.{Incoming};
ghost use Rattle.trace_events.specs.Disposition.{terminal_state};
ghost use Rattle.trace_events.specs.Incoming as received;
ghost use Rattle.trace_events.specs.Outgoing as law;
ghost use Rattle.trace_events.specs.Settling as settling;
ghost use Rattle.trace_events.specs.Work as work;
ghost use Rattle.trace_events.specs.History.{history};
ghost use Rattle.trace_events.specs.Clauses.{first_broken};
ghost use Rattle.trace_events.specs.TransferClause.{is_payload_so_far};
ghost use Rattle.state_outgoing.specs.Given.{gives, says};
ghost use Rattle.state_outgoing.specs.LetGo.{is_done, is_finished};
ghost use Rattle.state_outgoing.specs.Sent as kept;
ghost use Rattle.state_outgoing.specs.Sent.{IsEntry, SentFollows, SentBegins};
ghost use Rattle.state_outgoing.specs.SentViews.{sent_view, decided_view};
ghost use Rattle.trace_events.specs.View.{Events, decision_view, event_view, outgoing_view};

use crate::decided::Decided;
use crate::payload::goes_on_with;
use amqp_perf::Outcome;
use pairing_cert::Note;
use state_tables::HeldLink;
use state_verdicts::CopyVerdict;
use std::alloc::{AllocError, Global};
use trace_events::{Decision, Event, Outgoing, is_decisive};

/// A delivery to a client.
#[doc(hidden)]
#[derive(Drop)]
pub struct SentDelivery {
    alloc: Global,
    number: u64,
    link: HeldLink,
    note: Note,
    /// How many octets of its payload were sent, counted in 64 bits.
    sent_count: u64,
    decision: Option<Decided>,
    id: Option<u32>,
    is_settled: bool,
    is_sent: bool,
    /// It isn't of a pre-settled link, its link lives, and neither side has settled it.
    is_unsettled: bool,
}

impl SentDelivery {
    /// Before its first part.
    fn unsent(alloc: Global, delivery: &Outgoing) -> Result<SentDelivery, AllocError>
        ensures { IfOk result (λ own. sent_view own ≡ kept.unsent (outgoing_view delivery.now)) }
    {
        Ok(SentDelivery {
            alloc,
            number: delivery.number,
            link: HeldLink::new(alloc, &delivery.link)?,
            id: delivery.id,
            is_settled: delivery.is_settled,
            note: delivery.note,
            sent_count: 0,
            is_sent: false,
            decision: None,
            is_unsettled: !delivery.link.is_pre_settled,
        })
    }

    /// The delivery that the event begins. `None` where it begins none.
    ///
    /// # Errors
    ///
    /// Memory was refused, for a delivery that the event begins.
    pub fn begin(alloc: Global, event: &Event) -> Result<Option<SentDelivery>, AllocError>
        ensures begun { IfOk result (λ own. option_map sent_view own ≡ kept.sent_begun (event_view event.now)) }
        ensures known { IfOk result (λ own. SentBegins (event_view event.now) (option_map sent_view own)) }
        ensures first { OnErr result (is_some (law.outgoing_begun (event_view event.now)) ≡ true) }
    {
        let own = SentDelivery::first(alloc, event)?;
        Ok(own)
    }

    /// The same, by what the event makes of it.
    fn first(alloc: Global, event: &Event) -> Result<Option<SentDelivery>, AllocError>
        ensures begun { IfOk result (λ own. option_map sent_view own ≡ kept.sent_begun (event_view event.now)) }
        ensures first { OnErr result (is_some (law.outgoing_begun (event_view event.now)) ≡ true) }
    {
        let Some(delivery) = event.outgoing_begun() else {
            return Ok(None);
        };
        let mut own = SentDelivery::unsent(alloc, &delivery)?;
        own.move_on(event)?;
        Ok(Some(own))
    }

    /// The delivery itself.
    pub fn delivery(&self) -> Outgoing<'_>
        ensures { outgoing_view result ≡ (sent_view self.now).delivery }
    {
        Outgoing {
            number: self.number,
            link: self.link.link(),
            id: self.id,
            is_settled: self.is_settled,
            note: self.note,
        }
    }

    /// Its note, which names the delivery that it carries.
    pub(crate) fn note(&self) -> Note
        ensures { result ≡ (sent_view self.now).delivery.note }
    {
        self.note
    }

    /// Its last part is written.
    pub fn is_sent(&self) -> bool
        ensures stored { result ≡ self.now.is_sent }
        ensures known { (history : Events) → IsEntry history (sent_view self.now) →
            result ≡ law.is_sent (sent_view self.now).delivery history }
    {
        self.is_sent
    }

    /// The consumer's decision, by the terminal state that it tells; on a pre-settled link there is none, and until it decides.
    pub fn decision(&self) -> Option<Decision<'_>>
        ensures stored { option_map decision_view result ≡ (sent_view self.now).decision }
        ensures known { (history : Events) → IsEntry history (sent_view self.now) →
            option_map decision_view result ≡ option_map terminal_state (law.decision (sent_view self.now).delivery history) }
    {
        self.decided()
    }

    fn decided(&self) -> Option<Decision<'_>>
        ensures { option_map decision_view result ≡ (sent_view self.now).decision }
    {
        match &self.decision {
            Some(own) => Some(own.decision()),
            None => None,
        }
    }

    /// What came of it, if that stands: what its consumer decided; accepted on a pre-settled link, once its last part is
    /// written.
    fn verdict(&self) -> Option<Outcome>
        ensures { result ≡ kept.verdict_of (sent_view self.now) }
    {
        match &self.decision {
            Some(own) => Some(own.outcome()),
            None if self.is_sent && self.link.link().is_pre_settled => Some(Outcome::Accepted),
            None => None,
        }
    }

    /// The same, as the verdict of the copy that it is, where its note says which delivery it carries.
    pub(crate) fn copy_verdict(&self) -> Option<CopyVerdict>
        ensures { (link n : ℕ) (outcome : Outcome) → is_some_and result (says link n outcome) ≡ gives link n outcome (Some (sent_view self.now)) }
    {
        let Note::Pair(delivery) = self.note else {
            return None;
        };
        let outcome = self.verdict()?;
        Some(CopyVerdict {
            link: self.link.link().number,
            delivery,
            outcome,
        })
    }

    /// It is still unsettled: sent unsettled, on a link that lives, and settled by neither side.
    pub fn is_unsettled(&self) -> bool
        ensures stored { result ≡ self.now.is_unsettled }
        ensures known { (history : Events) → IsEntry history (sent_view self.now) →
            result ≡ kept.is_left_unsettled history (sent_view self.now).delivery }
    {
        self.is_unsettled
    }

    /// It is finished: its last part is written, and it is not unsettled any more.
    pub fn is_done(&self) -> bool
        ensures stored { result ≡ is_done (sent_view self.now) }
        ensures known { (history : Events) → IsEntry history (sent_view self.now) →
            result ≡ is_finished history (sent_view self.now).delivery }
    {
        self.says_done()
    }

    fn says_done(&self) -> bool
        ensures { result ≡ is_done (sent_view self.now) }
    {
        self.is_sent && !self.is_unsettled
    }

    /// The router is to settle it with its consumer, given whether it carries a delivery of which nothing more is to be told.
    pub fn is_to_settle(&self, is_closed: bool) -> bool
        ensures stored { result ≡ kept.to_settle (sent_view self.now) is_closed }
        ensures known { (history : Events) → IsEntry history (sent_view self.now) →
            is_closed ≡ work.carries_closed history (sent_view self.now).delivery →
            result ≡ settling.is_to_settle history (sent_view self.now).delivery }
    {
        self.may_settle(is_closed)
    }

    fn may_settle(&self, is_closed: bool) -> bool
        ensures { result ≡ kept.to_settle (sent_view self.now) is_closed }
    {
        self.is_unsettled && self.decision.is_some() && is_closed
    }

    /// These octets are the next ones of this payload behind as many as were sent, and where no more follows its last ones.
    /// What was sent is not compared again: in a lawful capture it is the front of what the delivery carries.
    pub fn is_payload_so_far(&self, more: bool, payload: &[u8], octets: &[u8]) -> bool
        ensures stored { result ≡ kept.goes_on_with more payload.now self.now.sent_count octets.now }
        ensures known { (rules : RuleSet) (records : List Record) (d : Incoming) → IsEntry (history rules records) (sent_view self.now) →
            first_broken rules (history rules records) ≡ None → law.noted self.now.note (history rules records) ≡ Some d →
            payload.now ≡ received.payload d (history rules records) →
            result ≡ is_payload_so_far more (received.payload d (history rules records))
            (law.payload (sent_view self.now).delivery (history rules records) ++ octets.now) }
    {
        goes_on_with(more, payload, self.sent_count, octets)
    }

    /// How many octets of its payload were sent, counted in 64 bits.
    pub(crate) fn sent_count(&self) -> u64
        ensures { result ≡ self.now.sent_count }
    {
        self.sent_count
    }

    /// The event follows those of the delivery so far.
    ///
    /// # Errors
    ///
    /// Memory was refused, for the octets of a terminal state that decides it; then all stays as it was.
    pub fn take(&mut self, event: &Event) -> Result<(), AllocError>
        ensures next { OnOk result (sent_view self.new ≡ kept.sent_next (event_view event.now) (sent_view self.old)) }
        ensures known { OnOk result (SentFollows (event_view event.now) (sent_view self.old) (sent_view self.new)) }
        ensures unchanged { OnErr result (sent_view self.new ≡ sent_view self.old) }
        ensures state { OnErr result (kept.takes_state (event_view event.now) (sent_view self.old) ≡ true) }
    {
        self.move_on(event)?;
        Ok(())
    }

    /// With the event.
    fn move_on(&mut self, event: &Event) -> Result<(), AllocError>
        ensures next { OnOk result (sent_view self.new ≡ kept.sent_next (event_view event.now) (sent_view self.old)) }
        ensures unchanged { OnErr result (sent_view self.new ≡ sent_view self.old) }
        ensures state { OnErr result (kept.takes_state (event_view event.now) (sent_view self.old) ≡ true) }
    {
        let sent_count = self.count_after(event);
        let is_sent = event.ends(&self.delivery()) || self.is_sent;
        let is_unsettled = self.is_unsettled && self.stays_unsettled(event);
        self.decide(event)?;
        self.sent_count = sent_count;
        self.is_sent = is_sent;
        self.is_unsettled = is_unsettled;
        Ok(())
    }

    /// The first decision holds, and there is none once it is settled.
    fn decide(&mut self, event: &Event) -> Result<(), AllocError>
        ensures decided { OnOk result (sent_view self.new ≡ kept.decided (event_view event.now) (sent_view self.old)) }
        ensures unchanged { OnErr result (sent_view self.new ≡ sent_view self.old) }
        ensures state { OnErr result (kept.takes_state (event_view event.now) (sent_view self.old) ≡ true) }
    {
        if self.is_unsettled && self.decision.is_none() {
            self.decision = self.decided_with(event)?;
        }
        Ok(())
    }

    /// What its consumer decides with the event.
    fn decided_with(&self, event: &Event) -> Result<Option<Decided>, AllocError>
        ensures decided { IfOk result (λ own. option_map decided_view own ≡ kept.decided_with (event_view event.now) (sent_view self.now).delivery) }
        ensures state { OnErr result (is_some_and (kept.decided_with (event_view event.now) (sent_view self.now).delivery) is_some ≡ true) }
    {
        match event.answering(&self.delivery()) {
            Some(fields) if is_decisive(&fields) => {
                let decision = Decision::of_disposition(&fields);
                Ok(Some(Decided::new(self.alloc, &decision)?))
            }
            _ => Ok(None),
        }
    }

    fn count_after(&self, event: &Event) -> u64
        ensures { result ≡ kept.count_next (event_view event.now) (sent_view self.now).delivery self.now.sent_count }
    {
        if event.is_outgoing_part(&self.delivery()) {
            self.sent_count.wrapping_add(payload_of(event).len() as u64)
        } else {
            self.sent_count
        }
    }

    /// The event doesn't end its link, and neither side settles it with the event.
    fn stays_unsettled(&self, event: &Event) -> bool
        ensures { result ≡ work.keeps_unsettled (event_view event.now) (sent_view self.now).delivery }
    {
        !event.ends_link(&self.link.link())
            && !self.is_settled_with(event)
            && event.settled != Some(self.number)
    }

    /// Its consumer settles it with the event.
    fn is_settled_with(&self, event: &Event) -> bool
        ensures { result ≡ is_some_and (law.answering (sent_view self.now).delivery (event_view event.now)) (λ fields. flag fields.settled) }
    {
        match event.answering(&self.delivery()) {
            Some(fields) => fields.is_settled(),
            None => false,
        }
    }
}

/// What stands behind the transfer that the event is.
fn payload_of<'a>(event: &Event<'_, '_, 'a>) -> &'a [u8]
    ensures { result.now ≡ received.part_payload (out_spoken (event_view event.now)) }
{
    match event.out_spoken() {
        Some(spoken) => spoken.payload,
        None => &[],
    }
}
