//! What the table of deliveries to clients answers.

ghost use Rattle.std.specs.Prelude.{◌≡◌, List, [], IfSome, Some, None, is_some, option_and_then, option_map, false};
ghost use Rattle.capture_form.specs.Rules.{RuleSet};
ghost use Rattle.capture_form.specs.declared.records.Record.{Record};
ghost use Rattle.trace_events.specs.TransferClause as transfers;
ghost use Rattle.trace_events.specs.Disposition.{terminal_state};
ghost use Rattle.trace_events.specs.History.{history};
ghost use Rattle.trace_events.specs.Incoming.{incoming_at};
ghost use Rattle.trace_events.specs.Outgoing as law;
ghost use Rattle.trace_events.specs.Settling as settling;
ghost use Rattle.state_tables.specs.LetGo.{is_let_go};
ghost use Rattle.state_outgoing.specs.LastBegun.{is_last_let_go};
ghost use Rattle.state_outgoing.specs.SentAnswers as entries;
ghost use Rattle.state_outgoing.specs.SentAnswers.{AreClosings, Knows, KnowsOrBegins};
ghost use Rattle.state_outgoing.specs.SentTables.{AreSent, IsTable, sent_in};
ghost use Rattle.state_outgoing.specs.UnsettledCount as counts;
ghost use Rattle.trace_events.specs.View.{decision_view, incoming_view, link_view, outgoing_view};

use crate::closings::{Closings, Settleable};
use crate::deliveries::SentDeliveries;
use crate::earliest::least;
use number_groups::IdOn;
use pairing_cert::Note;
use trace_events::{Decision, Incoming, Link, Outgoing, Session};

impl SentDeliveries {
    /// The delivery of a consumer's link whose last part isn't written yet. `None` where there is none.
    pub fn outgoing_in_progress(&self, link: &Link) -> Option<Outgoing<'_>>
        ensures { (rules : RuleSet) (records : List Record) → IsTable self.now (history rules records) →
            option_map outgoing_view result ≡ law.in_progress (link_view link.now) (history rules records) }
    {
        self.unsent(self.last_begun_on(link.number))
    }

    /// The number of the delivery from a client that the last one begun on the link carries. It is asked where that was not let
    /// go. `None` where none began there, or it carries none.
    pub fn carried_before(&self, link: &Link) -> Option<u64>
        ensures { (rules : RuleSet) (records : List Record) → IsTable self.now (history rules records) →
            is_last_let_go self.now.let_go.items (link_view link.now).number (history rules records) ≡ false →
            option_and_then (λ n. incoming_at n (history rules records)) result ≡ transfers.carried_before (link_view link.now) (history rules records) }
    {
        self.carried_by(self.last_begun_on(link.number))
    }

    /// The number of the delivery from a client that the one of this number carries, if the table has that. `None` also where it
    /// carries none, and without a number.
    pub fn carried_by(&self, number: Option<u64>) -> Option<u64>
        ensures { result ≡ entries.carried (option_and_then (sent_in self.now) number) }
    {
        match self.get(number?)?.note() {
            Note::Pair(carried) => Some(carried),
            Note::None | Note::Told(_) => None,
        }
    }

    /// The last delivery that carries the one from a client. `None` where none does, or the one from a client was let go.
    pub fn pairing(&self, delivery: &Incoming) -> Option<Outgoing<'_>>
        ensures value { (rules : RuleSet) (records : List Record) → IsTable self.now (history rules records) →
            is_let_go self.now.let_go.items (incoming_view delivery.now).number ≡ false →
            option_map outgoing_view result ≡ law.pairing (incoming_view delivery.now) (history rules records) }
        ensures known { (rules : RuleSet) (records : List Record) → IsTable self.now (history rules records) →
            IfSome (option_map outgoing_view result) (Knows self.now) }
    {
        self.given(self.carrier_of(delivery.number))
    }

    /// The one from a client went to a consumer, or began to.
    pub fn is_paired(&self, delivery: &Incoming) -> bool
        ensures { (rules : RuleSet) (records : List Record) → IsTable self.now (history rules records) →
            is_let_go self.now.let_go.items (incoming_view delivery.now).number ≡ false →
            result ≡ law.is_paired (incoming_view delivery.now) (history rules records) }
    {
        self.carrier_of(delivery.number).is_some()
    }

    /// Its last part is written.
    pub fn is_sent(&self, delivery: &Outgoing) -> bool
        ensures { (rules : RuleSet) (records : List Record) → AreSent self.now (history rules records) →
            KnowsOrBegins self.now (history rules records) (outgoing_view delivery.now) →
            result ≡ law.is_sent (outgoing_view delivery.now) (history rules records) }
    {
        self.says_sent(delivery.number)
    }

    /// The consumer's decision, by the terminal state that it tells; on a pre-settled link there is none, and until it decides.
    pub fn decision(&self, delivery: &Outgoing) -> Option<Decision<'_>>
        ensures { (rules : RuleSet) (records : List Record) → AreSent self.now (history rules records) →
            KnowsOrBegins self.now (history rules records) (outgoing_view delivery.now) →
            option_map decision_view result ≡ option_map terminal_state (law.decision (outgoing_view delivery.now) (history rules records)) }
    {
        self.decided(delivery.number)
    }

    /// How many deliveries on the link to a client are still unsettled.
    pub fn unsettled_count(&self, link: &Link) -> usize
        ensures { (rules : RuleSet) (records : List Record) → IsTable self.now (history rules records) →
            result ≡ counts.unsettled_count (link_view link.now) (history rules records) }
    {
        self.of_link().count(&link.number)
    }

    /// The earliest delivery of the id on the session that the router is to settle, given of which deliveries from clients
    /// nothing more is to be told; `None` where there is none. It takes the time of the unsettled ones of the id.
    pub fn to_settle<C: Closings>(
        &self,
        session: Session,
        id: u32,
        closings: &C,
    ) -> Option<Outgoing<'_>>
        ensures { (rules : RuleSet) (records : List Record) → IsTable self.now (history rules records) →
            AreClosings (C.does_close closings.now) (history rules records) →
            option_map outgoing_view result ≡ settling.to_settle session id (history rules records) }
    {
        let at = IdOn {
            session: session.number,
            id,
        };
        let test = Settleable {
            deliveries: self,
            closings,
        };
        self.given(least(self.of_id(), &at, &test))
    }

    // What the entry of a number says, if there is one.

    fn given(&self, number: Option<u64>) -> Option<Outgoing<'_>>
        ensures { option_map outgoing_view result ≡ option_and_then (entries.delivery_in self.now) number }
    {
        match self.get(number?) {
            Some(own) => Some(own.delivery()),
            None => None,
        }
    }

    fn unsent(&self, number: Option<u64>) -> Option<Outgoing<'_>>
        ensures { option_map outgoing_view result ≡ entries.unsent (option_and_then (sent_in self.now) number) }
    {
        match self.get(number?) {
            Some(own) if !own.is_sent() => Some(own.delivery()),
            _ => None,
        }
    }

    fn says_sent(&self, number: u64) -> bool
        ensures { result ≡ entries.says_sent (sent_in self.now number) }
    {
        match self.get(number) {
            Some(own) => own.is_sent(),
            None => false,
        }
    }

    fn decided(&self, number: u64) -> Option<Decision<'_>>
        ensures { option_map decision_view result ≡ entries.decided (sent_in self.now number) }
    {
        match self.get(number) {
            Some(own) => own.decision(),
            None => None,
        }
    }
}
