//! What happens on a link, and what its credit comes to by it.

use crate::given::GivenCredit;
use crate::sender::SenderCredit;

/// What happens on a consumer's link.
#[derive(Clone, Copy, Debug, PartialEq, Eq)]
pub enum ConsumerEvent {
    /// A flow comes from the client.
    TheirFlow {
        delivery_count: Option<u32>,
        link_credit: Option<u32>,
        drain: bool,
    },
    /// A delivery begins.
    Begun,
    /// A flow is written that tells the client the delivery-count, the credit left and whether it asks to drain.
    Told,
    /// The drain answer is written.
    DrainAnswer,
}

/// What happens on a producer's link.
#[derive(Clone, Copy, Debug, PartialEq, Eq)]
pub enum ProducerEvent {
    /// A flow comes from the client.
    TheirFlow {
        delivery_count: Option<u32>,
        link_credit: Option<u32>,
        drain: bool,
    },
    /// A delivery begins.
    Begun,
    /// A flow is written that tells the client the delivery-count and the credit left.
    Told,
    /// A flow is written that gives credit again, while so many deliveries of the link are undecided.
    ToppedUp(u32),
}

impl SenderCredit {
    ghost use Rattle.std.specs.Prelude.{ℕ, List, IsTrue, IsSome, IfSome, ◌≡◌, ◌↔◌};
    ghost use Rattle.flow_counts.specs.Credit.{LinkEvent};
    ghost use Rattle.link_credit.specs.SenderCounts.{counted};
    ghost use Rattle.link_credit.specs.ConsumerHistory.{is_allowed, CountsEvent};

    /// The credit with one event more, where it may happen.
    fn after(mut self, event: ConsumerEvent) -> Option<SenderCredit>
        ensures allowed { (first : ℕ) (past : List LinkEvent) → self ≡ counted first past → IsTrue (is_allowed first past event) ↔ IsSome result }
        ensures counted { IfSome result (λ credit. CountsEvent self credit event) }
    {
        match event {
            ConsumerEvent::TheirFlow {
                delivery_count,
                link_credit,
                drain,
            } => self.on_flow(delivery_count, link_credit, drain),
            ConsumerEvent::Begun if self.left() > 0 => self.begun(),
            ConsumerEvent::DrainAnswer if self.draining() && self.left() > 0 => {
                self.drain_answer();
            }
            ConsumerEvent::Told => {}
            _ => return None,
        }
        Some(self)
    }
}

impl GivenCredit {
    ghost use Rattle.std.specs.Prelude.{ℕ, List, IsTrue, IsSome, IfSome, ◌≡◌, ◌↔◌};
    ghost use Rattle.flow_counts.specs.Credit.{LinkEvent};
    ghost use Rattle.link_credit.specs.GivenCounts.{counted};
    ghost use Rattle.link_credit.specs.ProducerHistory.{is_allowed, CountsEvent};

    /// The credit with one event more, where it may happen.
    fn after(mut self, event: ProducerEvent) -> Option<GivenCredit>
        ensures allowed { (first : ℕ) (past : List LinkEvent) → self ≡ counted first past → IsTrue (is_allowed first past event) ↔ IsSome result }
        ensures counted { IfSome result (λ credit. CountsEvent self credit event) }
    {
        match event {
            ProducerEvent::TheirFlow { .. } | ProducerEvent::Told => {}
            ProducerEvent::Begun => self.begun().ok()?,
            ProducerEvent::ToppedUp(undecided) => {
                self.top_up(undecided)?;
            }
        }
        Some(self)
    }
}

ghost use Rattle.std.specs.Prelude.{◌≡◌, ◌↔◌, IsTrue, IsSome, IfSome, OnSome, reverse};
ghost use Rattle.link_credit.specs.SenderCounts as sender;
ghost use Rattle.link_credit.specs.GivenCounts as given;
ghost use Rattle.link_credit.specs.ConsumerHistory as consumer;
ghost use Rattle.link_credit.specs.ProducerHistory as producer;

/// What the credit of a consumer's link comes to that was attached with this delivery-count and on which this happened,
/// the oldest first. `None` where a delivery began without credit, or a drain was answered that no flow asked for, or
/// with no credit left.
#[tactic(auto, using(crate::proofs::Consumed::consumed))]
pub fn sender_credit_after(first_count: u32, events: &[ConsumerEvent]) -> Option<SenderCredit>
    ensures kept { IsSome result ↔ IsTrue (consumer.stays_within first_count (reverse events.now)) }
    ensures counted { IfSome result (λ credit. credit ≡ sender.counted first_count (consumer.link_events first_count (reverse events.now))) }
    // What began since credit was last given is no more than was given.
    ensures within { OnSome result (consumer.IsWithinCredit first_count (consumer.link_events first_count (reverse events.now))) }
{
    let mut credit = SenderCredit::new(first_count);
    for event in events {
        credit = credit.after(*event)?;
    }
    Some(credit)
}

/// What the credit of a producer's link comes to that was attached with this delivery-count and on which this happened,
/// the oldest first. `None` where a delivery began without credit, or credit was given again while enough was left.
#[tactic(auto, using(crate::proofs::Produced::produced))]
pub fn given_credit_after(first_count: u32, events: &[ProducerEvent]) -> Option<GivenCredit>
    ensures kept { IsSome result ↔ IsTrue (producer.stays_within first_count (reverse events.now)) }
    ensures counted { IfSome result (λ credit. credit ≡ given.counted first_count (producer.link_events first_count (reverse events.now))) }
    // What began since credit was last given is no more than was given.
    ensures within { OnSome result (producer.IsWithinCredit (producer.link_events first_count (reverse events.now))) }
{
    let mut credit = GivenCredit::new(first_count);
    for event in events {
        credit = credit.after(*event)?;
    }
    Some(credit)
}
