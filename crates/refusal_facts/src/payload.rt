//! What L8 compares: the octets of a delivery to a client with those of the delivery that it carries.

ghost use Rattle.capture_form.specs.Rules.{};
ghost use Rattle.std.specs.Prelude.{List, ◌≡◌, ◌&&◌, is_some, ◌≢◌, ◌<◌, ◌+◌, ◌^◌, ℕ, Some, IfSome, IfNone, drop, length, slice_get};
ghost use Rattle.trace_events.specs.View.{Events, event_view};
ghost use Rattle.trace_events.specs.Event as law_events;
ghost use Rattle.trace_events.specs.Said as said;
ghost use Rattle.trace_events.specs.TransferClause.{to_carry};
ghost use Rattle.refusal_facts.specs.PayloadFacts.{AreAlikeBelow, ArePayload, IsDifferenceFrom};

use crate::payloads::Payloads;
use capture_form::RuleSet;
use trace_events::{Event, Incoming, Outgoing};
use trace_judge::Questions;

/// How octets differ from those that were due.
#[derive(Clone, Copy, Debug, PartialEq, Eq)]
pub enum Difference {
    /// At this offset in the payload another octet was due than stands there.
    Octet { offset: u64, due: u8, said: u8 },
    /// The payload has so many octets, and these are so many more.
    TooMany(u64),
    /// No more follows, and so many octets of the payload are missing.
    Missing(u64),
    /// They do not differ.
    Nothing,
}

/// L8: the octets of a transfer, and the delivery that it carries.
#[derive(Clone, Copy)]
pub struct PayloadFacts<'a> {
    /// The delivery from a client that the note names.
    pub delivery: Incoming<'a>,
    /// The delivery to a client that the transfer begins or goes on with.
    pub outgoing: Outgoing<'a>,
    /// The octets of the payload.
    pub whole: usize,
    /// How many octets were sent before, counted in 64 bits.
    pub sent: u64,
    /// How many octets the transfer has.
    pub said: usize,
    /// More follows.
    pub has_more: bool,
    pub difference: Difference,
}

/// The first octet in which they differ, as far as both go: its place, what is due there, and what is said.
fn first_unlike(due: &[u8], said: &[u8]) -> Option<(usize, u8, u8)>
    ensures found { IfSome result (λ x. (slice_get due.now x.0 ≡ Some x.1) × (slice_get said.now x.0 ≡ Some x.2) × (x.1 ≢ x.2)) }
    ensures before { IfSome result (λ x. AreAlikeBelow x.0 due.now said.now) }
    ensures alike { IfNone result ((k : ℕ) → k < length due.now → k < length said.now → slice_get due.now k ≡ slice_get said.now k) }
{
    for (place, octet) in said.iter().enumerate() {
        match due.get(place) {
            Some(own) if *own == *octet => {}
            Some(own) => return Some((place, *own, *octet)),
            None => return None,
        }
    }
    None
}

/// How these octets differ from those due, of which so many stand before them in the payload.
fn difference_from(sent: u64, due: &[u8], said: &[u8], has_more: bool) -> Difference
    requires { sent + length due.now < 2 ^ 64 }
    ensures { IsDifferenceFrom sent due.now said.now has_more result }
{
    if let Some((place, due, said)) = first_unlike(due, said) {
        return Difference::Octet {
            offset: sent + place as u64,
            due,
            said,
        };
    }
    if said.len() > due.len() {
        Difference::TooMany((said.len() - due.len()) as u64)
    } else if said.len() < due.len() && !has_more {
        Difference::Missing((due.len() - said.len()) as u64)
    } else {
        Difference::Nothing
    }
}

/// What of the octets is behind so many of them: none, if there are no more.
fn behind(whole: &[u8], count: u64) -> &[u8]
    ensures rest { result.now ≡ drop count whole.now }
    ensures fits { count + length result.now < 2 ^ 64 }
{
    if count <= whole.len() as u64 {
        &whole[count as usize..]
    } else {
        &[]
    }
}

/// L8.
pub(crate) fn payload_facts<'a, P: Questions<'a>, C: Payloads<'a>>(
    past: &P,
    contents: &C,
    rules: &RuleSet,
    event: &Event<'a, '_, 'a>,
) -> Option<PayloadFacts<'a>>
    ensures facts { (history : Events) → P.stands_for past.now rules.now history → P.is_whole past.now → C.tells_of contents.now rules.now history → ((d : law_events.Incoming) → P.knows_incoming past.now d history → C.knows contents.now d) →
        IfSome (event_view event.now).outgoing (λ j. C.knows_sent contents.now j history) → IfSome result (ArePayload rules.now (event_view event.now) history) }
    ensures there { (history : Events) → P.stands_for past.now rules.now history → P.is_whole past.now → is_some result ≡ (is_some (said.out_transfer (event_view event.now)) && (is_some (to_carry rules.now (event_view event.now).note history) && is_some (event_view event.now).outgoing)) }
{
    let spoken = event.out_spoken()?;
    let transfer = event.out_transfer()?;
    let delivery = past.to_carry(rules, event.note)?;
    let outgoing = event.outgoing?;
    let whole = contents.payload(&delivery);
    let sent = contents.sent_count(&outgoing);
    let has_more = transfer.has_more();
    Some(PayloadFacts {
        delivery,
        outgoing,
        whole: whole.len(),
        sent,
        said: spoken.payload.len(),
        has_more,
        difference: difference_from(sent, behind(whole, sent), spoken.payload, has_more),
    })
}
