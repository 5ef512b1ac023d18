//! Flows that change no credit.

ghost use Rattle.std.specs.Prelude.{◌≡◌, ℕ, Bool, List, ◌∷◌, Option, Some, None, false};
ghost use Rattle.flow_counts.specs.Credit.{LinkEvent, TheirFlow, OurFlow, delivery_count, credit, is_draining};
ghost use Rattle.flow_counts.specs.GivenCredit.{given_credit, received_delivery_count};
ghost use Rattle.link_credit.specs.SenderCounts as sender;
ghost use Rattle.link_credit.specs.GivenCounts as given;

/// The laws of flows that change no credit. The function does nothing: its contract is the laws.
pub fn laws_of_flows()
    // A flow that tells a consumer's client how the link stands.
    ensures told_consumer { (first : ℕ) (past : List LinkEvent)
        → sender.counted first (OurFlow (Some (delivery_count first past)) (Some (credit first past)) (is_draining past) ∷ past) ≡ sender.counted first past }
    // A flow that tells a producer's client how the link stands.
    ensures told_producer { (first : ℕ) (past : List LinkEvent)
        → given.counted first (OurFlow (Some (received_delivery_count first past)) (Some (given_credit past)) false ∷ past) ≡ given.counted first past }
    // A flow from a consumer's client without a link-credit.
    ensures no_link_credit { (first : ℕ) (past : List LinkEvent) (known : Option ℕ) (drain : Bool)
        → sender.counted first (TheirFlow known None drain ∷ past) ≡ sender.counted first past }
    // Any flow from a producer's client.
    ensures from_producer { (first : ℕ) (past : List LinkEvent) (known link_credit : Option ℕ) (drain : Bool)
        → given.counted first (TheirFlow known link_credit drain ∷ past) ≡ given.counted first past }
{}
