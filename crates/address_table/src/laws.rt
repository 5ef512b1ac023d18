//! What the definitions of refusals and picks come to.

ghost use Rattle.std.specs.Prelude.{◌≡◌, ℕ, List, ◌∷◌, None, length, nat_lt, slice_index_or};
ghost use Rattle.std.specs.List.{IsFirstBest, best_of};
ghost use Rattle.capture_form.specs.Rules.{RuleSet, AreRules};
ghost use Rattle.address_table.specs.Refusals.{rules_fault};

/// The laws of rules and picks. The function does nothing: its contract is the laws.
pub fn laws_of_tables()
    // No rules that a capture may have are refused; those that are not refused, a capture may have, as `Rules::new` says.
    ensures accepted { (rules : RuleSet) → AreRules rules → rules_fault rules.list ≡ None }
    // The best of some links has the least rank, and each link in front of it has a greater one.
    ensures first_best { (rank : ℕ → ℕ) (link : ℕ) (links : List ℕ)
        → (at : ℕ) × IsFirstBest (λ one other. nat_lt (rank one) (rank other)) (link ∷ links) (length (link ∷ links)) at
        × (slice_index_or (link ∷ links) at link ≡ best_of (λ one other. nat_lt (rank one) (rank other)) link links) }
{}
