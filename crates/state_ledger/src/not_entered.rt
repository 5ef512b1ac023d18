//! Why a record is not taken.

use std::alloc::AllocError;
use trace_events::Clause;

/// Why a record is not taken.
#[derive(Clone, Copy, Debug, PartialEq, Eq)]
pub enum NotEntered {
    /// It does not meet the clauses, and this is the first that it does not meet.
    Broken(Clause),
    /// The system had no memory left.
    Memory,
}

impl From<AllocError> for NotEntered {
    ghost use Rattle.std.specs.Prelude.{◌≡◌};
    ghost use Rattle.state_ledger.specs.declared.not_entered.NotEntered.TheVariants.{Memory};

    ghost from_gives = { λ _ why. why ≡ Memory };

    fn from(_refused: AllocError) -> NotEntered {
        NotEntered::Memory
    }
}
