//! The numbers of a set as a list, which can be gone over more than once.

ghost use Rattle.std.specs.Prelude.{◌≡◌, ℕ, IfOk, nat_eq};
ghost use Rattle.std.specs.List.{IsDistinct};
ghost use Rattle.number_groups.specs.Numbers.{is_among};

use number_groups::NumberSet;
use std::alloc::{AllocError, Global};

/// The numbers of the set, each once.
///
/// # Errors
///
/// Memory was refused.
pub(crate) fn listed(alloc: Global, mut numbers: NumberSet) -> Result<Vec<u64>, AllocError>
    ensures same { IfOk result (λ list. (n : ℕ) → is_among list.items n ≡ is_among numbers n) }
    ensures distinct { IfOk result (λ list. IsDistinct nat_eq list.items) }
{
    let mut list = Vec::new(alloc);
    while let Some(number) = numbers.pop() {
        list.push(number)?;
    }
    Ok(list)
}
