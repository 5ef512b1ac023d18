//! A list that grows by what may be there.

ghost use Rattle.std.specs.Prelude.{◌≡◌, ◌||◌, Bool, OnOk};
ghost use Rattle.std.specs.List.{list_any};
ghost use Rattle.trace_events.specs.Words.{is_some_and};

use std::alloc::AllocError;

/// The value comes in, if it is there.
pub(crate) fn push_some<T: Copy>(list: &mut Vec<T>, value: Option<T>) -> Result<(), AllocError>
    ensures { OnOk result ((test : T → Bool) → list_any test list.new.items ≡ (list_any test list.old.items || is_some_and value test)) }
{
    if let Some(value) = value {
        list.push(value)?;
    }
    Ok(())
}
