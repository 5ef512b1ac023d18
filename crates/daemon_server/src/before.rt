//! What stands before a turn.

ghost use Rattle.std.specs.Prelude.{ℕ, List, []};
ghost use Rattle.capture_form.specs.declared.records.What.{What};

use std::marker::Brand;

/// What was taken of a connection and given to it before a turn, and the frames that wait for it then. Each turn picks them.
pub trait Before {
    ghost items: { List What };

    ghost frames: { List (List ℕ) };

    ghost due: { List (List ℕ) };
}

impl Before for Brand {
    ghost items = { [] };

    ghost frames = { [] };

    ghost due = { [] };
}
