//! What an engine reaches the router by.

ghost use Rattle.std.specs.Prelude.{◌≡◌, ◌++◌, ◌∷◌, [], ℕ, Bool, true, List, IfNone, IfOk, OnOk, OnErr};
ghost use Rattle.capture_form.specs.declared.records.What.{What};
ghost use Rattle.route_items.specs.Items.{connection_of, what_of, IsShort};
ghost use Rattle.conn_engine.specs.Giving.{GivesNext};

use route_items::{Item, StepFault};
use std::alloc::AllocError;

/// Why an item was not submitted.
#[derive(Clone, Copy, Debug, PartialEq, Eq)]
pub enum PortFault {
    /// The router did not take it.
    Step(StepFault),
    /// Memory was refused before the router was asked.
    Memory,
}

/// A connection's way to the router. It tells the items that it took and the frames that it gave, in order.
pub trait Port {
    ghost connection: { Self → ℕ };

    ghost items: { Self → List What };

    ghost frames: { Self → List (List ℕ) };

    /// True wherever `next_out`, asked last, found no frame. It may be true elsewhere too: a port of which nothing is
    /// known is idle always.
    ghost is_idle: { Self → Bool };

    /// Hands an item of this connection to the router.
    ///
    /// # Errors
    ///
    /// Why it was not taken.
    fn submit(&mut self, item: Item<'_>) -> Result<(), PortFault>
        requires own { connection_of item ≡ connection self.old }
        requires short { IsShort item }
        ensures ok { OnOk result (items self.new ≡ items self.old ++ what_of item.entry ∷ []) }
        ensures err { OnErr result (items self.new ≡ items self.old) }
        ensures frames { frames self.new ≡ frames self.old }
        ensures connection { connection self.new ≡ connection self.old };

    /// Appends the first frame that the router wrote to this connection in a record numbered `from` or more, whole or
    /// not at all, and answers the record's number.
    ///
    /// # Errors
    ///
    /// Where the memory for it is refused; nothing has changed then.
    fn next_out(&mut self, from: u64, out: &mut Vec<u8>) -> Result<Option<u64>, AllocError>
        ensures ok { IfOk result (GivesNext (frames self.old) (frames self.new) out.old.items out.new.items from) }
        ensures none { IfOk result (λ number. IfNone number (is_idle self.new ≡ true)) }
        ensures err { OnErr result ((frames self.new ≡ frames self.old) × (out.new.items ≡ out.old.items)) }
        ensures items { items self.new ≡ items self.old }
        ensures connection { connection self.new ≡ connection self.old };

    /// Several calls follow, up to `rest`: until then a port may hold on to what it shares with others. A port that shares nothing
    /// has nothing to do.
    fn hold(&mut self)
        ensures items { items self.new ≡ items self.old }
        ensures frames { frames self.new ≡ frames self.old }
        ensures idle { is_idle self.new ≡ is_idle self.old }
        ensures connection { connection self.new ≡ connection self.old }
    {}

    /// No more calls follow for now: a port lets go of what it held on to.
    fn rest(&mut self)
        ensures items { items self.new ≡ items self.old }
        ensures frames { frames self.new ≡ frames self.old }
        ensures idle { is_idle self.new ≡ is_idle self.old }
        ensures connection { connection self.new ≡ connection self.old }
    {}
}
