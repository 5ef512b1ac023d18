//! The deliveries to clients that carry the same one from a client.

ghost use Rattle.std.specs.Prelude.{◌≡◌, ◌∷◌, [], OnErr, OnOk};
ghost use Rattle.state_outgoing.specs.Carriers.{numbers_of};

use std::alloc::{AllocError, Global};

/// The numbers of the deliveries to clients that carry the same one from a client. Where one alone carries it, as in anycast,
/// they take no memory of their own.
#[doc(hidden)]
#[derive(Drop)]
pub struct Carriers {
    /// That of the last one that began.
    pub(crate) last: u64,
    /// Those of the earlier ones, in the order in which they began.
    pub(crate) earlier: Vec<u64>,
}

impl Carriers {
    /// The one of this number alone carries it.
    pub(crate) fn new(alloc: Global, number: u64) -> Carriers
        ensures { numbers_of result ≡ number ∷ [] }
    {
        Carriers {
            last: number,
            earlier: Vec::new(alloc),
        }
    }

    /// The one of this number carries it too, and began last.
    ///
    /// # Errors
    ///
    /// Memory was refused; then all stays as it was.
    pub(crate) fn push(&mut self, number: u64) -> Result<(), AllocError>
        ensures pushed { OnOk result (numbers_of self.new ≡ number ∷ numbers_of self.old) }
        ensures unchanged { OnErr result (numbers_of self.new ≡ numbers_of self.old) }
    {
        self.earlier.push(self.last)?;
        self.last = number;
        Ok(())
    }
}
