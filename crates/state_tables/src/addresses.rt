//! What is asked of the consumers of addresses.

/// What is known of the consumers of addresses.
pub trait Addresses {
    ghost use Rattle.std.specs.Prelude.{◌≡◌, ℕ, Bool, List};

    /// Which addresses have one.
    ghost has_one: { Self → List ℕ → Bool };

    /// The address has a consumer.
    fn has_consumer(&self, address: &[u8]) -> bool
        ensures { result ≡ Self.has_one self.now address.now };
}
