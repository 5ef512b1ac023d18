//! What a value is.

/// A value that runs of numbers may have.
pub trait RunValue: Copy {
    ghost use Rattle.std.specs.Prelude.{◌≡◌, ◌↔◌, IsTrue};

    /// The two are one value.
    fn is_same(self, other: Self) -> bool
        ensures { IsTrue result ↔ (self ≡ other) };
}

impl RunValue for u64 {
    fn is_same(self, other: u64) -> bool {
        self == other
    }
}
