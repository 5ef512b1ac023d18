//! Octets that lie in several parts, one after the other.

/// Octets that lie in several parts, one after the other.
pub trait Cuts {
    ghost use Rattle.std.specs.Prelude.{◌≡◌, ◌<◌, ℕ, List, length, take, drop};

    /// All octets, in order.
    ghost octets: { Self → List ℕ };

    /// How many octets there are.
    fn len(&self) -> usize
        ensures { result ≡ length (octets self.now) };

    /// The octets from this offset to the end of the part in which it lies; none are there only behind the last octet.
    fn part_at(&self, at: usize) -> &[u8]
        // They are octets from this offset on.
        ensures front { result.now ≡ take (length result.now) (drop at (octets self.now)) }
        // There are some in front of the end.
        ensures some { at < length (octets self.now) → 0 < length result.now };
}

/// Octets that lie in one part.
impl Cuts for &[u8] {
    ghost octets = { λ s. s.now };

    fn len(&self) -> usize {
        <[u8]>::len(self)
    }

    fn part_at(&self, at: usize) -> &[u8] {
        if at < self.len() { &self[at..] } else { &[] }
    }
}
