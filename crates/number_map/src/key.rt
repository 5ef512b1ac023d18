//! What a key is.

use std::hash::Hash;

/// A key with a number, by which a map finds its entry again.
pub trait NumberKey: Copy + Eq + Hash + Drop {
    /// The number. Keys are found fastest where their numbers differ in their low bits; no two are taken for one another.
    fn number(self) -> usize;
}

impl NumberKey for u16 {
    fn number(self) -> usize {
        self as usize
    }
}

impl NumberKey for u32 {
    fn number(self) -> usize {
        self as usize
    }
}

impl NumberKey for u64 {
    fn number(self) -> usize {
        self as usize
    }
}
