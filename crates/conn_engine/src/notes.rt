//! What is noted of the octets that an engine puts.

ghost use Rattle.std.specs.Prelude.{◌≡◌, ◌≤◌, ◌++◌, ℕ, List, IsTrue, OnOk, length, take, drop};

use std::alloc::AllocError;

/// Notes of the octets that an engine puts, which are those of its port's frames and its own, and of how many of them its gate took.
/// A `Script` tells by them which octets these were; `Unnoted` keeps nothing.
pub trait Notes {
    /// The frames of the port have these octets, the gate took these of its engine, and these wait.
    ghost stands_for: { Self → List ℕ → List ℕ → List ℕ → Type 0 };

    /// So many octets more can be counted.
    ghost has_count: { Self → ℕ → Type 0 };

    /// Whether so many octets more can be counted, and fewer.
    fn has_room(&self, count: usize) -> bool
        ensures { IsTrue result → (n : ℕ) → n ≤ count → has_count self.now n };

    /// The gate took the first `count` octets that wait.
    fn gave(&mut self, count: usize)
        requires { has_count self.old count }
        ensures { (framed taken waiting : List ℕ) → count ≤ length waiting → stands_for self.old framed taken waiting → stands_for self.new framed (taken ++ take count waiting) (drop count waiting) };

    /// So many octets of frames were put behind those that wait.
    ///
    /// # Errors
    ///
    /// Where there are more than can be counted, or memory for it is refused; then the notes stand for nothing more.
    fn framed(&mut self, count: usize) -> Result<(), AllocError>
        ensures { OnOk result ((framed taken waiting more : List ℕ) → length more ≡ count → stands_for self.old framed taken waiting → stands_for self.new (framed ++ more) taken (waiting ++ more)) };

    /// The engine put these octets on its own behind those that wait.
    ///
    /// # Errors
    ///
    /// Where there are more than can be counted, or memory for them is refused; then the notes stand for nothing more.
    fn own(&mut self, octets: &[u8]) -> Result<(), AllocError>
        ensures { OnOk result ((framed taken waiting : List ℕ) → stands_for self.old framed taken waiting → stands_for self.new framed taken (waiting ++ octets.now)) };
}

/// No notes: for whoever never asks which octets a gate took. They take no memory.
#[derive(Debug, Drop)]
pub struct Unnoted;

impl Notes for Unnoted {
    ghost use Rattle.std.specs.Prelude.{⊤};
    ghost use Rattle.conn_engine.specs.Served.{NothingNoted};

    ghost stands_for = { λ notes. NothingNoted };

    ghost has_count = { λ notes count. ⊤ };

    fn has_room(&self, _count: usize) -> bool {
        true
    }

    fn gave(&mut self, _count: usize) {}

    fn framed(&mut self, _count: usize) -> Result<(), AllocError> {
        Ok(())
    }

    fn own(&mut self, _octets: &[u8]) -> Result<(), AllocError> {
        Ok(())
    }
}
