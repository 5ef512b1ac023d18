//! The links that may be sent a copy.

ghost use Rattle.std.specs.Prelude.{◌≡◌, ◌&&◌, ◌||◌, ◌==◌, ◌<◌, ℕ, None, OnOk, IfSome, true, false, not};
ghost use Rattle.due_lists.specs.CopyCandidates.{count_of, has};

use std::alloc::{AllocError, Global};
use std::collections::BTreeSet;

/// The numbers of links, each with the completion of the delivery that it is to be sent next: the lowest completion first, and
/// of one completion the lowest link.
#[derive(Drop)]
pub struct CopyCandidates {
    members: BTreeSet<(u64, u64)>,
}

impl CopyCandidates {
    /// None.
    pub fn new(alloc: Global) -> CopyCandidates
        ensures { (completion link : ℕ) → has result completion link ≡ false }
    {
        CopyCandidates {
            members: BTreeSet::new(alloc),
        }
    }

    /// The link comes in, with this completion.
    ///
    /// # Errors
    ///
    /// Memory was refused; then all stays as it was.
    pub fn insert(&mut self, completion: u64, link: u64) -> Result<(), AllocError>
        ensures { OnOk result ((c l : ℕ) → has self.new c l ≡ (has self.old c l || completion == c && (link == l))) }
    {
        self.members.insert((completion, link))?;
        Ok(())
    }

    /// The link goes with this completion, if it was there.
    pub fn remove(&mut self, completion: u64, link: u64)
        ensures removed { (c l : ℕ) → has self.new c l ≡ (has self.old c l && not (completion == c && (link == l))) }
        ensures fewer { has self.old completion link ≡ true → count_of self.new < count_of self.old }
    {
        self.members.remove(&(completion, link));
    }

    /// The first: its completion and its link.
    pub fn first(&self) -> Option<(u64, u64)>
        ensures stands { IfSome result (λ x. has self.now x.0 x.1 ≡ true) }
        ensures none { result ≡ None → (c l : ℕ) → has self.now c l ≡ false }
    {
        let (completion, link) = self.members.first()?;
        Some((*completion, *link))
    }
}
