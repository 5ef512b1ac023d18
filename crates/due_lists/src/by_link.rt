//! The deliveries of which copies may be unsent, by link.

ghost use Rattle.std.specs.Prelude.{◌≡◌, ◌&&◌, ◌==◌, ◌<◌, ◌≤◌, ℕ, None, Some, OnOk, IfSome, IsSome, true, false, nat_eq, if◌then◌else◌};
ghost use Rattle.indexmap.specs.IndexMap.{get};
ghost use Rattle.due_lists.specs.ByLink.{copy_at, count_of};

use number_map::NumberMap;
use std::alloc::{AllocError, Global};
use std::collections::BTreeMap;

/// By the number of a link those of deliveries, under the record that completed each.
#[derive(Drop)]
pub struct ByLink {
    alloc: Global,
    entries: NumberMap<u64, BTreeMap<u64, u64>>,
}

impl ByLink {
    /// No deliveries.
    pub fn new(alloc: Global) -> ByLink
        ensures { (link completion : ℕ) → copy_at result link completion ≡ None }
    {
        ByLink {
            alloc,
            entries: NumberMap::new(alloc),
        }
    }

    /// The delivery of this number, which that record completed, is to be sent on the link.
    ///
    /// # Errors
    ///
    /// Memory was refused; then it may be missing.
    pub fn insert(&mut self, link: u64, completion: u64, number: u64) -> Result<(), AllocError>
        ensures { OnOk result ((l c : ℕ) → copy_at self.new l c ≡ (if link == l && (completion == c) then Some number else copy_at self.old l c)) }
    {
        let Some(copies) = self.entries.get_mut(&link) else {
            return self.insert_first(link, completion, number);
        };
        copies.insert(completion, number)?;
        Ok(())
    }

    /// The delivery is the first of the link.
    fn insert_first(&mut self, link: u64, completion: u64, number: u64) -> Result<(), AllocError>
        requires new { get nat_eq self.old.entries link ≡ None }
        ensures inserted { OnOk result ((l c : ℕ) → copy_at self.new l c ≡ (if link == l && (completion == c) then Some number else copy_at self.old l c)) }
    {
        let mut copies = BTreeMap::new(self.alloc);
        copies.insert(completion, number)?;
        self.entries.insert(link, copies)?;
        Ok(())
    }

    /// The delivery that this record completed goes from the link, if it was there.
    pub fn remove(&mut self, link: u64, completion: u64)
        ensures removed { (l c : ℕ) → copy_at self.new l c ≡ (if link == l && (completion == c) then None else copy_at self.old l c) }
        ensures fewer { IsSome (copy_at self.old link completion) → count_of self.new link < count_of self.old link }
    {
        if let Some(copies) = self.entries.get_mut(&link) {
            copies.remove(&completion);
        }
    }

    /// All deliveries of the link go.
    pub fn clear(&mut self, link: u64)
        ensures { (l c : ℕ) → copy_at self.new l c ≡ (if link == l then None else copy_at self.old l c) }
    {
        self.entries.swap_remove(&link);
    }

    /// Of the link's deliveries the one that was completed first: the number of the record that did, and its own.
    pub fn first(&self, link: u64) -> Option<(u64, u64)>
        ensures stands { IfSome result (λ x. copy_at self.now link x.0 ≡ Some x.1) }
        ensures least { IfSome result (λ x. (c n : ℕ) → copy_at self.now link c ≡ Some n → x.0 ≤ c) }
        ensures none { result ≡ None → (c : ℕ) → copy_at self.now link c ≡ None }
    {
        let (completion, number) = self.entries.get(&link)?.first_key_value()?;
        Some((*completion, *number))
    }
}
