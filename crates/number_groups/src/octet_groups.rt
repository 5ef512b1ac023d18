//! Numbers in groups, under keys of octets.

ghost use Rattle.std.specs.Prelude.{◌≡◌, ◌↔◌, ℕ, List, [], IsTrue, OnOk, OnErr, false, length, nat_eq, slice_get};
ghost use Rattle.std.specs.List.{IsDistinct};

use crate::group::Group;
use indexmap::IndexMap;
use std::alloc::{AllocError, Global};

/// Sets of numbers by key. A key without numbers takes no memory.
#[derive(Drop)]
pub struct OctetGroups {
    alloc: Global,
    entries: IndexMap<Vec<u8>, Group>,
}

impl OctetGroups {
    ghost use Rattle.number_groups.specs.OctetGroups.{AreSame, Joined, Left, is_kept, is_member, numbers};

    /// No numbers.
    pub fn new(alloc: Global) -> OctetGroups
        ensures { (key : List ℕ) → numbers result key ≡ [] }
    {
        OctetGroups {
            alloc,
            entries: IndexMap::new(alloc),
        }
    }

    /// Puts the number into the group of the key; one that is there already stays as it was.
    ///
    /// # Errors
    ///
    /// Memory was refused; then all stays as it was.
    pub fn insert(&mut self, key: &[u8], number: u64) -> Result<(), AllocError>
        ensures joined { OnOk result (Joined key.now number self.old self.new) }
        ensures unchanged { OnErr result (AreSame self.old self.new) }
    {
        let alloc = self.alloc;
        let Some(group) = self.entries.get_mut(key) else {
            return self.insert_first(key, number);
        };
        group.insert(alloc, number)
    }

    /// The number is the first of the group of the key.
    fn insert_first(&mut self, key: &[u8], number: u64) -> Result<(), AllocError>
        requires new { is_kept self.old key.now ≡ false }
        ensures joined { OnOk result (Joined key.now number self.old self.new) }
        ensures unchanged { OnErr result (AreSame self.old self.new) }
    {
        let key = key.to_vec(self.alloc)?;
        self.entries.insert(key, Group::One(number))?;
        Ok(())
    }

    /// Takes the number out of the group of the key, if it is there. A group without numbers goes. The last number of the
    /// group takes the place of this one, which no clause says.
    pub fn remove(&mut self, key: &[u8], number: u64)
        ensures left { Left key.now number self.old self.new }
        ensures gone { numbers self.new key.now ≡ [] → is_kept self.new key.now ≡ false }
    {
        let alloc = self.alloc;
        let Some(group) = self.entries.get_mut(key) else {
            return;
        };
        group.remove(alloc, number);
        if group.count() == 0 {
            self.entries.swap_remove(key);
        }
    }

    /// The number is in the group of the key.
    pub fn has(&self, key: &[u8], number: u64) -> bool
        ensures { result ≡ is_member self.now key.now number }
    {
        match self.entries.get(key) {
            Some(group) => group.has(number),
            None => false,
        }
    }

    /// No number is in the group of the key.
    pub fn is_empty(&self, key: &[u8]) -> bool
        ensures { IsTrue result ↔ ((n : ℕ) → is_member self.now key.now n ≡ false) }
    {
        self.count(key) == 0
    }

    /// How many numbers the group of the key has.
    pub fn count(&self, key: &[u8]) -> usize
        ensures count { result ≡ length (numbers self.now key.now) }
        ensures distinct { IsDistinct nat_eq (numbers self.now key.now) }
    {
        match self.entries.get(key) {
            Some(group) => group.count(),
            None => 0,
        }
    }

    /// The first number of the group; `None` where it has none. While none is removed, no call changes the order: the code
    /// keeps this, and no clause says it.
    pub fn first(&self, key: &[u8]) -> Option<u64>
        ensures { result ≡ slice_get (numbers self.now key.now) 0 }
    {
        self.get(key, 0)
    }

    /// The number at the index, in that order; `None` from the group's count on.
    pub fn get(&self, key: &[u8], index: usize) -> Option<u64>
        ensures { result ≡ slice_get (numbers self.now key.now) index }
    {
        self.entries.get(key)?.get(index)
    }
}
