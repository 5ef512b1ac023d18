//! Numbers in groups, under keys that are copied.

ghost use Rattle.std.specs.Prelude.{◌≡◌, ◌↔◌, ℕ, [], None, IsTrue, OnOk, OnErr, false, length, nat_eq, slice_get};
ghost use Rattle.std.specs.List.{IsDistinct};
ghost use Rattle.indexmap.specs.IndexMap.{get};

use crate::group::Group;
use number_map::{NumberKey, NumberMap};
use std::alloc::{AllocError, Global};

/// Sets of numbers by key. A key without numbers takes no memory.
#[derive(Drop)]
pub struct Groups<K: NumberKey> {
    alloc: Global,
    entries: NumberMap<K, Group>,
}

impl<K: NumberKey> Groups<K> {
    ghost use Rattle.number_groups.specs.Groups.{AreSame, Joined, Left, is_kept, is_member, numbers};

    /// No numbers.
    pub fn new(alloc: Global) -> Groups<K>
        ensures { (key : K) → numbers K.eq result key ≡ [] }
    {
        Groups {
            alloc,
            entries: NumberMap::new(alloc),
        }
    }

    /// Puts the number into the group of the key; one that is there already stays as it was.
    ///
    /// # Errors
    ///
    /// Memory was refused; then all stays as it was.
    pub fn insert(&mut self, key: K, number: u64) -> Result<(), AllocError>
        ensures joined { OnOk result (Joined K.eq key number self.old self.new) }
        ensures unchanged { OnErr result (AreSame K.eq self.old self.new) }
    {
        let alloc = self.alloc;
        let Some(group) = self.entries.get_mut(&key) else {
            return self.insert_first(key, number);
        };
        group.insert(alloc, number)
    }

    /// The number is the first of the group of the key.
    fn insert_first(&mut self, key: K, number: u64) -> Result<(), AllocError>
        requires new { get K.eq self.old.entries key ≡ None }
        ensures joined { OnOk result (Joined K.eq key number self.old self.new) }
        ensures unchanged { OnErr result (AreSame K.eq self.old self.new) }
    {
        self.entries.insert(key, Group::One(number))?;
        Ok(())
    }

    /// Takes the number out of the group of the key, if it is there. A group without numbers goes. The last number of the
    /// group takes the place of this one, which no clause says.
    pub fn remove(&mut self, key: &K, number: u64)
        ensures left { Left K.eq key.now number self.old self.new }
        ensures gone { numbers K.eq self.new key.now ≡ [] → is_kept K.eq self.new key.now ≡ false }
    {
        let alloc = self.alloc;
        let Some(group) = self.entries.get_mut(key) else {
            return;
        };
        group.remove(alloc, number);
        if group.count() == 0 {
            self.entries.swap_remove(key);
        }
    }

    /// The number is in the group of the key.
    pub fn has(&self, key: &K, number: u64) -> bool
        ensures { result ≡ is_member K.eq self.now key.now number }
    {
        match self.entries.get(key) {
            Some(group) => group.has(number),
            None => false,
        }
    }

    /// No number is in the group of the key.
    pub fn is_empty(&self, key: &K) -> bool
        ensures { IsTrue result ↔ ((n : ℕ) → is_member K.eq self.now key.now n ≡ false) }
    {
        self.count(key) == 0
    }

    /// How many numbers the group of the key has.
    pub fn count(&self, key: &K) -> usize
        ensures count { result ≡ length (numbers K.eq self.now key.now) }
        ensures distinct { IsDistinct nat_eq (numbers K.eq self.now key.now) }
    {
        match self.entries.get(key) {
            Some(group) => group.count(),
            None => 0,
        }
    }

    /// The first number of the group; `None` where it has none. While none is removed, no call changes the order: the code
    /// keeps this, and no clause says it.
    pub fn first(&self, key: &K) -> Option<u64>
        ensures { result ≡ slice_get (numbers K.eq self.now key.now) 0 }
    {
        self.get(key, 0)
    }

    /// The number at the index, in that order; `None` from the group's count on.
    pub fn get(&self, key: &K, index: usize) -> Option<u64>
        ensures { result ≡ slice_get (numbers K.eq self.now key.now) index }
    {
        self.entries.get(key)?.get(index)
    }
}
