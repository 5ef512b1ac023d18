//! The map.

ghost use Rattle.std.specs.Prelude.{◌≡◌, ◌+◌, ◌<◌, ◌≤◌, ◌^◌, is_some, if◌then◌else◌, None, Some, IfSome, IfNone, IfOk, IfErr, OnOk, OnErr, IsOk, length, slice_get};
ghost use Rattle.std.specs.Borrow.{sem};
ghost use Rattle.std.specs.List.{IsAmong};
ghost use Rattle.std.specs.Map.Iter.{ShowsInOrder, ShowsInReverse, deref};
ghost use Rattle.std.specs.Option.{option_copied, option_copied_mut};
ghost use Rattle.indexmap.specs.IndexMap.{IsEmpty, IsUnchanged, IsUnique, KeepsRoom, Updates, UpdatesBy, get, get_by, hasher_of, index_map_len, index_of, insert_entry, spare, swap_remove_entry, values};

use crate::key::NumberKey;
use crate::places::{MOST_PLACES, index_among, note, note_all, place};
use indexmap::IndexMap;
use indexmap::map::Values;
use std::alloc::{AllocError, AllocFailed, Global};
use std::hash::{BuildHasher, BuildHasherDefault, FoldHasher};
use std::marker::Model;

/// With this many entries or fewer, a key that its place does not tell is sought among all keys, and not by its hash.
const FEW: usize = 4;

/// Values under keys that have numbers. It is an `IndexMap`, and its clauses are that map's: only a look-up is faster, since it
/// begins with the entry at the place that was noted last under the low bits of the key's number.
#[derive(Drop)]
pub struct NumberMap<K: NumberKey, V, S: BuildHasher = BuildHasherDefault<FoldHasher>> {
    entries: IndexMap<K, V, S>,
    places: Vec<u32>,
}

impl<K: NumberKey, V, S: BuildHasher> Model for NumberMap<K, V, S> {
    ghost use Rattle.indexmap.specs.Layout.{hash_map_code};
    ghost use Rattle.number_map.specs.NumberMap.{NumberMap as Entries};

    ghost Value = { Entries K V S };

    ghost coded = { hash_map_code K.code V.code S.code };

    ghost view = { λ m. m.entries };
}

impl<K: NumberKey, V> NumberMap<K, V, BuildHasherDefault<FoldHasher>> {
    /// An empty map, which takes no memory until the first insert.
    pub fn new(alloc: Global) -> Self
        ensures empty { IsEmpty result }
        ensures len { index_map_len result ≡ 0 }
        ensures unique { IsUnique K.eq result }
    {
        NumberMap {
            entries: IndexMap::new(alloc),
            places: Vec::new(alloc),
        }
    }
}

impl<K: NumberKey, V, S: BuildHasher> NumberMap<K, V, S> {
    ghost use Rattle.number_map.specs.Lends.{lends_get, lends_index};

    /// How many entries there are.
    pub fn len(&self) -> usize
        ensures len { result ≡ index_map_len self.now }
        ensures small { result < 2 ^ 63 }
        ensures unique { IsUnique K.eq self.now }
    {
        self.entries.len()
    }

    /// The values, in the order of the entries.
    pub fn values(&self) -> Values<'_, K, V>
        ensures rest { result ≡ values self.now }
        ensures len { length result ≡ index_map_len self.now }
        ensures runs { ShowsInOrder (deref {X = V}) }
        ensures runs_back { ShowsInReverse (deref {X = V}) }
        ensures fits { index_map_len self.now < 2 ^ 63 }
    {
        self.entries.values()
    }

    /// Makes room for `additional` more entries, so that as many inserts are not refused.
    ///
    /// # Errors
    ///
    /// Memory was refused; then the entries stay as they were.
    pub fn reserve(&mut self, additional: usize) -> Result<(), AllocError>
        ensures entries { IsUnchanged self.old self.new }
        ensures ok { OnOk result (additional ≤ spare self.new) }
        ensures succeeds { additional ≤ spare self.old → IsOk result }
        ensures room { KeepsRoom self.old self.new }
        ensures unique { IsUnique K.eq self.new }
    {
        self.entries.reserve(additional)
    }

    /// The value of the key. `None` where it is not there.
    #[inline(always)]
    pub fn get(&self, key: &K) -> Option<&V>
        ensures value { option_copied result ≡ get_by (K.eq key.now) self.now }
        ensures member { IfSome result (λ x. IsAmong (values self.now) x.now) }
    {
        match self.index_of(*key) {
            Some(index) => Some(&self.entries[index]),
            None => None,
        }
    }

    /// The value of the key, to write. `None` where it is not there.
    #[inline(always)]
    pub fn get_mut(&mut self, key: &K) -> Option<&mut V>
        ensures* writes_back { sem 𝓛 (lends_get K.row V.row S.row S.Hasher.row K.Hash S.BuildHasher S.Hasher.Hasher self.entry (K.eq key.now) result) }
        ensures value { option_copied_mut result ≡ get_by (K.eq key.now) self.old }
        ensures member { IfSome result (λ x. IsAmong (values self.old) x.now) }
        ensures unique { IsUnique K.eq self.old }
    {
        match self.index_of(*key) {
            Some(index) => Some(self.value_at(index)),
            None => None,
        }
    }

    /// Inserts a pair. A key that is there keeps its place, and the old value is returned. A new key goes last, with `None`.
    ///
    /// # Errors
    ///
    /// Memory was refused, for a new key; then the entries stay as they were.
    #[inline(always)]
    pub fn insert(&mut self, key: K, value: V) -> Result<Option<V>, AllocFailed<(K, V)>>
        ensures old { IfOk result (λ old. old ≡ get K.eq self.old key) }
        ensures updates { OnOk result (Updates K.eq self.old self.new key (Some value)) }
        ensures entries { OnOk result (self.new.entries ≡ insert_entry K.eq self.old.entries key value) }
        ensures len { IfOk result (λ old. index_map_len self.new ≡ index_map_len self.old + (if is_some old then 0 else 1)) }
        ensures value_returned { IfErr result (λ y. y.value ≡ (key, value)) }
        ensures err { OnErr result (IsUnchanged self.old self.new) }
        ensures absent { OnErr result (get K.eq self.old key ≡ None) }
        ensures succeeds { 0 < spare self.old → IsOk result }
        ensures spare { spare self.old ≤ spare self.new + 1 }
        ensures hasher { hasher_of self.new ≡ hasher_of self.old }
        ensures unique { IsUnique K.eq self.new }
    {
        let (index, old) = self.entries.insert_full(key, value)?;
        note(self.places.as_mut_slice(), key, index);
        self.make_places();
        Ok(old)
    }

    /// Removes the key, and returns its value. The last entry takes its place. `None` where it is not there: then all stays as it
    /// was.
    #[inline(always)]
    pub fn swap_remove(&mut self, key: &K) -> Option<V>
        ensures value { result ≡ get_by (K.eq key.now) self.old }
        ensures updates { UpdatesBy K.eq (K.eq key.now) self.old self.new None }
        ensures entries { self.new.entries ≡ swap_remove_entry (K.eq key.now) self.old.entries }
        ensures unchanged { IfNone result (IsUnchanged self.old self.new) }
        ensures len { index_map_len self.new + (if is_some result then 1 else 0) ≡ index_map_len self.old }
        ensures room { KeepsRoom self.old self.new }
        ensures unique { IsUnique K.eq self.new }
    {
        let Some(index) = self.index_of(*key) else {
            return None;
        };
        let (_, value) = self.entries.swap_remove_index(index).unwrap();
        self.note_moved(index);
        Some(value)
    }

    /// The index of the entry of the key.
    #[inline(always)]
    fn index_of(&self, key: K) -> Option<usize>
        ensures index { result ≡ index_of K.eq self.now key }
        ensures within { IfSome result (λ i. i < index_map_len self.now) }
        ensures value { IfSome result (λ i. slice_get (values self.now) i ≡ get K.eq self.now key) }
        ensures found { is_some result ≡ is_some (get K.eq self.now key) }
        ensures unique { IsUnique K.eq self.now }
    {
        // The length is what says that no two keys are equal.
        let _len = self.entries.len();
        let place = place(self.places.as_slice(), key);
        match self.entries.get_index(place) {
            Some((found, _)) if *found == key => Some(place),
            _ => self.sought(key),
        }
    }

    /// The index of the entry of the key, wherever it stands.
    #[inline(never)]
    fn sought(&self, key: K) -> Option<usize>
        ensures { result ≡ index_of K.eq self.now key }
    {
        if self.entries.len() <= FEW {
            return index_among(self.entries.keys().as_slice(), key);
        }
        self.entries.get_index_of(&key)
    }

    /// The value at the index, to write.
    fn value_at(&mut self, index: usize) -> &mut V
        requires { index < index_map_len self.old }
        ensures* writes_back { sem 𝓛 (lends_index K.row V.row S.row S.Hasher.row K.Hash S.BuildHasher S.Hasher.Hasher self.entry index result) }
        ensures value { slice_get (values self.old) index ≡ Some result.now }
    {
        &mut self.entries[index]
    }

    /// Notes where the entry stands that took the place of one that went.
    #[inline(always)]
    fn note_moved(&mut self, index: usize)
        ensures { self.new ≡ self.old }
    {
        if let Some((moved, _)) = self.entries.get_index(index) {
            note(self.places.as_mut_slice(), *moved, index);
        }
    }

    /// Makes more places, where the entries have few. Without memory for them there are as many as before.
    fn make_places(&mut self)
        ensures { self.new ≡ self.old }
    {
        let count = self.entries.len();
        let places = self.places.len();
        if count < 2 || 2 * count <= places || MOST_PLACES <= places {
            return;
        }
        if self.places.resize((4 * places).max(8), 0).is_ok() {
            note_all(self.places.as_mut_slice(), self.entries.keys().as_slice());
        }
    }
}
