//! Ids that are in use.

ghost use Rattle.std.specs.Prelude.{◌≡◌, ◌≤◌, IfSome, true};
ghost use Rattle.flow_counts.specs.Covers.{covers};

use std::alloc::{AllocError, Global};
use std::collections::{BTreeMap, HashMap};

/// From where the ids of deliveries are counted.
#[derive(Clone, Copy, Debug, PartialEq, Eq, Hash)]
pub enum Sender {
    Client,
    Router,
}

/// The ids of one sender on one channel of a connection.
#[derive(Clone, Copy, Debug, PartialEq, Eq, Hash)]
pub struct Scope {
    pub connection: u32,
    pub channel: u16,
    pub sender: Sender,
}

/// Ids in use, each with a value.
#[derive(Debug, Drop)]
pub struct Ids<V> {
    alloc: Global,
    scopes: HashMap<Scope, BTreeMap<u32, V>>,
}

impl<V: Drop> Ids<V> {
    /// No ids.
    pub fn new(alloc: Global) -> Ids<V> {
        Ids {
            alloc,
            scopes: HashMap::new(alloc),
        }
    }

    /// Adds an id with a value. One that is there already gets this value.
    pub fn insert(&mut self, scope: Scope, id: u32, value: V) -> Result<(), AllocError> {
        if let Some(ids) = self.scopes.get_mut(&scope) {
            ids.insert(id, value)?;
            return Ok(());
        }
        let mut ids = BTreeMap::new(self.alloc);
        ids.insert(id, value)?;
        self.scopes.insert(scope, ids)?;
        Ok(())
    }

    /// Whether an id of the scope is covered by the range from `first` to `last`.
    pub fn has_covered(&self, scope: Scope, first: u32, last: u32) -> bool {
        match self.scopes.get(&scope) {
            Some(ids) => covered(ids, first, last).is_some(),
            None => false,
        }
    }

    /// Takes out an id of the scope that the range from `first` to `last` covers, and gives its value.
    pub fn take_covered(&mut self, scope: Scope, first: u32, last: u32) -> Option<V> {
        let ids = self.scopes.get_mut(&scope)?;
        let id = covered(ids, first, last)?;
        ids.remove(&id)
    }

    /// Takes out all ids of the scope.
    pub fn clear(&mut self, scope: Scope) {
        if let Some(ids) = self.scopes.get_mut(&scope) {
            ids.clear();
        }
    }
}

/// An id that the range from `first` to `last` covers.
fn covered<V>(ids: &BTreeMap<u32, V>, first: u32, last: u32) -> Option<u32> {
    if last.wrapping_sub(first) >= 0x8000_0000 {
        None
    } else if first <= last {
        lowest(ids, first, last)
    } else {
        match lowest(ids, first, u32::MAX) {
            Some(id) => Some(id),
            None => lowest(ids, 0, last),
        }
    }
}

/// The lowest id from `first` to `last`.
fn lowest<V>(ids: &BTreeMap<u32, V>, first: u32, last: u32) -> Option<u32>
    requires { first ≤ last }
{
    let (id, _) = ids.range(first..=last).next()?;
    Some(*id)
}
