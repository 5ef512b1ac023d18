//! Numbers, alone and under keys of a number, of a pair of numbers and of octets; and values under numbers, each with an entry
//! of its own or neighbours in one.

use crate::counting::words::parts;
use kit_cases::{Answer, Subject, done, number, parted, small, told, word};
use number_groups::{Ascending, Groups, IdOn, NumberKey, NumberSet, OctetGroups};
use number_map::NumberMap;
use number_runs::NumberRuns;
use std::alloc::{AllocError, Global};

/// Groups of each kind of key, numbers without one, a map, and runs.
#[derive(Drop)]
pub struct Keyed {
    alloc: Global,
    by_number: Groups<u64>,
    by_pair: Groups<IdOn>,
    by_octets: OctetGroups,
    set: NumberSet,
    ascending: Ascending,
    map: NumberMap<u64, u64>,
    runs: NumberRuns<u64>,
}

impl Keyed {
    pub fn new(alloc: Global) -> Keyed {
        Keyed {
            alloc,
            by_number: Groups::new(alloc),
            by_pair: Groups::new(alloc),
            by_octets: OctetGroups::new(alloc),
            set: NumberSet::new(alloc),
            ascending: Ascending::new(alloc),
            map: NumberMap::new(alloc),
            runs: NumberRuns::new(alloc),
        }
    }
}

impl Subject for Keyed {
    fn answer(&mut self, words: &[&str]) -> Answer {
        let alloc = self.alloc;
        let (kind, rest) = parted(words);
        let (verb, key, value) = (word(rest, 0), word(rest, 1), number(word(rest, 2)));
        match kind {
            "number" => group_answer(alloc, &mut self.by_number, number(key), verb, value),
            "pair" => {
                let parts = parts(alloc, key)?;
                let key = IdOn {
                    session: number(word(&parts, 0)),
                    id: small(word(&parts, 1)),
                };
                group_answer(alloc, &mut self.by_pair, key, verb, value)
            }
            "octets" => self.octets_answer(octets_of(key), verb, value),
            "set" => self.set_answer(verb, number(key)),
            "ascending" => self.ascending_answer(verb, number(key)),
            "map" => self.map_answer(verb, number(key), value),
            "runs" => self.runs_answer(verb, small(key), value),
            _ => Ok(None),
        }
    }
}

impl Keyed {
    /// What comes of a word about the numbers of a key of octets, with the number or the index behind it.
    fn octets_answer(&mut self, key: &[u8], verb: &str, value: u64) -> Answer {
        let groups = &mut self.by_octets;
        match verb {
            "insert" => groups.insert(key, value)?,
            "remove" => groups.remove(key, value),
            "has" => return told(self.alloc, groups.has(key, value)),
            "get" => return told(self.alloc, groups.get(key, value as usize)),
            "first" => return told(self.alloc, groups.first(key)),
            "count" => return told(self.alloc, (groups.count(key), groups.is_empty(key))),
            _ => return Ok(None),
        }
        done(self.alloc)
    }

    /// What comes of a word about the numbers that come once.
    fn set_answer(&mut self, verb: &str, value: u64) -> Answer {
        match verb {
            "insert" => self.set.insert(value)?,
            "pop" => return told(self.alloc, self.set.pop()),
            _ => return Ok(None),
        }
        done(self.alloc)
    }

    /// What comes of a word about the numbers of which the lowest comes first.
    fn ascending_answer(&mut self, verb: &str, value: u64) -> Answer {
        match verb {
            "insert" => self.ascending.insert(value)?,
            "remove" => self.ascending.remove(value),
            "first" => return told(self.alloc, self.ascending.first()),
            _ => return Ok(None),
        }
        done(self.alloc)
    }

    /// What comes of a word about the values under numbers.
    fn map_answer(&mut self, verb: &str, key: u64, value: u64) -> Answer {
        match verb {
            "insert" => match self.map.insert(key, value) {
                Ok(old) => told(self.alloc, old),
                Err(_) => Err(AllocError),
            },
            "remove" => told(self.alloc, self.map.swap_remove(&key)),
            "get" => told(self.alloc, self.map.get(&key)),
            "count" => told(self.alloc, self.map.len()),
            _ => Ok(None),
        }
    }

    /// What comes of a word about the values under numbers of which neighbours with one value take one entry.
    fn runs_answer(&mut self, verb: &str, key: u32, value: u64) -> Answer {
        match verb {
            "insert" => told(self.alloc, self.runs.insert(key, value)?),
            "get" => told(self.alloc, self.runs.get(key)),
            "count" => told(self.alloc, self.runs.runs()),
            _ => Ok(None),
        }
    }
}

/// What comes of a word about the numbers of a key, with the number or the index behind it. `count` tells too whether there
/// are none.
fn group_answer<K: NumberKey>(
    alloc: Global,
    groups: &mut Groups<K>,
    key: K,
    verb: &str,
    value: u64,
) -> Answer {
    match verb {
        "insert" => groups.insert(key, value)?,
        "remove" => groups.remove(&key, value),
        "has" => return told(alloc, groups.has(&key, value)),
        "get" => return told(alloc, groups.get(&key, value as usize)),
        "first" => return told(alloc, groups.first(&key)),
        "count" => return told(alloc, (groups.count(&key), groups.is_empty(&key))),
        _ => return Ok(None),
    }
    done(alloc)
}

/// The octets of a key's word, `-` for none.
fn octets_of(word: &str) -> &[u8] {
    if word == "-" { &[] } else { word.as_bytes() }
}
