//! Maps whose keys have numbers, as those of records, channels and handles.
//!
//! In reading order: `key` says what a key is, `map` has the map, `places` what it notes so that an entry is found again
//! without a hash.
#![tactic(auto)]

mod key;
mod map;
mod places;

pub use key::NumberKey;
pub use map::NumberMap;
