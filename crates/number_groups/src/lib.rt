//! Sets of numbers, each under a key: the links of an address, say.
//!
//! In reading order: `group` has the numbers of one key, `number_set` some numbers without one, `ascending` those too, the
//! lowest first; `groups` has keys that have numbers (`NumberKey`), as numbers themselves or `id_on`, the id of a delivery;
//! `octet_groups` has keys of octets. Each call takes the time of a look-up, however many numbers and keys there are.
#![tactic(auto)]

mod ascending;
mod group;
mod groups;
mod id_on;
mod number_set;
mod octet_groups;

pub use ascending::{Ascending, Ascent, NumberTest};
pub use group::Group;
pub use groups::Groups;
pub use id_on::IdOn;
pub use number_map::NumberKey;
pub use number_set::NumberSet;
pub use octet_groups::OctetGroups;
