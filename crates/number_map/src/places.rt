//! Where the entries of keys stood last. Whatever a place says, a map that looks there takes nothing but the entry of its key.

ghost use Rattle.std.specs.Prelude.{◌≡◌, position};

use crate::key::NumberKey;

/// A map with this many places, or more, makes no more: it has 131,072 at most.
pub(crate) const MOST_PLACES: usize = 65_536;

/// The place that was noted last for a key whose number ends in the same bits, or 0.
#[inline(always)]
pub(crate) fn place<K: NumberKey>(places: &[u32], key: K) -> usize {
    match places.get(key.number() & places.len().wrapping_sub(1)) {
        Some(place) => *place as usize,
        None => 0,
    }
}

/// The entry of the key stands there.
#[inline(always)]
pub(crate) fn note<K: NumberKey>(places: &mut [u32], key: K, place: usize) {
    let at = key.number() & places.len().wrapping_sub(1);
    if let Some(noted) = places.get_mut(at) {
        *noted = (place & 0xFFFF_FFFF) as u32;
    }
}

/// The entries of the keys stand in this order.
pub(crate) fn note_all<K: NumberKey>(places: &mut [u32], keys: &[K]) {
    for (place, key) in keys.iter().enumerate() {
        note(places, *key, place);
    }
}

/// The index of the key among these.
pub(crate) fn index_among<K: NumberKey>(keys: &[K], key: K) -> Option<usize>
    ensures { result ≡ position (K.eq key) keys.now }
{
    keys.iter().position(|found| key == *found)
}
