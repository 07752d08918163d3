//! The table of places: for the number of each held key the place where it stands in the array of keys.
ghost use Rattle.std.specs.Prelude.{◌≡◌, ℕ, ◌<◌, ◌≤◌, length, slice_set, None};
ghost use Rattle.giputils_bounded.specs.Keys.{key_limit, AreBelow, AreDistinct};
ghost use Rattle.giputils_bounded.specs.Table.{place_in, IsTable, SaysAlso, SaysNothing};

use crate::key::HeapKey;
use giputils_vec::others::OptionU32;

// The place that the table has of a key.
#[inline]
pub(crate) fn place_of<T: HeapKey>(places: &[OptionU32], key: T) -> Option<usize>
    ensures { result ≡ place_in places.now (T.number key) }
{
    match places.get(key.key() as usize) {
        Some(place) if place.is_some() => Some(**place as usize),
        _ => None,
    }
}

// Writes a key into a place, and the place into the table.
#[inline]
pub(crate) fn put<T: HeapKey>(keys: &mut [T], places: &mut [OptionU32], place: usize, key: T)
    requires inside { place < length keys.old }
    requires number { T.number key < length places.old }
    requires limit { place < key_limit }
    ensures keys { keys.new ≡ slice_set keys.old place key }
    ensures places { SaysAlso (place_in places.old) (place_in places.new) (T.number key) place }
    ensures size { length places.new ≡ length places.old }
{
    keys[place] = key;
    remember(places, key, place);
}

// Writes the place of a key into the table.
#[inline]
pub(crate) fn remember<T: HeapKey>(places: &mut [OptionU32], key: T, place: usize)
    requires number { T.number key < length places.old }
    requires limit { place < key_limit }
    ensures places { SaysAlso (place_in places.old) (place_in places.new) (T.number key) place }
    ensures size { length places.new ≡ length places.old }
{
    places[key.key() as usize] = OptionU32::some(place as u32);
}

// Takes a key out of the table.
#[inline]
pub(crate) fn forget<T: HeapKey>(places: &mut [OptionU32], key: T)
    requires number { T.number key < length places.old }
    ensures places { SaysNothing (place_in places.old) (place_in places.new) (T.number key) }
    ensures size { length places.new ≡ length places.old }
{
    places[key.key() as usize] = OptionU32::NONE;
}

// Writes the places of all keys into the table, which has none.
pub(crate) fn remember_all<T: HeapKey>(keys: &[T], places: &mut [OptionU32])
    requires none { (n : ℕ) → place_in places.old n ≡ None }
    requires distinct { AreDistinct T.number keys.now }
    requires entries { AreBelow T.number (length places.old) keys.now }
    requires limit { length keys.now ≤ key_limit }
    ensures table { IsTable T.number keys.now (place_in places.new) }
    ensures size { length places.new ≡ length places.old }
{
    for (place, key) in keys.iter().enumerate() {
        remember(places, *key, place);
    }
}

// Takes every key out of the table.
pub(crate) fn forget_all<T: HeapKey>(keys: &[T], places: &mut [OptionU32])
    requires table { IsTable T.number keys.now (place_in places.old) }
    ensures none { (n : ℕ) → place_in places.new n ≡ None }
    ensures size { length places.new ≡ length places.old }
{
    for key in keys {
        forget(places, *key);
    }
}
