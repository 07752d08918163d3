//! The values of the unmarked slots, with their indexes.
ghost use Rattle.std.specs.Prelude.{◌≡◌, ◌<◌, ◌^◌, ⊤, IfSome, Some, length};
ghost use Rattle.std.specs.Iterator.{YieldsFirstBy, UpTo, at_most, item_count};
ghost use Rattle.std.specs.Iterator.SizeHint.{IsWithinCount};
ghost use Rattle.giputils_index.specs.Allocator.{live_slots, live_count};

use super::{GallocElem, Gallocator};
use std::alloc::{AllocError, Allocator};
use std::iter::FusedIterator;
use std::marker::Model;
use std::ops::Deref;

/// An iterator over the slots that are not marked as removed: the index of each and its value, by rising index. It is
/// seen as the list of those that it has left.
#[derive(Drop)]
pub struct Live<'a, T> {
    slots: &'a [GallocElem<T>],
    // The index of the first of `slots`.
    index: usize,
    // How many of `slots` are unmarked.
    left: usize,
}

impl<'a, T> Model for Live<'a, T> {
    ghost use Rattle.std.specs.Prelude.{ℕ, List};

    ghost Value = { List (ℕ × T) };

    ghost use Rattle.std.specs.Prelude.{◌≡◌, ◌+◌, ◌<◌, ◌^◌, length};
    ghost use Rattle.giputils_index.specs.Allocator.{live_slots};

    ghost view = { λ s. live_slots s.index s.slots.now };

    ghost invariant = { λ s.
        (s.left ≡ length (live_slots s.index s.slots.now))
        × (s.index + length s.slots.now < 2 ^ 64) };
}

impl<T, A: Allocator> Gallocator<T, A> {
    /// An iterator over the slots that are not marked as removed: the index of each and its value, by rising index.
    #[inline]
    pub fn iter(&self) -> Live<'_, T>
        ensures slots { result ≡ live_slots 0 self.now }
        ensures len { length result ≡ live_count self.now }
        ensures fits { length self.now < 2 ^ 64 }
    {
        Live {
            slots: self.slots.as_slice(),
            index: 0,
            left: self.live,
        }
    }
}

impl<'a, T> Iterator for Live<'a, T> {
    type Item = (usize, &'a T);

    ghost next_gives = { YieldsFirstBy (λ item. (item.0, item.1.now)) (λ rest. rest) };

    ghost remaining = { item_count (λ rest. rest) };

    #[inline]
    fn next(&mut self) -> Option<(usize, &'a T)> {
        while let Some((slot, rest)) = self.slots.split_first() {
            let index = self.index;
            self.slots = rest;
            self.index += 1;
            if !slot.is_removed() {
                self.left -= 1;
                return Some((index, slot.deref()));
            }
        }
        None
    }

    #[inline]
    fn size_hint(&self) -> (usize, Option<usize>)
        ensures lower { IsWithinCount result.0 (at_most (length self.now)) }
        ensures upper { IfSome result.1 (UpTo (at_most (length self.now))) }
        ensures exact { (result.0 ≡ length self.now) × (result.1 ≡ Some (length self.now)) }
    {
        (self.left, Some(self.left))
    }
}

impl<'a, T> ExactSizeIterator for Live<'a, T> {
    #[inline]
    fn len(&self) -> usize {
        self.left
    }
}

impl<'a, T> FusedIterator for Live<'a, T> {}

impl<'a, T> Clone for Live<'a, T> {
    ghost is_clone = { λ s r. r ≡ s };

    ghost is_infallible = { λ _. ⊤ };

    fn clone(&self) -> Result<Self, AllocError> {
        Ok(Live {
            slots: self.slots,
            index: self.index,
            left: self.left,
        })
    }
}

impl<'a, T, A: Allocator> IntoIterator for &'a Gallocator<T, A> {
    type Item = (usize, &'a T);

    type IntoIter = Live<'a, T>;

    ghost into_iter_gives = { λ g it. it ≡ live_slots 0 g.now };

    #[inline]
    fn into_iter(self) -> Live<'a, T> {
        self.iter()
    }
}
