//! The false places of a bit vector, in order: the true places of the vector with each bit turned round.
ghost use Rattle.std.specs.Prelude.{◌≡◌, ◌*◌, ◌<◌, ◌≤◌, ◌^◌, ⊤, length, IfSome, IfNone};
ghost use Rattle.std.specs.Iterator.{YieldsFirst, item_count};
ghost use Rattle.giputils_bits.specs.Logic.{not_of};
ghost use Rattle.giputils_bits.specs.Ones.{true_places, HasNoneFrom, IsNextOne};
ghost use Rattle.giputils_bits.specs.Places.{bits_of};

use super::BitVec;
use std::alloc::{AllocError, Allocator};
use std::iter::FusedIterator;
use std::marker::Model;

/// An iterator over the false places of a vector, in order. It is seen as the list of those that it has left.
#[derive(Drop)]
pub struct Zeros<'a> {
    words: &'a [u64],
    // The least place that was not looked at, and the number of all.
    start: usize,
    end: usize,
}

impl<'a> Model for Zeros<'a> {
    ghost use Rattle.std.specs.Prelude.{ℕ, List};

    ghost Value = { List ℕ };

    ghost use Rattle.std.specs.Prelude.{◌≤◌, ◌*◌, ◌^◌, drop, length};
    ghost use Rattle.giputils_bits.specs.Logic.{not_of};
    ghost use Rattle.giputils_bits.specs.Ones.{true_places};
    ghost use Rattle.giputils_bits.specs.Places.{bits_of};

    ghost view = { λ s. true_places s.start (drop s.start (not_of (bits_of s.end s.words.now))) };

    ghost invariant = { λ s. (s.end ≤ 64 * length s.words.now) × (64 * length s.words.now ≤ 2 ^ 64) };
}

impl<A: Allocator> BitVec<A> {
    /// An iterator over the places of the false bits, in order.
    #[inline]
    pub fn iter_zeros(&self) -> Zeros<'_>
        ensures places { result ≡ true_places 0 (not_of self.now) }
        ensures fits { length self.now < 2 ^ 64 }
    {
        Zeros {
            words: self.words.as_slice(),
            start: 0,
            end: self.len(),
        }
    }

    /// The least place that is false, if one is.
    #[inline]
    pub fn first_zero(&self) -> Option<usize>
        ensures found { IfSome result (λ place. IsNextOne (not_of self.now) 0 place) }
        ensures none { IfNone result (HasNoneFrom (not_of self.now) 0) }
    {
        self.next_zero(0)
    }

    /// The least false place that is at least `start`, if there is one. There is none where `start` is not below
    /// [`BitVec::len`].
    #[inline]
    pub fn next_zero(&self, start: usize) -> Option<usize>
        ensures found { IfSome result (λ place. IsNextOne (not_of self.now) start place) }
        ensures none { IfNone result (HasNoneFrom (not_of self.now) start) }
        ensures fits { length self.now < 2 ^ 64 }
    {
        let end = self.len();
        false_place(self.words.as_slice(), start, end)
    }
}

// The least false place from `start` on, before `end`, if there is one.
#[inline]
fn false_place(words: &[u64], start: usize, end: usize) -> Option<usize>
    requires inside { end ≤ 64 * length words.now }
    requires fits { 64 * length words.now ≤ 2 ^ 64 }
    ensures found { IfSome result (λ place. IsNextOne (not_of (bits_of end words.now)) start place) }
    ensures below { IfSome result (λ place. place < end) }
    ensures none { IfNone result (HasNoneFrom (not_of (bits_of end words.now)) start) }
{
    if start >= end {
        return None;
    }
    let mut k = start / BitVec::WORD_SIZE;
    let mut word = !words[k] & u64::MAX << (start % BitVec::WORD_SIZE);
    while word == 0 {
        if k + 1 == words.len() {
            return None;
        }
        k += 1;
        word = !words[k];
    }
    let place = BitVec::WORD_SIZE * k + word.trailing_zeros() as usize;
    if place < end { Some(place) } else { None }
}

impl<'a> Iterator for Zeros<'a> {
    type Item = usize;

    ghost next_gives = { YieldsFirst (λ rest. rest) };

    ghost remaining = { item_count (λ rest. rest) };

    #[inline]
    fn next(&mut self) -> Option<usize> {
        let Some(place) = false_place(self.words, self.start, self.end) else {
            return None;
        };
        self.start = place + 1;
        Some(place)
    }
}

impl<'a> FusedIterator for Zeros<'a> {}

impl<'a> Clone for Zeros<'a> {
    ghost is_clone = { λ s r. r ≡ s };

    ghost is_infallible = { λ _. ⊤ };

    fn clone(&self) -> Result<Zeros<'a>, AllocError> {
        Ok(Zeros {
            words: self.words,
            start: self.start,
            end: self.end,
        })
    }
}
