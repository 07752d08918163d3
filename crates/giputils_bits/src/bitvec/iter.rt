//! The iterators of a bit vector. Each is seen as the list of the bits that it has left.

// How it is proved: an own iterator by `YieldsFirst (λ rest. rest)`, `YieldsLast` and `item_count`
// lets chains of callers close (`eq`, `rev`, `count`, `all`). If it keeps a count, state that in
// the invariant (`s.left ≡ length (live_slots s.index s.slots.now)`), so that `len`, `size_hint`
// and `next` close (giputils_index `src/allocator/live.rt`).
// How it is proved: a sum over an own iterator has the invariant `l.count + length l.bit-iterator <
// 2 ^ 32`, beside the printed `can_next` and `is_finite`.

ghost use Rattle.std.specs.Prelude.{◌≡◌, ◌<◌, ◌^◌, ⊤, IfSome, Some, length};
ghost use Rattle.std.specs.Iterator.{YieldsFirst, YieldsLast, UpTo, at_most, item_count};
ghost use Rattle.std.specs.Iterator.SizeHint.{IsWithinCount};

use super::BitVec;
use super::storage::Storage;
use super::words::bit_at;
use std::alloc::{AllocError, Allocator, Global};
use std::iter::FusedIterator;
use std::marker::Model;

/// An iterator over the bits of a vector, in order.
#[derive(Drop)]
pub struct Iter<'a> {
    words: &'a [u64],
    start: usize,
    end: usize,
}

impl<'a> Model for Iter<'a> {
    ghost use Rattle.std.specs.Prelude.{List, Bool};

    ghost Value = { List Bool };

    ghost use Rattle.std.specs.Prelude.{◌≤◌, ◌*◌, ◌-◌, length};
    ghost use Rattle.giputils_bits.specs.Places.{places};

    ghost view = { λ s. places s.words.now s.start (s.end - s.start) };

    ghost invariant = { λ s. (s.start ≤ s.end) × (s.end ≤ 64 * length s.words.now) };
}

impl<A: Allocator> BitVec<A> {
    /// An iterator over the bits, in order.
    #[inline]
    pub fn iter(&self) -> Iter<'_>
        ensures items { result ≡ self.now }
        ensures fits { length self.now < 2 ^ 64 }
    {
        Iter {
            words: self.words.as_slice(),
            start: 0,
            end: self.len(),
        }
    }
}

impl<'a> Iterator for Iter<'a> {
    type Item = bool;

    ghost next_gives = { YieldsFirst (λ rest. rest) };

    ghost remaining = { item_count (λ rest. rest) };

    #[inline]
    #[tactic(auto, using(crate::proofs::Kept::kept))]
    fn next(&mut self) -> Option<bool> {
        if self.start == self.end {
            return None;
        }
        let bit = bit_at(self.words, self.start);
        self.start += 1;
        Some(bit)
    }

    #[inline]
    fn size_hint(&self) -> (usize, Option<usize>)
        ensures lower { IsWithinCount result.0 (at_most (length self.now)) }
        ensures upper { IfSome result.1 (UpTo (at_most (length self.now))) }
        ensures exact { (result.0 ≡ length self.now) × (result.1 ≡ Some (length self.now)) }
    {
        let len = self.len();
        (len, Some(len))
    }
}

impl<'a> DoubleEndedIterator for Iter<'a> {
    ghost next_back_gives = { YieldsLast (λ rest. rest) };

    #[inline]
    #[tactic(auto, using(crate::proofs::Kept::kept))]
    fn next_back(&mut self) -> Option<bool> {
        if self.start == self.end {
            return None;
        }
        self.end -= 1;
        Some(bit_at(self.words, self.end))
    }
}

impl<'a> ExactSizeIterator for Iter<'a> {
    #[inline]
    #[tactic(auto, using(crate::proofs::Kept::kept))]
    fn len(&self) -> usize {
        self.end - self.start
    }
}

impl<'a> FusedIterator for Iter<'a> {}

impl<'a> Clone for Iter<'a> {
    ghost is_clone = { λ s r. r ≡ s };

    ghost is_infallible = { λ _. ⊤ };

    fn clone(&self) -> Result<Iter<'a>, AllocError> {
        Ok(Iter {
            words: self.words,
            start: self.start,
            end: self.end,
        })
    }
}

/// An iterator that owns the vector whose bits it gives, in order.
#[derive(Drop)]
pub struct IntoIter<A: Allocator = Global> {
    words: Storage<A>,
    start: usize,
    end: usize,
}

impl<A: Allocator> Model for IntoIter<A> {
    ghost use Rattle.std.specs.Prelude.{List, Bool};

    ghost Value = { List Bool };

    ghost use Rattle.std.specs.Prelude.{◌≤◌, ◌*◌, ◌-◌, length};
    ghost use Rattle.giputils_bits.specs.Places.{places};

    ghost view = { λ s. places s.words s.start (s.end - s.start) };

    ghost invariant = { λ s. (s.start ≤ s.end) × (s.end ≤ 64 * length s.words) };
}

impl<A: Allocator> Iterator for IntoIter<A> {
    type Item = bool;

    ghost next_gives = { YieldsFirst (λ rest. rest) };

    ghost remaining = { item_count (λ rest. rest) };

    #[inline]
    #[tactic(auto, using(crate::proofs::Kept::kept))]
    fn next(&mut self) -> Option<bool> {
        if self.start == self.end {
            return None;
        }
        let bit = bit_at(self.words.as_slice(), self.start);
        self.start += 1;
        Some(bit)
    }

    #[inline]
    fn size_hint(&self) -> (usize, Option<usize>)
        ensures lower { IsWithinCount result.0 (at_most (length self.now)) }
        ensures upper { IfSome result.1 (UpTo (at_most (length self.now))) }
        ensures exact { (result.0 ≡ length self.now) × (result.1 ≡ Some (length self.now)) }
    {
        let len = self.len();
        (len, Some(len))
    }
}

impl<A: Allocator> DoubleEndedIterator for IntoIter<A> {
    ghost next_back_gives = { YieldsLast (λ rest. rest) };

    #[inline]
    #[tactic(auto, using(crate::proofs::Kept::kept))]
    fn next_back(&mut self) -> Option<bool> {
        if self.start == self.end {
            return None;
        }
        self.end -= 1;
        Some(bit_at(self.words.as_slice(), self.end))
    }
}

impl<A: Allocator> ExactSizeIterator for IntoIter<A> {
    #[inline]
    #[tactic(auto, using(crate::proofs::Kept::kept))]
    fn len(&self) -> usize {
        self.end - self.start
    }
}

impl<A: Allocator> FusedIterator for IntoIter<A> {}

impl<'a, A: Allocator> IntoIterator for &'a BitVec<A> {
    type Item = bool;

    type IntoIter = Iter<'a>;

    ghost into_iter_gives = { λ bits it. it ≡ bits.now };

    #[inline]
    fn into_iter(self) -> Iter<'a> {
        self.iter()
    }
}

impl<A: Allocator> IntoIterator for BitVec<A> {
    type Item = bool;

    type IntoIter = IntoIter<A>;

    ghost into_iter_gives = { λ bits it. it ≡ bits };

    #[inline]
    fn into_iter(self) -> IntoIter<A> {
        let BitVec { len, words } = self;
        IntoIter {
            words,
            start: 0,
            end: len,
        }
    }
}
