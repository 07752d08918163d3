//! The true places of a bit vector, in order. Words without one are stepped over.
ghost use Rattle.std.specs.Prelude.{◌≡◌, ◌+◌, ◌<◌, ◌^◌, ⊤, true, false, length, slice_index_or, IfSome, IfNone};
ghost use Rattle.std.specs.Iterator.{YieldsFirst, item_count};
ghost use Rattle.giputils_bits.specs.Ones.{true_places, HasNoneFrom, IsNextOne};

use super::BitVec;
use std::alloc::{AllocError, Allocator};
use std::iter::FusedIterator;
use std::marker::Model;

/// An iterator over the true places of a vector, in order. It is seen as the list of those that it has left.
#[derive(Drop)]
pub struct Ones<'a> {
    words: &'a [u64],
    // The word in hand, without the places that were given, and its index.
    k: usize,
    word: u64,
}

impl<'a> Model for Ones<'a> {
    ghost use Rattle.std.specs.Prelude.{ℕ, List};

    ghost Value = { List ℕ };

    ghost use Rattle.std.specs.Prelude.{◌<◌, ◌≤◌, ◌*◌, ◌^◌, length};
    ghost use Rattle.giputils_bits.specs.Ones.{true_places};
    ghost use Rattle.giputils_bits.specs.Places.{bits_of, words_from};

    ghost view = { λ s. true_places 0 (bits_of (64 * length s.words.now) (words_from s.k s.word s.words.now)) };

    ghost invariant = { λ s. (s.k < length s.words.now) × (64 * length s.words.now ≤ 2 ^ 64) };
}

impl<A: Allocator> BitVec<A> {
    /// An iterator over the places of the true bits, in order.
    #[inline]
    pub fn iter_ones(&self) -> Ones<'_>
        ensures places { result ≡ true_places 0 self.now }
        ensures fits { length self.now < 2 ^ 64 }
    {
        // The length is a usize, and so is each place.
        let _ = self.len();
        let words = self.words.as_slice();
        let word = words[0];
        Ones { words, k: 0, word }
    }

    /// The least place that is true, if one is.
    #[inline]
    pub fn first_one(&self) -> Option<usize>
        ensures found { IfSome result (λ place. IsNextOne self.now 0 place) }
        ensures none { IfNone result (HasNoneFrom self.now 0) }
    {
        self.next_one(0)
    }

    /// The least true place that is at least `start`, if there is one. There is none where `start` is not below
    /// [`BitVec::len`].
    #[inline]
    pub fn next_one(&self, start: usize) -> Option<usize>
        ensures found { IfSome result (λ place. IsNextOne self.now start place) }
        ensures none { IfNone result (HasNoneFrom self.now start) }
        ensures fits { length self.now < 2 ^ 64 }
    {
        // The length is a usize, and so is the place behind each bit.
        let _ = self.len();
        if start >= self.len {
            return None;
        }
        let words = self.words.as_slice();
        let k = start / BitVec::WORD_SIZE;
        let word = words[k] & u64::MAX << (start % BitVec::WORD_SIZE);
        let mut ones = Ones { words, k, word };
        ones.next()
    }

    /// The greatest place that is true, if one is.
    pub fn last_one(&self) -> Option<usize>
        ensures found { IfSome result (λ place. slice_index_or self.now place false ≡ true) }
        ensures last { IfSome result (λ place. HasNoneFrom self.now (place + 1)) }
        ensures none { IfNone result (HasNoneFrom self.now 0) }
    {
        // The length is a usize, and so is each place.
        let _ = self.len();
        let words = self.words.as_slice();
        let mut k = words.len();
        while k > 0 {
            k -= 1;
            let word = words[k];
            if word != 0 {
                let digit = BitVec::WORD_SIZE - 1 - word.leading_zeros() as usize;
                return Some(BitVec::WORD_SIZE * k + digit);
            }
        }
        None
    }
}

impl<'a> Iterator for Ones<'a> {
    type Item = usize;

    ghost next_gives = { YieldsFirst (λ rest. rest) };

    ghost remaining = { item_count (λ rest. rest) };

    #[inline]
    fn next(&mut self) -> Option<usize> {
        let words = self.words;
        let mut k = self.k;
        let mut word = self.word;
        while word == 0 {
            if k + 1 == words.len() {
                return None;
            }
            k += 1;
            word = words[k];
        }
        let digit = word.trailing_zeros() as usize;
        self.k = k;
        // Without its lowest digit that is 1.
        self.word = word & (word - 1);
        Some(BitVec::WORD_SIZE * k + digit)
    }
}

impl<'a> FusedIterator for Ones<'a> {}

impl<'a> Clone for Ones<'a> {
    ghost is_clone = { λ s r. r ≡ s };

    ghost is_infallible = { λ _. ⊤ };

    fn clone(&self) -> Result<Ones<'a>, AllocError> {
        Ok(Ones {
            words: self.words,
            k: self.k,
            word: self.word,
        })
    }
}
