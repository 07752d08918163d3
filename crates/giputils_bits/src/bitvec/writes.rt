//! A bit vector written in place. None of these calls takes memory.
ghost use Rattle.std.specs.Prelude.{◌≡◌, ◌<◌, false, length, not, replicate, slice_index_or, slice_set};
ghost use Rattle.giputils_bits.specs.Bits.{with_word, word_count};
ghost use Rattle.giputils_bits.specs.Logic.{not_of};

use super::BitVec;
use super::words::{filled_word, flipped_bit, low_mask, with_bit};
use std::alloc::Allocator;

impl<A: Allocator> BitVec<A> {
    /// Sets bit `index`, which is below [`BitVec::len`].
    #[inline]
    pub fn set(&mut self, index: usize, val: bool)
        requires { index < length self.old }
        ensures { self.new ≡ slice_set self.old index val }
    {
        let k = index / BitVec::WORD_SIZE;
        let word = self.words.as_slice()[k];
        self.words
            .put(k, with_bit(word, index % BitVec::WORD_SIZE, val));
    }

    /// Sets bit `index`, which is below [`BitVec::len`], and answers what it was.
    #[inline]
    pub fn put(&mut self, index: usize, val: bool) -> bool
        requires { index < length self.old }
        ensures old { result ≡ slice_index_or self.old index false }
        ensures after { self.new ≡ slice_set self.old index val }
    {
        let old = self.get(index);
        self.set(index, val);
        old
    }

    /// Turns bit `index` round, which is below [`BitVec::len`].
    #[inline]
    pub fn flip(&mut self, index: usize)
        requires { index < length self.old }
        ensures { self.new ≡ slice_set self.old index (not (slice_index_or self.old index false)) }
    {
        let k = index / BitVec::WORD_SIZE;
        let word = self.words.as_slice()[k];
        self.words
            .put(k, flipped_bit(word, index % BitVec::WORD_SIZE));
    }

    /// Puts the binary digits of `word`, the lowest first, in the place of word `k`, which is below
    /// [`BitVec::word_len`]. Digits past the last bit are left out.
    #[inline]
    pub fn set_word(&mut self, k: usize, word: u64)
        requires { k < word_count (length self.old) }
        ensures { self.new ≡ with_word k word self.old }
    {
        let left = self.len - BitVec::WORD_SIZE * k;
        let digits = low_mask(left.min(BitVec::WORD_SIZE));
        self.words.put(k, word & digits);
    }

    /// Sets each bit.
    pub fn fill(&mut self, val: bool)
        ensures { self.new ≡ replicate (length self.old) val }
    {
        if self.len == 0 {
            return;
        }
        let last = (self.len - 1) / BitVec::WORD_SIZE;
        self.words.fill(filled_word(val, BitVec::WORD_SIZE));
        let rest = self.len - BitVec::WORD_SIZE * last;
        self.words.put(last, filled_word(val, rest));
    }

    /// Turns each bit round.
    pub fn negate(&mut self)
        ensures { self.new ≡ not_of self.old }
    {
        if self.len == 0 {
            return;
        }
        let last = (self.len - 1) / BitVec::WORD_SIZE;
        let digits = low_mask(self.len - BitVec::WORD_SIZE * last);
        let word = !self.words.as_slice()[last] & digits;
        self.words.negate();
        self.words.put(last, word);
    }

    /// Takes the bits of a vector of the same length ([`BitVec::len`]).
    pub fn copy_from<B: Allocator>(&mut self, other: &BitVec<B>)
        requires { length self.old ≡ length other.now }
        ensures { self.new ≡ other.now }
    {
        self.words.copy_from(other.words.as_slice());
    }
}
