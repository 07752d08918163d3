//! What a bit vector answers.
ghost use Rattle.std.specs.Prelude.{◌≡◌, ◌≢◌, ◌<◌, ◌≤◌, ◌-◌, ◌*◌, ◌/◌, ◌^◌, ◌↔◌, [], ◌∷◌, true, false, length, take, replicate, slice_index, slice_index_or, EachIndex, IsTrue, MatchOption};
ghost use Rattle.giputils_bits.specs.Bits.{value_of, word_count, words_of, one_of};
ghost use Rattle.giputils_bits.specs.Logic.{not_of};
ghost use Rattle.giputils_bits.specs.Ones.{HasOne, true_count};

use super::BitVec;
use super::words::{bit_at, low_mask};
use std::alloc::Allocator;
use std::ops::Index;

impl<A: Allocator> BitVec<A> {
    /// The number of bits.
    #[inline]
    #[tactic(auto, using(crate::proofs::Kept::kept))]
    pub fn len(&self) -> usize
        ensures { result ≡ length self.now }
    {
        self.len
    }

    /// Whether there is no bit.
    #[inline]
    #[tactic(auto, using(crate::proofs::Kept::kept))]
    pub fn is_empty(&self) -> bool
        ensures { IsTrue result ↔ (length self.now ≡ 0) }
    {
        self.len == 0
    }

    /// The number of words: the length divided by 64, rounded up.
    #[inline]
    pub fn word_len(&self) -> usize
        ensures words { result ≡ word_count (length self.now) }
        ensures fits { length self.now < 2 ^ 64 }
    {
        let len = self.len();
        len / BitVec::WORD_SIZE + usize::from(len % BitVec::WORD_SIZE != 0)
    }

    /// The words, in order, with zeros past the last bit. The empty vector has none.
    #[inline]
    pub fn words(&self) -> &[u64]
        ensures words { result.now ≡ words_of self.now }
        ensures fits { length self.now < 2 ^ 64 }
    {
        let words = self.words.as_slice();
        &words[..self.word_len()]
    }

    /// The first word, or 0 if there is none: the number that the first 64 bits are.
    #[inline]
    pub fn to_usize(&self) -> usize
        ensures { result ≡ value_of (take 64 self.now) }
    {
        self.words.as_slice()[0] as usize
    }

    /// Bit `index`, which is below [`BitVec::len`].
    #[inline]
    pub fn get(&self, index: usize) -> bool
        requires { index < length self.now }
        ensures { result ≡ slice_index_or self.now index false }
    {
        bit_at(self.words.as_slice(), index)
    }

    /// The number of true bits.
    pub fn count_ones(&self) -> usize
        ensures { result ≡ true_count self.now }
    {
        let words = self.words();
        let mut count = 0;
        for k in 0..words.len() {
            count += words[k].count_ones() as usize;
        }
        count
    }

    /// The number of false bits.
    #[inline]
    pub fn count_zeros(&self) -> usize
        ensures { result ≡ true_count (not_of self.now) }
    {
        self.len() - self.count_ones()
    }

    /// Whether a bit is true: never in the empty vector.
    #[inline]
    pub fn any(&self) -> bool
        ensures { IsTrue result ↔ HasOne self.now }
    {
        !self.none()
    }

    /// Whether each bit is true, as in the empty vector.
    pub fn all(&self) -> bool
        ensures { IsTrue result ↔ (self.now ≡ replicate (length self.now) true) }
    {
        if self.len == 0 {
            return true;
        }
        let words = self.words();
        let last = words.len() - 1;
        words[last] == low_mask(self.len - BitVec::WORD_SIZE * last)
            && all_equal(&words[..last], u64::MAX)
    }

    /// Whether no bit is true, as in the empty vector.
    pub fn none(&self) -> bool
        ensures { IsTrue result ↔ (self.now ≡ replicate (length self.now) false) }
    {
        all_equal(self.words(), 0)
    }

    /// Whether each bit is false, as in the empty vector: the same as [`BitVec::none`].
    #[inline]
    pub fn is_zero(&self) -> bool
        ensures { IsTrue result ↔ (self.now ≡ replicate (length self.now) false) }
    {
        self.none()
    }

    /// Whether bit 0 alone is true: never in the empty vector.
    pub fn is_one(&self) -> bool
        ensures { IsTrue result ↔ (self.now ≡ one_of (length self.now)) }
    {
        let words = self.words.as_slice();
        words[0] == 1 && all_equal(&words[1..], 0)
    }

    /// Whether each bit is true, as in the empty vector: the same as [`BitVec::all`].
    #[inline]
    pub fn is_ones(&self) -> bool
        ensures { IsTrue result ↔ (self.now ≡ replicate (length self.now) true) }
    {
        self.all()
    }

    /// The bit of a vector that has one and no more; [`BitVec::try_bool`] tests that.
    #[inline]
    pub fn bool(&self) -> bool
        requires { length self.now ≡ 1 }
        ensures { self.now ≡ result ∷ [] }
    {
        self.get(0)
    }

    /// The bit, if the vector has one and no more.
    #[inline]
    #[tactic(auto, using(crate::proofs::Kept::kept))]
    pub fn try_bool(&self) -> Option<bool>
        ensures { MatchOption result (length self.now ≢ 1) (λ bit. self.now ≡ bit ∷ []) }
    {
        if self.len == 1 {
            Some(self.bool())
        } else {
            None
        }
    }
}

/// The bit at an index below [`BitVec::len`].
impl<A: Allocator> Index<usize> for BitVec<A> {
    type Output = bool;

    ghost can_index = { λ v i. i < length v };

    ghost index_gives = { λ v i bit. bit ≡ slice_index_or v i false };

    #[inline]
    fn index(&self, index: usize) -> &bool {
        if self.get(index) { &true } else { &false }
    }
}

// Whether each of the words is `word`.
#[inline]
fn all_equal(words: &[u64], word: u64) -> bool
    ensures { IsTrue result ↔ EachIndex words.now (λ k. slice_index words.now k ≡ word) }
{
    words.iter().all(|other| *other == word)
}
