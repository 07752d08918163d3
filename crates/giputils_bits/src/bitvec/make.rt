//! How a bit vector is made. Each of these makes one request for memory at most, and none for up to 64 bits.
ghost use Rattle.std.specs.Prelude.{◌≡◌, ◌+◌, ◌*◌, ◌<◌, ◌≤◌, ◌↔◌, [], true, false, length, replicate, IfOk, IfErr, OnErr, IsOk};
ghost use Rattle.std.specs.Iterator.{IsFinite};
ghost use Rattle.giputils_bits.specs.Bits.{digits_of, one_of};
ghost use Rattle.giputils_bits.specs.Error.{IsMemory};

use super::BitVec;
use super::error::BitVecError;
use super::storage::Storage;
use super::words::{filled_word, low_mask};
use rand_core::Rng;
use std::alloc::Allocator;

impl<A: Allocator> BitVec<A> {
    /// The empty vector. It takes no memory.
    #[inline]
    pub fn new(alloc: A) -> Self
        ensures { result ≡ [] }
    {
        BitVec {
            len: 0,
            words: Storage::of_word(alloc, 0),
        }
    }

    /// The empty vector, with room for `len` bits.
    ///
    /// # Errors
    /// `Memory` where there is to be room for more than 64 bits and memory is refused.
    pub fn with_capacity(alloc: A, len: usize) -> Result<Self, BitVecError>
        ensures ok { IfOk result (λ v. v ≡ []) }
        ensures inline { len ≤ 64 → IsOk result }
        ensures err { IfErr result IsMemory }
    {
        let mut bits = Self::new(alloc);
        bits.reserve(len)?;
        Ok(bits)
    }

    /// A vector of `64 * num_word` bits, drawn from `rng`. Of the bits nothing is claimed.
    ///
    /// # Errors
    /// `TooLong` where there would be more than `usize::MAX` bits; `Memory` where there are more than 64 and memory for
    /// them is refused. Nothing was drawn then.
    #[tactic(auto, using(crate::proofs::Kept::kept))]
    pub fn new_rand<R: Rng>(alloc: A, num_word: usize, rng: &mut R) -> Result<Self, BitVecError>
        ensures len { IfOk result (λ v. length v ≡ 64 * num_word) }
        ensures inline { num_word ≤ 1 → IsOk result }
        ensures too_long { (result ≡ Err BitVecError.TooLong) ↔ (usize.MAX < 64 * num_word) }
        ensures err { OnErr result (rng.new ≡ rng.old) }
    {
        if num_word > usize::MAX / BitVec::WORD_SIZE {
            return Err(BitVecError::TooLong);
        }
        if num_word == 0 {
            return Ok(Self::new(alloc));
        }
        let len = BitVec::WORD_SIZE * num_word;
        if num_word == 1 {
            let words = Storage::of_word(alloc, rng.next_u64());
            return Ok(BitVec { len, words });
        }
        let mut words = Vec::with_capacity(alloc, num_word)?;
        for _ in 0..num_word {
            words.push_reserved(rng.next_u64());
        }
        let words = Storage::of_words(words);
        Ok(BitVec { len, words })
    }

    /// `len` times `val`.
    ///
    /// # Errors
    /// `Memory` where there are more than 64 bits and memory for them is refused.
    pub fn from_elem(alloc: A, len: usize, val: bool) -> Result<Self, BitVecError>
        ensures ok { IfOk result (λ v. v ≡ replicate len val) }
        ensures inline { len ≤ 64 → IsOk result }
        ensures err { IfErr result IsMemory }
    {
        if len == 0 {
            return Ok(Self::new(alloc));
        }
        let last = (len - 1) / BitVec::WORD_SIZE;
        if last == 0 {
            let words = Storage::of_word(alloc, filled_word(val, len));
            return Ok(BitVec { len, words });
        }
        let mut words = vec![in alloc; filled_word(val, BitVec::WORD_SIZE); last + 1]?;
        words[last] = filled_word(val, len - BitVec::WORD_SIZE * last);
        let words = Storage::of_words(words);
        Ok(BitVec { len, words })
    }

    /// `len` times false.
    ///
    /// # Errors
    /// `Memory` where there are more than 64 bits and memory for them is refused.
    pub fn zero(alloc: A, len: usize) -> Result<Self, BitVecError>
        ensures ok { IfOk result (λ v. v ≡ replicate len false) }
        ensures inline { len ≤ 64 → IsOk result }
        ensures err { IfErr result IsMemory }
    {
        Self::from_elem(alloc, len, false)
    }

    /// `len` times true, where `len` is above 0.
    ///
    /// # Errors
    /// `Memory` where there are more than 64 bits and memory for them is refused.
    pub fn ones(alloc: A, len: usize) -> Result<Self, BitVecError>
        requires { 0 < len }
        ensures ok { IfOk result (λ v. v ≡ replicate len true) }
        ensures inline { len ≤ 64 → IsOk result }
        ensures err { IfErr result IsMemory }
    {
        Self::from_elem(alloc, len, true)
    }

    /// `len` bits, of which bit 0 alone is true, where `len` is above 0.
    ///
    /// # Errors
    /// `Memory` where there are more than 64 bits and memory for them is refused.
    pub fn one(alloc: A, len: usize) -> Result<Self, BitVecError>
        requires { 0 < len }
        ensures ok { IfOk result (λ v. v ≡ one_of len) }
        ensures inline { len ≤ 64 → IsOk result }
        ensures err { IfErr result IsMemory }
    {
        Self::from_usize(alloc, len, 1)
    }

    /// The `len` lowest binary digits of `v`, the lowest first. Digits past the 64th are false.
    ///
    /// # Errors
    /// `Memory` where there are more than 64 bits and memory for them is refused.
    pub fn from_usize(alloc: A, len: usize, v: usize) -> Result<Self, BitVecError>
        ensures ok { IfOk result (λ bits. bits ≡ digits_of len v) }
        ensures inline { len ≤ 64 → IsOk result }
        ensures err { IfErr result IsMemory }
    {
        if len == 0 {
            return Ok(Self::new(alloc));
        }
        let word = v as u64;
        if len <= BitVec::WORD_SIZE {
            let words = Storage::of_word(alloc, word & low_mask(len));
            return Ok(BitVec { len, words });
        }
        let mut words = vec![in alloc; 0; (len - 1) / BitVec::WORD_SIZE + 1]?;
        words[0] = word;
        let words = Storage::of_words(words);
        Ok(BitVec { len, words })
    }

    /// An equal vector.
    ///
    /// # Errors
    /// `Memory` where there are more than 64 bits and memory for them is refused.
    pub fn clone(&self) -> Result<Self, BitVecError>
    where
        A: Copy,
        ensures ok { IfOk result (λ v. v ≡ self.now) }
        ensures inline { length self.now ≤ 64 → IsOk result }
        ensures err { IfErr result IsMemory }
    {
        let words = self.words.try_clone()?;
        Ok(BitVec {
            len: self.len,
            words,
        })
    }
}
