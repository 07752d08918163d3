//! How a bit vector grows and is emptied. What refuses stands before what writes.

// How it is proved: `for` over `U: IntoIterator` with early returns. Use std's `ExtendsWithItems`,
// with the bound `(goal.iterator-loop-bit g).remaining`. Which items were taken follows from
// `YieldsList .. .runs`; name the steps, since they cannot be inferred (`proofs/Taken`).

ghost use Rattle.std.specs.Prelude.{◌≡◌, ◌+◌, ◌-◌, ◌*◌, ◌/◌, ◌%◌, ◌<◌, ◌≤◌, ◌↔◌, [], ◌∷◌, ◌++◌, length, replicate, take, IfOk, IfErr, OnErr, OnOk, IsOk, MatchOption};
ghost use Rattle.std.specs.Iterator.{ExtendsWithItems};
ghost use Rattle.giputils_bits.specs.Bits.{digits_of, word_count};
ghost use Rattle.giputils_bits.specs.Error.{IsMemory};
ghost use Rattle.giputils_bits.specs.Extended.{CanDrain, CollectsItems, Extends, ItemsFit, StopsBefore};
ghost use Rattle.giputils_bits.specs.Places.{bits_of, IsPacked, HasRoom, AppendsWord};

use super::BitVec;
use super::error::BitVecError;
use super::storage::Storage;
use super::words::{digit, filled_word, low_mask, with_bit, word_count};
use std::alloc::{AllocError, Allocator};

impl<A: Allocator> BitVec<A> {
    /// Leaves no bit. Memory that is there is kept for the next growth: to free it, assign [`BitVec::new`].
    #[inline]
    pub fn clear(&mut self)
        ensures { self.new ≡ [] }
    {
        self.len = 0;
        self.words.reset();
    }

    /// Leaves the first `len` bits, or all where there are no more. Memory is kept for the next growth.
    pub fn truncate(&mut self, len: usize)
        ensures { self.new ≡ take len self.old }
    {
        if len >= self.len {
            return;
        }
        if len == 0 {
            self.clear();
            return;
        }
        let last = (len - 1) / BitVec::WORD_SIZE;
        self.words.truncate(last + 1);
        let word = self.words.as_slice()[last] & low_mask(len - BitVec::WORD_SIZE * last);
        self.words.put(last, word);
        self.len = len;
    }

    /// Leaves the first `len` bits, or appends `val` until there are `len`.
    ///
    /// # Errors
    /// `Memory` where the vector grows above 64 bits, by a word at least, and the one request for memory is refused.
    /// Nothing changes then.
    pub fn resize(&mut self, len: usize, val: bool) -> Result<(), BitVecError>
        ensures ok { OnOk result (self.new ≡ take len self.old ++ replicate (len - length self.old) val) }
        ensures inline { len ≤ 64 → IsOk result }
        ensures shorter { len ≤ length self.old → IsOk result }
        ensures full { OnErr result (word_count (length self.old) < word_count len) }
        ensures err { OnErr result (self.new ≡ self.old) }
        ensures memory { IfErr result IsMemory }
    {
        if len <= self.len {
            self.truncate(len);
            return Ok(());
        }
        let last = (len - 1) / BitVec::WORD_SIZE;
        let word = filled_word(val, BitVec::WORD_SIZE);
        self.words.resize(last + 1, word)?;
        let k = self.len / BitVec::WORD_SIZE;
        let joined = self.words.as_slice()[k] | word << (self.len % BitVec::WORD_SIZE);
        self.words.put(k, joined);
        let end = self.words.as_slice()[last] & low_mask(len - BitVec::WORD_SIZE * last);
        self.words.put(last, end);
        self.len = len;
        Ok(())
    }

    /// Takes the last bit away, if there is one, and answers it. Memory is kept for the next growth.
    pub fn pop(&mut self) -> Option<bool>
        ensures { MatchOption result ((self.old ≡ []) × (self.new ≡ [])) (λ bit. self.old ≡ self.new ++ bit ∷ []) }
    {
        if self.len == 0 {
            return None;
        }
        let last = self.len - 1;
        let bit = self.get(last);
        self.truncate(last);
        Some(bit)
    }

    /// Appends a bit.
    ///
    /// # Errors
    /// `TooLong` at the length `usize::MAX`; `Memory` where the last word is full and memory for the next is refused.
    /// Nothing changes then.
    #[inline]
    #[tactic(auto, using(crate::proofs::Kept::kept))]
    pub fn push(&mut self, bit: bool) -> Result<(), BitVecError>
        ensures ok { OnOk result (self.new ≡ self.old ++ bit ∷ []) }
        ensures inline { length self.old < 64 → IsOk result }
        ensures memory { result ≡ Err BitVecError.Memory → (0 < length self.old) × (length self.old % 64 ≡ 0) }
        ensures too_long { (result ≡ Err BitVecError.TooLong) ↔ (length self.old ≡ usize.MAX) }
        ensures err { OnErr result (self.new ≡ self.old) }
    {
        if self.len == usize::MAX {
            return Err(BitVecError::TooLong);
        }
        make_room(&mut self.words, self.len)?;
        let digit = digit(self.len % BitVec::WORD_SIZE, bit);
        self.words.join_at(self.len / BitVec::WORD_SIZE, digit);
        self.len += 1;
        Ok(())
    }

    /// Appends the 64 binary digits of `word`, the lowest first.
    ///
    /// # Errors
    /// `TooLong` where the length would be above `usize::MAX`; `Memory` where memory for a word more is refused.
    /// Nothing changes then.
    #[inline]
    #[tactic(auto, using(crate::proofs::Kept::kept))]
    pub fn push_word(&mut self, word: u64) -> Result<(), BitVecError>
        ensures ok { OnOk result (self.new ≡ self.old ++ digits_of 64 word) }
        ensures inline { self.old ≡ [] → IsOk result }
        ensures too_long { (result ≡ Err BitVecError.TooLong) ↔ (usize.MAX < length self.old + 64) }
        ensures err { OnErr result (self.new ≡ self.old) }
    {
        if self.len > usize::MAX - BitVec::WORD_SIZE {
            return Err(BitVecError::TooLong);
        }
        append_word(&mut self.words, self.len, word)?;
        self.len += BitVec::WORD_SIZE;
        Ok(())
    }

    /// Makes room for `additional` bits more, by one request for memory at most. None is made for up to 64 bits in all,
    /// or where the last word or memory that was kept has room for them. The bits stay as they are.
    ///
    /// # Errors
    /// `TooLong` where the length would be above `usize::MAX`; `Memory` where there would be more than 64 bits, which take
    /// a word more, and the one request for memory is refused.
    pub fn reserve(&mut self, additional: usize) -> Result<(), BitVecError>
        ensures after { self.new ≡ self.old }
        ensures inline { length self.old + additional ≤ 64 → IsOk result }
        ensures memory { result ≡ Err BitVecError.Memory
            → word_count (length self.old) < word_count (length self.old + additional) }
        ensures too_long { (result ≡ Err BitVecError.TooLong) ↔ (usize.MAX < length self.old + additional) }
    {
        let Some(len) = self.len.checked_add(additional) else {
            return Err(BitVecError::TooLong);
        };
        self.words.reserve(word_count(len))?;
        Ok(())
    }

    /// Appends the bits of another vector.
    ///
    /// # Errors
    /// `TooLong` where the length would be above `usize::MAX`; `Memory` where the vector grows above 64 bits, by a word at
    /// least, and the one request for memory is refused. Nothing changes then.
    pub fn append<B: Allocator>(&mut self, other: &BitVec<B>) -> Result<(), BitVecError>
        ensures ok { OnOk result (self.new ≡ self.old ++ other.now) }
        ensures inline { length self.old + length other.now ≤ 64 → IsOk result }
        ensures memory { result ≡ Err BitVecError.Memory
            → word_count (length self.old) < word_count (length self.old + length other.now) }
        ensures too_long { (result ≡ Err BitVecError.TooLong) ↔ (usize.MAX < length self.old + length other.now) }
        ensures err { OnErr result (self.new ≡ self.old) }
    {
        let start = self.len;
        let Some(len) = start.checked_add(other.len) else {
            return Err(BitVecError::TooLong);
        };
        if len == start {
            return Ok(());
        }
        self.resize(len, false)?;
        self.words.overlay(start, other.words.as_slice());
        Ok(())
    }

    /// Appends the items of an iterator that ends.
    ///
    /// # Errors
    /// `TooLong` at the item past the length `usize::MAX`; `Memory` where memory for a word more is refused, and the
    /// vector then ends with a full word. The items before the refused one stand; that one was taken, and is not kept.
    #[tactic(auto, using(crate::proofs::Kept::kept))]
    pub fn extend<U: IntoIterator<Item = bool>>(&mut self, iter: U) -> Result<(), BitVecError>
        requires { CanDrain U.into_iter_gives U.IntoIter.can_next U.IntoIter.remaining iter }
        ensures ran { ExtendsWithItems U.into_iter_gives U.IntoIter.next_gives Extends iter self.old self.new result }
        ensures err { OnErr result (StopsBefore U.into_iter_gives U.IntoIter.next_gives iter self.old self.new) }
        ensures inline { ItemsFit U.into_iter_gives U.IntoIter.remaining iter (λ n. length self.old + n ≤ 64)
            → IsOk result }
        ensures memory { result ≡ Err BitVecError.Memory → (0 < length self.new) × (length self.new % 64 ≡ 0) }
        ensures too_long { result ≡ Err BitVecError.TooLong → length self.new ≡ usize.MAX }
        ensures short { ItemsFit U.into_iter_gives U.IntoIter.remaining iter (λ n. length self.old + n ≤ usize.MAX)
            → IfErr result IsMemory }
    {
        let (len, done) = append_items(&mut self.words, self.len, iter);
        self.len = len;
        done
    }

    /// The items of an iterator that ends, in order.
    ///
    /// # Errors
    /// As those of [`BitVec::extend`] on the empty vector: `Memory` alone where the iterator's bound on its items is at
    /// most `usize::MAX`. Where the bound is above, or there is none, `TooLong` comes at the item past that length.
    pub fn from<U: IntoIterator<Item = bool>>(alloc: A, iter: U) -> Result<Self, BitVecError>
        requires { CanDrain U.into_iter_gives U.IntoIter.can_next U.IntoIter.remaining iter }
        ensures ran { IfOk result (λ bits. CollectsItems U.into_iter_gives U.IntoIter.next_gives iter bits) }
        ensures inline { ItemsFit U.into_iter_gives U.IntoIter.remaining iter (λ n. n ≤ 64) → IsOk result }
        ensures short { ItemsFit U.into_iter_gives U.IntoIter.remaining iter (λ n. n ≤ usize.MAX)
            → IfErr result IsMemory }
    {
        let mut bits = Self::new(alloc);
        bits.extend(iter)?;
        Ok(bits)
    }
}

// Makes room for one place after the first `len`.
#[inline]
fn make_room<A: Allocator>(words: &mut Storage<A>, len: usize) -> Result<(), AllocError>
    requires { IsPacked len words.old }
    ensures ok { OnOk result (HasRoom len words.old words.new) }
    ensures full { OnErr result ((0 < len) × (len % 64 ≡ 0)) }
    ensures err { OnErr result (words.new ≡ words.old) }
{
    if len % BitVec::WORD_SIZE == 0 && len > 0 {
        words.push(0)?;
    }
    Ok(())
}

// Appends the digits of a word to the first `len` places.
#[inline]
fn append_word<A: Allocator>(
    words: &mut Storage<A>,
    len: usize,
    word: u64,
) -> Result<(), AllocError>
    requires { IsPacked len words.old }
    ensures ok { OnOk result (AppendsWord len words.old words.new word) }
    ensures inline { len ≡ 0 → IsOk result }
    ensures err { OnErr result (words.new ≡ words.old) }
{
    let shift = len % BitVec::WORD_SIZE;
    if len == 0 {
        words.put(0, word);
    } else if shift == 0 {
        words.push(word)?;
    } else {
        words.push(word >> (BitVec::WORD_SIZE - shift))?;
        let last = len / BitVec::WORD_SIZE;
        let joined = words.as_slice()[last] | word << shift;
        words.put(last, joined);
    }
    Ok(())
}

// Appends the items to the first `len` places, and answers how many places there are then. Items are gathered in a
// word, and written as a word.
fn append_items<A: Allocator, U: IntoIterator<Item = bool>>(
    words: &mut Storage<A>,
    len: usize,
    iter: U,
) -> (usize, Result<(), BitVecError>)
    requires packed { IsPacked len words.old }
    requires ends { CanDrain U.into_iter_gives U.IntoIter.can_next U.IntoIter.remaining iter }
    ensures packed { IsPacked result.0 words.new }
    ensures ran { ExtendsWithItems U.into_iter_gives U.IntoIter.next_gives Extends iter
        (bits_of len words.old) (bits_of result.0 words.new) result.1 }
    ensures err { OnErr result.1 (StopsBefore U.into_iter_gives U.IntoIter.next_gives iter
        (bits_of len words.old) (bits_of result.0 words.new)) }
    ensures inline { ItemsFit U.into_iter_gives U.IntoIter.remaining iter (λ n. len + n ≤ 64) → IsOk result.1 }
    ensures memory { result.1 ≡ Err BitVecError.Memory → (0 < result.0) × (result.0 % 64 ≡ 0) }
    ensures too_long { result.1 ≡ Err BitVecError.TooLong → result.0 ≡ usize.MAX }
    ensures short { ItemsFit U.into_iter_gives U.IntoIter.remaining iter (λ n. len + n ≤ usize.MAX)
        → IfErr result.1 IsMemory }
{
    let items = iter.into_iter();
    // A hint may be too high: where it is refused, memory may still do.
    let _hinted = words.reserve(word_count(len.saturating_add(items.size_hint().0)));
    let mut end = len;
    let mut last = words.len() - 1;
    let mut word = words.as_slice()[last];
    for bit in items {
        if end == usize::MAX {
            words.put(last, word);
            return (end, Err(BitVecError::TooLong));
        }
        if end % BitVec::WORD_SIZE == 0 && end > 0 {
            words.put(last, word);
            if words.push(0).is_err() {
                return (end, Err(BitVecError::Memory));
            }
            last += 1;
            word = 0;
        }
        word = with_bit(word, end % BitVec::WORD_SIZE, bit);
        end += 1;
    }
    words.put(last, word);
    (end, Ok(()))
}
