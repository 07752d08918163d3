//! The words of a bit vector: one in the value itself, or several in a `Gvec`.

// How it is proved: the value of a storage is the list of its words, so its functions close, and all code that uses it
// is about lists of words. To show that a word is word k, compare digits (`word_of_is`, `proofs/Words`).

ghost use Rattle.std.specs.Prelude.{◌≡◌, ◌+◌, ◌-◌, ◌*◌, ◌/◌, ◌<◌, ◌≤◌, [], ◌∷◌, ◌++◌, bit_or, length, map, replicate, slice_index, slice_set, take, OnErr, OnOk, IfOk, IsOk};
ghost use Rattle.std.specs.Int.{bit_not, w64};
ghost use Rattle.giputils_bits.specs.Places.{common_digits, MovesDown, MovesUp, Overlays, Rewrites, SetsRange};

use super::words::{
    WordOp, conjoin_words, join_words, negate_words, overlay_words, set_range, shift_down, shift_up,
};
use giputils_vec::gvec::Gvec;
use std::alloc::{AllocError, Allocator};
use std::marker::Model;
use std::slice;

// A list of words that is never empty. A single word stands in `inline`, and `heap` is empty then; several stand in
// `heap`, and `inline` says nothing.
#[derive(Drop)]
pub(crate) struct Storage<A: Allocator> {
    inline: u64,
    heap: Gvec<u64, A>,
}

impl<A: Allocator> Model for Storage<A> {
    ghost use Rattle.std.specs.Prelude.{ℕ, List};

    ghost Value = { List ℕ };

    ghost use Rattle.giputils_bits.specs.Places.{storage_words};

    ghost view = { λ s. storage_words s.inline s.heap };
}

impl<A: Allocator> Storage<A> {
    // One word. It takes no memory.
    #[inline]
    pub(crate) fn of_word(alloc: A, word: u64) -> Self
        ensures { result ≡ word ∷ [] }
    {
        Storage {
            inline: word,
            heap: Gvec::new(alloc),
        }
    }

    // The words of a vector that has one at least.
    #[inline]
    pub(crate) fn of_words(words: Vec<u64, A>) -> Self
        requires { 0 < length words.items }
        ensures { result ≡ words.items }
    {
        Storage {
            inline: 0,
            heap: Gvec::from(words),
        }
    }

    // The number of words.
    #[inline]
    pub(crate) fn len(&self) -> usize
        ensures { result ≡ length self.now }
    {
        self.as_slice().len()
    }

    // The words, in order.
    #[inline]
    pub(crate) fn as_slice(&self) -> &[u64]
        ensures { result.now ≡ self.now }
    {
        let words: &[u64] = &self.heap;
        if words.is_empty() {
            slice::from_ref(&self.inline)
        } else {
            words
        }
    }

    // Puts a word in the place of word `k`.
    #[inline]
    pub(crate) fn put(&mut self, k: usize, word: u64)
        requires { k < length self.old }
        ensures { self.new ≡ slice_set self.old k word }
    {
        if self.heap.is_empty() {
            self.inline = word;
        } else {
            self.heap[k] = word;
        }
    }

    // Joins word `k` with another.
    #[inline]
    pub(crate) fn join_at(&mut self, k: usize, word: u64)
        requires { k < length self.old }
        ensures { self.new ≡ slice_set self.old k (bit_or (slice_index self.old k) word) }
    {
        if self.heap.is_empty() {
            self.inline |= word;
        } else {
            self.heap[k] |= word;
        }
    }

    // Puts a word in the place of each.
    #[inline]
    pub(crate) fn fill(&mut self, word: u64)
        ensures { self.new ≡ replicate (length self.old) word }
    {
        let heap: &mut [u64] = &mut self.heap;
        if heap.is_empty() {
            self.inline = word;
        } else {
            heap.fill(word);
        }
    }

    // Takes these words, which are as many.
    #[inline]
    pub(crate) fn copy_from(&mut self, words: &[u64])
        requires { length self.old ≡ length words.now }
        ensures { self.new ≡ words.now }
    {
        let heap: &mut [u64] = &mut self.heap;
        if heap.is_empty() {
            self.inline = words[0];
        } else {
            heap.copy_from_slice(words);
        }
    }

    // Appends a word. A second word takes the first along into memory, by one request.
    #[inline]
    pub(crate) fn push(&mut self, word: u64) -> Result<(), AllocError>
        ensures ok { OnOk result (self.new ≡ self.old ++ word ∷ []) }
        ensures err { OnErr result (self.new ≡ self.old) }
    {
        let inline = self.inline;
        let heap: &mut Vec<u64, A> = &mut self.heap;
        if heap.is_empty() {
            heap.reserve(2)?;
            heap.push_reserved(inline);
            heap.push_reserved(word);
        } else {
            heap.push(word)?;
        }
        Ok(())
    }

    // Joins each word with the other at its place.
    #[inline]
    pub(crate) fn join<O: WordOp>(&mut self, others: &[u64])
        requires { length self.old ≡ length others.now }
        ensures { Rewrites (λ k word. O.made word (slice_index others.now k)) self.old self.new (length self.old) }
    {
        let heap: &mut [u64] = &mut self.heap;
        if heap.is_empty() {
            self.inline = O::apply(self.inline, others[0]);
        } else {
            join_words::<O>(heap, others);
        }
    }

    // Turns each digit of each word round.
    #[inline]
    pub(crate) fn negate(&mut self)
        ensures { Rewrites (λ k word. bit_not w64 word) self.old self.new (length self.old) }
    {
        let heap: &mut [u64] = &mut self.heap;
        if heap.is_empty() {
            self.inline = !self.inline;
        } else {
            negate_words(heap);
        }
    }

    // Puts in the place of each word what the two at its place have in common, each with the digits of its mask turned
    // round.
    #[inline]
    pub(crate) fn conjoin(&mut self, a: &[u64], mask_a: u64, b: &[u64], mask_b: u64)
        requires a { length self.old ≡ length a.now }
        requires b { length self.old ≡ length b.now }
        ensures { Rewrites (λ k _. common_digits (slice_index a.now k) mask_a (slice_index b.now k) mask_b)
            self.old self.new (length self.old) }
    {
        let heap: &mut [u64] = &mut self.heap;
        if heap.is_empty() {
            self.inline = (a[0] ^ mask_a) & (b[0] ^ mask_b);
        } else {
            conjoin_words(heap, a, mask_a, b, mask_b);
        }
    }

    // Lays the others over the words from place `start` on.
    #[inline]
    pub(crate) fn overlay(&mut self, start: usize, others: &[u64])
        requires { start / 64 + length others.now ≤ length self.old }
        ensures { Overlays start others.now self.old self.new (64 * length self.old) }
    {
        let heap: &mut [u64] = &mut self.heap;
        if heap.is_empty() {
            let mut word = [self.inline];
            overlay_words(&mut word, start, others);
            self.inline = word[0];
        } else {
            overlay_words(heap, start, others);
        }
    }

    // Makes the places from `start` on, before `end`, as told.
    #[inline]
    pub(crate) fn set_range(&mut self, start: usize, end: usize, val: bool)
        requires { end ≤ 64 * length self.old }
        ensures { SetsRange start end val self.old self.new end }
    {
        let heap: &mut [u64] = &mut self.heap;
        if heap.is_empty() {
            let mut word = [self.inline];
            set_range(&mut word, start, end, val);
            self.inline = word[0];
        } else {
            set_range(heap, start, end, val);
        }
    }

    // Moves each place up by `n`. The first `n` are false then, and the last `n` go.
    #[inline]
    pub(crate) fn shift_up(&mut self, n: usize)
        ensures { MovesUp n self.old self.new 0 }
    {
        let heap: &mut [u64] = &mut self.heap;
        if heap.is_empty() {
            let mut word = [self.inline];
            shift_up(&mut word, n);
            self.inline = word[0];
        } else {
            shift_up(heap, n);
        }
    }

    // Moves each place down by `n`. The first `n` go, and as many at the end are false then.
    #[inline]
    pub(crate) fn shift_down(&mut self, n: usize)
        ensures { MovesDown n self.old self.new (64 * length self.old) }
    {
        let heap: &mut [u64] = &mut self.heap;
        if heap.is_empty() {
            let mut word = [self.inline];
            shift_down(&mut word, n);
            self.inline = word[0];
        } else {
            shift_down(heap, n);
        }
    }

    // Appends a word until there are `count`, by one request at most, and by none for a single word.
    pub(crate) fn resize(&mut self, count: usize, word: u64) -> Result<(), AllocError>
        requires { length self.old ≤ count }
        ensures ok { OnOk result (self.new ≡ self.old ++ replicate (count - length self.old) word) }
        ensures inline { count ≡ 1 → IsOk result }
        ensures same { count ≡ length self.old → IsOk result }
        ensures err { OnErr result (self.new ≡ self.old) }
    {
        let inline = self.inline;
        let heap: &mut Vec<u64, A> = &mut self.heap;
        if heap.is_empty() {
            if count > 1 {
                heap.resize(count, word)?;
                heap[0] = inline;
            }
        } else {
            heap.resize(count, word)?;
        }
        Ok(())
    }

    // Makes room for `count` words in all, by one request at most, and by none where there are as many already.
    pub(crate) fn reserve(&mut self, count: usize) -> Result<(), AllocError>
        ensures after { self.new ≡ self.old }
        ensures same { count ≤ length self.old → IsOk result }
    {
        if count <= self.len() {
            return Ok(());
        }
        let heap: &mut Vec<u64, A> = &mut self.heap;
        heap.reserve(count - heap.len())
    }

    // Leaves the first `count` words. The memory is kept for the next growth.
    #[inline]
    pub(crate) fn truncate(&mut self, count: usize)
        requires { 0 < count }
        ensures { self.new ≡ take count self.old }
    {
        self.heap.truncate(count);
    }

    // Back to one word, which is zero. The memory is kept for the next growth.
    #[inline]
    pub(crate) fn reset(&mut self)
        ensures { self.new ≡ 0 ∷ [] }
    {
        self.inline = 0;
        self.heap.clear();
    }

    // The same words, by one request for memory at most, and by none for a single word.
    pub(crate) fn try_clone(&self) -> Result<Self, AllocError>
    where
        A: Copy,
        ensures ok { IfOk result (λ s. s ≡ self.now) }
        ensures inline { length self.now ≡ 1 → IsOk result }
    {
        let words = self.as_slice();
        let alloc = *self.heap.allocator();
        if words.len() == 1 {
            return Ok(Self::of_word(alloc, words[0]));
        }
        Ok(Self::of_words(Vec::from_slice(alloc, words)?))
    }

    // Each word with its digits turned round, by one request for memory at most, and by none for a single word.
    pub(crate) fn try_negated(&self) -> Result<Self, AllocError>
    where
        A: Copy,
        ensures ok { IfOk result (λ s. Rewrites (λ k word. bit_not w64 word) self.now s (length self.now)) }
        ensures inline { length self.now ≡ 1 → IsOk result }
    {
        let words = self.as_slice();
        let alloc = *self.heap.allocator();
        if words.len() == 1 {
            return Ok(Self::of_word(alloc, !words[0]));
        }
        Ok(Self::of_words(negated_words(alloc, words)?))
    }
}

// Each word with its digits turned round, by one request for memory.
fn negated_words<A: Allocator>(alloc: A, words: &[u64]) -> Result<Vec<u64, A>, AllocError>
    ensures { IfOk result (λ v. v.items ≡ map (bit_not w64) words.now) }
{
    let mut negated = Vec::with_capacity(alloc, words.len())?;
    for k in 0..words.len() {
        negated.push_reserved(!words[k]);
    }
    Ok(negated)
}
