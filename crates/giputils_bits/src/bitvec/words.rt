//! Words: one of them, and loops over several.
ghost use Rattle.std.specs.Prelude.{◌≡◌, ◌↔◌, ◌<◌, ◌≤◌, ◌+◌, ◌-◌, ◌*◌, ◌/◌, ◌^◌, ℕ, IsTrue, not, length, replicate, slice_index, bit_and, bit_or, bit_xor};
ghost use Rattle.std.specs.Int.{bit_not, w64};
ghost use Rattle.giputils_bits.specs.Bits.{has_digit, value_of, word_count};
ghost use Rattle.giputils_bits.specs.Places.{place, common_digits, digits_before, digits_between, without_digits, IsLaid, MovesDown, MovesUp, Overlays, Rewrites, SetsDigit, SetsDigits, SetsRange};

use super::BitVec;

// How many words so many places take.
#[inline]
pub(crate) fn word_count(len: usize) -> usize
    ensures { result ≡ word_count len }
{
    len / BitVec::WORD_SIZE + usize::from(len % BitVec::WORD_SIZE != 0)
}

// Place `index` of the words.
#[inline]
pub(crate) fn bit_at(words: &[u64], index: usize) -> bool
    requires { index / 64 < length words.now }
    ensures { result ≡ place words.now index }
{
    (words[index / BitVec::WORD_SIZE] >> (index % BitVec::WORD_SIZE)) & 1 == 1
}

// The word with digit `k` as told.
#[inline]
pub(crate) fn with_bit(word: u64, k: usize, val: bool) -> u64
    requires { k < 64 }
    ensures { SetsDigit word result k val }
{
    if val { word | 1 << k } else { word & !(1 << k) }
}

// The word that has digit `k` as told, and no other.
#[inline]
pub(crate) fn digit(k: usize, val: bool) -> u64
    requires { k < 64 }
    ensures { SetsDigit 0 result k val }
{
    u64::from(val) << k
}

// The word with digit `k` turned round.
#[inline]
pub(crate) fn flipped_bit(word: u64, k: usize) -> u64
    requires { k < 64 }
    ensures { SetsDigit word result k (not (has_digit word k)) }
{
    word ^ 1 << k
}

// The word whose `count` lowest digits are `val`, where `count` is 1 to 64, and whose others are 0.
#[inline]
pub(crate) fn filled_word(val: bool, count: usize) -> u64
    requires some { 0 < count }
    requires fits { count ≤ 64 }
    ensures { result ≡ value_of (replicate count val) }
{
    if val { low_mask(count) } else { 0 }
}

// The word whose `count` lowest digits are 1, where `count` is 1 to 64.
#[inline]
pub(crate) fn low_mask(count: usize) -> u64
    requires some { 0 < count }
    requires fits { count ≤ 64 }
    ensures { result ≡ 2 ^ count - 1 }
{
    u64::MAX >> (BitVec::WORD_SIZE - count)
}

// The digits of word `k` that stand before place `end`.
#[inline]
fn digits_before(k: usize, end: usize) -> u64
    requires { 64 * k < 2 ^ 64 }
    ensures { result ≡ digits_before k end }
{
    let count = end
        .saturating_sub(BitVec::WORD_SIZE * k)
        .min(BitVec::WORD_SIZE);
    if count == 0 { 0 } else { low_mask(count) }
}

// The digits of word `k` that stand from place `start` on, before place `end`.
#[inline]
pub(crate) fn digits_between(k: usize, start: usize, end: usize) -> u64
    requires { 64 * k < 2 ^ 64 }
    ensures { result ≡ digits_between k start end }
{
    AndNot::apply(digits_before(k, end), digits_before(k, start))
}

// The word with these digits as told.
#[inline]
fn with_digits(word: u64, digits: u64, val: bool) -> u64
    ensures { SetsDigits word result digits val }
{
    if val {
        word | digits
    } else {
        AndNot::apply(word, digits)
    }
}

// An operation on two words.
pub(crate) trait WordOp {
    // What it makes of them.
    ghost made: { ℕ → ℕ → ℕ };

    fn apply(word: u64, other: u64) -> u64
        ensures { result ≡ made word other };
}

pub(crate) struct And;

impl WordOp for And {
    ghost made = { bit_and };

    #[inline]
    fn apply(word: u64, other: u64) -> u64 {
        word & other
    }
}

pub(crate) struct Or;

impl WordOp for Or {
    ghost made = { bit_or };

    #[inline]
    fn apply(word: u64, other: u64) -> u64 {
        word | other
    }
}

pub(crate) struct Xor;

impl WordOp for Xor {
    ghost made = { bit_xor };

    #[inline]
    fn apply(word: u64, other: u64) -> u64 {
        word ^ other
    }
}

// The digits of a word that another has not.
pub(crate) struct AndNot;

impl WordOp for AndNot {
    ghost made = { without_digits };

    #[inline]
    fn apply(word: u64, other: u64) -> u64 {
        word ^ (word & other)
    }
}

// Joins each word with the other at its place.
#[inline]
pub(crate) fn join_words<O: WordOp>(words: &mut [u64], others: &[u64])
    requires { length words.old ≡ length others.now }
    ensures { Rewrites (λ k word. O.made word (slice_index others.now k)) words.old words.new (length words.old) }
{
    for k in 0..words.len() {
        words[k] = O::apply(words[k], others[k]);
    }
}

// Turns each digit of each word round.
#[inline]
pub(crate) fn negate_words(words: &mut [u64])
    ensures { Rewrites (λ k word. bit_not w64 word) words.old words.new (length words.old) }
{
    for k in 0..words.len() {
        words[k] = !words[k];
    }
}

// Puts in the place of each word what the two at its place have in common, each with the digits of its mask turned round.
#[inline]
pub(crate) fn conjoin_words(words: &mut [u64], a: &[u64], mask_a: u64, b: &[u64], mask_b: u64)
    requires a { length words.old ≡ length a.now }
    requires b { length words.old ≡ length b.now }
    ensures { Rewrites (λ k _. common_digits (slice_index a.now k) mask_a (slice_index b.now k) mask_b)
        words.old words.new (length words.old) }
{
    for k in 0..words.len() {
        words[k] = (a[k] ^ mask_a) & (b[k] ^ mask_b);
    }
}

// Lays the others over the words from place `start` on.
#[inline]
pub(crate) fn overlay_words(words: &mut [u64], start: usize, others: &[u64])
    requires { start / 64 + length others.now ≤ length words.old }
    ensures { Overlays start others.now words.old words.new (64 * length words.old) }
{
    let first = start / BitVec::WORD_SIZE;
    let shift = start % BitVec::WORD_SIZE;
    let mut carry = 0;
    for k in 0..others.len() {
        words[first + k] |= others[k] << shift | carry;
        carry = others[k] >> 1 >> (BitVec::WORD_SIZE - 1 - shift);
    }
    let end = first + others.len();
    if end < words.len() {
        words[end] |= carry;
    }
}

// Makes the places from `start` on, before `end`, as told.
#[inline]
pub(crate) fn set_range(words: &mut [u64], start: usize, end: usize, val: bool)
    requires { end ≤ 64 * length words.old }
    ensures { SetsRange start end val words.old words.new end }
{
    for k in start / BitVec::WORD_SIZE..word_count(end) {
        words[k] = with_digits(words[k], digits_between(k, start, end), val);
    }
}

// Word `k` of the words with each place moved up by `n`.
#[inline]
fn moved_up(words: &[u64], k: usize, n: usize) -> u64
    requires { k < length words.now }
    ensures { IsLaid n words.now k result }
{
    let shift = n % BitVec::WORD_SIZE;
    let Some(from) = k.checked_sub(n / BitVec::WORD_SIZE) else {
        return 0;
    };
    if from == 0 {
        return words[0] << shift;
    }
    words[from] << shift | words[from - 1] >> 1 >> (BitVec::WORD_SIZE - 1 - shift)
}

// Moves each place up by `n`. The first `n` are false then, and the last `n` go.
#[inline]
pub(crate) fn shift_up(words: &mut [u64], n: usize)
    ensures { MovesUp n words.old words.new 0 }
{
    let mut k = words.len();
    while k > 0 {
        k -= 1;
        words[k] = moved_up(words, k, n);
    }
}

// Word `k` of the words with each place moved down by `n`.
#[inline]
fn moved_down(words: &[u64], k: usize, n: usize) -> u64
    requires { k < length words.now }
    ensures { (i : ℕ) → i < 64 → has_digit result i ≡ place words.now (64 * k + i + n) }
{
    let shift = n % BitVec::WORD_SIZE;
    if n / BitVec::WORD_SIZE >= words.len() - k {
        return 0;
    }
    let from = k + n / BitVec::WORD_SIZE;
    let low = words[from] >> shift;
    if from + 1 == words.len() {
        return low;
    }
    low | words[from + 1] << 1 << (BitVec::WORD_SIZE - 1 - shift)
}

// Moves each place down by `n`. The first `n` go, and as many at the end are false then.
#[inline]
pub(crate) fn shift_down(words: &mut [u64], n: usize)
    ensures { MovesDown n words.old words.new (64 * length words.old) }
{
    for k in 0..words.len() {
        words[k] = moved_down(words, k, n);
    }
}
