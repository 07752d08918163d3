//! Logic, place by place. It works on whole words, and those of the left operand are reused.
ghost use Rattle.std.specs.Prelude.{◌≡◌, ◌≤◌, ◌↔◌, false, length, replicate, IfOk, IfErr, IsOk, IsTrue};
ghost use Rattle.giputils_bits.specs.Error.{IsMemory};
ghost use Rattle.giputils_bits.specs.Logic.{and_of, negated_if, or_of, xor_of, not_of, DeMorgan, DoubleNot, XorWithItself};

use super::BitVec;
use super::blocks::makes_zeros;
use super::error::BitVecError;
use super::words::{And, AndNot, Or, Xor, filled_word, low_mask};
use std::alloc::Allocator;
use std::ops::{BitAnd, BitAndAssign, BitOr, BitOrAssign, BitXor, BitXorAssign, Not};

impl<A: Allocator> BitVec<A> {
    /// A vector with each bit turned round.
    ///
    /// # Errors
    /// `Memory` where there are more than 64 bits and the one request for memory is refused.
    pub fn not(&self) -> Result<Self, BitVecError>
    where
        A: Copy,
        ensures ok { IfOk result (λ v. v ≡ not_of self.now) }
        ensures inline { length self.now ≤ 64 → IsOk result }
        ensures err { IfErr result IsMemory }
    {
        if self.len == 0 {
            return self.clone();
        }
        let mut words = self.words.try_negated()?;
        let last = (self.len - 1) / BitVec::WORD_SIZE;
        let digits = low_mask(self.len - BitVec::WORD_SIZE * last);
        words.put(last, !self.words.as_slice()[last] & digits);
        Ok(BitVec {
            len: self.len,
            words,
        })
    }

    /// Makes each place false that is true in `other`, a vector of the same length ([`BitVec::len`]). It takes no
    /// memory.
    pub fn difference_with<B: Allocator>(&mut self, other: &BitVec<B>)
        requires { length self.old ≡ length other.now }
        ensures { self.new ≡ and_of self.old (not_of other.now) }
    {
        self.words.join::<AndNot>(other.words.as_slice());
    }

    /// Becomes what `a` and `b` have in common, each of them negated first where that is told: a node of an and-inverter
    /// graph. All three are of one length ([`BitVec::len`]). It takes no memory.
    pub fn assign_and<B: Allocator, C: Allocator>(
        &mut self,
        a: &BitVec<B>,
        not_a: bool,
        b: &BitVec<C>,
        not_b: bool,
    )
        requires first { length self.old ≡ length a.now }
        requires second { length self.old ≡ length b.now }
        ensures { self.new ≡ and_of (negated_if not_a a.now) (negated_if not_b b.now) }
    {
        if self.len == 0 {
            return;
        }
        let mask_a = filled_word(not_a, BitVec::WORD_SIZE);
        let mask_b = filled_word(not_b, BitVec::WORD_SIZE);
        self.words
            .conjoin(a.words.as_slice(), mask_a, b.words.as_slice(), mask_b);
        let last = (self.len - 1) / BitVec::WORD_SIZE;
        let word = self.words.as_slice()[last] & low_mask(self.len - BitVec::WORD_SIZE * last);
        self.words.put(last, word);
    }

    /// Whether each place that is true is true in `other` too, a vector of the same length ([`BitVec::len`]).
    pub fn is_subset<B: Allocator>(&self, other: &BitVec<B>) -> bool
        requires { length self.now ≡ length other.now }
        ensures { IsTrue result ↔ (and_of self.now other.now ≡ self.now) }
    {
        let words = self.words.as_slice();
        let others = other.words.as_slice();
        makes_zeros::<AndNot>(words, others)
    }

    /// Whether each place that is true in `other`, a vector of the same length ([`BitVec::len`]), is true here too.
    #[inline]
    pub fn is_superset<B: Allocator>(&self, other: &BitVec<B>) -> bool
        requires { length self.now ≡ length other.now }
        ensures { IsTrue result ↔ (and_of other.now self.now ≡ other.now) }
    {
        other.is_subset(self)
    }

    /// Whether no place is true in both, of two vectors of one length ([`BitVec::len`]).
    pub fn is_disjoint<B: Allocator>(&self, other: &BitVec<B>) -> bool
        requires { length self.now ≡ length other.now }
        ensures { IsTrue result ↔ (and_of self.now other.now ≡ replicate (length self.now) false) }
    {
        let words = self.words.as_slice();
        let others = other.words.as_slice();
        makes_zeros::<And>(words, others)
    }
}

/// True at each place where both places are, of two vectors of one length ([`BitVec::len`]). It takes no memory.
impl<A: Allocator, B: Allocator> BitAnd<BitVec<B>> for BitVec<A> {
    type Output = BitVec<A>;

    ghost can_bitand = { λ v w. length v ≡ length w };

    ghost bitand_gives = { λ v w r. r ≡ and_of v w };

    #[inline]
    fn bitand(mut self, rhs: BitVec<B>) -> BitVec<A> {
        self &= &rhs;
        self
    }
}

/// True at each place where both places are, of two vectors of one length ([`BitVec::len`]). It takes no memory.
impl<A: Allocator, B: Allocator> BitAnd<&BitVec<B>> for BitVec<A> {
    type Output = BitVec<A>;

    ghost can_bitand = { λ v w. length v ≡ length w.now };

    ghost bitand_gives = { λ v w r. r ≡ and_of v w.now };

    #[inline]
    fn bitand(mut self, rhs: &BitVec<B>) -> BitVec<A> {
        self &= rhs;
        self
    }
}

/// True at each place where both places are, of two vectors of one length ([`BitVec::len`]). It takes no memory.
impl<A: Allocator, B: Allocator> BitAndAssign<&BitVec<B>> for BitVec<A> {
    ghost can_bitand_assign = { λ v w. length v ≡ length w.now };

    ghost bitand_assign_gives = { λ v w r. r ≡ and_of v w.now };

    fn bitand_assign(&mut self, rhs: &BitVec<B>) {
        self.words.join::<And>(rhs.words.as_slice());
    }
}

/// True at each place where one place at least is, of two vectors of one length ([`BitVec::len`]). It takes no memory.
impl<A: Allocator, B: Allocator> BitOr<BitVec<B>> for BitVec<A> {
    type Output = BitVec<A>;

    ghost can_bitor = { λ v w. length v ≡ length w };

    ghost bitor_gives = { λ v w r. r ≡ or_of v w };

    #[inline]
    fn bitor(mut self, rhs: BitVec<B>) -> BitVec<A> {
        self |= &rhs;
        self
    }
}

/// True at each place where one place at least is, of two vectors of one length ([`BitVec::len`]). It takes no memory.
impl<A: Allocator, B: Allocator> BitOr<&BitVec<B>> for BitVec<A> {
    type Output = BitVec<A>;

    ghost can_bitor = { λ v w. length v ≡ length w.now };

    ghost bitor_gives = { λ v w r. r ≡ or_of v w.now };

    #[inline]
    fn bitor(mut self, rhs: &BitVec<B>) -> BitVec<A> {
        self |= rhs;
        self
    }
}

/// True at each place where one place at least is, of two vectors of one length ([`BitVec::len`]). It takes no memory.
impl<A: Allocator, B: Allocator> BitOrAssign<&BitVec<B>> for BitVec<A> {
    ghost can_bitor_assign = { λ v w. length v ≡ length w.now };

    ghost bitor_assign_gives = { λ v w r. r ≡ or_of v w.now };

    fn bitor_assign(&mut self, rhs: &BitVec<B>) {
        self.words.join::<Or>(rhs.words.as_slice());
    }
}

/// True at each place where one place alone is, of two vectors of one length ([`BitVec::len`]). It takes no memory.
impl<A: Allocator, B: Allocator> BitXor<BitVec<B>> for BitVec<A> {
    type Output = BitVec<A>;

    ghost can_bitxor = { λ v w. length v ≡ length w };

    ghost bitxor_gives = { λ v w r. r ≡ xor_of v w };

    #[inline]
    fn bitxor(mut self, rhs: BitVec<B>) -> BitVec<A> {
        self ^= &rhs;
        self
    }
}

/// True at each place where one place alone is, of two vectors of one length ([`BitVec::len`]). It takes no memory.
impl<A: Allocator, B: Allocator> BitXor<&BitVec<B>> for BitVec<A> {
    type Output = BitVec<A>;

    ghost can_bitxor = { λ v w. length v ≡ length w.now };

    ghost bitxor_gives = { λ v w r. r ≡ xor_of v w.now };

    #[inline]
    fn bitxor(mut self, rhs: &BitVec<B>) -> BitVec<A> {
        self ^= rhs;
        self
    }
}

/// True at each place where one place alone is, of two vectors of one length ([`BitVec::len`]). It takes no memory.
impl<A: Allocator, B: Allocator> BitXorAssign<&BitVec<B>> for BitVec<A> {
    ghost can_bitxor_assign = { λ v w. length v ≡ length w.now };

    ghost bitxor_assign_gives = { λ v w r. r ≡ xor_of v w.now };

    fn bitxor_assign(&mut self, rhs: &BitVec<B>) {
        self.words.join::<Xor>(rhs.words.as_slice());
    }
}

/// Each bit turned round. It takes no memory.
impl<A: Allocator> Not for BitVec<A> {
    type Output = BitVec<A>;

    ghost not_gives = { λ v r. r ≡ not_of v };

    #[inline]
    fn not(mut self) -> BitVec<A> {
        self.negate();
        self
    }
}

/// A law of logic, which callers may cite: `not` of an `and` is the `or` of both `not`s, and the other way round.
pub const fn de_morgan()
    ensures { DeMorgan }
{}

/// A law of logic: what is negated twice is as it was.
pub const fn double_not()
    ensures { DoubleNot }
{}

/// A law of logic: xor with itself has no true place.
pub const fn xor_with_itself()
    ensures { XorWithItself }
{}
