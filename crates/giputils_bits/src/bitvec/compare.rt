//! Equality, order, and what a bit vector feeds a hasher.
ghost use Rattle.std.specs.Prelude.{◌≡◌, ◌*◌, length, min, Some, MatchOption, refl};
ghost use Rattle.std.specs.Bool.{beq};
ghost use Rattle.std.specs.Cmp.{bool_cmp_total, bool_eq_equiv, partial_equiv_from_equiv, partial_order_from_own_ties, partial_order_from_total};
ghost use Rattle.std.specs.Cmp.Lexicographic.{pointwise, lists_equiv, lists_ties, lists_total, slice_cmp};
ghost use Rattle.std.specs.Ordering.{bool_cmp};
ghost use Rattle.giputils_bits.specs.Ordered.{booleans_tie};
ghost use Rattle.giputils_bits.specs.Places.{AlikeBelow, IsDecided};

use super::BitVec;
use super::blocks::same_words;
use std::alloc::Allocator;
use std::cmp::Ordering;
use std::hash::{Hash, Hasher};

/// Equal exactly where the lists of bits are.
impl<A: Allocator> PartialEq for BitVec<A> {
    ghost eq = { pointwise beq };

    ghost laws = { partial_equiv_from_equiv (lists_equiv bool_eq_equiv) };

    fn eq(&self, other: &Self) -> bool {
        self.len() == other.len() && same_words(self.words(), other.words())
    }
}

impl<A: Allocator> Eq for BitVec<A> {
    ghost laws = { lists_equiv bool_eq_equiv };
}

/// As lists are compared, with false before true: the first place that differs decides, and where there is none the
/// length does.
impl<A: Allocator> PartialOrd for BitVec<A> {
    ghost partial_cmp = { λ v w. Some (slice_cmp bool_cmp v w) };

    ghost laws = { partial_order_from_own_ties (partial_order_from_total (lists_total bool_cmp_total))
        (lists_ties bool_cmp booleans_tie) };

    #[inline]
    fn partial_cmp(&self, other: &Self) -> Option<Ordering> {
        Some(self.cmp(other))
    }
}

/// As lists are compared, with false before true: the first place that differs decides, and where there is none the
/// length does.
impl<A: Allocator> Ord for BitVec<A> {
    ghost cmp = { slice_cmp bool_cmp };

    ghost total = { lists_total bool_cmp_total };

    ghost matches_partial_cmp = { λ v w. refl };

    ghost matches_eq = { lists_ties bool_cmp booleans_tie };

    fn cmp(&self, other: &Self) -> Ordering {
        match first_difference(self.words.as_slice(), other.words.as_slice()) {
            Some(true) => Ordering::Greater,
            Some(false) => Ordering::Less,
            None => self.len().cmp(&other.len()),
        }
    }
}

/// Feeds the words in order, and then the length modulo 64.
impl<A: Allocator> Hash for BitVec<A> {
    ghost use Rattle.giputils_bits.specs.Hashed.{hash_input_of, hash_input_respects};

    ghost hash_input = { hash_input_of };

    ghost respects_eq = { hash_input_respects };

    fn hash<H: Hasher>(&self, state: &mut H) {
        <u64 as Hash>::hash_slice(self.words(), state);
        (self.len() % BitVec::WORD_SIZE).hash(state);
    }
}

// The place of the first list at which two lists of words differ first, or none where they are alike as far as both go.
fn first_difference(words: &[u64], others: &[u64]) -> Option<bool>
    ensures { MatchOption result
        (AlikeBelow words.now others.now (64 * min (length words.now) (length others.now)))
        (λ bit. IsDecided words.now others.now bit) }
{
    for k in 0..words.len().min(others.len()) {
        let difference = words[k] ^ others[k];
        if difference != 0 {
            return Some(words[k] >> difference.trailing_zeros() & 1 == 1);
        }
    }
    None
}
