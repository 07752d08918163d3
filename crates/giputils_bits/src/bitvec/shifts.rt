//! Shifts, of the number that the bits are: to the left each bit goes to a higher place. The length stays, and none of
//! these calls takes memory.
ghost use Rattle.std.specs.Prelude.{◌≡◌, ◌++◌, false, drop, length, replicate, take};

use super::BitVec;
use super::words::low_mask;
use std::alloc::Allocator;
use std::ops::{Shl, ShlAssign, Shr, ShrAssign};

/// Each bit goes up by so many places: the lowest places are false then, and the bits that would go past the last place
/// are lost.
impl<A: Allocator> ShlAssign<usize> for BitVec<A> {
    ghost shl_assign_gives = { λ v n r. r ≡ take (length v) (replicate n false ++ v) };

    fn shl_assign(&mut self, rhs: usize) {
        if self.len == 0 {
            return;
        }
        self.words.shift_up(rhs);
        let last = (self.len - 1) / BitVec::WORD_SIZE;
        let word = self.words.as_slice()[last] & low_mask(self.len - BitVec::WORD_SIZE * last);
        self.words.put(last, word);
    }
}

/// Each bit goes down by so many places: the highest places are false then, and the bits that would go below place 0 are
/// lost.
impl<A: Allocator> ShrAssign<usize> for BitVec<A> {
    ghost shr_assign_gives = { λ v n r. r ≡ take (length v) (drop n v ++ replicate n false) };

    fn shr_assign(&mut self, rhs: usize) {
        self.words.shift_down(rhs);
    }
}

/// What `<<=` makes of the vector.
impl<A: Allocator> Shl<usize> for BitVec<A> {
    type Output = BitVec<A>;

    ghost shl_gives = { λ v n r. r ≡ take (length v) (replicate n false ++ v) };

    #[inline]
    fn shl(mut self, rhs: usize) -> BitVec<A> {
        self <<= rhs;
        self
    }
}

/// What `>>=` makes of the vector.
impl<A: Allocator> Shr<usize> for BitVec<A> {
    type Output = BitVec<A>;

    ghost shr_gives = { λ v n r. r ≡ take (length v) (drop n v ++ replicate n false) };

    #[inline]
    fn shr(mut self, rhs: usize) -> BitVec<A> {
        self >>= rhs;
        self
    }
}
