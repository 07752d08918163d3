//! The bits of a range of places. These calls take no memory.
ghost use Rattle.std.specs.Prelude.{◌≡◌, ◌-◌, ◌≤◌, ◌++◌, drop, length, replicate, take};
ghost use Rattle.giputils_bits.specs.Ones.{true_count};

use super::BitVec;
use super::words::{digits_between, word_count};
use std::alloc::Allocator;
use std::ops::Range;

impl<A: Allocator> BitVec<A> {
    /// Sets each bit of a range, which does not end before it begins, nor after [`BitVec::len`].
    pub fn set_range(&mut self, range: Range<usize>, val: bool)
        requires ordered { range.start ≤ range.end }
        requires inside { range.end ≤ length self.old }
        ensures { self.new ≡ take range.start self.old
            ++ (replicate (range.end - range.start) val ++ drop range.end self.old) }
    {
        self.words.set_range(range.start, range.end, val);
    }

    /// The number of true bits of a range, which does not end before it begins, nor after [`BitVec::len`].
    pub fn count_ones_in(&self, range: Range<usize>) -> usize
        requires ordered { range.start ≤ range.end }
        requires inside { range.end ≤ length self.now }
        ensures { result ≡ true_count (take (range.end - range.start) (drop range.start self.now)) }
    {
        let words = self.words.as_slice();
        let mut count = 0;
        for k in range.start / BitVec::WORD_SIZE..word_count(range.end) {
            let digits = digits_between(k, range.start, range.end);
            count += (words[k] & digits).count_ones() as usize;
        }
        count
    }
}
