//! Comparers that everyone writes: by number, the other way round, and by rank.
ghost use Rattle.std.specs.Prelude.{◌≡◌};
ghost use Rattle.giputils_bounded.specs.Comparers.{by_number, reverse_of, rank_of, by_rank, by_ord};

use crate::key::{BinaryHeapCmp, HeapKey};
use std::cmp::Reverse;

/// Compares keys by their numbers: the greatest number comes first, as a max heap by default.
#[derive(Clone, Copy, PartialEq, Eq, Default, Debug)]
pub struct ByNumber;

impl<T: HeapKey> BinaryHeapCmp<T> for ByNumber {
    ghost at_least = { λ _. by_number T.number };

    fn gte(&self, s: T, o: T) -> bool {
        s.key() >= o.key()
    }
}

/// Compares keys as the comparer inside does, the other way round: `Reverse(ByNumber)` makes a min heap.
impl<T, C: BinaryHeapCmp<T>> BinaryHeapCmp<T> for Reverse<C> {
    ghost at_least = { λ c. reverse_of (C.at_least c.0) };

    fn gte(&self, s: T, o: T) -> bool {
        self.0.gte(o, s)
    }
}

/// Compares keys by their ranks in a table, and those of one rank by their numbers.
///
/// The rank of a key stands in the table at the place of its number; a key past the table's end has rank 0.
#[derive(Clone, Copy, Debug)]
pub struct ByRank<'a>(pub &'a [u32]);

impl ByRank<'_> {
    // The rank of the key with this number.
    fn rank(&self, number: u32) -> u32
        ensures { result ≡ rank_of self.now.0.now number }
    {
        match self.0.get(number as usize) {
            Some(rank) => *rank,
            None => 0,
        }
    }
}

impl<T: HeapKey> BinaryHeapCmp<T> for ByRank<'_> {
    ghost at_least = { λ c. by_rank T.number c.0.now };

    fn gte(&self, s: T, o: T) -> bool {
        let (s, o) = (s.key(), o.key());
        let (s_rank, o_rank) = (self.rank(s), self.rank(o));
        s_rank > o_rank || s_rank == o_rank && s >= o
    }
}

/// Compares keys by their ranks in a table, whose order is that of any type `R`, and those of one rank by number.
///
/// The rank of a key stands in the table at the place of its number; a key past the table's end comes after all others.
/// As an `Ord` is a total order, so is this on any keys: an activity may be a `u64`, or a key of one's own that wraps a
/// float.
#[derive(Clone, Copy, Debug)]
pub struct ByOrd<'a, R>(pub &'a [R]);

impl<T: HeapKey, R: Ord> BinaryHeapCmp<T> for ByOrd<'_, R> {
    ghost at_least = { λ c. by_ord T.number R.cmp c.0.now };

    fn gte(&self, s: T, o: T) -> bool {
        let (s, o) = (s.key(), o.key());
        let order = self.0.get(s as usize).cmp(&self.0.get(o as usize));
        order.then(s.cmp(&o)).is_ge()
    }
}

/// A comparer that owns its ranks: compares keys as [`ByRank`] does by this table of `N` ranks.
///
/// It lends nothing, so that each step of a run may have one of its own, whose ranks are others than those before.
#[derive(Clone, Copy, PartialEq, Eq, Debug)]
pub struct RankTable<const N: usize>(pub [u32; N]);

impl<T: HeapKey, const N: usize> BinaryHeapCmp<T> for RankTable<N> {
    ghost at_least = { λ c. by_rank T.number c.0 };

    fn gte(&self, s: T, o: T) -> bool {
        ByRank(&self.0).gte(s, o)
    }
}
