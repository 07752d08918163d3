//! A comparer with a count of how often it was asked.

// How it is proved: a generic struct with a model has `Value = { List T }` and an invariant over
// the bound's member. A struct that lends a reference has a record with a `code_by`. A model with
// `inverse` over numbers makes a type `Copy` (giputils_stat `src/statistic/average.rt`).

ghost use Rattle.std.specs.Prelude.{◌≡◌, ◌+◌, ◌<◌, nat_eq};
ghost use Rattle.std.specs.Cmp.{and_equiv, and_per, nat_eq_equiv, on_equiv, on_per, partial_equiv_from_equiv};
ghost use Rattle.std.specs.Ordering.{eq_of_both, on};

use crate::key::BinaryHeapCmp;
use std::marker::Model;

/// A lent comparer and the number of times that it was asked.
///
/// The comparer can be asked through [`Counting::gte`] alone, which counts, and a counter can be neither cloned nor
/// copied. So what a piece of code that is lent a counter has added to it is how often that code asked the comparer.
#[derive(Debug, Drop)]
pub struct Counting<'a, C> {
    comparer: &'a C,
    count: u64,
}

impl<'a, C> Model for Counting<'a, C> {
    ghost use Rattle.giputils_bounded.specs.Counted.{Counted, counted_code};

    ghost Value = { Counted C };

    ghost coded = { counted_code C.code };

    ghost view = { λ c. record { comparer = c.comparer.now; count = c.count } };
}

impl<'a, C> Counting<'a, C> {
    /// A counter over `comparer`, which was asked 0 times.
    pub fn new(comparer: &'a C) -> Self
        ensures comparer { result.comparer ≡ comparer.now }
        ensures zero { result.count ≡ 0 }
    {
        Counting { comparer, count: 0 }
    }

    /// How often the comparer was asked.
    pub fn count(&self) -> u64
        ensures { result ≡ self.now.count }
    {
        self.count
    }

    /// Asks the comparer whether `s` is at least `o`, and adds one to the count.
    ///
    /// The count must be below `u64::MAX`, which [`Counting::count`] tells.
    pub fn gte<T>(&mut self, s: T, o: T) -> bool
    where
        C: BinaryHeapCmp<T>,
        requires { self.old.count < u64.MAX }
        ensures answer { result ≡ C.at_least self.old.comparer s o }
        ensures counted { self.new.count ≡ self.old.count + 1 }
        ensures comparer { self.new.comparer ≡ self.old.comparer }
    {
        self.count += 1;
        self.comparer.gte(s, o)
    }
}

/// Equal where the comparers are equal, and were asked as often.
impl<C: PartialEq> PartialEq for Counting<'_, C> {
    ghost eq = { eq_of_both (on (λ c. c.comparer) C.eq) (on (λ c. c.count) nat_eq) };

    ghost laws = { and_per (on_per (λ c. c.comparer) C.laws)
        (on_per (λ c. c.count) (partial_equiv_from_equiv nat_eq_equiv)) };

    fn eq(&self, other: &Self) -> bool {
        *self.comparer == *other.comparer && self.count == other.count
    }
}

impl<C: Eq> Eq for Counting<'_, C> {
    ghost laws = { and_equiv (on_equiv (λ c. c.comparer) C.Eq.laws) (on_equiv (λ c. c.count) nat_eq_equiv) };
}
