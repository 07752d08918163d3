//! The average of whole numbers.
ghost use Rattle.std.specs.Prelude.{◌≡◌, ◌↔◌, ◌*◌, ◌<◌, ◌≤◌, Some, IsTrue, IsNone, IfSome};
ghost use Rattle.giputils_stat.specs.Tally.{no_terms, with_term, with_terms, usize_max, CanCount, CanCountBoth};
ghost use Rattle.giputils_stat.specs.Texts.{average_text};

use crate::decimal::{Decimal, Ratio};
use std::fmt::{self, Debug, Display};
use std::marker::Model;
use std::ops::{Add, AddAssign};

/// The average of whole numbers, shown to six decimals.
#[derive(Clone, Copy)]
pub struct Average {
    sum: u128,
    count: usize,
}

impl Model for Average {
    ghost use Rattle.std.specs.Prelude.{◌*◌, ◌≤◌};
    ghost use Rattle.giputils_stat.specs.Tally.{Tally, usize_max};

    ghost Value = { Tally };

    ghost view = { λ a. record { sum = a.sum; count = a.count } };

    ghost invariant = { λ a. a.sum ≤ a.count * usize_max };

    ghost inverse = { λ t. record { sum = t.sum; count = t.count } };
}

impl Average {
    // The average of so many numbers of this sum.
    #[inline]
    pub(crate) fn of_sum(sum: u128, count: usize) -> Self
        requires { sum ≤ count * usize_max }
        ensures { result ≡ record { sum = sum; count = count } }
    {
        Average { sum, count }
    }

    /// The sum of the numbers.
    #[inline]
    pub fn sum(&self) -> u128
        ensures { result ≡ self.now.sum }
    {
        self.sum
    }

    /// How many numbers were added.
    #[inline]
    pub fn count(&self) -> usize
        ensures { result ≡ self.now.count }
    {
        self.count
    }

    /// The average, or `None` where nothing was added.
    ///
    /// There must be 1 to 19 places.
    #[inline]
    pub fn mean(&self, places: u32) -> Option<Decimal>
        requires some_places { 0 < places }
        requires few_places { places ≤ 19 }
        ensures none { IsNone result ↔ (self.now.count ≡ 0) }
        ensures sum { IfSome result (λ d. d.numerator ≡ self.now.sum) }
        ensures count { IfSome result (λ d. d.denominator ≡ self.now.count) }
        ensures places { IfSome result (λ d. d.places ≡ places) }
    {
        if self.count == 0 {
            return None;
        }
        Some(Decimal {
            numerator: self.sum,
            denominator: self.count as u64,
            places,
        })
    }

    /// Whether one more number can be added: the count stays at most `usize::MAX`.
    #[inline]
    pub fn can_add(&self) -> bool
        ensures { IsTrue result ↔ CanCount self.now }
    {
        self.count < usize::MAX
    }

    /// Whether the numbers of `other` can be added, within the same bound.
    #[inline]
    pub fn can_merge(&self, other: &Self) -> bool
        ensures { IsTrue result ↔ CanCountBoth self.now other.now }
    {
        other.count <= usize::MAX - self.count
    }
}

/// No number was added.
impl Default for Average {
    ghost is_default = { λ a. a ≡ no_terms };

    #[inline]
    fn default() -> Self {
        Average { sum: 0, count: 0 }
    }
}

/// Adds a number. [`Average::can_add`] must hold.
impl AddAssign<usize> for Average {
    ghost can_add_assign = { λ a _. CanCount a };

    ghost add_assign_gives = { λ a n b. b ≡ with_term a n };

    #[inline]
    fn add_assign(&mut self, number: usize) {
        self.sum += number as u128;
        self.count += 1;
    }
}

/// Adds the numbers of another average. [`Average::can_merge`] must hold.
impl AddAssign for Average {
    ghost can_add_assign = { CanCountBoth };

    ghost add_assign_gives = { λ a b c. c ≡ with_terms a b };

    #[inline]
    fn add_assign(&mut self, other: Self) {
        self.sum += other.sum;
        self.count += other.count;
    }
}

/// The average over the numbers of both. [`Average::can_merge`] must hold.
impl Add for Average {
    type Output = Self;

    ghost can_add = { CanCountBoth };

    ghost add_gives = { λ a b c. c ≡ with_terms a b };

    #[inline]
    fn add(self, other: Self) -> Self {
        Average {
            sum: self.sum + other.sum,
            count: self.count + other.count,
        }
    }
}

/// The average to six decimals, or `NaN` where nothing was added.
impl Debug for Average {
    ghost debug_output = { λ a. Some (average_text a) };

    fn fmt<W: fmt::Write>(&self, f: &mut fmt::Formatter<W>) -> fmt::Result {
        let average = Ratio {
            numerator: self.sum,
            denominator: self.count as u64,
            places: 6,
        };
        Display::fmt(&average, f)
    }
}
