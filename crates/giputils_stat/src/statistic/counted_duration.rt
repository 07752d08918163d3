//! A sum of durations with their number.
ghost use Rattle.std.specs.Prelude.{◌≡◌, ◌↔◌, Some, IsTrue};
ghost use Rattle.std.specs.Duration.{as_nanos, FitsDuration};
ghost use Rattle.giputils_stat.specs.Tally.{no_terms, with_term, with_terms, CanAddNanos, CanAddBoth};
ghost use Rattle.giputils_stat.specs.Texts.{counted_duration_text};

use crate::decimal::Seconds;
use std::fmt::{self, Debug};
use std::marker::Model;
use std::ops::AddAssign;
use std::time::Duration;

// The length of `Duration::MAX` in nanoseconds.
const MAX_NANOS: u128 = (u64::MAX as u128) * 1_000_000_000 + 999_999_999;

/// A sum of durations, and how many there were.
#[derive(Clone, Copy)]
pub struct CountedDuration {
    // At most `Duration::MAX`.
    nanos: u128,
    count: usize,
}

impl Model for CountedDuration {
    ghost use Rattle.std.specs.Duration.{FitsDuration};
    ghost use Rattle.giputils_stat.specs.Tally.{Tally};

    ghost Value = { Tally };

    ghost view = { λ s. record { sum = s.nanos; count = s.count } };

    ghost invariant = { λ s. FitsDuration s.nanos };

    ghost inverse = { λ t. record { nanos = t.sum; count = t.count } };
}

impl CountedDuration {
    /// The sum of the durations.
    #[inline]
    pub fn sum(&self) -> Duration
        ensures { as_nanos result ≡ self.now.sum }
    {
        Duration::from_nanos_u128(self.nanos)
    }

    // The sum in nanoseconds.
    #[inline]
    pub(crate) fn nanos(&self) -> u128
        ensures value { result ≡ self.now.sum }
        ensures fits { FitsDuration result }
    {
        self.nanos
    }

    /// How many durations were added.
    #[inline]
    pub fn count(&self) -> usize
        ensures { result ≡ self.now.count }
    {
        self.count
    }

    /// Whether `duration` can be added.
    ///
    /// The sum stays at most `Duration::MAX`, and the count at most `usize::MAX`.
    #[inline]
    pub fn can_add(&self, duration: Duration) -> bool
        ensures { IsTrue result ↔ CanAddNanos self.now (as_nanos duration) }
    {
        self.count < usize::MAX && self.nanos + duration.as_nanos() <= MAX_NANOS
    }

    /// Whether the durations of `other` can be added, within the same bounds.
    #[inline]
    pub fn can_merge(&self, other: &Self) -> bool
        ensures { IsTrue result ↔ CanAddBoth self.now other.now }
    {
        other.count <= usize::MAX - self.count && self.nanos + other.nanos <= MAX_NANOS
    }
}

/// No duration was added.
impl Default for CountedDuration {
    ghost is_default = { λ s. s ≡ no_terms };

    #[inline]
    fn default() -> Self {
        CountedDuration { nanos: 0, count: 0 }
    }
}

/// Adds a duration. [`CountedDuration::can_add`] must hold.
impl AddAssign<Duration> for CountedDuration {
    ghost can_add_assign = { λ s d. CanAddNanos s (as_nanos d) };

    ghost add_assign_gives = { λ s d t. t ≡ with_term s (as_nanos d) };

    #[inline]
    fn add_assign(&mut self, duration: Duration) {
        self.nanos += duration.as_nanos();
        self.count += 1;
    }
}

/// Adds the durations of another sum. [`CountedDuration::can_merge`] must hold.
impl AddAssign for CountedDuration {
    ghost can_add_assign = { CanAddBoth };

    ghost add_assign_gives = { λ s t u. u ≡ with_terms s t };

    #[inline]
    fn add_assign(&mut self, other: Self) {
        self.nanos += other.nanos;
        self.count += other.count;
    }
}

/// The count, and the sum in seconds with six decimals.
impl Debug for CountedDuration {
    ghost debug_output = { λ s. Some (counted_duration_text s) };

    fn fmt<W: fmt::Write>(&self, f: &mut fmt::Formatter<W>) -> fmt::Result {
        let sum = Seconds {
            nanos: self.nanos,
            places: 6,
        };
        write!(f, "{} times in {sum}", self.count)
    }
}
