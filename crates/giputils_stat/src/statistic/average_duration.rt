//! The average of durations.
ghost use Rattle.std.specs.Prelude.{◌≡◌, ◌↔◌, ◌/◌, Some, IsTrue, IsNone, IfSome};
ghost use Rattle.std.specs.Duration.{as_nanos};
ghost use Rattle.giputils_stat.specs.Tally.{no_terms, with_term, with_terms, CanAddNanos, CanAddBoth};
ghost use Rattle.giputils_stat.specs.Texts.{average_duration_text};

use super::counted_duration::CountedDuration;
use crate::decimal::Seconds;
use std::fmt::{self, Debug, Display};
use std::marker::Model;
use std::ops::AddAssign;
use std::time::Duration;

/// The average of durations, rounded down to whole nanoseconds.
#[derive(Clone, Copy)]
pub struct AverageDuration {
    total: CountedDuration,
}

impl Model for AverageDuration {
    ghost use Rattle.giputils_stat.specs.Tally.{Tally};

    ghost Value = { Tally };

    ghost view = { λ a. a.total };

    ghost inverse = { λ t. record { total = t } };
}

impl AverageDuration {
    /// The sum of the durations.
    #[inline]
    pub fn sum(&self) -> Duration
        ensures { as_nanos result ≡ self.now.sum }
    {
        self.total.sum()
    }

    /// How many durations were added.
    #[inline]
    pub fn count(&self) -> usize
        ensures { result ≡ self.now.count }
    {
        self.total.count()
    }

    /// The average, rounded down to whole nanoseconds, or `None` where nothing was added.
    #[inline]
    pub fn mean(&self) -> Option<Duration>
        ensures none { IsNone result ↔ (self.now.count ≡ 0) }
        ensures mean { IfSome result (λ d. as_nanos d ≡ self.now.sum / self.now.count) }
    {
        let count = self.count();
        if count == 0 {
            return None;
        }
        Some(Duration::from_nanos_u128(self.total.nanos() / count as u128))
    }

    /// Whether `duration` can be added.
    ///
    /// The sum stays at most `Duration::MAX`, and the count at most `usize::MAX`.
    #[inline]
    pub fn can_add(&self, duration: Duration) -> bool
        ensures { IsTrue result ↔ CanAddNanos self.now (as_nanos duration) }
    {
        self.total.can_add(duration)
    }

    /// Whether the durations of `other` can be added, within the same bounds.
    #[inline]
    pub fn can_merge(&self, other: &Self) -> bool
        ensures { IsTrue result ↔ CanAddBoth self.now other.now }
    {
        self.total.can_merge(&other.total)
    }
}

/// No duration was added.
impl Default for AverageDuration {
    ghost is_default = { λ a. a ≡ no_terms };

    #[inline]
    fn default() -> Self {
        AverageDuration {
            total: CountedDuration::default(),
        }
    }
}

/// Adds a duration. [`AverageDuration::can_add`] must hold.
impl AddAssign<Duration> for AverageDuration {
    ghost can_add_assign = { λ a d. CanAddNanos a (as_nanos d) };

    ghost add_assign_gives = { λ a d b. b ≡ with_term a (as_nanos d) };

    #[inline]
    fn add_assign(&mut self, duration: Duration) {
        self.total += duration;
    }
}

/// Adds the durations of another average. [`AverageDuration::can_merge`] must hold.
impl AddAssign for AverageDuration {
    ghost can_add_assign = { CanAddBoth };

    ghost add_assign_gives = { λ a b c. c ≡ with_terms a b };

    #[inline]
    fn add_assign(&mut self, other: Self) {
        self.total += other.total;
    }
}

/// The average in seconds with nine decimals, or `None` where nothing was added.
impl Debug for AverageDuration {
    ghost debug_output = { λ a. Some (average_duration_text a) };

    fn fmt<W: fmt::Write>(&self, f: &mut fmt::Formatter<W>) -> fmt::Result {
        let Some(average) = self.mean() else {
            return f.write_str("None");
        };
        let average = Seconds {
            nanos: average.as_nanos(),
            places: 9,
        };
        Display::fmt(&average, f)
    }
}
