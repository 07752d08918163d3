//! Successes and failures.
ghost use Rattle.std.specs.Prelude.{◌≡◌, ◌*◌, ◌↔◌, Some, IsTrue, if◌then◌else◌};
ghost use Rattle.giputils_stat.specs.Tally.{no_outcomes, tries, CanTry, CanTryBoth, with_success, with_failure, with_outcomes};
ghost use Rattle.giputils_stat.specs.Texts.{success_rate_text};

use crate::decimal::Ratio;
use std::fmt::{self, Debug};
use std::marker::Model;
use std::ops::{Add, AddAssign};

/// How often something succeeded and how often it failed.
#[derive(Clone, Copy)]
pub struct SuccessRate {
    successes: usize,
    failures: usize,
}

impl Model for SuccessRate {
    ghost use Rattle.std.specs.Prelude.{◌+◌, ◌≤◌};
    ghost use Rattle.giputils_stat.specs.Tally.{Outcomes, usize_max};

    ghost Value = { Outcomes };

    ghost view = { λ r. record { successes = r.successes; failures = r.failures } };

    ghost invariant = { λ r. r.successes + r.failures ≤ usize_max };

    ghost inverse = { λ o. record { successes = o.successes; failures = o.failures } };
}

impl SuccessRate {
    /// How often it succeeded.
    #[inline]
    pub fn successes(&self) -> usize
        ensures { result ≡ self.now.successes }
    {
        self.successes
    }

    /// How often it failed.
    #[inline]
    pub fn failures(&self) -> usize
        ensures { result ≡ self.now.failures }
    {
        self.failures
    }

    /// How often it was tried: successes and failures together.
    #[inline]
    pub fn count(&self) -> usize
        ensures { result ≡ tries self.now }
    {
        self.successes + self.failures
    }

    /// Whether one more outcome can be counted: the count stays at most `usize::MAX`.
    #[inline]
    pub fn can_add(&self) -> bool
        ensures { IsTrue result ↔ CanTry self.now }
    {
        self.count() < usize::MAX
    }

    /// Whether the outcomes of `other` can be counted too, within the same bound.
    #[inline]
    pub fn can_merge(&self, other: &Self) -> bool
        ensures { IsTrue result ↔ CanTryBoth self.now other.now }
    {
        other.count() <= usize::MAX - self.count()
    }

    /// Counts a success. [`SuccessRate::can_add`] must hold.
    #[inline]
    pub fn success(&mut self)
        requires { CanTry self.old }
        ensures { self.new ≡ with_success self.old }
    {
        self.successes += 1;
    }

    /// Counts a failure. [`SuccessRate::can_add`] must hold.
    #[inline]
    pub fn fail(&mut self)
        requires { CanTry self.old }
        ensures { self.new ≡ with_failure self.old }
    {
        self.failures += 1;
    }

    /// Counts a success or a failure. [`SuccessRate::can_add`] must hold.
    #[inline]
    pub fn statistic(&mut self, success: bool)
        requires { CanTry self.old }
        ensures { self.new ≡ (if success then with_success self.old else with_failure self.old) }
    {
        if success {
            self.success();
        } else {
            self.fail();
        }
    }
}

impl SuccessRate {
    // How many of a hundred succeeded, to two decimals.
    fn rate(&self) -> Ratio
        ensures successes { result.numerator ≡ 100 * self.now.successes }
        ensures tries { result.denominator ≡ tries self.now }
        ensures places { result.places ≡ 2 }
    {
        Ratio {
            numerator: 100 * self.successes as u128,
            denominator: self.count() as u64,
            places: 2,
        }
    }
}

/// Nothing was tried.
impl Default for SuccessRate {
    ghost is_default = { λ r. r ≡ no_outcomes };

    #[inline]
    fn default() -> Self {
        SuccessRate {
            successes: 0,
            failures: 0,
        }
    }
}

/// The outcomes of both. [`SuccessRate::can_merge`] must hold.
impl Add for SuccessRate {
    type Output = Self;

    ghost can_add = { CanTryBoth };

    ghost add_gives = { λ r s t. t ≡ with_outcomes r s };

    #[inline]
    fn add(self, other: Self) -> Self {
        SuccessRate {
            successes: self.successes + other.successes,
            failures: self.failures + other.failures,
        }
    }
}

/// Adds the outcomes of another. [`SuccessRate::can_merge`] must hold.
impl AddAssign for SuccessRate {
    ghost can_add_assign = { CanTryBoth };

    ghost add_assign_gives = { λ r s t. t ≡ with_outcomes r s };

    #[inline]
    fn add_assign(&mut self, other: Self) {
        *self = *self + other;
    }
}

/// Both numbers, and the rate in percent with two decimals, which is `NaN` where nothing was tried.
impl Debug for SuccessRate {
    ghost debug_output = { λ r. Some (success_rate_text r) };

    fn fmt<W: fmt::Write>(&self, f: &mut fmt::Formatter<W>) -> fmt::Result {
        let SuccessRate {
            successes,
            failures,
        } = *self;
        let rate = self.rate();
        write!(
            f,
            "success: {successes}, fail: {failures}, success rate: {rate}%"
        )
    }
}
