//! The time since a beginning.
ghost use Rattle.std.specs.Prelude.{◌≡◌, ◌+◌, ◌-◌, ◌≤◌};
ghost use Rattle.std.specs.Duration.{as_nanos};

use crate::decimal::Seconds;
use std::marker::Model;
use std::time::Duration;

/// The time since a beginning.
///
/// Moments are times since one that the caller chose, and are handed in. A moment before the beginning counts as the
/// beginning.
#[derive(Clone, Drop)]
pub struct RunningTime {
    start: Duration,
}

impl Model for RunningTime {
    ghost use Rattle.std.specs.Prelude.{ℕ};
    ghost use Rattle.std.specs.Duration.{as_nanos};

    ghost Value = { ℕ };

    ghost view = { λ t. as_nanos t.start };
}

impl RunningTime {
    /// A time that begins at `now`.
    #[inline]
    pub fn new(now: Duration) -> Self
        ensures { result ≡ as_nanos now }
    {
        RunningTime { start: now }
    }

    /// How long it has run at `now`.
    #[inline]
    pub fn time(&self, now: Duration) -> Duration
        ensures { as_nanos result ≡ as_nanos now - self.now }
    {
        now.saturating_sub(self.start)
    }

    /// A mark of how long it has run at `now`, for [`RunningTime::from_label`].
    #[inline]
    pub fn label(&self, now: Duration) -> Duration
        ensures { as_nanos result ≡ as_nanos now - self.now }
    {
        self.time(now)
    }

    /// How long it has run at `now` since a label was made.
    ///
    /// The label must be at most [`RunningTime::time`] at `now`.
    #[inline]
    pub fn from_label(&self, now: Duration, label: Duration) -> Duration
        requires { as_nanos label ≤ as_nanos now - self.now }
        ensures { as_nanos result + as_nanos label ≡ as_nanos now - self.now }
    {
        self.time(now) - label
    }

    /// What shows how long it has run at `now`, in seconds with two decimals.
    #[inline]
    pub fn show(&self, now: Duration) -> Seconds
        ensures nanos { result.nanos ≡ as_nanos now - self.now }
        ensures places { result.places ≡ 2 }
    {
        Seconds {
            nanos: self.time(now).as_nanos(),
            places: 2,
        }
    }
}
