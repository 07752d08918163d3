//! A logger that speaks at most once an interval.
ghost use Rattle.std.specs.Prelude.{◌≡◌};
ghost use Rattle.std.specs.Bool.{OnTrue, OnFalse};
ghost use Rattle.std.specs.Duration.{as_nanos};
ghost use Rattle.giputils_stat.specs.Due.{is_due};

use log::{Level, Log, log};
use std::fmt::Display;
use std::marker::Model;
use std::time::Duration;

/// Passes a message on where the last one that it passed on is at least an interval ago.
///
/// A moment is the time since a beginning that the caller chose, and is handed in.
#[derive(Debug, Drop)]
pub struct IntervalLogger {
    last: Duration,
    interval: Duration,
}

impl Model for IntervalLogger {
    ghost use Rattle.std.specs.Duration.{as_nanos};
    ghost use Rattle.giputils_stat.specs.Due.{Schedule};

    ghost Value = { Schedule };

    ghost view = { λ l. record { last = as_nanos l.last; interval = as_nanos l.interval } };
}

impl IntervalLogger {
    /// A logger that is first due an interval after `now`.
    #[inline]
    pub fn new(now: Duration, interval: Duration) -> Self
        ensures { result ≡ record { last = as_nanos now; interval = as_nanos interval } }
    {
        IntervalLogger {
            last: now,
            interval,
        }
    }

    /// A logger with an interval of 10 seconds.
    #[inline]
    pub fn with_default(now: Duration) -> Self
        ensures { result ≡ record { last = as_nanos now; interval = 10_000_000_000 } }
    {
        Self::new(now, Duration::from_secs(10))
    }

    /// Whether a message would be passed on at `now`.
    ///
    /// A `now` before the last moment counts as that moment.
    #[inline]
    pub fn due(&self, now: Duration) -> bool
        ensures { result ≡ is_due self.now (as_nanos now) }
    {
        now.saturating_sub(self.last).as_nanos() >= self.interval.as_nanos()
    }

    /// Passes `msg` on at `level` where that is due, which it answers, and is then next due an interval after `now`.
    ///
    /// That `rt` doesn't log this level makes no difference to the answer and to when the next message is due.
    #[inline]
    pub fn log<R: Log, T: Display>(&mut self, rt: &R, now: Duration, level: Level, msg: &T) -> bool
        ensures due { result ≡ is_due self.old (as_nanos now) }
        ensures moved { OnTrue result (self.new ≡ record self.old { last = as_nanos now }) }
        ensures kept { OnFalse result (self.new ≡ self.old) }
    {
        let due = self.due(now);
        if due {
            log!(rt; level, "{msg}");
            self.last = now;
        }
        due
    }
}
