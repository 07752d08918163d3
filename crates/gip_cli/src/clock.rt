//! How much time is over, and when a line on that is due.
use giputils_stat::logger::IntervalLogger;
use std::fmt::{self, Display};
use std::time::{Duration, Instant};

// How many seconds it is at least from one line to the next.
const INTERVAL_SECONDS: u64 = 5;

/// The time since a beginning, or none where there is no clock.
#[derive(Clone, Copy)]
pub struct Clock<'a> {
    rt: &'a HostRuntime,
    started: Option<Instant>,
}

impl<'a> Clock<'a> {
    /// It begins now.
    pub fn start(rt: &'a HostRuntime) -> Self {
        Clock {
            rt,
            started: Instant::now(rt).ok(),
        }
    }

    /// How much time is over.
    pub fn now(&self) -> Duration {
        match self.started {
            Some(started) => started.elapsed(self.rt).unwrap_or(Duration::from_secs(0)),
            None => Duration::from_secs(0),
        }
    }
}

/// A time in seconds, to a thousandth.
#[derive(Clone, Copy)]
pub struct Seconds(pub Duration);

impl Display for Seconds {
    fn fmt<W: fmt::Write>(&self, f: &mut fmt::Formatter<W>) -> fmt::Result {
        write!(f, "{}.{:03} s", self.0.as_secs(), self.0.subsec_millis())
    }
}

/// A logger of lines on progress. The first is due five seconds after the beginning of a clock, and each other one five
/// seconds after that before it.
pub fn every_interval() -> IntervalLogger {
    IntervalLogger::new(
        Duration::from_secs(0),
        Duration::from_secs(INTERVAL_SECONDS),
    )
}
