//! An average with a label, passed on now and then.
ghost use Rattle.std.specs.Prelude.{◌≡◌, ◌++◌, codes, Some};
ghost use Rattle.std.specs.Bool.{OnTrue, OnFalse};
ghost use Rattle.std.specs.Duration.{as_nanos};
ghost use Rattle.giputils.specs.Due.{is_due};
ghost use Rattle.giputils.specs.Tally.{with_term};
ghost use Rattle.giputils.specs.Texts.{average_text};

use giputils::logger::IntervalLogger;
use giputils::statistic::Average;
use log::{Level, Log};
use std::fmt;
use std::time::Duration;

/// An average with its name.
#[derive(Clone, Copy)]
pub struct Labelled<'a> {
    /// What the numbers are.
    pub label: &'a str,
    /// Their average.
    pub average: Average,
}

/// The label, a colon, and the average to six decimals.
impl fmt::Display for Labelled<'_> {
    ghost output = { λ x. Some (x.label.now ++ codes ": " ++ average_text x.average) };

    fn fmt<W: fmt::Write>(&self, f: &mut fmt::Formatter<W>) -> fmt::Result {
        write!(f, "{}: {:?}", self.label, self.average)
    }
}

/// Adds a number where one more can be counted, and answers whether it did.
///
/// Shows the call that tests the condition of `+=`.
pub fn observe(average: &mut Average, number: usize) -> bool
    ensures added { OnTrue result (average.new ≡ with_term average.old number) }
    ensures full { OnFalse result (average.new ≡ average.old) }
{
    let can_add = average.can_add();
    if can_add {
        *average += number;
    }
    can_add
}

/// Passes the average on where that is due at `now`, which it answers, and is then next due an interval later.
///
/// Shows a type of one's own as the message of an interval logger.
pub fn report<R: Log>(
    logger: &mut IntervalLogger,
    rt: &R,
    now: Duration,
    labelled: &Labelled<'_>,
) -> bool
    ensures due { result ≡ is_due logger.old (as_nanos now) }
    ensures next { OnTrue result (logger.new ≡ record logger.old { last = as_nanos now }) }
    ensures not_yet { OnFalse result (logger.new ≡ logger.old) }
{
    logger.log(rt, now, Level::Info, labelled)
}
