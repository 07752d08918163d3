//! How far a run is, in lines on standard error, and when its limits are reached.
ghost use Rattle.std.specs.Prelude.{◌≡◌, false, is_some, IfOk, IfSome, IsTrue};
ghost use Rattle.gipsat.specs.Searched.{has_limit};
ghost use Rattle.gipsat.specs.Watched.{has_stats, is_quiet};

use gip_cli::{Clock, Comments, Peak, Seconds, every_interval};
use gipsat_cnf::{Cnf, Literal};
use gipsat_command::Options;
use gipsat_dimacs::Instance;
use gipsat_solver::progress::{Progress, Report};
use giputils_stat::logger::IntervalLogger;
use giputils_stat::statistic::MovingAverage;
use log::Level;
use std::alloc::AllocError;
use std::fmt::{self, Display};
use std::io::{self, Read};
use std::ops::ControlFlow;
use std::time::Duration;

// How many of the last clauses count for their average length.
const LAST: usize = 1_000;

// The decimals of an average.
const PLACES: u32 = 2;

// What is known, as it is written in a line.
#[derive(Clone, Copy)]
struct Snapshot<'a> {
    report: Report,
    lengths: &'a MovingAverage,
}

impl Display for Snapshot<'_> {
    fn fmt<W: fmt::Write>(&self, f: &mut fmt::Formatter<W>) -> fmt::Result {
        let stats = self.report.stats;
        write!(
            f,
            "{} conflicts, {} restarts, {} clauses kept, {} deleted{}",
            stats.conflicts,
            stats.restarts,
            self.report.clauses,
            stats.deleted,
            Lengths(self.lengths)
        )
    }
}

// How long the last learned clauses are, where there are some.
#[derive(Clone, Copy)]
struct Lengths<'a>(&'a MovingAverage);

impl Display for Lengths<'_> {
    fn fmt<W: fmt::Write>(&self, f: &mut fmt::Formatter<W>) -> fmt::Result {
        match self.0.average().mean(PLACES) {
            Some(mean) => write!(f, ", {mean} literals in each of the last learned"),
            None => Ok(()),
        }
    }
}

/// A reader that writes now and then how much was read.
#[derive(Drop)]
pub struct WatchedReader<'a, R: Read> {
    rt: &'a HostRuntime,
    /// What is read.
    pub reader: R,
    clock: Clock<'a>,
    logger: IntervalLogger,
    // Whether nothing is written.
    quiet: bool,
    // How many bytes were read.
    bytes: u64,
}

impl<'a, R: Read> WatchedReader<'a, R> {
    /// Before anything is read.
    pub fn new(rt: &'a HostRuntime, options: &Options, reader: R) -> Self
        ensures { result.reader ≡ reader }
    {
        WatchedReader {
            rt,
            reader,
            clock: Clock::start(rt),
            logger: every_interval(),
            quiet: is_quiet(options),
            bytes: 0,
        }
    }
}

impl<R: Read> Read for WatchedReader<'_, R> {
    ghost remaining = { λ watched. R.remaining watched.reader };

    fn read(&mut self, buf: &mut [u8]) -> io::Result<usize> {
        let read = self.reader.read(buf)?;
        self.bytes = self.bytes.saturating_add(read as u64);
        if !self.quiet {
            let now = self.clock.now();
            let told = format_args!("{} bytes read", self.bytes);
            self.logger
                .log(&Comments::new(self.rt), now, Level::Info, &told);
        }
        Ok(read)
    }
}

/// Writes now and then how far the search is. It stops none.
#[derive(Drop)]
pub struct Watch<'a> {
    rt: &'a HostRuntime,
    clock: Clock<'a>,
    logger: IntervalLogger,
    // Of the last learned clauses.
    lengths: MovingAverage,
    // Whether a slice of the search goes on, so that the clauses that are added were learned.
    is_searching: bool,
    // Whether no progress is written.
    quiet: bool,
    // Whether a summary is written at the end.
    stats: bool,
}

impl<'a> Watch<'a> {
    /// Before the formula is read: its time counts.
    pub fn new(rt: &'a HostRuntime, options: &Options) -> Result<Self, AllocError>
        ensures stats { IfOk result (λ watch. watch.stats ≡ has_stats options.now) }
        ensures quiet { IfOk result (λ watch. watch.quiet ≡ is_quiet options.now) }
    {
        Ok(Watch {
            rt,
            clock: Clock::start(rt),
            logger: every_interval(),
            lengths: MovingAverage::with_room(rt.alloc(), LAST)?,
            is_searching: false,
            quiet: is_quiet(options),
            stats: has_stats(options),
        })
    }

    /// This formula was read. It is written where a summary is wanted, or that took long.
    pub fn note_read(&self, instance: &Instance<Cnf>) {
        let now = self.clock.now();
        if !self.stats && (self.quiet || !self.logger.due(now)) {
            return;
        }
        let _ = eprintln!(self.rt;
            "c {} variables, {} clauses read in {}",
            instance.variables,
            instance.clauses.len(),
            Seconds(now)
        );
    }
}

// Whether no progress is written.
fn is_quiet(options: &Options) -> bool
    ensures { result ≡ is_quiet options.now }
{
    options.has("--quiet") && !options.has("--verbose")
}

// Whether a summary is written at the end.
fn has_stats(options: &Options) -> bool
    ensures { result ≡ has_stats options.now }
{
    options.has("--stats") && !options.has("--quiet")
}

impl Progress for Watch<'_> {
    ghost wants_stop = { λ _. false };

    fn wants_chains(&self) -> bool {
        false
    }

    fn begin(&mut self, _report: Report) {
        self.is_searching = true;
    }

    fn added(&mut self, _id: usize, clause: &[Literal], _chain: &[usize]) {
        if self.is_searching && !clause.is_empty() {
            self.lengths.push(clause.len());
        }
    }

    fn deleted(&mut self, _id: usize, _clause: &[Literal]) {}

    fn note(&mut self, report: Report) -> ControlFlow<()> {
        self.is_searching = false;
        if !self.quiet {
            let now = self.clock.now();
            let snapshot = Snapshot {
                report,
                lengths: &self.lengths,
            };
            self.logger
                .log(&Comments::new(self.rt), now, Level::Info, &snapshot);
        }
        ControlFlow::Continue(())
    }

    fn end(&mut self, report: Report) {
        if !self.stats {
            return;
        }
        let snapshot = Snapshot {
            report,
            lengths: &self.lengths,
        };
        let _ = eprintln!(self.rt; "c {snapshot}");
        let _ = eprintln!(self.rt;
            "c {} decisions, {} propagations",
            report.stats.decisions, report.stats.propagations
        );
        let _ = eprintln!(self.rt; "c {}{}", Seconds(self.clock.now()), Peak::now(self.rt));
    }
}

/// Stops the search at its limits.
#[derive(Clone, Copy)]
pub struct Limits<'a> {
    rt: &'a HostRuntime,
    clock: Clock<'a>,
    // After how much time, if after any.
    time: Option<Duration>,
    // At how many megabytes, if at any.
    memory: Option<usize>,
    // Whether the search was stopped.
    is_over: bool,
}

impl<'a> Limits<'a> {
    /// Those that are asked for, if any is. The time is over since the watch began.
    pub fn asked(watch: &Watch<'a>, options: &Options) -> Option<Self>
        ensures given { IfSome result (λ limits. IsTrue (has_limit options.now)) }
        ensures heeded { IsTrue (has_limit options.now) → IsTrue (is_some result) }
    {
        if !has_limit(options) {
            return None;
        }
        Some(Limits {
            rt: watch.rt,
            clock: watch.clock,
            time: duration(options.number("--time")),
            memory: options.number("--memory"),
            is_over: false,
        })
    }

    // Whether one is reached.
    fn is_reached(&self) -> bool {
        self.is_late() || self.is_full()
    }

    // Whether the time is over.
    fn is_late(&self) -> bool {
        match self.time {
            Some(time) => self.clock.now() >= time,
            None => false,
        }
    }

    // Whether so much memory was taken.
    fn is_full(&self) -> bool {
        match self.memory {
            Some(megabytes) => Peak::now(self.rt).reaches(megabytes),
            None => false,
        }
    }
}

// Whether a limit is given at which the search is stopped.
fn has_limit(options: &Options) -> bool
    ensures { result ≡ has_limit options.now }
{
    options.number("--time").is_some() || options.number("--memory").is_some()
}

// So many seconds.
fn duration(seconds: Option<usize>) -> Option<Duration> {
    match seconds {
        Some(seconds) => Some(Duration::from_secs(seconds as u64)),
        None => None,
    }
}

impl Progress for Limits<'_> {
    ghost wants_stop = { λ limits. limits.is_over };

    fn wants_chains(&self) -> bool {
        false
    }

    fn begin(&mut self, _report: Report) {}

    fn added(&mut self, _id: usize, _clause: &[Literal], _chain: &[usize]) {}

    fn deleted(&mut self, _id: usize, _clause: &[Literal]) {}

    fn note(&mut self, _report: Report) -> ControlFlow<()> {
        if !self.is_reached() {
            return ControlFlow::Continue(());
        }
        self.is_over = true;
        ControlFlow::Break(())
    }

    fn end(&mut self, _report: Report) {}
}
