//! How far a search is, in lines on standard error.
use crate::errors::Failure;
use crate::snapshot::Snapshot;
use crate::witnesses::Witnesses;
use gip_cli::{Clock, Comments, Peak, Seconds, every_interval};
use gipmc_command::Options;
use gipmc_engines::{Event, Observer};
use giputils_stat::logger::IntervalLogger;
use log::Level;
use std::io::IsTerminal;
use std::ops::ControlFlow;
use std::time::Duration;

/// Writes now and then how far a search is, where standard error is a terminal or that is asked for, and a summary of
/// each, if that is wanted, and the files of witnesses. It stops a search when the time is over, or the memory used up.
pub struct Teller<'a, 'n> {
    rt: &'a HostRuntime,
    // It began as the program did.
    clock: Clock<'a>,
    logger: IntervalLogger,
    // How long all may take, if that is said.
    time: Option<Duration>,
    // How many megabytes all may take, if that is said.
    memory: Option<usize>,
    // Whether lines are written while the search goes on.
    is_told: bool,
    // Whether summaries are written.
    stats: bool,
    // The letter of what is searched for: `b` for bad literals, `j` for justice properties.
    letter: char,
    // It began with the search about this property. How far that is.
    begun: Clock<'a>,
    snapshot: Snapshot,
    witnesses: Witnesses<'n>,
}

// One call in its owners' proofs, in place of one for each field.
impl Drop for Teller<'_, '_> {
    fn drop(self) {
        let Teller {
            rt: _,
            clock,
            logger,
            time: _,
            memory: _,
            is_told: _,
            stats: _,
            letter,
            begun,
            snapshot: _,
            witnesses: _,
        } = self;
    }
}

impl<'a, 'n> Teller<'a, 'n> {
    /// Before the searches, of a program that began as the clock did.
    pub fn new(rt: &'a HostRuntime, options: &Options<'n>, clock: Clock<'a>) -> Self {
        Teller {
            rt,
            clock,
            logger: every_interval(),
            time: time_asked(options),
            memory: options.asked.number("--memory"),
            is_told: options.asked.has("--verbose")
                || (!options.asked.has("--quiet") && rt.stderr().is_terminal()),
            stats: options.asked.has("--stats"),
            letter: 'b',
            begun: clock,
            snapshot: Snapshot::new('b', 0),
            witnesses: Witnesses::new(options.asked.word("--witness")),
        }
    }

    /// Whether each witness was written to its file, if that is wanted.
    ///
    /// # Errors
    /// Why the first one was not that was not.
    pub fn kept(&self) -> Result<(), Failure<'n>> {
        self.witnesses.kept()
    }

    /// Goes on with justice properties.
    pub fn go_on_with_justice(&mut self) {
        self.letter = 'j';
    }

    /// Writes how long all took, and how much memory, where summaries are wanted.
    pub fn sum_up(&self) {
        if self.stats {
            let took = Seconds(self.clock.now());
            let _ = eprintln!(self.rt; "c {took}{}", Peak::now(self.rt));
        }
    }

    // Begins to tell of the search about the property at a place.
    fn begin(&mut self, place: usize) -> ControlFlow<()> {
        self.begun = Clock::start(self.rt);
        self.snapshot = Snapshot::new(self.letter, place);
        self.go_on(self.clock.now())
    }

    // Says where a trace may not be a shortest one, though one was looked for.
    fn end_shortening(&self, is_shortest: bool) {
        if !is_shortest {
            let Snapshot { letter, place, .. } = self.snapshot;
            let _ = eprintln!(self.rt; "c {letter}{place}: there may be a shorter trace");
        }
    }

    // Says where memory was refused, and sums up the search about a property, if that is wanted.
    fn end(&self, is_refused: bool) {
        if is_refused {
            let Snapshot { letter, place, .. } = self.snapshot;
            let _ = eprintln!(self.rt; "memory: refused ({letter}{place} is left open)");
        }
        if self.stats {
            let took = Seconds(self.begun.now());
            let _ = eprintln!(self.rt; "c {}{took}", self.snapshot);
        }
    }

    // Whether there is time and memory to go on.
    fn go_on(&self, now: Duration) -> ControlFlow<()> {
        if self.is_late(now) || self.is_full() {
            ControlFlow::Break(())
        } else {
            ControlFlow::Continue(())
        }
    }

    // Whether the time is over.
    fn is_late(&self, now: Duration) -> bool {
        match self.time {
            Some(time) => now >= time,
            None => false,
        }
    }

    // Whether the memory is used up.
    fn is_full(&self) -> bool {
        match self.memory {
            Some(megabytes) => Peak::now(self.rt).reaches(megabytes),
            None => false,
        }
    }

    // Writes how far it is, where that is due.
    fn tell(&mut self) -> ControlFlow<()> {
        let now = self.clock.now();
        if self.is_told {
            let took = Seconds(self.begun.now());
            let told = format_args!("{}{took}", self.snapshot);
            self.logger
                .log(&Comments::new(self.rt), now, Level::Info, &told);
        }
        self.go_on(now)
    }
}

// How long all may take, if that is said.
fn time_asked(options: &Options) -> Option<Duration> {
    match options.asked.number("--time") {
        Some(seconds) => Some(Duration::from_secs(seconds as u64)),
        None => None,
    }
}

impl Observer for Teller<'_, '_> {
    fn note(&mut self, event: Event<'_>) -> ControlFlow<()> {
        self.snapshot.note(event);
        match event {
            Event::Begin(place) => return self.begin(place),
            Event::Turn => return self.go_on(self.clock.now()),
            Event::Rounds(_)
            | Event::Moments(_)
            | Event::Depth { .. }
            | Event::Slice { .. }
            | Event::Step { .. } => return self.tell(),
            Event::Decided(_) => {}
            Event::Shortened { is_shortest } => self.end_shortening(is_shortest),
            Event::Witness { place, text } => {
                self.witnesses.keep(self.rt, self.letter, place, text);
            }
            Event::End { is_refused } => self.end(is_refused),
        }
        ControlFlow::Continue(())
    }
}
