//! How far the search about a property is, as it is written in a line.

use gipmc_engines::{Event, Technique};
use gipmc_ic3::Statistics;
use giputils_stat::decimal::Decimal;
use std::fmt::{self, Display};

// The decimals of an average.
const PLACES: u32 = 2;

/// How far the search about a property is. A part that did not run says nothing.
#[derive(Clone, Copy)]
pub struct Snapshot {
    /// The letter of its kind.
    pub letter: char,
    /// Its place.
    pub place: usize,
    /// What simulation found nothing in.
    pub simulated: Simulated,
    /// How far bounded model checking is.
    pub unrolled: Unrolled,
    /// How far k-induction is.
    pub inductive: Inductive,
    /// How far IC3 is.
    pub framed: Framed,
    /// What decided.
    pub decided: Decided,
}

impl Snapshot {
    /// Before the search.
    pub fn new(letter: char, place: usize) -> Self {
        Snapshot {
            letter,
            place,
            simulated: Simulated {
                rounds: 0,
                moments: 0,
            },
            unrolled: Unrolled(None),
            inductive: Inductive(None),
            framed: Framed(None),
            decided: Decided(None),
        }
    }

    /// Takes down what an event says of how far the search is.
    pub fn note(&mut self, event: Event<'_>) {
        match event {
            Event::Rounds(rounds) => self.simulated.end_round(rounds),
            Event::Moments(moments) => self.simulated.moments = moments,
            Event::Depth {
                depth,
                clauses,
                learned,
            } => self.unrolled = Unrolled(Some((depth, Held { clauses, learned }))),
            Event::Slice { frame, statistics } => self.framed = Framed(Some((frame, statistics))),
            Event::Step {
                k,
                clauses,
                learned,
            } => self.inductive = Inductive(Some((k, Held { clauses, learned }))),
            Event::Decided(technique) => self.decided = Decided(Some(technique)),
            Event::Begin(_)
            | Event::Turn
            | Event::Shortened { .. }
            | Event::Witness { .. }
            | Event::End { .. } => {}
        }
    }
}

impl Display for Snapshot {
    fn fmt<W: fmt::Write>(&self, f: &mut fmt::Formatter<W>) -> fmt::Result {
        write!(
            f,
            "{}{}: {}{}{}{}{}",
            self.letter,
            self.place,
            self.simulated,
            self.unrolled,
            self.inductive,
            self.framed,
            self.decided
        )
    }
}

/// Of simulation: how many rounds found nothing, and how many moments of the next one.
#[derive(Clone, Copy)]
pub struct Simulated {
    pub rounds: usize,
    pub moments: usize,
}

impl Simulated {
    // So many rounds found nothing. No moment of the next one is over, unless it was told before.
    fn end_round(&mut self, rounds: usize) {
        if rounds != self.rounds {
            *self = Simulated { rounds, moments: 0 };
        }
    }
}

impl Display for Simulated {
    fn fmt<W: fmt::Write>(&self, f: &mut fmt::Formatter<W>) -> fmt::Result {
        if self.rounds > 0 {
            write!(f, "round {}; ", self.rounds)?;
        }
        if self.moments > 0 {
            write!(
                f,
                "{} moments of round {}; ",
                self.moments,
                self.rounds.saturating_add(1)
            )?;
        }
        Ok(())
    }
}

/// What a solver holds: clauses, and how many it has learned so far.
#[derive(Clone, Copy)]
pub struct Held {
    pub clauses: usize,
    pub learned: usize,
}

impl Display for Held {
    fn fmt<W: fmt::Write>(&self, f: &mut fmt::Formatter<W>) -> fmt::Result {
        write!(
            f,
            "{} clauses kept, {} learned; ",
            self.clauses, self.learned
        )
    }
}

/// Of bounded model checking: how many transitions the traces have that come next, and what its solver holds.
#[derive(Clone, Copy)]
pub struct Unrolled(pub Option<(usize, Held)>);

impl Display for Unrolled {
    fn fmt<W: fmt::Write>(&self, f: &mut fmt::Formatter<W>) -> fmt::Result {
        match self.0 {
            Some((depth, held)) => write!(f, "depth {depth}, {held}"),
            None => Ok(()),
        }
    }
}

/// Of k-induction: the k that is asked about next, and what its solver holds.
#[derive(Clone, Copy)]
pub struct Inductive(pub Option<(usize, Held)>);

impl Display for Inductive {
    fn fmt<W: fmt::Write>(&self, f: &mut fmt::Formatter<W>) -> fmt::Result {
        match self.0 {
            Some((k, held)) => write!(f, "k {k}, {held}"),
            None => Ok(()),
        }
    }
}

/// Of IC3: the last frame, and what was done.
#[derive(Clone, Copy)]
pub struct Framed(pub Option<(usize, Statistics)>);

impl Display for Framed {
    fn fmt<W: fmt::Write>(&self, f: &mut fmt::Formatter<W>) -> fmt::Result {
        match &self.0 {
            Some((frame, statistics)) => write!(
                f,
                "frame {frame}, {} calls, {} obligations{}; ",
                statistics.calls,
                statistics.obligations,
                Lemmas(statistics)
            ),
            None => Ok(()),
        }
    }
}

// How many lemmas IC3 has learned, and how long they are, where there are some.
#[derive(Clone, Copy)]
struct Lemmas<'a>(&'a Statistics);

impl Display for Lemmas<'_> {
    fn fmt<W: fmt::Write>(&self, f: &mut fmt::Formatter<W>) -> fmt::Result {
        let (lemmas, literals) = (self.0.lemmas, self.0.literals);
        if lemmas == 0 {
            return Ok(());
        }
        let mean = Decimal {
            numerator: u128::from(literals),
            denominator: lemmas,
            places: PLACES,
        };
        write!(f, ", {mean} literals in each of {lemmas} lemmas")
    }
}

/// What decided, if anything did.
#[derive(Clone, Copy)]
pub struct Decided(pub Option<Technique>);

impl Display for Decided {
    fn fmt<W: fmt::Write>(&self, f: &mut fmt::Formatter<W>) -> fmt::Result {
        match self.0 {
            Some(Technique::Simulation) => f.write_str("decided by sim; "),
            Some(Technique::Ternary) => f.write_str("decided by ternary simulation; "),
            Some(Technique::Explicit) => f.write_str("decided by explicit states; "),
            Some(Technique::Bounded) => f.write_str("decided by bmc; "),
            Some(Technique::Induction) => f.write_str("decided by induction; "),
            Some(Technique::Ic3) => f.write_str("decided by ic3; "),
            None => Ok(()),
        }
    }
}
