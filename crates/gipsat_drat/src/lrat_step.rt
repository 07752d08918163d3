//! A step of a proof with hints: a clause to add, or the names of clauses to delete.
ghost use Rattle.gipsat_drat.specs.Held.{Keeps};

use crate::error::{Flaw, Stop};
use crate::hint_list::{Hint, HintList};
use crate::joined::JoinedSteps;
use crate::lrat::LratChecker;
use crate::step::literal;
use crate::words::numeral_at;
use gipsat_cnf::Literal;
use std::alloc::{AllocError, Global};

// The greatest name.
pub(crate) const GREATEST_NAME: u64 = 1 << 55;

// What the next number of a step is.
#[derive(Clone, Copy, PartialEq, Eq)]
enum Part {
    // Its name, where the step has not begun.
    Start,
    // Its name, in bytes.
    Name,
    // A literal of its clause.
    Literals,
    // A hint.
    Hints,
    // The name of a clause to delete.
    Names,
}

// A step that has not ended.
pub(crate) struct LratStep {
    part: Part,
    name: u64,
    clause: Vec<Literal>,
    // The hints, or the names of the clauses to delete.
    hints: HintList,
}

// One call in its owners' proofs, in place of one for each field.
impl Drop for LratStep {
    fn drop(self) {
        let LratStep {
            part: _,
            name: _,
            clause,
            hints,
        } = self;
    }
}

impl LratStep {
    // The first one of a proof.
    pub(crate) fn new(alloc: Global) -> Self {
        LratStep {
            part: Part::Start,
            name: 0,
            clause: Vec::new(alloc),
            hints: HintList::new(alloc),
        }
    }

    // Whether it has a number, or is a deletion.
    pub(crate) fn is_begun(&self) -> bool {
        self.part != Part::Start
    }

    // Whether the next number may have a sign.
    pub(crate) fn is_signed(&self) -> bool {
        matches!(self.part, Part::Literals | Part::Hints)
    }

    // It adds a clause. In a text that goes without saying.
    pub(crate) fn begin_addition(&mut self) {
        self.part = Part::Name;
    }

    // It is a deletion. In a text that comes behind its name, in bytes there is none.
    pub(crate) fn begin_deletion(&mut self) -> Result<(), Flaw> {
        if !matches!(self.part, Part::Start | Part::Literals) || !self.clause.is_empty() {
            return Err(Flaw::Word);
        }
        self.part = Part::Names;
        Ok(())
    }

    // A number more. Whether the step ends by it.
    #[inline]
    pub(crate) fn push(&mut self, value: u64, positive: bool) -> Result<bool, Stop> {
        if value == 0 {
            return self.end_list(positive);
        }
        match self.part {
            Part::Start | Part::Name => self.begin(value, positive)?,
            Part::Literals => self.clause.push(literal(value, positive)?)?,
            Part::Hints => self.hints.push(Hint {
                name: value,
                positive,
            })?,
            Part::Names if positive => self.hints.push(Hint {
                name: value,
                positive,
            })?,
            Part::Names => return Err(Stop::Refused(Flaw::Unnamed)),
        }
        Ok(false)
    }

    // Reads the small numbers of a text from one place on, as far as they are its hints: the place behind them.
    pub(crate) fn read_hints(&mut self, bytes: &[u8], start: usize) -> Result<usize, AllocError> {
        let mut place = start;
        if self.part != Part::Hints {
            return Ok(place);
        }
        for _ in start..bytes.len() {
            let Some(numeral) = numeral_at(bytes, place) else {
                break;
            };
            if numeral.value == 0 || numeral.ends_line {
                break;
            }
            self.hints.push(Hint {
                name: numeral.value,
                positive: numeral.positive,
            })?;
            place = numeral.next;
        }
        Ok(place)
    }

    // Its name.
    fn begin(&mut self, name: u64, positive: bool) -> Result<(), Flaw> {
        if !positive {
            return Err(Flaw::Name);
        }
        self.name = name;
        self.part = Part::Literals;
        Ok(())
    }

    // The 0 behind a list. Whether the step ends by it.
    fn end_list(&mut self, positive: bool) -> Result<bool, Stop> {
        if !positive {
            return Err(Stop::Refused(Flaw::Variable));
        }
        match self.part {
            Part::Start | Part::Name => Err(Stop::Refused(Flaw::Name)),
            Part::Literals => {
                self.part = Part::Hints;
                Ok(false)
            }
            Part::Hints | Part::Names => Ok(true),
        }
    }

    // Gives it its names in a joined proof, and writes it there.
    pub(crate) fn join(&mut self, joined: &mut JoinedSteps) -> Result<(), Stop> {
        if self.part == Part::Names {
            joined.delete(&mut self.hints)
        } else {
            joined.add(&mut self.name, &self.clause, &mut self.hints)
        }
    }

    // Ends it, and begins the next one.
    pub(crate) fn end(&mut self, checker: &mut LratChecker) -> Result<(), Stop>
        ensures { Keeps checker.old checker.new }
    {
        if self.part == Part::Names {
            checker.delete_all(self.hints.as_slice())?;
        } else {
            checker.number(&mut self.clause)?;
            checker.add(self.name, &self.clause, self.hints.as_slice())?;
        }
        self.part = Part::Start;
        self.clause.clear();
        self.hints.clear();
        Ok(())
    }
}
