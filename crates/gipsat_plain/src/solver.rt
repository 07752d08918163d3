//! The solver as what asks one sees it.
ghost use Rattle.std.specs.Prelude.{◌≡◌, [], ⊤, IfNone, IfOk, IfSome};
ghost use Rattle.gipsat_cnf.specs.Answers.{IsRightOr};

use crate::search::{core_of, decide};
use gipsat_cnf::{AnswerUnder, Budget, ClauseSink, Cnf, Effort, Guess, Literal, SatSolver};
use std::alloc::{AllocError, Global};

/// A formula, and the values of the last model.
pub struct Plain {
    alloc: Global,
    formula: Cnf,
    values: Vec<bool>,
    // How many literals were tried.
    steps: u64,
}

// One call in its owners' proofs, in place of one for each field.
impl Drop for Plain {
    fn drop(self) {
        let Plain {
            alloc: _,
            formula,
            values,
            steps: _,
        } = self;
    }
}

impl ClauseSink for Plain {
    ghost formula = { λ plain. plain.formula };

    fn add_clause(&mut self, clause: &[Literal]) -> Result<(), AllocError> {
        self.formula.push(clause)
    }
}

impl Plain {
    // What is found under the assumptions.
    fn decide(&mut self, assumptions: &[Literal]) -> Result<AnswerUnder, AllocError>
        ensures right { IfOk result (IsRightOr self.old.formula assumptions.now ⊤) }
        ensures formula { self.new.formula ≡ self.old.formula }
    {
        let left = self.formula.variables();
        match decide(
            self.alloc,
            &self.formula,
            assumptions,
            left,
            &mut self.steps,
        )? {
            Some(model) => {
                self.values = model.to_vec(self.alloc)?;
                Ok(AnswerUnder::Sat(model))
            }
            None => {
                let core = core_of(self.alloc, &self.formula, assumptions, &mut self.steps)?;
                Ok(AnswerUnder::Unsat(core))
            }
        }
    }
}

impl SatSolver for Plain {
    fn new(alloc: Global) -> Self {
        Plain {
            alloc,
            formula: Cnf::new(alloc),
            values: Vec::new(alloc),
            steps: 0,
        }
    }

    fn solve_limited(
        &mut self,
        assumptions: &[Literal],
        _budget: Budget,
    ) -> Result<AnswerUnder, AllocError> {
        self.decide(assumptions)
    }

    fn guess_within(
        &mut self,
        _domain: &[u32],
        assumptions: &[Literal],
        _limit: usize,
    ) -> Result<Guess, AllocError> {
        match self.decide(assumptions)? {
            AnswerUnder::Sat(_) => Ok(Guess::Sat),
            AnswerUnder::Unsat(core) => Ok(Guess::Unsat(core)),
            AnswerUnder::Unknown => Ok(Guess::Unknown),
        }
    }

    fn value(&self, variable: u32) -> Option<bool> {
        self.values.get(variable as usize).copied()
    }

    fn find_model(&mut self) -> Result<Option<Vec<bool>>, AllocError> {
        let left = self.formula.variables();
        decide(self.alloc, &self.formula, &[], left, &mut self.steps)
    }

    fn simplify(&mut self) -> Result<(), AllocError> {
        Ok(())
    }

    fn eliminate(&mut self, _frozen: &[u32], _steps: u64) -> Result<(), AllocError> {
        Ok(())
    }

    fn vivify(&mut self, _propagations: u64) -> Result<(), AllocError> {
        Ok(())
    }

    fn effort(&self) -> Effort {
        Effort {
            clauses: self.formula.len(),
            learned: 0,
            propagations: self.steps,
        }
    }
}
