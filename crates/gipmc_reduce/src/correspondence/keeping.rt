//! A solver that keeps what it has shown, for questions in an order in which each one follows from those before.
ghost use Rattle.std.specs.Prelude.{◌≡◌};
ghost use Rattle.gipsat_cnf.specs.Prelude.{IsSatisfiableUnder, SaysSame};

use gipsat_cnf::{AnswerUnder, Budget, ClauseSink, Cnf, Effort, Guess, Literal, SatSolver};
use std::alloc::{AllocError, Global};

// How many variables of a domain a question decides at first.
const NEAR: usize = 64;

/// A solver for a formula. Where it finds out that one or two assumptions can't be true, it has a clause that says so from
/// then on. So of two gates that are equal it is shown by the equality of their operands, which was asked about before.
pub(crate) struct Keeping<S: SatSolver + Drop> {
    // The formula.
    formula: Cnf,
    // A solver for it, and for clauses that follow from it.
    solver: S,
    // Where the variables that a question is about stood in the last domain.
    start: usize,
    pub ghost same: { SaysSame formula (S.formula solver) },
}

// One call in its owners' proofs, in place of one for each field.
impl<S: SatSolver + Drop> Drop for Keeping<S> {
    fn drop(self) {
        let Keeping {
            formula,
            solver,
            start: _,
        } = self;
    }
}

// Adds that not all literals of a core are true, if these are at most two.
fn keep<S: SatSolver>(solver: &mut S, core: &[Literal]) -> Result<(), AllocError>
    requires { ¬ (IsSatisfiableUnder (S.formula solver.old) core.now) }
    ensures { SaysSame (S.formula solver.old) (S.formula solver.new) }
{
    match core {
        [l] => solver.add_clause(&[l.negated()]),
        [l, m] => solver.add_clause(&[l.negated(), m.negated()]),
        _ => Ok(()),
    }
}

// Where the variable stands in a domain, at a place where it is looked for first, or elsewhere; or the end of the domain.
fn place_in(domain: &[u32], variable: u32, first: usize) -> usize {
    if domain.get(first) == Some(&variable) {
        return first;
    }
    for (place, found) in domain.iter().enumerate() {
        if *found == variable {
            return place;
        }
    }
    domain.len()
}

impl<S: SatSolver + Drop> Keeping<S> {
    // The variables of a domain from those of the assumptions on, as many as a question decides at first. What these
    // depend on stands behind them.
    fn near<'d>(&mut self, domain: &'d [u32], assumptions: &[Literal]) -> &'d [u32]
        ensures formula { self.new.formula ≡ self.old.formula }
        ensures solver { self.new.solver ≡ self.old.solver }
    {
        let Some(l) = assumptions.first() else {
            return domain;
        };
        self.start = place_in(domain, l.variable(), self.start);
        let behind = domain.get(self.start..).unwrap_or(domain);
        behind.get(..NEAR).unwrap_or(behind)
    }
}

impl<S: SatSolver + Drop> ClauseSink for Keeping<S> {
    ghost formula = { λ keeping. keeping.formula };

    fn add_clause(&mut self, clause: &[Literal]) -> Result<(), AllocError> {
        let len = self.formula.len();
        self.formula.push(clause)?;
        match self.solver.add_clause(clause) {
            Ok(()) => Ok(()),
            Err(refused) => {
                self.formula.truncate(len);
                Err(refused)
            }
        }
    }
}

impl<S: SatSolver + Drop> SatSolver for Keeping<S> {
    fn new(alloc: Global) -> Self {
        Keeping {
            formula: Cnf::new(alloc),
            solver: S::new(alloc),
            start: 0,
        }
    }

    fn solve_limited(
        &mut self,
        assumptions: &[Literal],
        budget: Budget,
    ) -> Result<AnswerUnder, AllocError> {
        match self.solver.solve_limited(assumptions, budget)? {
            AnswerUnder::Sat(model) => Ok(AnswerUnder::Sat(model)),
            AnswerUnder::Unsat(core) => {
                keep(&mut self.solver, &core)?;
                Ok(AnswerUnder::Unsat(core))
            }
            AnswerUnder::Unknown => Ok(AnswerUnder::Unknown),
        }
    }

    fn guess_within(
        &mut self,
        domain: &[u32],
        assumptions: &[Literal],
        limit: usize,
    ) -> Result<Guess, AllocError> {
        let near = self.near(domain, assumptions);
        if let Guess::Unsat(core) = self.solver.guess_within(near, assumptions, limit)? {
            keep(&mut self.solver, &core)?;
            return Ok(Guess::Unsat(core));
        }
        match self.solver.guess_within(domain, assumptions, limit)? {
            Guess::Sat => Ok(Guess::Sat),
            Guess::Unsat(core) => {
                keep(&mut self.solver, &core)?;
                Ok(Guess::Unsat(core))
            }
            Guess::Unknown => Ok(Guess::Unknown),
        }
    }

    fn value(&self, variable: u32) -> Option<bool> {
        self.solver.value(variable)
    }

    fn find_model(&mut self) -> Result<Option<Vec<bool>>, AllocError> {
        match self.solver.find_model()? {
            Some(model) => Ok(Some(model)),
            None => Ok(None),
        }
    }

    fn simplify(&mut self) -> Result<(), AllocError> {
        self.solver.simplify()
    }

    fn eliminate(&mut self, frozen: &[u32], steps: u64) -> Result<(), AllocError> {
        self.solver.eliminate(frozen, steps)
    }

    fn vivify(&mut self, propagations: u64) -> Result<(), AllocError> {
        self.solver.vivify(propagations)
    }

    fn effort(&self) -> Effort {
        self.solver.effort()
    }
}
