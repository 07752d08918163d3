//! Whether cubes cover a formula: a search by propagation alone, whose steps a checker of proofs reads.

use crate::lookahead::Lookahead;
use gipsat_cnf::{Cnf, Literal};
use gipsat_dimacs::write_clause;
use std::alloc::{AllocError, Global};

// How many steps a search may take for each cube, and besides.
const STEPS: usize = 1_000;

/// Steps of a DRAT proof, as text, that nothing satisfies some clauses: those of a formula, and behind them the negations
/// of its cubes. None where a search by propagation finds no proof, which decides on literals of cubes alone.
///
/// # Errors
/// `AllocError` where memory is refused.
pub fn cover_steps(
    alloc: Global,
    clauses: &Cnf,
    cubes: &Cnf,
) -> Result<Option<Vec<u8>>, AllocError> {
    let mut lookahead = Lookahead::new(alloc, clauses)?;
    let mut search = Search {
        cubes,
        decisions: Vec::new(alloc),
        step: Vec::new(alloc),
        text: Vec::new(alloc),
    };
    if search.run(&mut lookahead)? {
        let Search {
            cubes: _,
            decisions: _,
            step: _,
            text,
        } = search;
        return Ok(Some(text));
    }
    Ok(None)
}

/// The clauses of a formula, and behind them the negations of cubes.
///
/// # Errors
/// `AllocError` where memory is refused.
pub fn with_negations(alloc: Global, formula: &Cnf, cubes: &Cnf) -> Result<Cnf, AllocError> {
    let mut clauses = formula.clone()?;
    let mut negation = Vec::new(alloc);
    for place in 0..cubes.len() {
        negation.clear();
        for l in cubes.clause(place) {
            negation.push(l.negated())?;
        }
        clauses.push(&negation)?;
    }
    Ok(clauses)
}

// A literal that was decided, and how many were true before.
#[derive(Clone, Copy)]
struct Decision {
    literal: Literal,
    before: usize,
}

// A search for values outside of some cubes.
#[derive(Drop)]
struct Search<'a> {
    cubes: &'a Cnf,
    decisions: Vec<Decision>,
    // The last step, and the text of all.
    step: Vec<Literal>,
    text: Vec<u8>,
}

impl Search<'_> {
    // Whether there are no such values, which the steps show.
    fn run(&mut self, lookahead: &mut Lookahead<'_>) -> Result<bool, AllocError> {
        let steps = self.cubes.len().saturating_add(1).saturating_mul(STEPS);
        for _ in 0..steps {
            if !lookahead.has_conflict() {
                let Some(l) = self.open_literal(lookahead) else {
                    return Ok(false);
                };
                let before = lookahead.assigned();
                self.decisions.push(Decision { literal: l, before })?;
                lookahead.assume(l)?;
                continue;
            }
            self.write_step()?;
            let Some(last) = self.decisions.pop() else {
                return Ok(true);
            };
            lookahead.undo(last.before);
            lookahead.assume(last.literal.negated())?;
        }
        Ok(false)
    }

    // The first literal without a value of the first cube that has no false one.
    fn open_literal(&self, lookahead: &Lookahead<'_>) -> Option<Literal> {
        for place in 0..self.cubes.len() {
            let found = open_in(lookahead, self.cubes.clause(place));
            if found.is_some() {
                return found;
            }
        }
        None
    }

    // Writes that not all decisions are true.
    fn write_step(&mut self) -> Result<(), AllocError> {
        self.step.clear();
        for decision in self.decisions.iter() {
            self.step.push(decision.literal.negated())?;
        }
        write_clause(&mut self.text, &self.step)
    }
}

// The first literal of a cube that has no value, if the cube has no false one.
fn open_in(lookahead: &Lookahead<'_>, cube: &[Literal]) -> Option<Literal> {
    let mut found = None;
    for l in cube {
        if lookahead.is_true(l.negated()) {
            return None;
        }
        if found.is_none() && !lookahead.is_set(*l) {
            found = Some(*l);
        }
    }
    found
}
