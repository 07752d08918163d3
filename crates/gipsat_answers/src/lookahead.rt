//! Propagation that counts: how much a literal assigns and shortens once it is true. It chooses cubes, and nothing else
//! rests on it.

use gipsat_cnf::{Cnf, Literal};
use std::alloc::{AllocError, Global};

// What counts clauses under some values.
#[derive(Clone, Copy)]
struct Count {
    // How many literals are not false.
    open: u32,
    // How many are true.
    trues: u32,
}

// A formula, and values of some variables.
pub(crate) struct Lookahead<'a> {
    clauses: &'a Cnf,
    // For each literal the clauses that have it.
    occurrences: Vec<Vec<u32>>,
    counts: Vec<Count>,
    // For each literal whether it is true.
    trues: Vec<bool>,
    // The literals that are true, in the order in which they became so.
    trail: Vec<Literal>,
    // How many of them the counts know.
    counted: usize,
    // Whether a clause has no literal left that is not false.
    has_conflict: bool,
    // How much was shortened since the last literal was assumed.
    shortened: u64,
}

// One call in its owners' proofs, in place of one for each field.
impl Drop for Lookahead<'_> {
    fn drop(self) {
        let Lookahead {
            clauses: _,
            occurrences,
            counts,
            trues,
            trail,
            counted: _,
            has_conflict: _,
            shortened: _,
        } = self;
    }
}

// What a clause counts that was shortened to two literals. One of k literals counts a fifth of one of k - 1.
const BINARY: u64 = 3_125;

// What a clause counts that was shortened to so many literals.
fn weight(open: u32) -> u64 {
    match open {
        0..=2 => BINARY,
        3 => BINARY / 5,
        4 => BINARY / 25,
        5 => BINARY / 125,
        6 => BINARY / 625,
        _ => 1,
    }
}

// What a literal counts that became true.
const ASSIGNED: u64 = 1_000;

impl<'a> Lookahead<'a> {
    // Before any variable has a value.
    pub(crate) fn new(alloc: Global, clauses: &'a Cnf) -> Result<Self, AllocError> {
        let literals = clauses.variables().saturating_mul(2);
        let mut lookahead = Lookahead {
            clauses,
            occurrences: Vec::new(alloc),
            counts: Vec::new(alloc),
            trues: Vec::new(alloc),
            trail: Vec::new(alloc),
            counted: 0,
            has_conflict: false,
            shortened: 0,
        };
        for _ in 0..literals {
            lookahead.occurrences.push(Vec::new(alloc))?;
            lookahead.trues.push(false)?;
        }
        lookahead.count_all()?;
        Ok(lookahead)
    }

    // Counts the literals of all clauses, and makes those true that stand alone.
    fn count_all(&mut self) -> Result<(), AllocError> {
        let clauses = self.clauses;
        for place in 0..clauses.len() {
            let clause = clauses.clause(place);
            let index = u32::try_from(place).map_err(|_| AllocError)?;
            self.counts.push(Count {
                open: u32::try_from(clause.len()).map_err(|_| AllocError)?,
                trues: 0,
            })?;
            for l in clause {
                if let Some(list) = self.occurrences.get_mut(l.code()) {
                    list.push(index)?;
                }
            }
            match clause {
                [] => self.has_conflict = true,
                [l] => self.set(*l)?,
                _ => {}
            }
        }
        self.propagate()
    }

    // How many variables have a value.
    pub(crate) fn assigned(&self) -> usize {
        self.trail.len()
    }

    // How many variables have no value.
    pub(crate) fn open(&self) -> usize {
        self.clauses.variables().saturating_sub(self.trail.len())
    }

    // Whether a clause has no literal left that is not false.
    pub(crate) fn has_conflict(&self) -> bool {
        self.has_conflict
    }

    // Whether a literal is true.
    pub(crate) fn is_true(&self, l: Literal) -> bool {
        self.trues.get(l.code()).copied().unwrap_or(false)
    }

    // Whether a variable has a value.
    pub(crate) fn is_set(&self, l: Literal) -> bool {
        self.is_true(l) || self.is_true(l.negated())
    }

    // Makes a literal true, unless its variable has a value.
    fn set(&mut self, l: Literal) -> Result<(), AllocError> {
        if self.is_set(l) {
            self.has_conflict |= self.is_true(l.negated());
            return Ok(());
        }
        self.trail.push(l)?;
        if let Some(value) = self.trues.get_mut(l.code()) {
            *value = true;
        }
        Ok(())
    }

    // Makes a literal true, and what follows by propagation. How much was assigned and shortened.
    pub(crate) fn assume(&mut self, l: Literal) -> Result<u64, AllocError> {
        let before = self.trail.len();
        self.shortened = 0;
        self.set(l)?;
        self.propagate()?;
        let assigned = self.trail.len().saturating_sub(before) as u64;
        Ok(
            self.shortened
                .saturating_add(assigned.saturating_mul(ASSIGNED)),
        )
    }

    // Makes true what follows by propagation, up to a conflict.
    fn propagate(&mut self) -> Result<(), AllocError> {
        for _ in 0..self.trues.len() {
            if self.has_conflict {
                return Ok(());
            }
            let Some(l) = self.trail.get(self.counted).copied() else {
                return Ok(());
            };
            self.counted = self.counted.saturating_add(1);
            self.count_true(l);
            self.count_false(l.negated())?;
        }
        Ok(())
    }

    // A literal is true: its clauses are satisfied.
    fn count_true(&mut self, l: Literal) {
        let Some(list) = self.occurrences.get(l.code()) else {
            return;
        };
        for place in list.iter() {
            if let Some(count) = self.counts.get_mut(*place as usize) {
                count.trues = count.trues.saturating_add(1);
            }
        }
    }

    // A literal is false: its clauses are shorter.
    fn count_false(&mut self, l: Literal) -> Result<(), AllocError> {
        for index in 0..self.list(l).len() {
            let Some(place) = self.list(l).get(index).copied() else {
                return Ok(());
            };
            let place = place as usize;
            let Some(count) = self.counts.get_mut(place) else {
                return Ok(());
            };
            count.open = count.open.saturating_sub(1);
            let count = *count;
            if count.trues == 0 {
                self.shorten(place, count.open)?;
            }
        }
        Ok(())
    }

    // The clauses that have a literal.
    fn list(&self, l: Literal) -> &[u32] {
        match self.occurrences.get(l.code()) {
            Some(list) => list,
            None => &[],
        }
    }

    // A clause that is not satisfied has so many literals left that are not false.
    fn shorten(&mut self, place: usize, open: u32) -> Result<(), AllocError> {
        match open {
            0 => self.has_conflict = true,
            1 => {
                if let Some(l) = self.open_literal(place) {
                    self.set(l)?;
                }
            }
            _ => self.shortened = self.shortened.saturating_add(weight(open)),
        }
        Ok(())
    }

    // The first literal of a clause that is not false.
    fn open_literal(&self, place: usize) -> Option<Literal> {
        if place >= self.clauses.len() {
            return None;
        }
        for l in self.clauses.clause(place) {
            if !self.is_true(l.negated()) {
                return Some(*l);
            }
        }
        None
    }

    // Takes back all but the first values, so many.
    pub(crate) fn undo(&mut self, len: usize) {
        for _ in len..self.trail.len() {
            let Some(l) = self.trail.pop() else {
                return;
            };
            if self.trail.len() < self.counted {
                self.counted = self.trail.len();
                self.uncount(l);
            }
            if let Some(value) = self.trues.get_mut(l.code()) {
                *value = false;
            }
        }
        self.has_conflict = false;
    }

    // A literal is not true, nor is its negation false.
    fn uncount(&mut self, l: Literal) {
        if let Some(list) = self.occurrences.get(l.code()) {
            for place in list.iter() {
                if let Some(count) = self.counts.get_mut(*place as usize) {
                    count.trues = count.trues.saturating_sub(1);
                }
            }
        }
        if let Some(list) = self.occurrences.get(l.negated().code()) {
            for place in list.iter() {
                if let Some(count) = self.counts.get_mut(*place as usize) {
                    count.open = count.open.saturating_add(1);
                }
            }
        }
    }

    // For each literal how much the clauses weigh that have it and are not satisfied.
    pub(crate) fn weights(&self, alloc: Global) -> Result<Vec<u64>, AllocError> {
        let mut weights = Vec::new(alloc);
        weights.resize(self.trues.len(), 0)?;
        for place in 0..self.clauses.len() {
            match self.counts.get(place) {
                Some(count) if count.trues == 0 => {
                    add_weight(&mut weights, self.clauses.clause(place), weight(count.open));
                }
                _ => {}
            }
        }
        Ok(weights)
    }
}

// Adds a weight to each literal of a clause.
fn add_weight(weights: &mut Vec<u64>, clause: &[Literal], weight: u64) {
    for l in clause {
        if let Some(sum) = weights.get_mut(l.code()) {
            *sum = sum.saturating_add(weight);
        }
    }
}
