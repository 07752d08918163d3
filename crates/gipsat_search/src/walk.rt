//! Local search: from some phases on, variables are flipped one by one so that fewer clauses are falsified (ProbSAT: A.
//! Balint and U. Schöning, 2012).

use crate::clauses::Clauses;
use crate::settings::SETTINGS;
use crate::trail::{Trail, short};
use gipsat_cnf::Literal;
use gipsat_kernel::Kernel;
use std::alloc::{AllocError, Global};
use std::mem;

// A clause, whose literals are those without a value.
#[derive(Clone, Copy)]
struct Clause {
    // Where its literals begin and end.
    start: usize,
    end: usize,
    // How many of them are true, and the exclusive or of the variables of these: the variable itself where one is true.
    trues: u32,
    critical: u32,
    // Its place among the falsified clauses, if it is one.
    place: usize,
}

// A local search.
pub(crate) struct Walk {
    // The phases, by variables.
    values: Vec<bool>,
    clauses: Vec<Clause>,
    literals: Vec<Literal>,
    // For each literal the clauses that have it.
    occurrences: Vec<Vec<u32>>,
    // For each variable how many clauses would be falsified if it were flipped.
    breaks: Vec<u32>,
    falsified: Vec<u32>,
    // The variables that were flipped since the fewest clauses were falsified, and how many these were.
    flips: Vec<u32>,
    fewest: usize,
    // How likely a variable is flipped, by the number of clauses that it would falsify.
    chances: Vec<f64>,
    random: u64,
    // How many clauses may still be looked at.
    steps: u64,
}

// One call in its owners' proofs, in place of one for each field.
impl Drop for Walk {
    fn drop(self) {
        let Walk {
            values,
            clauses,
            literals,
            occurrences,
            breaks,
            falsified,
            flips,
            fewest: _,
            chances,
            random: _,
            steps: _,
        } = self;
    }
}

impl Walk {
    // Of no clause, from these phases on.
    pub(crate) fn new(alloc: Global, values: Vec<bool>, steps: u64, random: u64) -> Self {
        Walk {
            values,
            clauses: Vec::new(alloc),
            literals: Vec::new(alloc),
            occurrences: Vec::new(alloc),
            breaks: Vec::new(alloc),
            falsified: Vec::new(alloc),
            flips: Vec::new(alloc),
            fewest: usize::MAX,
            chances: Vec::new(alloc),
            random: random | 1,
            steps,
        }
    }

    // Walks over the clauses that are watched for good: the best phases that were met.
    pub(crate) fn phases(
        &mut self,
        alloc: Global,
        kernel: &Kernel,
        trail: &Trail,
        clauses: &Clauses,
    ) -> Result<Vec<bool>, AllocError> {
        if self.steps > 0 {
            self.collect(alloc, kernel, trail, clauses)?;
            self.set_chances()?;
            self.walk()?;
            self.go_back();
        }
        Ok(mem::replace(&mut self.values, Vec::new(alloc)))
    }

    // Collects the clauses that no root literal satisfies. If they have more literals than there are steps, no step is
    // left.
    fn collect(
        &mut self,
        alloc: Global,
        kernel: &Kernel,
        trail: &Trail,
        clauses: &Clauses,
    ) -> Result<(), AllocError> {
        for _ in 0..self.values.len() {
            self.occurrences.push(Vec::new(alloc))?;
            self.occurrences.push(Vec::new(alloc))?;
        }
        self.breaks.resize(self.values.len(), 0)?;
        for id in 0..kernel.len() {
            let clause = kernel.clause(id).unwrap_or(&[]);
            if clauses.is_kept(id) && !trail.is_satisfied(clause) {
                self.add(trail, clause)?;
            }
            if self.literals.len() as u64 > self.steps {
                self.steps = 0;
                return Ok(());
            }
        }
        Ok(())
    }

    // Adds a clause.
    fn add(&mut self, trail: &Trail, clause: &[Literal]) -> Result<(), AllocError> {
        let index = self.clauses.len();
        let start = self.literals.len();
        let mut trues = 0u32;
        let mut critical = 0;
        for l in clause {
            if !trail.is_unset(*l) {
                continue;
            }
            self.literals.push(*l)?;
            if let Some(list) = self.occurrences.get_mut(l.code()) {
                list.push(short(index))?;
            }
            if self.is_true(*l) {
                trues = trues.saturating_add(1);
                critical ^= l.variable();
            }
        }
        self.clauses.push(Clause {
            start,
            end: self.literals.len(),
            trues,
            critical,
            place: 0,
        })?;
        match trues {
            0 => self.falsify(index)?,
            1 => self.count_break(critical, true),
            _ => {}
        }
        Ok(())
    }

    // Whether a literal is true.
    fn is_true(&self, l: Literal) -> bool {
        match self.values.get(l.variable() as usize) {
            Some(value) => *value == l.is_positive(),
            None => false,
        }
    }

    // A clause is falsified.
    fn falsify(&mut self, index: usize) -> Result<(), AllocError> {
        let place = self.falsified.len();
        self.falsified.push(short(index))?;
        if let Some(clause) = self.clauses.get_mut(index) {
            clause.place = place;
        }
        Ok(())
    }

    // The falsified clause at a place is satisfied.
    fn satisfy(&mut self, place: usize) {
        let Some(last) = self.falsified.pop() else {
            return;
        };
        if let Some(other) = self.falsified.get_mut(place) {
            *other = last;
            if let Some(clause) = self.clauses.get_mut(last as usize) {
                clause.place = place;
            }
        }
    }

    // One clause more, or one fewer, would be falsified by a flip of a variable.
    fn count_break(&mut self, variable: u32, is_more: bool) {
        if let Some(breaks) = self.breaks.get_mut(variable as usize) {
            *breaks = if is_more {
                breaks.saturating_add(1)
            } else {
                breaks.saturating_sub(1)
            };
        }
    }

    // Sets the chances by the average length of the clauses.
    fn set_chances(&mut self) -> Result<(), AllocError> {
        let base = base_for(self.length());
        let mut chance = 1.0;
        for _ in 0..SETTINGS.walk_breaks {
            self.chances.push(chance)?;
            chance /= base;
        }
        Ok(())
    }

    // The average length of the clauses, rounded.
    fn length(&self) -> usize {
        let clauses = self.clauses.len();
        let literals = self.literals.len().saturating_add(clauses / 2);
        literals.checked_div(clauses).unwrap_or(0)
    }

    // Flips variables of falsified clauses until there is none, or the steps are spent.
    fn walk(&mut self) -> Result<(), AllocError> {
        for _ in 0..usize::MAX {
            if self.falsified.len() < self.fewest {
                self.fewest = self.falsified.len();
                self.flips.clear();
            }
            if self.steps == 0 || self.falsified.is_empty() {
                return Ok(());
            }
            let Some(l) = self.pick() else {
                return Ok(());
            };
            self.flip(l)?;
        }
        Ok(())
    }

    // A literal of a falsified clause, by chance.
    fn pick(&mut self) -> Option<Literal> {
        let clause = self.any_falsified()?;
        let literals = clause.end.saturating_sub(clause.start);
        self.steps = self.steps.saturating_sub(literals as u64);
        let mut sum = 0.0;
        for place in clause.start..clause.end {
            sum += self.chance(place);
        }
        let limit = self.fraction() * sum;
        let mut sum = 0.0;
        for place in clause.start..clause.end {
            sum += self.chance(place);
            if sum >= limit {
                return Some(*self.literals.get(place)?);
            }
        }
        None
    }

    // A falsified clause, by chance.
    fn any_falsified(&mut self) -> Option<Clause> {
        let falsified = self.falsified.len();
        let place = self.below(falsified);
        let index = *self.falsified.get(place)?;
        Some(*self.clauses.get(index as usize)?)
    }

    // How likely the variable of the literal at a place is flipped.
    fn chance(&self, place: usize) -> f64 {
        match self.literals.get(place) {
            Some(l) => self.chance_after(self.breaks_of(*l)),
            None => 0.0,
        }
    }

    // How many clauses a flip of the variable of a literal would falsify.
    fn breaks_of(&self, l: Literal) -> u32 {
        match self.breaks.get(l.variable() as usize) {
            Some(breaks) => *breaks,
            None => 0,
        }
    }

    // How likely a variable is flipped that would falsify so many clauses.
    fn chance_after(&self, breaks: u32) -> f64 {
        match self.chances.get(breaks as usize) {
            Some(chance) => *chance,
            None => 0.0,
        }
    }

    // Makes a false literal true.
    fn flip(&mut self, l: Literal) -> Result<(), AllocError> {
        self.flips.push(l.variable())?;
        if let Some(value) = self.values.get_mut(l.variable() as usize) {
            *value = l.is_positive();
        }
        for i in 0..self.count(l) {
            if let Some(index) = self.occurrence(l, i) {
                self.gain(index, l.variable());
            }
        }
        for i in 0..self.count(l.negated()) {
            if let Some(index) = self.occurrence(l.negated(), i) {
                self.lose(index, l.variable())?;
            }
        }
        let looked_at = self.count(l).saturating_add(self.count(l.negated()));
        self.steps = self
            .steps
            .saturating_sub(1)
            .saturating_sub(looked_at as u64);
        Ok(())
    }

    // How many clauses have a literal.
    fn count(&self, l: Literal) -> usize {
        match self.occurrences.get(l.code()) {
            Some(list) => list.len(),
            None => 0,
        }
    }

    // A clause that has a literal.
    fn occurrence(&self, l: Literal, place: usize) -> Option<usize> {
        let index = *self.occurrences.get(l.code())?.get(place)?;
        Some(index as usize)
    }

    // The literal of a variable became true in a clause.
    fn gain(&mut self, index: usize, variable: u32) {
        let Some(clause) = self.clauses.get_mut(index) else {
            return;
        };
        let before = *clause;
        clause.trues = before.trues.saturating_add(1);
        clause.critical = before.critical ^ variable;
        match before.trues {
            0 => {
                self.satisfy(before.place);
                self.count_break(variable, true);
            }
            1 => self.count_break(before.critical, false),
            _ => {}
        }
    }

    // The literal of a variable became false in a clause.
    fn lose(&mut self, index: usize, variable: u32) -> Result<(), AllocError> {
        let Some(clause) = self.clauses.get_mut(index) else {
            return Ok(());
        };
        let before = *clause;
        let critical = before.critical ^ variable;
        clause.trues = before.trues.saturating_sub(1);
        clause.critical = critical;
        match before.trues {
            1 => {
                self.count_break(variable, false);
                self.falsify(index)?;
            }
            2 => self.count_break(critical, true),
            _ => {}
        }
        Ok(())
    }

    // Flips variables back to the best phases.
    fn go_back(&mut self) {
        for variable in &self.flips {
            if let Some(value) = self.values.get_mut(*variable as usize) {
                *value = !*value;
            }
        }
    }

    // The next pseudo-random number.
    fn next_random(&mut self) -> u64 {
        self.random ^= self.random << 13;
        self.random ^= self.random >> 7;
        self.random ^= self.random << 17;
        self.random
    }

    // A pseudo-random number below a bound; 0 where the bound is 0.
    fn below(&mut self, bound: usize) -> usize {
        match self.next_random().checked_rem(bound as u64) {
            Some(number) => usize::try_from(number).unwrap_or(0),
            None => 0,
        }
    }

    // A pseudo-random fraction.
    fn fraction(&mut self) -> f64 {
        (self.next_random() >> 11) as f64 / 9_007_199_254_740_992.0
    }
}

// How many times less likely a variable is flipped for each clause more that it would falsify, by clauses' length.
fn base_for(length: usize) -> f64 {
    match length {
        0..=3 => 2.5,
        4 => 2.85,
        5 => 3.7,
        _ => 5.1,
    }
}
