//! Occurrences: for each literal the clauses that have it.

use crate::clauses::Clauses;
use crate::trail::{Trail, short};
use gipsat_cnf::Literal;
use gipsat_kernel::Kernel;
use std::alloc::{AllocError, Global};

// How many literals a clause has that are not false, and a digit for each of their variables, by its number modulo 32.
// The size 0 is that of a clause which takes no part.
#[derive(Clone, Copy)]
pub(crate) struct Outline {
    pub size: u32,
    pub signature: u32,
}

impl Outline {
    // Of a clause that takes no part.
    fn none() -> Self {
        Outline {
            size: 0,
            signature: 0,
        }
    }

    // Of a clause.
    fn of(trail: &Trail, clause: &[Literal]) -> Self {
        let mut size = 0u32;
        let mut signature = 0;
        for l in clause {
            if trail.is_unset(*l) {
                size = size.saturating_add(1);
                signature |= 1u32 << (l.variable() % 32);
            }
        }
        Outline { size, signature }
    }

    // Whether a clause of this outline can have all variables of another one.
    pub(crate) fn may_cover(&self, other: Outline) -> bool {
        other.size <= self.size && other.signature & !self.signature == 0
    }
}

// For each literal the clauses that have it.
pub(crate) struct Occurrences {
    // Also those that were taken out since.
    lists: Vec<Vec<u32>>,
    // For each literal how many clauses have it.
    counts: Vec<u32>,
    outlines: Vec<Outline>,
}

// One call in its owners' proofs, in place of one for each field.
impl Drop for Occurrences {
    fn drop(self) {
        let Occurrences {
            lists,
            counts,
            outlines,
        } = self;
    }
}

// For each literal of so many variables how many clauses have it that are watched for good.
fn count_all(
    alloc: Global,
    kernel: &Kernel,
    clauses: &Clauses,
    variables: usize,
) -> Result<Vec<u32>, AllocError> {
    let mut counts = Vec::new(alloc);
    counts.resize(variables.saturating_mul(2), 0)?;
    for id in 0..kernel.len() {
        if clauses.is_kept(id) {
            count(&mut counts, kernel.clause(id).unwrap_or(&[]));
        }
    }
    Ok(counts)
}

// One clause more has these literals.
fn count(counts: &mut Vec<u32>, clause: &[Literal]) {
    for l in clause {
        if let Some(count) = counts.get_mut(l.code()) {
            *count = count.saturating_add(1);
        }
    }
}

impl Occurrences {
    // No clause, with room for those that are watched for good and the literals of so many variables.
    pub(crate) fn new(
        alloc: Global,
        kernel: &Kernel,
        clauses: &Clauses,
        variables: usize,
    ) -> Result<Self, AllocError> {
        let mut counts = count_all(alloc, kernel, clauses, variables)?;
        let mut lists: Vec<Vec<u32>> = Vec::new(alloc);
        for count in &counts {
            let list = Vec::with_capacity(alloc, *count as usize)?;
            lists.push(list)?;
        }
        counts.fill(0);
        let mut outlines = Vec::new(alloc);
        outlines.resize(kernel.len(), Outline::none())?;
        Ok(Occurrences {
            lists,
            counts,
            outlines,
        })
    }

    // The outline of the clause at a place.
    pub(crate) fn outline(&self, place: u32) -> Outline {
        match self.outlines.get(place as usize) {
            Some(outline) => *outline,
            None => Outline::none(),
        }
    }

    // Whether the clause at a place takes part.
    pub(crate) fn has(&self, place: u32) -> bool {
        self.outline(place).size > 0
    }

    // The clauses that have a literal, with those that were taken out since.
    pub(crate) fn of(&self, l: Literal) -> &[u32] {
        match self.lists.get(l.code()) {
            Some(list) => list,
            None => &[],
        }
    }

    // How many clauses have a literal.
    pub(crate) fn count(&self, l: Literal) -> usize {
        self.count_code(l.code())
    }

    // How many clauses have the literal with a code.
    fn count_code(&self, code: usize) -> usize {
        match self.counts.get(code) {
            Some(count) => *count as usize,
            None => 0,
        }
    }

    // How many clauses have the negation of a variable, and how many the variable itself.
    fn counts_of(&self, variable: u32) -> (usize, usize) {
        let code = (variable as usize).saturating_mul(2);
        (
            self.count_code(code),
            self.count_code(code.saturating_add(1)),
        )
    }

    // Whether a clause has a variable.
    pub(crate) fn has_variable(&self, variable: u32) -> bool {
        let (negative, positive) = self.counts_of(variable);
        negative > 0 || positive > 0
    }

    // How many resolvents the elimination of a variable may give.
    pub(crate) fn resolvents(&self, variable: u32) -> usize {
        let (negative, positive) = self.counts_of(variable);
        negative.saturating_mul(positive)
    }

    // How many clauses have a variable.
    pub(crate) fn count_both(&self, l: Literal) -> usize {
        self.count(l).saturating_add(self.count(l.negated()))
    }

    // The clause at a place takes part from now on.
    pub(crate) fn connect(
        &mut self,
        trail: &Trail,
        clause: &[Literal],
        place: usize,
    ) -> Result<(), AllocError> {
        let len = self.outlines.len().max(place.saturating_add(1));
        self.outlines.resize(len, Outline::none())?;
        if let Some(outline) = self.outlines.get_mut(place) {
            *outline = Outline::of(trail, clause);
        }
        for l in clause {
            if trail.is_unset(*l) {
                self.add(*l, short(place))?;
            }
        }
        Ok(())
    }

    fn add(&mut self, l: Literal, place: u32) -> Result<(), AllocError> {
        if let Some(list) = self.lists.get_mut(l.code()) {
            list.push(place)?;
        }
        if let Some(count) = self.counts.get_mut(l.code()) {
            *count = count.saturating_add(1);
        }
        Ok(())
    }

    // The clause at a place takes no part any more.
    pub(crate) fn disconnect(&mut self, trail: &Trail, clause: &[Literal], place: u32) {
        if let Some(outline) = self.outlines.get_mut(place as usize) {
            *outline = Outline::none();
        }
        for l in clause {
            if trail.is_unset(*l) {
                if let Some(count) = self.counts.get_mut(l.code()) {
                    *count = count.saturating_sub(1);
                }
            }
        }
    }

    // Lists the clauses that have a literal, where none is listed yet. Those that were taken out leave its own list.
    pub(crate) fn list(&mut self, l: Literal, clauses: &mut Vec<u32>) -> Result<(), AllocError> {
        for place in self.of(l) {
            if self.has(*place) {
                clauses.push(*place)?;
            }
        }
        if let Some(list) = self.lists.get_mut(l.code()) {
            list.clear();
            list.extend_from_slice(clauses)?;
        }
        Ok(())
    }
}
