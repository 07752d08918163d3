//! Eliminated variables: which they are, the clauses that were taken out with each, and their values at the end (M.
//! Järvisalo and A. Biere, 2010).

use crate::activity::Activity;
use crate::clauses::{Clauses, Status};
use crate::trail::{Trail, short};
use gipsat_cnf::Literal;
use gipsat_kernel::Kernel;
use std::alloc::{AllocError, Global};
use std::mem;

// An eliminated variable, and where the clauses that were taken out with it are listed.
#[derive(Clone, Copy)]
struct Record {
    // The variable itself.
    literal: Literal,
    start: usize,
    end: usize,
    // Whether it is not eliminated any more.
    is_over: bool,
}

// The eliminated variables, in the order in which they were eliminated.
pub(crate) struct Eliminated {
    records: Vec<Record>,
    places: Vec<u32>,
    // For each variable the place behind that of its record; 0 where it is not eliminated.
    homes: Vec<usize>,
    // The places of the records of variables that are to be restored.
    wanted: Vec<usize>,
    // How many records were not asked yet for a value.
    left: usize,
}

// One call in its owners' proofs, in place of one for each field.
impl Drop for Eliminated {
    fn drop(self) {
        let Eliminated {
            records,
            places,
            homes,
            wanted,
            left: _,
        } = self;
    }
}

impl Eliminated {
    // No variable.
    pub(crate) fn new(alloc: Global) -> Self {
        Eliminated {
            records: Vec::new(alloc),
            places: Vec::new(alloc),
            homes: Vec::new(alloc),
            wanted: Vec::new(alloc),
            left: 0,
        }
    }

    // Makes room for so many variables.
    pub(crate) fn grow(&mut self, variables: usize) -> Result<(), AllocError> {
        let len = self.homes.len().max(variables);
        self.homes.resize(len, 0)?;
        Ok(())
    }

    // Whether no variable is eliminated.
    pub(crate) fn is_empty(&self) -> bool {
        self.records.is_empty()
    }

    // Whether a variable is eliminated.
    pub(crate) fn has(&self, variable: u32) -> bool {
        match self.homes.get(variable as usize) {
            Some(home) => *home > 0,
            None => false,
        }
    }

    // A variable is eliminated, and these clauses with it.
    pub(crate) fn push(&mut self, literal: Literal, clauses: &[u32]) -> Result<(), AllocError> {
        let start = self.places.len();
        self.places.extend_from_slice(clauses)?;
        self.records.push(Record {
            literal,
            start,
            end: self.places.len(),
            is_over: false,
        })?;
        let len = self.records.len();
        if let Some(home) = self.homes.get_mut(literal.variable() as usize) {
            *home = len;
        }
        Ok(())
    }

    // Forgets the variables that are not eliminated any more.
    pub(crate) fn tidy(&mut self, alloc: Global) -> Result<(), AllocError> {
        let records = mem::replace(&mut self.records, Vec::new(alloc));
        let places = mem::replace(&mut self.places, Vec::new(alloc));
        self.push_all(&records, &places)
    }

    // Eliminates the variables of these records again, but for those that are over.
    fn push_all(&mut self, records: &[Record], places: &[u32]) -> Result<(), AllocError> {
        for record in records {
            if !record.is_over {
                let clauses = places.get(record.start..record.end).unwrap_or(&[]);
                self.push(record.literal, clauses)?;
            }
        }
        Ok(())
    }

    // A variable is to be restored, if it is eliminated.
    fn want(&mut self, variable: u32) -> Result<(), AllocError> {
        if let Some(home) = self.homes.get_mut(variable as usize) {
            if let Some(index) = home.checked_sub(1) {
                *home = 0;
                self.wanted.push(index)?;
            }
        }
        Ok(())
    }

    // The eliminated ones among the variables of these literals are to be restored.
    fn want_all(&mut self, literals: &[Literal]) -> Result<(), AllocError> {
        for l in literals {
            self.want(l.variable())?;
        }
        Ok(())
    }

    // Restores the eliminated ones among the variables of these literals, of a domain, and of the clauses from a place
    // on.
    pub(crate) fn restore(
        &mut self,
        kernel: &Kernel,
        clauses: &mut Clauses,
        activity: &mut Activity,
        literals: &[Literal],
        domain: &[u32],
    ) -> Result<(), AllocError> {
        if self.is_empty() {
            return Ok(());
        }
        self.want_all(literals)?;
        for variable in domain {
            self.want(*variable)?;
        }
        for id in clauses.known()..kernel.len() {
            self.want_all(kernel.clause(id).unwrap_or(&[]))?;
        }
        self.restore_wanted(kernel, clauses, activity)
    }

    // Restores the variables that are to be restored, and those that their clauses have.
    fn restore_wanted(
        &mut self,
        kernel: &Kernel,
        clauses: &mut Clauses,
        activity: &mut Activity,
    ) -> Result<(), AllocError> {
        for _ in 0..usize::MAX {
            let Some(index) = self.wanted.pop() else {
                return Ok(());
            };
            let Some(record) = self.records.get_mut(index) else {
                return Ok(());
            };
            record.is_over = true;
            let Record {
                literal,
                start,
                end,
                ..
            } = *record;
            activity.bring_back(literal.variable());
            self.restore_clauses(kernel, clauses, start, end)?;
        }
        Ok(())
    }

    // Has the listed clauses watched again, and their other variables restored.
    fn restore_clauses(
        &mut self,
        kernel: &Kernel,
        clauses: &mut Clauses,
        start: usize,
        end: usize,
    ) -> Result<(), AllocError> {
        for index in start..end {
            let Some(place) = self.places.get(index) else {
                return Ok(());
            };
            let place = *place;
            if let Status::Eliminated = clauses.status(place as usize) {
                clauses.restore(place)?;
                self.want_all(kernel.clause(place as usize).unwrap_or(&[]))?;
            }
        }
        Ok(())
    }

    // For each clause its new place where those that stay move together. Of no clause, if no variable is eliminated.
    pub(crate) fn moved(&self, alloc: Global, stays: &[bool]) -> Result<Vec<u32>, AllocError> {
        let mut moved: Vec<u32> = Vec::new(alloc);
        if self.is_empty() {
            return Ok(moved);
        }
        let mut next = 0usize;
        for stays in stays {
            moved.push(if *stays { short(next) } else { u32::MAX })?;
            next = next.saturating_add(usize::from(*stays));
        }
        Ok(moved)
    }

    // The clauses have these new places.
    pub(crate) fn renumber(&mut self, moved: &[u32]) {
        for place in self.places.iter_mut() {
            *place = match moved.get(*place as usize) {
                Some(place) => *place,
                None => u32::MAX,
            };
        }
    }

    // All are to be asked for values, the last first.
    pub(crate) fn rewind(&mut self) {
        self.left = self.records.len();
    }

    // The next eliminated variable without a value, with the sign that its clauses ask for. None where none is left.
    pub(crate) fn next(&mut self, kernel: &Kernel, trail: &Trail) -> Option<Literal> {
        let Some((index, l)) = self.last_left(kernel, trail) else {
            self.left = 0;
            return None;
        };
        self.left = index;
        Some(l)
    }

    // The last one without a value of those that are left, with its place and the sign that its clauses ask for.
    fn last_left(&self, kernel: &Kernel, trail: &Trail) -> Option<(usize, Literal)> {
        for index in (0..self.left).rev() {
            let Record {
                literal,
                start,
                end,
                is_over,
                ..
            } = *self.records.get(index)?;
            if is_over || !trail.has_no_value(literal.variable()) {
                continue;
            }
            let l = if self.needs_true(kernel, trail, literal, start, end) {
                literal
            } else {
                literal.negated()
            };
            return Some((index, l));
        }
        None
    }

    // Whether one of the listed clauses has a literal, and no true one.
    fn needs_true(
        &self,
        kernel: &Kernel,
        trail: &Trail,
        literal: Literal,
        start: usize,
        end: usize,
    ) -> bool {
        for index in start..end {
            if let Some(place) = self.places.get(index) {
                let clause = kernel.clause(*place as usize).unwrap_or(&[]);
                if asks_for(trail, clause, literal) {
                    return true;
                }
            }
        }
        false
    }
}

// Whether a clause has a literal, and no true one.
fn asks_for(trail: &Trail, clause: &[Literal], literal: Literal) -> bool {
    let mut has = false;
    for l in clause {
        if trail.is_true(*l) {
            return false;
        }
        has |= l.code() == literal.code();
    }
    has
}
