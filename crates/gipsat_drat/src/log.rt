//! The steps of a check, to be written as a proof with hints. Nothing rests on it: where it is wrong, that proof is
//! refused.
use crate::derivations::Derivations;
use crate::rat::has;
use gipsat_cnf::Literal;
use gipsat_kernel::RatKernel;
use std::alloc::{AllocError, Global};

// A clause that a step uses, by its name. A candidate has the negation of the step's pivot, and the uses behind it show
// the resolvent with it.
#[derive(Clone, Copy)]
pub(crate) struct Use {
    pub name: u32,
    pub is_candidate: bool,
}

// Where the literals and the uses of a step end among those of all.
#[derive(Clone, Copy)]
struct Ends {
    literals: usize,
    uses: usize,
}

// A clause that was added.
#[derive(Clone, Copy)]
pub(crate) struct Added<'a> {
    pub name: u32,
    pub literals: &'a [Literal],
    pub uses: &'a [Use],
}

// The steps that added clauses, each of which has the next name behind those of the formula, and the names of the
// clauses. They are kept only on request.
pub(crate) struct Log {
    is_kept: bool,
    // The name of each clause of the kernel, by its id. 0 if it has none.
    names: Vec<u32>,
    // How many clauses the formula has.
    given: u32,
    // The name that was given last.
    last: u32,
    ends: Vec<Ends>,
    literals: Vec<Literal>,
    uses: Vec<Use>,
}

// One call in its owners' proofs, in place of one for each field.
impl Drop for Log {
    fn drop(self) {
        let Log {
            is_kept: _,
            names,
            given: _,
            last: _,
            ends,
            literals,
            uses,
        } = self;
    }
}

impl Log {
    // It is not kept.
    pub(crate) fn new(alloc: Global) -> Self {
        Log {
            is_kept: false,
            names: Vec::new(alloc),
            given: 0,
            last: 0,
            ends: Vec::new(alloc),
            literals: Vec::new(alloc),
            uses: Vec::new(alloc),
        }
    }

    // Keeps what comes, behind so many clauses of a formula.
    pub(crate) fn keep(&mut self, given: usize) -> Result<(), AllocError> {
        for id in 0..given {
            self.give_name(id)?;
        }
        self.given = self.last;
        self.is_kept = true;
        Ok(())
    }

    // Gives a clause the next name.
    fn give_name(&mut self, id: usize) -> Result<(), AllocError> {
        let next = self.last.checked_add(1).ok_or(AllocError)?;
        self.set_name(id, next)?;
        self.last = next;
        Ok(())
    }

    // Writes the name of a clause.
    fn set_name(&mut self, id: usize, name: u32) -> Result<(), AllocError> {
        if id >= self.names.len() {
            self.names.resize(id.saturating_add(1), 0)?;
        }
        if let Some(old) = self.names.get_mut(id) {
            *old = name;
        }
        Ok(())
    }

    // The name of a clause.
    fn name(&self, id: usize) -> u32 {
        self.names.get(id).copied().unwrap_or(0)
    }

    // Notes that a clause is used.
    fn push_use(&mut self, id: usize, is_candidate: bool) -> Result<(), AllocError> {
        let name = self.name(id);
        self.uses.push(Use { name, is_candidate })?;
        Ok(())
    }

    // Notes that a derivation used clauses, in the order in which they become unit. One that says only that a literal of
    // the derived clause is false, which is assumed, is left out. The derived clause has literals of these two.
    fn push_uses(
        &mut self,
        kernel: &RatKernel,
        used: &[usize],
        clause: &[Literal],
        other: &[Literal],
    ) -> Result<(), AllocError> {
        for place in (0..used.len()).rev() {
            let id = used[place];
            let says = kernel.clause(id).unwrap_or(&[]);
            if place > 0 && (falsifies(says, clause) || falsifies(says, other)) {
                continue;
            }
            self.push_use(id, false)?;
        }
        Ok(())
    }

    // Ends the step that adds a clause.
    fn end(&mut self, id: usize, clause: &[Literal]) -> Result<(), AllocError> {
        self.literals.extend_from_slice(clause)?;
        self.give_name(id)?;
        self.ends.push(Ends {
            literals: self.literals.len(),
            uses: self.uses.len(),
        })?;
        Ok(())
    }

    // Notes each clause that was derived. One of a literal that another clause has alone is known by the name of that.
    pub(crate) fn note_derived(
        &mut self,
        kernel: &RatKernel,
        derivations: &Derivations,
    ) -> Result<(), AllocError> {
        for number in 0..derivations.len() {
            let Some((id, used)) = derivations.get(number) else {
                continue;
            };
            let clause = kernel.clause(id).unwrap_or(&[]);
            if clause.len() == 1 && used.len() == 1 {
                let name = self.name(used[0]);
                self.set_name(id, name)?;
                continue;
            }
            self.push_uses(kernel, used, clause, &[])?;
            self.end(id, clause)?;
        }
        Ok(())
    }

    // Notes a clause that was added as RAT on its first literal. The resolvents were derived in the order of the clauses
    // with the pivot's negation, and come behind these.
    pub(crate) fn note_rat(
        &mut self,
        kernel: &RatKernel,
        derivations: &Derivations,
        id: usize,
    ) -> Result<(), AllocError> {
        if !self.is_kept {
            return Ok(());
        }
        let clause = kernel.clause(id).unwrap_or(&[]);
        let Some(pivot) = clause.first().copied() else {
            return Ok(());
        };
        let ids = kernel.ids_with(pivot.negated());
        let end = match derivations.get(0) {
            Some((first, _)) => first,
            None => id,
        };
        let mut number: usize = 0;
        for candidate in ids.start..ids.end.min(end) {
            let other = kernel.clause(candidate).unwrap_or(&[]);
            if !has(other, pivot.negated()) {
                continue;
            }
            self.push_use(candidate, true)?;
            if let Some((_, used)) = derivations.get(number) {
                self.push_uses(kernel, used, clause, other)?;
            }
            number = number.saturating_add(1);
        }
        self.end(id, clause)
    }

    // Keeps the names of the clauses that stay.
    pub(crate) fn collect(&mut self, stays: &[bool]) {
        let mut kept: usize = 0;
        for id in 0..self.names.len() {
            if stays.get(id) == Some(&true) {
                let name = self.name(id);
                if let Some(slot) = self.names.get_mut(kept) {
                    *slot = name;
                }
                kept = kept.saturating_add(1);
            }
        }
        self.names.truncate(kept);
    }

    // How many clauses the formula has, whose names are 1 and so on.
    pub(crate) fn given(&self) -> u32 {
        self.given
    }

    // How many steps there are.
    pub(crate) fn len(&self) -> usize {
        self.ends.len()
    }

    // A step.
    pub(crate) fn step(&self, number: usize) -> Option<Added<'_>> {
        let end = *self.ends.get(number)?;
        let start = match number.checked_sub(1) {
            Some(before) => *self.ends.get(before)?,
            None => Ends {
                literals: 0,
                uses: 0,
            },
        };
        Some(Added {
            name: self.name_of(number),
            literals: part(&self.literals, start.literals, end.literals)?,
            uses: part(&self.uses, start.uses, end.uses)?,
        })
    }

    // The name of the clause that a step adds.
    fn name_of(&self, number: usize) -> u32 {
        let number = u32::try_from(number).unwrap_or(u32::MAX);
        self.given.saturating_add(number).saturating_add(1)
    }

    // Which clauses the last step needs, by the name of the last step that uses each.
    pub(crate) fn trim(&self, alloc: Global) -> Result<Trim, AllocError> {
        let mut trim = Trim {
            last_uses: vec![in alloc; 0u32; (self.last as usize).saturating_add(1)]?,
        };
        trim.note(self.last, self.last);
        for number in (0..self.ends.len()).rev() {
            let Some(step) = self.step(number) else {
                continue;
            };
            if !trim.is_needed(step.name) {
                continue;
            }
            for used in step.uses {
                trim.note(used.name, step.name);
            }
        }
        Ok(trim)
    }
}

// The last step that uses each clause.
#[derive(Drop)]
pub(crate) struct Trim {
    // Its name, by the name of the clause. 0 if none does.
    last_uses: Vec<u32>,
}

impl Trim {
    // A step uses a clause, and those behind it are noted.
    fn note(&mut self, name: u32, step: u32) {
        if let Some(last) = self.last_uses.get_mut(name as usize) {
            if *last == 0 {
                *last = step;
            }
        }
    }

    // Whether a step uses the clause, or it is the last one.
    pub(crate) fn is_needed(&self, name: u32) -> bool {
        self.last_uses.get(name as usize).copied().unwrap_or(0) > 0
    }

    // Whether no step behind this one uses the clause. Each is told once.
    pub(crate) fn ends(&mut self, name: u32, step: u32) -> bool {
        match self.last_uses.get_mut(name as usize) {
            Some(last) if *last == step => {
                *last = 0;
                true
            }
            _ => false,
        }
    }
}

// Whether a clause says only that a literal of another one is false.
fn falsifies(says: &[Literal], clause: &[Literal]) -> bool {
    match says {
        [l] => has(clause, l.negated()),
        _ => false,
    }
}

// The values between two places, if they are such.
fn part<T>(values: &[T], start: usize, end: usize) -> Option<&[T]> {
    if start > end || end > values.len() {
        return None;
    }
    Some(&values[start..end])
}
