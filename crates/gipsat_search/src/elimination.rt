//! What an elimination of variables works on: the clauses that take part, and those that may subsume others.

use crate::candidates::Candidates;
use crate::clauses::Status;
use crate::derive::Resolution;
use crate::occurrences::Occurrences;
use crate::reduce::delete;
use crate::settings::SETTINGS;
use crate::state::State;
use crate::subsume::Marks;
use crate::trail::{Trail, short};
use gipsat_cnf::Literal;
use gipsat_kernel::Kernel;
use std::alloc::{AllocError, Global};

// An elimination: the clauses that take part, and the queue of those that may subsume others.
pub(crate) struct Elimination {
    pub occurrences: Occurrences,
    pub marks: Marks,
    // Clauses that were not asked yet which others follow from them.
    pub waiting: Vec<u32>,
    // How many working clauses were looked at.
    known: usize,
    // How many steps are left.
    pub steps: u64,
    // How many clauses more the elimination of a variable may leave.
    bound: usize,
}

// One call in its owners' proofs, in place of one for each field.
impl Drop for Elimination {
    fn drop(self) {
        let Elimination {
            occurrences,
            marks,
            waiting,
            known: _,
            steps: _,
            bound: _,
        } = self;
    }
}

impl Elimination {
    // Of no clause yet, with the steps of a round.
    pub(crate) fn new(alloc: Global, kernel: &Kernel, state: &State) -> Result<Self, AllocError> {
        let variables = state.trail.variables();
        let marks = Marks::new(alloc, variables)?;
        Ok(Elimination {
            occurrences: Occurrences::new(alloc, kernel, &state.clauses, variables)?,
            marks,
            waiting: Vec::new(alloc),
            known: 0,
            steps: state.rounds.steps(),
            bound: state.rounds.bound(),
        })
    }

    // So many literals were looked at.
    pub(crate) fn spend(&mut self, literals: usize) {
        self.steps = self.steps.saturating_sub(literals as u64);
    }

    // Lets the clauses take part that have come since.
    pub(crate) fn connect_new(
        &mut self,
        kernel: &Kernel,
        state: &mut State,
    ) -> Result<(), AllocError> {
        for id in self.known..kernel.len() {
            let clause = kernel.clause(id).unwrap_or(&[]);
            if state.clauses.is_kept(id) && !state.trail.is_satisfied(clause) {
                self.connect(state, clause, id)?;
            }
        }
        self.known = kernel.len();
        Ok(())
    }

    // Lets a clause take part, unless it has a literal twice. The variables of such a clause stay, and those of a unit.
    fn connect(
        &mut self,
        state: &mut State,
        clause: &[Literal],
        id: usize,
    ) -> Result<(), AllocError> {
        let has_twice = self.marks.has_twice(clause);
        if has_twice || clause.len() == 1 {
            freeze(&mut state.candidates, clause);
        }
        if has_twice {
            return Ok(());
        }
        self.spend(clause.len().saturating_mul(SETTINGS.occurrence_steps));
        self.occurrences.connect(&state.trail, clause, id)?;
        self.waiting.push(short(id))?;
        Ok(())
    }

    // Lists the clauses that have a literal, where none is listed yet.
    pub(crate) fn list(&mut self, l: Literal, clauses: &mut Vec<u32>) -> Result<(), AllocError> {
        let len = self.occurrences.of(l).len();
        self.spend(len);
        self.occurrences.list(l, clauses)
    }

    // A clause takes no part any more. Its variables are to be tried.
    fn disconnect(
        &mut self,
        kernel: &Kernel,
        state: &mut State,
        id: u32,
    ) -> Result<(), AllocError> {
        let clause = kernel.clause(id as usize).unwrap_or(&[]);
        self.spend(clause.len().saturating_mul(SETTINGS.occurrence_steps));
        self.occurrences.disconnect(&state.trail, clause, id);
        for l in clause {
            state.candidates.touch(l.variable())?;
        }
        Ok(())
    }

    // Takes a clause out that was eliminated.
    pub(crate) fn take_out(
        &mut self,
        kernel: &Kernel,
        state: &mut State,
        id: u32,
    ) -> Result<(), AllocError> {
        state.clauses.set_status(id as usize, Status::Eliminated);
        self.disconnect(kernel, state, id)
    }

    // Deletes a clause that takes part.
    pub(crate) fn delete(
        &mut self,
        kernel: &Kernel,
        state: &mut State,
        id: u32,
    ) -> Result<(), AllocError> {
        delete(kernel, state, id as usize);
        self.disconnect(kernel, state, id)
    }

    // Lists the resolvents that stand for the clauses of a variable. Whether they are not too many, and none is too
    // long.
    pub(crate) fn list_resolutions(
        &mut self,
        kernel: &Kernel,
        trail: &Trail,
        firsts: &[u32],
        seconds: &[u32],
        literal: Literal,
        resolutions: &mut Vec<Resolution>,
    ) -> Result<bool, AllocError> {
        for first in firsts {
            let clause = kernel.clause(*first as usize).unwrap_or(&[]);
            self.spend(clause.len());
            self.marks.set(trail, clause, true);
            let most = firsts
                .len()
                .saturating_add(seconds.len())
                .saturating_add(self.bound);
            let done = self.resolutions_with(
                kernel,
                trail,
                *first,
                seconds,
                literal,
                most,
                resolutions,
            );
            self.marks.set(trail, clause, false);
            if !done? {
                return Ok(false);
            }
        }
        Ok(true)
    }

    // Lists the resolvents of the marked clause. Whether they are not too many, and none is too long.
    fn resolutions_with(
        &mut self,
        kernel: &Kernel,
        trail: &Trail,
        first: u32,
        seconds: &[u32],
        literal: Literal,
        most: usize,
        resolutions: &mut Vec<Resolution>,
    ) -> Result<bool, AllocError> {
        let size = self.occurrences.outline(first).size;
        for second in seconds {
            let clause = kernel.clause(*second as usize).unwrap_or(&[]);
            self.spend(clause.len());
            let Some(more) = self.literals_more(trail, clause, literal.negated()) else {
                continue;
            };
            if resolutions.len() >= most
                || (size as usize).saturating_add(more) > SETTINGS.resolvent_literals
            {
                return Ok(false);
            }
            resolutions.push(Resolution {
                first,
                second: *second,
                literal,
            })?;
        }
        Ok(true)
    }

    // How many literals but one of a clause are not marked. None where the negation of one of them is.
    fn literals_more(&self, trail: &Trail, clause: &[Literal], but: Literal) -> Option<usize> {
        let mut more = 0usize;
        for l in clause {
            if l.code() == but.code() || !trail.is_unset(*l) {
                continue;
            }
            if self.marks.has(l.negated()) {
                return None;
            }
            more = more.saturating_add(usize::from(!self.marks.has(*l)));
        }
        Some(more)
    }
}

// The variables of a clause stay.
fn freeze(candidates: &mut Candidates, clause: &[Literal]) {
    for l in clause {
        candidates.freeze(l.variable());
    }
}
