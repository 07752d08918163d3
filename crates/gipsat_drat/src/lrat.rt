//! The checker of proofs with hints.
ghost use Rattle.std.specs.Prelude.{◌≡◌, IfOk};
ghost use Rattle.std.specs.Bool.{OnTrue};
ghost use Rattle.gipsat_drat.specs.Held.{IsConsistent, Keeps, held_of};

use crate::checker::list_ids;
use crate::error::{Flaw, Stop};
use crate::hint_list::Hint;
use crate::hints::add_hinted;
use crate::met::Met;
use crate::names::RisingNames;
use crate::numbering::{Numbered, Numbering, renumber};
use crate::trail::Trail;
use gipsat_cnf::{Cnf, Literal};
use gipsat_kernel::RatKernel;
use std::alloc::{AllocError, Global};
use std::marker::Model;

// Clauses with names, to which others are added only where their hints show them. It neither watches clauses nor looks
// for any, and what the hints lead to is derived by the kernel.
pub(crate) struct LratChecker {
    alloc: Global,
    kernel: RatKernel,
    trail: Trail,
    met: Met,
    names: RisingNames,
    numbering: Numbering,
    // The greatest name of all that were given.
    last: u64,
    // How many literals the clauses have.
    literals: usize,
    // Whether the empty clause was shown.
    refuted: bool,
}

// One call in its owners' proofs, in place of one for each field.
impl Drop for LratChecker {
    fn drop(self) {
        let LratChecker {
            alloc: _,
            kernel,
            trail,
            met,
            names: _,
            numbering,
            last: _,
            literals: _,
            refuted: _,
        } = self;
    }
}

impl Model for LratChecker {
    ghost use Rattle.gipsat_drat.specs.Held.{Held};

    ghost Value = { Held };

    ghost view = { λ c. record { clauses = c.kernel; refuted = c.refuted } };
}

// Of so many literals, those that deleted clauses leave behind are not many.
const FEW_LITERALS: usize = 65_536;

impl LratChecker {
    // A checker that holds the clauses of a formula, named from 1 on. Variables are numbered anew where the formula has
    // few of those that are below its greatest.
    pub(crate) fn over(alloc: Global, formula: Cnf) -> Result<Self, AllocError>
        ensures { IfOk result (Keeps (held_of formula)) }
    {
        let Numbered { numbering, formula } = renumber(alloc, formula)?;
        let kernel = RatKernel::over(alloc, formula)?;
        let mut checker = LratChecker::of(alloc, kernel, numbering);
        checker.name_given()?;
        Ok(checker)
    }

    // A checker of a kernel whose clauses have no names, with room for no variable.
    fn of(alloc: Global, kernel: RatKernel, numbering: Numbering) -> Self
        ensures { result ≡ held_of kernel }
    {
        LratChecker {
            alloc,
            kernel,
            trail: Trail::new(alloc),
            met: Met::new(alloc),
            names: RisingNames::new(alloc),
            numbering,
            last: 0,
            literals: 0,
            refuted: false,
        }
    }

    // Has room for the variables of the kernel, and names its clauses from 1 on.
    fn name_given(&mut self) -> Result<(), AllocError>
        ensures { self.new ≡ self.old }
    {
        let len = self.kernel.len();
        self.trail.cover(self.kernel.variables())?;
        self.met.cover(self.kernel.variables())?;
        name_first(self.alloc, &mut self.names, len)?;
        self.last = len as u64;
        self.literals = self.kernel.literals().len();
        Ok(())
    }

    // Whether the empty clause was shown.
    pub(crate) fn is_refuted(&self) -> bool
        ensures value { result ≡ self.now.refuted }
        ensures refutes { OnTrue result (¬ (IsConsistent self.now)) }
    {
        self.refuted
    }

    // Whether a clause has a name.
    pub(crate) fn has(&self, name: u64) -> bool {
        self.names.get(name).is_some()
    }

    // Turns a clause of a text into one of the variables that are held.
    pub(crate) fn number(&mut self, clause: &mut [Literal]) -> Result<(), AllocError>
        ensures { self.new ≡ self.old }
    {
        self.numbering.apply(self.alloc, clause)
    }

    // Adds a clause that its hints show, with a name that is greater than all before.
    #[tactic(auto, using(crate::proofs::HeldLemmas::not_shown))]
    pub(crate) fn add(&mut self, name: u64, clause: &[Literal], hints: &[Hint]) -> Result<(), Stop>
        ensures { Keeps self.old self.new }
    {
        if name <= self.last {
            return Err(Stop::Refused(Flaw::Name));
        }
        self.collect_if_sparse()?;
        self.trail.cover_clause(clause)?;
        self.met.cover(self.trail.capacity())?;
        let added = add_hinted(
            self.alloc,
            &mut self.kernel,
            &mut self.trail,
            &mut self.met,
            &self.names,
            clause,
            hints,
        );
        self.trail.backtrack();
        let id = added?;
        self.names.insert(self.alloc, name, id)?;
        self.last = name;
        self.literals = self.literals.saturating_add(clause.len());
        self.refuted = self.kernel.is_refuted(id);
        Ok(())
    }

    // Deletes the clauses with these names.
    pub(crate) fn delete_all(&mut self, names: &[Hint]) -> Result<(), Stop>
        ensures { Keeps self.old self.new }
    {
        for hint in names {
            self.delete(hint.name)?;
        }
        Ok(())
    }

    // Deletes the clause with a name.
    fn delete(&mut self, name: u64) -> Result<(), Stop>
        ensures { Keeps self.old self.new }
    {
        let Some(id) = self.names.remove(name) else {
            return Err(Stop::Refused(Flaw::Unnamed));
        };
        let len = self.kernel.clause(id).unwrap_or(&[]).len();
        self.literals = self.literals.saturating_sub(len);
        self.kernel.delete(id);
        Ok(())
    }

    // Whether most of the literals, or of the clauses, are not of clauses that are held.
    fn is_sparse(&self) -> bool {
        let few = self.literals.saturating_add(FEW_LITERALS);
        self.kernel.literals().len() / 3 > few || self.kernel.len() / 3 > few
    }

    // Gives the memory of deleted clauses back, if they are many.
    fn collect_if_sparse(&mut self) -> Result<(), AllocError>
        ensures { self.new ≡ self.old }
    {
        if !self.is_sparse() {
            return Ok(());
        }
        let mut stays = Vec::new(self.alloc);
        let mut ids = Vec::new(self.alloc);
        self.collect(&mut stays, &mut ids)
    }

    // Gives that memory back, with lists for whether each clause stays, and for its new id.
    fn collect(&mut self, stays: &mut Vec<bool>, ids: &mut Vec<usize>) -> Result<(), AllocError>
        ensures { self.new ≡ self.old }
    {
        list_ids(&self.kernel, stays, ids)?;
        self.names.retire_if_sparse(self.alloc)?;
        self.kernel.collect(self.alloc)?;
        self.names.renumber(ids);
        Ok(())
    }
}

// Names so many clauses of a formula from 1 on.
fn name_first(alloc: Global, names: &mut RisingNames, len: usize) -> Result<(), AllocError> {
    for id in 0..len {
        names.insert(alloc, (id as u64).saturating_add(1), id)?;
    }
    Ok(())
}
