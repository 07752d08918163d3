//! The checker.
ghost use Rattle.std.specs.Prelude.{◌≡◌, [], false, IfOk, OnErr};
ghost use Rattle.std.specs.Bool.{OnFalse, OnTrue};
ghost use Rattle.gipsat_drat.specs.Held.{IsConsistent, Keeps, StaysRefuted, held_of, held_with};

use crate::index::Index;
use crate::log::Log;
use crate::numbering::{Numbered, Numbering, renumber};
use crate::rat::add_rat;
use crate::rup::{add_rup, enter};
use crate::trail::Trail;
use crate::watches::{GONE, Watches};
use gipsat_cnf::{Cnf, Literal};
use gipsat_kernel::RatKernel;
use std::alloc::{AllocError, Global};
use std::marker::Model;

/// Clauses, to which others are added only where they are RUP or RAT. Contracts see the formula of all of them, and
/// whether the empty clause was shown.
///
/// A clause is RUP if unit propagation shows that it follows. It is RAT on its first literal, the pivot, if nothing of
/// the pivot's variable is true by the clauses alone, and each of its resolvents on the pivot is RUP: its literals with
/// those of a clause that has the pivot's negation, but for that. Such a clause need not follow, but keeps
/// satisfiability: where something satisfied all clauses, something satisfies this one as well.
///
/// All that is believed is a [`RatKernel`]: what propagation finds is derived by it.
pub struct Checker {
    alloc: Global,
    kernel: RatKernel,
    trail: Trail,
    watches: Watches,
    index: Index,
    numbering: Numbering,
    // The steps, if they are wanted.
    log: Log,
    // Whether the empty clause was shown.
    refuted: bool,
}

// One call in its owners' proofs, in place of one for each field.
impl Drop for Checker {
    fn drop(self) {
        let Checker {
            alloc: _,
            kernel,
            trail,
            watches,
            index,
            numbering,
            log,
            refuted: _,
        } = self;
    }
}

impl Model for Checker {
    ghost use Rattle.gipsat_drat.specs.Held.{Held};

    ghost Value = { Held };

    ghost view = { λ c. record { clauses = c.kernel; refuted = c.refuted } };
}

impl Checker {
    /// A checker that holds nothing, with room for so many variables. Where a clause has others, it takes room for them.
    ///
    /// # Errors
    /// `AllocError` where memory is refused.
    pub fn new(alloc: Global, variables: u32) -> Result<Self, AllocError>
        ensures { IfOk result (λ c. c ≡ held_of []) }
    {
        let mut checker = Checker::of(alloc, RatKernel::new(alloc), Numbering::new(alloc));
        checker.cover_variables(variables as usize)?;
        Ok(checker)
    }

    /// A checker that holds the clauses of a formula. It takes the formula over without a copy.
    ///
    /// # Errors
    /// `AllocError` where memory is refused. The formula is lost then.
    pub fn over(alloc: Global, formula: Cnf) -> Result<Self, AllocError>
        ensures { IfOk result (Keeps (held_of formula)) }
    {
        Checker::over_with(alloc, formula, Numbering::new(alloc), false)
    }

    // The same, and variables are numbered anew where the formula has few of those that are below its greatest. The steps
    // are noted if they are wanted.
    pub(crate) fn over_numbered(
        alloc: Global,
        formula: Cnf,
        keeps_log: bool,
    ) -> Result<Self, AllocError>
        ensures { IfOk result (Keeps (held_of formula)) }
    {
        let Numbered { numbering, formula } = renumber(alloc, formula)?;
        Checker::over_with(alloc, formula, numbering, keeps_log)
    }

    // A checker that holds the clauses of a formula of variables with these numbers.
    fn over_with(
        alloc: Global,
        formula: Cnf,
        numbering: Numbering,
        keeps_log: bool,
    ) -> Result<Self, AllocError>
        ensures { IfOk result (Keeps (held_of formula)) }
    {
        let kernel = RatKernel::over(alloc, formula)?;
        let mut checker = Checker::of(alloc, kernel, numbering);
        checker.enter_given(keeps_log)?;
        Ok(checker)
    }

    // The steps, if they were wanted.
    pub(crate) fn log(&self) -> &Log {
        &self.log
    }

    // The numbers of the variables.
    pub(crate) fn numbering(&self) -> &Numbering {
        &self.numbering
    }

    // Turns a clause of a text into one of the variables that are held.
    pub(crate) fn number(&mut self, clause: &mut [Literal]) -> Result<(), AllocError>
        ensures { self.new ≡ self.old }
    {
        self.numbering.apply(self.alloc, clause)
    }

    // Notes the steps from now on, if they are wanted.
    fn keep_log(&mut self, is_kept: bool) -> Result<(), AllocError>
        ensures { self.new ≡ self.old }
    {
        if !is_kept {
            return Ok(());
        }
        self.trail.keep_derivations();
        self.log.keep(self.kernel.len())
    }

    // Enters each clause of the kernel, and notes what is derived of them, and the steps from then on, if it is wanted.
    fn enter_given(&mut self, keeps_log: bool) -> Result<(), AllocError>
        ensures { Keeps self.old self.new }
    {
        let variables = self.kernel.variables();
        self.cover_variables(variables)?;
        self.keep_log(keeps_log)?;
        self.enter_all()?;
        self.note_derived()
    }

    // A checker of a kernel whose clauses were not entered, with room for no variable.
    fn of(alloc: Global, kernel: RatKernel, numbering: Numbering) -> Self
        ensures { result ≡ held_of kernel }
    {
        Checker {
            alloc,
            kernel,
            trail: Trail::new(alloc),
            watches: Watches::new(alloc),
            index: Index::new(alloc),
            numbering,
            log: Log::new(alloc),
            refuted: false,
        }
    }

    /// Whether the empty clause was shown.
    pub fn is_refuted(&self) -> bool
        ensures value { result ≡ self.now.refuted }
        ensures refutes { OnTrue result (¬ (IsConsistent self.now)) }
    {
        self.refuted
    }

    /// Holds a clause without a look at whether it follows. The empty one is shown by that.
    ///
    /// # Errors
    /// `AllocError` where memory is refused. The clause may be held then.
    pub fn give(&mut self, clause: &[Literal]) -> Result<(), AllocError>
        ensures keeps { Keeps (held_with self.old clause.now) self.new }
        ensures refuted { StaysRefuted self.old self.new }
    {
        self.cover(clause)?;
        let id = self.kernel.add_clause(clause)?;
        self.enter(id)
    }

    /// Holds a clause, if it is RUP, or RAT on its first literal, and answers whether it is. Once the empty clause was
    /// shown, each is.
    ///
    /// A clause that isn't RUP costs a look at the clauses from the first to the last one with the pivot's negation.
    ///
    /// # Errors
    /// `AllocError` where memory is refused. The clause may be held then.
    pub fn add(&mut self, clause: &[Literal]) -> Result<bool, AllocError>
        ensures keeps { Keeps self.old self.new }
        ensures refused { IfOk result (λ shown. OnFalse shown (self.new.refuted ≡ self.old.refuted)) }
        ensures open { IfOk result (λ shown. OnFalse shown (self.old.refuted ≡ false)) }
        ensures refuted { StaysRefuted self.old self.new }
    {
        if self.refuted {
            return Ok(true);
        }
        self.cover(clause)?;
        self.collect_if_sparse()?;
        let Some(id) = self.add_redundant(clause)? else {
            return Ok(false);
        };
        self.enter(id)?;
        self.note_derived()?;
        Ok(true)
    }

    /// Deletes one clause with these literals, in whatever order and however often each is there. False if there is
    /// none. What is true by the clauses held before stays true.
    ///
    /// # Errors
    /// `AllocError` where memory is refused, as the memory of clauses that were deleted before is given back. None is
    /// deleted then.
    pub fn delete(&mut self, clause: &[Literal]) -> Result<bool, AllocError>
        ensures keeps { Keeps self.old self.new }
        ensures missing { IfOk result (λ found. OnFalse found (self.new ≡ self.old)) }
        ensures err { OnErr result (self.new ≡ self.old) }
        ensures refuted { self.new.refuted ≡ self.old.refuted }
    {
        self.collect_if_sparse()?;
        let Some(id) = self.index.find(&self.kernel, clause) else {
            return Ok(false);
        };
        self.kernel.delete(id);
        self.index.delete(id);
        Ok(true)
    }

    // Notes what was derived, if it is wanted.
    fn note_derived(&mut self) -> Result<(), AllocError>
        ensures { self.new ≡ self.old }
    {
        self.log
            .note_derived(&self.kernel, self.trail.derivations())?;
        self.trail.forget_derivations();
        Ok(())
    }

    // Notes a clause that is RAT, if it is wanted.
    fn note_rat(&mut self, id: usize) -> Result<(), AllocError>
        ensures { self.new ≡ self.old }
    {
        self.log
            .note_rat(&self.kernel, self.trail.derivations(), id)?;
        self.trail.forget_derivations();
        Ok(())
    }

    // Has room for the variables of a clause.
    fn cover(&mut self, clause: &[Literal]) -> Result<(), AllocError>
        ensures { self.new ≡ self.old }
    {
        self.trail.cover_clause(clause)?;
        let variables = self.trail.capacity();
        self.cover_variables(variables)
    }

    // Has room for so many variables, if there are more than before.
    fn cover_variables(&mut self, variables: usize) -> Result<(), AllocError>
        ensures { self.new ≡ self.old }
    {
        self.trail.cover(variables)?;
        self.watches.cover(self.alloc, variables)?;
        self.index.cover(variables)
    }

    // Adds a clause to those of the kernel if it is RUP or RAT: its id.
    fn add_redundant(&mut self, clause: &[Literal]) -> Result<Option<usize>, AllocError>
        ensures keeps { Keeps self.old self.new }
        ensures refuted { self.new.refuted ≡ self.old.refuted }
    {
        let added = add_rup(
            self.alloc,
            &mut self.kernel,
            &mut self.trail,
            &mut self.watches,
            clause,
        )?;
        if added.is_some() {
            return Ok(added);
        }
        self.add_rat(clause)
    }

    // Adds a clause to those of the kernel if it is RAT: its id.
    fn add_rat(&mut self, clause: &[Literal]) -> Result<Option<usize>, AllocError>
        ensures keeps { Keeps self.old self.new }
        ensures refuted { self.new.refuted ≡ self.old.refuted }
    {
        let len = self.kernel.len();
        let added = add_rat(
            self.alloc,
            &mut self.kernel,
            &mut self.trail,
            &mut self.watches,
            clause,
        );
        // The resolvents are dead, and the clause itself is not.
        let more = self.kernel.len().saturating_sub(len);
        let kept = usize::from(matches!(added, Ok(Some(_))));
        self.index.count_dead(more.saturating_sub(kept));
        let Some(id) = added? else {
            return Ok(None);
        };
        self.note_rat(id)?;
        Ok(Some(id))
    }

    // Enters each clause of the kernel, as far as the empty clause is shown.
    fn enter_all(&mut self) -> Result<(), AllocError>
        ensures { Keeps self.old self.new }
    {
        for id in 0..self.kernel.len() {
            if self.refuted {
                return Ok(());
            }
            self.enter(id)?;
        }
        Ok(())
    }

    // Enters a clause of the kernel into the index, lets it watch two literals, and propagates what it makes true. Once
    // the empty clause was shown, the index alone is needed.
    #[tactic(auto, using(crate::proofs::HeldLemmas::not_shown))]
    fn enter(&mut self, id: usize) -> Result<(), AllocError>
        ensures keeps { Keeps self.old self.new }
        ensures refuted { StaysRefuted self.old self.new }
    {
        if let Some(clause) = self.kernel.clause(id) {
            self.index.push(id, clause)?;
        }
        if self.refuted {
            return Ok(());
        }
        self.refuted = enter(
            self.alloc,
            &mut self.kernel,
            &mut self.trail,
            &mut self.watches,
            id,
        )?;
        Ok(())
    }

    // Gives the memory of deleted clauses back, if they are many, and names the others by their new ids.
    fn collect_if_sparse(&mut self) -> Result<(), AllocError>
        ensures { self.new ≡ self.old }
    {
        if self.refuted || !self.index.is_sparse() {
            return Ok(());
        }
        let mut stays = Vec::new(self.alloc);
        let mut ids = Vec::new(self.alloc);
        self.collect(&mut stays, &mut ids)
    }

    // Gives that memory back, with lists for whether each clause stays, and for its new id.
    fn collect(&mut self, stays: &mut Vec<bool>, ids: &mut Vec<usize>) -> Result<(), AllocError>
        ensures { self.new ≡ self.old }
    {
        list_ids(&self.kernel, stays, ids)?;
        let entries = self.index.kept(self.alloc, stays)?;
        // No request is refused from here on.
        self.kernel.collect(self.alloc)?;
        self.index.replace(entries);
        self.log.collect(stays);
        self.watches.renumber(ids);
        self.trail.renumber(ids);
        Ok(())
    }
}

// Lists of each clause whether it stays at a collection, and its id after that.
pub(crate) fn list_ids(
    kernel: &RatKernel,
    stays: &mut Vec<bool>,
    ids: &mut Vec<usize>,
) -> Result<(), AllocError> {
    let mut next: usize = 0;
    for id in 0..kernel.len() {
        let is_held = kernel.clause(id).is_some();
        stays.push(is_held)?;
        ids.push(if is_held { next } else { GONE })?;
        next = next.saturating_add(usize::from(is_held));
    }
    Ok(())
}
