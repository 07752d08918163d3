//! A formula, and working clauses each of which follows from it.
ghost use Rattle.std.specs.Prelude.{◌≡◌, ◌++◌, ◌∷◌, ◌<◌, [], length, map, IfSome, IfNone, IfOk, OnOk, OnErr};
ghost use Rattle.std.specs.Bool.{OnFalse, OnTrue};
ghost use Rattle.gipsat_cnf.specs.Prelude.{AreAllBelow, Implies, IsCore, IsModelUnder, IsSatisfiable, IsSatisfiableUnder, SaysSame, assignment_in, negated, satisfies};

use crate::chains::Chains;
use crate::flags::{all_set, flag_at, flags_kept, keep_original};
use crate::marks::Marks;
use gipsat_cnf::enumerate::find_model;
use gipsat_cnf::values::{makes_true, satisfies_clause};
use gipsat_cnf::{ClauseSink, Cnf, Literal, Span};
use std::alloc::{AllocError, Global};
use std::marker::Model;

/// A formula, and working clauses each of which follows from it. Contracts see the formula alone.
///
/// The clauses of the formula are working clauses, and a derivation adds others: [`Kernel::begin`] with a clause,
/// [`Kernel::resolve`] any number of times, and [`Kernel::conclude`]. It cannot go wrong: whatever the clauses and the
/// pivots are, the clause that it concludes follows from the formula. A working clause is named by its place, its id.
pub struct Kernel {
    clauses: Cnf,
    // Whether the clause at a place is one of the formula.
    original: Vec<bool>,
    // The literals of the clause that is being derived.
    marks: Marks,
    // Whether a clause is being derived.
    is_open: bool,
    chains: Chains,
}

// One call in its owners' proofs, in place of one for each field.
impl Drop for Kernel {
    fn drop(self) {
        let Kernel {
            clauses,
            original,
            marks,
            is_open: _,
            chains,
        } = self;
    }
}

impl Model for Kernel {
    ghost use Rattle.gipsat_cnf.specs.Formulas.{Formula};
    ghost use Rattle.gipsat_kernel.specs.Kernel.{IsKernel, original_among};

    ghost Value = { Formula };

    ghost view = { λ k. original_among k.original.items k.clauses };

    ghost invariant = { λ k. IsKernel k.original.items k.clauses k.marks k.is_open };
}

impl Kernel {
    /// The formula without clauses. It takes no memory.
    pub fn new(alloc: Global) -> Self
        ensures { result ≡ [] }
    {
        Kernel {
            clauses: Cnf::new(alloc),
            original: Vec::new(alloc),
            marks: Marks::new(alloc),
            is_open: false,
            chains: Chains::new(alloc),
        }
    }

    /// A formula that is taken over without a copy: its clauses are the working clauses, at their places.
    ///
    /// # Errors
    /// `AllocError` where memory is refused. The formula is lost then.
    pub fn over(alloc: Global, formula: Cnf) -> Result<Self, AllocError>
        ensures { IfOk result (λ k. k ≡ formula) }
    {
        let original = all_set(alloc, formula.len())?;
        let mut marks = Marks::new(alloc);
        marks.cover_variables(formula.variables())?;
        Ok(Kernel {
            clauses: formula,
            original,
            marks,
            is_open: false,
            chains: Chains::new(alloc),
        })
    }

    /// Adds a clause to the formula, and so to the working clauses: its id. A derivation that was begun is dropped.
    ///
    /// # Errors
    /// `AllocError` where memory is refused, or where there would be 2^32 literals. The formula stays as it is.
    pub fn add_clause(&mut self, clause: &[Literal]) -> Result<usize, AllocError>
        ensures added { OnOk result (self.new ≡ self.old ++ clause.now ∷ []) }
        ensures refused { OnErr result (self.new ≡ self.old) }
    {
        self.is_open = false;
        self.marks.cover_clause(clause)?;
        self.original.reserve(1)?;
        let id = self.clauses.len();
        self.clauses.push(clause)?;
        self.original.push_reserved(true);
        Ok(id)
    }

    /// How many working clauses there are. Each id is below.
    #[inline]
    pub fn len(&self) -> usize {
        self.clauses.len()
    }

    /// Whether there is no working clause.
    #[inline]
    pub fn is_empty(&self) -> bool {
        self.clauses.is_empty()
    }

    /// A number, at most 2^31, that the variables of all working clauses are below.
    #[inline]
    pub fn variables(&self) -> usize
        ensures { AreAllBelow result self.now }
    {
        self.clauses.variables()
    }

    /// A working clause. None if there is none with this id.
    #[inline]
    pub fn clause(&self, id: usize) -> Option<&[Literal]>
        ensures { IfSome result (λ clause. Implies self.now clause.now) }
    {
        if id >= self.clauses.len() {
            return None;
        }
        Some(self.clauses.clause(id))
    }

    /// The literals of all working clauses, one clause behind another.
    #[inline]
    pub fn literals(&self) -> &[Literal] {
        self.clauses.literals()
    }

    /// Where a working clause lies among the literals. None if there is none with this id.
    #[inline]
    pub fn span(&self, id: usize) -> Option<Span> {
        self.clauses.span(id)
    }

    /// Whether the clause is one of the formula. It is not if it was derived, or if another one subsumed it.
    #[inline]
    pub fn is_original(&self, id: usize) -> bool {
        flag_at(&self.original, id, false)
    }

    /// Swaps two literals of a derived clause, by their places in it. Nothing changes in a clause of the formula, or
    /// where there is no such clause or literal.
    #[inline]
    pub fn swap(&mut self, id: usize, i: usize, j: usize)
        ensures { self.new ≡ self.old }
    {
        if id >= self.original.len() || self.original[id] {
            return;
        }
        self.clauses.swap(id, i, j);
    }

    /// Begins to derive a clause from a working clause. False, and no clause is being derived, if there is none with
    /// this id.
    ///
    /// # Errors
    /// `AllocError` where memory is refused. No clause is being derived then.
    pub fn begin(&mut self, id: usize) -> Result<bool, AllocError>
        ensures { self.new ≡ self.old }
    {
        self.is_open = false;
        self.marks.clear();
        self.chains.begin(self.clauses.len());
        if id >= self.clauses.len() {
            return Ok(false);
        }
        self.chains.push(id)?;
        self.marks.add_all(self.clauses.clause(id))?;
        self.is_open = true;
        Ok(true)
    }

    /// Resolves the clause that is being derived with a working clause: the other literals of the working clause take
    /// the place of the pivot's negation. The working clause should have the pivot. False, and nothing changes, if no
    /// clause is being derived, if it has not the pivot's negation, or if there is no working clause with this id.
    ///
    /// # Errors
    /// `AllocError` where memory is refused. No clause is being derived then.
    pub fn resolve(&mut self, pivot: Literal, id: usize) -> Result<bool, AllocError>
        ensures { self.new ≡ self.old }
    {
        let opposite = pivot.negated();
        if !self.is_open || id >= self.clauses.len() || !self.marks.has(opposite) {
            return Ok(false);
        }
        self.is_open = false;
        self.chains.push(id)?;
        self.marks.remove(opposite);
        self.marks.add_but(pivot, self.clauses.clause(id))?;
        self.is_open = true;
        Ok(true)
    }

    /// Whether the clause that is being derived has a literal.
    #[inline]
    pub fn is_marked(&self, l: Literal) -> bool {
        self.marks.has(l)
    }

    /// The literals that the clause that is being derived had at any time. Those that came last stand last.
    #[inline]
    pub fn marked(&self) -> &[Literal] {
        self.marks.listed()
    }

    /// Makes the clause that is being derived a working clause: its id. It takes no memory but for this clause. None if
    /// no clause is being derived.
    ///
    /// # Errors
    /// `AllocError` where memory is refused, or where there would be 2^32 literals. No clause is being derived then.
    pub fn conclude(&mut self) -> Result<Option<usize>, AllocError>
        ensures { self.new ≡ self.old }
    {
        if !self.is_open {
            return Ok(None);
        }
        self.is_open = false;
        self.original.reserve(1)?;
        let id = self.clauses.len();
        self.chains.end_at(id)?;
        self.marks.take_into(&mut self.clauses)?;
        self.original.push_reserved(false);
        Ok(Some(id))
    }

    /// Drops the clause that is being derived.
    pub fn cancel(&mut self)
        ensures { self.new ≡ self.old }
    {
        self.is_open = false;
        self.marks.clear();
    }

    /// Lets [`Kernel::chain`] tell the chains of later derivations, or no more. At first it does not. Those of earlier
    /// ones are forgotten.
    pub fn keep_chains(&mut self, are_kept: bool)
        ensures { self.new ≡ self.old }
    {
        self.chains.keep(are_kept, self.clauses.len());
    }

    /// Forgets the chains of all derivations so far, and frees no memory.
    pub fn forget_chains(&mut self)
        ensures { self.new ≡ self.old }
    {
        self.chains.forget(self.clauses.len());
    }

    /// The chain of a derived clause, by its id: the ids of the working clauses that its derivation used, in order. It is
    /// empty if it was not kept, or if there is no such clause. A collection changes ids, and forgets all chains.
    pub fn chain(&self, id: usize) -> &[usize] {
        self.chains.of(id)
    }

    /// Drops the working clauses that do not stay, by a flag for each id, and moves the others up. It sets the flags of
    /// the clauses of the formula, which all stay, and clauses past the flags stay too. So the new id of a clause that
    /// stays is the number of set flags before it. It takes the memory of what stays, and then frees what was held
    /// before.
    ///
    /// # Errors
    /// `AllocError` where memory is refused. Only flags change then.
    pub fn collect(&mut self, alloc: Global, stays: &mut [bool]) -> Result<(), AllocError>
        ensures { self.new ≡ self.old }
    {
        keep_original(&self.original, stays);
        let clauses = self.clauses.kept(alloc, stays)?;
        let original = flags_kept(alloc, &self.original, stays)?;
        self.chains.forget(clauses.len());
        self.clauses = clauses;
        self.original = original;
        Ok(())
    }

    /// Lets one clause stand for another in the formula, if it has only literals of the other. So the other one is no
    /// more a clause of the formula, and a collection may drop it. False, and the formula stays, if it has other
    /// literals, or if there are not two such clauses. True, and nothing changes, if it was no clause of the formula. A
    /// derivation that was begun is dropped.
    pub fn subsume(&mut self, id: usize, by: usize) -> bool
        ensures { SaysSame self.old self.new }
    {
        self.is_open = false;
        let len = self.clauses.len();
        if id >= len || by >= len || id == by {
            return false;
        }
        if !self
            .marks
            .is_part(self.clauses.clause(by), self.clauses.clause(id))
        {
            return false;
        }
        if !self.original[id] {
            return true;
        }
        self.original[by] = true;
        self.original[id] = false;
        true
    }

    /// Whether a working clause is empty. If so, nothing satisfies the formula.
    pub fn is_refuted(&self, id: usize) -> bool
        ensures { OnTrue result (¬ (IsSatisfiable self.now)) }
    {
        id < self.clauses.len() && self.clauses.clause(id).is_empty()
    }

    /// The negations of a working clause's literals, if each is one of the assumptions. None if one is not, or if there
    /// is no such clause. A derivation that was begun is dropped.
    ///
    /// # Errors
    /// `AllocError` where memory is refused.
    pub fn core(
        &mut self,
        alloc: Global,
        id: usize,
        assumptions: &[Literal],
    ) -> Result<Option<Vec<Literal>>, AllocError>
        ensures formula { self.new ≡ self.old }
        ensures core { IfOk result (λ found. IfSome found (λ core. IsCore self.old assumptions.now core.items)) }
    {
        self.is_open = false;
        if id >= self.clauses.len() {
            return Ok(None);
        }
        let core = negations(alloc, self.clauses.clause(id))?;
        if !self.marks.is_part(&core, assumptions) {
            return Ok(None);
        }
        Ok(Some(core))
    }

    /// Whether a working clause has only literals of a clause. If so, this clause follows. A derivation that was begun
    /// is dropped.
    pub fn proves(&mut self, id: usize, clause: &[Literal]) -> bool
        ensures formula { self.new ≡ self.old }
        ensures follows { OnTrue result (Implies self.old clause.now) }
    {
        self.is_open = false;
        id < self.clauses.len() && self.marks.is_part(self.clauses.clause(id), clause)
    }

    /// Whether truth values satisfy each clause of the formula, and make the assumptions true. They are by variable,
    /// and a variable past their end is false.
    pub fn is_model(&self, values: &[bool], assumptions: &[Literal]) -> bool
        ensures model { OnTrue result (IsModelUnder self.now assumptions.now values.now) }
        ensures none { OnFalse result (¬ (IsModelUnder self.now assumptions.now values.now)) }
    {
        if !self.satisfied_by(values) {
            return false;
        }
        makes_true(values, assumptions)
    }

    // Whether truth values satisfy each clause of the formula.
    fn satisfied_by(&self, values: &[bool]) -> bool
        ensures { result ≡ satisfies (assignment_in values.now) self.now }
    {
        for id in 0..self.clauses.len() {
            if !self.original[id] {
                continue;
            }
            if !satisfies_clause(values, self.clauses.clause(id)) {
                return false;
            }
        }
        true
    }

    /// A model that makes the assumptions true, found by trying all values, up to 2^n of them for n variables. None if
    /// there is none. It always answers, for what a search leaves open.
    ///
    /// # Errors
    /// `AllocError` where memory is refused.
    pub fn find_model(
        &self,
        alloc: Global,
        assumptions: &[Literal],
    ) -> Result<Option<Vec<bool>>, AllocError>
        ensures model { IfOk result (λ found. IfSome found (λ m. IsModelUnder self.now assumptions.now m.items)) }
        ensures none { IfOk result (λ found. IfNone found (¬ (IsSatisfiableUnder self.now assumptions.now))) }
    {
        find_model(alloc, &self.clauses, assumptions)
    }
}

// The negations of a clause's literals.
fn negations(alloc: Global, clause: &[Literal]) -> Result<Vec<Literal>, AllocError>
    ensures { IfOk result (λ negations. negations.items ≡ map negated clause.now) }
{
    let mut negations = Vec::new(alloc);
    for l in clause {
        negations.push(l.negated())?;
    }
    Ok(negations)
}

impl ClauseSink for Kernel {
    ghost formula = { λ k. k };

    fn add_clause(&mut self, clause: &[Literal]) -> Result<(), AllocError> {
        Kernel::add_clause(self, clause)?;
        Ok(())
    }
}
