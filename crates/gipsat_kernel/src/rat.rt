//! A formula that changes by steps each of which keeps satisfiability, as those of a proof do.
ghost use Rattle.std.specs.Prelude.{◌≡◌, ◌++◌, ◌∷◌, [], length, IfOk, OnOk, OnErr};
ghost use Rattle.std.specs.Bool.{OnFalse, OnTrue};
ghost use Rattle.gipsat_cnf.specs.Prelude.{Has, IsSatisfiable, negated};
ghost use Rattle.gipsat_kernel.specs.Kernel.{original_among};
ghost use Rattle.gipsat_kernel.specs.Occurrences.{Covers};
ghost use Rattle.gipsat_kernel.specs.Rat.{AreResolved, HasResolvent, IsOfResolvent, KeepsSatisfiable};

use crate::flags::{all_set, flag_at};
use crate::marks::Marks;
use crate::occurrences::{Ids, NotedIds};
use gipsat_cnf::{ClauseSink, Cnf, Literal, Span};
use std::alloc::{AllocError, Global};
use std::marker::Model;

/// A formula that changes by steps, each of which keeps satisfiability: where something satisfies the formula before
/// it, something satisfies the one behind it. Contracts see the formula as it is now.
///
/// A clause is added if it was derived, by [`RatKernel::begin`], [`RatKernel::resolve`] and [`RatKernel::conclude`], or
/// if it is RAT; and any clause may be deleted. So where the empty clause is one of the formula, nothing satisfies the
/// formula of any earlier time. A clause is named by its place, its id.
pub struct RatKernel {
    clauses: Cnf,
    // Whether the clause at a place is one of the formula, as it is until it is deleted.
    held: Vec<bool>,
    // Which ids the clauses with a literal are among, also those that were deleted.
    noted: NotedIds,
    // The literals of the clause that is being derived.
    marks: Marks,
    // Whether a clause is being derived.
    is_open: bool,
}

// One call in its owners' proofs, in place of one for each field.
impl Drop for RatKernel {
    fn drop(self) {
        let RatKernel {
            clauses,
            held,
            noted,
            marks,
            is_open: _,
        } = self;
    }
}

impl Model for RatKernel {
    ghost use Rattle.gipsat_cnf.specs.Formulas.{Formula};
    ghost use Rattle.gipsat_kernel.specs.Kernel.{original_among};
    ghost use Rattle.gipsat_kernel.specs.Rat.{IsRatKernel};

    ghost Value = { Formula };

    ghost view = { λ k. original_among k.held.items k.clauses };

    ghost invariant = { λ k. IsRatKernel k.held.items k.clauses k.noted k.marks k.is_open };
}

impl RatKernel {
    /// The formula without clauses. It takes no memory.
    pub fn new(alloc: Global) -> Self
        ensures { result ≡ [] }
    {
        RatKernel {
            clauses: Cnf::new(alloc),
            held: Vec::new(alloc),
            noted: NotedIds::new(alloc),
            marks: Marks::new(alloc),
            is_open: false,
        }
    }

    /// A formula that is taken over without a copy, with its clauses at their places.
    ///
    /// # Errors
    /// `AllocError` where memory is refused. The formula is lost then.
    pub fn over(alloc: Global, formula: Cnf) -> Result<Self, AllocError>
        ensures { IfOk result (λ k. k ≡ formula) }
    {
        let held = all_set(alloc, formula.len())?;
        let noted = NotedIds::of(alloc, &formula)?;
        let mut marks = Marks::new(alloc);
        marks.cover_variables(formula.variables())?;
        Ok(RatKernel {
            clauses: formula,
            held,
            noted,
            marks,
            is_open: false,
        })
    }

    /// Adds a clause to the formula without a look at whether it follows: its id. A derivation that was begun is
    /// dropped.
    ///
    /// # Errors
    /// `AllocError` where memory is refused, or where there would be 2^32 literals. The formula stays as it is.
    pub fn add_clause(&mut self, clause: &[Literal]) -> Result<usize, AllocError>
        ensures added { OnOk result (self.new ≡ self.old ++ clause.now ∷ []) }
        ensures refused { OnErr result (self.new ≡ self.old) }
    {
        self.is_open = false;
        self.held.reserve(1)?;
        let id = self.clauses.len();
        self.noted.note(id, clause)?;
        self.clauses.push(clause)?;
        self.held.push_reserved(true);
        Ok(id)
    }

    /// How many clauses there are, with those that were deleted since the last collection. Each id is below.
    #[inline]
    pub fn len(&self) -> usize {
        self.clauses.len()
    }

    /// Whether there is no clause, nor one that was deleted since the last collection.
    #[inline]
    pub fn is_empty(&self) -> bool {
        self.clauses.is_empty()
    }

    /// A number, at most 2^31, that the variables of all clauses are below.
    #[inline]
    pub fn variables(&self) -> usize {
        self.clauses.variables()
    }

    /// A clause of the formula. None if there is none with this id, or if it was deleted.
    #[inline]
    pub fn clause(&self, id: usize) -> Option<&[Literal]> {
        if id >= self.clauses.len() || !flag_at(&self.held, id, false) {
            return None;
        }
        Some(self.clauses.clause(id))
    }

    /// The literals of all clauses, one clause behind another, with those that were deleted.
    #[inline]
    pub fn literals(&self) -> &[Literal] {
        self.clauses.literals()
    }

    /// Where a clause lies among the literals, also if it was deleted. None if there is none with this id.
    #[inline]
    pub fn span(&self, id: usize) -> Option<Span> {
        self.clauses.span(id)
    }

    /// Ids that those of the clauses with a literal are among. There may be others between them.
    #[inline]
    pub fn ids_with(&self, l: Literal) -> Ids {
        self.noted.ids_with(l)
    }

    /// Swaps two literals of a clause, by their places in it. Nothing changes where there is no such clause or literal.
    #[inline]
    pub fn swap(&mut self, id: usize, i: usize, j: usize)
        ensures { KeepsSatisfiable self.old self.new }
    {
        self.clauses.swap(id, i, j);
    }

    /// Begins to derive a clause from one of the formula. False, and no clause is being derived, if there is none with
    /// this id.
    ///
    /// # Errors
    /// `AllocError` where memory is refused. No clause is being derived then.
    pub fn begin(&mut self, id: usize) -> Result<bool, AllocError>
        ensures { self.new ≡ self.old }
    {
        self.is_open = false;
        self.marks.clear();
        if id >= self.clauses.len() || !flag_at(&self.held, id, false) {
            return Ok(false);
        }
        self.marks.add_all(self.clauses.clause(id))?;
        self.is_open = true;
        Ok(true)
    }

    /// Begins to derive a clause from the one that a literal is true or false.
    ///
    /// # Errors
    /// `AllocError` where memory is refused. No clause is being derived then.
    pub fn begin_tautology(&mut self, l: Literal) -> Result<(), AllocError>
        ensures { self.new ≡ self.old }
    {
        self.is_open = false;
        self.marks.clear();
        self.marks.add(l)?;
        self.marks.add(l.negated())?;
        self.is_open = true;
        Ok(())
    }

    /// Resolves the clause that is being derived with one of the formula: the other literals of the latter take the
    /// place of the pivot's negation. It should have the pivot. False, and nothing changes, if no clause is being
    /// derived, if that has not the pivot's negation, or if there is no clause with this id.
    ///
    /// # Errors
    /// `AllocError` where memory is refused. No clause is being derived then.
    pub fn resolve(&mut self, pivot: Literal, id: usize) -> Result<bool, AllocError>
        ensures { self.new ≡ self.old }
    {
        let opposite = pivot.negated();
        if !self.is_open || id >= self.clauses.len() || !flag_at(&self.held, id, false) {
            return Ok(false);
        }
        if !self.marks.has(opposite) {
            return Ok(false);
        }
        self.is_open = false;
        self.marks.remove(opposite);
        self.marks.add_but(pivot, self.clauses.clause(id))?;
        self.is_open = true;
        Ok(true)
    }

    /// Whether the clause that is being derived has a literal.
    #[inline]
    pub fn is_marked(&self, l: Literal) -> bool {
        self.marks.has(l)
    }

    /// The literals that the clause that is being derived had at any time. Those that came last stand last.
    #[inline]
    pub fn marked(&self) -> &[Literal] {
        self.marks.listed()
    }

    /// Adds a clause to the formula if the one that was derived has only literals of it: its id. No clause is being
    /// derived any more. None, and the formula stays, if the derived clause has another literal, or if none was being
    /// derived.
    ///
    /// # Errors
    /// `AllocError` where memory is refused, or where there would be 2^32 literals. The formula stays as it is.
    pub fn conclude(&mut self, clause: &[Literal]) -> Result<Option<usize>, AllocError>
        ensures { KeepsSatisfiable self.old self.new }
    {
        if !self.is_open {
            return Ok(None);
        }
        self.is_open = false;
        let len = self.clauses.len();
        self.marks.take_into(&mut self.clauses)?;
        let follows = self.marks.is_part(self.clauses.clause(len), clause);
        self.clauses.truncate(len);
        if !follows {
            return Ok(None);
        }
        Ok(Some(self.add_clause(clause)?))
    }

    /// Adds a clause to the formula if it is RAT on its first literal, the pivot: its id. Each clause with the pivot's
    /// negation has to have a resolvent in the formula: a clause that has only literals of the added one, and of that
    /// clause but the pivot's negation. The ids of these resolvents are given, in the order of the clauses with the
    /// pivot's negation. None, and the formula stays, if one is not such. A derivation that was begun is dropped.
    ///
    /// It takes the time of the clauses among [`RatKernel::ids_with`] the pivot's negation.
    ///
    /// # Errors
    /// `AllocError` where memory is refused, or where there would be 2^32 literals. The formula stays as it is.
    pub fn add_rat(
        &mut self,
        clause: &[Literal],
        resolvents: &[usize],
    ) -> Result<Option<usize>, AllocError>
        ensures { KeepsSatisfiable self.old self.new }
    {
        self.is_open = false;
        let Some(pivot) = clause.first() else {
            return Ok(None);
        };
        if !are_resolved(
            &self.clauses,
            &self.held,
            &self.noted,
            pivot.negated(),
            clause,
            resolvents,
        ) {
            return Ok(None);
        }
        Ok(Some(self.add_clause(clause)?))
    }

    /// Deletes a clause of the formula. False, and nothing changes, if there is none with this id. A derivation that
    /// was begun is dropped.
    pub fn delete(&mut self, id: usize) -> bool
        ensures { KeepsSatisfiable self.old self.new }
    {
        self.is_open = false;
        if id >= self.held.len() || !self.held[id] {
            return false;
        }
        self.held[id] = false;
        true
    }

    /// Gives the memory of deleted clauses back, and moves the others up: the new id of a clause is the number of
    /// clauses of the formula before it. It takes the memory of what stays, and then frees what was held before. A
    /// derivation that was begun is dropped.
    ///
    /// # Errors
    /// `AllocError` where memory is refused. The clauses keep their ids then.
    pub fn collect(&mut self, alloc: Global) -> Result<(), AllocError>
        ensures { self.new ≡ self.old }
    {
        self.is_open = false;
        let clauses = self.clauses.kept(alloc, &self.held)?;
        let held = all_set(alloc, clauses.len())?;
        let noted = NotedIds::of(alloc, &clauses)?;
        self.clauses = clauses;
        self.held = held;
        self.noted = noted;
        Ok(())
    }

    /// Whether the clause with this id is one of the formula, and empty. If so, nothing satisfies the formula.
    pub fn is_refuted(&self, id: usize) -> bool
        ensures { OnTrue result (¬ (IsSatisfiable self.now)) }
    {
        id < self.clauses.len()
            && flag_at(&self.held, id, false)
            && self.clauses.clause(id).is_empty()
    }
}

// Whether a literal is one of the clause's.
fn has(clause: &[Literal], l: Literal) -> bool
    ensures yes { OnTrue result (Has clause.now l) }
    ensures no { OnFalse result (¬ (Has clause.now l)) }
{
    for m in clause {
        if m.code() == l.code() {
            return true;
        }
    }
    false
}

// Whether each literal of a part is one of the clause's, or of another one's but one.
fn is_of_resolvent(part: &[Literal], clause: &[Literal], other: &[Literal], but: Literal) -> bool
    ensures { OnTrue result (IsOfResolvent but clause.now other.now part.now) }
{
    for l in part {
        if !has(clause, *l) && (l.code() == but.code() || !has(other, *l)) {
            return false;
        }
    }
    true
}

// Whether the clause with this id is one of the formula, and has only literals of the clause, or of another one's but
// one.
fn is_resolvent(
    clauses: &Cnf,
    held: &[bool],
    id: usize,
    clause: &[Literal],
    other: &[Literal],
    but: Literal,
) -> bool
    ensures { OnTrue result
        (HasResolvent (original_among held.now clauses.now) but clause.now other.now) }
{
    if id >= clauses.len() || !flag_at(held, id, false) {
        return false;
    }
    is_of_resolvent(clauses.clause(id), clause, other, but)
}

// Whether each clause of the formula with the pivot's negation has a resolvent with the clause in the formula.
fn are_resolved(
    clauses: &Cnf,
    held: &[bool],
    noted: &NotedIds,
    opposite: Literal,
    clause: &[Literal],
    resolvents: &[usize],
) -> bool
    requires { Covers noted.now clauses.now }
    ensures { OnTrue result
        (AreResolved held.now clauses.now opposite clause.now (length clauses.now)) }
{
    let mut found: usize = 0;
    let ids = noted.ids_with(opposite);
    for place in ids.start..ids.end.min(clauses.len()) {
        let other = clauses.clause(place);
        if !flag_at(held, place, false) || !has(other, opposite) {
            continue;
        }
        let Some(id) = resolvents.get(found) else {
            return false;
        };
        if !is_resolvent(clauses, held, *id, clause, other, opposite) {
            return false;
        }
        found = found.saturating_add(1);
    }
    true
}

impl ClauseSink for RatKernel {
    ghost formula = { λ k. k };

    fn add_clause(&mut self, clause: &[Literal]) -> Result<(), AllocError> {
        RatKernel::add_clause(self, clause)?;
        Ok(())
    }
}
