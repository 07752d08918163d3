//! Formulas in conjunctive form: clauses, one behind another in one vector of literals.
ghost use Rattle.std.specs.Prelude.{◌≡◌, ◌==◌, ◌++◌, ◌∷◌, ◌+◌, ◌<◌, ◌≤◌, ◌^◌, [], Some, true, length, take, slice_get, slice_index_or, IfSome, IfOk, OnOk, OnErr};
ghost use Rattle.std.specs.Option.{option_map};
ghost use Rattle.gipsat_cnf.specs.Formulas.{AreBelow, satisfies};
ghost use Rattle.gipsat_cnf.specs.Lists.{AreAllBelow, KeepsBut, Reorders, retained};
ghost use Rattle.gipsat_cnf.specs.Models.{assignment_in};

mod iter;

use crate::literal::Literal;
use crate::values::satisfies_clause;
pub use iter::ClauseIter;
use std::alloc::{AllocError, Global};
use std::marker::Model;

/// Where a clause lies among the literals of its formula: from `start` on, before `end`.
///
/// It is half the size of two `usize`, since a search waits for memory.
#[derive(Clone, Copy)]
pub struct Span {
    pub start: u32,
    pub end: u32,
}

// The span of `len` literals behind `others`. None where it would end at 2^32 or later.
fn span_behind(others: usize, len: usize) -> Option<Span>
    ensures start { IfSome result (λ s. s.start ≡ others) }
    ensures end { IfSome result (λ s. s.end ≡ others + len) }
{
    let end = others.checked_add(len)?;
    let start = u32::try_from(others).ok()?;
    let end = u32::try_from(end).ok()?;
    Some(Span { start, end })
}

// The least number that is at least `least` and above the clause's variables.
pub(crate) fn variables_with(clause: &[Literal], least: usize) -> usize
    ensures least { least ≤ result }
    ensures below { AreBelow result clause.now }
    ensures small { least ≤ 2 ^ 31 → result ≤ 2 ^ 31 }
{
    let mut variables = least;
    for l in clause {
        variables = variables.max(l.variable() as usize + 1);
    }
    variables
}

// Whether the flag at a place is set. It is past the flags.
fn stays_at(stays: &[bool], place: usize) -> bool
    ensures { result ≡ slice_index_or stays.now place true }
{
    match stays.get(place) {
        Some(stays) => *stays,
        None => true,
    }
}

/// A formula: a list of clauses, each of which has to be satisfied. Contracts see the list.
pub struct Cnf {
    literals: Vec<Literal>,
    spans: Vec<Span>,
    // Each variable is below.
    variables: usize,
}

// One call in its owners' proofs, in place of one for each field.
impl Drop for Cnf {
    fn drop(self) {
        let Cnf {
            literals,
            spans,
            variables: _,
        } = self;
    }
}

impl Model for Cnf {
    ghost use Rattle.gipsat_cnf.specs.Formulas.{Formula};
    ghost use Rattle.gipsat_cnf.specs.Layout.{clauses_of, IsLaidOut};

    ghost Value = { Formula };

    ghost view = { λ cnf. clauses_of cnf.literals.items cnf.spans.items };

    ghost invariant = { λ cnf. IsLaidOut cnf.variables cnf.literals.items cnf.spans.items };
}

/// A copy holds the same clauses.
impl Clone for Cnf {
    ghost use Rattle.std.specs.Prelude.{◌≡◌};

    ghost is_clone = { λ formula copy. copy ≡ formula };

    fn clone(&self) -> Result<Self, AllocError> {
        let alloc = *self.literals.allocator();
        let mut literals = Vec::new(alloc);
        literals.extend_from_slice(&self.literals)?;
        let mut spans = Vec::new(alloc);
        spans.extend_from_slice(&self.spans)?;
        Ok(Cnf {
            literals,
            spans,
            variables: self.variables,
        })
    }
}

impl Cnf {
    /// The formula without clauses. It takes no memory.
    pub fn new(alloc: Global) -> Self
        ensures { result ≡ [] }
    {
        Cnf {
            literals: Vec::new(alloc),
            spans: Vec::new(alloc),
            variables: 0,
        }
    }

    /// How many clauses there are.
    #[inline]
    pub fn len(&self) -> usize
        ensures { result ≡ length self.now }
    {
        self.spans.len()
    }

    /// Whether there is no clause.
    #[inline]
    pub fn is_empty(&self) -> bool
        ensures { result ≡ (length self.now == 0) }
    {
        self.spans.is_empty()
    }

    /// A number, at most 2^31, that all variables are below: one more than the greatest that was ever pushed.
    #[inline]
    pub fn variables(&self) -> usize
        ensures below { AreAllBelow result self.now }
        ensures small { result ≤ 2 ^ 31 }
    {
        self.variables
    }

    /// Adds a clause behind the others. It may be empty, and may hold a literal twice or with its negation.
    ///
    /// # Errors
    /// `AllocError` where memory is refused, or where there would be 2^32 literals. The formula stays as it is.
    pub fn push(&mut self, clause: &[Literal]) -> Result<(), AllocError>
        ensures added { OnOk result (self.new ≡ self.old ++ clause.now ∷ []) }
        ensures refused { OnErr result (self.new ≡ self.old) }
    {
        let Some(span) = span_behind(self.literals.len(), clause.len()) else {
            return Err(AllocError);
        };
        self.spans.reserve(1)?;
        self.literals.extend_from_slice(clause)?;
        self.spans.push_reserved(span);
        self.variables = variables_with(clause, self.variables);
        Ok(())
    }

    /// Drops the clauses behind the first `len`. They keep their memory.
    pub fn truncate(&mut self, len: usize)
        ensures { self.new ≡ take len self.old }
    {
        self.spans.truncate(len);
    }

    /// The clause at a place, which is below [`Cnf::len`].
    #[inline]
    pub fn clause(&self, place: usize) -> &[Literal]
        requires { place < length self.now }
        ensures { slice_get self.now place ≡ Some result.now }
    {
        let span = self.spans[place];
        &self.literals[span.start as usize..span.end as usize]
    }

    /// The clause at a place. None where there is no clause.
    #[inline]
    pub fn get(&self, place: usize) -> Option<&[Literal]>
        ensures { option_map (λ clause. clause.now) result ≡ slice_get self.now place }
    {
        if place >= self.len() {
            return None;
        }
        Some(self.clause(place))
    }

    /// The literals of all clauses, one clause behind another. The clause with the span `s` is
    /// `literals()[s.start..s.end]`.
    #[inline]
    pub fn literals(&self) -> &[Literal] {
        &self.literals
    }

    /// Where the clause at a place lies among the literals. None where there is no clause.
    #[inline]
    pub fn span(&self, place: usize) -> Option<Span> {
        self.spans.get(place).copied()
    }

    /// Swaps two literals of a clause, by their places in it. Nothing changes where the clause or one of them is not
    /// there.
    #[inline]
    pub fn swap(&mut self, place: usize, i: usize, j: usize)
        ensures len { length self.new ≡ length self.old }
        ensures literals { Reorders self.old self.new }
        ensures others { KeepsBut place self.old self.new }
    {
        if place >= self.spans.len() {
            return;
        }
        let span = self.spans[place];
        let start = span.start as usize;
        let len = span.end as usize - start;
        if i >= len || j >= len {
            return;
        }
        self.literals.swap(start + i, start + j);
    }

    // The formula without clauses, with memory for the clauses of this one that stay.
    fn with_room_for(&self, alloc: Global, stays: &[bool]) -> Result<Self, AllocError>
        ensures { IfOk result (λ cnf. cnf ≡ []) }
    {
        let mut clauses: usize = 0;
        let mut literals: usize = 0;
        for place in 0..self.spans.len() {
            if stays_at(stays, place) {
                let span = self.spans[place];
                clauses = clauses.saturating_add(1);
                literals = literals.saturating_add(
                    (span.end as usize).saturating_sub(span.start as usize),
                );
            }
        }
        Ok(Cnf {
            literals: Vec::with_capacity(alloc, literals)?,
            spans: Vec::with_capacity(alloc, clauses)?,
            variables: 0,
        })
    }

    /// A copy of the clauses that stay, by a flag for each place; those past the flags stay. It takes no more memory
    /// than they need.
    ///
    /// # Errors
    /// `AllocError` where memory is refused.
    pub fn kept(&self, alloc: Global, stays: &[bool]) -> Result<Self, AllocError>
        ensures { IfOk result (λ kept. kept ≡ retained stays.now self.now) }
    {
        let mut kept = self.with_room_for(alloc, stays)?;
        for place in 0..self.len() {
            if !stays_at(stays, place) {
                continue;
            }
            kept.push(self.clause(place))?;
        }
        Ok(kept)
    }

    /// Whether truth values satisfy each clause. They are by variable, and a variable past their end is false.
    pub fn satisfied_by(&self, values: &[bool]) -> bool
        ensures { result ≡ satisfies (assignment_in values.now) self.now }
    {
        for place in 0..self.len() {
            if !satisfies_clause(values, self.clause(place)) {
                return false;
            }
        }
        true
    }
}
