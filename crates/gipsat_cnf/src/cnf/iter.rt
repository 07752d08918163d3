//! The clauses of a formula, one after another.
ghost use Rattle.std.specs.Prelude.{◌≡◌, ◌≤◌, ⊤, IfSome, Some, length, slice_range};
ghost use Rattle.std.specs.Iterator.{YieldsFirstBy, UpTo, at_most, item_count};
ghost use Rattle.std.specs.Iterator.SizeHint.{IsWithinCount};

use super::{Cnf, Span};
use crate::literal::Literal;
use std::alloc::AllocError;
use std::iter::FusedIterator;
use std::marker::Model;

// The literals of a span.
#[inline]
fn clause_at(literals: &[Literal], span: Span) -> &[Literal]
    requires start { span.start ≤ span.end }
    requires end { span.end ≤ length literals.now }
    ensures { result.now ≡ slice_range literals.now span.start span.end }
{
    &literals[span.start as usize..span.end as usize]
}

/// An iterator over the clauses of a formula, in order. It is seen as the list of those that it has left.
#[derive(Drop)]
pub struct ClauseIter<'a> {
    literals: &'a [Literal],
    // Those of the clauses that are left.
    spans: &'a [Span],
}

impl<'a> Model for ClauseIter<'a> {
    ghost use Rattle.std.specs.Prelude.{length};
    ghost use Rattle.gipsat_cnf.specs.Formulas.{Formula};
    ghost use Rattle.gipsat_cnf.specs.Layout.{AreSpans, clauses_of};

    ghost Value = { Formula };

    ghost view = { λ c. clauses_of c.literals.now c.spans.now };

    ghost invariant = { λ c. AreSpans (length c.literals.now) c.spans.now };
}

impl Cnf {
    /// An iterator over the clauses, in order.
    #[inline]
    pub fn iter(&self) -> ClauseIter<'_>
        ensures { result ≡ self.now }
    {
        ClauseIter {
            literals: &self.literals,
            spans: &self.spans,
        }
    }
}

impl<'a> Iterator for ClauseIter<'a> {
    type Item = &'a [Literal];

    ghost next_gives = { YieldsFirstBy (λ clause. clause.now) (λ rest. rest) };

    ghost remaining = { item_count (λ rest. rest) };

    #[inline]
    fn next(&mut self) -> Option<&'a [Literal]> {
        let (span, rest) = self.spans.split_first()?;
        self.spans = rest;
        Some(clause_at(self.literals, *span))
    }

    #[inline]
    fn size_hint(&self) -> (usize, Option<usize>)
        ensures lower { IsWithinCount result.0 (at_most (length self.now)) }
        ensures upper { IfSome result.1 (UpTo (at_most (length self.now))) }
        ensures exact { (result.0 ≡ length self.now) × (result.1 ≡ Some (length self.now)) }
    {
        let len = self.spans.len();
        (len, Some(len))
    }
}

impl<'a> ExactSizeIterator for ClauseIter<'a> {
    #[inline]
    fn len(&self) -> usize {
        self.spans.len()
    }
}

impl<'a> FusedIterator for ClauseIter<'a> {}

impl<'a> Clone for ClauseIter<'a> {
    ghost is_clone = { λ clauses copy. copy ≡ clauses };

    ghost is_infallible = { λ _. ⊤ };

    fn clone(&self) -> Result<Self, AllocError> {
        Ok(ClauseIter {
            literals: self.literals,
            spans: self.spans,
        })
    }
}

impl<'a> IntoIterator for &'a Cnf {
    type Item = &'a [Literal];

    type IntoIter = ClauseIter<'a>;

    ghost into_iter_gives = { λ formula it. it ≡ formula.now };

    #[inline]
    fn into_iter(self) -> ClauseIter<'a> {
        self.iter()
    }
}
