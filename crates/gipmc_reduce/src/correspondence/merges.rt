//! Which variables are merged, and the clauses that say so.
ghost use Rattle.std.specs.Prelude.{◌≡◌, map, IfOk};
ghost use Rattle.gipmc_reduce.specs.Correspondence.{ImpliesMerges, gate_merged, latch_merged, merged, representative};

use crate::correspondence::clauses::add_equal;
use gipmc_circuits::{And, Latch};
use gipsat_cnf::Literal;
use std::alloc::{AllocError, Global};

/// The literals that stand for variables.
#[derive(Drop)]
pub struct Merges {
    /// For each variable, the literal that stands for it. Past the end each variable stands for itself.
    pub literals: Vec<Literal>,
}

impl Merges {
    /// The literal that stands for a literal.
    pub fn literal(&self, l: Literal) -> Literal
        ensures { result ≡ merged self.now.literals.items l }
    {
        let variable = l.variable();
        let own = Literal::new(variable, true);
        let found = self.literals.get(variable as usize).copied().unwrap_or(own);
        if l.is_positive() {
            found
        } else {
            found.negated()
        }
    }

    // The literal that stands for the variable at a place of the table.
    fn at(&self, place: usize) -> Result<Literal, AllocError>
        ensures { IfOk result (λ l. l ≡ representative self.now.literals.items place) }
    {
        match self.literals.get(place) {
            Some(found) => Ok(*found),
            None => Err(AllocError),
        }
    }

    // The gate, with what stands for its operands.
    pub(crate) fn gate(&self, gate: And) -> And
        ensures { result ≡ gate_merged self.now.literals.items gate }
    {
        And {
            output: gate.output,
            left: self.literal(gate.left),
            right: self.literal(gate.right),
        }
    }

    // The latch, with what stands for its next literal.
    pub(crate) fn latch(&self, latch: Latch) -> Latch
        ensures { result ≡ latch_merged self.now.literals.items latch }
    {
        Latch {
            variable: latch.variable,
            next: self.literal(latch.next),
            reset: latch.reset,
        }
    }

    // The literals that stand for these.
    pub(crate) fn literals(
        &self,
        alloc: Global,
        literals: &[Literal],
    ) -> Result<Vec<Literal>, AllocError>
        ensures { IfOk result (λ made. made.items ≡ map (merged self.now.literals.items) literals.now) }
    {
        let mut all = Vec::with_capacity(alloc, literals.len())?;
        for l in literals {
            all.push(self.literal(*l))?;
        }
        Ok(all)
    }

    // Whether another variable stands for this one.
    pub(crate) fn is_merged(&self, variable: u32) -> bool {
        match self.literals.get(variable as usize) {
            Some(l) => l.variable() != variable,
            None => false,
        }
    }

    /// The clauses by which each variable has the value of the literal that stands for it: one for a constant, and two
    /// for another literal.
    ///
    /// # Errors
    /// `AllocError` where memory is refused, or where the table has more than 2^31 variables.
    pub fn clauses(&self, alloc: Global) -> Result<Vec<Vec<Literal>>, AllocError>
        ensures { IfOk result (λ clauses. ImpliesMerges clauses.items self.now.literals.items) }
    {
        let mut all = Vec::new(alloc);
        for place in 0..self.literals.len() {
            let l = self.at(place)?;
            add_equal(alloc, &mut all, place, l)?;
        }
        Ok(all)
    }
}
