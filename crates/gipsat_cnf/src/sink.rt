//! What takes clauses, as a list of clauses or a solver does. So a reader or an encoding is written once for all of
//! them.
ghost use Rattle.std.specs.Prelude.{◌≡◌, ◌++◌, ◌∷◌, [], OnOk, OnErr};
ghost use Rattle.gipsat_cnf.specs.Formulas.{Formula};

use crate::cnf::Cnf;
use crate::literal::Literal;
use std::alloc::AllocError;

/// What takes clauses, one after another, and holds the formula of all of them.
pub trait ClauseSink {
    /// The clauses that it took, in order.
    ghost formula: { Self → Formula };

    /// Takes a clause.
    ///
    /// # Errors
    /// `AllocError` where memory is refused, or where it has no room for so many literals. It keeps the formula.
    fn add_clause(&mut self, clause: &[Literal]) -> Result<(), AllocError>
        ensures added { OnOk result (formula self.new ≡ formula self.old ++ clause.now ∷ []) }
        ensures refused { OnErr result (formula self.new ≡ formula self.old) };
}

impl ClauseSink for Cnf {
    ghost formula = { λ cnf. cnf };

    fn add_clause(&mut self, clause: &[Literal]) -> Result<(), AllocError> {
        self.push(clause)
    }
}
