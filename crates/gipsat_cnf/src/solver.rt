//! What solves formulas: a search, an enumeration, or a program behind them. So who asks a solver is written once for
//! all of them.
ghost use Rattle.std.specs.Prelude.{◌≡◌, [], ⊤, IfNone, IfOk, IfSome, OnOk, OnErr};
ghost use Rattle.gipsat_cnf.specs.Answers.{IsRightGuessOr, IsRightOr};
ghost use Rattle.gipsat_cnf.specs.Formulas.{IsSatisfiable};
ghost use Rattle.gipsat_cnf.specs.Models.{IsModel};
ghost use Rattle.gipsat_cnf.specs.Simplifying.{SaysSame};

use crate::answers::{AnswerUnder, Budget, Effort, Guess};
use crate::literal::Literal;
use crate::sink::ClauseSink;
use std::alloc::{AllocError, Global};

/// An incremental solver: clauses may be added between two questions, and what was learned is kept.
pub trait SatSolver: ClauseSink {
    /// A solver for the formula of no clause.
    fn new(alloc: Global) -> Self
        ensures { Self.formula result ≡ [] };

    /// Finds out whether anything satisfies the formula and makes each assumption true, and gives up once its budget is
    /// spent. The assumptions hold for this call alone. They may repeat or contradict each other.
    ///
    /// # Errors
    /// `AllocError` where memory is refused. The formula stays as it was.
    fn solve_limited(
        &mut self,
        assumptions: &[Literal],
        budget: Budget,
    ) -> Result<AnswerUnder, AllocError>
        ensures right { IfOk result (IsRightOr (Self.formula self.old) assumptions.now ⊤) }
        ensures formula { Self.formula self.new ≡ Self.formula self.old };

    /// Looks for a contradiction between the assumptions and the formula, and decides only the variables of a domain,
    /// apart from those of the assumptions. It gives up once it has learned `limit` clauses. Of `Sat` nothing is proved.
    ///
    /// # Errors
    /// `AllocError` where memory is refused. The formula stays as it was.
    fn guess_within(
        &mut self,
        domain: &[u32],
        assumptions: &[Literal],
        limit: usize,
    ) -> Result<Guess, AllocError>
        ensures right { IfOk result (IsRightGuessOr (Self.formula self.old) assumptions.now ⊤) }
        ensures formula { Self.formula self.new ≡ Self.formula self.old };

    /// The value of a variable where the last search ended; None where it has none. Nothing is proved of it.
    fn value(&self, variable: u32) -> Option<bool>;

    /// Finds values that satisfy the formula, a variable past the end being false, or that there are none. It has no
    /// limit.
    ///
    /// # Errors
    /// `AllocError` where memory is refused. The formula stays as it was.
    fn find_model(&mut self) -> Result<Option<Vec<bool>>, AllocError>
        ensures model { IfOk result (λ found. IfSome found (λ model. IsModel (Self.formula self.old) model.items)) }
        ensures none { IfOk result (λ found. IfNone found (¬ (IsSatisfiable (Self.formula self.old)))) }
        ensures formula { Self.formula self.new ≡ Self.formula self.old };

    /// Drops clauses that follow from others, and frees their memory. The same assignments satisfy the formula as
    /// before.
    ///
    /// # Errors
    /// `AllocError` where memory is refused. The formula stays as it was.
    fn simplify(&mut self) -> Result<(), AllocError>
        ensures same { OnOk result (SaysSame (Self.formula self.old) (Self.formula self.new)) }
        ensures refused { OnErr result (Self.formula self.new ≡ Self.formula self.old) };

    /// Eliminates variables for the search, but for the frozen ones, in about so many steps.
    ///
    /// # Errors
    /// `AllocError` where memory is refused. The formula stays as it was.
    fn eliminate(&mut self, frozen: &[u32], steps: u64) -> Result<(), AllocError>
        ensures { Self.formula self.new ≡ Self.formula self.old };

    /// Shortens learned clauses, until it has propagated about so many literals.
    ///
    /// # Errors
    /// `AllocError` where memory is refused. The formula stays as it was.
    fn vivify(&mut self, propagations: u64) -> Result<(), AllocError>
        ensures { Self.formula self.new ≡ Self.formula self.old };

    /// What it holds and has done.
    fn effort(&self) -> Effort;
}
