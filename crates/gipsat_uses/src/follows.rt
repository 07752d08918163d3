//! Whether a clause follows from a formula.
ghost use Rattle.std.specs.Prelude.{◌≡◌, ◌↔◌, map, IfOk, IfSome, IsTrue};
ghost use Rattle.gipsat_cnf.specs.Prelude.{Implies, negated};

use gipsat_cnf::{AnswerUnder, Budget, Literal, SatSolver};
use std::alloc::{AllocError, Global};

/// Whether the clause follows from the formula, so that each model satisfies it. None where the budget was spent before
/// that was found out.
///
/// Shows lemmas on clauses that follow: one does exactly if no model makes all of its literals false.
///
/// # Errors
/// `AllocError` where memory is refused.
pub fn follows<S: SatSolver>(
    alloc: Global,
    solver: &mut S,
    clause: &[Literal],
    budget: Budget,
) -> Result<Option<bool>, AllocError>
    ensures formula { S.formula solver.new ≡ S.formula solver.old }
    ensures follows { IfOk result (λ found. IfSome found (λ follows.
        IsTrue follows ↔ Implies (S.formula solver.old) clause.now)) }
{
    let literals = negations(alloc, clause)?;
    match solver.solve_limited(&literals, budget)? {
        AnswerUnder::Sat(_) => Ok(Some(false)),
        AnswerUnder::Unsat(_) => Ok(Some(true)),
        AnswerUnder::Unknown => Ok(None),
    }
}

// The negations of the clause's literals.
fn negations(alloc: Global, clause: &[Literal]) -> Result<Vec<Literal>, AllocError>
    ensures { IfOk result (λ literals. literals.items ≡ map negated clause.now) }
{
    clause.iter().map(|l| l.negated()).collect(alloc)
}
