//! A first question to the solver.
ghost use Rattle.std.specs.Prelude.{◌≡◌, [], IfOk, IfSome, IsTrue};
ghost use Rattle.gipsat_cnf.specs.Models.{assignment_in};

use gipsat_solver::{AnswerUnder, Literal, Solver};
use std::alloc::{AllocError, Global};

/// Values of a, b and c with `a or b`, `not a or not c`, and c. None where there are none, or the limit was met.
pub fn values_with_c(alloc: Global) -> Result<Option<Vec<bool>>, AllocError>
    ensures b_is_true { IfOk result (λ values. IfSome values (λ model. IsTrue (assignment_in model.items 1))) }
{
    ask(&mut Solver::new(alloc))
}

// The same, by a solver without clauses. A function that owns a solver and can end early takes minutes to prove.
fn ask(solver: &mut Solver) -> Result<Option<Vec<bool>>, AllocError>
    requires empty { solver.old.formula ≡ [] }
    ensures b_is_true { IfOk result (λ values. IfSome values (λ model. IsTrue (assignment_in model.items 1))) }
{
    let (a, b) = (Literal::new(0, true), Literal::new(1, true));
    let c = Literal::new(2, true);
    solver.add_clause(&[a, b])?;
    solver.add_clause(&[a.negated(), c.negated()])?;
    match solver.solve_under(&[c], 1000)? {
        // The value of each variable, by its number.
        AnswerUnder::Sat(model) => Ok(Some(model)),
        // Some of the assumptions, which can't all be true: here it would be c.
        AnswerUnder::Unsat(_core) => Ok(None),
        // Left open after 1000 learned clauses.
        AnswerUnder::Unknown => Ok(None),
    }
}
