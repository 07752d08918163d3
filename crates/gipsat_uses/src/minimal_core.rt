//! A core none of whose literals can be left out.
ghost use Rattle.std.specs.Prelude.{◌≡◌, ◌+◌, ◌<◌, vec_len, IfOk, IfSome};
ghost use Rattle.gipsat_uses.specs.MinimalCore.{IsMinimalCore, IsNextCore};

use gipsat_cnf::{AnswerUnder, Budget, Literal, SatSolver};
use std::alloc::{AllocError, Global};

/// Assumptions that can't be true together with the formula, though they can where any one of them is left out.
///
/// None where all assumptions can be true together, or one of the questions met its limit of so many learned clauses.
/// Asks once for each literal of the first core.
///
/// Shows a lemma on cores: fewer assumptions have no fewer models.
///
/// # Errors
/// `AllocError` where memory is refused.
pub fn minimal_core<S: SatSolver>(
    alloc: Global,
    solver: &mut S,
    assumptions: &[Literal],
    limit: usize,
) -> Result<Option<Vec<Literal>>, AllocError>
    ensures formula { S.formula solver.new ≡ S.formula solver.old }
    ensures minimal { IfOk result (λ found. IfSome found (λ core.
        IsMinimalCore (S.formula solver.old) assumptions.now core.items)) }
{
    let AnswerUnder::Unsat(core) = solver.solve_limited(assumptions, learning(limit))? else {
        return Ok(None);
    };
    let mut core = core;
    let mut place = core.len();
    while place > 0 {
        place -= 1;
        let Some(next) = without(alloc, solver, core, place, limit)? else {
            return Ok(None);
        };
        core = next;
    }
    Ok(Some(core))
}

// The core without the literal at a place if that is one still, and else the core. None where that was left open.
fn without<S: SatSolver>(
    alloc: Global,
    solver: &mut S,
    core: Vec<Literal>,
    place: usize,
    limit: usize,
) -> Result<Option<Vec<Literal>>, AllocError>
    requires { place < vec_len core }
    ensures formula { S.formula solver.new ≡ S.formula solver.old }
    ensures next { IfOk result (λ found. IfSome found (λ next.
        IsNextCore (S.formula solver.old) core.items place next.items)) }
{
    let mut fewer = Vec::new(alloc);
    fewer.extend_from_slice(&core)?;
    fewer.remove(place);
    match solver.solve_limited(&fewer, learning(limit))? {
        AnswerUnder::Sat(_) => Ok(Some(core)),
        AnswerUnder::Unsat(_) => Ok(Some(fewer)),
        AnswerUnder::Unknown => Ok(None),
    }
}

// A budget of so many learned clauses.
fn learning(clauses: usize) -> Budget {
    Budget {
        clauses,
        propagations: u64::MAX,
    }
}
