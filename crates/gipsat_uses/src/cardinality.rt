//! A model in which few of some literals are true.
ghost use Rattle.std.specs.Prelude.{IfNone, IfOk, IfSome, IsTrue};
ghost use Rattle.gipsat_cnf.specs.Prelude.{Assignment, IsModel, assignment_in, satisfies};
ghost use Rattle.gipsat_encodings.specs.Counts.{AtMostTrue};
ghost use Rattle.gipsat_encodings.specs.Extending.{SpeaksBelow};

use gipsat_cnf::{Literal, SatSolver};
use gipsat_encodings::counts::{Counter, add_at_most};
use std::alloc::{AllocError, Global};

/// A model of the formula in which at most k of the literals are true. None where there is none.
///
/// The formula may speak of the variables below the count alone. The clauses that are added take others, and stay.
///
/// Shows a constraint of `gipsat_encodings`: its two sides, `sound` and `complete`, are all that is asked of clauses.
///
/// # Errors
/// `AllocError` where memory is refused, or where a variable would be 2^31 or more. Some of the clauses may have been
/// added.
pub fn model_with_at_most<S: SatSolver>(
    alloc: Global,
    solver: &mut S,
    variables: &mut usize,
    literals: &[Literal],
    k: usize,
) -> Result<Option<Vec<bool>>, AllocError>
    requires { SpeaksBelow variables.old (S.formula solver.old) }
    ensures model { IfOk result (λ found. IfSome found (λ model. IsModel (S.formula solver.old) model.items)) }
    ensures few { IfOk result (λ found. IfSome found (λ model. AtMostTrue k literals.now (assignment_in model.items))) }
    ensures none { IfOk result (λ found. IfNone found
        ((a : Assignment) → IsTrue (satisfies a (S.formula solver.old)) → ¬ (AtMostTrue k literals.now a))) }
{
    add_at_most(alloc, solver, variables, literals, k, Counter::Totalizer)?;
    solver.find_model()
}
