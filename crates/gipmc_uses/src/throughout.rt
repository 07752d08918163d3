//! A literal that is false at each moment of each run.
ghost use Rattle.std.specs.Prelude.{IfOk, IsTrue};
ghost use Rattle.gipmc_uses.specs.Throughout.{IsFalseThroughout};

use gipmc_circuits::{Netlist, Verdict, certify};
use gipsat_cnf::{Literal, SatSolver};
use std::alloc::{AllocError, Global};

/// Whether clauses show that a literal is false at each moment of each run. The solver may learn `limit` clauses for
/// each question.
///
/// Shows a lemma on traces: a literal that is safe is false all along, since what comes before the end is a trace too.
///
/// # Errors
/// `AllocError` where memory is refused, or where two moments would have more than 2^31 variables.
pub fn is_false_throughout<S: SatSolver + Drop>(
    alloc: Global,
    netlist: &Netlist,
    l: Literal,
    invariant: &[Vec<Literal>],
    limit: usize,
) -> Result<bool, AllocError>
    ensures { IfOk result (λ holds. IsTrue holds → IsFalseThroughout netlist.now.circuit l) }
{
    match certify::<S>(alloc, netlist, l, invariant, limit)? {
        Verdict::Certified => Ok(true),
        _ => Ok(false),
    }
}
