//! Invariants of a circuit: the questions about them are put to a part of it.
ghost use Rattle.std.specs.Prelude.{◌≡◌, false, length, IfOk};
ghost use Rattle.gipmc_circuits.specs.Certificate.{is_certified};
ghost use Rattle.gipmc_reduce.specs.Cone.{IsPartOf};
ghost use Rattle.gipmc_reduce.specs.Verdicts.{AreSafeByClauses};

use crate::cone::Cone;
use gipmc_circuits::{Netlist, Verdict, exclusions, invariant_doubt};
use gipsat_cnf::{Literal, SatSolver};
use std::alloc::{AllocError, Global};

/// Which of these literals are shown by an invariant to be false at every moment that the circuit reaches: a verdict on
/// each, in their order. `invariant_doubt` and `exclusions` of `gipmc_circuits` are asked about the part that the
/// literals and the clauses depend on, or about the circuit itself where one of their literals is of no variable of it.
/// Each question to the solver may learn `limit` clauses.
///
/// # Errors
/// `AllocError` where memory is refused, or where two moments of the part would have more than 2^31 variables.
pub fn certify_all<S: SatSolver + Drop>(
    alloc: Global,
    whole: &Netlist,
    bads: &[Literal],
    invariant: &[Vec<Literal>],
    limit: usize,
) -> Result<Vec<Verdict>, AllocError>
    ensures count { IfOk result (λ verdicts. length verdicts.items ≡ length bads.now) }
    ensures safe { IfOk result
        (λ verdicts. AreSafeByClauses whole.now.circuit invariant.now bads.now verdicts.items) }
{
    let literals = literals_of(alloc, bads, invariant)?;
    match Cone::new(alloc, whole, &literals)? {
        Some(part) => certify_by_part::<S>(alloc, whole, &part, bads, invariant, limit),
        None => verdicts_on::<S>(alloc, whole, bads, invariant, limit),
    }
}

// The same, by a part of the circuit.
fn certify_by_part<S: SatSolver + Drop>(
    alloc: Global,
    whole: &Netlist,
    part: &Cone,
    bads: &[Literal],
    invariant: &[Vec<Literal>],
    limit: usize,
) -> Result<Vec<Verdict>, AllocError>
    requires { IsPartOf part.now.names.names.items part.now.netlist.circuit whole.now.circuit }
    ensures count { IfOk result (λ verdicts. length verdicts.items ≡ length bads.now) }
    ensures safe { IfOk result
        (λ verdicts. AreSafeByClauses whole.now.circuit invariant.now bads.now verdicts.items) }
{
    let Some(own) = part.names.literals(alloc, bads)? else {
        return verdicts_on::<S>(alloc, whole, bads, invariant, limit);
    };
    let Some(clauses) = part.names.clauses(alloc, invariant)? else {
        return verdicts_on::<S>(alloc, whole, bads, invariant, limit);
    };
    verdicts_on::<S>(alloc, &part.netlist, &own, &clauses, limit)
}

// The same, of a circuit itself.
fn verdicts_on<S: SatSolver + Drop>(
    alloc: Global,
    netlist: &Netlist,
    bads: &[Literal],
    invariant: &[Vec<Literal>],
    limit: usize,
) -> Result<Vec<Verdict>, AllocError>
    ensures count { IfOk result (λ verdicts. length verdicts.items ≡ length bads.now) }
    ensures safe { IfOk result
        (λ verdicts. AreSafeByClauses netlist.now.circuit invariant.now bads.now verdicts.items) }
{
    match invariant_doubt::<S>(alloc, netlist, invariant, limit)? {
        Some(doubt) => Ok(vec![in alloc; doubted(doubt); bads.len()]?),
        None => exclusions::<S>(alloc, netlist, bads, invariant, limit),
    }
}

// A verdict that is not that the circuit is safe.
pub(crate) fn doubted(doubt: Verdict) -> Verdict
    ensures { is_certified result ≡ false }
{
    match doubt {
        Verdict::Certified => Verdict::Unknown,
        doubt => doubt,
    }
}

// The literals, and those of the clauses.
fn literals_of(
    alloc: Global,
    bads: &[Literal],
    clauses: &[Vec<Literal>],
) -> Result<Vec<Literal>, AllocError> {
    let mut all = Vec::new(alloc);
    all.extend_from_slice(bads)?;
    for clause in clauses {
        all.extend_from_slice(clause)?;
    }
    Ok(all)
}
