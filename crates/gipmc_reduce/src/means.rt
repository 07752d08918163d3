//! The longer circuits whose safety shows liveness, by which means each is made, and what an invariant of one shows.
ghost use Rattle.std.specs.Prelude.{◌++◌, IfOk, IfSome, IsTrue};
ghost use Rattle.gipmc_circuits.specs.Prelude.{IsSafe, is_certified};
ghost use Rattle.gipmc_reduce.specs.Liveness.{IsLive};
ghost use Rattle.gipmc_reduce.specs.Longer.{IsMadeBy};

use crate::k_liveness::counting;
use crate::liveness_to_safety::to_safety;
use gipmc_circuits::{Netlist, Verdict, certify};
use gipsat_cnf::{Literal, SatSolver};
use std::alloc::{AllocError, Global};

/// The longer circuit whose invariant shows that a circuit is live.
#[derive(Clone, Copy, Debug, PartialEq, Eq)]
pub enum Means {
    /// The circuit that counts to this k, of `counting`.
    Counting(usize),
    /// The circuit that saves what its latches hold, of `to_safety`.
    Saving,
}

/// The longer circuit that is made by these means, and its one bad literal: if this is never true, the fairness
/// constraints and the literals of the justice property do not all recur on a run. None if one of them is of no
/// variable of the circuit.
///
/// # Errors
/// Those of `counting`, or of `to_safety`.
pub fn longer(
    alloc: Global,
    netlist: &Netlist,
    fairness: &[Literal],
    justice: &[Literal],
    means: Means,
) -> Result<Option<(Netlist, Literal)>, AllocError>
    ensures made { IfOk result (λ made. IfSome made
        (λ m. IsMadeBy netlist.now.circuit (fairness.now ++ justice.now) means m.0.circuit m.1)) }
    ensures live { IfOk result (λ made. IfSome made
        (λ m. IsSafe m.0.circuit m.1 → IsLive netlist.now.circuit fairness.now justice.now)) }
{
    match means {
        Means::Counting(k) => counting(alloc, netlist, fairness, justice, k),
        Means::Saving => to_safety(alloc, netlist, fairness, justice),
    }
}

/// Whether the invariant shows that the fairness constraints and the literals of the justice property do not all recur
/// on a run: an invariant of the longer circuit that is made by these means.
///
/// None if one of the literals is of no variable of the circuit. Each question to the solver may learn `limit` clauses.
///
/// # Errors
/// Those of `longer`, and `AllocError` where two moments would have more than 2^31 variables.
pub fn certify_live<S: SatSolver + Drop>(
    alloc: Global,
    netlist: &Netlist,
    fairness: &[Literal],
    justice: &[Literal],
    means: Means,
    invariant: &[Vec<Literal>],
    limit: usize,
) -> Result<Option<Verdict>, AllocError>
    ensures { IfOk result (λ said. IfSome said
        (λ verdict. IsTrue (is_certified verdict) → IsLive netlist.now.circuit fairness.now justice.now)) }
{
    let Some((made, bad)) = longer(alloc, netlist, fairness, justice, means)? else {
        return Ok(None);
    };
    let verdict = certify::<S>(alloc, &made, bad, invariant, limit)?;
    Ok(Some(verdict))
}
