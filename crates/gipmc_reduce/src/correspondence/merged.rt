//! The circuit after merges.
ghost use Rattle.std.specs.Prelude.{◌≡◌, map, IfOk};
ghost use Rattle.std.specs.List.{All, Contains};
ghost use Rattle.gipmc_reduce.specs.Correspondence.{IsMergedOf, gate_merged, latch_merged, merged};

use crate::correspondence::merges::Merges;
use gipmc_circuits::{And, Circuit, Latch};
use gipsat_cnf::Literal;
use std::alloc::{AllocError, Global};

/// The circuit without the latches and gates that others stand for, with these literals as its bad ones.
///
/// # Errors
/// `AllocError` where memory is refused.
pub(crate) fn merged_circuit(
    alloc: Global,
    merges: &Merges,
    whole: &Circuit,
    bads: &[Literal],
) -> Result<Circuit, AllocError>
    ensures smaller { IfOk result (λ c. IsMergedOf merges.now.literals.items c whole.now) }
    ensures bads { IfOk result (λ c. c.bads.items ≡ map (merged merges.now.literals.items) bads.now) }
{
    let bads = merges.literals(alloc, bads)?;
    let constraints = merges.literals(alloc, &whole.constraints)?;
    let mut inputs = Vec::new(alloc);
    inputs.extend_from_slice(&whole.inputs)?;
    let latches = latches_left(alloc, merges, &whole.latches)?;
    let gates = gates_left(alloc, merges, &whole.gates)?;
    Ok(Circuit {
        inputs,
        latches,
        gates,
        bads,
        constraints,
    })
}

// The latches that stand for themselves.
fn latches_left(alloc: Global, merges: &Merges, latches: &[Latch]) -> Result<Vec<Latch>, AllocError>
    ensures { IfOk result (λ left.
        All (Contains (map (latch_merged merges.now.literals.items) latches.now)) left.items) }
{
    let mut all = Vec::new(alloc);
    for latch in latches {
        if merges.is_merged(latch.variable) {
            continue;
        }
        all.push(merges.latch(*latch))?;
    }
    Ok(all)
}

// The gates that stand for themselves.
fn gates_left(alloc: Global, merges: &Merges, gates: &[And]) -> Result<Vec<And>, AllocError>
    ensures { IfOk result (λ left.
        All (Contains (map (gate_merged merges.now.literals.items) gates.now)) left.items) }
{
    let mut all = Vec::new(alloc);
    for gate in gates {
        if merges.is_merged(gate.output) {
            continue;
        }
        all.push(merges.gate(*gate))?;
    }
    Ok(all)
}
