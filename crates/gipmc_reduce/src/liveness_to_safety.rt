//! Liveness as safety: a circuit whose traces lead round a loop, and the lassos that they are.
ghost use Rattle.std.specs.Prelude.{◌≡◌, ◌+◌, ◌++◌, ◌*◌, ◌^◌, ◌<◌, [], ◌∷◌, length, map, IfOk, IfSome, IsTrue, OnOk};
ghost use Rattle.std.specs.List.{list_all};
ghost use Rattle.gipmc_circuits.specs.Prelude.{IsSafe, is_below, latch_below, latch_variables};
ghost use Rattle.gipmc_reduce.specs.Chains.{not_of, yes_of};
ghost use Rattle.gipmc_reduce.specs.Lassos.{IsLasso};
ghost use Rattle.gipmc_reduce.specs.Liveness.{IsLive};
ghost use Rattle.gipmc_reduce.specs.Saved.{Adds, AddsSaving, FailsByLassos, IsSaverOf, IsSaving, gate, last_of};
ghost use Rattle.gipmc_reduce.specs.Saved.{latch, note, note_latches, notes, shadow, shadow_latches, shadows};

use crate::k_liveness::{are_below, copied};
use crate::lasso::{Lasso, both, replay_lasso};
use gipmc_circuits::{And, Circuit, Latch, Netlist, Trace};
use gipsat_cnf::Literal;
use std::alloc::{AllocError, Global};

// The literal of a variable.
fn yes_of(variable: usize) -> Literal
    requires { variable < 2 ^ 31 }
    ensures { result ≡ yes_of variable }
{
    Literal::new(variable as u32, true)
}

// Its negation.
fn not_of(variable: usize) -> Literal
    requires { variable < 2 ^ 31 }
    ensures { result ≡ not_of variable }
{
    Literal::new(variable as u32, false)
}

// The gate of these operands.
fn gate(output: usize, left: Literal, right: Literal) -> And
    requires { output < 2 ^ 31 }
    ensures { result ≡ gate output left right }
{
    And {
        output: output as u32,
        left,
        right,
    }
}

// The latch that is 0 at first, and then what the gate is not.
fn latch(variable: usize, gate: usize) -> Latch
    requires latch { variable < 2 ^ 31 }
    requires gate { gate < 2 ^ 31 }
    ensures { result ≡ latch variable gate }
{
    Latch {
        variable: variable as u32,
        next: not_of(gate),
        reset: Some(false),
    }
}

// Adds an input, the latch behind it, which tells that something is saved, and the first gates.
fn add_saving(circuit: &mut Circuit, n: usize, first: usize) -> Result<(), AllocError>
    requires input { n + 1 < 2 ^ 31 }
    requires gates { first + 1 < 2 ^ 31 }
    ensures { OnOk result (AddsSaving circuit.old circuit.new n first) }
{
    circuit.inputs.push(n as u32)?;
    circuit.latches.push(latch(n + 1, first))?;
    circuit.gates.extend_from_slice(&[
        gate(first, not_of(n + 1), not_of(n)),
        gate(first + 1, yes_of(n + 1), yes_of(n + 1)),
    ])?;
    Ok(())
}

// Adds a latch that keeps what another one held when it was saved, and what tells that they are the same.
fn add_shadow(
    circuit: &mut Circuit,
    saved: usize,
    kept: usize,
    variable: usize,
    before: usize,
) -> Result<(), AllocError>
    requires saved { saved < 2 ^ 31 }
    requires kept { kept < 2 ^ 31 }
    requires variable { variable < 2 ^ 31 }
    requires gates { before + 7 < 2 ^ 31 }
    ensures { OnOk result
        (Adds circuit.old circuit.new (latch variable (before + 3) ∷ []) (shadow saved kept variable before)) }
{
    circuit.latches.push(latch(variable, before + 3))?;
    circuit.gates.extend_from_slice(&[
        gate(before + 1, yes_of(saved), yes_of(variable)),
        gate(before + 2, not_of(saved), yes_of(kept)),
        gate(before + 3, not_of(before + 1), not_of(before + 2)),
        gate(before + 4, yes_of(variable), not_of(kept)),
        gate(before + 5, not_of(variable), yes_of(kept)),
        gate(before + 6, not_of(before + 4), not_of(before + 5)),
        gate(before + 7, yes_of(before), yes_of(before + 6)),
    ])?;
    Ok(())
}

// Adds a latch that notes that the literal was true since something was saved.
fn add_note(
    circuit: &mut Circuit,
    outside: usize,
    l: Literal,
    variable: usize,
    before: usize,
) -> Result<(), AllocError>
    requires outside { outside < 2 ^ 31 }
    requires variable { variable < 2 ^ 31 }
    requires gates { before + 3 < 2 ^ 31 }
    ensures { OnOk result
        (Adds circuit.old circuit.new (latch variable (before + 2) ∷ []) (note outside l variable before)) }
{
    circuit.latches.push(latch(variable, before + 2))?;
    circuit.gates.extend_from_slice(&[
        gate(before + 1, not_of(outside), l),
        gate(before + 2, not_of(variable), not_of(before + 1)),
        gate(before + 3, yes_of(before), yes_of(variable)),
    ])?;
    Ok(())
}

// Adds such a latch for each of these.
fn add_shadows(
    circuit: &mut Circuit,
    latches: &[Latch],
    n: usize,
    variable: usize,
    before: usize,
) -> Result<(), AllocError>
    requires input { n + 1 < 2 ^ 31 }
    requires kept { IsTrue (list_all (latch_below n) latches.now) }
    requires variables { variable + length latches.now < 2 ^ 31 }
    requires gates { before + 7 * length latches.now < 2 ^ 31 }
    ensures { OnOk result (Adds circuit.old circuit.new (shadow_latches variable before (length latches.now))
        (shadows (n + 1) variable before (map (λ l. l.variable) latches.now) (length latches.now))) }
{
    for place in 0..latches.len() {
        let kept = latches[place].variable as usize;
        add_shadow(circuit, n + 1, kept, variable + place, before + 7 * place)?;
    }
    Ok(())
}

// Adds such a latch for each of the literals.
fn add_notes(
    circuit: &mut Circuit,
    literals: &[Literal],
    outside: usize,
    variable: usize,
    before: usize,
) -> Result<(), AllocError>
    requires outside { outside < 2 ^ 31 }
    requires variables { variable + length literals.now < 2 ^ 31 }
    requires gates { before + 3 * length literals.now < 2 ^ 31 }
    ensures { OnOk result (Adds circuit.old circuit.new (note_latches variable before (length literals.now))
        (notes outside variable before literals.now (length literals.now))) }
{
    for place in 0..literals.len() {
        add_note(
            circuit,
            outside,
            literals[place],
            variable + place,
            before + 3 * place,
        )?;
    }
    Ok(())
}

// The circuit with an input that saves, and the literal that the latches hold what was saved, and each of the literals
// was true since.
fn saver(
    alloc: Global,
    circuit: &Circuit,
    n: usize,
    literals: &[Literal],
) -> Result<(Circuit, Literal), AllocError>
    requires within { IsTrue (is_below n circuit.now) }
    requires variables { n < 2 ^ 27 }
    requires latches { length circuit.now.latches.items < 2 ^ 27 }
    requires literals { length literals.now < 2 ^ 27 }
    ensures saves { IfOk result (λ made. IsSaving n circuit.now made.0 literals.now) }
    ensures bad { IfOk result
        (λ made. made.1 ≡ yes_of (last_of n (length (latch_variables circuit.now)) (length literals.now))) }
{
    let count = circuit.latches.len();
    let first = n + 2 + count + literals.len();
    let noted = first + 1 + 7 * count;
    let mut made = copied(alloc, circuit)?;
    add_saving(&mut made, n, first)?;
    add_shadows(&mut made, &circuit.latches, n, n + 2, first + 1)?;
    add_notes(&mut made, literals, first, n + 2 + count, noted)?;
    let bad = yes_of(noted + 3 * literals.len());
    made.bads.push(bad)?;
    Ok((made, bad))
}

/// The circuit with an input that saves what the latches hold, and the literal that is true where the latches hold it
/// again, and each fairness constraint and each literal of the justice property was true since. If this never happens,
/// they do not all recur on a run. None if one of the literals is of no variable of the circuit.
///
/// A trace that ends where it is true is a lasso: `lasso_of` carries it back. The input is the last one of the new
/// circuit, and the literal its only bad one.
///
/// # Errors
/// `AllocError` where memory is refused, or where the number of variables, or that of the literals, is 2^27 or more.
pub fn to_safety(
    alloc: Global,
    netlist: &Netlist,
    fairness: &[Literal],
    justice: &[Literal],
) -> Result<Option<(Netlist, Literal)>, AllocError>
    ensures saver { IfOk result (λ made. IfSome made
        (λ m. IsSaverOf netlist.now.circuit (fairness.now ++ justice.now) m.0.circuit m.1)) }
    ensures fails { IfOk result (λ made. IfSome made
        (λ m. FailsByLassos netlist.now.circuit (fairness.now ++ justice.now) m.0.circuit m.1)) }
    ensures live { IfOk result (λ made. IfSome made
        (λ m. IsSafe m.0.circuit m.1 → IsLive netlist.now.circuit fairness.now justice.now)) }
{
    let n = netlist.variables;
    let circuit = &netlist.circuit;
    let literals = both(alloc, fairness, justice)?;
    if !are_below(n, &literals) {
        return Ok(None);
    }
    if n >= 1 << 27 || circuit.latches.len() >= 1 << 27 || literals.len() >= 1 << 27 {
        return Err(AllocError);
    }
    let (circuit, bad) = saver(alloc, circuit, n, &literals)?;
    match Netlist::new(alloc, circuit)? {
        Some(made) => Ok(Some((made, bad))),
        None => Ok(None),
    }
}

// The values at the first places.
fn first(alloc: Global, values: &[bool], len: usize) -> Result<Vec<bool>, AllocError> {
    let mut first = Vec::new(alloc);
    for value in values.iter().take(len) {
        first.push(*value)?;
    }
    Ok(first)
}

// The lasso that a trace of the longer circuit is. None if nothing is saved before its last moment.
fn carried_back(
    alloc: Global,
    netlist: &Netlist,
    trace: &Trace,
) -> Result<Option<Lasso>, AllocError> {
    let width = netlist.circuit.inputs.len();
    let latches = first(alloc, &trace.latches, netlist.circuit.latches.len())?;
    let Some((_, rows)) = trace.inputs.split_last() else {
        return Ok(None);
    };
    let mut inputs = Vec::new(alloc);
    let mut start = None;
    for (place, row) in rows.iter().enumerate() {
        if start.is_none() && row.get(width).copied().unwrap_or(false) {
            start = Some(place);
        }
        let row = first(alloc, row, width)?;
        inputs.reserve(1)?;
        inputs.push_reserved(row);
    }
    let trace = Trace { latches, inputs };
    match start {
        Some(start) => Ok(Some(Lasso { trace, start })),
        None => Ok(None),
    }
}

/// The lasso that a trace of the circuit made by `to_safety` is, if it is one.
///
/// # Errors
/// `AllocError` where memory is refused.
pub fn lasso_of(
    alloc: Global,
    netlist: &Netlist,
    fairness: &[Literal],
    justice: &[Literal],
    trace: &Trace,
) -> Result<Option<Lasso>, AllocError>
    ensures { IfOk result
        (λ found. IfSome found (IsLasso netlist.now.circuit fairness.now justice.now)) }
{
    let Some(lasso) = carried_back(alloc, netlist, trace)? else {
        return Ok(None);
    };
    if replay_lasso(alloc, netlist, fairness, justice, &lasso)? {
        Ok(Some(lasso))
    } else {
        Ok(None)
    }
}
