//! k-liveness: a circuit with a chain of latches, which counts how often literals are met in turn.
ghost use Rattle.std.specs.Prelude.{◌≡◌, ◌+◌, ◌++◌, ◌*◌, ◌^◌, ◌<◌, length, IfOk, IfSome};
ghost use Rattle.std.specs.List.{list_all};
ghost use Rattle.gipmc_circuits.specs.Prelude.{IsSafe, literal_below};
ghost use Rattle.gipmc_reduce.specs.Chains.{AddsStage, AddsStages, IsChained, IsCopied, IsCounterOf, all_passed, top, yes_of};
ghost use Rattle.gipmc_reduce.specs.Liveness.{IsLive};
ghost use Rattle.gipmc_reduce.specs.Turns.{CountsTo, always, turn, turns};

use crate::lasso::both;
use gipmc_circuits::{And, Circuit, Latch, Netlist};
use gipsat_cnf::Literal;
use std::alloc::{AllocError, Global};

// The literal that is always true.
fn always() -> Literal
    ensures { result ≡ always }
{
    Literal::new(0, false)
}

// Whether the literal's variable is below the number.
fn is_below(n: usize, l: Literal) -> bool
    ensures { result ≡ literal_below n l }
{
    (l.variable() as usize) < n
}

// Whether the variable of each literal is.
pub(crate) fn are_below(n: usize, literals: &[Literal]) -> bool
    ensures { result ≡ list_all (literal_below n) literals.now }
{
    literals.iter().all(|l| is_below(n, *l))
}

// The literal whose turn it is; always true where there is none.
fn in_turn(literals: &[Literal], place: usize) -> Literal
    ensures { result ≡ turn literals.now place }
{
    if literals.is_empty() {
        return always();
    }
    literals[place % literals.len()]
}

// So many of the literals, in turn.
fn stages_in_turn(
    alloc: Global,
    literals: &[Literal],
    count: usize,
) -> Result<Vec<Literal>, AllocError>
    ensures { IfOk result (λ stages. stages.items ≡ turns literals.now count) }
{
    let mut stages = Vec::new(alloc);
    for place in 0..count {
        stages.push(in_turn(literals, place))?;
    }
    Ok(stages)
}

// The circuit without its bad literals.
pub(crate) fn copied(alloc: Global, circuit: &Circuit) -> Result<Circuit, AllocError>
    ensures { IfOk result (IsCopied circuit.now) }
{
    let mut copy = Circuit::new(alloc);
    copy.inputs.extend_from_slice(&circuit.inputs)?;
    copy.latches.extend_from_slice(&circuit.latches)?;
    copy.gates.extend_from_slice(&circuit.gates)?;
    copy.constraints.extend_from_slice(&circuit.constraints)?;
    Ok(copy)
}

// Adds a stage: the latch of this variable, and gates from the other one on. The literal that it is passed.
fn add_stage(
    circuit: &mut Circuit,
    latch: usize,
    gate: usize,
    before: Literal,
    awaited: Literal,
) -> Result<Literal, AllocError>
    requires latch { latch < 2 ^ 31 }
    requires gate { gate + 1 < 2 ^ 31 }
    ensures adds { IfOk result (λ _. AddsStage circuit.old circuit.new latch gate before awaited) }
    ensures passed { IfOk result (λ passed. passed ≡ yes_of latch) }
{
    let now = gate as u32;
    let passed = Literal::new(latch as u32, true);
    circuit.gates.push(And {
        output: now,
        left: before,
        right: awaited,
    })?;
    circuit.gates.push(And {
        output: now + 1,
        left: passed.negated(),
        right: Literal::new(now, false),
    })?;
    circuit.latches.push(Latch {
        variable: latch as u32,
        next: Literal::new(now + 1, false),
        reset: Some(false),
    })?;
    Ok(passed)
}

// Adds the stages, with variables from n on. The literal that all of them are passed.
fn add_stages(circuit: &mut Circuit, n: usize, stages: &[Literal]) -> Result<Literal, AllocError>
    requires { n + 3 * length stages.now < 2 ^ 31 }
    ensures adds { IfOk result (λ _. AddsStages circuit.old circuit.new n stages.now) }
    ensures passed { IfOk result (λ passed. passed ≡ all_passed n always stages.now) }
{
    let mut passed = always();
    for place in 0..stages.len() {
        let gate = n + stages.len() + 2 * place;
        passed = add_stage(circuit, n + place, gate, passed, stages[place])?;
    }
    Ok(passed)
}

// The circuit with the stages behind it, and the literal that all of them are passed and the last one is true.
fn chained(
    alloc: Global,
    circuit: &Circuit,
    n: usize,
    stages: &[Literal],
    last: Literal,
) -> Result<(Circuit, Literal), AllocError>
    requires { n + 3 * length stages.now < 2 ^ 31 }
    ensures chained { IfOk result (λ made. IsChained n circuit.now made.0 stages.now last) }
    ensures bad { IfOk result (λ made. made.1 ≡ yes_of (top n stages.now)) }
{
    let mut made = copied(alloc, circuit)?;
    let passed = add_stages(&mut made, n, stages)?;
    let output = (n + 3 * stages.len()) as u32;
    let bad = Literal::new(output, true);
    made.bads.push(bad)?;
    made.gates.push(And {
        output,
        left: passed,
        right: last,
    })?;
    Ok((made, bad))
}

/// The circuit with a chain of `k` latches, and the literal that is true where the fairness constraints and the literals
/// of the justice property have been met in turn `k + 1` times. If this never happens, they do not all recur on a run.
///
/// `k` counts single literals, not rounds: the first latch waits for the first literal, and each further one for the
/// next literal from the moment on that is behind the one at which the latch before it met its own. The literal is the
/// only bad one of the new circuit. None if one of the literals is of no variable of the circuit.
///
/// # Errors
/// `AllocError` where memory is refused, or where `k` or the number of variables is 2^29 or more.
pub fn counting(
    alloc: Global,
    netlist: &Netlist,
    fairness: &[Literal],
    justice: &[Literal],
    k: usize,
) -> Result<Option<(Netlist, Literal)>, AllocError>
    ensures counter { IfOk result (λ made. IfSome made
        (λ m. IsCounterOf netlist.now.circuit (fairness.now ++ justice.now) k m.0.circuit m.1)) }
    ensures counts { IfOk result (λ made. IfSome made
        (λ m. CountsTo netlist.now.circuit (fairness.now ++ justice.now) k m.0.circuit m.1)) }
    ensures live { IfOk result (λ made. IfSome made
        (λ m. IsSafe m.0.circuit m.1 → IsLive netlist.now.circuit fairness.now justice.now)) }
{
    let n = netlist.variables;
    let literals = both(alloc, fairness, justice)?;
    let stages = stages_in_turn(alloc, &literals, k)?;
    let last = in_turn(&literals, k);
    if !are_below(n, &stages) || !is_below(n, last) {
        return Ok(None);
    }
    if n >= 1 << 29 || stages.len() >= 1 << 29 {
        return Err(AllocError);
    }
    let (circuit, bad) = chained(alloc, &netlist.circuit, n, &stages, last)?;
    match Netlist::new(alloc, circuit)? {
        Some(made) => Ok(Some((made, bad))),
        None => Ok(None),
    }
}
