//! A bad literal that becomes true, and one that never does.
ghost use Rattle.std.specs.Prelude.{IfOk, IfSome, IsTrue};
ghost use Rattle.gipmc_circuits.specs.Prelude.{FailsBy, IsSafe, is_certified};

use gipmc_circuits::{Circuit, Latch, Netlist, Trace, Verdict, certify, replay};
use gipsat_cnf::Literal;
use gipsat_plain::Plain;
use std::alloc::{AllocError, Global};

/// Both latches begin at 0. Latch 2 holds next what input 1 is, and latch 3 keeps its value.
pub fn two_latches(alloc: Global) -> Result<Netlist, AllocError> {
    let mut circuit = Circuit::new(alloc);
    circuit.inputs.push(1)?;
    for &(variable, next) in &[(2, 1), (3, 3)] {
        circuit.latches.push(Latch {
            variable,
            next: Literal::new(next, true),
            reset: Some(false),
        })?;
    }
    Netlist::new(alloc, circuit)?.ok_or(AllocError)
}

// The values of the input, one moment after another: it is 1, and then 0.
fn inputs(alloc: Global) -> Result<Vec<Vec<bool>>, AllocError> {
    let mut rows = Vec::with_capacity(alloc, 2)?;
    for &input in &[true, false] {
        let row = Vec::from_array(alloc, [input])?;
        rows.reserve(1)?;
        rows.push_reserved(row);
    }
    Ok(rows)
}

/// A trace at whose end the bad literal is true, if this one is: the input is 1, and then 0.
pub fn counterexample(
    alloc: Global,
    netlist: &Netlist,
    bad: Literal,
) -> Result<Option<Trace>, AllocError>
    ensures { IfOk result (λ found. IfSome found (FailsBy netlist.now.circuit bad)) }
{
    let inputs = inputs(alloc)?;
    let latches = Vec::from_array(alloc, [false, false])?;
    let trace = Trace { latches, inputs };
    if replay(alloc, netlist, bad, &trace)? {
        Ok(Some(trace))
    } else {
        Ok(None)
    }
}

// One clause: the bad literal is false.
fn invariant(alloc: Global, bad: Literal) -> Result<Vec<Vec<Literal>>, AllocError> {
    let clause = Vec::from_array(alloc, [bad.negated()])?;
    let mut clauses = Vec::with_capacity(alloc, 1)?;
    clauses.push_reserved(clause);
    Ok(clauses)
}

/// What is said of the invariant that the bad literal is false. If it is certified, the bad literal never becomes true.
pub fn judged(alloc: Global, netlist: &Netlist, bad: Literal) -> Result<Verdict, AllocError>
    ensures { IfOk result (λ verdict. IsTrue (is_certified verdict) → IsSafe netlist.now.circuit bad) }
{
    let invariant = invariant(alloc, bad)?;
    certify::<Plain>(alloc, netlist, bad, &invariant, 1000)
}
