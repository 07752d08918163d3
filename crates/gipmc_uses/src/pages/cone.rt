//! A latch that keeps its 0, beside what it does not depend on.
ghost use Rattle.std.specs.Prelude.{◌≡◌, slice_get, Some, IfOk, IsTrue};
ghost use Rattle.gipmc_circuits.specs.Circuit.{IsSafe};
ghost use Rattle.gipmc_circuits.specs.declared.certificate.Verdict.TheVariants.{Certified};

use gipmc_circuits::{And, Circuit, Latch, Netlist, Verdict};
use gipmc_reduce::certify_all;
use gipsat_cnf::Literal;
use gipsat_plain::Plain;
use std::alloc::{AllocError, Global};

/// Latch 1000 keeps its value, which is 0 at first. Latch 3 becomes 0 where it was 1, or where input 1 was 0, by gate
/// 2000.
pub fn latches(alloc: Global) -> Result<Netlist, AllocError> {
    let mut circuit = Circuit::new(alloc);
    circuit.inputs.push(1)?;
    for &(variable, next) in &[(3, 2000), (1000, 1000)] {
        circuit.latches.push(Latch {
            variable,
            next: Literal::new(next, true),
            reset: Some(false),
        })?;
    }
    circuit.gates.push(And {
        output: 2000,
        left: Literal::new(1, true),
        right: Literal::new(3, false),
    })?;
    Netlist::new(alloc, circuit)?.ok_or(AllocError)
}

// Whether the first verdict is that the circuit is safe.
fn is_first_certified(verdicts: &[Verdict]) -> bool
    ensures { IsTrue result → slice_get verdicts.now 0 ≡ Some Certified }
{
    if verdicts.is_empty() {
        return false;
    }
    match verdicts[0] {
        Verdict::Certified => true,
        _ => false,
    }
}

/// Whether it is shown that the literal never becomes true, by the invariant that it is false. The solver is asked
/// about what the literal depends on, and nothing else.
pub fn is_safe(alloc: Global, netlist: &Netlist, bad: Literal) -> Result<bool, AllocError>
    ensures { IfOk result (λ safe. IsTrue safe → IsSafe netlist.now.circuit bad) }
{
    let clause = Vec::from_array(alloc, [bad.negated()])?;
    let mut invariant = Vec::with_capacity(alloc, 1)?;
    invariant.push_reserved(clause);
    let verdicts = certify_all::<Plain>(alloc, netlist, &[bad], &invariant, 1000)?;
    Ok(is_first_certified(&verdicts))
}
