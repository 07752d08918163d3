//! Two counters side by side, of which a search needs one.
ghost use Rattle.std.specs.Prelude.{IfOk, IfSome, IsTrue};
ghost use Rattle.gipmc_circuits.specs.Circuit.{IsSafe};

use gipmc_circuits::{And, Circuit, Latch, Netlist, Verdict, certify};
use gipmc_reduce::{Bounds, Correspondence};
use gipsat_cnf::Literal;
use gipsat_plain::Plain;
use std::alloc::{AllocError, Global};

/// Latch 2 becomes 1 once input 1 is 1, and so does latch 3. Gate 6 is true where they differ.
pub fn copies(alloc: Global) -> Result<Netlist, AllocError> {
    let mut circuit = Circuit::new(alloc);
    circuit.inputs.push(1)?;
    for &(variable, next) in &[(2, 4), (3, 5)] {
        circuit.latches.push(Latch {
            variable,
            next: Literal::new(next, false),
            reset: Some(false),
        })?;
    }
    for &(output, latch, positive) in &[(4, 2, false), (5, 3, false)] {
        circuit.gates.push(And {
            output,
            left: Literal::new(1, false),
            right: Literal::new(latch, positive),
        })?;
    }
    circuit.gates.push(And {
        output: 6,
        left: Literal::new(2, true),
        right: Literal::new(3, false),
    })?;
    Netlist::new(alloc, circuit)?.ok_or(AllocError)
}

/// Whether it is shown that the literal never becomes true, by the invariant that it is false where what is equal is
/// merged.
pub fn is_safe(alloc: Global, netlist: &Netlist, bad: Literal) -> Result<bool, AllocError>
    ensures { IfOk result (λ safe. IsTrue safe → IsSafe netlist.now.circuit bad) }
{
    let Some(sweep) = Correspondence::new::<Plain>(alloc, netlist, &[bad], Bounds::default())?
    else {
        return Ok(false);
    };
    let own = sweep.merges.literal(bad);
    let clause = Vec::from_array(alloc, [own.negated()])?;
    let mut invariant = Vec::with_capacity(alloc, 1)?;
    invariant.push_reserved(clause);
    match certify::<Plain>(alloc, &sweep.netlist, own, &invariant, 1000)? {
        Verdict::Certified => Ok(true),
        _ => Ok(false),
    }
}
