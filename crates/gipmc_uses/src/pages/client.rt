//! A client that waits for a grant.
ghost use Rattle.std.specs.Prelude.{[], ◌∷◌, IfOk};
ghost use Rattle.gipmc_engines.specs.Liveness.{IsRightVerdict};

use gipmc_circuits::{And, Circuit, Latch, Netlist};
use gipmc_engines::Plan;
use gipmc_engines::liveness::{Verdict, decide_live};
use gipsat_cnf::Literal;
use gipsat_plain::Plain;
use std::alloc::{AllocError, Global};

/// The client waits, latch 2, from the start on until it has a grant, input 1.
pub fn client(alloc: Global) -> Result<Netlist, AllocError> {
    let mut circuit = Circuit::new(alloc);
    circuit.inputs.push(1)?;
    circuit.latches.push(Latch {
        variable: 2,
        next: Literal::new(3, true),
        reset: Some(true),
    })?;
    circuit.gates.push(And {
        output: 3,
        left: Literal::new(2, true),
        right: Literal::new(1, false),
    })?;
    Netlist::new(alloc, circuit)?.ok_or(AllocError)
}

/// What is found out about whether the literal is never true again and again, where the fairness constraints are.
pub fn verdict(
    alloc: Global,
    netlist: &Netlist,
    fairness: &[Literal],
    waits: Literal,
) -> Result<Verdict, AllocError>
    ensures { IfOk result (IsRightVerdict netlist.now.circuit fairness.now (waits ∷ [])) }
{
    let plan = Plan::default();
    decide_live::<Plain, _>(alloc, netlist, fairness, &[waits], &plan, &mut ())
}
