//! An arbiter that lets a client wait forever, and one that does not.
ghost use Rattle.std.specs.Prelude.{[], ◌∷◌, IfOk, IfSome, IsTrue};
ghost use Rattle.gipmc_reduce.specs.Lassos.{IsLasso};
ghost use Rattle.gipmc_reduce.specs.Liveness.{IsLive};

use gipmc_circuits::{And, Circuit, Latch, Netlist, Trace, Verdict};
use gipmc_reduce::{Lasso, Means, certify_live, replay_lasso};
use gipsat_cnf::Literal;
use gipsat_plain::Plain;
use std::alloc::{AllocError, Global};

/// It is the client's turn where latch 1 is 1, which is 0 at first. The client waits, latch 2, from the start on until
/// it is its turn. A fair arbiter changes the turn at each transition, another one never does.
pub fn arbiter(alloc: Global, is_fair: bool) -> Result<Netlist, AllocError> {
    let mut circuit = Circuit::new(alloc);
    circuit.latches.push(Latch {
        variable: 1,
        next: Literal::new(1, !is_fair),
        reset: Some(false),
    })?;
    circuit.latches.push(Latch {
        variable: 2,
        next: Literal::new(3, true),
        reset: Some(true),
    })?;
    circuit.gates.push(And {
        output: 3,
        left: Literal::new(2, true),
        right: Literal::new(1, false),
    })?;
    Netlist::new(alloc, circuit)?.ok_or(AllocError)
}

/// A lasso on which the literal is true in the loop, if this one is: one moment, which leads back to itself.
pub fn counterexample(
    alloc: Global,
    netlist: &Netlist,
    waits: Literal,
) -> Result<Option<Lasso>, AllocError>
    ensures { IfOk result (λ found. IfSome found (IsLasso netlist.now.circuit [] (waits ∷ []))) }
{
    let latches = Vec::from_array(alloc, [false, true])?;
    let mut inputs = Vec::with_capacity(alloc, 1)?;
    inputs.push_reserved(Vec::new(alloc));
    let trace = Trace { latches, inputs };
    let lasso = Lasso { trace, start: 0 };
    if replay_lasso(alloc, netlist, &[], &[waits], &lasso)? {
        Ok(Some(lasso))
    } else {
        Ok(None)
    }
}

// Clauses over the latches of the circuit that counts to 2: latch 4 is 1 once the client has waited at one moment, and
// latch 5 once it has at two. While it waits, latch 5 is 0, and latch 4 is what the turn is.
const INVARIANT: [[(u32, bool); 3]; 3] = [
    [(2, false), (5, false), (5, false)],
    [(2, false), (1, false), (4, true)],
    [(2, false), (1, true), (4, false)],
];

fn invariant(alloc: Global) -> Result<Vec<Vec<Literal>>, AllocError> {
    let mut clauses = Vec::new(alloc);
    for &[(x, a), (y, b), (z, c)] in &INVARIANT {
        let clause = Vec::from_array(
            alloc,
            [Literal::new(x, a), Literal::new(y, b), Literal::new(z, c)],
        )?;
        clauses.reserve(1)?;
        clauses.push_reserved(clause);
    }
    Ok(clauses)
}

/// Whether it is shown that the literal is not true again and again: it is true at most at two moments.
pub fn is_served(alloc: Global, netlist: &Netlist, waits: Literal) -> Result<bool, AllocError>
    ensures { IfOk result (λ served. IsTrue served → IsLive netlist.now.circuit [] (waits ∷ [])) }
{
    let invariant = invariant(alloc)?;
    let means = Means::Counting(2);
    let said = certify_live::<Plain>(alloc, netlist, &[], &[waits], means, &invariant, 1000)?;
    match said {
        Some(Verdict::Certified) => Ok(true),
        _ => Ok(false),
    }
}
