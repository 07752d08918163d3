//! Simplification: clauses that a root literal satisfies leave the formula, and the literal becomes a clause of it.
ghost use Rattle.std.specs.Prelude.{◌≡◌, OnOk, OnErr};
ghost use Rattle.gipsat_cnf.specs.Simplifying.{SaysSame};

use crate::collect::free_watches;
use crate::reduce::delete;
use crate::root::settle_root;
use crate::state::State;
use gipsat_kernel::Kernel;
use std::alloc::{AllocError, Global};

// Deletes a clause of more than one literal that a root literal satisfies. Where it is one of the formula, the unit
// clause of that literal stands for it.
fn drop_satisfied(kernel: &mut Kernel, state: &mut State, id: usize)
    ensures { SaysSame kernel.old kernel.new }
{
    let clause = kernel.clause(id).unwrap_or(&[]);
    if clause.len() < 2 {
        return;
    }
    let Some(l) = state.trail.fixed_literal(clause) else {
        return;
    };
    delete(kernel, state, id);
    if let Some(step) = state.trail.step_of(l) {
        kernel.subsume(id, step.reason as usize);
    }
}

// Drops all clauses that a root literal satisfies.
fn drop_all_satisfied(kernel: &mut Kernel, state: &mut State)
    ensures { SaysSame kernel.old kernel.new }
{
    for id in 0..kernel.len() {
        drop_satisfied(kernel, state, id);
    }
}

// Propagates what has to be true, makes it clauses of the formula, deletes the clauses that it satisfies, and frees the
// watches. Where a clause is falsified, nothing is deleted.
pub(crate) fn simplify(
    alloc: Global,
    kernel: &mut Kernel,
    state: &mut State,
) -> Result<(), AllocError>
    ensures same { OnOk result (SaysSame kernel.old kernel.new) }
    ensures refused { OnErr result (kernel.new ≡ kernel.old) }
{
    if settle_root(alloc, kernel, state)? {
        drop_all_satisfied(kernel, state);
        free_watches(alloc, state);
    }
    Ok(())
}
