//! The root: what is true without a decision.
ghost use Rattle.std.specs.Prelude.{◌≡◌};

use crate::attach::attach_new;
use crate::backtrack::backtrack_to_root;
use crate::propagate::propagate;
use crate::state::State;
use crate::units::learn_units;
use gipsat_kernel::Kernel;
use std::alloc::{AllocError, Global};

// Backtracks to the root, watches all clauses, and propagates. The id of a falsified clause, if one is met. If one was
// met before, the root is propagated again, so that it is met again.
fn propagate_root(
    alloc: Global,
    kernel: &Kernel,
    state: &mut State,
) -> Result<Option<u32>, AllocError> {
    backtrack_to_root(&mut state.trail, &mut state.activity);
    state.assumed = 0;
    if state.open.is_some() {
        state.open = None;
        state.trail.propagated = 0;
    }
    if let Some(conflict) = attach_new(kernel, state)? {
        return Ok(Some(conflict));
    }
    propagate(alloc, state)
}

// Backtracks to the root, watches all clauses, and propagates; each root literal becomes a clause, also where a clause
// is falsified, so that a collection derives none. Whether no clause is falsified; if one is, the next search meets it.
pub(crate) fn settle_root(
    alloc: Global,
    kernel: &mut Kernel,
    state: &mut State,
) -> Result<bool, AllocError>
    ensures { kernel.new ≡ kernel.old }
{
    let conflict = propagate_root(alloc, kernel, state)?;
    learn_units(kernel, state)?;
    state.open = conflict;
    Ok(conflict.is_none())
}
