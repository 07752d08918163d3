//! Collection: deleted clauses leave the kernel.
ghost use Rattle.std.specs.Prelude.{◌≡◌};

use crate::backtrack::backtrack;
use crate::settings::SETTINGS;
use crate::state::State;
use crate::units::learn_units;
use gipsat_kernel::Kernel;
use std::alloc::{AllocError, Global};

// Whether a collection drops a clause: it is no clause of the formula and no unit, and was deleted or is satisfied at
// the root. The latter only where each root literal has its unit clause: a clause that is the reason of one without it
// would be lost to the search.
pub(crate) fn is_deleted(kernel: &Kernel, state: &State, id: usize) -> bool {
    let clause = kernel.clause(id).unwrap_or(&[]);
    if kernel.is_original(id) || clause.len() < 2 {
        return false;
    }
    let are_units = state.units == state.trail.root_len();
    state.clauses.is_deleted(id) || are_units && state.trail.is_satisfied(clause)
}

// Whether enough clauses were deleted since the last collection.
pub(crate) fn wants_collection(kernel: &Kernel, state: &State) -> bool {
    let deleted = state.stats.deleted.saturating_sub(state.collected);
    deleted > kernel.len() as u64 / SETTINGS.collection_share
}

// For each clause whether it stays.
fn staying(alloc: Global, kernel: &Kernel, state: &State) -> Result<Vec<bool>, AllocError> {
    let mut stays = Vec::with_capacity(alloc, kernel.len())?;
    for id in 0..kernel.len() {
        stays.push(!is_deleted(kernel, state, id))?;
    }
    Ok(stays)
}

// How many of the first flags are set.
fn count_set(flags: &[bool], first: usize) -> usize {
    let mut count = 0usize;
    for flag in flags.iter().take(first) {
        count = count.saturating_add(usize::from(*flag));
    }
    count
}

// Forgets what it knows of clauses that went, by a flag for each, and lets all others be watched anew.
fn forget(state: &mut State, stays: &[bool], moved: &[u32]) {
    state.eliminated.renumber(moved);
    state.clauses.retain(stays);
    state.watches.clear();
    forget_root(state);
    state.vivified = count_set(stays, state.vivified);
    state.collected = state.stats.deleted;
}

// Forgets what is true at the root, since no clause is watched.
fn forget_root(state: &mut State) {
    state.trail.clear();
    state.activity.put_all_back();
    state.units = 0;
    state.assumed = 0;
    state.open = None;
}

// Frees the memory of all watches, and lets all clauses be watched anew.
pub(crate) fn free_watches(alloc: Global, state: &mut State) {
    state.clauses.detach_all();
    state.clauses.arena.free(alloc);
    state.watches.free(alloc);
    forget_root(state);
}

// Drops the deleted clauses.
pub(crate) fn collect(
    alloc: Global,
    kernel: &mut Kernel,
    state: &mut State,
) -> Result<(), AllocError>
    ensures { kernel.new ≡ kernel.old }
{
    backtrack(&mut state.trail, &mut state.activity, 0);
    learn_units(kernel, state)?;
    let mut stays = staying(alloc, kernel, state)?;
    let moved = state.eliminated.moved(alloc, &stays)?;
    kernel.collect(alloc, &mut stays)?;
    forget(state, &stays, &moved);
    Ok(())
}
