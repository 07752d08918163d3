//! What stays of the trail between two calls.

use crate::attach::attach_new;
use crate::backtrack::backtrack;
use crate::state::State;
use crate::trail::Trail;
use gipsat_cnf::Literal;
use gipsat_kernel::Kernel;
use std::alloc::AllocError;

// The level up to which the trail may stay for these assumptions: the levels of those that were decided first, in this
// order, and all others where none is left.
fn level_to_keep(trail: &Trail, assumptions: &[Literal]) -> usize {
    let mut level = 0usize;
    for l in assumptions {
        if trail.is_decided_above(level, *l) {
            level = level.saturating_add(1);
        } else if !trail.is_true(*l) || trail.level_of(*l) > level {
            return level;
        }
    }
    trail.level()
}

// Keeps the trail of the last call as far as it may stay, and watches the clauses that are new. False where the call
// has to begin at the root: the first assumption or the domain is another, nothing was decided, a model was reopened,
// or a clause is falsified at the root.
pub(crate) fn keep_trail(
    kernel: &Kernel,
    state: &mut State,
    assumptions: &[Literal],
    domain: Option<&[u32]>,
) -> Result<bool, AllocError> {
    let level = level_to_keep(&state.trail, assumptions);
    if level == 0 || state.open.is_some() || !state.activity.is_limited_to(domain, assumptions) {
        return Ok(false);
    }
    backtrack(&mut state.trail, &mut state.activity, level);
    state.assumed = 0;
    Ok(attach_new(kernel, state)?.is_none())
}
