//! Restarts: decisions are taken back so that others come first. Those that would be made again stay (P. van der Tak,
//! A. Ramos and M. Heule, 2011).

use crate::backtrack::backtrack;
use crate::state::State;
use gipsat_kernel::Kernel;
use std::alloc::{AllocError, Global};

// Whether a turn of the other mode begins at the next restart, or phases are reset.
fn begins_anew(state: &State) -> bool {
    let modes = state.restart_policy.modes;
    modes.has_ended(state.stats.conflicts, state.stats.propagations)
        || modes.is_allowed() && state.phases.reset_is_due(state.stats.conflicts)
}

// The level to which a restart backtracks: the root in a domain, and where a turn begins or phases are reset. Else the
// first levels stay, as far as their decisions come before the next one.
fn restart_level(state: &mut State) -> usize {
    if state.activity.is_limited() || begins_anew(state) {
        return 0;
    }
    let Some(next) = state.activity.next(&state.trail) else {
        return 0;
    };
    let score = state.activity.score(next);
    for (level, start) in state.trail.level_starts.iter().enumerate() {
        match state.trail.steps.get(*start as usize) {
            Some(step) if state.activity.score(step.literal.variable()) > score => {}
            _ => return level,
        }
    }
    state.trail.level()
}

// The search has restarted: begins the next turn and resets the saved phases, if that is due.
fn note_restart(alloc: Global, kernel: &Kernel, state: &mut State) -> Result<(), AllocError> {
    state.stats.restarts = state.stats.restarts.saturating_add(1);
    let conflicts = state.stats.conflicts;
    let propagations = state.stats.propagations;
    if state.restart_policy.turn(conflicts, propagations) {
        state.phases.begin_turn();
    }
    if !state.restart_policy.modes.is_allowed() {
        return Ok(());
    }
    if let Some(phases) = state.phases.reset(alloc, &state.trail, conflicts)? {
        let mut walk = state.phases.walk(alloc, phases, propagations);
        let phases = walk.phases(alloc, kernel, &state.trail, &state.clauses)?;
        state.trail.set_phases(phases);
    }
    Ok(())
}

// Restarts if the policy says so.
pub(crate) fn restart(alloc: Global, kernel: &Kernel, state: &mut State) -> Result<(), AllocError> {
    let literals = state.trail.steps.len();
    let propagations = state.stats.propagations;
    if !state.restart_policy.restart_is_due(propagations, literals) {
        return Ok(());
    }
    let level = restart_level(state);
    backtrack(&mut state.trail, &mut state.activity, level);
    state.assumed = 0;
    note_restart(alloc, kernel, state)
}
