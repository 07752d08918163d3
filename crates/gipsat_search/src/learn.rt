//! Learning from a conflict: the derived clause is watched, and asserts a literal after a backjump.
ghost use Rattle.std.specs.Prelude.{◌≡◌};

use crate::analyze::analyze;
use crate::backtrack::backtrack;
use crate::state::State;
use crate::trail::{Trail, short};
use crate::watches::Watch;
use gipsat_cnf::Literal;
use gipsat_kernel::Kernel;
use std::alloc::AllocError;

// The place of a literal of the highest level of a clause, but one place.
fn highest_but(trail: &Trail, clause: &[Literal], but: usize) -> usize {
    let mut highest = usize::from(but == 0);
    let mut level = 0;
    for (place, l) in clause.iter().enumerate() {
        let own = trail.level_of(*l);
        if place != but && own > level {
            highest = place;
            level = own;
        }
    }
    highest
}

// The highest level of a clause's literals.
fn highest_level(trail: &Trail, clause: &[Literal]) -> usize {
    let mut level = 0;
    for l in clause {
        level = level.max(trail.level_of(*l));
    }
    level
}

// Watches the next clause by the literals at two places of it, of which each blocks the other.
pub(crate) fn watch_next(
    kernel: &Kernel,
    state: &mut State,
    id: usize,
    first: usize,
    second: usize,
    glue: Option<u32>,
) -> Result<(), AllocError> {
    match glue {
        Some(glue) => state.clauses.push_learned(glue)?,
        None => state.clauses.push_kept()?,
    }
    let clause = kernel.clause(id).unwrap_or(&[]);
    watch(state, clause, id, first, second)
}

// Adds the two watches of a clause, if both literals are there: by its copy in the arena, or if it has two literals by
// its id.
pub(crate) fn watch(
    state: &mut State,
    clause: &[Literal],
    id: usize,
    first: usize,
    second: usize,
) -> Result<(), AllocError> {
    let Some(l) = clause.get(first).copied() else {
        return Ok(());
    };
    let Some(m) = clause.get(second).copied() else {
        return Ok(());
    };
    let is_binary = clause.len() == 2;
    let number = if is_binary {
        short(id)
    } else {
        state.clauses.settle(clause, id, first, second)?
    };
    state.watches.add(l, Watch::new(number, m, is_binary))?;
    state.watches.add(m, Watch::new(number, l, is_binary))
}

// Notes a learned clause before the backjump: its glue.
fn note_learned(state: &mut State, clause: &[Literal]) -> u32 {
    let glue = state.glue.of(&state.trail, clause);
    state.restart_policy.add(glue);
    if state.restart_policy.modes.is_stable() {
        state.phases.note_conflict(&state.trail);
    }
    glue
}

// Backjumps to where a learned clause is asserting, watches it, and assigns its asserted literal.
fn assert_learned(kernel: &Kernel, state: &mut State, id: usize) -> Result<(), AllocError> {
    let clause = kernel.clause(id).unwrap_or(&[]);
    let first = highest_but(&state.trail, clause, clause.len());
    let second = highest_but(&state.trail, clause, first);
    let glue = note_learned(state, clause);
    let level = match clause.get(second) {
        Some(l) => state.trail.level_of(*l),
        None => 0,
    };
    backtrack(&mut state.trail, &mut state.activity, level);
    watch_next(kernel, state, id, first, second, Some(glue))?;
    match clause.get(first) {
        Some(l) if state.trail.is_unset(*l) => state.trail.assign(*l, short(id)),
        _ => Ok(()),
    }
}

// A conflict was met: later bumps count more.
fn count_conflict(state: &mut State) {
    state.stats.conflicts = state.stats.conflicts.saturating_add(1);
    state.activity.decay(state.restart_policy.modes.growth());
    state.clauses.decay();
}

// The id of a derived clause that is empty, where a clause is. From one of the formula it is derived, so that each
// proof ends with a derived one.
fn derive_empty(kernel: &mut Kernel, id: usize) -> Result<Option<usize>, AllocError>
    ensures { kernel.new ≡ kernel.old }
{
    let last = kernel.len().saturating_sub(1);
    if kernel.is_refuted(last) && !kernel.is_original(last) {
        return Ok(Some(last));
    }
    if kernel.is_original(id) {
        kernel.begin(id)?;
        return kernel.conclude();
    }
    Ok(Some(id))
}

// Learns from a conflict. The id of the learned clause where it is empty.
pub(crate) fn learn(
    kernel: &mut Kernel,
    state: &mut State,
    conflict: u32,
) -> Result<Option<usize>, AllocError>
    ensures { kernel.new ≡ kernel.old }
{
    if kernel.is_refuted(conflict as usize) {
        return derive_empty(kernel, conflict as usize);
    }
    let level = highest_level(
        &state.trail,
        kernel.clause(conflict as usize).unwrap_or(&[]),
    );
    backtrack(&mut state.trail, &mut state.activity, level);
    state.assumed = 0;
    let learned = analyze(kernel, state, conflict)?;
    count_conflict(state);
    let Some(id) = learned else {
        return Ok(None);
    };
    if kernel.is_refuted(id) {
        return Ok(Some(id));
    }
    assert_learned(kernel, state, id)?;
    Ok(None)
}
