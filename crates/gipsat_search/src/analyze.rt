//! Conflict analysis: resolution to the first UIP (J. Marques-Silva and K. Sakallah, 1996), and minimization.
ghost use Rattle.std.specs.Prelude.{◌≡◌};

use crate::derive::{drop_root, resolve_between};
use crate::minimize::minimize;
use crate::settings::SETTINGS;
use crate::state::State;
use crate::trail::Trail;
use gipsat_kernel::Kernel;
use std::alloc::AllocError;

// Bumps the variables of the literals that came into the clause at hand, the marked ones from a place on, but for those
// of the root. How many are of the conflict level.
fn note_marked(kernel: &Kernel, state: &mut State, from: usize) -> usize {
    let level = state.trail.level();
    let mut count = 0usize;
    let marked = kernel.marked();
    for place in from..marked.len() {
        let Some(l) = marked.get(place).copied() else {
            return count;
        };
        let own = state.trail.level_of(l);
        if own > 0 {
            state.activity.bump(l.variable());
            count = count.saturating_add(usize::from(own == level));
        }
    }
    count
}

// A conflict was resolved with a clause: bumps it, if it was learned, and counts its glue anew unless that is low.
fn note_use(kernel: &Kernel, state: &mut State, id: u32) {
    let Some(rating) = state.clauses.rating(id as usize) else {
        return;
    };
    let old = u32::from(rating.glue);
    let glue = if old > SETTINGS.safe_glue {
        let clause = kernel.clause(id as usize).unwrap_or(&[]);
        state.glue.of(&state.trail, clause)
    } else {
        old
    };
    state.clauses.use_clause(id as usize, glue);
}

// Resolves the clause at hand with the reason of the literal at a place of the trail, if it has that literal's
// negation. How many of its literals are of the conflict level then, where `pending` were before.
fn resolve_back(
    kernel: &mut Kernel,
    state: &mut State,
    place: usize,
    pending: usize,
) -> Result<usize, AllocError>
    ensures { kernel.new ≡ kernel.old }
{
    let Some(step) = state.trail.steps.get(place).copied() else {
        return Ok(pending);
    };
    let before = kernel.marked().len();
    if !kernel.resolve(step.literal, step.reason as usize)? {
        return Ok(pending);
    }
    let more = note_marked(kernel, state, before);
    note_use(kernel, state, step.reason);
    Ok(pending.saturating_add(more).saturating_sub(1))
}

// Resolves literals of the conflict level with their reasons, the latest first, until one is left: the first UIP.
fn resolve_to_first_uip(
    kernel: &mut Kernel,
    state: &mut State,
    pending: usize,
) -> Result<(), AllocError>
    ensures { kernel.new ≡ kernel.old }
{
    let mut pending = pending;
    for place in (0..state.trail.steps.len()).rev() {
        if pending < 2 {
            return Ok(());
        }
        pending = resolve_back(kernel, state, place, pending)?;
    }
    Ok(())
}

// Bumps the variables in the reasons of the literals of the clause at hand in the stable mode, but for the first marked
// ones, which are so many.
fn bump_reason_sides(
    kernel: &Kernel,
    state: &mut State,
    analyzed: usize,
) -> Result<(), AllocError> {
    if !state.restart_policy.modes.is_stable() {
        return Ok(());
    }
    state.reason_sides.collect(kernel, &state.trail, analyzed)?;
    for variable in state.reason_sides.variables() {
        state.activity.bump(*variable);
    }
    Ok(())
}

// Derives the clause of a conflict above the root: resolves the falsified clause to the first UIP, minimizes it, and
// leaves out what is false at the root.
fn analyze_above_root(
    kernel: &mut Kernel,
    state: &mut State,
    conflict: u32,
) -> Result<Option<usize>, AllocError>
    ensures { kernel.new ≡ kernel.old }
{
    kernel.begin(conflict as usize)?;
    let pending = note_marked(kernel, state, 0);
    note_use(kernel, state, conflict);
    resolve_to_first_uip(kernel, state, pending)?;
    let analyzed = kernel.marked().len();
    minimize(kernel, &state.trail, &mut state.chains)?;
    bump_reason_sides(kernel, state, analyzed)?;
    drop_root(kernel, &state.trail)?;
    kernel.conclude()
}

// Derives the clause of a conflict: the id of the learned clause. At the root it is the empty clause.
pub(crate) fn analyze(
    kernel: &mut Kernel,
    state: &mut State,
    conflict: u32,
) -> Result<Option<usize>, AllocError>
    ensures { kernel.new ≡ kernel.old }
{
    if state.trail.level() > 0 {
        return analyze_above_root(kernel, state, conflict);
    }
    kernel.begin(conflict as usize)?;
    let end = state.trail.steps.len();
    resolve_between(kernel, &state.trail, 0, end)?;
    kernel.conclude()
}

// Derives the clause that shows why an assumption fails whose negation is at a place of the trail: that negation, and
// negations of decisions from which it follows. None where it is a decision.
pub(crate) fn analyze_final(
    kernel: &mut Kernel,
    trail: &Trail,
    place: usize,
) -> Result<Option<usize>, AllocError>
    ensures { kernel.new ≡ kernel.old }
{
    let Some(step) = trail.steps.get(place).copied() else {
        return Ok(None);
    };
    if !kernel.begin(step.reason as usize)? {
        return Ok(None);
    }
    resolve_between(kernel, trail, trail.root_len(), place)?;
    drop_root(kernel, trail)?;
    kernel.conclude()
}
