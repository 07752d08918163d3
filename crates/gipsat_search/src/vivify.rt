//! Vivification: learned clauses are shortened by propagation (M. Luo, C.-M. Li, F. Xiao, F. Manyà and Z. Lü, 2017).
ghost use Rattle.std.specs.Prelude.{◌≡◌};

use crate::backtrack::backtrack;
use crate::derive::{drop_root, marked_len, resolve_between};
use crate::propagate::propagate;
use crate::root::settle_root;
use crate::settings::SETTINGS;
use crate::state::State;
use gipsat_cnf::Literal;
use gipsat_kernel::Kernel;
use std::alloc::{AllocError, Global};

// What is met where the literals of a clause become false one after another: a falsified clause, or a literal that is
// true.
#[derive(Clone, Copy)]
enum Obstacle {
    Conflict(u32),
    IsTrue(Literal),
}

// Whether a clause is to be tried: it was learned, its glue is low, it has more than two literals, and no root literal
// satisfies it.
fn is_worthwhile(kernel: &Kernel, state: &State, id: usize) -> bool {
    let clause = kernel.clause(id).unwrap_or(&[]);
    match state.clauses.rating(id) {
        Some(rating) => {
            u32::from(rating.glue) <= SETTINGS.vivified_glue
                && clause.len() > 2
                && !state.trail.is_satisfied(clause)
        }
        None => false,
    }
}

// Makes one literal false, unless it is, and propagates.
fn falsify(
    alloc: Global,
    kernel: &Kernel,
    state: &mut State,
    l: Literal,
) -> Result<Option<Obstacle>, AllocError> {
    if state.trail.is_true(l) {
        return Ok(Some(Obstacle::IsTrue(l)));
    }
    if state.trail.is_false(l) {
        return Ok(None);
    }
    state.trail.decide(l.negated())?;
    match propagate(alloc, state)? {
        Some(conflict) => Ok(Some(Obstacle::Conflict(conflict))),
        None => Ok(None),
    }
}

// Makes the literals of a clause false, one after another. The obstacle, if one is met.
fn falsify_each(
    alloc: Global,
    kernel: &Kernel,
    state: &mut State,
    id: usize,
) -> Result<Option<Obstacle>, AllocError> {
    for l in kernel.clause(id).unwrap_or(&[]) {
        let obstacle = falsify(alloc, kernel, state, *l)?;
        if obstacle.is_some() {
            return Ok(obstacle);
        }
    }
    Ok(None)
}

// From which clause the derivation begins that an obstacle gives, and the place of the trail before which it resolves.
fn beginning(state: &State, obstacle: Obstacle) -> (u32, usize) {
    match obstacle {
        Obstacle::Conflict(id) => (id, state.trail.steps.len()),
        Obstacle::IsTrue(l) => match state.trail.step_of(l) {
            Some(step) => (step.reason, state.trail.place_of(l)),
            None => (u32::MAX, 0),
        },
    }
}

// Derives the clause that an obstacle gives, of negations of decisions and of the literal that is true, if it is
// shorter than `len`: its id.
fn derive_shorter(
    kernel: &mut Kernel,
    state: &State,
    obstacle: Obstacle,
    len: usize,
) -> Result<Option<usize>, AllocError>
    ensures { kernel.new ≡ kernel.old }
{
    let (first, end) = beginning(state, obstacle);
    if !kernel.begin(first as usize)? {
        return Ok(None);
    }
    let start = state.trail.root_len();
    resolve_between(kernel, &state.trail, start, end)?;
    drop_root(kernel, &state.trail)?;
    let shorter = marked_len(kernel);
    if shorter >= len {
        kernel.cancel();
        return Ok(None);
    }
    kernel.conclude()
}

// Tries to shorten a clause. The shorter one is watched in its place.
fn shorten(
    alloc: Global,
    kernel: &mut Kernel,
    state: &mut State,
    id: usize,
) -> Result<(), AllocError>
    ensures { kernel.new ≡ kernel.old }
{
    backtrack(&mut state.trail, &mut state.activity, 0);
    let len = kernel.clause(id).unwrap_or(&[]).len();
    let Some(obstacle) = falsify_each(alloc, kernel, state, id)? else {
        return Ok(());
    };
    let Some(shorter) = derive_shorter(kernel, state, obstacle, len)? else {
        return Ok(());
    };
    state
        .clauses
        .replace(id, kernel.clause(shorter).unwrap_or(&[]).len())?;
    state.stats.deleted = state.stats.deleted.saturating_add(1);
    settle_root(alloc, kernel, state)?;
    Ok(())
}

// Tries to shorten the clauses from an id on, the latest first, until so many literals were propagated in all, or a
// conflict is met at the root.
fn shorten_each(
    alloc: Global,
    kernel: &mut Kernel,
    state: &mut State,
    from: usize,
    end: u64,
) -> Result<(), AllocError>
    ensures { kernel.new ≡ kernel.old }
{
    for id in (from..kernel.len()).rev() {
        if state.stats.propagations >= end || state.open.is_some() {
            return Ok(());
        }
        if is_worthwhile(kernel, state, id) {
            shorten(alloc, kernel, state, id)?;
        }
    }
    Ok(())
}

// Tries to shorten the clauses of low glue that were learned since the last call, the latest first, until about so many
// literals were propagated. Statistics stay as they are, but for the number of deleted clauses.
pub(crate) fn vivify(
    alloc: Global,
    kernel: &mut Kernel,
    state: &mut State,
    propagations: u64,
) -> Result<(), AllocError>
    ensures { kernel.new ≡ kernel.old }
{
    let before = state.stats.propagations;
    if settle_root(alloc, kernel, state)? {
        let end = before.saturating_add(propagations);
        let from = state.vivified;
        shorten_each(alloc, kernel, state, from, end)?;
        backtrack(&mut state.trail, &mut state.activity, 0);
    }
    state.vivified = kernel.len();
    state.stats.propagations = before;
    Ok(())
}
