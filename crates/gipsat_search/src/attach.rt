//! Clauses that are not watched yet are watched, and units among them assigned, at the level where they are units.

use crate::activity::Activity;
use crate::backtrack::backtrack;
use crate::clauses::Status;
use crate::learn::watch;
use crate::stamps::Stamps;
use crate::state::State;
use crate::trail::{Trail, short};
use gipsat_cnf::Literal;
use gipsat_kernel::Kernel;
use std::alloc::AllocError;

// A place of a clause, and the level at which its literal is false: `usize::MAX` if it is not.
#[derive(Clone, Copy)]
struct Spot {
    place: usize,
    level: usize,
}

// The first place of a clause but one whose literal is not false, or else of one that is false at the highest level.
fn latest_but(trail: &Trail, clause: &[Literal], but: usize) -> Spot {
    let mut latest = Spot {
        place: usize::from(but == 0),
        level: 0,
    };
    for (place, l) in clause.iter().enumerate() {
        if place == but {
            continue;
        }
        if !trail.is_false(*l) {
            return Spot {
                place,
                level: usize::MAX,
            };
        }
        let level = trail.level_of(*l);
        if level > latest.level {
            latest = Spot { place, level };
        }
    }
    latest
}

// Whether a clause has a literal and its negation: every assignment satisfies it.
fn is_tautology(met: &mut Stamps, clause: &[Literal]) -> bool {
    met.clear();
    for l in clause {
        if met.has(l.negated().code()) {
            return true;
        }
        met.add(l.code());
    }
    false
}

// Watches two literals of a clause that are not false, or else became false last. The search goes back to where the
// clause is unit, and assigns its literal there, or to where it is not even unit. Whether it is falsified at the root.
fn attach(kernel: &Kernel, state: &mut State, id: usize) -> Result<bool, AllocError> {
    let clause = kernel.clause(id).unwrap_or(&[]);
    let first = latest_but(&state.trail, clause, clause.len());
    if first.level == 0 {
        return Ok(true);
    }
    let second = latest_but(&state.trail, clause, first.place);
    watch(state, clause, id, first.place, second.place)?;
    let trail = &mut state.trail;
    let activity = &mut state.activity;
    if second.level < first.level {
        assign_at(trail, activity, clause, first.place, second.level, id)?;
    } else if second.level < usize::MAX {
        backtrack(trail, activity, first.level - 1);
    }
    Ok(false)
}

// Goes back to a level and assigns the literal at a place of a clause there, unless it is true there.
fn assign_at(
    trail: &mut Trail,
    activity: &mut Activity,
    clause: &[Literal],
    place: usize,
    level: usize,
    id: usize,
) -> Result<(), AllocError> {
    let Some(l) = clause.get(place).copied() else {
        return Ok(());
    };
    if trail.is_true(l) && trail.level_of(l) <= level {
        return Ok(());
    }
    backtrack(trail, activity, level);
    if trail.is_unset(l) {
        trail.assign(l, short(id))?;
    }
    Ok(())
}

// Counts the next clause as looked at, without a watch. If it has no status, it gets one: it is deleted if every
// assignment satisfies it, and if it is not original, it was learned.
fn push_next(kernel: &Kernel, state: &mut State, id: usize) -> Result<(), AllocError> {
    let clause = kernel.clause(id).unwrap_or(&[]);
    if is_tautology(&mut state.met, clause) {
        state.clauses.push_unwatched(Status::Deleted)
    } else if kernel.is_original(id) {
        state.clauses.push_unwatched(Status::Kept)
    } else {
        state.clauses.push_learned(u32::MAX)
    }
}

// Watches the clauses again that wait for it. The id of a falsified clause, if one is met.
fn attach_waiting(kernel: &Kernel, state: &mut State) -> Result<Option<u32>, AllocError> {
    for _ in 0..usize::MAX {
        let Some(id) = state.clauses.next_waiting() else {
            return Ok(None);
        };
        if attach(kernel, state, id as usize)? {
            state.clauses.wait(id)?;
            return Ok(Some(id));
        }
    }
    Ok(None)
}

// Assigns the literals of the unit clauses from an id on, at the root. The id of one whose literal is false there, if
// there is one.
fn assign_units(
    kernel: &Kernel,
    trail: &mut Trail,
    activity: &mut Activity,
    from: usize,
) -> Result<Option<u32>, AllocError> {
    for id in from..kernel.len() {
        let clause = kernel.clause(id).unwrap_or(&[]);
        if clause.len() != 1 {
            continue;
        }
        assign_at(trail, activity, clause, 0, 0, id)?;
        if trail.are_false(clause) {
            return Ok(Some(short(id)));
        }
    }
    Ok(None)
}

// Watches the clauses that are not watched yet, the units first, so that these are the reasons of their literals. It
// goes back to where none of them is falsified. The id of one that is falsified at the root, if one is met: it is met
// again next time.
pub(crate) fn attach_new(kernel: &Kernel, state: &mut State) -> Result<Option<u32>, AllocError> {
    if let Some(conflict) = attach_waiting(kernel, state)? {
        return Ok(Some(conflict));
    }
    let from = state.clauses.attached();
    let conflict = assign_units(kernel, &mut state.trail, &mut state.activity, from)?;
    if conflict.is_some() {
        return Ok(conflict);
    }
    for id in from..kernel.len() {
        push_next(kernel, state, id)?;
        if !state.clauses.is_watched(id) {
            continue;
        }
        if attach(kernel, state, id)? {
            state.clauses.detach_last();
            return Ok(Some(short(id)));
        }
    }
    Ok(None)
}
