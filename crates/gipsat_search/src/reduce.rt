//! Reductions: most of the learned clauses that were not used of late are deleted (Audemard and Simon, 2009; Oh, 2015).

use crate::clauses::{Clauses, Rating};
use crate::settings::SETTINGS;
use crate::state::State;
use crate::watches::Watch;
use gipsat_cnf::Literal;
use gipsat_kernel::Kernel;
use std::alloc::{AllocError, Global};
use std::num::f32_to_bits_with_nan;

// Whether a learned clause stays whatever it is worth: its glue is low, or it was used of late.
fn is_safe(rating: Rating) -> bool {
    u32::from(rating.glue) <= SETTINGS.safe_glue || rating.turns > 0
}

// What a learned clause is worth: by its glue, and then by its activity.
fn worth(rating: Rating) -> u64 {
    let glue = u64::from(u8::MAX - rating.glue);
    (glue << 32) | u64::from(f32_to_bits_with_nan(rating.activity))
}

// What a clause has to be worth to be among the best of those that may go, which stay.
fn least_worth(alloc: Global, clauses: &Clauses) -> Result<u64, AllocError> {
    let mut worths: Vec<u64> = Vec::new(alloc);
    for id in 0..clauses.attached() {
        if let Some(rating) = clauses.rating(id) {
            if !is_safe(rating) {
                worths.push(worth(rating))?;
            }
        }
    }
    worths.sort_unstable();
    let staying = worths.len() / SETTINGS.staying_share;
    Ok(match worths.get(worths.len().saturating_sub(staying)) {
        Some(worth) => *worth,
        None => 0,
    })
}

// Whether a clause stays: it is not learned, or it is short, safe or worth enough.
fn stays(clauses: &Clauses, clause: &[Literal], id: usize, least: u64) -> bool {
    match clauses.rating(id) {
        Some(rating) => is_safe(rating) || worth(rating) >= least || clause.len() < 3,
        None => true,
    }
}

// Watches a clause again at its places.
fn watch_again(state: &mut State, clause: &[Literal], id: usize) -> Result<(), AllocError> {
    let Some((first, second, number)) = state.clauses.watched(clause, id) else {
        return Ok(());
    };
    let is_binary = clause.len() == 2;
    state
        .watches
        .add(first, Watch::new(number, second, is_binary))?;
    state
        .watches
        .add(second, Watch::new(number, first, is_binary))
}

// Deletes a clause.
pub(crate) fn delete(kernel: &Kernel, state: &mut State, id: usize) {
    state.clauses.delete(id);
    if !kernel.is_original(id) {
        state.stats.deleted = state.stats.deleted.saturating_add(1);
    }
}

// Watches a clause again, or deletes it: if it is satisfied at the root, or learned and worth less.
fn keep(kernel: &Kernel, state: &mut State, id: usize, least: u64) -> Result<(), AllocError> {
    if !state.clauses.is_watched(id) {
        return Ok(());
    }
    let clause = kernel.clause(id).unwrap_or(&[]);
    if !stays(&state.clauses, clause, id, least)
        || clause.len() > 1 && state.trail.is_satisfied(clause)
    {
        delete(kernel, state, id);
        return Ok(());
    }
    watch_again(state, clause, id)?;
    state.clauses.age(id);
    Ok(())
}

// Deletes most of the learned clauses that were not used of late, once the policy says so.
pub(crate) fn reduce(alloc: Global, kernel: &Kernel, state: &mut State) -> Result<(), AllocError> {
    if !state
        .restart_policy
        .reduce_is_due(kernel.len(), state.stats.conflicts)
    {
        return Ok(());
    }
    let least = least_worth(alloc, &state.clauses)?;
    state.watches.clear();
    for id in 0..kernel.len() {
        keep(kernel, state, id, least)?;
    }
    Ok(())
}
